ghost use Rattle.wire.specs.Refusals.{refusal};

use crate::refused::Refused;
use thiserror::Error;

// Why bytes are refused, or a message is not written.
#[derive(Clone, Copy, Debug, PartialEq, Eq, Error)]
pub enum WireFault {
    // The space lent for writing is shorter than needed.
    #[error("space too short: length {needed} needed")]
    SpaceTooShort { needed: usize },
    // A message, head or entry is cut short, or a submission entry not of its length.
    #[error("cut short, or of another length: {found}")]
    CutShort { found: usize },
    // Byte 0 is another.
    #[error("wrong byte 0")]
    WrongFirstByte,
    // ROR or the message type, in the NMP byte at this place, is another.
    #[error("wrong ROR or message type in byte {place}")]
    WrongMessageType { place: usize },
    // The opcode does not go with NVMe-MI Send or with NVMe-MI Receive.
    #[error("opcode against NVMe-MI Send or Receive in byte 44")]
    WrongDirection,
}

impl Refused for WireFault {
    ghost refusal = { refusal };

    fn number(self) -> u8 {
        match self {
            WireFault::SpaceTooShort { .. } => 2,
            WireFault::CutShort { .. } => 3,
            WireFault::WrongFirstByte => 4,
            WireFault::WrongMessageType { .. } => 5,
            WireFault::WrongDirection => 6,
        }
    }

    fn layer(self) -> u8 {
        match self {
            WireFault::SpaceTooShort { .. } => 1,
            _ => 3,
        }
    }

    fn place(self) -> usize {
        match self {
            WireFault::SpaceTooShort { needed } => needed,
            WireFault::CutShort { found } => found,
            WireFault::WrongFirstByte => 0,
            WireFault::WrongMessageType { place } => place,
            WireFault::WrongDirection => 44,
        }
    }
}
