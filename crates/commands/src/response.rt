ghost use Rattle.std.specs.Prelude.{◌≡◌};
ghost use Rattle.commands.specs.Status.{status_in};

use std::fmt;
use wire::Head;

// What a reply's head says of its request. No Result: `Success` stands in print with the others.
#[derive(Clone, Copy)]
pub enum ResponseStatus {
    Success,
    InvalidOpcode,
    // the Parameter Error Location: the byte of the endpoint message that is at fault
    InvalidParameter { byte: u16 },
    InvalidCommandSize,
    Other { status: u8 },
}

impl From<Head> for ResponseStatus {
    ghost from_gives = { λ head status. status ≡ status_in head };

    fn from(head: Head) -> ResponseStatus {
        match head.status {
            0x00 => ResponseStatus::Success,
            0x03 => ResponseStatus::InvalidOpcode,
            0x04 => ResponseStatus::InvalidParameter {
                byte: ((head.nmresp >> 8) % 0x1_0000) as u16,
            },
            0x05 => ResponseStatus::InvalidCommandSize,
            status => ResponseStatus::Other { status },
        }
    }
}

impl fmt::Display for ResponseStatus {
    fn fmt<W: fmt::Write>(&self, f: &mut fmt::Formatter<W>) -> fmt::Result {
        match self {
            ResponseStatus::Success => write!(f, "00h Success"),
            ResponseStatus::InvalidOpcode => write!(f, "03h Invalid Command Opcode"),
            ResponseStatus::InvalidParameter { byte } => write!(
                f,
                "04h Invalid Parameter, byte {byte}"
            ),
            ResponseStatus::InvalidCommandSize => write!(f, "05h Invalid Command Size"),
            ResponseStatus::Other { status } => write!(f, "{status:02X}h"),
        }
    }
}
