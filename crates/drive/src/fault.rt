use console::HexFault;
use std::num::TryFromIntError;
use thiserror::Error;

// Why a line is no call.
#[derive(Clone, Copy, Debug, Error)]
pub enum LineFault {
    #[error("unknown call")]
    UnknownCall,
    #[error("missing field")]
    MissingField,
    #[error("surplus field")]
    SurplusField,
    #[error("not a number in its range")]
    NotANumber,
    #[error("not a status of four hex digits")]
    NotAStatus,
    #[error("not a warning of two hex digits")]
    NotAWarning,
    #[error("not 0 or 1")]
    NotAFlag,
    #[error("not up or down")]
    NotALink,
    #[error("not a carrier")]
    NotACarrier,
    #[error("not a register")]
    NotARegister,
    #[error("{0}")]
    Hex(#[from] HexFault),
}

// By hand: `NotANumber` holds no cause, since text that is no decimal number has none.
impl From<TryFromIntError> for LineFault {
    fn from(_e: TryFromIntError) -> LineFault {
        LineFault::NotANumber
    }
}
