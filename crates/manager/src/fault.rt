use console::HexFault;
use std::alloc::AllocError;
use std::num::ParseIntError;
use thiserror::Error;

// Why a line is no captured message and no request to write.
#[derive(Clone, Copy, Debug, Error)]
pub enum LineFault {
    #[error("a line begins with endpoint, tunnel or ask")]
    UnknownLine,
    #[error("a carrier is endpoint or tunnel")]
    UnknownCarrier,
    #[error("a captured message is a request or a reply")]
    UnknownMessage,
    #[error("unknown command")]
    UnknownCommand,
    #[error("a value is NAME=VALUE with a name of its command")]
    UnknownName,
    #[error("a value is out of its range")]
    NotAValue,
    #[error("{0}")]
    Hex(#[from] HexFault),
    #[error("out of memory")]
    OutOfMemory(#[from] AllocError),
}

// By hand: `NotAValue` holds no cause, since a bit that is no 0 or 1 has none.
impl From<ParseIntError> for LineFault {
    fn from(_e: ParseIntError) -> LineFault {
        LineFault::NotAValue
    }
}
