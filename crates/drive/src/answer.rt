use console::{HexBytes, RefusalNumbers};
use std::fmt;
use subsystem::Fault;
use thiserror::Error;

// What a call is granted.
#[derive(Clone, Copy)]
pub enum Grant<'a> {
    Done,
    // the number of the Responder
    Numbered(u8),
    // the bytes of the reply
    Replied(&'a [u8]),
    // the word of the flags that a report gains
    Gained(u16),
    Code(u8),
}

impl fmt::Display for Grant<'_> {
    fn fmt<W: fmt::Write>(&self, f: &mut fmt::Formatter<W>) -> fmt::Result {
        match self {
            Grant::Done => write!(f, "granted"),
            Grant::Numbered(number) => write!(f, "granted {number}"),
            Grant::Replied(bytes) => {
                let reply = HexBytes { bytes };
                write!(f, "granted {reply}")
            }
            Grant::Gained(flags) => write!(f, "{flags:04X}"),
            Grant::Code(code) => write!(f, "{code:02X}"),
        }
    }
}

// Why a call is not granted.
#[derive(Clone, Copy, Debug, Error)]
pub enum CallFault {
    #[error("{numbers}", numbers = RefusalNumbers {fault: *.0})]
    Refused(#[from] Fault),
    // out of phase
    #[error("misuse")]
    Misuse,
}
