use console::RefusalText;
use std::io;
use subsystem::Fault;
use thiserror::Error;
use wire::WireFault;

// Why the run ends early.
#[derive(Clone, Copy, Debug, Error)]
pub enum RunFault {
    #[error("{text}", text = RefusalText {fault: *.0})]
    Refused(#[from] Fault),
    #[error("standard output is closed")]
    NotPrinted,
}

// By hand: what a carrier refused is the subsystem's refusal.
impl From<WireFault> for RunFault {
    fn from(fault: WireFault) -> RunFault {
        RunFault::Refused(Fault::Carrier(fault))
    }
}

// By hand: an `io::Error` is not kept, and its words are others.
impl From<io::Error> for RunFault {
    fn from(_e: io::Error) -> RunFault {
        RunFault::NotPrinted
    }
}
