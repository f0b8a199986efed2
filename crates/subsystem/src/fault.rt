ghost use Rattle.std.specs.Prelude.{◌≡◌};
ghost use Rattle.subsystem.specs.Faults.{fault_refusal, port_climbed};
ghost use Rattle.subsystem.specs.declared.fault.Fault.TheVariants.{Carrier, Register};

use register::RegisterFault;
use table::TableFault;
use thiserror::Error;
use wire::{Refused, WireFault};

// Why the subsystem refuses a call.
#[derive(Clone, Copy, Debug, PartialEq, Eq, Error)]
pub enum Fault {
    // rows or port memory are shorter than this
    #[error("rows or port memory too short: length {needed} needed")]
    MemoryTooShort { needed: usize },
    // an enrolment or a report of this controller is malformed
    #[error("malformed enrolment or report of controller {id}")]
    Malformed { id: u16 },
    // kind 0
    #[error("kind 0")]
    NoKind,
    #[error("no Responder {responder}")]
    NoSuchResponder { responder: u8 },
    #[error("Responder {responder} is of another kind")]
    ResponderOfAnotherKind { responder: u8 },
    // a port has this identifier already
    #[error("port {id} was added already")]
    PortPresent { id: u8 },
    // no controller, or no port, has this identifier
    #[error("unknown identifier {id}")]
    UnknownIdentifier { id: u16 },
    #[error("a ninth Responder")]
    NinthResponder,
    // opening without a controller or without a Responder
    #[error("opening without a controller or without a Responder")]
    NothingToOpen,
    #[error("a ninth port")]
    NinthPort,
    // what a register refused
    #[error("{0}")]
    Register(RegisterFault),
    // what a carrier refused, or space for writing that is too short
    #[error("{0}")]
    Carrier(WireFault),
}

impl Refused for Fault {
    ghost refusal = { fault_refusal };

    fn number(self) -> u8 {
        match self {
            Fault::MemoryTooShort { .. } => 1,
            Fault::Malformed { .. } => 7,
            Fault::NoKind => 8,
            Fault::NoSuchResponder { .. } => 20,
            Fault::ResponderOfAnotherKind { .. } => 21,
            Fault::PortPresent { .. } => 22,
            Fault::UnknownIdentifier { .. } => 24,
            Fault::NinthResponder => 25,
            Fault::NothingToOpen => 26,
            Fault::NinthPort => 27,
            Fault::Register(fault) => fault.number(),
            Fault::Carrier(fault) => fault.number(),
        }
    }

    fn layer(self) -> u8 {
        match self {
            Fault::Register(fault) => fault.layer(),
            Fault::Carrier(fault) => fault.layer(),
            _ => 1,
        }
    }

    fn place(self) -> usize {
        match self {
            Fault::MemoryTooShort { needed } => needed,
            Fault::Malformed { id } => usize::from(id),
            Fault::NoKind => 0,
            Fault::NoSuchResponder { responder } => usize::from(responder),
            Fault::ResponderOfAnotherKind { responder } => usize::from(responder),
            Fault::PortPresent { id } => usize::from(id),
            Fault::UnknownIdentifier { id } => usize::from(id),
            Fault::NinthResponder => 8,
            Fault::NothingToOpen => 0,
            Fault::NinthPort => 8,
            Fault::Register(fault) => fault.place(),
            Fault::Carrier(fault) => fault.place(),
        }
    }
}

// The conversions are by hand: contracts name the fault that a `?` makes.
impl From<RegisterFault> for Fault {
    ghost from_gives = { λ f r. r ≡ Register f };

    fn from(fault: RegisterFault) -> Fault {
        Fault::Register(fault)
    }
}

impl From<WireFault> for Fault {
    ghost from_gives = { λ f r. r ≡ Carrier f };

    fn from(fault: WireFault) -> Fault {
        Fault::Carrier(fault)
    }
}

// A fault of the port table: an identifier that is present is the subsystem's refusal, and a full table is port memory too short.
impl From<TableFault<u8>> for Fault {
    ghost from_gives = { λ f r. r ≡ port_climbed f };

    fn from(fault: TableFault<u8>) -> Fault {
        match fault {
            TableFault::Present { number } => Fault::PortPresent { id: number },
            TableFault::Full { capacity } => Fault::MemoryTooShort {
                needed: capacity.saturating_add(1),
            },
        }
    }
}
