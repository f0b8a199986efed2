ghost use Rattle.std.specs.Prelude.{◌≡◌};
ghost use Rattle.register.specs.RegisterRefusals.{register_refusal, climbed};

use table::TableFault;
use thiserror::Error;
use wire::Refused;

// Why a register does not enroll a controller.
#[derive(Clone, Copy, Debug, PartialEq, Eq, Error)]
pub enum RegisterFault {
    // a controller has this Controller ID already
    #[error("Controller ID {id} is enrolled already")]
    Present { id: u16 },
    // the register is at its capacity
    #[error("register full: capacity {capacity}")]
    Full { capacity: usize },
}

impl Refused for RegisterFault {
    ghost refusal = { register_refusal };

    fn number(self) -> u8 {
        match self {
            RegisterFault::Present { .. } => 22,
            RegisterFault::Full { .. } => 23,
        }
    }

    fn layer(self) -> u8 {
        2
    }

    fn place(self) -> usize {
        match self {
            RegisterFault::Present { id } => usize::from(id),
            RegisterFault::Full { capacity } => capacity,
        }
    }
}

// By hand: contracts name the fault that a `?` makes.
impl From<TableFault<u16>> for RegisterFault {
    ghost from_gives = { λ f r. r ≡ climbed f };

    fn from(fault: TableFault<u16>) -> RegisterFault {
        match fault {
            TableFault::Present { number } => RegisterFault::Present { id: number },
            TableFault::Full { capacity } => RegisterFault::Full { capacity },
        }
    }
}
