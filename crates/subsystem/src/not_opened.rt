ghost use Rattle.std.specs.Prelude.{◌≡◌};

use crate::builder::SubsystemBuilder;
use crate::fault::Fault;

// A builder that was not opened, as it was, and why.
#[derive(Drop)]
pub struct NotOpened {
    pub builder: SubsystemBuilder,
    pub fault: Fault,
}

// Of a refused opening only the fault is passed on.
impl From<NotOpened> for Fault {
    ghost from_gives = { λ n f. f ≡ n.fault };

    fn from(refused: NotOpened) -> Fault {
        refused.fault
    }
}
