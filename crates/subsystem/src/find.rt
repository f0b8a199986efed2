// Where a controller stands in a register.
ghost use Rattle.subsystem.specs.Finds.{FoundOrAbsent};

use register::{Controller, Register};

// A controller and its place in a register.
#[derive(Clone, Copy)]
pub(crate) struct Found {
    pub(crate) place: usize,
    pub(crate) controller: Controller,
}

// The controller with an ID.
pub(crate) fn find_controller<R: Register>(register: &R, id: u16) -> Option<Found>
    ensures { FoundOrAbsent id (R.Register.meaning register.now).controllers result }
{
    let place = register.first_place(id);
    let controller = register.get(place)?;
    if controller.id == id {
        Some(Found { place, controller })
    } else {
        None
    }
}
