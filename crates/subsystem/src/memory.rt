// The test of the rows and the port memory that a call is lent, and where a row stands in them.
ghost use Rattle.std.specs.Prelude.{◌≡◌, ◌+◌, ◌*◌, ◌^◌, ◌<◌, ◌≤◌, length, Ok, nat_lt};
ghost use Rattle.wire.specs.Refusals.{refuse_if};
ghost use Rattle.model.specs.ServiceRefusals.{memory_too_short};
ghost use Rattle.subsystem.specs.Faults.{in_numbers};

use crate::fault::Fault;
use register::Register;
use std::ops::Range;

// A layout of the rows in lent memory: there is one row for each Responder and controller, and those of the first Responder stand first.
#[derive(Clone, Copy)]
pub(crate) struct Layout {
    pub(crate) responders: usize,
    pub(crate) controllers: usize,
    ghost counted_in_64_bits: { responders * controllers < 2 ^ 64 },
}

impl Layout {
    // Makes the layout for so many Responders and the controllers of a register.
    pub(crate) fn of<R: Register>(register: &R, responders: usize) -> Self
        requires { responders ≤ 8 }
        ensures for_the_responders { result.responders ≡ responders }
        ensures for_the_controllers { result.controllers ≡ length (R.Register.meaning register.now).controllers }
        ensures for_both { result.responders * result.controllers ≡ responders * length (R.Register.meaning register.now).controllers }
    {
        Layout {
            responders,
            controllers: register.len(),
        }
    }

    // Answers how many rows there are.
    pub(crate) fn needed(self) -> usize
        ensures { result ≡ self.responders * self.controllers }
    {
        self.responders * self.controllers
    }

    // The place of a Responder's row for the controller at a place.
    pub(crate) fn index(self, responder: usize, place: usize) -> usize
        requires a_responder { responder < self.responders }
        requires a_place { place < self.controllers }
        ensures { result ≡ responder * self.controllers + place }
    {
        responder * self.controllers + place
    }

    // The places of a Responder's rows.
    pub(crate) fn rows_of(self, responder: usize) -> Range<usize>
        requires { responder < self.responders }
        ensures begins { result.start ≡ responder * self.controllers }
        ensures ends { result.end ≡ responder * self.controllers + self.controllers }
    {
        let first = responder * self.controllers;
        first..first + self.controllers
    }
}

// Refuses rows or port memory that are shorter than needed.
pub(crate) fn check_length(length: usize, needed: usize) -> Result<(), Fault>
    ensures { in_numbers result ≡ refuse_if (nat_lt length needed) (memory_too_short needed) (Ok tt) }
{
    if length < needed {
        return Err(Fault::MemoryTooShort { needed });
    }
    Ok(())
}
