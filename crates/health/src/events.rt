ghost use Rattle.std.specs.Prelude.{◌≡◌};
ghost use Rattle.health.specs.Status.{events_in};

use crate::bits::Bits;

// The bits of a Controller Status word that are status events: 6 NAC, 7 FA and 8 TCIDA.
const EVENTS: u16 = 0x01c0;

// Status events, at their places in a Controller Status word.
pub type StatusEvents = Bits<EVENTS>;

impl StatusEvents {
    // The events that a Controller Status word reports.
    #[tactic(auto, using(crate::proofs::Masks::events_mask))]
    pub fn from_status(status: u16) -> Self
        ensures { result.bits ≡ events_in status }
    {
        Bits::masked(status)
    }
}
