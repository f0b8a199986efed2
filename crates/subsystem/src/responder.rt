ghost use Rattle.std.specs.Prelude.{◌≡◌};
ghost use Rattle.subsystem.specs.Responders.{responder_of, no_composite};

use health::ChangedFlags;

// A Responder in service: the kind of its carrier, and its Composite Controller Status Flags. Its rows stand in lent memory.
#[derive(Clone, Copy)]
pub(crate) struct Responder {
    // as `Carrier::KIND`
    pub(crate) kind: u8,
    pub(crate) composite: ChangedFlags,
}

impl Responder {
    // No composite flag is set.
    pub(crate) fn new(kind: u8) -> Self
        ensures { responder_of result ≡ no_composite kind }
    {
        Responder {
            kind,
            composite: ChangedFlags::none(),
        }
    }

    // The same Responder with no composite flag set.
    pub(crate) fn without_composite(self) -> Self
        ensures { responder_of result ≡ no_composite self.kind }
    {
        Responder::new(self.kind)
    }
}

// What an unused place holds. By hand: `ChangedFlags` has no `Default`, since none is derived over a ghost field.
impl Default for Responder {
    fn default() -> Self {
        Responder::new(0)
    }
}
