ghost use Rattle.std.specs.Prelude.{◌≡◌};
ghost use Rattle.health.specs.Flags.{named_flags};

use crate::bits::Bits;

// The bits that name a flag: not 3, 14 and 15.
pub(crate) const FLAGS: u16 = 0x3ff7;

// A word of changed flags: a controller's, or a Responder's Composite Controller Status Flags.
pub type ChangedFlags = Bits<FLAGS>;

impl ChangedFlags {
    // The flags of a word. Bits that name no flag are ignored, which the name `from` would not say.
    #[tactic(auto, using(crate::proofs::Masks::flags_mask))]
    pub fn from_bits(bits: u16) -> Self
        ensures { result.bits ≡ named_flags bits }
    {
        Bits::masked(bits)
    }
}
