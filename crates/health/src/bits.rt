ghost use Rattle.std.specs.Prelude.{◌≡◌, ℕ, ◌<◌, ◌≤◌, bit_and, bit_or};
ghost use Rattle.health.specs.Words.{bit, without};

// A word in which no bit outside the mask is set.
#[derive(Clone, Copy)]
pub struct Bits<const MASK: u16> {
    bits: u16,
    ghost no_bit_outside_the_mask: { bit_and bits MASK ≡ bits },
}

// A name of one bit of the words of a mask.
pub trait NamedBit<const MASK: u16>: Copy {
    ghost bit_number: { Self → ℕ };

    fn number(self) -> u16
        ensures is_the_bit_of_the_name { result ≡ bit_number self }
        ensures within_the_word { result < 16 };
}

impl<const MASK: u16> Bits<MASK> {
    // No bit set. No `Default`: none is derived over a ghost field, and this says more at a call.
    pub fn none() -> Self
        ensures { result.bits ≡ 0 }
    {
        Bits { bits: 0 }
    }

    // The bits of a word that the mask has.
    #[tactic(auto, using(crate::proofs::Masks::mask_of_mask))]
    pub(crate) fn masked(word: u16) -> Self
        ensures { result.bits ≡ bit_and word MASK }
    {
        Bits { bits: word & MASK }
    }

    // The word as a number. No `From`: the field is read under this name in contracts too.
    pub fn bits(self) -> u16
        ensures { result ≡ self.entry.bits }
    {
        self.bits
    }

    pub fn has<B: NamedBit<MASK>>(self, name: B) -> bool
        ensures { result ≡ bit self.entry.bits (B.bit_number name) }
    {
        (self.bits >> name.number()) % 2 == 1
    }

    // The bits that either word has.
    #[tactic(auto, using(crate::proofs::Masks::mask_of_either))]
    pub fn union(self, other: Self) -> Self
        ensures { result.bits ≡ bit_or self.entry.bits other.entry.bits }
    {
        Bits {
            bits: self.bits | other.bits,
        }
    }

    // The bits of this word that the other lacks.
    #[tactic(auto, using(crate::proofs::Masks::mask_of_part, crate::proofs::Masks::and_not))]
    pub fn difference(self, other: Self) -> Self
        ensures { result.bits ≡ without self.entry.bits other.entry.bits }
    {
        Bits {
            bits: self.bits & !other.bits,
        }
    }
}
