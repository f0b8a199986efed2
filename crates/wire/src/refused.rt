ghost use Rattle.std.specs.Prelude.{◌≡◌};
ghost use Rattle.wire.specs.Refusals.{Refusal};

// A fault that refuses a call, and the refusal that it is, in numbers.
pub trait Refused: Copy {
    ghost refusal: { Self → Refusal };

    // The number of the refusal: this and the layer are numbers in the rules, and are told to callers as such.
    fn number(self) -> u8
        ensures { result ≡ (refusal self).number };

    // The layer that refuses: 1 the subsystem or the asking end, 2 a register, 3 a carrier.
    fn layer(self) -> u8
        ensures { result ≡ (refusal self).layer };

    // The length needed or found, the byte at fault, the identifier, the Responder's number, or the bound.
    fn place(self) -> usize
        ensures { result ≡ (refusal self).place };
}
