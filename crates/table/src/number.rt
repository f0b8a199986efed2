ghost use Rattle.std.specs.Prelude.{◌≡◌};
ghost use Rattle.std.specs.declared.cmp.Ordering.TheVariants.{Equal};

// A record that has a number. The order of the numbers and its laws are those of `Ord`.
pub trait Numbered: Copy {
    type Number: Ord + Copy;

    ghost key: { Self → Self.Number };

    fn number(self) -> Self::Number
        ensures { result ≡ key self };

    // Numbers that compare as equal are the same number, so that a record that is found has the number that was sought.
    ghost equals_are_the_same: { (x y : Self.Number) → Self.Number.cmp x y ≡ Equal → x ≡ y };
}
