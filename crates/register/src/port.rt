ghost use Rattle.std.proofs.lemmas.Map.Lookups.{exact_unsigned};

use table::Numbered;

// A PCIe port of the drive.
#[derive(Clone, Copy, Default)]
pub struct Port {
    pub id: u8,
    pub link_up: bool,
}

impl Numbered for Port {
    type Number = u8;

    ghost key = { λ p. p.id };

    fn number(self) -> u8 {
        self.id
    }

    ghost equals_are_the_same = { exact_unsigned };
}
