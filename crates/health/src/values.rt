ghost use Rattle.std.specs.Prelude.{◌^◌, ◌<◌};

// A controller's health as a register holds it: the level bits 5:0 of its Controller Status word, and its other fields.
#[derive(Clone, Copy)]
pub struct Health {
    pub levels: u16,
    // composite temperature in kelvins, 0 for no reading
    pub temperature: u16,
    pub percentage_used: u8,
    pub available_spare: u8,
    pub critical_warning: u8,
    ghost levels_below_64: { levels < 2 ^ 6 },
}
