ghost use Rattle.std.specs.Prelude.{◌≡◌};
ghost use Rattle.health.specs.Values.{health_of, reported_health, well_formed};

use crate::values::Health;

// A report of one controller: its whole Controller Status word, and the other fields of its health.
#[derive(Clone, Copy)]
pub struct Report {
    pub status: u16,
    // composite temperature in kelvins, 0 for no reading
    pub temperature: u16,
    pub percentage_used: u8,
    pub available_spare: u8,
    pub critical_warning: u8,
}

impl Report {
    // Whether no status bit of 15:9 and no critical warning bit of 7:6 is set.
    pub fn is_well_formed(self) -> bool
        ensures { result ≡ well_formed self }
    {
        self.status >> 9 == 0 && self.critical_warning >> 6 == 0
    }

    // What a register holds of it. No `From`: the status events are left out.
    pub fn health(self) -> Health
        ensures { health_of result ≡ reported_health self }
    {
        Health {
            levels: self.status % 0x40,
            temperature: self.temperature,
            percentage_used: self.percentage_used,
            available_spare: self.available_spare,
            critical_warning: self.critical_warning,
        }
    }
}
