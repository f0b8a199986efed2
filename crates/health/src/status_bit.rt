ghost use Rattle.health.specs.Status.{status_bit_number};

use crate::bits::NamedBit;
use crate::status::STATUS;
use std::fmt;

// One bit of the Controller Status word, by its number. Bits 3:2 are the Shutdown Status.
#[derive(Clone, Copy)]
pub enum StatusBit {
    Rdy = 0,
    Cfs = 1,
    Nssro = 4,
    Ceco = 5,
    Nac = 6,
    Fa = 7,
    Tcida = 8,
}

impl NamedBit<STATUS> for StatusBit {
    ghost bit_number = { status_bit_number };

    fn number(self) -> u16 {
        self as u16
    }
}

// The standard's abbreviation of the bit.
impl fmt::Display for StatusBit {
    fn fmt<W: fmt::Write>(&self, f: &mut fmt::Formatter<W>) -> fmt::Result {
        f.write_str(match self {
            StatusBit::Rdy => "RDY",
            StatusBit::Cfs => "CFS",
            StatusBit::Nssro => "NSSRO",
            StatusBit::Ceco => "CECO",
            StatusBit::Nac => "NAC",
            StatusBit::Fa => "FA",
            StatusBit::Tcida => "TCIDA",
        })
    }
}
