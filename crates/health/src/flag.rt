ghost use Rattle.health.specs.Flags.{flag_number};

use crate::bits::NamedBit;
use crate::flags::FLAGS;
use std::fmt;

// One changed flag, of a controller or composite, by its bit number.
#[derive(Clone, Copy)]
pub enum ChangedFlag {
    Rdy = 0,
    Cfs = 1,
    Shst = 2,
    Nssro = 4,
    Ceco = 5,
    Nac = 6,
    Fa = 7,
    Csts = 8,
    Ctemp = 9,
    Pdlu = 10,
    Spare = 11,
    Cwarn = 12,
    Tcida = 13,
}

impl NamedBit<FLAGS> for ChangedFlag {
    ghost bit_number = { flag_number };

    // The bit of a flags word that holds this flag. Each enum has its own, since `as` is only for an enum that is known.
    fn number(self) -> u16 {
        self as u16
    }
}

// The standard's abbreviation of the flag.
impl fmt::Display for ChangedFlag {
    fn fmt<W: fmt::Write>(&self, f: &mut fmt::Formatter<W>) -> fmt::Result {
        f.write_str(match self {
            ChangedFlag::Rdy => "RDY",
            ChangedFlag::Cfs => "CFS",
            ChangedFlag::Shst => "SHST",
            ChangedFlag::Nssro => "NSSRO",
            ChangedFlag::Ceco => "CECO",
            ChangedFlag::Nac => "NAC",
            ChangedFlag::Fa => "FA",
            ChangedFlag::Csts => "CSTS",
            ChangedFlag::Ctemp => "CTEMP",
            ChangedFlag::Pdlu => "PDLU",
            ChangedFlag::Spare => "SPARE",
            ChangedFlag::Cwarn => "CWARN",
            ChangedFlag::Tcida => "TCIDA",
        })
    }
}
