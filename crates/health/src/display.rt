// The words of bits in print: the number, then the standard's abbreviation of each bit that is set.
use crate::bits::{Bits, NamedBit};
use crate::flag::ChangedFlag;
use crate::flags::ChangedFlags;
use crate::status::ControllerStatus;
use crate::status_bit::StatusBit;
use std::fmt;

const FLAGS: [ChangedFlag; 13] = [
    ChangedFlag::Rdy,
    ChangedFlag::Cfs,
    ChangedFlag::Shst,
    ChangedFlag::Nssro,
    ChangedFlag::Ceco,
    ChangedFlag::Nac,
    ChangedFlag::Fa,
    ChangedFlag::Csts,
    ChangedFlag::Ctemp,
    ChangedFlag::Pdlu,
    ChangedFlag::Spare,
    ChangedFlag::Cwarn,
    ChangedFlag::Tcida,
];

const STATUS_BITS: [StatusBit; 7] = [
    StatusBit::Rdy,
    StatusBit::Cfs,
    StatusBit::Nssro,
    StatusBit::Ceco,
    StatusBit::Nac,
    StatusBit::Fa,
    StatusBit::Tcida,
];

// The names of the bits that are set, each behind a space.
fn write_names<const MASK: u16, B: NamedBit<MASK> + fmt::Display, W: fmt::Write>(
    word: Bits<MASK>,
    names: &[B],
    f: &mut fmt::Formatter<W>,
) -> fmt::Result {
    for name in names {
        if word.has(*name) {
            write!(f, " {name}")?;
        }
    }
    Ok(())
}

impl fmt::Display for ChangedFlags {
    fn fmt<W: fmt::Write>(&self, f: &mut fmt::Formatter<W>) -> fmt::Result {
        let bits = self.bits();
        write!(f, "{bits:04X}h")?;
        write_names(*self, &FLAGS, f)
    }
}

impl fmt::Display for ControllerStatus {
    fn fmt<W: fmt::Write>(&self, f: &mut fmt::Formatter<W>) -> fmt::Result {
        let bits = self.bits();
        let shutdown = self.shutdown_status();
        write!(f, "{bits:04X}h SHST={shutdown}")?;
        write_names(*self, &STATUS_BITS, f)
    }
}
