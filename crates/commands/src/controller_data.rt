ghost use Rattle.std.specs.Prelude.{◌≡◌, Ok};
ghost use Rattle.commands.specs.ControllerData.{entry_of, entry_bytes, entry_in, entry_told};

use health::{ChangedFlags, ControllerStatus};
use wire::WireFault;

// A Controller Health Data Structure: an entry of 16 bytes in the reply to a Controller Health Status Poll.
#[derive(Clone, Copy)]
pub struct ControllerHealthData {
    pub controller_id: u16,
    pub status: ControllerStatus,
    // composite temperature in kelvins, 0 for no reading
    pub temperature: u16,
    pub percentage_used: u8,
    pub available_spare: u8,
    pub critical_warning: u8,
    pub changed: ChangedFlags,
}

impl ControllerHealthData {
    // The entry that bytes begin with. Bits that are not named are ignored. No `TryFrom`: bytes behind the entry are allowed.
    pub fn read(bytes: &[u8]) -> Result<Self, WireFault>
        ensures { entry_told result ≡ entry_in bytes.now }
    {
        let [
            i0,
            i1,
            s0,
            s1,
            t0,
            t1,
            used,
            spare,
            warning,
            f0,
            f1,
            _,
            _,
            _,
            _,
            _,
            ..
        ] = bytes
        else {
            return Err(WireFault::CutShort { found: bytes.len() });
        };
        Ok(ControllerHealthData {
            controller_id: u16::from_le_bytes([*i0, *i1]),
            status: ControllerStatus::from_bits(u16::from_le_bytes([*s0, *s1])),
            temperature: u16::from_le_bytes([*t0, *t1]),
            percentage_used: *used,
            available_spare: *spare,
            critical_warning: *warning,
            changed: ChangedFlags::from_bits(u16::from_le_bytes([*f0, *f1])),
        })
    }

    // The bytes of the entry. No `From`: `entry.to_bytes()` reads better than `<[u8; 16]>::from(entry)`.
    #[tactic(auto, using(health::proofs::Masks::flags_are_named, health::proofs::Masks::status_is_whole))]
    pub fn to_bytes(self) -> [u8; 16]
        ensures is_these_bytes { result ≡ entry_bytes (entry_of self) }
        ensures reads_back_as_itself { entry_in result ≡ Ok (entry_of self) }
    {
        let [i0, i1] = self.controller_id.to_le_bytes();
        let [s0, s1] = self.status.bits().to_le_bytes();
        let [t0, t1] = self.temperature.to_le_bytes();
        let [f0, f1] = self.changed.bits().to_le_bytes();
        [
            i0,
            i1,
            s0,
            s1,
            t0,
            t1,
            self.percentage_used,
            self.available_spare,
            self.critical_warning,
            f0,
            f1,
            0,
            0,
            0,
            0,
            0,
        ]
    }
}
