ghost use Rattle.std.specs.Prelude.{◌≡◌, Ok};
ghost use Rattle.health.specs.Words.{bit};
ghost use Rattle.commands.specs.SubsystemData.{subsystem_of, status_byte, subsystem_bytes, subsystem_in, subsystem_told};

use crate::dword::is_set;
use health::ChangedFlags;
use wire::WireFault;

// An NVM Subsystem Health Data Structure: the 8 bytes of a reply to an NVM Subsystem Health Status Poll.
#[derive(Clone, Copy)]
pub struct SubsystemHealthData {
    pub sanitize_failed: bool,
    pub functional: bool,
    pub reset_not_required: bool,
    // link up at the ports of lowest and second lowest identifier
    pub port0_link_up: bool,
    pub port1_link_up: bool,
    // the critical warnings of all controllers, which byte 1 has inverted
    pub critical_warning: u8,
    pub temperature_code: u8,
    pub percentage_used: u8,
    pub composite: ChangedFlags,
}

impl SubsystemHealthData {
    fn status_byte(self) -> u8
        ensures is_the_status_byte { result ≡ status_byte (subsystem_of self) }
        ensures bit_6_is_sanitize_failed { bit result 6 ≡ self.sanitize_failed }
        ensures bit_5_is_functional { bit result 5 ≡ self.functional }
        ensures bit_4_is_reset_not_required { bit result 4 ≡ self.reset_not_required }
        ensures bit_3_is_port0_link_up { bit result 3 ≡ self.port0_link_up }
        ensures bit_2_is_port1_link_up { bit result 2 ≡ self.port1_link_up }
    {
        u8::from(self.port1_link_up) << 2
            | u8::from(self.port0_link_up) << 3
            | u8::from(self.reset_not_required) << 4
            | u8::from(self.functional) << 5
            | u8::from(self.sanitize_failed) << 6
    }

    // The data that bytes begin with. Bits that are not named are ignored. No `TryFrom`: bytes behind the data are allowed.
    pub fn read(bytes: &[u8]) -> Result<Self, WireFault>
        ensures { subsystem_told result ≡ subsystem_in bytes.now }
    {
        let [status, warnings, temperature, used, f0, f1, _, _, ..] = bytes else {
            return Err(WireFault::CutShort { found: bytes.len() });
        };
        let status = u32::from(*status);
        Ok(SubsystemHealthData {
            sanitize_failed: is_set(status, 6),
            functional: is_set(status, 5),
            reset_not_required: is_set(status, 4),
            port0_link_up: is_set(status, 3),
            port1_link_up: is_set(status, 2),
            critical_warning: 255 - *warnings,
            temperature_code: *temperature,
            percentage_used: *used,
            composite: ChangedFlags::from_bits(u16::from_le_bytes([*f0, *f1])),
        })
    }

    // The bytes of the data. No `From`: `data.to_bytes()` reads better than `<[u8; 8]>::from(data)`.
    #[tactic(auto, using(health::proofs::Masks::flags_are_named))]
    pub fn to_bytes(self) -> [u8; 8]
        ensures is_these_bytes { result ≡ subsystem_bytes (subsystem_of self) }
        ensures reads_back_as_itself { subsystem_in result ≡ Ok (subsystem_of self) }
    {
        let [f0, f1] = self.composite.bits().to_le_bytes();
        [
            self.status_byte(),
            255 - self.critical_warning,
            self.temperature_code,
            self.percentage_used,
            f0,
            f1,
            0,
            0,
        ]
    }
}
