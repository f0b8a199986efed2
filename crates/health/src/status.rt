ghost use Rattle.std.specs.Prelude.{◌≡◌, ◌/◌, ◌%◌, ◌^◌};

use crate::bits::Bits;

// The bits of a Controller Status word: 0 RDY, 1 CFS, 3:2 SHST, 4 NSSRO, 5 CECO, 6 NAC, 7 FA, 8 TCIDA.
pub(crate) const STATUS: u16 = 0x01ff;

// A Controller Status word.
pub type ControllerStatus = Bits<STATUS>;

impl ControllerStatus {
    // The status in a word. Bits 15:9 are ignored. `from_bits` and `from_status` stand once for each of the three masks, so that each
    // promises its bits in the words of its rules, and not by the mask alone.
    pub fn from_bits(bits: u16) -> Self
        ensures { result.bits ≡ bits % 2 ^ 9 }
    {
        Bits::masked(bits)
    }

    // The Shutdown Status (SHST), bits 3:2.
    pub fn shutdown_status(self) -> u8
        ensures { result ≡ self.bits / 2 ^ 2 % 2 ^ 2 }
    {
        ((self.bits() >> 2) % 4) as u8
    }
}
