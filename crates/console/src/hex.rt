ghost use Rattle.std.specs.Prelude.{◌≡◌, ◌<◌, IfSome};
ghost use Rattle.console.specs.Hex.{hex_digit, Reads};
ghost use Rattle.console.specs.declared.hex.HexFault.TheVariants.{OutOfMemory};

use std::alloc::{AllocError, AllocFailed, Global};
use std::fmt;
use thiserror::Error;

// Bytes as pairs of hex digits.
#[derive(Clone, Copy)]
pub struct HexBytes<'a> {
    pub bytes: &'a [u8],
}

impl fmt::Display for HexBytes<'_> {
    fn fmt<W: fmt::Write>(&self, f: &mut fmt::Formatter<W>) -> fmt::Result {
        for byte in self.bytes {
            write!(f, "{byte:02X}")?;
        }
        Ok(())
    }
}

// Why a text holds no bytes.
#[derive(Clone, Copy, Debug, PartialEq, Eq, Error)]
pub enum HexFault {
    #[error("bytes are pairs of hex digits")]
    NotHexPairs,
    #[error("out of memory")]
    OutOfMemory,
}

// The conversions are by hand: the contract of `read_hex` names the fault that a `?` makes.
impl From<AllocError> for HexFault {
    ghost from_gives = { λ _ r. r ≡ OutOfMemory };

    fn from(_e: AllocError) -> HexFault {
        Self::OutOfMemory
    }
}

impl<T: Drop> From<AllocFailed<T>> for HexFault {
    ghost from_gives = { λ _ r. r ≡ OutOfMemory };

    fn from(_e: AllocFailed<T>) -> HexFault {
        HexFault::OutOfMemory
    }
}

// The value of a hex digit. `char::to_digit` is no plainer: it takes a `char` and gives a `u32`.
fn digit(code: u8) -> Option<u8>
    ensures is_the_digit { result ≡ hex_digit code }
    ensures is_below_16 { IfSome result (λ value. value < 16) }
{
    match code {
        b'0'..=b'9' => Some(code - b'0'),
        b'A'..=b'F' => Some(code - b'A' + 10),
        b'a'..=b'f' => Some(code - b'a' + 10),
        _ => None,
    }
}

// The bytes that pairs of hex digits name. By hand, and not by the kit's crate `hex`: three must-fail edits, of an
// odd digit and of two faults, are edits of this code and keep their meaning.
#[tactic(auto, using(crate::proofs::Pairs::none_read, crate::proofs::Pairs::odd))]
pub fn read_hex(heap: Global, text: &[u8]) -> Result<Vec<u8>, HexFault>
    ensures { Reads result text.now }
{
    let mut bytes = Vec::new(heap);
    let (pairs, rest) = text.as_chunks::<2>();
    for [high, low] in pairs {
        // One digit and then the other: a test of the pair took 1.4 times the instructions.
        let Some(high) = digit(*high) else {
            return Err(HexFault::NotHexPairs);
        };
        let Some(low) = digit(*low) else {
            return Err(HexFault::NotHexPairs);
        };
        bytes.push(high * 16 + low)?;
    }
    if rest.len() != 0 {
        return Err(HexFault::NotHexPairs);
    }
    Ok(bytes)
}
