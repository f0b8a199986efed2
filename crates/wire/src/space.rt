// Messages written to lent space.
ghost use Rattle.std.specs.Prelude.{◌≡◌, length, Ok, nat_lt};
ghost use Rattle.wire.specs.Refusals.{in_numbers, refuse_if, space_too_short};
ghost use Rattle.wire.specs.Space.{length_written, space_after};

use crate::fault::WireFault;

// Refuses space that is shorter than needed.
pub fn check_space(length: usize, needed: usize) -> Result<(), WireFault>
    ensures { in_numbers result ≡ refuse_if (nat_lt length needed) (space_too_short needed) (Ok tt) }
{
    if length < needed {
        return Err(WireFault::SpaceTooShort { needed });
    }
    Ok(())
}

// Writes a message to the front of lent space, and answers its length.
pub(crate) fn write_front(message: &[u8], space: &mut [u8]) -> Result<usize, WireFault>
    ensures answers_the_length_written { in_numbers result ≡ length_written (length message.now) space.old }
    ensures writes_these_bytes_and_no_other { space.new ≡ space_after (length message.now) message.now space.old }
{
    let needed = message.len();
    check_space(space.len(), needed)?;
    space[..needed].copy_from_slice(message);
    Ok(needed)
}
