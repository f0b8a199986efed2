// The NVMe-MI Message Parameters byte (NMP) of a message.
ghost use Rattle.std.specs.Prelude.{◌≡◌, not, Ok};
ghost use Rattle.wire.specs.Nmp.{ror_bit, is_nmp, nmp_of};
ghost use Rattle.wire.specs.Refusals.{in_numbers, refuse_if, wrong_message_type};

use crate::fault::WireFault;

// Bit 7 of the NMP (ROR): whether a message is a request or a reply.
#[derive(Clone, Copy)]
pub(crate) enum Ror {
    Request = 0,
    Reply = 1,
}

// The NMP of an NVMe-MI command with this ROR and, as the Command Slot Identifier, this tag.
pub(crate) fn nmp(ror: Ror, tag: bool) -> u8
    ensures { result ≡ nmp_of ror tag }
{
    (ror as u8) << 7 | 1 << 3 | u8::from(tag)
}

// Refuses an NMP, the byte at this place, unless it is that of an NVMe-MI command with this ROR.
pub(crate) fn check_nmp(nmp: u8, ror: Ror, place: usize) -> Result<(), WireFault>
    ensures { in_numbers result ≡ refuse_if (not (is_nmp (ror_bit ror) nmp)) (wrong_message_type place) (Ok tt) }
{
    if nmp >> 7 != ror as u8 || (nmp >> 3) % 16 != 1 {
        return Err(WireFault::WrongMessageType { place });
    }
    Ok(())
}
