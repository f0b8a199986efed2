ghost use Rattle.std.specs.Prelude.{◌≡◌, Ok, Err};
ghost use Rattle.wire.specs.Refusals.{refusal};
ghost use Rattle.wire.specs.Replies.{reply_read};

use crate::carrier::Carrier;
use crate::fault::WireFault;
use crate::message::Head;

// A reply: its head, and the response data behind it.
#[derive(Clone, Copy)]
pub struct Reply<'a> {
    pub head: Head,
    pub payload: &'a [u8],
}

// The reply that bytes hold. Response data stand one behind another from the end of the head on.
pub fn read_reply<C: Carrier>(bytes: &[u8]) -> Result<Reply<'_>, WireFault>
    ensures { elim result [ Ok p ↦ reply_read C.Carrier.meaning bytes.now ≡ Ok (record { head = p.head; payload = p.payload.now }) | Err e ↦ reply_read C.Carrier.meaning bytes.now ≡ Err (refusal e) ] }
{
    if bytes.len() < C::HEAD {
        return Err(WireFault::CutShort { found: bytes.len() });
    }
    let head = C::read_head(bytes)?;
    Ok(Reply {
        head,
        payload: &bytes[C::HEAD..],
    })
}
