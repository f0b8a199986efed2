// What the two laws of every carrier give: what is written reads back as itself.
ghost use Rattle.std.specs.Prelude.{◌≡◌, ◌^◌, ◌<◌, false};
ghost use Rattle.wire.specs.Refusals.{in_numbers};
ghost use Rattle.wire.specs.Space.{space_after};
ghost use Rattle.wire.specs.RoundTrips.{request_itself, head_read, head_itself};

use crate::carrier::Carrier;
use crate::fault::WireFault;
use crate::message::{Command, Head, Request};

// A request written with tag 0 reads back as itself, over any carrier.
pub fn request_round_trip<C: Carrier>(
    command: Command,
    space: &mut [u8],
) -> Result<Request, WireFault>
    ensures reads_back_as_itself { in_numbers result ≡ request_itself C.Carrier.meaning command space.old }
    ensures writes_these_bytes_and_no_other { space.new ≡ space_after C.Carrier.meaning.request_length (C.Carrier.meaning.write_request false command) space.old }
{
    let length = C::write_request(false, command, space)?;
    C::read_request(&space[..length])
}

// The head of the reply to a request reads back as itself, over any carrier and whatever the request's tag.
pub fn head_round_trip<C: Carrier>(
    request: Request,
    head: Head,
    space: &mut [u8],
) -> Result<Head, WireFault>
    ensures reads_what_was_written { in_numbers result ≡ head_read C.Carrier.meaning request.tag head space.old }
    ensures reads_back_as_itself { head.nmresp < 2 ^ 24 → in_numbers result ≡ head_itself C.Carrier.meaning head space.old }
    ensures writes_these_bytes_and_no_other { space.new ≡ space_after C.Carrier.meaning.head_length (C.Carrier.meaning.write_head request.tag head) space.old }
{
    let length = C::write_head(request.tag, head, space)?;
    C::read_head(&space[..length])
}
