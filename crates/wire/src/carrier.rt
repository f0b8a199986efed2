ghost use Rattle.std.specs.Prelude.{◌≡◌, ℕ};
ghost use Rattle.wire.specs.Meaning.{CarrierMeaning, lengths_of};
ghost use Rattle.wire.specs.Refusals.{in_numbers};
ghost use Rattle.wire.specs.Space.{length_written, space_after};

use crate::fault::WireFault;
use crate::message::{Command, Head, Lengths, Request};

// A carrier is how a request and a reply's head are laid out as bytes. Its meaning says so by four definitions and their laws,
// and each method is held to it for every argument.
pub trait Carrier {
    // 1 to 255. A number and no enum: who adds a carrier adds a kind.
    const KIND: u8;

    ghost KIND: { ℕ };

    // the length of a reply's head, at most 80
    const HEAD: usize;

    ghost HEAD: { ℕ };

    // the length of a request as it is written, at most 128
    const REQUEST: usize;

    ghost REQUEST: { ℕ };

    ghost meaning: { CarrierMeaning };

    // The three constants.
    fn lengths() -> Lengths
        ensures { result ≡ lengths_of meaning }
    {
        Lengths {
            kind: Self::KIND,
            head: Self::HEAD,
            request: Self::REQUEST,
        }
    }

    // Bytes read as a request.
    fn read_request(bytes: &[u8]) -> Result<Request, WireFault>
        ensures { in_numbers result ≡ meaning.read_request bytes.now };

    // Writes a request to the front of lent space, and answers its length.
    fn write_request(tag: bool, command: Command, space: &mut [u8]) -> Result<usize, WireFault>
        ensures answers_the_length_written { in_numbers result ≡ length_written meaning.request_length space.old }
        ensures writes_these_bytes_and_no_other { space.new ≡ space_after meaning.request_length (meaning.write_request tag command) space.old };

    // Writes the head of the reply to a request with this tag to the front of lent space, and answers its length.
    fn write_head(tag: bool, head: Head, space: &mut [u8]) -> Result<usize, WireFault>
        ensures answers_the_length_written { in_numbers result ≡ length_written meaning.head_length space.old }
        ensures writes_these_bytes_and_no_other { space.new ≡ space_after meaning.head_length (meaning.write_head tag head) space.old };

    // The head that a reply begins with.
    fn read_head(bytes: &[u8]) -> Result<Head, WireFault>
        ensures { in_numbers result ≡ meaning.read_head bytes.now };

    // The constants are those of the meaning.
    ghost kind_is_meant: { KIND ≡ meaning.kind };

    ghost head_is_meant: { HEAD ≡ meaning.head_length };

    ghost request_is_meant: { REQUEST ≡ meaning.request_length };
}
