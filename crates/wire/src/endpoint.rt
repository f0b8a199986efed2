ghost use Rattle.std.specs.Prelude.{◌≡◌, ◌==◌, not, Ok, refl};
ghost use Rattle.wire.specs.Nmp.{ror_bit, is_nmp};
ghost use Rattle.wire.specs.Refusals.{in_numbers, refuse_if, wrong_first_byte, wrong_message_type};
ghost use Rattle.wire.specs.Endpoint.{endpoint};

use crate::carrier::Carrier;
use crate::fault::WireFault;
use crate::message::{Command, Head, Request};
use crate::nmp::{Ror, check_nmp, nmp};
use crate::space::write_front;

// NVMe-MI messages of a Management Endpoint, without the transport's packets and integrity check.
#[derive(Clone, Copy)]
pub struct Endpoint;

// Byte 0 of every message: MCTP message type 04h (NVMe-MI), with the bit that says that an integrity check follows.
const MESSAGE_TYPE: u8 = 0x84;

// Refuses a message by its first two bytes.
fn check_header(first: u8, parameters: u8, ror: Ror) -> Result<(), WireFault>
    ensures { in_numbers result ≡ refuse_if (not (first == 0x84)) wrong_first_byte (refuse_if (not (is_nmp (ror_bit ror) parameters)) (wrong_message_type 1) (Ok tt)) }
{
    if first != MESSAGE_TYPE {
        return Err(WireFault::WrongFirstByte);
    }
    check_nmp(parameters, ror, 1)
}

impl Carrier for Endpoint {
    const KIND: u8 = 1;

    ghost KIND = { 1 };

    const HEAD: usize = 8;

    ghost HEAD = { 8 };

    const REQUEST: usize = 16;

    ghost REQUEST = { 16 };

    ghost meaning = { endpoint };

    fn read_request(bytes: &[u8]) -> Result<Request, WireFault> {
        let [
            first,
            parameters,
            buffer,
            _,
            opcode,
            _,
            _,
            _,
            a0,
            a1,
            a2,
            a3,
            b0,
            b1,
            b2,
            b3,
            surplus @ ..,
        ] = bytes
        else {
            return Err(WireFault::CutShort { found: bytes.len() });
        };
        check_header(*first, *parameters, Ror::Request)?;
        Ok(Request {
            tag: *parameters % 2 == 1,
            command: Command {
                opcode: *opcode,
                nmd0: u32::from_le_bytes([*a0, *a1, *a2, *a3]),
                nmd1: u32::from_le_bytes([*b0, *b1, *b2, *b3]),
            },
            meb: *buffer % 2 == 1,
            surplus: surplus.len(),
        })
    }

    fn write_request(tag: bool, command: Command, space: &mut [u8]) -> Result<usize, WireFault> {
        let [a0, a1, a2, a3] = command.nmd0.to_le_bytes();
        let [b0, b1, b2, b3] = command.nmd1.to_le_bytes();
        let message = [
            MESSAGE_TYPE,
            nmp(Ror::Request, tag),
            0,
            0,
            command.opcode,
            0,
            0,
            0,
            a0,
            a1,
            a2,
            a3,
            b0,
            b1,
            b2,
            b3,
        ];
        write_front(&message, space)
    }

    fn write_head(tag: bool, head: Head, space: &mut [u8]) -> Result<usize, WireFault> {
        let [n0, n1, n2, _] = head.nmresp.to_le_bytes();
        write_front(
            &[
                MESSAGE_TYPE,
                nmp(Ror::Reply, tag),
                0,
                0,
                head.status,
                n0,
                n1,
                n2,
            ],
            space,
        )
    }

    fn read_head(bytes: &[u8]) -> Result<Head, WireFault> {
        let [first, parameters, _, _, status, n0, n1, n2, ..] = bytes else {
            return Err(WireFault::CutShort { found: bytes.len() });
        };
        check_header(*first, *parameters, Ror::Reply)?;
        Ok(Head {
            status: *status,
            nmresp: u32::from_le_bytes([*n0, *n1, *n2, 0]),
        })
    }

    ghost kind_is_meant = { refl };

    ghost head_is_meant = { refl };

    ghost request_is_meant = { refl };
}
