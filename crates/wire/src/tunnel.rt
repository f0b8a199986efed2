ghost use Rattle.std.specs.Prelude.{◌≡◌, refl};
ghost use Rattle.wire.specs.Tunnel.{tunnel, direction};

use crate::carrier::Carrier;
use crate::fault::WireFault;
use crate::message::{Command, Head, Request};
use crate::nmp::{Ror, check_nmp, nmp};
use crate::space::write_front;

// A controller's in-band tunnel: a request is a 64-byte submission entry of NVMe-MI Send or NVMe-MI Receive.
#[derive(Clone, Copy)]
pub struct Tunnel;

const SEND: u8 = 0x1d;

const RECEIVE: u8 = 0x1e;

const CONFIGURATION_SET: u8 = 0x03;

// Send carries Configuration Set, Receive every other opcode.
fn direction_of(opcode: u8) -> u8
    ensures { result ≡ direction opcode }
{
    if opcode == CONFIGURATION_SET {
        SEND
    } else {
        RECEIVE
    }
}

impl Carrier for Tunnel {
    const KIND: u8 = 2;

    ghost KIND = { 2 };

    const HEAD: usize = 4;

    ghost HEAD = { 4 };

    const REQUEST: usize = 64;

    ghost REQUEST = { 64 };

    ghost meaning = { tunnel };

    fn read_request(bytes: &[u8]) -> Result<Request, WireFault> {
        if bytes.len() != Self::REQUEST {
            return Err(WireFault::CutShort { found: bytes.len() });
        }
        if bytes[0] != SEND && bytes[0] != RECEIVE {
            return Err(WireFault::WrongFirstByte);
        }
        check_nmp(bytes[41], Ror::Request, 41)?;
        if bytes[0] != direction_of(bytes[44]) {
            return Err(WireFault::WrongDirection);
        }
        Ok(Request {
            tag: false,
            command: Command {
                opcode: bytes[44],
                nmd0: u32::from_le_bytes([bytes[48], bytes[49], bytes[50], bytes[51]]),
                nmd1: u32::from_le_bytes([bytes[52], bytes[53], bytes[54], bytes[55]]),
            },
            meb: false,
            surplus: 0,
        })
    }

    // A submission entry has no tag.
    fn write_request(_tag: bool, command: Command, space: &mut [u8]) -> Result<usize, WireFault> {
        // Byte by byte: with `copy_from_slice` into parts of the entry the proof of its bytes did not close, by search, by grind nor by rewriting.
        let [a0, a1, a2, a3] = command.nmd0.to_le_bytes();
        let [b0, b1, b2, b3] = command.nmd1.to_le_bytes();
        let mut entry = [0u8; 64];
        entry[0] = direction_of(command.opcode);
        entry[41] = nmp(Ror::Request, false);
        entry[44] = command.opcode;
        entry[48] = a0;
        entry[49] = a1;
        entry[50] = a2;
        entry[51] = a3;
        entry[52] = b0;
        entry[53] = b1;
        entry[54] = b2;
        entry[55] = b3;
        write_front(&entry, space)
    }

    // Nor has a head.
    fn write_head(_tag: bool, head: Head, space: &mut [u8]) -> Result<usize, WireFault> {
        let [n0, n1, n2, _] = head.nmresp.to_le_bytes();
        write_front(&[head.status, n0, n1, n2], space)
    }

    fn read_head(bytes: &[u8]) -> Result<Head, WireFault> {
        let [status, n0, n1, n2, ..] = bytes else {
            return Err(WireFault::CutShort { found: bytes.len() });
        };
        Ok(Head {
            status: *status,
            nmresp: u32::from_le_bytes([*n0, *n1, *n2, 0]),
        })
    }

    ghost kind_is_meant = { refl };

    ghost head_is_meant = { refl };

    ghost request_is_meant = { refl };
}
