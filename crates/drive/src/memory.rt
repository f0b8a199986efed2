ghost use Rattle.std.specs.Prelude.{◌≤◌};

use health::Row;
use register::{InlineRegister, Port};
use subsystem::{Fault, Subsystem};
use wire::Carrier;

// How much memory there is.
pub const ROWS: usize = 64;

pub const PORTS: usize = 16;

pub const REPLY: usize = 4176;

// Memory, of which the beginning is lent. The rest keeps what it holds.
#[derive(Drop)]
pub struct Lent<T, const N: usize> {
    memory: [T; N],
    lent: usize,
    ghost no_more_than_all: { lent ≤ N },
}

impl<T, const N: usize> Lent<T, N> {
    // Lends the beginning of this length from here on, or all where there is less.
    pub fn lend(&mut self, length: usize) {
        self.lent = length.min(N);
    }

    pub fn slice_mut(&mut self) -> &mut [T] {
        let length = self.lent;
        let memory = &mut self.memory;
        &mut memory[..length]
    }
}

// The memory that is lent to the calls.
#[derive(Drop)]
pub struct Memory {
    pub rows: Lent<Row, ROWS>,
    pub ports: Lent<Port, PORTS>,
    pub reply: Lent<u8, REPLY>,
}

impl Memory {
    pub fn new() -> Memory {
        let mut memory = Memory {
            rows: Lent {
                memory: [Row::clear(); ROWS],
                lent: 0,
            },
            ports: Lent {
                memory: [Port::default(); PORTS],
                lent: 0,
            },
            reply: Lent {
                memory: [0; REPLY],
                lent: 0,
            },
        };
        memory.lend_by_default();
        memory
    }

    // As at the start.
    pub fn lend_by_default(&mut self) {
        self.rows.lend(32);
        self.ports.lend(8);
        self.reply.lend(4168);
    }

    // Serves a request with all that is lent: the bytes of its reply.
    pub fn serve<C: Carrier>(
        &mut self,
        subsystem: &mut Subsystem,
        register: &InlineRegister,
        responder: u8,
        request: &[u8],
    ) -> Result<&[u8], Fault> {
        let length = subsystem.serve::<C, InlineRegister>(
            responder,
            register,
            self.rows.slice_mut(),
            self.ports.slice_mut(),
            request,
            self.reply.slice_mut(),
        )?;
        Ok(self.reply.memory.get(..length).unwrap_or(&[]))
    }
}
