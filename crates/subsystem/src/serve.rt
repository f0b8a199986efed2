ghost use Rattle.std.specs.Prelude.{◌≡◌, ◌+◌, ◌*◌, ◌<◌, ◌≤◌, false, List, ◌++◌, length, is_ok, Some, Ok, nat_lt};
ghost use Rattle.health.specs.declared.row.Row.{Row};
ghost use Rattle.wire.specs.Refusals.{refuse_if, space_too_short};
ghost use Rattle.register.specs.declared.port.Port.{Port};
ghost use Rattle.model.specs.State.{Responder};
ghost use Rattle.model.specs.Calls.{request, step, reply_space, responder_at};
ghost use Rattle.arrayvec.specs.ArrayVec.{array_vec_len};
ghost use Rattle.subsystem.specs.Faults.{in_numbers};
ghost use Rattle.subsystem.specs.States.{state_of, responders_of};
ghost use Rattle.subsystem.specs.Replies.{exchanged, Responds};
ghost use Rattle.subsystem.specs.Admission.{admission};

use crate::answer::Polled;
use crate::fault::Fault;
use crate::lent::Lent;
use crate::memory::check_length;
use crate::reply::write_head_before;
use crate::service::Subsystem;
use health::Row;
use register::{Port, Register};
use wire::{Carrier, Lengths, Request, check_space};

// Refuses reply memory that is shorter than a head and 255 entries.
fn check_reply(length: usize, head: usize) -> Result<(), Fault>
    requires { head ≤ 80 }
    ensures { in_numbers result ≡ refuse_if (nat_lt length (head + 4080)) (space_too_short (head + 4080)) (Ok tt) }
{
    check_space(length, head + 4080)?;
    Ok(())
}

impl Subsystem {
    // Refuses a request whose Responder is absent or of another kind, or that is lent too little memory.
    fn admit(&self, responder: u8, lengths: Lengths, lent: Lent) -> Result<(), Fault>
        requires { lengths.head ≤ 80 }
        ensures { in_numbers result ≡ admission (responders_of self.now) self.now.port_count responder lengths lent }
    {
        let r = self.place_of(responder)?;
        if self.responders[r].kind != lengths.kind {
            return Err(Fault::ResponderOfAnotherKind { responder });
        }
        check_length(lent.rows, lent.rows_needed)?;
        check_length(lent.ports, self.port_count)?;
        check_reply(lent.reply, lengths.head)
    }

    // Answers a request that was read, at a Responder, and writes the reply. Answers its length.
    fn respond<C: Carrier, R: Register>(
        &mut self,
        responder: usize,
        register: &R,
        rows: &mut [Row],
        ports: &[Port],
        asked: Request,
        reply: &mut [u8],
    ) -> usize
        requires a_responder_in_use { responder < array_vec_len self.old.responders }
        requires rows_for_all { array_vec_len self.old.responders * length (R.Register.meaning register.now).controllers ≤ length rows.old }
        requires ports_in_use { self.old.port_count ≤ length ports.now }
        requires space_for_the_reply { reply_space C.Carrier.meaning ≤ length reply.old }
        ensures { (rest : List Row) (more : List Port) (x : Responder) → responder_at (state_of self.old (R.Register.meaning register.now) (rows.old ++ rest) (ports.now ++ more)) responder ≡ Some x → Responds C.Carrier.meaning (state_of self.old (R.Register.meaning register.now) (rows.old ++ rest) (ports.now ++ more)) responder x asked result reply.old reply.new (state_of self.new (R.Register.meaning register.now) (rows.new ++ rest) (ports.now ++ more)) }
    {
        let polled = Polled {
            register,
            status: self.status,
            ports: &ports[0..self.port_count],
            composite: self.responders[responder].composite,
        };
        let own = &mut rows[self.layout(register).rows_of(responder)];
        let answered = polled.answer_behind_head(own, asked, C::HEAD, reply);
        // No `&mut` to the Responder across the call: the borrow checker covers none beside reads of the other fields.
        self.responders[responder].composite = answered.composite;
        write_head_before::<C>(asked, answered, reply)
    }

    // Serves a request at a Responder: writes the reply to the front of the reply memory, and answers its length.
    // The register, the rows and the ports are parameters and no struct: each call borrows what it needs, shared or to write, and a struct
    // would lend more than a call needs.
    pub fn serve<C: Carrier, R: Register>(
        &mut self,
        responder: u8,
        register: &R,
        rows: &mut [Row],
        ports: &[Port],
        message: &[u8],
        reply: &mut [u8],
    ) -> Result<usize, Fault>
        ensures is_answered_and_done_as_the_model_says { (rest : List Row) (more : List Port) → record { answer = in_numbers result; reply = reply.new; state = state_of self.new (R.Register.meaning register.now) (rows.new ++ rest) (ports.now ++ more) } ≡ exchanged (step (state_of self.old (R.Register.meaning register.now) (rows.old ++ rest) (ports.now ++ more)) (request responder C.Carrier.meaning (length rows.old) (length ports.now) message.now (length reply.old))) reply.old }
        ensures a_refusal_changes_nothing { is_ok result ≡ false → (self.new ≡ self.old) × (rows.new ≡ rows.old) × (reply.new ≡ reply.old) }
    {
        let lent = Lent {
            rows_needed: self.layout(register).needed(),
            rows: rows.len(),
            ports: ports.len(),
            reply: reply.len(),
        };
        self.admit(responder, C::lengths(), lent)?;
        let asked = C::read_request(message)?;
        Ok(self.respond::<C, R>(usize::from(responder), register, rows, ports, asked, reply))
    }
}
