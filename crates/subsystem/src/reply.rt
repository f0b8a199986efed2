// A reply in its memory: the head, and the data from the end of the head on.
ghost use Rattle.std.specs.Prelude.{◌≡◌, ◌+◌, ◌≤◌, ◌++◌, map, length, drop};
ghost use Rattle.health.specs.Rows.{row_of};
ghost use Rattle.polls.specs.Shown.{status_of};
ghost use Rattle.subsystem.specs.Replies.{Serves};

use crate::answer::{Answered, Polled};
use health::Row;
use register::Register;
use wire::{Carrier, Request};

impl<R: Register> Polled<'_, R> {
    // Answers a request, with the data at the front of the memory.
    // A method of its own with a `let .. else`: through `unwrap`, or of a part of a slice, nothing is known of the memory afterwards.
    fn answer_in(&self, own: &mut [Row], asked: Request, memory: &mut [u8]) -> Answered
        requires { 4080 ≤ length memory.old }
        ensures { Serves (R.Register.meaning self.now.register.now) (status_of self.now.status) self.now.ports.now self.now.composite.bits (map row_of own.old) asked result (map row_of own.new) memory.old memory.new }
    {
        let Some(payload) = memory.first_chunk_mut() else {
            unreachable()
        };
        let answered = self.answer_request(own, asked, payload);
        prove!(payload.len() == 4080);
        answered
    }

    // Answers a request, with the data behind a head of this length. The rows stand apart from `Polled`, as there.
    pub(crate) fn answer_behind_head(
        &self,
        own: &mut [Row],
        asked: Request,
        head: usize,
        reply: &mut [u8],
    ) -> Answered
        requires { head + 4080 ≤ length reply.old }
        ensures { Serves (R.Register.meaning self.now.register.now) (status_of self.now.status) self.now.ports.now self.now.composite.bits (map row_of own.old) asked result (map row_of own.new) (drop head reply.old) (drop head reply.new) }
    {
        self.answer_in(own, asked, &mut reply[head..])
    }
}

// Writes the head before data that stand in their place, and answers the length of the reply.
pub(crate) fn write_head_before<C: Carrier>(
    asked: Request,
    answered: Answered,
    reply: &mut [u8],
) -> usize
    requires { C.Carrier.meaning.head_length + answered.length ≤ length reply.old }
    ensures answers_the_length { result ≡ C.Carrier.meaning.head_length + answered.length }
    ensures writes_the_head { reply.new ≡ C.Carrier.meaning.write_head asked.tag answered.head ++ drop C.Carrier.meaning.head_length reply.old }
{
    let written = C::write_head(asked.tag, answered.head, reply).unwrap();
    written + answered.length
}
