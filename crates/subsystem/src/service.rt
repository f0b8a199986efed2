ghost use Rattle.std.specs.Prelude.{◌≡◌, ◌*◌, ◌<◌, ◌≤◌, length, nat_le, Ok};
ghost use Rattle.std.specs.Result.{IfOk};
ghost use Rattle.wire.specs.Refusals.{refuse_if};
ghost use Rattle.model.specs.ServiceRefusals.{no_such_responder};
ghost use Rattle.arrayvec.specs.ArrayVec.{array_vec_len};
ghost use Rattle.subsystem.specs.Faults.{in_numbers};

use crate::fault::Fault;
use crate::memory::Layout;
use crate::responder::Responder;
use arrayvec::ArrayVec;
use polls::SubsystemStatus;
use register::Register;

// A subsystem in service: it takes reports, port links, the drive's status, requests and resets. Nothing can be added to it.
#[derive(Drop)]
pub struct Subsystem {
    pub(crate) responders: ArrayVec<Responder, 8>,
    // how many ports there are; they stand in memory that is lent to each call
    pub(crate) port_count: usize,
    pub(crate) status: SubsystemStatus,
    ghost at_most_8_ports: { port_count ≤ 8 },
}

impl Subsystem {
    // Answers the place of a Responder. Refused if there is none with this number.
    pub(crate) fn place_of(&self, responder: u8) -> Result<usize, Fault>
        ensures refused_if_absent { in_numbers result ≡ refuse_if (nat_le (array_vec_len self.now.responders) responder) (no_such_responder responder) (Ok responder) }
        ensures in_use { IfOk result (λ r. r < array_vec_len self.now.responders) }
    {
        let place = usize::from(responder);
        if place >= self.responders.len() {
            return Err(Fault::NoSuchResponder { responder });
        }
        Ok(place)
    }

    // Answers where the rows of its Responders stand.
    pub(crate) fn layout<R: Register>(&self, register: &R) -> Layout
        ensures for_the_responders { result.responders ≡ array_vec_len self.now.responders }
        ensures for_the_controllers { result.controllers ≡ length (R.Register.meaning register.now).controllers }
        ensures for_both { result.responders * result.controllers ≡ array_vec_len self.now.responders * length (R.Register.meaning register.now).controllers }
    {
        Layout::of(register, self.responders.len())
    }
}
