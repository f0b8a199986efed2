ghost use Rattle.std.specs.Prelude.{◌≡◌, false, is_ok};
ghost use Rattle.model.specs.Fitting.{nothing_fitted, add_responder_answer, after_add_responder, enrolment_answer, after_enrolment, add_port_answer, ports_after, fitted_after};
ghost use Rattle.subsystem.specs.Builders.{fitted_of};
ghost use Rattle.subsystem.specs.Faults.{in_numbers};

use crate::builder::SubsystemBuilder;
use crate::fault::Fault;
use crate::fitting::controller_from;
use crate::memory::check_length;
use arrayvec::ArrayVec;
use health::Report;
use register::{Port, Register};
use table::insert_into;

impl SubsystemBuilder {
    // No Responder and no port.
    pub fn new() -> Self
        ensures is_empty { fitted_of result ≡ nothing_fitted }
    {
        SubsystemBuilder {
            kinds: ArrayVec::new(),
            port_count: 0,
        }
    }

    // Adds a Responder whose carrier is of this kind, and answers its number. A kind is any number, so that 0 can be refused.
    pub fn add_responder(&mut self, kind: u8) -> Result<u8, Fault>
        ensures refused_at_kind_0_and_at_the_ninth { in_numbers result ≡ add_responder_answer kind (fitted_of self.old) }
        ensures a_refusal_changes_nothing { is_ok result ≡ false → self.new ≡ self.old }
        ensures adds_it_behind_the_others { fitted_of self.new ≡ after_add_responder kind (fitted_of self.old) }
    {
        if kind == 0 {
            return Err(Fault::NoKind);
        }
        let count = self.kinds.len();
        self.kinds
            .try_push(kind)
            .map_err(|_| Fault::NinthResponder)?;
        Ok(count as u8)
    }

    // Enrolls a controller in the register that is lent, with the type of its PCI function and its first health. The type is any number, so
    // that one above 2 can be refused.
    pub fn enroll<R: Register>(
        &mut self,
        register: &mut R,
        id: u16,
        function: u8,
        first: Report,
    ) -> Result<(), Fault>
        ensures refused_if_malformed_present_or_full { in_numbers result ≡ enrolment_answer id function first (R.Register.meaning register.old) }
        ensures adds_it_in_its_place { R.Register.meaning register.new ≡ after_enrolment id function first (R.Register.meaning register.old) }
        ensures a_refusal_changes_nothing { is_ok result ≡ false → register.new ≡ register.old }
        ensures leaves_the_builder { self.new ≡ self.old }
    {
        let controller = controller_from(id, function, first).ok_or(Fault::Malformed { id })?;
        register.enroll(controller)?;
        Ok(())
    }

    // Adds a port to the memory that is lent, in its place. Its link is down.
    pub fn add_port(&mut self, ports: &mut [Port], id: u8) -> Result<(), Fault>
        ensures refused_at_the_ninth_for_want_of_memory_or_if_present { in_numbers result ≡ add_port_answer id (fitted_of self.old) ports.old }
        ensures adds_it_in_its_place { ports.new ≡ ports_after (in_numbers result) id (fitted_of self.old) ports.old }
        ensures a_refusal_changes_nothing { is_ok result ≡ false → self.new ≡ self.old }
        ensures counts_it { fitted_of self.new ≡ fitted_after (in_numbers result) (fitted_of self.old) }
    {
        let count = self.port_count;
        if count >= 8 {
            return Err(Fault::NinthPort);
        }
        check_length(ports.len(), count + 1)?;
        insert_into(ports, count, Port { id, link_up: false })?;
        self.port_count = count + 1;
        Ok(())
    }
}
