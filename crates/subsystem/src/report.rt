ghost use Rattle.std.specs.Prelude.{◌≡◌, false, List, ◌++◌, length, is_ok};
ghost use Rattle.health.specs.declared.row.Row.{Row};
ghost use Rattle.health.specs.Values.{reported_health};
ghost use Rattle.register.specs.Registers.{after_write};
ghost use Rattle.register.specs.declared.port.Port.{Port};
ghost use Rattle.model.specs.Calls.{report, judged, step};
ghost use Rattle.subsystem.specs.Faults.{in_numbers};
ghost use Rattle.subsystem.specs.States.{state_of};

use crate::fault::Fault;
use crate::find::find_controller;
use crate::mark::mark_responders;
use crate::memory::check_length;
use crate::service::Subsystem;
use health::{Report, Row, StatusEvents};
use health_rules::gained_flags;
use register::Register;

// The controller at a place gets the health of the report.
fn renew<R: Register>(register: &mut R, place: usize, new: Report)
    ensures { R.Register.meaning register.new ≡ after_write place (reported_health new) (R.Register.meaning register.old) }
{
    register.write(place, new.health());
}

impl Subsystem {
    // Takes a report of a controller: every Responder's row gains the flags and the status events, and the register gets the health.
    pub fn report<R: Register>(
        &mut self,
        register: &mut R,
        rows: &mut [Row],
        id: u16,
        new: Report,
    ) -> Result<(), Fault>
        ensures is_answered_and_done_as_the_model_says { (rest : List Row) (ports : List Port) → record { answer = judged (in_numbers result); state = state_of self.new (R.Register.meaning register.new) (rows.new ++ rest) ports } ≡ step (state_of self.old (R.Register.meaning register.old) (rows.old ++ rest) ports) (report (length rows.old) id new) }
        ensures a_refusal_changes_nothing { is_ok result ≡ false → (self.new ≡ self.old) × (register.new ≡ register.old) × (rows.new ≡ rows.old) }
    {
        if !new.is_well_formed() {
            return Err(Fault::Malformed { id });
        }
        let layout = self.layout(register);
        check_length(rows.len(), layout.needed())?;
        let found = find_controller(register, id).ok_or(Fault::UnknownIdentifier { id })?;
        mark_responders(
            &mut self.responders,
            rows,
            layout,
            found.place,
            gained_flags(found.controller.health, new),
            StatusEvents::from_status(new.status),
        );
        renew(register, found.place, new);
        Ok(())
    }
}
