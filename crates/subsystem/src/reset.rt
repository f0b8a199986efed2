ghost use Rattle.std.specs.Prelude.{◌≡◌, false, List, ◌++◌, length, is_ok};
ghost use Rattle.health.specs.declared.row.Row.{Row};
ghost use Rattle.register.specs.declared.port.Port.{Port};
ghost use Rattle.model.specs.Calls.{reset, judged, step};
ghost use Rattle.subsystem.specs.Faults.{in_numbers};
ghost use Rattle.subsystem.specs.States.{state_of};

use crate::fault::Fault;
use crate::memory::check_length;
use crate::service::Subsystem;
use health::Row;
use polls::clear_rows;
use register::Register;

impl Subsystem {
    // Resets a Responder: its rows and its composite flags are cleared.
    pub fn reset<R: Register>(
        &mut self,
        register: &R,
        rows: &mut [Row],
        responder: u8,
    ) -> Result<(), Fault>
        ensures is_answered_and_done_as_the_model_says { (rest : List Row) (ports : List Port) → record { answer = judged (in_numbers result); state = state_of self.new (R.Register.meaning register.now) (rows.new ++ rest) ports } ≡ step (state_of self.old (R.Register.meaning register.now) (rows.old ++ rest) ports) (reset responder (length rows.old)) }
        ensures a_refusal_changes_nothing { is_ok result ≡ false → (self.new ≡ self.old) × (rows.new ≡ rows.old) }
    {
        let r = self.place_of(responder)?;
        let layout = self.layout(register);
        check_length(rows.len(), layout.needed())?;
        clear_rows(&mut rows[layout.rows_of(r)]);
        self.responders[r] = self.responders[r].without_composite();
        Ok(())
    }
}
