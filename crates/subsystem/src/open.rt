ghost use Rattle.std.specs.Prelude.{◌≡◌, false, map, is_ok};
ghost use Rattle.health.specs.Rows.{row_of};
ghost use Rattle.model.specs.Fitting.{open_answer};
ghost use Rattle.subsystem.specs.Builders.{fitted_of};
ghost use Rattle.subsystem.specs.Opens.{rows_after_opening, opening_answer, GivesTheOpenedState, GivesTheBuilderBack, PollingIsIndependent};

use crate::builder::SubsystemBuilder;
use crate::not_opened::NotOpened;
use crate::opening::{clear_for_opening, initial_status, responders_of_kinds};
use crate::service::Subsystem;
use health::Row;
use register::Register;

impl SubsystemBuilder {
    // Opens the subsystem over a register and rows: the rows in use are cleared, and it takes service calls from then on. A refusal
    // gives the builder back.
    pub fn open<R: Register>(self, register: &R, rows: &mut [Row]) -> Result<Subsystem, NotOpened>
        ensures refused_without_controllers_responders_or_rows { opening_answer result ≡ open_answer (fitted_of self) (R.Register.meaning register.now) (map row_of rows.old) }
        ensures clears_the_rows_in_use_and_no_other { map row_of rows.new ≡ rows_after_opening (opening_answer result) (fitted_of self) (R.Register.meaning register.now) (map row_of rows.old) }
        ensures gives_the_opened_subsystem { GivesTheOpenedState result (fitted_of self) (R.Register.meaning register.now) rows.old rows.new }
        ensures polling_is_independent { PollingIsIndependent result (R.Register.meaning register.now) rows.new }
        ensures a_refusal_gives_the_builder_back { GivesTheBuilderBack result self }
        ensures a_refusal_changes_nothing { is_ok result ≡ false → rows.new ≡ rows.old }
    {
        match clear_for_opening(&self, register, rows) {
            Err(fault) => Err(NotOpened {
                builder: self,
                fault,
            }),
            Ok(()) => Ok(Subsystem {
                responders: responders_of_kinds(&self.kinds),
                port_count: self.port_count,
                status: initial_status(),
            }),
        }
    }
}
