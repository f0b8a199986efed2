ghost use Rattle.std.specs.Prelude.{◌≡◌, List};
ghost use Rattle.health.specs.declared.row.Row.{Row};
ghost use Rattle.polls.specs.Shown.{status_of};
ghost use Rattle.register.specs.Registers.{RegisterValues};
ghost use Rattle.register.specs.declared.port.Port.{Port};
ghost use Rattle.model.specs.Calls.{set_status, accepted, step};
ghost use Rattle.subsystem.specs.States.{state_of};

use crate::service::Subsystem;
use polls::SubsystemStatus;

impl Subsystem {
    // Takes what the drive says of itself.
    pub fn set_status(&mut self, status: SubsystemStatus)
        ensures is_done_as_the_model_says { (m : RegisterValues) (rows : List Row) (ports : List Port) → record { answer = accepted; state = state_of self.new m rows ports } ≡ step (state_of self.old m rows ports) (set_status (status_of status)) }
    {
        self.status = status;
    }
}
