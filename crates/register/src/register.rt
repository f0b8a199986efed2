ghost use Rattle.std.specs.Prelude.{◌≡◌, ◌≤◌, false, T, length, is_ok};
ghost use Rattle.health.specs.Values.{health_of};
ghost use Rattle.std.specs.Option.{option_map};
ghost use Rattle.std.specs.List.{slice_get};
ghost use Rattle.register.specs.Controllers.{controller_of, lawful, first_from};
ghost use Rattle.register.specs.Registers.{RegisterValues, enroll_answer, after_enroll, after_write};
ghost use Rattle.register.specs.RegisterRefusals.{in_numbers};

use crate::controller::Controller;
use crate::register_fault::RegisterFault;
use health::Health;

// A register is the ordered list of the subsystem's controllers (no hardware register).
pub trait Register {
    // Its meaning: a capacity, and the controllers in ascending Controller ID.
    ghost meaning: { Self → RegisterValues };

    // No ID stands twice, IDs have 16 bits, function types are at most 2, levels are below 64.
    ghost holds_lawful_controllers: { (r : Self) → T (lawful (meaning r).controllers) };

    // How many controllers are enrolled.
    fn len(&self) -> usize
        ensures { result ≡ length (meaning self.now).controllers };

    // The controller at a place. Past the end there is none.
    fn get(&self, place: usize) -> Option<Controller>
        ensures { option_map controller_of result ≡ slice_get (meaning self.now).controllers place };

    // The first place with a Controller ID at or above this one, else the length.
    fn first_place(&self, id: u16) -> usize
        ensures { result ≡ first_from id (meaning self.now).controllers };

    // Adds a controller in its place.
    fn enroll(&mut self, controller: Controller) -> Result<(), RegisterFault>
        ensures refused_exactly_if_present_or_full { in_numbers result ≡ enroll_answer (controller_of controller) (meaning self.old) }
        ensures adds_it_in_its_place { meaning self.new ≡ after_enroll (controller_of controller) (meaning self.old) }
        ensures a_refusal_changes_nothing { is_ok result ≡ false → self.new ≡ self.old };

    // Replaces the health of the controller at a place. Past the end it does nothing.
    fn write(&mut self, place: usize, health: Health)
        ensures replaces_this_health_alone { meaning self.new ≡ after_write place (health_of health) (meaning self.old) }
        ensures past_the_end_nothing_changes { length (meaning self.old).controllers ≤ place → self.new ≡ self.old };
}
