// Controllers in slices, by what they mean: the first `count` slots hold them in ascending Controller ID.
ghost use Rattle.std.specs.Prelude.{◌≡◌, ◌≤◌, false, T, map, length, take, is_ok};
ghost use Rattle.register.specs.Controllers.{controller_of, lawful};
ghost use Rattle.register.specs.Registers.{register_over, count_after, enroll_answer, after_enroll};
ghost use Rattle.register.specs.RegisterRefusals.{in_numbers};

use crate::controller::Controller;
use crate::register_fault::RegisterFault;
use table::insert_into;

// Adds a controller in its place among the first `count` slots.
// Apart from `enroll`: with this body there two of its goals stay open, and need answers, at which an edit of `enroll` would be refused.
#[tactic(auto, using(crate::proofs::Enrolling::enrolling))]
pub(crate) fn enroll_in(
    slots: &mut [Controller],
    count: usize,
    controller: Controller,
) -> Result<(), RegisterFault>
    requires within { count ≤ length slots.old }
    requires lawful { T (lawful (map controller_of (take count slots.old))) }
    ensures refused_exactly_if_present_or_full { in_numbers result ≡ enroll_answer (controller_of controller) (register_over (length slots.old) count slots.old) }
    ensures adds_it_in_its_place { register_over (length slots.old) (count_after result count) slots.new ≡ after_enroll (controller_of controller) (register_over (length slots.old) count slots.old) }
    ensures stays_lawful { T (lawful (map controller_of (take (count_after result count) slots.new))) }
    ensures stays_within { count_after result count ≤ length slots.old }
    ensures a_refusal_changes_nothing { is_ok result ≡ false → slots.new ≡ slots.old }
{
    insert_into(slots, count, controller)?;
    Ok(())
}
