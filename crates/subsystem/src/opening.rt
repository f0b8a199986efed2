// What opening rests on.
ghost use Rattle.std.specs.Prelude.{◌≡◌, false, ◌||◌, map, is_ok, ◌==◌};
ghost use Rattle.health.specs.Rows.{row_of};
ghost use Rattle.polls.specs.Shown.{status_of};
ghost use Rattle.model.specs.Fitting.{open_answer, initial_status};
ghost use Rattle.subsystem.specs.Builders.{fitted_of};
ghost use Rattle.subsystem.specs.Faults.{in_numbers};
ghost use Rattle.subsystem.specs.Opens.{rows_after_opening};
ghost use Rattle.subsystem.specs.Responders.{responder_of, no_composite};

use crate::builder::SubsystemBuilder;
use crate::fault::Fault;
use crate::memory::{Layout, check_length};
use crate::responder::Responder;
use arrayvec::ArrayVec;
use health::Row;
use polls::{SubsystemStatus, clear_rows};
use register::Register;

// Whether there is no Responder, or no controller.
fn nothing_to_open(responders: usize, controllers: usize) -> bool
    ensures { result ≡ (responders == 0) || (controllers == 0) }
{
    responders == 0 || controllers == 0
}

// What a drive says of itself until it says otherwise.
pub(crate) fn initial_status() -> SubsystemStatus
    ensures { status_of result ≡ initial_status }
{
    SubsystemStatus {
        functional: true,
        reset_not_required: true,
        sanitize_failed: false,
    }
}

// Clears the rows in use, unless opening is refused.
pub(crate) fn clear_for_opening<R: Register>(
    builder: &SubsystemBuilder,
    register: &R,
    rows: &mut [Row],
) -> Result<(), Fault>
    ensures refused_without_controllers_responders_or_rows { in_numbers result ≡ open_answer (fitted_of builder.now) (R.Register.meaning register.now) (map row_of rows.old) }
    ensures clears_the_rows_in_use { map row_of rows.new ≡ rows_after_opening (in_numbers result) (fitted_of builder.now) (R.Register.meaning register.now) (map row_of rows.old) }
    ensures a_refusal_changes_nothing { is_ok result ≡ false → rows.new ≡ rows.old }
{
    if nothing_to_open(builder.kinds.len(), register.len()) {
        return Err(Fault::NothingToOpen);
    }
    let needed = Layout::of(register, builder.kinds.len()).needed();
    check_length(rows.len(), needed)?;
    clear_rows(&mut rows[0..needed]);
    Ok(())
}

// Responders of these kinds.
pub(crate) fn responders_of_kinds(kinds: &ArrayVec<u8, 8>) -> ArrayVec<Responder, 8>
    ensures { map responder_of result.items ≡ map no_composite kinds.now.items }
{
    // collect asks for an allocator, and extend answers a Result: a push that is proved to have room is plainer.
    let mut responders = ArrayVec::new();
    for kind in kinds.iter() {
        responders.push(Responder::new(*kind));
    }
    responders
}
