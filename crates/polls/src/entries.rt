ghost use Rattle.std.specs.Prelude.{◌≡◌, ◌*◌, ◌≤◌, false, ◌++◌, map, length, drop, is_ok};
ghost use Rattle.health.specs.Rows.{row_of};
ghost use Rattle.wire.specs.Refusals.{in_numbers};
ghost use Rattle.model.specs.Requests.{returned, entries};
ghost use Rattle.polls.specs.Polls.{entries_space, rows_after_poll, entries_answer, rows_after_entries, space_after_entries};

use crate::qualify::{entry, may_return_more, qualifies, returned_row};
use commands::ControllerHealthPoll;
use health::Row;
use register::Register;
use wire::{WireFault, check_space};

// Writes the entries of the controllers that a poll returns, one behind another, to the front of lent space, and answers how many.
// `rows` are those of the Responder that is polled; with Clear Changed Flags, the rows of the controllers returned are cleared.
// Space for fewer than MAXRENT + 1 entries is refused.
pub fn write_entries<R: Register>(
    register: &R,
    rows: &mut [Row],
    poll: ControllerHealthPoll,
    space: &mut [u8],
) -> Result<usize, WireFault>
    ensures answers_how_many_are_returned { in_numbers result ≡ entries_answer poll (R.Register.meaning register.now).controllers (map row_of rows.old) (length space.old) }
    ensures clears_those_returned_and_no_other { map row_of rows.new ≡ rows_after_entries poll (R.Register.meaning register.now).controllers (map row_of rows.old) (length space.old) }
    ensures writes_their_entries_and_no_other_byte { space.new ≡ space_after_entries poll (R.Register.meaning register.now).controllers (map row_of rows.old) space.old }
    ensures a_refusal_changes_nothing { is_ok result ≡ false → rows.new ≡ rows.old }
{
    let needed = 16 * (usize::from(poll.maxrent) + 1);
    check_space(space.len(), needed)?;
    Ok(fill_entries(register, rows, poll, space))
}

// The same, where the space is long enough.
fn fill_entries<R: Register>(
    register: &R,
    rows: &mut [Row],
    poll: ControllerHealthPoll,
    space: &mut [u8],
) -> usize
    requires { entries_space poll ≤ length space.old }
    ensures counts_those_returned { result ≡ length (returned poll (R.Register.meaning register.now).controllers (map row_of rows.old)) }
    ensures clears_those_returned_and_no_other { map row_of rows.new ≡ rows_after_poll poll (R.Register.meaning register.now).controllers (map row_of rows.old) }
    ensures writes_their_entries_and_no_other_byte { space.new ≡ entries (returned poll (R.Register.meaning register.now).controllers (map row_of rows.old)) ++ drop (16 * length (returned poll (R.Register.meaning register.now).controllers (map row_of rows.old))) space.old }
{
    let mut found = 0;
    for place in register.first_place(poll.sctlid)..rows.len() {
        if !may_return_more(poll, found) {
            break;
        }
        let Some(controller) = register.get(place) else {
            break;
        };
        let row = rows[place];
        if qualifies(poll, controller, row) {
            // No chunks_exact_mut or as_chunks_mut: neither says what the space contains after it.
            space[16 * found..16 * found + 16].copy_from_slice(&entry(controller, row).to_bytes());
            rows[place] = returned_row(poll, row);
            found += 1;
        }
    }
    found
}
