ghost use Rattle.std.specs.Prelude.{◌≡◌, ◌≤◌, T, map, length, take};
ghost use Rattle.register.specs.Controllers.{controller_of, lawful};

use crate::controller::Controller;

// A register of capacity 4 that holds its own controllers: the first `count` of its slots.
// No `ArrayVec`: nothing reaches its unused places, so that four must-fail edits, of a count, a record, a search and a write among unused slots,
// could not keep their meaning.
#[derive(Drop)]
pub struct InlineRegister {
    pub(crate) count: usize,
    pub(crate) slots: [Controller; 4],
    ghost count_within: { count ≤ 4 },
    ghost four_slots: { length slots ≡ 4 },
    ghost lawful_controllers: { T (lawful (map controller_of (take count slots))) },
}
