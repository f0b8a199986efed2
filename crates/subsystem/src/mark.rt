// What a report does to every Responder.
ghost use Rattle.std.specs.Prelude.{◌≡◌, ◌*◌, ◌<◌, ◌≤◌, map, length, drop};
ghost use Rattle.health.specs.Rows.{row_of};
ghost use Rattle.subsystem.specs.Responders.{responder_of};
ghost use Rattle.subsystem.specs.States.{responders_with_rows};
ghost use Rattle.subsystem.specs.Marks.{raised, marked_at};

use crate::memory::Layout;
use crate::responder::Responder;
use health::{ChangedFlags, Row, StatusEvents};

// The Responder's composite flags rise where the row's flags do.
fn raise(responder: Responder, row: Row, gained: ChangedFlags) -> Responder
    ensures { responder_of result ≡ raised gained.bits (row_of row) (responder_of responder) }
{
    Responder {
        composite: responder.composite.union(gained.difference(row.changed)),
        ..responder
    }
}

// Each Responder's row of the controller at a place gains the flags and the status events.
pub(crate) fn mark_responders(
    responders: &mut [Responder],
    rows: &mut [Row],
    layout: Layout,
    place: usize,
    gained: ChangedFlags,
    events: StatusEvents,
)
    requires a_place_of_a_controller { place < layout.controllers }
    requires of_these_responders { layout.responders ≡ length responders.old }
    requires rows_for_all { length responders.old * layout.controllers ≤ length rows.old }
    ensures marks_each { responders_with_rows layout.controllers (map responder_of responders.new) (map row_of rows.new) ≡ map (marked_at place gained.bits events.bits) (responders_with_rows layout.controllers (map responder_of responders.old) (map row_of rows.old)) }
    ensures leaves_the_spare_rows { drop (length responders.old * layout.controllers) (map row_of rows.new) ≡ drop (length responders.old * layout.controllers) (map row_of rows.old) }
{
    for (r, responder) in responders.iter_mut().enumerate() {
        let row = &mut rows[layout.index(r, place)];
        *responder = raise(*responder, *row, gained);
        *row = row.with(gained, events);
    }
}
