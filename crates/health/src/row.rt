ghost use Rattle.std.specs.Prelude.{◌≡◌};
ghost use Rattle.health.specs.Rows.{row_of, clear_row, gaining};

use crate::events::StatusEvents;
use crate::flags::ChangedFlags;

// A row is what one Responder keeps of one controller: its changed flags, and its copies of the status events.
#[derive(Clone, Copy)]
pub struct Row {
    pub changed: ChangedFlags,
    pub events: StatusEvents,
}

impl Row {
    // No flag and no event. No `Default`: `Bits` has none.
    pub fn clear() -> Self
        ensures { row_of result ≡ clear_row }
    {
        Row {
            changed: ChangedFlags::none(),
            events: StatusEvents::none(),
        }
    }

    // The row with these flags and events too.
    pub fn with(self, changed: ChangedFlags, events: StatusEvents) -> Self
        ensures { row_of result ≡ gaining changed.bits events.bits (row_of self) }
    {
        Row {
            changed: self.changed.union(changed),
            events: self.events.union(events),
        }
    }
}
