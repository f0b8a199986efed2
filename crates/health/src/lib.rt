// A controller's health: the Controller Status word, the changed flags, the status events, reports, and the rows of a Responder.
#![tactic(auto)]

mod bits;
mod display;
mod events;
mod flag;
mod flags;
mod report;
mod row;
mod status;
mod status_bit;
mod values;

pub use bits::{Bits, NamedBit};
pub use events::StatusEvents;
pub use flag::ChangedFlag;
pub use flags::ChangedFlags;
pub use report::Report;
pub use row::Row;
pub use status::ControllerStatus;
pub use status_bit::StatusBit;
pub use values::Health;
