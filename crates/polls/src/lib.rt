// What a health poll writes and clears: the entries of a reply, the rows of one Responder, and the subsystem's health.
#![tactic(auto)]

mod entries;
mod links;
mod qualify;
mod rows;
mod status;
mod summary;
mod totals;

pub use entries::write_entries;
pub use rows::clear_rows;
pub use status::SubsystemStatus;
pub use summary::subsystem_health;
