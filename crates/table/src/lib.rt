// The ordered table: records that have a number, in memory that the caller lends.
#![tactic(auto)]

mod fault;
mod number;
mod ordered;
mod table;
mod table_methods;

pub use fault::TableFault;
pub use number::Numbered;
pub use ordered::{first_place, insert_into, record_at};
pub use table::Table;
