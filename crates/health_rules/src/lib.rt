// The flag rule and the temperature code.
#![tactic(auto)]

mod flag_rule;
mod temperature;

pub use flag_rule::{changed_flags_gained, changed_flags_word, gained_flags};
pub use temperature::temperature_code;
