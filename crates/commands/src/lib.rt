// The four health commands, as an opcode and two dwords, and the data of their replies as bytes.
#![tactic(auto)]

mod command;
mod controller_data;
mod controller_poll;
mod dword;
mod error;
mod response;
mod subsystem_data;

pub use command::HealthCommand;
pub use controller_data::ControllerHealthData;
pub use controller_poll::{ControllerHealthPoll, Selection};
pub use error::ErrorReply;
pub use response::ResponseStatus;
pub use subsystem_data::SubsystemHealthData;
