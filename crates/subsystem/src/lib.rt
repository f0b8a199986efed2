// A health-polling subsystem: what the drive links. It is fitted out by `SubsystemBuilder`, opened, and then in service.
#![tactic(auto)]

mod answer;
mod builder;
mod builder_methods;
mod fault;
mod find;
mod fitting;
mod lent;
mod link;
mod mark;
mod memory;
mod not_opened;
mod open;
mod opening;
mod reply;
mod report;
mod reset;
mod responder;
mod serve;
mod service;
mod status;

pub use builder::SubsystemBuilder;
pub use fault::Fault;
pub use not_opened::NotOpened;
pub use polls::SubsystemStatus;
pub use service::Subsystem;
