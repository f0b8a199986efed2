// Registers of controllers, and the ports of the drive, in memory that the caller lends.
#![tactic(auto)]

mod controller;
mod controllers;
mod inline;
mod inline_methods;
mod port;
mod register;
mod register_fault;

pub use controller::{Controller, FunctionType, UnknownFunctionType};
pub use inline::InlineRegister;
pub use port::Port;
pub use register::Register;
pub use register_fault::RegisterFault;
