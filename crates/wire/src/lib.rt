// Requests and the heads of replies as bytes, over any carrier: a Management Endpoint's messages and a controller's in-band tunnel.
#![tactic(auto)]

mod carrier;
mod endpoint;
mod fault;
mod message;
mod nmp;
mod refused;
mod reply;
mod round_trip;
mod space;
mod tunnel;

pub use carrier::Carrier;
pub use endpoint::Endpoint;
pub use fault::WireFault;
pub use message::{Command, Head, Lengths, Request};
pub use refused::Refused;
pub use reply::{Reply, read_reply};
pub use round_trip::{head_round_trip, request_round_trip};
pub use space::check_space;
pub use tunnel::Tunnel;
