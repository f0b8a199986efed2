// Messages in print, for the programs: bytes as hex digits, and what requests and replies say, in words and numbers.
#![tactic(auto)]

mod hex;
mod number;
mod refusal;
mod reply;
mod request;

pub use hex::{HexBytes, HexFault, read_hex};
pub use number::read_decimal;
pub use refusal::{RefusalNumbers, RefusalText};
pub use reply::ReplyText;
pub use request::RequestText;
