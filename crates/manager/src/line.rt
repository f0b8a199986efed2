use crate::ask::{Asked, read_asked};
use crate::fault::LineFault;
use console::read_hex;
use std::alloc::Global;
use std::str::SplitWhitespace;

// A line: a message, and the carrier that it is for.
#[derive(Drop)]
pub struct Line {
    pub carrier: CarrierName,
    pub message: Message,
}

// `drive` has the same two words: one public type in `console`, with its contract and edits, would be no shorter.
#[derive(Clone, Copy)]
pub enum CarrierName {
    Endpoint,
    Tunnel,
}

// A request or a reply that was captured, or a request to write.
#[derive(Drop)]
pub enum Message {
    Request(Vec<u8>),
    Reply(Vec<u8>),
    Ask(Asked),
}

// The line that begins with this word.
pub fn read_line(heap: Global, first: &str, words: SplitWhitespace<'_>) -> Result<Line, LineFault> {
    match first {
        "endpoint" => read_captured(heap, CarrierName::Endpoint, words),
        "tunnel" => read_captured(heap, CarrierName::Tunnel, words),
        "ask" => read_ask(words),
        _ => Err(LineFault::UnknownLine),
    }
}

// `request HEX` or `reply HEX`.
fn read_captured(
    heap: Global,
    carrier: CarrierName,
    mut words: SplitWhitespace<'_>,
) -> Result<Line, LineFault> {
    let message = match words.next() {
        Some("request") => Message::Request(read_bytes(heap, words)?),
        Some("reply") => Message::Reply(read_bytes(heap, words)?),
        _ => return Err(LineFault::UnknownMessage),
    };
    Ok(Line { carrier, message })
}

fn read_bytes(heap: Global, words: SplitWhitespace<'_>) -> Result<Vec<u8>, LineFault> {
    let mut bytes = Vec::new(heap);
    for word in words {
        let part = read_hex(heap, word.as_bytes())?;
        bytes.extend_from_slice(part.as_slice())?;
    }
    Ok(bytes)
}

// `endpoint|tunnel COMMAND NAME=VALUE ..`
fn read_ask(mut words: SplitWhitespace<'_>) -> Result<Line, LineFault> {
    let carrier = match words.next() {
        Some("endpoint") => CarrierName::Endpoint,
        Some("tunnel") => CarrierName::Tunnel,
        _ => return Err(LineFault::UnknownCarrier),
    };
    let message = Message::Ask(read_asked(words)?);
    Ok(Line { carrier, message })
}
