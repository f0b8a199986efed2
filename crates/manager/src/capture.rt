use crate::ask::Asked;
use crate::line::{CarrierName, Line, Message};
use commands::HealthCommand;
use console::{HexBytes, RefusalText, ReplyText, RequestText};
use std::{fmt, io};
use wire::{Carrier, Endpoint, Tunnel, WireFault, read_reply};

// The health command that was last captured over each carrier.
#[derive(Default, Drop)]
pub struct Capture {
    endpoint: Option<HealthCommand>,
    tunnel: Option<HealthCommand>,
}

impl Capture {
    // Prints what a line says, or the bytes that it asks for.
    pub fn show(&mut self, rt: &HostRuntime, line: Line) -> io::Result<()> {
        let Line { carrier, message } = line;
        match carrier {
            CarrierName::Endpoint => show_message::<Endpoint>(rt, &mut self.endpoint, message),
            CarrierName::Tunnel => show_message::<Tunnel>(rt, &mut self.tunnel, message),
        }
    }
}

// A reply is read as the answer to the request before it.
fn show_message<C: Carrier>(
    rt: &HostRuntime,
    asked: &mut Option<HealthCommand>,
    message: Message,
) -> io::Result<()> {
    match message {
        Message::Request(bytes) => {
            let request = C::read_request(bytes.as_slice());
            *asked = request
                .ok()
                .and_then(|request| HealthCommand::try_from(request.command).ok());
            show(rt, request.map(|request| RequestText { request }))
        }
        Message::Reply(bytes) => {
            let asked = *asked;
            let reply = read_reply::<C>(bytes.as_slice());
            show(rt, reply.map(|reply| ReplyText { reply, asked }))
        }
        Message::Ask(Asked { tag, command }) => {
            let mut space = [0u8; 128];
            let written = C::write_request(tag, command.into(), &mut space);
            show(
                rt,
                written.map(|length| HexBytes {
                    bytes: &space[..length],
                }),
            )
        }
    }
}

// Prints what was made or read, or why it was refused.
fn show<T: fmt::Display + Drop>(rt: &HostRuntime, made: Result<T, WireFault>) -> io::Result<()> {
    match made {
        Ok(text) => println!(rt; "{text}"),
        Err(fault) => {
            let text = RefusalText { fault };
            println!(rt; "{text}")
        }
    }
}
