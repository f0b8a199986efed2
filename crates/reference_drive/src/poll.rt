use crate::fault::RunFault;
use crate::power::PoweredDrive;
use commands::{ControllerHealthPoll, HealthCommand};
use console::{HexBytes, ReplyText, RequestText};
use register::InlineRegister;
use std::{fmt, io};
use wire::{Carrier, read_reply};

impl PoweredDrive {
    // Polls at a Responder, and prints the request and the reply. It asks for all plain PCI functions, whatever their changed flags; the flags
    // are cleared.
    pub fn poll<C: Carrier>(&mut self, rt: &HostRuntime, responder: u8) -> Result<(), RunFault> {
        let poll = HealthCommand::ControllerHealthStatusPoll(ControllerHealthPoll {
            report_all: true,
            incf: true,
            clear_changed_flags: true,
            ..ControllerHealthPoll::default()
        });
        let mut request_space = [0u8; 128];
        let length = C::write_request(false, poll.into(), &mut request_space)?;
        let request = &request_space[..length];
        let text = RequestText {
            request: C::read_request(request)?,
        };
        show(rt, request, text)?;
        let mut reply_space = [0u8; 4160];
        let length = self.subsystem.serve::<C, InlineRegister>(
            responder,
            &self.register,
            &mut self.rows,
            &self.ports,
            request,
            &mut reply_space,
        )?;
        let reply = reply_space.get(..length).unwrap_or(&[]);
        let text = ReplyText {
            reply: read_reply::<C>(reply)?,
            asked: Some(poll),
        };
        show(rt, reply, text)?;
        Ok(())
    }
}

// A message in bytes and in words.
fn show<T: fmt::Display + Drop>(rt: &HostRuntime, bytes: &[u8], text: T) -> io::Result<()> {
    let hex = HexBytes { bytes };
    println!(rt; "{hex}\n{text}")
}
