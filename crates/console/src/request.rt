use commands::{ControllerHealthPoll, HealthCommand, ResponseStatus};
use std::fmt;
use wire::{Command, Head, Request};

// A request in print, a line for each of its parts.
#[derive(Clone, Copy)]
pub struct RequestText {
    pub request: Request,
}

impl fmt::Display for RequestText {
    fn fmt<W: fmt::Write>(&self, f: &mut fmt::Formatter<W>) -> fmt::Result {
        let Request {
            tag,
            command,
            meb,
            surplus,
        } = self.request;
        let tag = u8::from(tag);
        let meb = u8::from(meb);
        let Command { opcode, nmd0, nmd1 } = command;
        writeln!(f, "request: tag {tag}, MEB {meb}, surplus bytes {surplus}")?;
        writeln!(
            f,
            "  opcode {opcode:02X}h, NMD0 {nmd0:08X}h, NMD1 {nmd1:08X}h"
        )?;
        match HealthCommand::try_from(command) {
            Ok(asked) => write_command(asked, f),
            Err(reply) => {
                let status = ResponseStatus::from(Head::from(reply));
                write!(f, "  no health command: its error reply is {status}")
            }
        }
    }
}

fn write_command<W: fmt::Write>(asked: HealthCommand, f: &mut fmt::Formatter<W>) -> fmt::Result {
    match asked {
        HealthCommand::SubsystemHealthStatusPoll { clear_status } => {
            let clear = u8::from(clear_status);
            write!(
                f,
                "  NVM Subsystem Health Status Poll: Clear Status {clear}"
            )
        }
        HealthCommand::ControllerHealthStatusPoll(poll) => write_poll(poll, f),
        HealthCommand::ConfigurationSet { clear } => {
            write!(
                f,
                "  Configuration Set, Health Status Change: clear composite flags {clear}"
            )
        }
        HealthCommand::ConfigurationGet => write!(f, "  Configuration Get, Health Status Change"),
    }
}

fn write_poll<W: fmt::Write>(poll: ControllerHealthPoll, f: &mut fmt::Formatter<W>) -> fmt::Result {
    let all = u8::from(poll.report_all);
    let incvf = u8::from(poll.incvf);
    let incpf = u8::from(poll.incpf);
    let incf = u8::from(poll.incf);
    let maxrent = poll.maxrent;
    let sctlid = poll.sctlid;
    writeln!(
        f,
        "  Controller Health Status Poll: SCTLID {sctlid}, MAXRENT {maxrent}"
    )?;
    writeln!(
        f,
        "  Report All {all}, INCVF {incvf}, INCPF {incpf}, INCF {incf}"
    )?;
    let clear = u8::from(poll.clear_changed_flags);
    let cwarn = u8::from(poll.selection.cwarn);
    let spare = u8::from(poll.selection.spare);
    let pdlu = u8::from(poll.selection.pdlu);
    let ctemp = u8::from(poll.selection.ctemp);
    let csts = u8::from(poll.selection.csts);
    writeln!(
        f,
        "  select CWARN {cwarn}, SPARE {spare}, PDLU {pdlu}, CTEMP {ctemp}, CSTS {csts}"
    )?;
    write!(f, "  Clear Changed Flags {clear}")
}
