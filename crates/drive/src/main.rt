// A console for a subsystem: reads a script from standard input, a call a line, and answers each with a line, written at once.
//
// crates/drive/stdin shows every call, and README.md lists them.
#![tactic(auto)]

mod answer;
mod call;
mod drive_state;
mod fault;
mod fields;
mod memory;

use anyhow::ensure;
use call::read_line;
use drive_state::Drive;
use std::{env, io};

// Blank lines and comments get no answer.
fn answer_line(rt: &HostRuntime, drive: &mut Drive, line: &str) -> io::Result<()> {
    match read_line(rt.alloc(), line) {
        Ok(None) => Ok(()),
        Ok(Some(call)) => match drive.answer(call) {
            Ok(grant) => println!(rt; "{grant}"),
            Err(fault) => println!(rt; "{fault}"),
        },
        Err(fault) => println!(rt; "error {fault}"),
    }
}

// The only argument is `-`, for standard input.
fn check_arguments(rt: &HostRuntime) -> anyhow::Result<()> {
    for argument in env::args(rt)?.skip(1) {
        ensure!(
            argument.as_str() == "-",
            "the only argument is -, for standard input"
        );
    }
    Ok(())
}

fn main(rt: HostRuntime) -> anyhow::Result<()> {
    check_arguments(&rt)?;
    let mut drive = Drive::new();
    for line in rt.lines(rt.alloc()) {
        match line {
            Ok(line) => answer_line(&rt, &mut drive, line.as_str())?,
            Err(fault) => match fault.kind() {
                io::ErrorKind::InvalidData => println!(rt; "error not UTF-8 text")?,
                _ => return Err(fault.into()),
            },
        }
    }
    Ok(())
}
