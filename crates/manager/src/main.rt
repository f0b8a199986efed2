// Decodes captured polls of a drive, and writes the bytes of requests.
//
// Reads lines from standard input: `endpoint request HEX`, `endpoint reply HEX`, the same with `tunnel`, and
// `ask endpoint|tunnel COMMAND NAME=VALUE ..`. Without input it shows a built-in exchange.
#![tactic(auto)]

mod ask;
mod capture;
mod fault;
mod line;

use anyhow::anyhow;
use capture::Capture;
use line::read_line;

// A manager asks an endpoint for the health of all controllers, and gets one entry.
const EXAMPLE: [&str; 3] = [
    "ask endpoint controller-health-status-poll all=1 incf=1 clear=1",
    "endpoint request 84080000020000000000008100000080",
    "endpoint reply 8488000000000001010001002A0103640001010000000000",
];

// One line: blank lines and comments (#) are passed over.
fn handle(rt: &HostRuntime, capture: &mut Capture, line: &str) -> anyhow::Result<()> {
    let mut words = line.split_whitespace();
    let Some(first) = words.next() else {
        return Ok(());
    };
    if first.starts_with('#') {
        return Ok(());
    }
    println!(rt; "> {line}")?;
    match read_line(rt.alloc(), first, words) {
        Ok(line) => capture
            .show(rt, line)
            .map_err(|_| anyhow!("standard output is closed")),
        Err(fault) => Ok(println!(rt; "error: {fault}")?),
    }
}

fn main(rt: HostRuntime) -> anyhow::Result<()> {
    let mut capture = Capture::default();
    let mut empty = true;
    for line in rt.lines(rt.alloc()) {
        let line = line?;
        empty = false;
        handle(&rt, &mut capture, line.as_str())?;
    }
    if empty {
        for line in EXAMPLE {
            handle(&rt, &mut capture, line)?;
        }
    }
    Ok(())
}
