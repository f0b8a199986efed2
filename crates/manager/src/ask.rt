use crate::fault::LineFault;
use commands::{ControllerHealthPoll, HealthCommand};
use health::ChangedFlags;
use std::str::SplitWhitespace;

// A request to write: its tag and its command.
#[derive(Clone, Copy)]
pub struct Asked {
    pub tag: bool,
    pub command: HealthCommand,
}

// `COMMAND NAME=VALUE ..`. A value that is not named is 0.
pub fn read_asked(mut words: SplitWhitespace<'_>) -> Result<Asked, LineFault> {
    match words.next() {
        Some("subsystem-health-status-poll") => read_subsystem_poll(words),
        Some("controller-health-status-poll") => read_controller_poll(words),
        Some("configuration-set") => read_configuration_set(words),
        Some("configuration-get") => read_configuration_get(words),
        _ => Err(LineFault::UnknownCommand),
    }
}

// `drive` reads a flag alike: a public function in `console`, with its contract and edit, would be no shorter.
fn read_bit(value: &str) -> Result<bool, LineFault> {
    match value {
        "0" => Ok(false),
        "1" => Ok(true),
        _ => Err(LineFault::NotAValue),
    }
}

// Reads `NAME=VALUE ..`, and answers the tag. `set` sets the values that the command has beside it.
fn read_values<F: FnMut(&str, &str) -> Result<(), LineFault>>(
    words: SplitWhitespace<'_>,
    mut set: F,
) -> Result<bool, LineFault>
    requires { F.IsAlwaysCallable set }
{
    let mut tag = false;
    for word in words {
        let (name, value) = word.split_once('=').ok_or(LineFault::UnknownName)?;
        match name {
            "tag" => tag = read_bit(value)?,
            _ => set(name, value)?,
        }
    }
    Ok(tag)
}

fn read_subsystem_poll(words: SplitWhitespace<'_>) -> Result<Asked, LineFault> {
    let mut clear_status = false;
    let tag = read_values(words, |name, value| {
        match name {
            "clear" => clear_status = read_bit(value)?,
            _ => return Err(LineFault::UnknownName),
        }
        Ok(())
    })?;
    Ok(Asked {
        tag,
        command: HealthCommand::SubsystemHealthStatusPoll { clear_status },
    })
}

fn read_controller_poll(words: SplitWhitespace<'_>) -> Result<Asked, LineFault> {
    let mut poll = ControllerHealthPoll::default();
    let tag = read_values(words, |name, value| set_in_poll(&mut poll, name, value))?;
    Ok(Asked {
        tag,
        command: HealthCommand::ControllerHealthStatusPoll(poll),
    })
}

fn set_in_poll(poll: &mut ControllerHealthPoll, name: &str, value: &str) -> Result<(), LineFault> {
    match name {
        "maxrent" => poll.maxrent = value.parse::<u8>()?,
        "sctlid" => poll.sctlid = value.parse::<u16>()?,
        _ => set_poll_bit(poll, name, read_bit(value)?)?,
    }
    Ok(())
}

fn set_poll_bit(poll: &mut ControllerHealthPoll, name: &str, set: bool) -> Result<(), LineFault> {
    match name {
        "all" => poll.report_all = set,
        "incvf" => poll.incvf = set,
        "incpf" => poll.incpf = set,
        "incf" => poll.incf = set,
        "clear" => poll.clear_changed_flags = set,
        "cwarn" => poll.selection.cwarn = set,
        "spare" => poll.selection.spare = set,
        "pdlu" => poll.selection.pdlu = set,
        "ctemp" => poll.selection.ctemp = set,
        "csts" => poll.selection.csts = set,
        _ => return Err(LineFault::UnknownName),
    }
    Ok(())
}

fn read_configuration_set(words: SplitWhitespace<'_>) -> Result<Asked, LineFault> {
    let mut clear = ChangedFlags::none();
    let tag = read_values(words, |name, value| {
        match name {
            "flags" => clear = ChangedFlags::from_bits(u16::from_str_radix(value, 16)?),
            _ => return Err(LineFault::UnknownName),
        }
        Ok(())
    })?;
    Ok(Asked {
        tag,
        command: HealthCommand::ConfigurationSet { clear },
    })
}

fn read_configuration_get(words: SplitWhitespace<'_>) -> Result<Asked, LineFault> {
    let tag = read_values(words, |_, _| Err(LineFault::UnknownName))?;
    Ok(Asked {
        tag,
        command: HealthCommand::ConfigurationGet,
    })
}
