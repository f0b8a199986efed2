use crate::hex::HexBytes;
use crate::refusal::RefusalText;
use commands::{ControllerHealthData, HealthCommand, ResponseStatus, SubsystemHealthData};
use std::fmt;
use wire::{Reply, WireFault};

// A reply in print, read as the answer to a request, where that is known.
#[derive(Clone, Copy)]
pub struct ReplyText<'a> {
    pub reply: Reply<'a>,
    pub asked: Option<HealthCommand>,
}

impl fmt::Display for ReplyText<'_> {
    fn fmt<W: fmt::Write>(&self, f: &mut fmt::Formatter<W>) -> fmt::Result {
        let head = self.reply.head;
        let nmresp = head.nmresp;
        let status = ResponseStatus::from(head);
        write!(f, "reply: status {status}, NMRESP {nmresp:06X}h")?;
        match (status, self.asked) {
            (ResponseStatus::Success, Some(HealthCommand::ControllerHealthStatusPoll(_))) => {
                write_entries(nmresp / 0x1_0000, self.reply.payload, f)
            }
            (ResponseStatus::Success, Some(HealthCommand::SubsystemHealthStatusPoll { .. })) => {
                write_subsystem(self.reply.payload, f)
            }
            (ResponseStatus::Success, None) => write_rest(
                "data of an unknown request",
                self.reply.payload,
                f,
            ),
            (_, _) => write_rest("unexpected data", self.reply.payload, f),
        }
    }
}

// Bytes that are not taken apart.
fn write_rest<W: fmt::Write>(what: &str, rest: &[u8], f: &mut fmt::Formatter<W>) -> fmt::Result {
    if rest.is_empty() {
        return Ok(());
    }
    let bytes = HexBytes { bytes: rest };
    write!(f, "\n  {what}: {bytes}")
}

// Data that is refused.
fn write_refusal<W: fmt::Write>(fault: WireFault, f: &mut fmt::Formatter<W>) -> fmt::Result {
    let refused = RefusalText { fault };
    write!(f, "\n  {refused}")
}

// The entries, as many as NMRESP bits 23:16 say. `chunks` would be no plainer here: it ends before an entry that is missing, and that is
// refused with the length found.
fn write_entries<W: fmt::Write>(
    count: u32,
    payload: &[u8],
    f: &mut fmt::Formatter<W>,
) -> fmt::Result {
    write!(f, "\n  entries: {count}")?;
    let mut rest = payload;
    for _ in 0..count {
        match ControllerHealthData::read(rest) {
            Ok(entry) => write_entry(entry, f)?,
            Err(fault) => return write_refusal(fault, f),
        }
        rest = &rest[16..];
    }
    write_rest("unexpected data", rest, f)
}

fn write_entry<W: fmt::Write>(
    entry: ControllerHealthData,
    f: &mut fmt::Formatter<W>,
) -> fmt::Result {
    let id = entry.controller_id;
    let status = entry.status;
    let temperature = entry.temperature;
    let used = entry.percentage_used;
    let spare = entry.available_spare;
    let warning = entry.critical_warning;
    let changed = entry.changed;
    write!(f, "\n  controller {id}: status {status}")?;
    match temperature {
        0 => write!(f, "\n    no temperature reading")?,
        _ => write!(f, "\n    temperature {temperature} K")?,
    }
    write!(
        f,
        ", percentage used {used}, available spare {spare}, critical warning {warning:02X}h"
    )?;
    write!(f, "\n    changed flags {changed}")
}

fn write_subsystem<W: fmt::Write>(payload: &[u8], f: &mut fmt::Formatter<W>) -> fmt::Result {
    match SubsystemHealthData::read(payload) {
        Ok(data) => {
            write_subsystem_health(data, f)?;
            write_rest("unexpected data", &payload[8..], f)
        }
        Err(fault) => write_refusal(fault, f),
    }
}

fn write_subsystem_health<W: fmt::Write>(
    data: SubsystemHealthData,
    f: &mut fmt::Formatter<W>,
) -> fmt::Result {
    let functional = u8::from(data.functional);
    let reset_not_required = u8::from(data.reset_not_required);
    let sanitize_failed = u8::from(data.sanitize_failed);
    let port0 = u8::from(data.port0_link_up);
    let port1 = u8::from(data.port1_link_up);
    write!(
        f,
        "\n  functional {functional}, reset not required {reset_not_required}, sanitize failed {sanitize_failed}"
    )?;
    write!(
        f,
        "\n  link up at the lowest port {port0}, at the second lowest port {port1}"
    )?;
    let warning = data.critical_warning;
    let used = data.percentage_used;
    let composite = data.composite;
    write!(
        f,
        "\n  critical warning {warning:02X}h, percentage used {used}, temperature "
    )?;
    write_temperature(data.temperature_code, f)?;
    write!(f, "\n  composite flags {composite}")
}

// The temperature code of a subsystem, in degrees Celsius.
fn write_temperature<W: fmt::Write>(code: u8, f: &mut fmt::Formatter<W>) -> fmt::Result {
    match code {
        0..=0x7e => write!(f, "{code} C"),
        0x7f => write!(f, "127 C or more"),
        0x80 => write!(f, "without a reading"),
        0x81..=0xc3 => write!(f, "reserved {code:02X}h"),
        0xc4 => write!(f, "-60 C or less"),
        _ => {
            let celsius = code.cast_signed();
            write!(f, "{celsius} C")
        }
    }
}
