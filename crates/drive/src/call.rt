use crate::fault::LineFault;
use crate::fields::Fields;
use crate::memory::{PORTS, REPLY, ROWS};
use health::Report;
use std::alloc::Global;
use subsystem::SubsystemStatus;

// A line of the script.
#[derive(Drop)]
pub enum Call {
    // these are in phase always
    Register,
    Rows(usize),
    Ports(usize),
    Reply(usize),
    Gained { old: Report, new: Report },
    Code(u16),
    // these are not
    FittingOut(FittingOutCall),
    Open,
    Service(ServiceCall),
}

#[derive(Clone, Copy)]
pub enum FittingOutCall {
    Responder {
        // any number, which the builder may refuse
        kind: u8,
    },
    Controller {
        id: u16,
        // any number, which the builder may refuse
        function: u8,
        first: Report,
    },
    Port {
        id: u8,
    },
}

#[derive(Drop)]
pub enum ServiceCall {
    Report { id: u16, report: Report },
    Link { id: u8, up: bool },
    Status(SubsystemStatus),
    Request(RequestCall),
    Reset { responder: u8 },
}

#[derive(Drop)]
pub struct RequestCall {
    pub responder: u8,
    pub carrier: CarrierName,
    pub bytes: Vec<u8>,
}

// `manager` has the same two words: one public type in `console`, with its contract and edits, would be no shorter.
#[derive(Clone, Copy)]
pub enum CarrierName {
    Endpoint,
    Tunnel,
}

// The call that a line names. Blank lines and comments (#) name none.
pub fn read_line(heap: Global, line: &str) -> Result<Option<Call>, LineFault> {
    let mut fields = Fields::new(heap, line);
    let Some(name) = fields.next_word() else {
        return Ok(None);
    };
    if name.starts_with('#') {
        return Ok(None);
    }
    let call = read_call(name, &mut fields)?;
    fields.end()?;
    Ok(Some(call))
}

fn read_call(name: &str, fields: &mut Fields<'_>) -> Result<Call, LineFault> {
    match name {
        "register" => read_register(fields),
        "rows" => Ok(Call::Rows(usize::from(fields.number(ROWS as u16)?))),
        "ports" => Ok(Call::Ports(usize::from(fields.number(PORTS as u16)?))),
        "reply" => Ok(Call::Reply(usize::from(fields.number(REPLY as u16)?))),
        "gained" => read_gained(fields),
        "code" => Ok(Call::Code(fields.u16()?)),
        "responder" => Ok(Call::FittingOut(FittingOutCall::Responder { kind: fields.u8()? })),
        "controller" => Ok(Call::FittingOut(FittingOutCall::Controller {
            id: fields.u16()?,
            function: fields.u8()?,
            first: fields.report()?,
        })),
        "port" => Ok(Call::FittingOut(FittingOutCall::Port { id: fields.u8()? })),
        "open" => Ok(Call::Open),
        "report" => Ok(Call::Service(ServiceCall::Report {
            id: fields.u16()?,
            report: fields.report()?,
        })),
        "link" => Ok(Call::Service(ServiceCall::Link {
            id: fields.u8()?,
            up: fields.link()?,
        })),
        "status" => Ok(Call::Service(read_status(fields)?)),
        "request" => Ok(Call::Service(read_request(fields)?)),
        "reset" => Ok(Call::Service(ServiceCall::Reset {
            responder: fields.u8()?,
        })),
        _ => Err(LineFault::UnknownCall),
    }
}

fn read_register(fields: &mut Fields<'_>) -> Result<Call, LineFault> {
    match fields.word()? {
        "inline" => Ok(Call::Register),
        _ => Err(LineFault::NotARegister),
    }
}

fn read_gained(fields: &mut Fields<'_>) -> Result<Call, LineFault> {
    Ok(Call::Gained {
        old: fields.report()?,
        new: fields.report()?,
    })
}

fn read_status(fields: &mut Fields<'_>) -> Result<ServiceCall, LineFault> {
    Ok(ServiceCall::Status(SubsystemStatus {
        functional: fields.flag()?,
        reset_not_required: fields.flag()?,
        sanitize_failed: fields.flag()?,
    }))
}

fn read_request(fields: &mut Fields<'_>) -> Result<ServiceCall, LineFault> {
    Ok(ServiceCall::Request(RequestCall {
        responder: fields.u8()?,
        carrier: read_carrier(fields)?,
        bytes: fields.bytes()?,
    }))
}

fn read_carrier(fields: &mut Fields<'_>) -> Result<CarrierName, LineFault> {
    match fields.word()? {
        "endpoint" => Ok(CarrierName::Endpoint),
        "tunnel" => Ok(CarrierName::Tunnel),
        _ => Err(LineFault::NotACarrier),
    }
}
