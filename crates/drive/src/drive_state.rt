use crate::answer::{CallFault, Grant};
use crate::call::{Call, CarrierName, FittingOutCall, RequestCall, ServiceCall};
use crate::memory::Memory;
use health_rules::{changed_flags_word, temperature_code};
use register::InlineRegister;
use std::mem;
use subsystem::{Fault, NotOpened, Subsystem, SubsystemBuilder};

// A subsystem is fitted out, and then in service.
#[derive(Drop)]
enum Phase {
    FittingOut(SubsystemBuilder),
    Service(Subsystem),
}

// The subsystem of the script, with the register and the memory that are lent to it.
#[derive(Drop)]
pub struct Drive {
    phase: Phase,
    register: InlineRegister,
    memory: Memory,
}

impl Drive {
    pub fn new() -> Drive {
        Drive {
            phase: Phase::FittingOut(SubsystemBuilder::new()),
            register: InlineRegister::new(),
            memory: Memory::new(),
        }
    }

    pub fn answer(&mut self, call: Call) -> Result<Grant<'_>, CallFault> {
        match call {
            Call::Register => {
                self.phase = Phase::FittingOut(SubsystemBuilder::new());
                self.register = InlineRegister::new();
                self.memory.lend_by_default();
                Ok(Grant::Done)
            }
            Call::Rows(length) => {
                self.memory.rows.lend(length);
                Ok(Grant::Done)
            }
            Call::Ports(length) => {
                self.memory.ports.lend(length);
                Ok(Grant::Done)
            }
            Call::Reply(length) => {
                self.memory.reply.lend(length);
                Ok(Grant::Done)
            }
            Call::Gained { old, new } => Ok(Grant::Gained(changed_flags_word(old, new))),
            Call::Code(kelvins) => Ok(Grant::Code(temperature_code(kelvins))),
            Call::FittingOut(call) => self.fit_out(call),
            Call::Open => self.open(),
            Call::Service(call) => self.serve(call),
        }
    }

    fn fit_out(&mut self, call: FittingOutCall) -> Result<Grant<'_>, CallFault> {
        let Phase::FittingOut(builder) = &mut self.phase else {
            return Err(CallFault::Misuse);
        };
        match call {
            FittingOutCall::Responder { kind } => Ok(Grant::Numbered(builder.add_responder(kind)?)),
            FittingOutCall::Controller {
                id,
                function,
                first,
            } => {
                builder.enroll(&mut self.register, id, function, first)?;
                Ok(Grant::Done)
            }
            FittingOutCall::Port { id } => {
                builder.add_port(self.memory.ports.slice_mut(), id)?;
                Ok(Grant::Done)
            }
        }
    }

    // Where opening is refused the subsystem is still fitted out.
    fn open(&mut self) -> Result<Grant<'_>, CallFault> {
        let Phase::FittingOut(builder) = &mut self.phase else {
            return Err(CallFault::Misuse);
        };
        let builder = mem::replace(builder, SubsystemBuilder::new());
        match builder.open(&self.register, self.memory.rows.slice_mut()) {
            Ok(subsystem) => {
                self.phase = Phase::Service(subsystem);
                Ok(Grant::Done)
            }
            Err(NotOpened { builder, fault }) => {
                self.phase = Phase::FittingOut(builder);
                Err(CallFault::Refused(fault))
            }
        }
    }

    fn serve(&mut self, call: ServiceCall) -> Result<Grant<'_>, CallFault> {
        let Drive {
            phase,
            register,
            memory,
        } = self;
        let Phase::Service(subsystem) = phase else {
            return Err(CallFault::Misuse);
        };
        match call {
            ServiceCall::Report { id, report } => {
                subsystem.report(register, memory.rows.slice_mut(), id, report)?
            }
            ServiceCall::Link { id, up } => {
                subsystem.set_link(memory.ports.slice_mut(), id, up)?
            }
            ServiceCall::Status(status) => subsystem.set_status(status),
            ServiceCall::Request(request) => {
                let reply = serve_request(subsystem, register, memory, request)?;
                return Ok(Grant::Replied(reply));
            }
            ServiceCall::Reset { responder } => {
                subsystem.reset(register, memory.rows.slice_mut(), responder)?
            }
        }
        Ok(Grant::Done)
    }
}

// The bytes of the reply to a request.
fn serve_request<'a>(
    subsystem: &mut Subsystem,
    register: &InlineRegister,
    memory: &'a mut Memory,
    request: RequestCall,
) -> Result<&'a [u8], Fault> {
    let RequestCall {
        responder,
        carrier,
        bytes,
    } = request;
    match carrier {
        CarrierName::Endpoint => {
            memory.serve::<wire::Endpoint>(subsystem, register, responder, bytes.as_slice())
        }
        CarrierName::Tunnel => {
            memory.serve::<wire::Tunnel>(subsystem, register, responder, bytes.as_slice())
        }
    }
}
