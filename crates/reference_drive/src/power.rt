use health::{Report, Row};
use register::{InlineRegister, Port};
use subsystem::{Fault, Subsystem, SubsystemBuilder};
use wire::{Carrier, Endpoint, Tunnel};

// The health of controller 1 at first.
const FIRST: Report = Report {
    status: 0x0000,
    temperature: 298,
    percentage_used: 3,
    available_spare: 100,
    critical_warning: 0x00,
};

// The same, and ready.
const READY: Report = Report {
    status: 0x0001,
    ..FIRST
};

// The drive in service, with the register and the memory that it lends to each call.
#[derive(Drop)]
pub struct PoweredDrive {
    pub subsystem: Subsystem,
    pub register: InlineRegister,
    pub rows: [Row; 3],
    pub ports: [Port; 2],
}

impl PoweredDrive {
    // Fits out the subsystem and opens it. Then the link of port 0 comes up, and the controller gets ready.
    pub fn power_on() -> Result<PoweredDrive, Fault> {
        let mut register = InlineRegister::new();
        let mut rows = [Row::clear(); 3];
        let mut ports = [Port::default(); 2];
        let builder = fit_out(&mut register, &mut ports)?;
        let mut subsystem = builder.open(&register, &mut rows)?;
        subsystem.set_link(&mut ports, 0, true)?;
        subsystem.report(&mut register, &mut rows, 1, READY)?;
        Ok(PoweredDrive {
            subsystem,
            register,
            rows,
            ports,
        })
    }
}

fn fit_out(register: &mut InlineRegister, ports: &mut [Port]) -> Result<SubsystemBuilder, Fault> {
    let mut builder = SubsystemBuilder::new();
    builder.add_responder(Endpoint::KIND)?;
    builder.add_responder(Endpoint::KIND)?;
    builder.add_responder(Tunnel::KIND)?;
    builder.enroll(register, 1, 0, FIRST)?;
    builder.add_port(ports, 0)?;
    builder.add_port(ports, 1)?;
    Ok(builder)
}
