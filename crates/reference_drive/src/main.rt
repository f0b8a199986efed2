// The reference drive: controller 1, two PCIe ports, two Management Endpoints and the in-band tunnel of the controller. The managers of the
// endpoints and the host at the tunnel poll it once each; what they send and get is printed, in bytes and in words.
#![tactic(auto)]

mod fault;
mod poll;
mod power;

use fault::RunFault;
use power::PoweredDrive;
use wire::{Endpoint, Tunnel};

fn poll_from_each(rt: &HostRuntime) -> Result<(), RunFault> {
    let mut drive = PoweredDrive::power_on()?;
    println!(rt; "Responder 0, a Management Endpoint")?;
    drive.poll::<Endpoint>(rt, 0)?;
    println!(rt; "Responder 1, a Management Endpoint")?;
    drive.poll::<Endpoint>(rt, 1)?;
    println!(rt; "Responder 2, the tunnel")?;
    drive.poll::<Tunnel>(rt, 2)
}

fn main(rt: HostRuntime) -> anyhow::Result<()> {
    Ok(poll_from_each(&rt)?)
}
