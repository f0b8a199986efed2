ghost use Rattle.std.specs.Prelude.{◌≡◌, ◌==◌, false, not, List, ◌++◌, length, is_ok, position, Ok};
ghost use Rattle.wire.specs.Refusals.{refuse_if};
ghost use Rattle.health.specs.declared.row.Row.{Row};
ghost use Rattle.register.specs.Registers.{RegisterValues};
ghost use Rattle.register.specs.declared.port.Port.{Port};
ghost use Rattle.model.specs.Calls.{set_link, judged, step};
ghost use Rattle.model.specs.Drives.{is_port, linked_ports};
ghost use Rattle.model.specs.ServiceRefusals.{unknown_identifier};
ghost use Rattle.subsystem.specs.Faults.{in_numbers};
ghost use Rattle.subsystem.specs.States.{state_of};

use crate::fault::Fault;
use crate::memory::check_length;
use crate::service::Subsystem;
use register::Port;

// The place of the first port with the identifier.
fn place_of(ports: &[Port], id: u8) -> Option<usize>
    ensures { result ≡ position (λ p. p.id == id) ports.now }
{
    ports.iter().position(|port| port.id == id)
}

// The port with this link.
fn with_link(port: Port, up: bool) -> Port
    ensures { result ≡ record { id = port.id; link_up = up } }
{
    Port {
        link_up: up,
        ..port
    }
}

// The first port with the identifier gets the link. Refused if there is none.
fn link_port(ports: &mut [Port], id: u8, up: bool) -> Result<(), Fault>
    ensures refused_if_there_is_none { in_numbers result ≡ refuse_if (not (is_port id ports.old)) (unknown_identifier id) (Ok tt) }
    ensures links_the_first { ports.new ≡ linked_ports id up ports.old }
    ensures a_refusal_changes_nothing { is_ok result ≡ false → ports.new ≡ ports.old }
{
    let place = place_of(ports, id).ok_or(Fault::UnknownIdentifier { id: u16::from(id) })?;
    ports[place] = with_link(ports[place], up);
    Ok(())
}

impl Subsystem {
    // Takes the link of a port.
    pub fn set_link(&mut self, ports: &mut [Port], id: u8, up: bool) -> Result<(), Fault>
        ensures is_answered_and_done_as_the_model_says { (m : RegisterValues) (rows : List Row) (rest : List Port) → record { answer = judged (in_numbers result); state = state_of self.new m rows (ports.new ++ rest) } ≡ step (state_of self.old m rows (ports.old ++ rest)) (set_link (length ports.old) id up) }
        ensures leaves_the_subsystem { self.new ≡ self.old }
        ensures a_refusal_changes_nothing { is_ok result ≡ false → ports.new ≡ ports.old }
    {
        check_length(ports.len(), self.port_count)?;
        link_port(&mut ports[0..self.port_count], id, up)
    }
}
