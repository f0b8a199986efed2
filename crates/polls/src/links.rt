ghost use Rattle.std.specs.Prelude.{◌≡◌};
ghost use Rattle.model.specs.Drives.{lowest_from};

use register::Port;

// The port of lowest identifier at or above this one.
pub(crate) fn lowest_port(ports: &[Port], from: u16) -> Option<Port>
    ensures { result ≡ lowest_from from ports.now }
{
    ports
        .iter()
        .filter(|port| from <= u16::from(port.id))
        .min_by_key(
            |port|
                ensures is_the_identifier { result ≡ port.now.now.id }
            { port.id },
        )
        .copied()
}
