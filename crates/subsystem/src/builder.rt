ghost use Rattle.std.specs.Prelude.{◌≤◌};

use arrayvec::ArrayVec;

// A subsystem that is fitted out: Responders, controllers and ports are added. It serves nothing yet.
#[derive(Drop)]
pub struct SubsystemBuilder {
    // the kinds of the Responders, in order of adding
    pub(crate) kinds: ArrayVec<u8, 8>,
    // how many ports there are; they stand in memory that is lent to each call
    pub(crate) port_count: usize,
    ghost at_most_8_ports: { port_count ≤ 8 },
}
