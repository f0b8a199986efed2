ghost use Rattle.std.specs.Prelude.{◌≡◌};
ghost use Rattle.commands.specs.SubsystemData.{subsystem_of};
ghost use Rattle.model.specs.Requests.{health_shown};
ghost use Rattle.model.specs.Drives.{lowest_link, second_lowest_link};
ghost use Rattle.polls.specs.Shown.{status_of};

use crate::links::lowest_port;
use crate::status::SubsystemStatus;
use crate::totals::total_health;
use commands::SubsystemHealthData;
use health::ChangedFlags;
use health_rules::temperature_code;
use register::{Port, Register};

// Link up at the ports of lowest and of second lowest identifier; down where there is none.
#[tactic(auto, using(crate::proofs::LowestPorts::lowest_from_0, crate::proofs::LowestPorts::lowest_from_next))]
fn links(ports: &[Port]) -> (bool, bool)
    ensures lowest { result.0 ≡ lowest_link ports.now }
    ensures second_lowest { result.1 ≡ second_lowest_link ports.now }
{
    let Some(lowest) = lowest_port(ports, 0) else {
        return (false, false);
    };
    match lowest_port(ports, u16::from(lowest.id) + 1) {
        Some(second) => (lowest.link_up, second.link_up),
        None => (lowest.link_up, false),
    }
}

// What an NVM Subsystem Health Status Poll shows, with these ports in use, to a Responder with these composite flags.
pub fn subsystem_health<R: Register>(
    register: &R,
    status: SubsystemStatus,
    ports: &[Port],
    composite: ChangedFlags,
) -> SubsystemHealthData
    ensures { subsystem_of result ≡ health_shown (R.Register.meaning register.now) (status_of status) ports.now composite.bits }
{
    let totals = total_health(register);
    let (lowest, second_lowest) = links(ports);
    SubsystemHealthData {
        sanitize_failed: status.sanitize_failed,
        functional: status.functional,
        reset_not_required: status.reset_not_required,
        port0_link_up: lowest,
        port1_link_up: second_lowest,
        critical_warning: totals.critical_warning,
        temperature_code: temperature_code(totals.temperature),
        percentage_used: totals.percentage_used,
        composite,
    }
}
