// Which controllers a Controller Health Status Poll returns, and their entries.
ghost use Rattle.std.specs.Prelude.{◌≡◌, ◌+◌, length, nat_lt};
ghost use Rattle.health.specs.Rows.{row_of};
ghost use Rattle.commands.specs.ControllerData.{entry_bytes, entry_of};
ghost use Rattle.register.specs.Controllers.{controller_of};
ghost use Rattle.register.specs.Functions.{function_number};
ghost use Rattle.model.specs.Requests.{includes, selects, qualifies, entry_for};
ghost use Rattle.polls.specs.Polls.{row_after};

use commands::{ControllerHealthData, ControllerHealthPoll};
use health::{ChangedFlag, ChangedFlags, ControllerStatus, Row};
use register::{Controller, FunctionType};

// Whether the poll asks for functions of this type.
fn includes(poll: ControllerHealthPoll, function: FunctionType) -> bool
    ensures { result ≡ includes poll (function_number function) }
{
    match function {
        FunctionType::Pci => poll.incf,
        FunctionType::SriovPhysical => poll.incpf,
        FunctionType::SriovVirtual => poll.incvf,
    }
}

// Whether a flag that the poll selects is set.
fn selects(poll: ControllerHealthPoll, changed: ChangedFlags) -> bool
    ensures { result ≡ selects poll changed.bits }
{
    let selection = poll.selection;
    (selection.cwarn && changed.has(ChangedFlag::Cwarn))
        || (selection.spare && changed.has(ChangedFlag::Spare))
        || (selection.pdlu && changed.has(ChangedFlag::Pdlu))
        || (selection.ctemp && changed.has(ChangedFlag::Ctemp))
        || (selection.csts && changed.has(ChangedFlag::Csts))
}

// Whether the poll returns this controller, with this row.
pub(crate) fn qualifies(poll: ControllerHealthPoll, controller: Controller, row: Row) -> bool
    ensures { result ≡ qualifies poll (controller_of controller) (row_of row) }
{
    poll.sctlid <= controller.id
        && includes(poll, controller.function)
        && (poll.report_all || selects(poll, row.changed))
}

// Whether a poll that has returned so many may return one more.
pub(crate) fn may_return_more(poll: ControllerHealthPoll, found: usize) -> bool
    ensures { result ≡ nat_lt found (poll.maxrent + 1) }
{
    found < usize::from(poll.maxrent) + 1
}

// The row once its controller is returned.
pub(crate) fn returned_row(poll: ControllerHealthPoll, row: Row) -> Row
    ensures { row_of result ≡ row_after poll (row_of row) }
{
    if poll.clear_changed_flags {
        Row::clear()
    } else {
        row
    }
}

// The entry of a controller, with the flags and the status events of the row.
pub(crate) fn entry(controller: Controller, row: Row) -> ControllerHealthData
    ensures { entry_of result ≡ entry_for (controller_of controller) (row_of row) }
{
    let health = controller.health;
    ControllerHealthData {
        controller_id: controller.id,
        status: ControllerStatus::from_bits(health.levels + row.events.bits()),
        temperature: health.temperature,
        percentage_used: health.percentage_used,
        available_spare: health.available_spare,
        critical_warning: health.critical_warning,
        changed: row.changed,
    }
}
