// What the fitting-out calls rest on.
ghost use Rattle.std.specs.Prelude.{◌≡◌};
ghost use Rattle.std.specs.Option.{option_map};
ghost use Rattle.register.specs.Controllers.{controller_of};
ghost use Rattle.model.specs.Fitting.{controller_enrolled};

use health::Report;
use register::{Controller, FunctionType};

// The controller that an enrolment names, unless it is malformed.
pub(crate) fn controller_from(id: u16, function: u8, first: Report) -> Option<Controller>
    ensures { option_map controller_of result ≡ controller_enrolled id function first }
{
    if first.status >= 0x40 || first.critical_warning >= 0x40 {
        return None;
    }
    let function = FunctionType::try_from(function).ok()?;
    Some(Controller {
        id,
        function,
        health: first.health(),
    })
}
