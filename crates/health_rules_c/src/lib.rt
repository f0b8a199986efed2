// The static library for C: the flag rule and the temperature code on plain numbers, under the names that include/health_rules.h declares.
#![tactic(auto)]

ghost use Rattle.std.specs.Prelude.{◌≡◌};
ghost use Rattle.health_rules.specs.FlagRule.{exported};
ghost use Rattle.health_rules.specs.Temperature.{code_of};

use health::Report;
use health_rules::{changed_flags_word, temperature_code};

// The flag rule. A malformed report gets FFFFh. Old status bits above 5 are ignored.
#[unsafe(no_mangle)]
pub extern "C" fn changed_flags_gained(
    old_status: u16,
    old_temperature: u16,
    old_percentage_used: u8,
    old_available_spare: u8,
    old_critical_warning: u8,
    status: u16,
    temperature: u16,
    percentage_used: u8,
    available_spare: u8,
    critical_warning: u8,
) -> u16
    ensures { result ≡ exported (record { status = old_status; temperature = old_temperature; percentage_used = old_percentage_used; available_spare = old_available_spare; critical_warning = old_critical_warning }) (record { status = status; temperature = temperature; percentage_used = percentage_used; available_spare = available_spare; critical_warning = critical_warning }) }
{
    let old = Report {
        status: old_status,
        temperature: old_temperature,
        percentage_used: old_percentage_used,
        available_spare: old_available_spare,
        critical_warning: old_critical_warning,
    };
    let new = Report {
        status,
        temperature,
        percentage_used,
        available_spare,
        critical_warning,
    };
    changed_flags_word(old, new)
}

// The temperature code.
#[unsafe(no_mangle)]
pub extern "C" fn composite_temperature_code(kelvins: u16) -> u8
    ensures { result ≡ code_of kelvins }
{
    temperature_code(kelvins)
}
