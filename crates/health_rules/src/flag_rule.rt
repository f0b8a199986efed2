ghost use Rattle.std.specs.Prelude.{◌≡◌, ◌/◌, ◌%◌, ◌^◌, ◌<◌, not, is_some, if◌then◌else◌, unwrap_or};
ghost use Rattle.std.specs.Option.{option_map};
ghost use Rattle.health.specs.Words.{bit};
ghost use Rattle.health.specs.Flags.{named_flags};
ghost use Rattle.health.specs.Values.{health_of, well_formed};
ghost use Rattle.health_rules.specs.FlagRule.{word_of, status_gains, field_gains, gained, exported};

use health::{ChangedFlags, Health, Report};

// This flag where the values of a field differ, old against new.
fn field_flag<T: PartialEq + Copy>(old: T, new: T, flag: u16) -> u16
    ensures { result ≡ if not (T.eq old new) then flag else 0 }
{
    if old != new { flag } else { 0 }
}

// TCIDA, flag 13, where status bit 8 is reported.
#[tactic(auto, using(crate::proofs::Gains::tcida_word))]
fn tcida_flag(status: u16) -> u16
    ensures { result ≡ if bit status 8 then 2 ^ 13 else 0 }
{
    (status & 0x100) << 5
}

// CTEMP, PDLU, SPARE and CWARN, where their fields differ, and TCIDA.
fn field_flags(old: Health, new: Report) -> u16
    ensures { result ≡ word_of (field_gains (health_of old) new) }
{
    field_flag(old.temperature, new.temperature, 0x200)
        | field_flag(old.percentage_used, new.percentage_used, 0x400)
        | field_flag(old.available_spare, new.available_spare, 0x800)
        | field_flag(old.critical_warning, new.critical_warning, 0x1000)
        | tcida_flag(new.status)
}

// By the Controller Status words: RDY, CFS, SHST and CECO where a bit of theirs differs, NSSRO where bit 4 is newly set, NAC and FA where
// they are reported, and CSTS where a level bit differs or a status event is reported.
#[tactic(auto, using(crate::proofs::Gains::status_word, crate::proofs::Gains::status_bit_3))]
fn status_flags(old: u16, new: u16) -> u16
    ensures is_the_word_of_its_rows { result ≡ word_of (status_gains old new) }
    ensures below_ctemp { result < 2 ^ 9 }
    ensures bit_3_is_clear { result / 2 ^ 3 % 2 ≡ 0 }
{
    let differing = (old ^ new) & 0x3f;
    differing & 0x03
        | (differing | differing >> 1) & 0x04
        | differing & new & 0x10
        | differing & 0x20
        | new & 0xc0
        | u16::from(differing | new & 0x1c0 != 0) << 8
}

// The flag rule in one word.
fn gained_word(old: Health, new: Report) -> u16
    ensures is_the_word_of_the_table { result ≡ gained (health_of old) new }
    ensures names_flags_only { named_flags result ≡ result }
{
    status_flags(old.levels, new.status) | field_flags(old, new)
}

// The flags that every Responder's row gains by a report, against the health that the register holds.
pub fn gained_flags(old: Health, new: Report) -> ChangedFlags
    ensures { result.bits ≡ gained (health_of old) new }
{
    ChangedFlags::from_bits(gained_word(old, new))
}

// The flags that a report gains against an older one, whose status events are ignored. A malformed report gets none.
pub fn changed_flags_gained(old: Report, new: Report) -> Option<ChangedFlags>
    ensures refused_exactly_if_malformed { is_some result ≡ well_formed new }
    ensures gains_what_c_is_told { unwrap_or (option_map (λ f. f.bits) result) 0xffff ≡ exported old new }
{
    new.is_well_formed()
        .then(|| gained_flags(old.health(), new))
}

// The same as a number, for those who pass it on as one: FFFFh for a malformed report.
pub fn changed_flags_word(old: Report, new: Report) -> u16
    ensures { result ≡ exported old new }
{
    changed_flags_gained(old, new).map_or(0xffff, |flags| flags.bits())
}
