ghost use Rattle.std.specs.Prelude.{◌≡◌, max, bit_or};
ghost use Rattle.health.specs.Values.{health_of};
ghost use Rattle.model.specs.Requests.{over};

use health::Health;
use register::Register;

// Over all controllers: the union of their critical warnings, the warmest reading (0 for none), and the highest percentage used.
#[derive(Clone, Copy, Default)]
pub(crate) struct Totals {
    pub(crate) critical_warning: u8,
    pub(crate) temperature: u16,
    pub(crate) percentage_used: u8,
}

impl Totals {
    // With one controller more.
    fn with(self, health: Health) -> Totals
        ensures joins_critical_warnings { result.critical_warning ≡ bit_or (health_of health).critical_warning self.critical_warning }
        ensures takes_the_warmer { result.temperature ≡ max (health_of health).temperature self.temperature }
        ensures takes_the_more_used { result.percentage_used ≡ max (health_of health).percentage_used self.percentage_used }
    {
        Totals {
            critical_warning: health.critical_warning | self.critical_warning,
            temperature: health.temperature.max(self.temperature),
            percentage_used: health.percentage_used.max(self.percentage_used),
        }
    }
}

pub(crate) fn total_health<R: Register>(register: &R) -> Totals
    ensures joins_all_critical_warnings { result.critical_warning ≡ over bit_or (λ h. h.critical_warning) (R.Register.meaning register.now).controllers }
    ensures takes_the_warmest { result.temperature ≡ over max (λ h. h.temperature) (R.Register.meaning register.now).controllers }
    ensures takes_the_most_used { result.percentage_used ≡ over max (λ h. h.percentage_used) (R.Register.meaning register.now).controllers }
{
    let mut totals = Totals::default();
    // No filter_map and fold over the places: get promises a controller's values and not the record that it gives, so that nothing is
    // proved of the records in such a chain.
    for place in (0..register.len()).rev() {
        if let Some(controller) = register.get(place) {
            totals = totals.with(controller.health);
        }
    }
    totals
}
