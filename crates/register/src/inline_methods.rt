ghost use Rattle.std.specs.Prelude.{◌≡◌, [], take};
ghost use Rattle.register.specs.Inline.{inline_of};

use crate::controller::{Controller, FunctionType};
use crate::controllers::enroll_in;
use crate::inline::InlineRegister;
use crate::register::Register;
use crate::register_fault::RegisterFault;
use health::Health;
use table::{first_place, record_at};

impl InlineRegister {
    // A register with no controller.
    pub fn new() -> Self
        ensures is_empty { inline_of result ≡ record { capacity = 4; controllers = [] } }
    {
        // what stands in a slot that is not in use; no `Default` is derived over the ghost field of `Health`
        let vacant = Controller {
            id: 0,
            function: FunctionType::Pci,
            health: Health {
                levels: 0,
                temperature: 0,
                percentage_used: 0,
                available_spare: 0,
                critical_warning: 0,
            },
        };
        InlineRegister {
            count: 0,
            slots: [vacant; 4],
        }
    }

    // The controllers in their slots.
    fn in_use(&self) -> &[Controller]
        ensures { result.now ≡ take self.now.count self.now.slots }
    {
        &self.slots[..self.count]
    }
}

impl Register for InlineRegister {
    ghost meaning = { inline_of };

    ghost holds_lawful_controllers = { λ r. r.lawful_controllers };

    fn len(&self) -> usize {
        self.in_use().len()
    }

    fn get(&self, place: usize) -> Option<Controller> {
        record_at(self.in_use(), place)
    }

    #[tactic(auto, using(crate::proofs::Lawful::first_of_values))]
    fn first_place(&self, id: u16) -> usize {
        first_place(self.in_use(), id)
    }

    fn enroll(&mut self, controller: Controller) -> Result<(), RegisterFault> {
        let count = self.count;
        enroll_in(&mut self.slots, count, controller)?;
        self.count = count + 1;
        Ok(())
    }

    #[tactic(auto, using(crate::proofs::Lawful::writes))]
    fn write(&mut self, place: usize, health: Health) {
        if place < self.count {
            self.slots[place].health = health;
        }
    }
}
