ghost use Rattle.std.specs.Prelude.{◌≡◌};
ghost use Rattle.std.proofs.lemmas.Map.Lookups.{exact_unsigned};
ghost use Rattle.register.specs.Functions.{function_number, function_read};

use health::Health;
use table::Numbered;
use thiserror::Error;

// The PCI function that a controller is.
#[derive(Clone, Copy, Debug, PartialEq, Eq)]
pub enum FunctionType {
    Pci = 0,
    SriovPhysical = 1,
    SriovVirtual = 2,
}

// A number that is no function's.
#[derive(Clone, Copy, Debug, PartialEq, Eq, Error)]
#[error("no function type has number {0}")]
pub struct UnknownFunctionType(pub u8);

// The number of a function.
impl From<FunctionType> for u8 {
    ghost from_gives = { λ f n. n ≡ function_number f };

    fn from(function: FunctionType) -> u8 {
        function as u8
    }
}

// The function of this number, where there is one.
impl TryFrom<u8> for FunctionType {
    type Error = UnknownFunctionType;

    ghost try_from_gives = { λ n r. r ≡ function_read n };

    fn try_from(number: u8) -> Result<Self, UnknownFunctionType> {
        match number {
            0 => Ok(FunctionType::Pci),
            1 => Ok(FunctionType::SriovPhysical),
            2 => Ok(FunctionType::SriovVirtual),
            _ => Err(UnknownFunctionType(number)),
        }
    }
}

// A controller of the subsystem, as a register holds it.
#[derive(Clone, Copy)]
pub struct Controller {
    pub id: u16,
    pub function: FunctionType,
    pub health: Health,
}

impl Numbered for Controller {
    type Number = u16;

    ghost key = { λ c. c.id };

    fn number(self) -> u16 {
        self.id
    }

    ghost equals_are_the_same = { exact_unsigned };
}
