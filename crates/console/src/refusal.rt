use std::fmt;
use wire::Refused;

// A refusal with its number, layer and place.
#[derive(Clone, Copy)]
pub struct RefusalNumbers<F> {
    pub fault: F,
}

impl<F: Refused> fmt::Display for RefusalNumbers<F> {
    fn fmt<W: fmt::Write>(&self, f: &mut fmt::Formatter<W>) -> fmt::Result {
        let fault = self.fault;
        let number = fault.number();
        let layer = fault.layer();
        let place = fault.place();
        write!(f, "refused {number} layer {layer} place {place}")
    }
}

// The same, and in words.
#[derive(Clone, Copy)]
pub struct RefusalText<F> {
    pub fault: F,
}

impl<F: Refused + fmt::Display> fmt::Display for RefusalText<F> {
    fn fmt<W: fmt::Write>(&self, f: &mut fmt::Formatter<W>) -> fmt::Result {
        let fault = self.fault;
        let numbers = RefusalNumbers { fault };
        write!(f, "{numbers}: {fault}")
    }
}
