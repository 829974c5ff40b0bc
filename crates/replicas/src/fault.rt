// Why there is no replica.
ghost use Rattle.std.specs.Prelude.{◌≡◌};
ghost use Rattle.replicas.specs.declared.fault.Fault.TheVariants.{NoMemory, Refused};

use desks::Refusal;
use std::alloc::AllocError;

#[derive(Clone, Copy, PartialEq, Eq, Debug)]
pub enum Fault {
    NoMemory,
    // The machine's refusal: there is no desk of that number.
    Refused(Refusal),
}

impl From<AllocError> for Fault {
    ghost from_gives = { λ _ fault. fault ≡ NoMemory };

    fn from(_error: AllocError) -> Fault {
        Fault::NoMemory
    }
}

impl From<Refusal> for Fault {
    ghost from_gives = { λ refusal fault. fault ≡ Refused refusal };

    fn from(refusal: Refusal) -> Fault {
        Fault::Refused(refusal)
    }
}
