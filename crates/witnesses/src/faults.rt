// Why a day does not go on.
ghost use Rattle.std.specs.Prelude.{◌≡◌, ◌↔◌, IfSome, IsNone};

use crate::sights::Sight;
use std::alloc::{AllocError, AllocFailed};

// At a desk something else was seen than was expected.
#[derive(Clone, Copy, PartialEq, Eq, Debug)]
pub struct Mismatch {
    pub desk: u64,
    pub expected: Sight,
    pub shown: Sight,
}

#[derive(Clone, Copy, PartialEq, Eq, Debug)]
pub enum Stop {
    NoMemory,
    // There is no witness of that number, or no letter.
    Missing,
    Differs(Mismatch),
}

impl From<AllocError> for Stop {
    fn from(_e: AllocError) -> Stop {
        Stop::NoMemory
    }
}

impl<T: Drop> From<AllocFailed<T>> for Stop {
    fn from(_e: AllocFailed<T>) -> Stop {
        Stop::NoMemory
    }
}

impl Mismatch {
    // What differs where something is seen, if anything does.
    pub fn between(desk: u64, expected: Sight, shown: Sight) -> Option<Mismatch>
        ensures none { IsNone result ↔ (expected ≡ shown) }
        ensures some { IfSome result (λ found. found ≡ record { desk = desk; expected = expected; shown = shown }) }
    {
        (expected != shown).then_some(Mismatch {
            desk,
            expected,
            shown,
        })
    }
}

// Goes on where what is seen is what was expected.
pub fn expect(desk: u64, expected: Sight, shown: Sight) -> Result<(), Stop> {
    match Mismatch::between(desk, expected, shown) {
        Some(mismatch) => Err(Stop::Differs(mismatch)),
        None => Ok(()),
    }
}
