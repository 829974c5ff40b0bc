// Two different desks of a room.
ghost use Rattle.std.specs.Prelude.{◌≡◌, ◌<◌, ◌≢◌};

use desks::{DESKS, Refusal};

#[derive(Clone, Copy)]
pub struct Two {
    pub one: usize,
    pub other: usize,
    ghost near: { one < 32 },
    ghost far: { other < 32 },
    ghost apart: { one ≢ other },
}

impl Two {
    ghost use Rattle.simulator.specs.Two.{AreTwo};

    // The two of these numbers, if they are two.
    pub fn new(one: u64, other: u64) -> Result<Two, Refusal>
        ensures { AreTwo one other result }
    {
        if one >= DESKS || other >= DESKS || one == other {
            return Err(Refusal::Malformed);
        }
        Ok(Two {
            one: one as usize,
            other: other as usize,
        })
    }

    // The same two, the other first.
    pub fn turned(self) -> Two
        ensures { (result.one ≡ self.other) × (result.other ≡ self.one) }
    {
        Two {
            one: self.other,
            other: self.one,
        }
    }
}
