// A log gone through from its beginning.
ghost use Rattle.std.specs.Prelude.{◌≡◌};
ghost use Rattle.ops.specs.Log.{ops_of};
ghost use Rattle.ops.specs.Values.{held};

use crate::types::{Memory, Op};

// The operations of a log from a place on.
#[derive(Clone, Copy)]
pub struct Operations<'m, 'a> {
    memory: &'m Memory<'a>,
    place: usize,
}

impl Iterator for Operations<'_, '_> {
    ghost use Rattle.std.specs.Iterator.{YieldsFirstBy, item_count};
    ghost use Rattle.ops.specs.Values.{op_of};
    ghost use Rattle.ops.specs.Operations.{ops_left};

    type Item = Op;

    ghost next_gives = { YieldsFirstBy op_of ops_left };

    ghost remaining = { item_count ops_left };

    fn next(&mut self) -> Option<Op> {
        let op = self.memory.operation(self.place)?;
        self.place += 1;
        Some(op)
    }
}

impl<'a> Memory<'a> {
    ghost use Rattle.ops.specs.Operations.{ops_left};

    // All operations of the log, in its order.
    pub fn operations(&self) -> Operations<'_, 'a>
        ensures { ops_left result ≡ ops_of (held self.now) }
    {
        Operations {
            memory: self,
            place: 0,
        }
    }
}
