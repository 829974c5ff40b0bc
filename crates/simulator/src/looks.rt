// What can be seen of a room without playing anything.
ghost use Rattle.std.specs.Prelude.{◌≡◌, ◌<◌, length, nat_lt};
ghost use Rattle.std.specs.Option.{SomeIff};
ghost use Rattle.ops.specs.Doc.{pick};
ghost use Rattle.ops.specs.Layout.{low, version_cell};
ghost use Rattle.ops.specs.Log.{kept};
ghost use Rattle.network.specs.Room.{memory_at};
ghost use Rattle.simulator.specs.Play.{view};
ghost use Rattle.simulator.specs.Looks.{Found};

use crate::letter::Letter;
use crate::room::Room;
use desks::DESKS;

impl Room {
    // How many operations a desk knows.
    pub fn known(&self, desk: u64) -> Option<usize>
        ensures { SomeIff result (desk < 32) (kept (memory_at (view self.now) desk)) }
    {
        if desk >= DESKS {
            return None;
        }
        Some(self.desks[desk as usize].known())
    }

    // The highest number of the operations of a desk that another one knows; none is known at, or of, a desk that there isn't.
    pub fn version(&self, desk: u64, of: u64) -> u64
        ensures { result ≡ pick (nat_lt desk 32) (pick (nat_lt of 32) (low (memory_at (view self.now) desk) (version_cell of)) 0) 0 }
    {
        if desk >= DESKS {
            return 0;
        }
        self.desks[desk as usize].version(of)
    }

    // How many letters were made.
    pub fn letters(&self) -> u64
        ensures { result ≡ length (view self.now).notes }
    {
        self.letters.len() as u64
    }

    // A letter, by its number from 0 on.
    pub fn letter(&self, number: u64) -> Option<&Letter>
        ensures { Found (view self.now) number result }
    {
        if number >= self.letters() {
            return None;
        }
        Some(&self.letters[number as usize])
    }
}
