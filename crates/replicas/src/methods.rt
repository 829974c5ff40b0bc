// What a replica does.
ghost use Rattle.std.specs.Prelude.{◌≡◌, ◌≤◌, true, IfOk, nat_lt};
ghost use Rattle.desks.specs.Run.{said};
ghost use Rattle.ops.specs.Doc.{pick, show_text, show_key};
ghost use Rattle.ops.specs.Layout.{version_cell, low};
ghost use Rattle.ops.specs.Log.{kept};
ghost use Rattle.desks.specs.Entry.{own};
ghost use Rattle.network.specs.Room.{level};
ghost use Rattle.replicas.specs.Replica.{memory_of, run, command_of, Did, Showed, Writes, Read, Opened};

use crate::acts::{self, Asked};
use crate::fault::Fault;
use crate::machine::{Deed, Key, Replica};
use desks::{DESKS, MEMORY_SIZE, MOST_BYTES, Refusal};
use ops::layout::{CAPACITY, LENGTH, VERSION};
use std::alloc::{AllocError, Global};

impl Replica {
    // A replica that isn't open yet.
    fn blank(heap: Global) -> Result<Replica, AllocError>
        ensures { IfOk result (λ x. memory_of x ≡ own.start) }
    {
        Ok(Replica {
            memory: vec![in heap; 0; MEMORY_SIZE]?,
        })
    }

    // A replica of a desk, which knows nothing yet.
    pub fn opened(heap: Global, desk: u64) -> Result<Replica, Fault>
        ensures { Opened desk result }
    {
        let mut replica = Replica::blank(heap)?;
        acts::tell(replica.memory.as_mut_slice(), Asked::Open { desk })?;
        Ok(replica)
    }

    // Does a deed, or refuses it.
    pub fn does(&mut self, deed: Deed) -> Result<(), Refusal>
        ensures { Did (run self.old (said (command_of deed))) result (memory_of self.new) }
    {
        acts::tell(self.memory.as_mut_slice(), Asked::Do { deed })
    }

    // Shows the text: refused, since no machine knows it yet.
    pub fn text(&mut self) -> Result<(), Refusal>
        ensures { Did (run self.old (said show_text)) result (memory_of self.new) }
    {
        acts::tell(self.memory.as_mut_slice(), Asked::ShowText)
    }

    // Shows a key.
    pub fn key(&mut self, key: u64) -> Result<Key, Refusal>
        ensures { Showed (run self.old (said (show_key key))) result (memory_of self.new) }
    {
        let word = acts::show_key(self.memory.as_mut_slice(), key)?.map(u64::from);
        let tally = acts::go_on(self.memory.as_mut_slice())?.unwrap_or(0);
        Ok(Key { word, tally })
    }

    // Makes a letter for another desk: so many bytes, in a lent row of 4,096 or more. A shorter one is refused, and nothing is done.
    pub fn letter(&mut self, to: u64, out: &mut [u8]) -> Result<usize, Refusal>
        ensures { Writes (memory_of self.old) to result (memory_of self.new) out.old out.new }
    {
        acts::send(self.memory.as_mut_slice(), to, out)
    }

    // Reads a letter from another desk.
    pub fn hear(&mut self, from: u64, letter: &[u8]) -> Result<(), Refusal>
        ensures { Read (memory_of self.old) from letter.now result (memory_of self.new) }
    {
        if letter.len() > MOST_BYTES {
            return Err(Refusal::Malformed);
        }
        acts::tell(self.memory.as_mut_slice(), Asked::Read { from, letter })
    }

    // How many operations it knows.
    pub fn known(&self) -> usize
        ensures value { result ≡ kept (memory_of self.now) }
        ensures bound { result ≤ 8192 }
    {
        self.memory[LENGTH].min(CAPACITY as u64) as usize
    }

    // The highest number of the operations of a desk that it knows; none is known of a desk that there isn't.
    pub fn version(&self, desk: u64) -> u64
        ensures { result ≡ pick (nat_lt desk 32) (low (memory_of self.now) (version_cell desk)) 0 }
    {
        if desk >= DESKS {
            return 0;
        }
        self.memory[VERSION + desk as usize] % 4_294_967_296
    }

    // Whether it knows the same operations as another: of each desk those up to the same number.
    pub fn is_level_with(&self, other: &Replica) -> bool
        ensures { result ≡ level (memory_of self.now) (memory_of other.now) }
    {
        (0..DESKS).all(|desk| self.version(desk) == other.version(desk))
    }
}
