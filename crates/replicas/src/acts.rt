// What the machine does over the cells that a replica owns.
ghost use Rattle.std.specs.Prelude.{◌≡◌, ◌≤◌, length, nat_le};
ghost use Rattle.desks.specs.Run.{said, letter_to, next};
ghost use Rattle.desks.specs.Acts.{Acts, quiet, word, rest};
ghost use Rattle.desks.specs.Machine.{step_own};
ghost use Rattle.ops.specs.Doc.{show_key};
ghost use Rattle.ops.specs.Layout.{memory_size};
ghost use Rattle.ops.specs.Values.{held};
ghost use Rattle.replicas.specs.Replica.{command_of};
ghost use Rattle.replicas.specs.Steps.{event_of, Tells, PostsIf};

use crate::machine::Deed;
use desks::{Refusal, acts};
use ops::Memory;

// What a machine is asked that it does at once, with nothing to show.
#[derive(Clone, Copy)]
pub enum Asked<'a> {
    Open { desk: u64 },
    Do { deed: Deed },
    ShowText,
    Read { from: u64, letter: &'a [u8] },
}

// A deed.
fn does(memory: &mut Memory, deed: Deed) -> Result<(), Refusal>
    ensures { Acts (step_own (held memory.old) (said (command_of deed))) (quiet result) memory.old memory.new }
{
    match deed {
        Deed::Insert { .. } => Err(acts::refusal_of_unknown(memory)),
        Deed::Strike { .. } => Err(acts::refusal_of_unknown(memory)),
        Deed::Write { key, word } => acts::write(memory, key, word),
        Deed::Add { key, amount } => acts::add(memory, key, amount),
    }
}

// Asks it of the machine in these cells. They are a slice and no `Memory`, since what comes back to the vector that lends them is known of a slice alone.
pub fn tell(cells: &mut [u64], asked: Asked) -> Result<(), Refusal>
    requires { memory_size ≤ length cells.old }
    ensures { Tells (step_own cells.old (event_of asked.entry)) (quiet result) cells.new }
{
    let mut memory = Memory { cells };
    match asked {
        Asked::Open { desk } => acts::open(&mut memory, desk),
        Asked::Do { deed } => does(&mut memory, deed),
        Asked::ShowText => Err(acts::refusal_of_unknown(&memory)),
        Asked::Read { from, letter } => acts::read(&mut memory, from, letter),
    }
}

// The word under a key; its tally comes next.
pub fn show_key(cells: &mut [u64], key: u64) -> Result<Option<u32>, Refusal>
    requires { memory_size ≤ length cells.old }
    ensures { Tells (step_own cells.old (said (show_key key))) (word result) cells.new }
{
    acts::show_key(&mut Memory { cells }, key)
}

// The number that is shown when it goes on.
pub fn go_on(cells: &mut [u64]) -> Result<Option<u64>, Refusal>
    requires { memory_size ≤ length cells.old }
    ensures { Tells (step_own cells.old next) (rest result) cells.new }
{
    acts::go_on(&mut Memory { cells })
}

// A letter, in lent bytes.
pub fn send(cells: &mut [u64], to: u64, out: &mut [u8]) -> Result<usize, Refusal>
    requires { memory_size ≤ length cells.old }
    ensures { PostsIf (nat_le 4096 (length out.old)) (step_own cells.old (letter_to to)) result cells.old cells.new out.old out.new }
{
    acts::send(&mut Memory { cells }, to, out)
}
