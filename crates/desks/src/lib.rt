// The desk as a machine.
//
// A desk is told something and does one act: one step over its lent memory, which never grows. The step is a definition (specs/Machine.antt), total on
// every memory of the right length, and `step` does exactly that. All that is promised of desks and letters is proved of the definition.
#![tactic(auto)]

ghost use Rattle.std.specs.Prelude.{◌≡◌, ◌+◌, ◌*◌, ◌<◌, length};
ghost use Rattle.ops.specs.Doc.{id_before};
ghost use Rattle.desks.specs.Calls.{sizes_fit};
ghost use Rattle.desks.specs.Entry.{NewestSays, are_names, name_at, StepSays, step_fits};

use crate::report::{done, no, sent, shown_rest, shown_word};
use call::Call;
use ops::Memory;

pub mod acts;
mod call;
mod refusal;
mod report;

pub use refusal::Refusal;

// Desks have numbers below this.
pub const DESKS: u64 = ops::layout::DESKS as u64;

// How many cells a desk has.
pub const MEMORY_SIZE: usize = ops::layout::SIZE;

// How many bytes a letter has at most, and how many numbers are shown at most.
pub const MOST_BYTES: usize = 4096;

pub const MOST_SHOWN: usize = 8192;

#[derive(Clone, Copy, PartialEq, Eq, Debug)]
pub enum Reply {
    // The place.
    At(u64),
    None,
    // The number of the refusal.
    Refused(u64),
}

#[derive(Clone, Copy, PartialEq, Eq, Debug)]
pub enum Told {
    // So many numbers; so many bytes.
    Shows(u64),
    Sends(u64),
    Done,
    No(u64),
}

// Whether one id in a row is before another.
fn is_before(names: &[u64], p: usize, i: usize) -> bool
    requires { (p * 2 + 1 < length names.now) × (i * 2 + 1 < length names.now) }
    ensures { result ≡ id_before (name_at names.now p) (name_at names.now i) }
{
    (names[p * 2], names[p * 2 + 1]) < (names[i * 2], names[i * 2 + 1])
}

// The place of the newest of ids in a row, two numbers each; refused with 1 if one is cut short.
pub fn newest(names: &[u64]) -> Reply
    ensures { NewestSays names.now (are_names names.now) result }
{
    if names.len() % 2 != 0 {
        return Reply::Refused(1);
    }
    if names.is_empty() {
        return Reply::None;
    }
    let mut best = 0;
    for i in 1..names.len() / 2 {
        if is_before(names, best, i) {
            best = i;
        }
    }
    Reply::At(best as u64)
}

// Whether what is lent is of the right sizes.
fn fits(memory: &[u64], letter: &[u8], row: &[u64], out: &[u8]) -> bool
    ensures { result ≡ sizes_fit memory.now letter.now row.now out.now }
{
    memory.len() == MEMORY_SIZE
        && letter.len() <= MOST_BYTES
        && row.len() >= MOST_SHOWN
        && out.len() >= MOST_BYTES
}

// One step: the machine is told one thing, and does one act.
pub fn step(
    memory: &mut [u64],
    kind: u64,
    a: u64,
    b: u64,
    letter: &[u8],
    row: &mut [u64],
    out: &mut [u8],
) -> Told
    ensures { StepSays memory.old kind a b letter.now row.old out.old (step_fits memory.old kind letter.now row.old out.old) result memory.new row.new out.new }
{
    if !fits(memory, letter, row, out) {
        return no(Refusal::Unfit);
    }
    let call = match Call::try_from(kind) {
        Ok(call) => call,
        Err(refusal) => return no(refusal),
    };
    let mut memory = Memory { cells: memory };
    match call {
        Call::Open => done(acts::open(&mut memory, a)),
        Call::Write => done(acts::write(&mut memory, a, b)),
        Call::Add => done(acts::add(&mut memory, a, b)),
        Call::ShowKey => shown_word(acts::show_key(&mut memory, a), row),
        Call::Send => sent(acts::send(&mut memory, a, out)),
        Call::Read => done(acts::read(&mut memory, a, letter)),
        Call::GoOn => shown_rest(acts::go_on(&mut memory), row),
        Call::Insert | Call::Strike | Call::ShowText => no(acts::refusal_of_unknown(&memory)),
    }
}
