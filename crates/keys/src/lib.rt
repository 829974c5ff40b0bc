// Registers and counters under keys.
//
// Under each key stands a word, of which the newest by operation id counts (a last-writer-wins register), and a tally, the sum of what was added
// (an operation-based counter). Both are functions of the log as a set of operations, so the order in which they were heard of does not matter.
#![tactic(auto)]

ghost use Rattle.std.specs.Prelude.{◌≡◌, ◌<◌};
ghost use Rattle.std.specs.Option.{option_to_list};
ghost use Rattle.ops.specs.Doc.{count_of, word_at, count_at};
ghost use Rattle.ops.specs.Log.{ops_of};
ghost use Rattle.ops.specs.Values.{kind_of, op_of, held};
ghost use Rattle.keys.specs.Newest.{found_op, newer_under};

use crate::found::Found;
use ops::{Kind, Memory, Op};

pub mod found;

// What a kind of operation adds to a key's tally.
#[tactic(auto, unfolding(ops::specs::Doc::count_of))]
fn added_to(kind: Kind, key: u32) -> u32
    ensures value { result ≡ count_of key (kind_of kind) }
    ensures small { result < 4294967296 }
{
    match kind {
        Kind::Add { key: at, amount } if at == key => amount,
        _ => 0,
    }
}

// The sum of all that was added to a key.
pub fn tally(memory: &Memory, key: u32) -> u64
    ensures { result ≡ count_at (ops_of (held memory.now)) key }
{
    memory
        .operations()
        .map(|op| u64::from(added_to(op.kind, key)))
        .sum()
}

// The newest word so far, after one more operation.
fn newer_word(best: Option<Found>, op: Op, key: u32) -> Option<Found>
    ensures { found_op key result ≡ newer_under key (found_op key best) (op_of op) }
{
    let Kind::Write { key: at, word } = op.kind else {
        return best;
    };
    if at != key {
        return best;
    }
    best.filter(|found| found.id.is_newer_than(op.id))
        .or(Some(Found { id: op.id, word }))
}

// The newest word under a key, if any was written.
pub fn word_under(memory: &Memory, key: u32) -> Option<u32>
    ensures { option_to_list result ≡ word_at (ops_of (held memory.now)) key }
{
    memory
        .operations()
        .fold(None, |best, op| newer_word(best, op, key))
        .map(|found| found.word)
}
