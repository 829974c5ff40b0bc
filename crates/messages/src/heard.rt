// What each peer is known to know: the version vectors that its letters told of, in the memory.
ghost use Rattle.std.specs.Prelude.{◌≡◌, ◌<◌, max, nat_lt, slice_set};
ghost use Rattle.ops.specs.Layout.{memory_size, heard_cell};
ghost use Rattle.ops.specs.Values.{desk_of, held, Holds};
ghost use Rattle.messages.specs.Letter.{heard};

use ops::layout::{DESKS, HEARD};
use ops::{Desk, Memory, Op};

fn heard_cell(peer: Desk, desk: Desk) -> usize
    ensures value { result ≡ heard_cell (desk_of peer) (desk_of desk) }
    ensures bound { result < memory_size }
{
    HEARD + peer.number as usize * DESKS + desk.number as usize
}

// The highest number of a desk's operations that a peer is known to know.
fn heard_from(memory: &Memory, peer: Desk, desk: Desk) -> u32
    ensures { result ≡ heard (held memory.now) (desk_of peer) (desk_of desk) }
{
    memory.low_half(heard_cell(peer, desk))
}

// Whether an operation is above what a peer is known to know.
pub fn is_news(memory: &Memory, peer: Desk, op: Op) -> bool
    ensures { result ≡ nat_lt (heard (held memory.now) (desk_of peer) (desk_of op.id.desk)) op.id.n }
{
    heard_from(memory, peer, op.id.desk) < op.id.n
}

// Notes what a peer told of a desk's operations. An entry only rises: an older letter may come late.
pub fn note(memory: &mut Memory, peer: Desk, desk: Desk, told: u32)
    ensures { Holds memory.old memory.new (slice_set (held memory.old) (heard_cell (desk_of peer) (desk_of desk)) (max (heard (held memory.old) (desk_of peer) (desk_of desk)) told)) }
{
    let known = heard_from(memory, peer, desk);
    memory.cells[heard_cell(peer, desk)] = u64::from(known.max(told));
}
