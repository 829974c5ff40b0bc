// What desks, papers and plain desks show, and whether it is the same.
ghost use Rattle.papers.specs.Papers.{deeds_of};
ghost use Rattle.witnesses.specs.Sights.{KeyOf};

use crate::faults::Mismatch;
use crate::sights::Sight;
use papers::Paper;
use plain_desks::PlainDesk;
use simulator::{Command, Item, Room};
use std::alloc::{AllocError, Global};

// The keys that are used, the first and the last that there can be among them.
pub const KEYS: [u64; 4] = [0, 1, 7, 4_294_967_295];

// What a paper says under a key.
pub fn key_on_paper(paper: &Paper, key: u64) -> Sight
    ensures { KeyOf (deeds_of paper.now) key result }
{
    Sight::Key {
        word: paper.word(key),
        tally: paper.tally(key),
    }
}

// What a plain desk says under a key.
pub fn key_on_plain(plain: &PlainDesk, key: u64) -> Sight {
    Sight::Key {
        word: plain.word(key),
        tally: plain.tally(key),
    }
}

// What a desk shows under a key.
pub fn key_shown(heap: Global, room: &mut Room, desk: u64, key: u64) -> Result<Sight, AllocError> {
    let item = Item::At {
        desk,
        command: Command::ShowKey(key),
    };
    Ok(Sight::from(room.play(heap, item)?))
}

// Where a desk shows something else under a key than a paper says.
pub fn compare_key(
    heap: Global,
    room: &mut Room,
    desk: u64,
    paper: &Paper,
    key: u64,
) -> Result<Option<Mismatch>, AllocError> {
    let expected = key_on_paper(paper, key);
    let shown = key_shown(heap, room, desk, key)?;
    Ok(Mismatch::between(desk, expected, shown))
}
