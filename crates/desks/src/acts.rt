// What a desk does, each act over its lent memory. A check hands on its value or leaves with its refusal, and nothing is changed before the last check
// has passed.
ghost use Rattle.std.specs.Prelude.{◌≡◌, suc, ◌<◌, true, length, ◌≢◌, nat_le, slice_index};
ghost use Rattle.ops.specs.Doc.{pick, id, write_under, add_to, show_key};
ghost use Rattle.ops.specs.Layout.{desk_cell};
ghost use Rattle.ops.specs.Log.{highest_up_to};
ghost use Rattle.ops.specs.Values.{desk_of, id_of, kind_of, held};
ghost use Rattle.desks.specs.Run.{opens, said, letter_to, hears, next};
ghost use Rattle.desks.specs.Machine.{is_open, me, has_room, step_own};
ghost use Rattle.desks.specs.Refusals.{number_of, Passes};
ghost use Rattle.desks.specs.Acts.{Acts, quiet, word, rest, Performs, PostsIf};

use crate::MOST_BYTES;
use crate::refusal::Refusal;
use messages::letter::{read_letter, write_letter};
use ops::layout::{CAPACITY, DESK, KEY, PENDING};
use ops::{Desk, Kind, Memory, Op, OpId};

// How many operations a desk may do.
const MOST_DEEDS: u32 = 256;

// Which desk this is, if it is open.
fn this_desk(memory: &Memory) -> Result<Desk, Refusal>
    ensures { Passes desk_of (0 < slice_index (held memory.now) desk_cell) (me (held memory.now)) Refusal.Closed result }
{
    let number = memory.cells[DESK];
    if number == 0 {
        return Err(Refusal::Closed);
    }
    Ok(Desk {
        number: ((number - 1) % 32) as u8,
    })
}

// Another desk, by its number.
fn peer_of(desk: Desk, number: u64) -> Result<Desk, Refusal>
    ensures { Passes desk_of ((number < 32) × (number ≢ desk_of desk)) number Refusal.Malformed result }
{
    Desk::new(number)
        .filter(|peer| *peer != desk)
        .ok_or(Refusal::Malformed)
}

// A number of 32 bits.
fn narrow(number: u64) -> Result<u32, Refusal>
    ensures { Passes (λ n. n) (number < 4294967296) number Refusal.Malformed result }
{
    u32::try_from(number).map_err(|_| Refusal::Malformed)
}

// A new operation's id, if this desk may do another.
fn new_id(memory: &Memory, desk: Desk) -> Result<OpId, Refusal>
    ensures { Passes id_of (has_room (held memory.now) (desk_of desk) ≡ true) (id (suc (highest_up_to 32 (held memory.now))) (desk_of desk)) Refusal.NoRoom result }
{
    if memory.made(desk) >= MOST_DEEDS {
        return Err(Refusal::NoRoom);
    }
    if memory.length() >= CAPACITY {
        return Err(Refusal::NoRoom);
    }
    let n = memory.highest().checked_add(1).ok_or(Refusal::NoRoom)?;
    Ok(OpId { n, desk })
}

// Tells the machine which desk it is.
pub fn open(memory: &mut Memory, number: u64) -> Result<(), Refusal>
    ensures { Acts (step_own (held memory.old) (opens number)) (quiet result) memory.old memory.new }
{
    let desk = Desk::new(number).ok_or(Refusal::Malformed)?;
    if this_desk(memory).is_ok() {
        return Err(Refusal::Closed);
    }
    memory.cells[PENDING] = 0;
    memory.cells[DESK] = u64::from(desk.number) + 1;
    Ok(())
}

// Why a command about signs is refused.
pub fn refusal_of_unknown(memory: &Memory) -> Refusal
    ensures { number_of result ≡ pick (is_open (held memory.now)) 2 3 }
{
    match this_desk(memory) {
        Ok(_) => Refusal::Unknown,
        Err(refusal) => refusal,
    }
}

// One operation more, under a new id.
fn perform(memory: &mut Memory, desk: Desk, kind: Kind) -> Result<(), Refusal>
    ensures { Performs (desk_of desk) (kind_of kind) result memory.old memory.new }
{
    let id = new_id(memory, desk)?;
    memory.cells[PENDING] = 0;
    memory.append(Op { id, kind }).unwrap();
    Ok(())
}

// Writes a word under a key.
pub fn write(memory: &mut Memory, key: u64, word: u64) -> Result<(), Refusal>
    ensures { Acts (step_own (held memory.old) (said (write_under key word))) (quiet result) memory.old memory.new }
{
    let desk = this_desk(memory)?;
    let key = narrow(key)?;
    let word = narrow(word)?;
    perform(memory, desk, Kind::Write { key, word })
}

// Adds to a key's tally.
pub fn add(memory: &mut Memory, key: u64, amount: u64) -> Result<(), Refusal>
    ensures { Acts (step_own (held memory.old) (said (add_to key amount))) (quiet result) memory.old memory.new }
{
    let desk = this_desk(memory)?;
    let key = narrow(key)?;
    let amount = narrow(amount)?;
    perform(memory, desk, Kind::Add { key, amount })
}

// Shows the word under a key; its tally comes next.
pub fn show_key(memory: &mut Memory, key: u64) -> Result<Option<u32>, Refusal>
    ensures { Acts (step_own (held memory.old) (said (show_key key))) (word result) memory.old memory.new }
{
    this_desk(memory)?;
    let word = keys::word_under(memory, narrow(key)?);
    memory.cells[PENDING] = 1;
    memory.cells[KEY] = key;
    Ok(word)
}

// Shows what is still to be shown: a key's tally, or nothing.
pub fn go_on(memory: &mut Memory) -> Result<Option<u64>, Refusal>
    ensures { Acts (step_own (held memory.old) next) (rest result) memory.old memory.new }
{
    this_desk(memory)?;
    if memory.cells[PENDING] != 1 {
        return Ok(None);
    }
    let key = memory.low_half(KEY);
    let tally = keys::tally(memory, key);
    memory.cells[PENDING] = 0;
    Ok(Some(tally))
}

// Makes a letter for another desk: so many bytes.
pub fn send(memory: &mut Memory, to: u64, out: &mut [u8]) -> Result<usize, Refusal>
    ensures { PostsIf (nat_le 4096 (length out.old)) (step_own (held memory.old) (letter_to to)) result memory.old memory.new out.old out.new }
{
    // This comes before all that the memory decides. Below it a letter is always written.
    if out.len() < MOST_BYTES {
        return Err(Refusal::Unfit);
    }
    let desk = this_desk(memory)?;
    let peer = peer_of(desk, to)?;
    let size = write_letter(memory, desk, peer, out).ok_or(Refusal::Unfit)?;
    memory.cells[PENDING] = 0;
    Ok(size)
}

// Reads a letter from another desk.
pub fn read(memory: &mut Memory, from: u64, letter: &[u8]) -> Result<(), Refusal>
    ensures { Acts (step_own (held memory.old) (hears from letter.now)) (quiet result) memory.old memory.new }
{
    let desk = this_desk(memory)?;
    let peer = peer_of(desk, from)?;
    read_letter(memory, peer, desk, letter)?;
    memory.cells[PENDING] = 0;
    Ok(())
}
