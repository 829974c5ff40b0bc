// Writing and reading whole letters.
ghost use Rattle.std.specs.Prelude.{◌≡◌, ◌+◌, ◌≤◌, [], ◌∷◌, ◌++◌, length, take, is_ok};
ghost use Rattle.std.proofs.Math.Seq.{paste};
ghost use Rattle.ops.specs.Doc.{pick, flat};
ghost use Rattle.ops.specs.Values.{desk_of, op_of, held, Holds};
ghost use Rattle.messages.specs.Bytes.{four, byte};
ghost use Rattle.checksums.specs.Crc.{crc32_of};
ghost use Rattle.messages.specs.Records.{record_bytes, records};
ghost use Rattle.messages.specs.Letter.{news, versions, vector_bytes, letter_for, filled, Wrote, is_letter, noted, deliver, delivered, received};

use crate::bytes::put_number;
use crate::heard::{is_news, note};
use crate::layout::{
    ADDRESSEE, COUNT, DESKS, EMPTY, FORMAT, HEAD, LONGEST, MOST_RECORDS, NUMBER, RECORD, RECORDS,
    SENDER,
};
use crate::parsed::Letter;
use crate::records::put_record;
use checksums::crc32;
use ops::{Desk, Memory, Op};

// The head, in front of all that is written already.
fn write_head(from: Desk, to: Desk, count: u8, out: &mut [u8; LONGEST])
    ensures { out.new ≡ filled (1 ∷ desk_of from ∷ desk_of to ∷ count ∷ []) out.old }
{
    out[0] = FORMAT;
    out[SENDER] = from.number;
    out[ADDRESSEE] = to.number;
    out[COUNT] = count;
}

// The version vector, behind the head.
fn write_versions(memory: &Memory, out: &mut [u8; LONGEST])
    ensures { out.new ≡ filled (take 4 out.old ++ vector_bytes 32 (versions (held memory.now))) out.old }
{
    for number in 0..DESKS {
        put_number(
            out,
            HEAD + number as usize * NUMBER,
            memory.version(Desk { number }),
        );
    }
}

// The records of what is news to a peer, as many as fit; and how many those are.
fn write_news(memory: &Memory, to: Desk, out: &mut [u8; LONGEST]) -> usize
    ensures few { result ≤ 247 }
    ensures count { result ≡ length (news (held memory.now) (desk_of to)) }
    ensures after { out.new ≡ filled (take 132 out.old ++ flat record_bytes (news (held memory.now) (desk_of to))) out.old }
{
    let news = memory
        .operations()
        .filter(|op| is_news(memory, to, *op))
        .take(MOST_RECORDS);
    let mut count = 0;
    for op in news {
        put_record(out, RECORDS + count * RECORD, op);
        count += 1;
    }
    count
}

// The CRC of the first `n` bytes, behind them.
fn seal(out: &mut [u8; LONGEST], n: usize)
    requires { n + 4 ≤ 4096 }
    ensures { out.new ≡ paste out.old n (four (crc32_of (take n out.old))) 4 }
{
    let crc = crc32(&out[..n]);
    put_number(out, n, crc);
}

// A letter for a peer.
pub fn write_letter(memory: &Memory, from: Desk, to: Desk, out: &mut [u8]) -> Option<usize>
    ensures { Wrote (letter_for (held memory.now) (desk_of from) (desk_of to)) result out.old out.new }
{
    let out = out.first_chunk_mut::<LONGEST>()?;
    write_versions(memory, out);
    let count = write_news(memory, to, out);
    // the head says how many records there are
    write_head(from, to, count as u8, out);
    let n = RECORDS + count * RECORD;
    seal(out, n);
    Some(n + NUMBER)
}

// Bytes that are no letter: of another format, of other desks, or damaged.
#[derive(Clone, Copy, PartialEq, Eq, Debug)]
pub struct NotALetter;

// Notes what a letter's sender knows.
fn note_versions(memory: &mut Memory, from: Desk, letter: &Letter)
    ensures { Holds memory.old memory.new (noted 32 (desk_of from) letter.now.bytes.now (held memory.old)) }
{
    for number in 0..DESKS {
        let desk = Desk { number };
        note(memory, from, desk, letter.version(desk));
    }
}

// Takes an operation if it is above all that is known of its desk.
fn deliver(memory: &mut Memory, op: Op)
    ensures { Holds memory.old memory.new (deliver (held memory.old) (op_of op)) }
{
    if memory.version(op.id.desk) < op.id.n {
        // a full log stays as it is
        let _ = memory.append(op);
    }
}

// Takes what is new of a letter's records, in their order.
fn deliver_records(memory: &mut Memory, letter: &Letter)
    ensures { Holds memory.old memory.new (delivered (held memory.old) (records (byte letter.now.bytes.now 3) letter.now.bytes.now)) }
{
    for op in letter.records() {
        deliver(memory, op);
    }
}

// Takes what is new in a letter; one that is none, damaged, or of other desks is refused, and nothing is changed.
pub fn read_letter(
    memory: &mut Memory,
    from: Desk,
    to: Desk,
    letter: &[u8],
) -> Result<(), NotALetter>
    ensures value { is_ok result ≡ is_letter (desk_of from) (desk_of to) letter.now }
    ensures after { Holds memory.old memory.new (pick (is_ok result) (received (desk_of from) letter.now (held memory.old)) (held memory.old)) }
{
    let letter = Letter::parse(letter, from, to).ok_or(NotALetter)?;
    note_versions(memory, from, &letter);
    deliver_records(memory, &letter);
    Ok(())
}
