// An operation as a record of 16 bytes, and back.
ghost use Rattle.std.specs.Prelude.{◌≡◌, ◌+◌, ◌≤◌, length};
ghost use Rattle.std.proofs.Math.Seq.{paste};
ghost use Rattle.ops.specs.Values.{desk_of, op_of, tag_of};
ghost use Rattle.messages.specs.Records.{record_of, record_bytes, op_from, is_record};

use crate::bytes::{number_at, put_number};
use crate::layout::{DESKS, RECORD};
use ops::{Desk, Kind, Op, OpId, Tag};

// Where a record has what follows its number: the operation's desk, its tag, the desk of the operation that it is about, and two values.
const DESK: usize = 4;

const TAG: usize = 5;

const ABOUT: usize = 6;

const FIRST: usize = 8;

const SECOND: usize = 12;

// The bytes of a record's parts.
fn record_of(id: OpId, tag: Tag, about: u8, x: u32, y: u32) -> [u8; RECORD]
    ensures { result ≡ record_of id.n (desk_of id.desk) (tag_of tag) about x y }
{
    let mut record = [0; RECORD];
    put_number(&mut record, 0, id.n);
    record[DESK] = id.desk.number;
    record[TAG] = tag as u8;
    record[ABOUT] = about;
    put_number(&mut record, FIRST, x);
    put_number(&mut record, SECOND, y);
    record
}

// An operation's record.
fn record_bytes(op: Op) -> [u8; RECORD]
    ensures { result ≡ record_bytes (op_of op) }
{
    match op.kind {
        Kind::Insert { after, sign } => record_of(
            op.id,
            Tag::Insert,
            after.desk.number,
            after.n,
            sign,
        ),
        Kind::Delete { target } => record_of(op.id, Tag::Delete, target.desk.number, target.n, 0),
        Kind::Write { key, word } => record_of(op.id, Tag::Write, 0, key, word),
        Kind::Add { key, amount } => record_of(op.id, Tag::Add, 0, key, amount),
    }
}

// Writes an operation's record at a place.
pub fn put_record(out: &mut [u8], at: usize, op: Op)
    requires { at + 16 ≤ length out.old }
    ensures { out.new ≡ paste out.old at (record_bytes (op_of op)) 16 }
{
    let bytes = record_bytes(op);
    out[at..at + RECORD].copy_from_slice(&bytes);
}

// The operation at a place of a letter.
pub fn record_at(letter: &[u8], at: usize) -> Op
    requires { at + 16 ≤ length letter.now }
    ensures { op_of result ≡ op_from letter.now at }
{
    let id = OpId {
        n: number_at(letter, at),
        desk: Desk {
            number: letter[at + DESK] % DESKS,
        },
    };
    let x = number_at(letter, at + FIRST);
    let y = number_at(letter, at + SECOND);
    let target = OpId {
        n: x,
        desk: Desk {
            number: letter[at + ABOUT] % DESKS,
        },
    };
    let kind = match Tag::try_from(u32::from(letter[at + TAG])).unwrap_or(Tag::Add) {
        Tag::Insert => Kind::Insert {
            after: target,
            sign: y,
        },
        Tag::Delete => Kind::Delete { target },
        Tag::Write => Kind::Write { key: x, word: y },
        Tag::Add => Kind::Add { key: x, amount: y },
    };
    Op { id, kind }
}

// Whether there is a well-formed record at a place of a letter.
pub fn is_record(letter: &[u8], at: usize) -> bool
    requires { at + 16 ≤ length letter.now }
    ensures { result ≡ is_record letter.now at }
{
    letter[at + DESK] < DESKS
        && Tag::try_from(u32::from(letter[at + TAG])).is_ok()
        && letter[at + ABOUT] < DESKS
}
