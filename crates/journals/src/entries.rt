// Entries: what the machine was told, as bytes and back.
ghost use Rattle.std.specs.Prelude.{◌≡◌, ◌≤◌, length, IfOk};
ghost use Rattle.journals.specs.Book.{told, told_of, unsealed_of, Writes, reading, length_of, next_of};
ghost use Rattle.journals.specs.declared.entries.Fault.TheVariants.{NoMemory};

use crate::numbers::{is_sealed, u16_at, u64_at};
use checksums::crc32;
use std::alloc::{AllocError, AllocFailed, Global};

// Where an entry has the length of its body, the complement of that, and the body; and how long the CRC behind it is.
const LENGTH_AT: usize = 0;

const COMPLEMENT_AT: usize = 2;

const BODY_AT: usize = 4;

const CRC: usize = 4;

// Where a body has its two numbers, and its letter.
const A_AT: usize = 1;

const B_AT: usize = 9;

const LETTER_AT: usize = 17;

const LONGEST_LETTER: usize = 4096;

const LONGEST_BODY: usize = LETTER_AT + LONGEST_LETTER;

// The arguments of a machine's step.
#[derive(Clone, Copy, PartialEq, Eq, Debug)]
pub struct Entry<'a> {
    pub kind: u8,
    pub a: u64,
    pub b: u64,
    pub letter: &'a [u8],
}

// Why an entry isn't written.
#[derive(Clone, Copy, PartialEq, Eq, Debug)]
pub enum Fault {
    TooLong,
    NoMemory,
}

impl From<AllocError> for Fault {
    ghost from_gives = { λ _ fault. fault ≡ NoMemory };

    fn from(_error: AllocError) -> Fault {
        Fault::NoMemory
    }
}

impl<T: Drop> From<AllocFailed<T>> for Fault {
    ghost from_gives = { λ _ fault. fault ≡ NoMemory };

    fn from(_refused: AllocFailed<T>) -> Fault {
        Fault::NoMemory
    }
}

// An entry that was read, and how many bytes it takes.
#[derive(Clone, Copy, PartialEq, Eq, Debug)]
pub struct Next<'a> {
    pub entry: Entry<'a>,
    pub size: usize,
}

// Why no entry is read where there are bytes left.
#[derive(Clone, Copy, PartialEq, Eq, Debug)]
pub enum Flaw {
    // The bytes end before the entry does.
    Torn,
    Damaged,
}

// An entry up to its checksum.
fn unsealed(heap: Global, entry: Entry) -> Result<Vec<u8>, AllocError>
    requires { length entry.letter.now ≤ 4096 }
    ensures { IfOk result (λ bytes. bytes.items ≡ unsealed_of (told entry.entry)) }
{
    let n = LETTER_AT + entry.letter.len();
    let mut bytes = Vec::with_capacity(heap, BODY_AT + n + CRC)?;
    let n = n as u16;
    bytes.extend_from_slice(&n.to_le_bytes())?;
    bytes.extend_from_slice(&(u16::MAX - n).to_le_bytes())?;
    bytes.extend_from_slice(&[entry.kind])?;
    bytes.extend_from_slice(&entry.a.to_le_bytes())?;
    bytes.extend_from_slice(&entry.b.to_le_bytes())?;
    bytes.extend_from_slice(entry.letter)?;
    Ok(bytes)
}

// An entry's bytes, to be put behind those before it.
pub fn write_entry(heap: Global, entry: Entry) -> Result<Vec<u8>, Fault>
    ensures { Writes (told entry.entry) result }
{
    if entry.letter.len() > LONGEST_LETTER {
        return Err(Fault::TooLong);
    }
    let mut bytes = unsealed(heap, entry)?;
    let crc = crc32(&bytes).to_le_bytes();
    bytes.extend_from_slice(&crc)?;
    Ok(bytes)
}

// The length of the body, if both lengths say so and there are bodies of that length.
#[tactic(auto, unfolding(crate::specs::Book::length_of))]
fn body_length(bytes: &[u8]) -> Option<usize>
    requires { 4 ≤ length bytes.now }
    ensures { result ≡ length_of bytes.now }
{
    let n = u16_at(bytes, LENGTH_AT);
    let is_true = u16_at(bytes, COMPLEMENT_AT) == u16::MAX - n;
    let n = usize::from(n);
    (is_true && (LETTER_AT..=LONGEST_BODY).contains(&n)).then_some(n)
}

// What a body says.
#[tactic(auto, unfolding(crate::specs::Book::told_of))]
fn entry_of(body: &[u8]) -> Entry<'_>
    requires { 17 ≤ length body.now }
    ensures { told result ≡ told_of body.now }
{
    Entry {
        kind: body[0],
        a: u64_at(body, A_AT),
        b: u64_at(body, B_AT),
        letter: &body[LETTER_AT..],
    }
}

// The next entry of a book, if there is one, of the bytes that are left.
#[tactic(auto, using(crate::proofs::Readings::length_bounds), unfolding(crate::specs::Book::next_of, crate::specs::Book::of_length))]
pub fn next_entry(bytes: &[u8]) -> Result<Option<Next<'_>>, Flaw>
    ensures { reading result ≡ next_of bytes.now }
{
    if bytes.is_empty() {
        return Ok(None);
    }
    if bytes.len() < BODY_AT {
        return Err(Flaw::Torn);
    }
    let n = body_length(bytes).ok_or(Flaw::Damaged)?;
    let crc_at = BODY_AT + n;
    if bytes.len() < crc_at + CRC {
        return Err(Flaw::Torn);
    }
    if !is_sealed(bytes, crc_at) {
        return Err(Flaw::Damaged);
    }
    Ok(Some(Next {
        entry: entry_of(&bytes[BODY_AT..crc_at]),
        size: crc_at + CRC,
    }))
}
