// A book of five entries, cut off at every length, and with single bits flipped in every byte.
use crate::flips::good_flips;
use journals::{Entry, Fault, Flaw, next_entry, write_entry};
use std::alloc::Global;
use std::test::Fail;

const ENTRIES: usize = 5;

// What an entry takes beside its letter.
const FRAME: usize = 25;

const LOWEST_BIT: u8 = 0x01;

const HIGHEST_BIT: u8 = 0x80;

// The entries that the book should have.
fn true_entry(k: usize) -> Entry<'static> {
    let (kind, a, b, letter): (u8, u64, u64, &[u8]) = match k {
        0 => (0, 3, 0, b""),
        1 => (3, 1, u64::MAX, b""),
        2 => (
            8,
            7,
            0,
            b"\x01\x07\x03\x00 a letter, or what might be one \xff\xff",
        ),
        3 => (255, 0x0102_0304_0506_0708, 1 << 63, b"\x13"),
        _ => (8, 7, 0, b"\x11\x00\xee\xff these would be good lengths"),
    };
    Entry { kind, a, b, letter }
}

fn written(heap: Global) -> Result<Vec<u8>, Fault> {
    let mut book = Vec::new(heap);
    for k in 0..ENTRIES {
        let bytes = write_entry(heap, true_entry(k))?;
        book.extend_from_slice(&bytes)?;
    }
    Ok(book)
}

#[derive(Clone, Copy, Debug, PartialEq)]
enum Ending {
    End,
    Flawed(Flaw),
    // An entry that was never written, or too many.
    Wrong,
}

// How many true entries are read, in their order, and how that ends.
fn read(book: &[u8]) -> (usize, Ending) {
    let mut left = book;
    for k in 0..ENTRIES + 1 {
        let next = match next_entry(left) {
            Ok(Some(next)) => next,
            Ok(None) => return (k, Ending::End),
            Err(flaw) => return (k, Ending::Flawed(flaw)),
        };
        let Some(rest) = left.get(next.size..) else {
            return (k, Ending::Wrong);
        };
        if k == ENTRIES || next.entry != true_entry(k) {
            return (k, Ending::Wrong);
        }
        left = rest;
    }
    (ENTRIES, Ending::Wrong)
}

// How reading ends where so many bytes are left of an entry.
fn ending_with(left: usize) -> Ending {
    if left == 0 {
        Ending::End
    } else {
        Ending::Flawed(Flaw::Torn)
    }
}

// How many entries end within the first `n` bytes, and how reading only those bytes ends.
fn whole_within(n: usize) -> (usize, Ending) {
    let mut left = n;
    for k in 0..ENTRIES {
        let size = true_entry(k).letter.len().saturating_add(FRAME);
        if left < size {
            return (k, ending_with(left));
        }
        left -= size;
    }
    (ENTRIES, ending_with(left))
}

// At how many lengths in a row, from 0 on, the cut book gives the whole entries and ends as it should.
fn good_cuts(book: &[u8]) -> usize {
    (0..book.len())
        .take_while(|&n| read(&book[..n]) == whole_within(n))
        .count()
}

// Whether a book with a flipped bit in this byte is damaged, right behind the entries before.
fn is_damaged_at(book: &[u8], byte: usize) -> bool {
    let (entries, _) = whole_within(byte);
    read(book) == (entries, Ending::Flawed(Flaw::Damaged))
}

#[test]
fn a_book_is_read_again(rt: HostRuntime) -> Result<(), Fail> {
    let book = written(rt.alloc())?;
    assert!(rt; read(&book) == (ENTRIES, Ending::End));
    Ok(())
}

#[test]
fn a_cut_book_has_its_first_entries(rt: HostRuntime) -> Result<(), Fail> {
    let book = written(rt.alloc())?;
    assert_eq!(rt; good_cuts(&book), book.len());
    Ok(())
}

#[test]
fn a_flipped_bit_is_damage(rt: HostRuntime) -> Result<(), Fail> {
    let mut book = written(rt.alloc())?;
    let n = book.len();
    assert_eq!(rt; good_flips(&mut book, LOWEST_BIT, is_damaged_at), n);
    assert_eq!(rt; good_flips(&mut book, HIGHEST_BIT, is_damaged_at), n);
    assert!(rt;
        read(&book) == (ENTRIES, Ending::End),
        "and the book is as it was"
    );
    Ok(())
}
