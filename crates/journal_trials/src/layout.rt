// The bytes of an entry, computed by another program; and the longest letter.
use journals::{Entry, Fault, next_entry, write_entry};
use std::alloc::Global;
use std::test::Fail;

const LONGEST_LETTER: usize = 4096;

const LONGEST_ENTRY: usize = 4121;

#[test]
fn an_entry_byte_by_byte(rt: HostRuntime) -> Result<(), Fail> {
    let entry = Entry {
        kind: 3,
        a: 1,
        b: 0x0102_0304_0506_0708,
        letter: b"hi",
    };
    let bytes = write_entry(rt.alloc(), entry)?;
    let expected: &[u8] =
        b"\x13\x00\xec\xff\x03\x01\x00\x00\x00\x00\x00\x00\x00\x08\x07\x06\x05\x04\x03\x02\x01hi\x3b\x91\x5f\xfa";
    assert!(rt; bytes.as_slice() == expected);
    Ok(())
}

// How many bytes an entry with a letter of so many takes, if it is read again; and why it isn't written.
fn size_with(heap: Global, letter_size: usize) -> Result<Option<usize>, Fault> {
    let letter = vec![in heap; 0xff; letter_size]?;
    let entry = Entry {
        kind: 8,
        a: 0,
        b: 0,
        letter: &letter,
    };
    let bytes = write_entry(heap, entry)?;
    match next_entry(&bytes) {
        Ok(Some(next)) => Ok(Some(next.size)),
        _ => Ok(None),
    }
}

#[test]
fn the_longest_letter(rt: HostRuntime) {
    let heap = rt.alloc();
    assert_eq!(rt; size_with(heap, LONGEST_LETTER), Ok(Some(LONGEST_ENTRY)));
    assert_eq!(rt; size_with(heap, LONGEST_LETTER + 1), Err(Fault::TooLong));
}
