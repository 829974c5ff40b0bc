// Headers: of every desk, cut off, of another version, and damaged.
use crate::flips::good_flips;
use journals::HeaderFault::{self, Damaged, NotABook, OtherVersion};
use journals::{header, read_header};

const DESKS: u8 = 32;

// How many desks in a row have their headers read again.
fn good_desks() -> usize {
    (0..DESKS)
        .take_while(|&desk| read_header(&header(desk)) == Ok(desk))
        .count()
}

// What a header is with bits flipped in this byte of it.
fn flaw(byte: usize, flipped: u8) -> HeaderFault {
    match byte {
        0..=3 => NotABook,
        4 => OtherVersion(flipped),
        _ => Damaged,
    }
}

// Whether a header with flipped bits in this byte is none: for its title, its version, or the rest.
fn is_flawed_at(bytes: &[u8], byte: usize) -> bool {
    bytes
        .get(byte)
        .is_some_and(|flipped| read_header(bytes) == Err(flaw(byte, *flipped)))
}

#[test]
fn a_header_byte_by_byte(rt: HostRuntime) {
    assert!(rt; header(7) == *b"BOOK\x01\x07\x00\x00\x68\xbf\x07\xd0");
}

#[test]
fn headers_are_read_again(rt: HostRuntime) {
    assert_eq!(rt; good_desks(), usize::from(DESKS));
    assert!(rt;
        read_header(&header(DESKS)) == Err(Damaged),
        "there is no such desk"
    );
}

#[test]
fn damaged_headers_are_none(rt: HostRuntime) {
    assert_eq!(rt; good_flips(&mut header(7), 0x01, is_flawed_at), 12);
    assert_eq!(rt; good_flips(&mut header(31), 0x80, is_flawed_at), 12);
    assert!(rt; read_header(&header(7)[..11]) == Err(NotABook));
    assert!(rt; read_header(b"") == Err(NotABook));
}
