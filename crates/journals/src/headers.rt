// The header of a book: that it is one, of which version, and of which desk.
ghost use Rattle.std.specs.Prelude.{◌≡◌, ◌≤◌, length};
ghost use Rattle.journals.specs.Book.{header_of, is_book, is_whole, opening_of};

use crate::numbers::{is_sealed, u16_at};
use checksums::crc32;

const TITLE: &[u8; 4] = b"BOOK";

const VERSION: u8 = 1;

const DESKS: u8 = 32;

// Where the header has its version, the desk, two bytes that are 0, and its CRC; and how long it is.
const VERSION_AT: usize = 4;

const DESK_AT: usize = 5;

const ZEROS_AT: usize = 6;

const CRC_AT: usize = 8;

const SIZE: usize = 12;

// Why the first bytes of a file are no header.
#[derive(Clone, Copy, PartialEq, Eq, Debug)]
pub enum HeaderFault {
    NotABook,
    OtherVersion(u8),
    Damaged,
}

// The header of a desk's book.
pub fn header(desk: u8) -> [u8; SIZE]
    ensures { result ≡ header_of desk }
{
    let mut bytes = [0; SIZE];
    bytes[..VERSION_AT].copy_from_slice(TITLE);
    bytes[VERSION_AT] = VERSION;
    bytes[DESK_AT] = desk;
    let crc = crc32(&bytes[..CRC_AT]).to_le_bytes();
    bytes[CRC_AT..].copy_from_slice(&crc);
    bytes
}

// Whether there is a header, of any version.
fn is_book(bytes: &[u8]) -> bool
    ensures { result ≡ is_book bytes.now }
{
    bytes.len() >= SIZE && bytes.starts_with(TITLE)
}

// Whether the header of a book of this version is sealed, has the two bytes that are 0, and names a desk.
#[tactic(auto, unfolding(crate::specs::Book::is_whole))]
fn is_whole(bytes: &[u8]) -> bool
    requires { 12 ≤ length bytes.now }
    ensures { result ≡ is_whole bytes.now }
{
    is_sealed(bytes, CRC_AT) && u16_at(bytes, ZEROS_AT) == 0 && bytes[DESK_AT] < DESKS
}

// The desk whose book a file is, by its header.
#[tactic(auto, using(crate::proofs::Openings::book_long), unfolding(crate::specs::Book::opening_of))]
pub fn read_header(bytes: &[u8]) -> Result<u8, HeaderFault>
    ensures { result ≡ opening_of bytes.now }
{
    if !is_book(bytes) {
        return Err(HeaderFault::NotABook);
    }
    let version = bytes[VERSION_AT];
    if version != VERSION {
        return Err(HeaderFault::OtherVersion(version));
    }
    if !is_whole(bytes) {
        return Err(HeaderFault::Damaged);
    }
    Ok(bytes[DESK_AT])
}
