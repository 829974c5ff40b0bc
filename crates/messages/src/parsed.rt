// Bytes as a letter: whether they are one, and what stands in them.
ghost use Rattle.std.specs.Prelude.{◌≡◌, ◌+◌, ◌*◌, length, IfSome, is_some, ◌==◌};
ghost use Rattle.ops.specs.Values.{desk_of};
ghost use Rattle.messages.specs.Bytes.{byte, number_at};
ghost use Rattle.messages.specs.Records.{records, are_records};
ghost use Rattle.messages.specs.Letter.{is_sealed, is_letter};

use crate::bytes::number_at;
use crate::layout::{ADDRESSEE, COUNT, EMPTY, FORMAT, HEAD, NUMBER, RECORD, RECORDS, SENDER};
use crate::records::{is_record, record_at};
use checksums::crc32;
use ops::{Desk, Op};

// Bytes that are as long as they say, so that all that a letter has stands in them.
#[derive(Clone, Copy)]
pub struct Letter<'a> {
    bytes: &'a [u8],
    ghost long: { length bytes.now ≡ 136 + byte bytes.now 3 * 16 },
}

impl<'a> Letter<'a> {
    ghost use Rattle.messages.specs.Parsed.{is_between, is_whole, records_left};

    // These bytes as a letter, if they are as long as they say.
    fn framed(bytes: &'a [u8]) -> Option<Letter<'a>>
        ensures test { is_some result ≡ (length bytes.now == 136 + byte bytes.now 3 * 16) }
        ensures value { IfSome result (λ letter. letter.bytes.now ≡ bytes.now) }
    {
        let count = usize::from(*bytes.get(COUNT)?);
        if bytes.len() == EMPTY + count * RECORD {
            Some(Letter { bytes })
        } else {
            None
        }
    }

    // These bytes as a letter of this format between these desks, if they are one, whole and undamaged.
    pub fn parse(bytes: &'a [u8], from: Desk, to: Desk) -> Option<Letter<'a>>
        ensures test { is_some result ≡ is_letter (desk_of from) (desk_of to) bytes.now }
        ensures value { IfSome result (λ letter. letter.bytes.now ≡ bytes.now) }
    {
        Letter::framed(bytes).filter(|letter| letter.is_whole(from, to))
    }

    // Whether it is of this format, between these desks, of well-formed records, and undamaged.
    fn is_whole(&self, from: Desk, to: Desk) -> bool
        ensures { result ≡ is_whole (desk_of from) (desk_of to) self.now.bytes.now }
    {
        self.is_between(from, to) && self.has_records() && self.is_sealed()
    }

    // Whether it is of this format, from one desk for another.
    fn is_between(&self, from: Desk, to: Desk) -> bool
        ensures { result ≡ is_between (desk_of from) (desk_of to) self.now.bytes.now }
    {
        self.bytes[0] == FORMAT
            && self.bytes[SENDER] == from.number
            && self.bytes[ADDRESSEE] == to.number
    }

    // Whether all its records are well formed.
    fn has_records(&self) -> bool
        ensures { result ≡ are_records (byte self.now.bytes.now 3) self.now.bytes.now }
    {
        (0..self.count()).all(|k| is_record(self.bytes, RECORDS + k * RECORD))
    }

    // Whether its last four bytes are the CRC of those before them.
    fn is_sealed(&self) -> bool
        ensures { result ≡ is_sealed self.now.bytes.now }
    {
        let n = self.bytes.len() - NUMBER;
        number_at(self.bytes, n) == crc32(&self.bytes[..n])
    }

    // How many records it has.
    fn count(&self) -> usize
        ensures { result ≡ byte self.now.bytes.now 3 }
    {
        usize::from(self.bytes[COUNT])
    }

    // The highest number of a desk's operations that its sender told of.
    pub fn version(&self, desk: Desk) -> u32
        ensures { result ≡ number_at self.now.bytes.now (4 + desk_of desk * 4) }
    {
        number_at(self.bytes, HEAD + desk.number as usize * NUMBER)
    }

    // Its operations, in their order.
    pub fn records(&self) -> Records<'a>
        ensures { records_left result ≡ records (byte self.now.bytes.now 3) self.now.bytes.now }
    {
        Records {
            letter: *self,
            place: 0,
        }
    }
}

// The records of a letter from a place on.
#[derive(Clone, Copy)]
pub struct Records<'a> {
    letter: Letter<'a>,
    place: usize,
}

impl Iterator for Records<'_> {
    ghost use Rattle.std.specs.Iterator.{YieldsFirstBy, item_count};
    ghost use Rattle.ops.specs.Values.{op_of};
    ghost use Rattle.messages.specs.Parsed.{records_left};

    type Item = Op;

    ghost next_gives = { YieldsFirstBy op_of records_left };

    ghost remaining = { item_count records_left };

    fn next(&mut self) -> Option<Op> {
        if self.place >= self.letter.count() {
            return None;
        }
        let op = record_at(self.letter.bytes, RECORDS + self.place * RECORD);
        self.place += 1;
        Some(op)
    }
}
