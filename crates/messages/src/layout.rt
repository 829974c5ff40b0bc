// How a letter is laid out, in bytes: a head, the sender's version vector, the records, and a CRC-32 of all that.
pub const DESKS: u8 = ops::layout::DESKS as u8;

pub const NUMBER: usize = 4;

// The head: first the number of this layout, by which another one is told from it.
pub const FORMAT: u8 = 1;

pub const SENDER: usize = 1;

pub const ADDRESSEE: usize = 2;

pub const COUNT: usize = 3;

pub const HEAD: usize = 4;

// Where the records begin, how long one is, how long a letter with none is, and how many fit.
pub const RECORDS: usize = HEAD + DESKS as usize * NUMBER;

pub const RECORD: usize = 16;

pub const EMPTY: usize = RECORDS + NUMBER;

pub const LONGEST: usize = 4096;

pub const MOST_RECORDS: usize = (LONGEST - EMPTY) / RECORD;
