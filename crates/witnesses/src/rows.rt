// What a desk knows, by its version vector: of each desk the deeds up to a number.
ghost use Rattle.std.specs.Prelude.{◌≡◌, nat_le};
ghost use Rattle.witnesses.specs.Rows.{number_of, with_name, Joins, Above};

use papers::Name;
use simulator::Room;
use std::array;

const DESKS: usize = desks::DESKS as usize;

#[derive(Clone, Copy)]
pub struct Row {
    numbers: [u64; DESKS],
}

impl Row {
    pub fn empty() -> Row {
        Row {
            numbers: [0; DESKS],
        }
    }

    // What the machine of a desk says that it knows.
    pub fn at(room: &Room, desk: u64) -> Row {
        let numbers = array::from_fn(|of| room.version(desk, of as u64));
        Row { numbers }
    }

    // The number up to which a desk's deeds are known.
    pub fn of(&self, desk: u64) -> u64
        ensures { result ≡ number_of self.now.numbers desk }
    {
        self.numbers.get(desk as usize).copied().unwrap_or(0)
    }

    // Whether the deed of a name is known.
    pub fn covers(&self, name: Name) -> bool
        ensures { result ≡ nat_le name.number (number_of self.now.numbers name.desk) }
    {
        name.number <= self.of(name.desk)
    }

    // This row, once a deed is known too.
    pub fn raised(self, name: Name) -> Row
        ensures { result.numbers ≡ with_name self.numbers name.number name.desk }
    {
        if name.desk >= DESKS as u64 {
            return self;
        }
        let desk = name.desk as usize;
        let mut numbers = self.numbers;
        numbers[desk] = numbers[desk].max(name.number);
        Row { numbers }
    }

    // What is known where both rows are.
    pub fn joined(&self, other: &Row) -> Row
        ensures { Joins self.now.numbers other.now.numbers result.numbers 32 }
    {
        let numbers = array::from_fn(|of| self.numbers[of].max(other.numbers[of]));
        Row { numbers }
    }

    // The first desk of which this row has more than another.
    pub fn first_above(&self, other: &Row) -> Option<u64>
        ensures { Above self.now.numbers other.now.numbers result }
    {
        let mut pairs = self.numbers.iter().zip(&other.numbers);
        pairs
            .position(|(mine, theirs)| mine > theirs)
            .map(|of| of as u64)
    }
}
