// The vocabulary: a replica, what it can be told to do, and what it shows of a key.
ghost use Rattle.std.specs.Prelude.{◌≡◌, vec_len};
ghost use Rattle.ops.specs.Layout.{memory_size};

#[derive(Drop)]
pub struct Replica {
    // All that it keeps.
    pub(crate) memory: Vec<u64>,
    ghost sized: { vec_len memory ≡ memory_size },
}

#[derive(Clone, Copy, PartialEq, Eq, Debug)]
pub enum Deed {
    Insert { place: u64, sign: u64 },
    Strike { place: u64 },
    Write { key: u64, word: u64 },
    Add { key: u64, amount: u64 },
}

// What is shown of a key.
#[derive(Clone, Copy, PartialEq, Eq, Debug)]
pub struct Key {
    pub word: Option<u64>,
    pub tally: u64,
}
