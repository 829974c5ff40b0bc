// The vocabulary: a desk, an operation's id, what it does, and the memory that keeps it.
ghost use Rattle.std.specs.Prelude.{◌<◌, ◌≤◌, length};
ghost use Rattle.ops.specs.Layout.{memory_size};

// A desk (replica) by its number.
#[derive(Clone, Copy, PartialEq, Eq, PartialOrd, Ord, Debug)]
pub struct Desk {
    pub number: u8,
    ghost near: { number < 32 },
}

// An operation's id: its number, and who did it.
#[derive(Clone, Copy, PartialEq, Eq, PartialOrd, Ord, Debug)]
pub struct OpId {
    pub n: u32,
    pub desk: Desk,
}

// What an operation does, as the number that memories and letters keep of it.
#[derive(Clone, Copy, PartialEq, Eq, Debug)]
pub enum Tag {
    Insert,
    Delete,
    Write,
    Add,
}

// A number that is no operation's tag.
#[derive(Clone, Copy, PartialEq, Eq, Debug)]
pub struct UnknownTag;

// The log has no room for one operation more.
#[derive(Clone, Copy, PartialEq, Eq, Debug)]
pub struct Full;

#[derive(Clone, Copy, PartialEq, Eq, Debug)]
pub enum Kind {
    // A sign behind another, or at the beginning: behind number 0.
    Insert { after: OpId, sign: u32 },
    Delete { target: OpId },
    Write { key: u32, word: u32 },
    Add { key: u32, amount: u32 },
}

#[derive(Clone, Copy, PartialEq, Eq, Debug)]
pub struct Op {
    pub id: OpId,
    pub kind: Kind,
}

// A desk's memory, lent: cells at fixed places.
#[derive(Drop)]
pub struct Memory<'a> {
    pub cells: &'a mut [u64],
    ghost long: { memory_size ≤ length cells.now },
}
