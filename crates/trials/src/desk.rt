// A desk with its memory and the buffers that it is lent, as the tests use it; and desks that meet.
use desks::{MEMORY_SIZE, MOST_BYTES, MOST_SHOWN, Refusal, Told};
use std::alloc::{AllocError, Global};

// What a desk is told. The kinds' numbers are the test's own, and one of them is no desk's.
#[derive(Clone, Copy)]
pub enum Kind {
    Open,
    Insert,
    Strike,
    Write,
    Add,
    ShowText,
    ShowKey,
    Send,
    Read,
    GoOn,
    // One more than there are.
    NoKind,
}

// Where a memory has how many operations are known, and the highest number of each of 32 desks': the test's own figures.
const KNOWN: usize = 3;

const VERSIONS: usize = 32;

const MOST_DESKS: usize = 32;

// How many deeds a desk may do: the test's own figure.
pub const MOST_DEEDS: u64 = 256;

// What stands in the buffers before a desk writes there, which is nothing that a test makes it write.
const UNTOUCHED: u64 = 987_654_321;

const UNTOUCHED_BYTE: u8 = 0xA5;

// More pairs of letters than two desks need, however much each knows.
const MOST_PAIRS: u64 = 100;

#[derive(Drop)]
pub struct Desk {
    heap: Global,
    pub number: u64,
    memory: Vec<u64>,
    row: Vec<u64>,
    out: Vec<u8>,
}

impl Desk {
    // A desk that isn't open, with so many cells, numbers and bytes.
    pub fn sized(
        heap: Global,
        number: u64,
        cells: usize,
        shown: usize,
        bytes: usize,
    ) -> Result<Desk, AllocError> {
        let memory = vec![in heap; 0; cells]?;
        let row = vec![in heap; UNTOUCHED; shown]?;
        let out = vec![in heap; UNTOUCHED_BYTE; bytes]?;
        Ok(Desk {
            heap,
            number,
            memory,
            row,
            out,
        })
    }

    pub fn closed(heap: Global, number: u64) -> Result<Desk, AllocError> {
        Desk::sized(heap, number, MEMORY_SIZE, MOST_SHOWN, MOST_BYTES)
    }

    pub fn opened(heap: Global, number: u64) -> Result<Desk, AllocError> {
        let mut desk = Desk::closed(heap, number)?;
        desk.tell(Kind::Open, number, 0, &[]);
        Ok(desk)
    }

    fn copy(&self) -> Result<Desk, AllocError> {
        let heap = self.heap;
        let memory = Vec::from_slice(heap, &self.memory)?;
        let row = Vec::from_slice(heap, &self.row)?;
        let out = Vec::from_slice(heap, &self.out)?;
        Ok(Desk {
            heap,
            number: self.number,
            memory,
            row,
            out,
        })
    }

    fn is_as(&self, other: &Desk) -> bool {
        self.memory == other.memory && self.row == other.row && self.out == other.out
    }

    // One step.
    pub fn tell(&mut self, kind: Kind, a: u64, b: u64, letter: &[u8]) -> Told {
        desks::step(
            &mut self.memory,
            kind as u64,
            a,
            b,
            letter,
            &mut self.row,
            &mut self.out,
        )
    }

    // Whether what it is told is done, with nothing to show.
    fn does(&mut self, kind: Kind, a: u64, b: u64, letter: &[u8]) -> bool {
        self.tell(kind, a, b, letter) == Told::Done
    }

    // Whether what it is told is refused so, and the desk is then as it was.
    pub fn refuses(&mut self, kind: Kind, a: u64, b: u64, letter: &[u8], refusal: Refusal) -> bool {
        let Ok(before) = self.copy() else {
            return false;
        };
        self.tell(kind, a, b, letter) == Told::No(u64::from(refusal)) && self.is_as(&before)
    }

    // A word written or an amount added; whether it is done.
    pub fn deed(&mut self, kind: Kind, key: u64, value: u64) -> bool {
        self.does(kind, key, value, &[])
    }

    // Adds to a key so many times; whether all is done.
    pub fn adds_often(&mut self, deeds: u64) -> bool {
        (0..deeds).all(|amount| self.deed(Kind::Add, 1, amount))
    }

    // The word under a key, if one is shown; nothing where the key isn't shown.
    fn word(&mut self, key: u64) -> Option<Option<u64>> {
        match self.tell(Kind::ShowKey, key, 0, &[]) {
            Told::Shows(0) => Some(None),
            Told::Shows(1) => Some(self.row.first().copied()),
            _ => None,
        }
    }

    fn tally(&mut self) -> Option<u64> {
        match self.tell(Kind::GoOn, 0, 0, &[]) {
            Told::Shows(1) => self.row.first().copied(),
            _ => None,
        }
    }

    // A key's word and tally, after which there's nothing left to show; nothing where they aren't shown so.
    pub fn key(&mut self, key: u64) -> Option<(Option<u64>, u64)> {
        let word = self.word(key)?;
        let tally = self.tally()?;
        self.does(Kind::GoOn, 0, 0, &[]).then_some((word, tally))
    }

    // The letter that it makes for another desk; empty where it makes none, and none is empty.
    fn letter(&mut self, peer: u64) -> &[u8] {
        match self.tell(Kind::Send, peer, 0, &[]) {
            Told::Sends(n) if n as usize <= self.out.len() => &self.out[0..n as usize],
            _ => &[],
        }
    }

    pub fn letter_for(&mut self, peer: u64) -> Result<Vec<u8>, AllocError> {
        let heap = self.heap;
        Vec::from_slice(heap, self.letter(peer))
    }

    // Whether it reads a letter.
    pub fn hear(&mut self, peer: u64, letter: &[u8]) -> bool {
        self.does(Kind::Read, peer, 0, letter)
    }

    // How many operations it knows.
    pub fn known(&self) -> u64 {
        self.memory.get(KNOWN).copied().unwrap_or(0)
    }

    // The highest numbers of the desks' operations that it knows.
    fn version(&self) -> &[u64] {
        self.memory
            .get(VERSIONS..VERSIONS + MOST_DESKS)
            .unwrap_or(&[])
    }

    // The number that its next operation gets.
    pub fn next_number(&self) -> u64 {
        self.version()
            .iter()
            .copied()
            .max()
            .unwrap_or(0)
            .wrapping_add(1)
    }

    // Whether it knows the same operations as another.
    pub fn agrees_with(&self, other: &Desk) -> bool {
        self.version() == other.version()
    }
}

// A letter, and whether it is read.
pub fn pass(from: &mut Desk, to: &mut Desk) -> bool {
    to.hear(from.number, from.letter(to.number))
}

// A meeting: letters both ways until both know the same; how many pairs it took, if they come to agree.
pub fn meet(a: &mut Desk, b: &mut Desk) -> Option<u64> {
    for pairs in 0..MOST_PAIRS {
        if a.agrees_with(b) {
            return Some(pairs);
        }
        if !(pass(a, b) && pass(b, a)) {
            return None;
        }
    }
    None
}
