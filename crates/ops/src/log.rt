// The log in a desk's memory, its version vector, and its counts.
ghost use Rattle.std.specs.Prelude.{◌≡◌, ◌<◌, ◌≤◌, ◌↔◌, IsOk};
ghost use Rattle.std.proofs.lemmas.List.Edits.{sets};
ghost use Rattle.std.specs.Option.{SomeIff, option_map};
ghost use Rattle.ops.specs.Layout.{memory_size, version_cell, made_cell, slot, low};
ghost use Rattle.ops.specs.Log.{kept, part, op_at, cells_of, appended, highest_up_to};
ghost use Rattle.ops.specs.Values.{desk_of, op_of, held, Holds};

use crate::layout::{CAPACITY, DESKS, LENGTH, LOG, MADE, VERSION, WIDTH};
use crate::types::{Desk, Full, Kind, Memory, Op, OpId, Tag};

impl Op {
    // The six cells that keep it.
    fn cells(self) -> [u64; 6]
        ensures { result ≡ cells_of (op_of self) }
    {
        let n = u64::from(self.id.n);
        let desk = u64::from(self.id.desk.number);
        match self.kind {
            Kind::Insert { after, sign } => [
                n,
                desk,
                Tag::Insert as u64,
                u64::from(after.n),
                u64::from(after.desk.number),
                u64::from(sign),
            ],
            Kind::Delete { target } => [
                n,
                desk,
                Tag::Delete as u64,
                u64::from(target.n),
                u64::from(target.desk.number),
                0,
            ],
            Kind::Write { key, word } => [
                n,
                desk,
                Tag::Write as u64,
                u64::from(key),
                u64::from(word),
                0,
            ],
            Kind::Add { key, amount } => [
                n,
                desk,
                Tag::Add as u64,
                u64::from(key),
                u64::from(amount),
                0,
            ],
        }
    }
}

impl Memory<'_> {
    // A cell's low 32 bits: whatever number stands there, that much of it is read.
    pub fn low_half(&self, i: usize) -> u32
        requires { i < memory_size }
        ensures { result ≡ low (held self.now) i }
    {
        (self.cells[i] % 4_294_967_296) as u32
    }

    // How many operations are in the log.
    pub fn length(&self) -> usize
        ensures value { result ≡ kept (held self.now) }
        ensures bound { result ≤ 8192 }
    {
        self.cells[LENGTH].min(CAPACITY as u64) as usize
    }

    // One of the six cells of a place of the log.
    fn field(&self, k: usize, j: usize) -> u32
        requires { (k < 8192) × (j < 6) }
        ensures { result ≡ part (held self.now) k j }
    {
        self.low_half(LOG + k * WIDTH + j)
    }

    // The operation at a place of the log.
    pub fn operation(&self, k: usize) -> Option<Op>
        ensures { SomeIff (option_map op_of result) (k < kept (held self.now)) (op_at (held self.now) k) }
    {
        if k >= self.length() {
            return None;
        }
        let id = OpId {
            n: self.field(k, 0),
            desk: Desk {
                number: (self.field(k, 1) % 32) as u8,
            },
        };
        let x = self.field(k, 3);
        let y = self.field(k, 4);
        let target = OpId {
            n: x,
            desk: Desk {
                number: (y % 32) as u8,
            },
        };
        // a memory may be anything: what has no tag is read as an Add
        let kind = match Tag::try_from(self.field(k, 2)).unwrap_or(Tag::Add) {
            Tag::Insert => Kind::Insert {
                after: target,
                sign: self.field(k, 5),
            },
            Tag::Delete => Kind::Delete { target },
            Tag::Write => Kind::Write { key: x, word: y },
            Tag::Add => Kind::Add { key: x, amount: y },
        };
        Some(Op { id, kind })
    }

    // The highest number of a desk's operations in the log.
    pub fn version(&self, desk: Desk) -> u32
        ensures { result ≡ low (held self.now) (version_cell (desk_of desk)) }
    {
        self.low_half(VERSION + desk.number as usize)
    }

    // How many operations of a desk are in the log.
    pub fn made(&self, desk: Desk) -> u32
        ensures { result ≡ low (held self.now) (made_cell (desk_of desk)) }
    {
        self.low_half(MADE + desk.number as usize)
    }

    // The highest number of any operation.
    pub fn highest(&self) -> u32
        ensures { result ≡ highest_up_to 32 (held self.now) }
    {
        (0..DESKS)
            .map(|d| self.low_half(VERSION + d))
            .max()
            .unwrap_or(0)
    }

    // Writes an operation's six cells at a place of the log.
    fn store(&mut self, k: usize, op: Op)
        requires { k < 8192 }
        ensures { Holds self.old self.new (sets (held self.old) (slot k) (cells_of (op_of op))) }
    {
        let at = LOG + k * WIDTH;
        self.cells[at..at + WIDTH].copy_from_slice(&op.cells());
    }

    // One operation more, if there is room; else nothing is changed.
    pub fn append(&mut self, op: Op) -> Result<(), Full>
        ensures room { IsOk result ↔ (kept (held self.old) < 8192) }
        ensures after { Holds self.old self.new (appended (held self.old) (op_of op)) }
    {
        let k = self.length();
        if k >= CAPACITY {
            return Err(Full);
        }
        let made = self.made(op.id.desk);
        let desk = op.id.desk.number as usize;
        self.store(k, op);
        self.cells[LENGTH] = (k + 1) as u64;
        self.cells[VERSION + desk] = u64::from(op.id.n);
        self.cells[MADE + desk] = u64::from(made) + 1;
        Ok(())
    }
}
