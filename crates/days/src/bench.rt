// The standard day, to be timed: 32 desks do 256 deeds each, after one deed in eight two of them meet, and at the end all do. Nothing is compared.
use desks::DESKS;
use plans::Draw;
use replicas::Deed;
use simulator::{Answer, Command, Item, Room};
use std::alloc::{AllocError, Global};

const ROUNDS: u64 = 256;

// After so many deeds two desks meet.
const DEEDS_TO_A_MEETING: u64 = 8;

const KEYS: u64 = 4;

const VALUES: u64 = 1000;

const SEED: u64 = 1;

// What was done in a standard day.
#[derive(Clone, Copy)]
pub struct Bench {
    pub desks: u64,
    pub deeds: u64,
    // Operations that desks came to know without having done them.
    pub operations: u64,
    pub letters: u64,
    pub bytes: u64,
}

#[derive(Drop)]
pub struct BenchDay {
    heap: Global,
    room: Room,
    draw: Draw,
    deeds: u64,
    letters: u64,
    bytes: u64,
}

impl BenchDay {
    // The desks are open, and know nothing yet.
    pub fn new(heap: Global) -> Result<BenchDay, AllocError> {
        Ok(BenchDay {
            heap,
            room: Room::new(heap)?,
            draw: Draw::of_day(SEED, 0),
            deeds: 0,
            letters: 0,
            bytes: 0,
        })
    }

    pub fn run(&mut self) -> Result<Bench, AllocError> {
        for _ in 0..ROUNDS {
            self.round()?;
        }
        self.last_meetings()?;
        self.last_meetings()?;
        Ok(Bench {
            desks: DESKS,
            deeds: self.deeds,
            operations: self.known().saturating_sub(self.deeds),
            letters: self.letters,
            bytes: self.bytes,
        })
    }

    // Each desk does a deed.
    fn round(&mut self) -> Result<(), AllocError> {
        for desk in 0..DESKS {
            self.deed(desk)?;
            if self.deeds % DEEDS_TO_A_MEETING == 0 {
                let (one, other) = self.draw.pair(DESKS);
                self.meet(one, other)?;
            }
        }
        Ok(())
    }

    fn deed(&mut self, desk: u64) -> Result<(), AllocError> {
        let key = self.draw.below(KEYS);
        let value = self.draw.below(VALUES);
        let deed = if self.draw.below(2) == 0 {
            Deed::Write { key, word: value }
        } else {
            Deed::Add { key, amount: value }
        };
        let item = Item::At {
            desk,
            command: Command::Do(deed),
        };
        if let Ok(Answer::Done) = self.room.play(self.heap, item)? {
            self.deeds = self.deeds.saturating_add(1);
        }
        Ok(())
    }

    fn meet(&mut self, one: u64, other: u64) -> Result<(), AllocError> {
        let item = Item::Meets { one, other };
        if let Ok(Answer::Met { pairs, bytes }) = self.room.play(self.heap, item)? {
            self.letters = self.letters.saturating_add(pairs.saturating_mul(2));
            self.bytes = self.bytes.saturating_add(bytes);
        }
        Ok(())
    }

    // The first desk meets each other.
    fn last_meetings(&mut self) -> Result<(), AllocError> {
        for other in 1..DESKS {
            self.meet(0, other)?;
        }
        Ok(())
    }

    // How many operations are known, at all desks together.
    fn known(&self) -> u64 {
        (0..DESKS)
            .filter_map(|desk| self.room.known(desk))
            .fold(0, |sum: u64, known| sum.saturating_add(known as u64))
    }
}
