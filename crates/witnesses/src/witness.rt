// A desk's witness: a second paper of what it has heard of, and a plain desk that is told the same.
use crate::compare::{key_on_paper, key_on_plain};
use crate::faults::{Stop, expect};
use crate::rows::Row;
use crate::sights::Sight;
use desks::Refusal;
use papers::{Command, Deed, Paper};
use plain_desks::{Fault, PlainDesk};
use std::alloc::{AllocError, Global};

// Whether machines know signs in a row. As long as they do not, a command about signs is refused.
pub const TEXT_IS_KNOWN: bool = false;

#[derive(Drop)]
pub struct Witness {
    desk: u64,
    pub paper: Paper,
    pub plain: PlainDesk,
    // What the paper has heard of.
    pub row: Row,
}

// Whether a machine does not know a command.
fn is_unknown(command: Command) -> bool {
    !TEXT_IS_KNOWN && matches!(command, Command::Insert { .. } | Command::Strike { .. })
}

impl Witness {
    pub fn new(heap: Global, desk: u64) -> Witness {
        Witness {
            desk,
            paper: Paper::new(heap),
            plain: PlainDesk::new(heap, desk),
            row: Row::empty(),
        }
    }

    // The deed that a command should make, or what should be seen of its refusal.
    pub fn expected(&self, command: Command) -> Result<Deed, Sight> {
        if is_unknown(command) {
            return Err(Sight::from(Refusal::Unknown));
        }
        Ok(self.paper.deed(self.desk, command)?)
    }

    // A plain letter brings all, and a machine's only what fits, so the plain desk may know more than the paper; never less.
    pub fn is_level(&self) -> bool {
        self.plain.len() == self.paper.len()
    }

    // What the plain desk says under a key, where it knows what the paper knows.
    pub fn plain_key(&self, key: u64) -> Option<Sight> {
        self.is_level().then(|| key_on_plain(&self.plain, key))
    }

    pub fn paper_key(&self, key: u64) -> Sight {
        key_on_paper(&self.paper, key)
    }

    // What is seen of a command at the plain desk.
    fn plain_answer(&mut self, heap: Global, command: Command) -> Result<Sight, Stop> {
        match self.plain.does(heap, command) {
            Ok(()) => Ok(Sight::Done),
            Err(Fault::Refused(refusal)) => Ok(Sight::from(refusal)),
            Err(Fault::NoMemory) => Err(Stop::NoMemory),
        }
    }

    // The plain desk does a command of which this deed should come. Where it knows more it would find another name, and hears of the deed instead.
    fn plain_deed(&mut self, heap: Global, command: Command, deed: Deed) -> Result<(), Stop> {
        if !self.is_level() {
            self.plain.hear(&[deed])?;
            return Ok(());
        }
        let answer = self.plain_answer(heap, command)?;
        expect(self.desk, Sight::Done, answer)?;
        let knows = self.plain.knows(deed.name);
        expect(self.desk, known(deed, true), known(deed, knows))
    }

    // The desk did a command, of which this deed came.
    pub fn does(&mut self, heap: Global, command: Command, deed: Deed) -> Result<(), Stop> {
        self.plain_deed(heap, command, deed)?;
        self.paper.hear(deed)?;
        self.row = self.row.raised(deed.name);
        Ok(())
    }

    // The desk refused a command so; the plain desk must, too.
    pub fn refuses(&mut self, heap: Global, command: Command, refusal: Sight) -> Result<(), Stop> {
        if is_unknown(command) {
            return Ok(());
        }
        let answer = self.plain_answer(heap, command)?;
        expect(self.desk, refusal, answer)
    }

    // The desk now knows the deeds of a row: the paper hears of those that are new to it, in the order in which they were done.
    pub fn hears(&mut self, history: &[Deed], row: Row) -> Result<(), AllocError> {
        for deed in history {
            if row.covers(deed.name) && !self.row.covers(deed.name) {
                self.paper.hear(*deed)?;
            }
        }
        self.row = row;
        Ok(())
    }
}

// Whether a deed is known by its name.
fn known(deed: Deed, is_known: bool) -> Sight {
    Sight::Knows {
        of: deed.name.desk,
        number: if is_known { deed.name.number } else { 0 },
    }
}
