// A plain desk: a replica that keeps operations in a map by their names, and sends all it has.
//
// The order of names respects causality, since a deed's number is above those of all deeds that its desk knew of. So a letter is the map from its first
// name to its last, and whoever takes it in that order knows a sign before anything about it.
#![tactic(auto)]

mod faults;

pub use faults::Fault;
use papers::{Command, Deed, Name, Paper, What};
use std::alloc::{AllocError, Global};
use std::collections::BTreeMap;

#[derive(Drop)]
pub struct PlainDesk {
    desk: u64,
    known: BTreeMap<Name, What>,
}

impl PlainDesk {
    pub fn new(heap: Global, desk: u64) -> PlainDesk {
        PlainDesk {
            desk,
            known: BTreeMap::new(heap),
        }
    }

    pub fn len(&self) -> usize {
        self.known.len()
    }

    pub fn knows(&self, name: Name) -> bool {
        self.known.contains_key(&name)
    }

    // Does a command, or says why it is refused.
    pub fn does(&mut self, heap: Global, command: Command) -> Result<(), Fault> {
        let deed = self.paper(heap)?.deed(self.desk, command)?;
        self.known.insert(deed.name, deed.what)?;
        Ok(())
    }

    // All that it knows, in the order of names.
    pub fn letter(&self, heap: Global) -> Result<Vec<Deed>, AllocError> {
        self.known
            .iter()
            .map(|(name, what)| Deed {
                name: *name,
                what: *what,
            })
            .collect(heap)
    }

    // Takes in a letter; what was known stays as it was.
    pub fn hear(&mut self, letter: &[Deed]) -> Result<(), AllocError> {
        for deed in letter {
            if !self.knows(deed.name) {
                self.known.insert(deed.name, deed.what)?;
            }
        }
        Ok(())
    }

    // The newest word under a key: of the words in the order of names, the last.
    pub fn word(&self, key: u64) -> Option<u64> {
        self.known
            .values()
            .filter_map(|what| what.written_under(key))
            .last()
    }

    pub fn tally(&self, key: u64) -> u128 {
        self.known
            .values()
            .map(|what| u128::from(what.added_to(key)))
            .fold(0, |sum: u128, amount| sum.saturating_add(amount))
    }

    pub fn text(&self, heap: Global) -> Result<Vec<u64>, AllocError> {
        self.paper(heap)?.text(heap)
    }

    // What it knows, on a paper.
    fn paper(&self, heap: Global) -> Result<Paper, AllocError> {
        let mut paper = Paper::new(heap);
        for (name, what) in self.known.iter() {
            paper.hear(Deed {
                name: *name,
                what: *what,
            })?;
        }
        Ok(paper)
    }
}
