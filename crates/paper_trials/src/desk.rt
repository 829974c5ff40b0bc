// A desk twice: as a paper of what it knows, and as a plain desk.
use papers::{Command, Deed, Paper, Refusal};
use plain_desks::{Fault, PlainDesk};
use std::alloc::{AllocError, Global};

#[derive(Drop)]
pub struct Desk {
    number: u64,
    paper: Paper,
    plain: PlainDesk,
}

fn spells(signs: &[u64], text: &str) -> bool {
    let bytes = text.as_bytes();
    signs.len() == bytes.len()
        && signs
            .iter()
            .zip(bytes)
            .all(|(&sign, &byte)| sign == u64::from(byte))
}

impl Desk {
    pub fn new(heap: Global, number: u64) -> Desk {
        Desk {
            number,
            paper: Paper::new(heap),
            plain: PlainDesk::new(heap, number),
        }
    }

    fn does_on_paper(&mut self, command: Command) -> Result<(), Fault> {
        let deed = self.paper.deed(self.number, command)?;
        self.paper.hear(deed)?;
        Ok(())
    }

    // Whether a command is answered so.
    pub fn does(
        &mut self,
        heap: Global,
        command: Command,
        answer: Result<(), Refusal>,
    ) -> Result<bool, AllocError> {
        let answers = [self.does_on_paper(command), self.plain.does(heap, command)];
        if answers.contains(&Err(Fault::NoMemory)) {
            return Err(AllocError);
        }
        let expected = answer.map_err(Fault::Refused);
        Ok(answers == [expected; 2] && self.paper.len() == self.plain.len())
    }

    pub fn letter(&self, heap: Global) -> Result<Vec<Deed>, AllocError> {
        self.plain.letter(heap)
    }

    pub fn hears(&mut self, letter: &[Deed]) -> Result<bool, AllocError> {
        for deed in letter {
            self.paper.hear(*deed)?;
        }
        self.plain.hear(letter)?;
        Ok(self.paper.len() == self.plain.len())
    }

    pub fn shows(&self, heap: Global, text: &str) -> Result<bool, AllocError> {
        let on_paper = self.paper.text(heap)?;
        let plain = self.plain.text(heap)?;
        Ok(spells(&on_paper, text) && spells(&plain, text))
    }

    pub fn keeps(&self, key: u64, word: Option<u64>, tally: u128) -> bool {
        let words = self.paper.word(key) == word && self.plain.word(key) == word;
        words && self.paper.tally(key) == tally && self.plain.tally(key) == tally
    }
}
