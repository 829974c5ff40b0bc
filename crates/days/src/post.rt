// Letters under way. The room keeps every letter; here is what each should bring, and which are still to come.
use papers::Deed;
use plans::Draw;
use std::alloc::{AllocError, Global};
use witnesses::Row;

// What a letter should bring.
#[derive(Drop)]
pub struct Mail {
    pub from: u64,
    pub to: u64,
    // What the writer knew, and how many deeds that were.
    pub row: Row,
    pub known: usize,
    // What its plain desk knew.
    pub plain: Vec<Deed>,
}

#[derive(Drop)]
pub struct Post {
    // By the letters' numbers.
    pub mails: Vec<Mail>,
    waiting: Vec<u64>,
}

impl Post {
    pub fn new(heap: Global) -> Post {
        Post {
            mails: Vec::new(heap),
            waiting: Vec::new(heap),
        }
    }

    // What a letter should bring, by its number.
    pub fn mail(&self, letter: u64) -> Option<&Mail> {
        self.mails.get(letter as usize)
    }

    // How many letters are still to come.
    pub fn waiting(&self) -> usize {
        self.waiting.len()
    }

    // A letter is to come some time.
    pub fn keep(&mut self, letter: u64) -> Result<(), AllocError> {
        self.waiting.push(letter)?;
        Ok(())
    }

    // Some letter of those that are to come, which then is none of them any more.
    pub fn any(&mut self, draw: &mut Draw) -> Option<u64> {
        let count = self.waiting.len();
        if count == 0 {
            return None;
        }
        let place = draw.below(count as u64) as usize;
        Some(self.waiting.swap_remove(place))
    }
}
