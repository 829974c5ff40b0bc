// What a command makes at a desk that knows a paper.
ghost use Rattle.std.specs.Prelude.{◌≡◌, Some};
ghost use Rattle.std.specs.Fmt.{decimal};
ghost use Rattle.ops.specs.Doc.{made_by, highest, do_it};
ghost use Rattle.papers.specs.Commands.{Makes, Answers, meant, shown_names};
ghost use Rattle.papers.specs.Refusals.{number_of};
ghost use Rattle.papers.specs.Deeds.{kind_of};
ghost use Rattle.papers.specs.Papers.{deeds_of};

use crate::deeds::{Command, Deed, Name, What};
use crate::paper::Paper;
use std::fmt;

// Why a command makes no deed. Each refusal has a number.
#[derive(Clone, Copy, PartialEq, Eq, Debug)]
pub enum Refusal {
    NoSuchPlace = 4,
    // The desk has done all that it may.
    TooMany = 7,
    // No number is left for a name.
    NoNumber = 8,
}

impl From<Refusal> for u64 {
    ghost from_gives = { λ refusal number. number ≡ number_of refusal };

    fn from(refusal: Refusal) -> u64 {
        refusal as u64
    }
}

impl fmt::Display for Refusal {
    ghost output = { λ refusal. Some (decimal (number_of refusal)) };

    fn fmt<W: fmt::Write>(&self, f: &mut fmt::Formatter<W>) -> fmt::Result {
        u64::from(*self).fmt(f)
    }
}

// How many deeds a desk may do.
const MOST: usize = 256;

impl Paper {
    // How many deeds a desk has done.
    fn made_by(&self, desk: u64) -> usize
        ensures { result ≡ made_by desk (deeds_of self.now) }
    {
        self.deeds()
            .iter()
            .filter(|deed| deed.name.desk == desk)
            .count()
    }

    // The highest number of all deeds.
    fn highest(&self) -> u64
        ensures { result ≡ highest (deeds_of self.now) }
    {
        self.deeds()
            .iter()
            .map(|deed| deed.name.number)
            .max()
            .unwrap_or(0)
    }

    // A desk's next deed, which does this.
    fn next_deed(&self, desk: u64, what: What) -> Result<Deed, Refusal>
        ensures { Makes (do_it desk (deeds_of self.now) (kind_of what)) (deeds_of self.now) result }
    {
        if self.made_by(desk) >= MOST {
            return Err(Refusal::TooMany);
        }
        let number = self.highest().checked_add(1).ok_or(Refusal::NoNumber)?;
        let name = Name { number, desk };
        Ok(Deed { name, what })
    }

    // What a command comes to where these signs are shown; nothing if there is no such place.
    fn meaning(&self, command: Command) -> Option<What>
        ensures { result ≡ meant (shown_names self.now) command }
    {
        match command {
            Command::Insert { place: 0, sign } => Some(What::Put { behind: None, sign }),
            Command::Insert { place, sign } => {
                let behind = Some(self.signs.shown_at(place - 1)?);
                Some(What::Put { behind, sign })
            }
            Command::Strike { place } => {
                let target = self.signs.shown_at(place)?;
                Some(What::Strike { target })
            }
            Command::Write { key, word } => Some(What::Write { key, word }),
            Command::Add { key, amount } => Some(What::Add { key, amount }),
        }
    }

    // The deed that a command makes at a desk that knows this, or why it makes none. The paper doesn't hear of it.
    pub fn deed(&self, desk: u64, command: Command) -> Result<Deed, Refusal>
        ensures { Answers desk self.now command result }
    {
        let what = self.meaning(command).ok_or(Refusal::NoSuchPlace)?;
        self.next_deed(desk, what)
    }
}
