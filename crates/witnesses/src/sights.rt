// What can be seen of a desk, and a difference between what should be seen and what is.
ghost use Rattle.std.specs.Prelude.{◌≡◌};
ghost use Rattle.desks.specs.Refusals.{number_of};
ghost use Rattle.papers.specs.Refusals.{number_of as number_on_paper};
ghost use Rattle.witnesses.specs.declared.sights.Sight.TheVariants.{Refused};
ghost use Rattle.witnesses.specs.Sights.{answered, seen};

use crate::faults::Mismatch;
use desks::Refusal;
use simulator::Answer;
use std::fmt;

#[derive(Clone, Copy, PartialEq, Eq, Debug)]
pub enum Sight {
    Done,
    // Two desks met.
    Met,
    Refused(u64),
    // What stands under a key.
    Key { word: Option<u64>, tally: u128 },
    // Of a desk the deeds up to a number are known.
    Knows { of: u64, number: u64 },
    // So many deeds are known in all.
    Count(u64),
}

impl From<Answer> for Sight {
    ghost from_gives = { λ answer sight. sight ≡ answered answer };

    fn from(answer: Answer) -> Sight {
        match answer {
            Answer::Done => Sight::Done,
            Answer::Key(key) => Sight::Key {
                word: key.word,
                tally: u128::from(key.tally),
            },
            Answer::Met { .. } => Sight::Met,
        }
    }
}

// The machine's refusals and the paper's meet here as the numbers that both stand for.
impl From<Refusal> for Sight {
    ghost from_gives = { λ refusal sight. sight ≡ Refused (number_of refusal) };

    fn from(refusal: Refusal) -> Sight {
        let number = u64::from(refusal);
        Sight::Refused(number)
    }
}

impl From<papers::Refusal> for Sight {
    ghost from_gives = { λ refusal sight. sight ≡ Refused (number_on_paper refusal) };

    fn from(refusal: papers::Refusal) -> Sight {
        Sight::Refused(u64::from(refusal))
    }
}

// What came of an item in the room.
impl From<Result<Answer, Refusal>> for Sight {
    ghost from_gives = { λ outcome sight. sight ≡ seen outcome };

    fn from(outcome: Result<Answer, Refusal>) -> Sight {
        match outcome {
            Ok(answer) => Sight::from(answer),
            Err(refusal) => Sight::from(refusal),
        }
    }
}

// A word, where there is one, and then the tally.
fn write_key<W: fmt::Write>(
    f: &mut fmt::Formatter<W>,
    word: Option<u64>,
    tally: u128,
) -> fmt::Result {
    match word {
        Some(word) => write!(f, "{word}; {tally}"),
        None => write!(f, "; {tally}"),
    }
}

impl fmt::Display for Sight {
    fn fmt<W: fmt::Write>(&self, f: &mut fmt::Formatter<W>) -> fmt::Result {
        match self {
            Sight::Done => f.write_str("done"),
            Sight::Met => f.write_str("met"),
            Sight::Refused(refusal) => write!(f, "refused {refusal}"),
            Sight::Key { word, tally } => write_key(f, *word, *tally),
            Sight::Knows { of, number } => write!(f, "deeds of desk {of} up to {number}"),
            Sight::Count(count) => write!(f, "{count} deeds"),
        }
    }
}

// A mismatch, and when it was seen.
#[derive(Clone, Copy)]
pub struct Difference {
    pub day: u64,
    // How many events there were in the day until then.
    pub event: u64,
    pub mismatch: Mismatch,
}

impl fmt::Display for Difference {
    fn fmt<W: fmt::Write>(&self, f: &mut fmt::Formatter<W>) -> fmt::Result {
        let Difference {
            day,
            event,
            mismatch: Mismatch {
                desk,
                expected,
                shown,
            },
        } = *self;
        write!(
            f,
            "day {day}, event {event}, desk {desk}: expected {expected}, shown {shown}"
        )
    }
}
