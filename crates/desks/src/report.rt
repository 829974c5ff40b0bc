// How an act's answer is told to the world outside, which knows numbers and lent rows alone.
ghost use Rattle.std.specs.Prelude.{◌≡◌, ◌<◌, List, ℕ, length};
ghost use Rattle.desks.specs.Entry.{ActTold};
ghost use Rattle.desks.specs.Refusals.{number_of};
ghost use Rattle.desks.specs.Acts.{quiet, word, rest};
ghost use Rattle.desks.specs.Report.{sent_of};

use crate::Told;
use crate::refusal::Refusal;

pub fn no(refusal: Refusal) -> Told
    ensures { result ≡ Told.No (number_of refusal) }
{
    Told::No(u64::from(refusal))
}

pub fn done(answer: Result<(), Refusal>) -> Told
    ensures { (row out : List ℕ) → ActTold (quiet answer) result row row out out }
{
    match answer {
        Ok(()) => Told::Done,
        Err(refusal) => no(refusal),
    }
}

// A word, if there is one, goes into the row.
pub fn shown_word(answer: Result<Option<u32>, Refusal>, row: &mut [u64]) -> Told
    requires { 0 < length row.old }
    ensures { (out : List ℕ) → ActTold (word answer) result row.old row.new out out }
{
    let found = match answer {
        Ok(found) => found,
        Err(refusal) => return no(refusal),
    };
    let Some(word) = found else {
        return Told::Shows(0);
    };
    row[0] = u64::from(word);
    Told::Shows(1)
}

// A tally that was still to be shown goes into the row.
pub fn shown_rest(answer: Result<Option<u64>, Refusal>, row: &mut [u64]) -> Told
    requires { 0 < length row.old }
    ensures { (out : List ℕ) → ActTold (rest answer) result row.old row.new out out }
{
    let left = match answer {
        Ok(left) => left,
        Err(refusal) => return no(refusal),
    };
    let Some(tally) = left else {
        return Told::Done;
    };
    row[0] = tally;
    Told::Shows(1)
}

// A letter is in the lent bytes already.
pub fn sent(answer: Result<usize, Refusal>) -> Told
    ensures { result ≡ sent_of answer }
{
    match answer {
        Ok(size) => Told::Sends(size as u64),
        Err(refusal) => no(refusal),
    }
}
