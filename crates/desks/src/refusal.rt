// Why a desk refuses, with the number that is told for it.
ghost use Rattle.std.specs.Prelude.{◌≡◌, Some};
ghost use Rattle.std.specs.Fmt.{decimal};
ghost use Rattle.desks.specs.Refusals.{number_of};
ghost use Rattle.desks.specs.declared.refusal.Refusal.TheVariants.{Malformed};

use messages::letter::NotALetter;
use std::fmt;

#[derive(Clone, Copy, PartialEq, Eq, Debug)]
pub enum Refusal {
    // What is lent has not the right size, and the machine is not told.
    Unfit = 0,
    // A number is not of 32 bits, a desk is none or not another, or a letter is none.
    Malformed = 1,
    // The command isn't known yet.
    Unknown = 2,
    // The desk isn't open yet, or is told again which it is.
    Closed = 3,
    // The desk has done all that it may.
    NoRoom = 7,
}

impl From<Refusal> for u64 {
    ghost from_gives = { λ refusal number. number ≡ number_of refusal };

    fn from(refusal: Refusal) -> u64 {
        refusal as u64
    }
}

impl From<NotALetter> for Refusal {
    ghost from_gives = { λ _ refusal. refusal ≡ Malformed };

    fn from(_error: NotALetter) -> Refusal {
        Refusal::Malformed
    }
}

impl fmt::Display for Refusal {
    ghost output = { λ refusal. Some (decimal (number_of refusal)) };

    fn fmt<W: fmt::Write>(&self, f: &mut fmt::Formatter<W>) -> fmt::Result {
        let number = u64::from(*self);
        write!(f, "{number}")
    }
}
