// Why a line of a session cannot be played.
use commands::Fault;
use std::alloc::{AllocError, AllocFailed};
use std::error::Error;
use std::fmt;

#[derive(Debug, Drop, PartialEq, Eq)]
pub enum Trouble {
    // It says nothing that is known.
    Wrong(Fault),
    // It stands before the line that says which version this is.
    NoSession,
    OtherVersion(u64),
    NoDesk,
    NotTwoDesks,
    NoLetter,
    // A room answers something else than was asked.
    NoAnswer,
    NoMemory,
}

impl fmt::Display for Trouble {
    fn fmt<W: fmt::Write>(&self, f: &mut fmt::Formatter<W>) -> fmt::Result {
        match self {
            Trouble::Wrong(fault) => write!(f, "{fault}"),
            Trouble::NoSession => f.write_str("the first line has to be 'session 1'"),
            Trouble::OtherVersion(version) => write!(
                f,
                "a session of version {version}, and only version 1 is known"
            ),
            Trouble::NoDesk => f.write_str("desks are numbers below 32"),
            Trouble::NotTwoDesks => f.write_str("two different desks meet, with numbers below 32"),
            Trouble::NoLetter => f.write_str("no letter of that name was made"),
            Trouble::NoAnswer => f.write_str("the room gives no answer"),
            Trouble::NoMemory => f.write_str("out of memory"),
        }
    }
}

impl Error for Trouble {}

impl From<AllocError> for Trouble {
    fn from(_e: AllocError) -> Trouble {
        Trouble::NoMemory
    }
}

impl<T: Drop> From<AllocFailed<T>> for Trouble {
    fn from(_e: AllocFailed<T>) -> Trouble {
        Trouble::NoMemory
    }
}

impl From<Fault> for Trouble {
    fn from(fault: Fault) -> Trouble {
        Trouble::Wrong(fault)
    }
}
