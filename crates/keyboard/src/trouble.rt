// Why a line is not obeyed.
use commands::Fault;
use desks::Refusal;
use std::alloc::AllocError;
use std::{fmt, io};

#[derive(Drop)]
pub enum Trouble {
    // The machine says no.
    Refused(Refusal),
    // The line is no command.
    Wrong(Fault),
    CannotRead(io::Error),
    CannotWrite(io::Error),
    NoMemory,
}

impl fmt::Display for Trouble {
    fn fmt<W: fmt::Write>(&self, f: &mut fmt::Formatter<W>) -> fmt::Result {
        match self {
            Trouble::Refused(refusal) => write!(f, "refused {refusal}"),
            Trouble::Wrong(fault) => write!(f, "{fault}"),
            Trouble::CannotRead(e) => write!(f, "cannot read the file ({e})"),
            Trouble::CannotWrite(e) => write!(f, "cannot write the file ({e})"),
            Trouble::NoMemory => f.write_str("out of memory"),
        }
    }
}

impl From<AllocError> for Trouble {
    fn from(_e: AllocError) -> Trouble {
        Trouble::NoMemory
    }
}

impl From<Fault> for Trouble {
    fn from(fault: Fault) -> Trouble {
        Trouble::Wrong(fault)
    }
}

impl From<Refusal> for Trouble {
    fn from(refusal: Refusal) -> Trouble {
        Trouble::Refused(refusal)
    }
}
