// Why the program ends early.
use std::alloc::{AllocError, AllocFailed};
use std::{fmt, io};

#[derive(Debug, Drop)]
pub enum Trouble {
    BadOptions,
    Differs,
    NoMemory,
    Io(io::Error),
}

impl fmt::Display for Trouble {
    fn fmt<W: fmt::Write>(&self, f: &mut fmt::Formatter<W>) -> fmt::Result {
        match self {
            Trouble::BadOptions => f.write_str("cannot read the options"),
            Trouble::Differs => f.write_str("there is a difference"),
            Trouble::NoMemory => f.write_str("out of memory"),
            Trouble::Io(e) => write!(f, "{e}"),
        }
    }
}

impl From<AllocError> for Trouble {
    fn from(_e: AllocError) -> Trouble {
        Trouble::NoMemory
    }
}

impl<T: Drop> From<AllocFailed<T>> for Trouble {
    fn from(_e: AllocFailed<T>) -> Trouble {
        Trouble::NoMemory
    }
}

impl From<io::Error> for Trouble {
    fn from(e: io::Error) -> Trouble {
        Trouble::Io(e)
    }
}
