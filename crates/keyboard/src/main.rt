// A desk at the keyboard: `keyboard DESK` reads commands from standard input, one to a line, and tells them to its machine. It prints what the
// machine shows or refuses, each answer before the next line is read. A line that cannot be obeyed is told on standard error, and changes nothing.
#![tactic(auto)]

use desks::DESKS;
use replicas::{Fault, Replica};
use std::{env, io};

mod session;
mod trouble;

// The desk that the program is given as its only argument.
fn given_desk(rt: &HostRuntime) -> Option<u64> {
    let mut words = env::args(rt).ok()?;
    let _program = words.next();
    let word = words.next()?;
    if words.next().is_some() {
        return None;
    }
    commands::number(word.as_bytes()).filter(|desk| *desk < DESKS)
}

fn main(rt: HostRuntime) -> io::Result<()> {
    let Some(desk) = given_desk(&rt) else {
        eprintln!(rt; "usage: keyboard DESK, where DESK is a number below {DESKS}")?;
        return Err(io::Error::from(io::ErrorKind::InvalidInput));
    };
    match Replica::opened(rt.alloc(), desk) {
        Ok(mut replica) => session::run(&rt, &mut replica),
        Err(Fault::NoMemory) => Err(io::Error::from(io::ErrorKind::OutOfMemory)),
        Err(Fault::Refused(refusal)) => {
            eprintln!(rt; "desk {desk} does not open: refused {refusal}")?;
            Err(io::Error::from(io::ErrorKind::Other))
        }
    }
}
