// A day as lines of a session, which another program can play again.
use papers::Command;
use std::alloc::{AllocError, Global};
use std::fmt;
use witnesses::Sight;

#[derive(Clone, Copy)]
pub enum Line {
    Does { desk: u64, command: Command },
    ShowsText { desk: u64 },
    ShowsKey { desk: u64, key: u64 },
    // What the paper says that the desk should have answered last.
    Expects { desk: u64, sight: Sight },
    Sends { desk: u64, to: u64, letter: u64 },
    Reads { desk: u64, from: u64, letter: u64 },
    Meets { one: u64, other: u64 },
}

// The first line: the format's version.
const HEAD: &str = "session 1\n";

fn write_command<W: fmt::Write>(
    f: &mut fmt::Formatter<W>,
    desk: u64,
    command: &Command,
) -> fmt::Result {
    match command {
        Command::Insert { place, sign } => write!(f, "{desk} i {place} #{sign}"),
        Command::Strike { place } => write!(f, "{desk} s {place}"),
        Command::Write { key, word } => write!(f, "{desk} w {key} {word}"),
        Command::Add { key, amount } => write!(f, "{desk} a {key} {amount}"),
    }
}

impl fmt::Display for Line {
    fn fmt<W: fmt::Write>(&self, f: &mut fmt::Formatter<W>) -> fmt::Result {
        match self {
            Line::Does { desk, command } => write_command(f, *desk, command),
            Line::ShowsText { desk } => write!(f, "{desk} t"),
            Line::ShowsKey { desk, key } => write!(f, "{desk} k {key}"),
            Line::Expects { desk, sight } => write!(f, "expect {desk} {sight}"),
            Line::Sends { desk, to, letter } => write!(f, "{desk} send {to} l{letter}"),
            Line::Reads { desk, from, letter } => write!(f, "{desk} read {from} l{letter}"),
            Line::Meets { one, other } => write!(f, "meet {one} {other}"),
        }
    }
}

// The lines as a text.
pub fn session(heap: Global, lines: &[Line]) -> Result<String, AllocError> {
    let mut text = String::from_str(heap, HEAD)?;
    for line in lines {
        let line = format!(in heap; "{line}\n")?;
        text.push_str(line.as_str())?;
    }
    Ok(text)
}
