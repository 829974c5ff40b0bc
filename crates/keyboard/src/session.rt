// Lines from standard input, and an answer to each.
use crate::trouble::Trouble;
use commands::Command;
use desks::MOST_BYTES;
use replicas::{Deed, Replica};
use std::{fs, io};

// One byte more than a letter has at most, so that a longer file is seen to be one.
const LETTER_READ: u64 = MOST_BYTES as u64 + 1;

pub fn run(rt: &HostRuntime, replica: &mut Replica) -> io::Result<()> {
    for (i, line) in rt.lines(rt.alloc()).enumerate() {
        let number = i.saturating_add(1);
        match line {
            Ok(line) => answer(rt, replica, number, line.as_str())?,
            Err(e) if e.kind() == io::ErrorKind::InvalidData => eprintln!(rt;
                "line {number}: not UTF-8"
            )?,
            Err(e) => return Err(e),
        }
    }
    Ok(())
}

// Obeys one line, and prints its answer.
fn answer(rt: &HostRuntime, replica: &mut Replica, number: usize, line: &str) -> io::Result<()> {
    match obey(rt, replica, line) {
        Ok(Some(text)) => println!(rt; "{text}"),
        Ok(None) => Ok(()),
        Err(Trouble::Refused(refusal)) => println!(rt; "refused {refusal}"),
        Err(trouble) => eprintln!(rt; "line {number}: {trouble}: {line:?}"),
    }
}

// What a line has the machine do, and what is to be printed of it.
fn obey(rt: &HostRuntime, replica: &mut Replica, line: &str) -> Result<Option<String>, Trouble> {
    let Some(command) = commands::parse(line)? else {
        return Ok(None);
    };
    match command {
        Command::Insert { place, sign } => replica.does(Deed::Insert { place, sign })?,
        Command::Strike { place } => replica.does(Deed::Strike { place })?,
        Command::Write { key, word } => replica.does(Deed::Write { key, word })?,
        Command::Add { key, amount } => replica.does(Deed::Add { key, amount })?,
        Command::ShowText => replica.text()?,
        Command::ShowKey { key } => {
            let shown = replica.key(key)?;
            let text = answers::key_answer(rt.alloc(), shown.word, shown.tally)?;
            return Ok(Some(text));
        }
        Command::Send { desk, file } => send(rt, replica, desk, file)?,
        Command::Read { desk, file } => {
            let letter = files::read_up_to(rt, file, LETTER_READ).map_err(Trouble::CannotRead)?;
            replica.hear(desk, letter.as_slice())?;
        }
    }
    Ok(None)
}

// Makes a letter for a desk, and writes it to a file.
fn send(rt: &HostRuntime, replica: &mut Replica, desk: u64, file: &str) -> Result<(), Trouble> {
    let mut bytes = [0; MOST_BYTES];
    let size = replica.letter(desk, &mut bytes)?;
    fs::write(rt, file, &bytes[..size]).map_err(Trouble::CannotWrite)
}
