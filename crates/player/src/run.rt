// A session file, from its first line to its last.
use stages::{Said, Stage};
use std::{fs, io};

// Plays a line of a file on a stage, and says what comes of it; whether it went well.
fn play_line(
    rt: &HostRuntime,
    stage: &mut Stage,
    name: &str,
    number: u64,
    line: &str,
) -> io::Result<bool> {
    match stage.line(line) {
        Ok(Said::Nothing) => Ok(true),
        Ok(Said::Shows { desk, text }) => {
            println!(rt; "{desk}: {text}")?;
            Ok(true)
        }
        Ok(Said::Differs { desk, text }) => {
            eprintln!(rt; "{name}, line {number}: desk {desk} shows {text:?}: {line:?}")?;
            Ok(false)
        }
        Err(trouble) => {
            eprintln!(rt; "{name}, line {number}: {trouble}: {line:?}")?;
            Ok(false)
        }
    }
}

// Plays a file to its end, whatever goes wrong; whether each line went well.
fn play_lines(rt: &HostRuntime, stage: &mut Stage, name: &str, text: &str) -> io::Result<bool> {
    let mut well = true;
    for (i, line) in text.lines().enumerate() {
        let number = (i as u64).saturating_add(1);
        well &= play_line(rt, stage, name, number, line)?;
    }
    Ok(well)
}

fn failed() -> io::Error {
    io::Error::from(io::ErrorKind::Other)
}

fn ended(well: bool) -> io::Result<()> {
    well.then_some(()).ok_or_else(failed)
}

fn read(rt: &HostRuntime, name: &str) -> io::Result<String> {
    fs::read_to_string(rt, name).or_else(|e| {
        eprintln!(rt; "{name}: cannot be read ({e})")?;
        Err(e)
    })
}

fn new_stage(rt: &HostRuntime) -> io::Result<Stage> {
    Stage::new(rt.alloc()).or_else(|trouble| {
        eprintln!(rt; "no session: {trouble}")?;
        Err(failed())
    })
}

// One session after another; where there are several, each under its name.
pub fn play_all(rt: &HostRuntime, sessions: &[String]) -> io::Result<()> {
    let mut well = true;
    for name in sessions {
        if sessions.len() > 1 {
            println!(rt; "{name}")?;
        }
        let text = read(rt, name.as_str())?;
        let mut stage = new_stage(rt)?;
        well &= play_lines(rt, &mut stage, name.as_str(), text.as_str())?;
    }
    ended(well)
}

// A session, and its picture.
pub fn draw(rt: &HostRuntime, session: &str, picture: &str) -> io::Result<()> {
    let text = read(rt, session)?;
    let mut stage = new_stage(rt)?;
    let well = play_lines(rt, &mut stage, session, text.as_str())?;
    let svg = pictures::draw(rt.alloc(), stage.events())?;
    files::write_whole(rt, picture, svg.as_bytes()).or_else(|e| {
        eprintln!(rt; "{picture}: cannot be written ({e})")?;
        Err(e)
    })?;
    ended(well)
}
