// `player SESSION..` plays session files, each on a room of its own, and prints what desks show. `player SESSION --svg FILE` draws one, too.
//
// A line that cannot be played, and an expectation that fails, is said on standard error with its line; the program then ends with status 1.
#![tactic(auto)]

use std::{env, io};

mod options;
mod run;

use options::Options;

const USAGE: &str =
    "usage: player SESSION.. | player SESSION --svg FILE | player --help | player --version";

const HELP: &str = "Plays session files, each on a room of its own, and prints what desks show.

A session has one line for each thing that happens:
    session 1            the version, first of all
    DESK COMMAND         a command at a desk: w KEY WORD, a KEY AMOUNT, k KEY, i PLACE SIGN, s PLACE, t,
                         send DESK NAME (a letter of the session), read DESK NAME
    meet DESK DESK       two desks send letters to and fro until both know the same
    expect DESK TEXT     what the desk has to have shown last
    # ..                 nothing

--svg FILE draws the session: a line for each desk, a dot for each deed, an arrow for each letter that came, a cross for each that didn't.
The status is 1 if an expectation fails or a line cannot be played.";

const VERSION: &str = "player 0.3.0 (letters 1, sessions 1)";

fn main(rt: HostRuntime) -> io::Result<()> {
    let words: Vec<String> = env::args(&rt)?.skip(1).collect(rt.alloc())?;
    match options::parse(words.as_slice()) {
        Some(Options::Help) => println!(rt; "{USAGE}\n\n{HELP}"),
        Some(Options::Version) => println!(rt; "{VERSION}"),
        Some(Options::Play(sessions)) => run::play_all(&rt, sessions),
        Some(Options::Draw { session, picture }) => run::draw(&rt, session, picture),
        None => {
            eprintln!(rt; "{USAGE}")?;
            Err(io::Error::from(io::ErrorKind::InvalidInput))
        }
    }
}
