// Random days at a few desks, each compared with the second paper and with plain desks: `tester --days 1000`.
#![tactic(auto)]

mod runs;
mod trouble;

use days::Asked;
use std::env;
use trouble::Trouble;

const USAGE: &str = "\
usage: tester [--days N] [--desks N] [--deeds N] [--seed N] [--lose P] [--twice P] [--late P]
       tester --bench | --help | --version

  --days N    how many days are played (100)
  --desks N   how many desks there are, from 2 to 32 (4)
  --deeds N   commands in a day (40)
  --seed N    the same seed gives the same days (1)
  --lose P    of a hundred letters so many are lost (20)
  --twice P   so many come twice (10)
  --late P    so many come late (30)
  --bench     play the standard day and print how long it took
";

const VERSION: &str = "tester 0.3.0 (letters 1, sessions 1)";

// What is asked for by the words after the program's name.
fn wanted(rt: &HostRuntime) -> Result<Option<Asked>, Trouble> {
    let words: Vec<String> = env::args(rt)?.skip(1).collect(rt.alloc())?;
    Ok(days::asked_for(words.as_slice()))
}

fn obey(rt: &HostRuntime) -> Result<(), Trouble> {
    match wanted(rt)? {
        None => {
            eprint!(rt; "{USAGE}")?;
            Err(Trouble::BadOptions)
        }
        Some(Asked::Help) => Ok(print!(rt; "{USAGE}")?),
        Some(Asked::Version) => Ok(println!(rt; "{VERSION}")?),
        Some(Asked::Bench) => runs::bench(rt),
        Some(Asked::Days(options)) => runs::days(rt, options),
    }
}

fn main(rt: HostRuntime) -> Result<(), Trouble> {
    let done = obey(&rt);
    if let Err(trouble) = &done {
        eprintln!(rt; "tester: {trouble}")?;
    }
    done
}
