// The days that are asked for, or the standard day.
use crate::trouble::Trouble;
use days::{BenchDay, Day, Difference, Options, Summary};
use std::time::Instant;

// How often it is told how far the run is.
const TENTHS: u64 = 10;

// Plays all days, up to the first difference, and prints a summary.
pub fn days(rt: &HostRuntime, options: Options) -> Result<(), Trouble> {
    let mut summary = Summary::nothing();
    let step = (options.days / TENTHS).max(1);
    for number in 0..options.days {
        let mut day = Day::new(rt.alloc(), options, number)?;
        let difference = day.run()?;
        summary = summary.and(day.summary());
        if let Some(difference) = difference {
            print_summary(rt, summary)?;
            return keep(rt, options.seed, &day, difference);
        }
        if (number + 1) % step == 0 {
            let days = options.days;
            let done = number + 1;
            eprintln!(rt; "{done} of {days} days")?;
        }
    }
    print_summary(rt, summary)
}

fn print_summary(rt: &HostRuntime, summary: Summary) -> Result<(), Trouble> {
    println!(rt; "days: {}", summary.days)?;
    println!(rt; "events: {}", summary.events)?;
    println!(rt; "deeds: {}", summary.deeds)?;
    println!(rt; "refused: {}", summary.refused)?;
    println!(rt; "letters made: {}", summary.letters_made)?;
    println!(rt; "letters come: {}", summary.letters_come)?;
    println!(rt; "letters lost: {}", summary.letters_lost)?;
    println!(rt; "letters doubled: {}", summary.letters_doubled)?;
    println!(rt; "bytes of letters: {}", summary.letter_bytes)?;
    println!(rt; "meetings: {}", summary.meetings)?;
    println!(rt; "bytes of meetings: {}", summary.meeting_bytes)?;
    println!(rt; "compared: {}", summary.compared)?;
    println!(rt; "differences: {}", summary.differences)?;
    Ok(())
}

// Writes a day with a difference to a file that can be played again.
fn keep(rt: &HostRuntime, seed: u64, day: &Day, difference: Difference) -> Result<(), Trouble> {
    let number = difference.day;
    let name = format!(in rt.alloc(); "difference-{seed}-{number}.session")?;
    let text = day.session()?;
    files::write_whole(rt, name.as_str(), text.as_bytes())?;
    eprintln!(rt; "seed {seed}, {difference}; the day is kept in {name}")?;
    Err(Trouble::Differs)
}

// Plays the standard day, and prints how long it took.
pub fn bench(rt: &HostRuntime) -> Result<(), Trouble> {
    let mut day = BenchDay::new(rt.alloc())?;
    let start = Instant::now(rt)?;
    let done = day.run()?;
    let time = start.elapsed(rt)?;
    let seconds = time.as_secs();
    let micros = time.subsec_micros();
    println!(rt;
        "{{\"desks\":{},\"deeds\":{},\"seconds\":{seconds}.{micros:06},\"operations\":{},\"letters\":{},\"bytes\":{}}}",
        done.desks, done.deeds, done.operations, done.letters, done.bytes
    )?;
    Ok(())
}
