// The steps of a trial, and how one is taken.
use crate::desk::Desk;
use papers::{Command, Refusal};
use std::alloc::{AllocError, Global};

#[derive(Clone, Copy)]
pub enum Step {
    // A desk does a command, and is answered so.
    Does(usize, Command, Result<(), Refusal>),
    // One desk tells another all that it knows.
    Tells(usize, usize),
    Shows(usize, &'static str),
    // Under a key a desk has this word and this tally.
    Keeps(usize, u64, Option<u64>, u128),
}

fn take(heap: Global, desks: &mut [Desk], step: Step) -> Result<bool, AllocError> {
    match step {
        Step::Does(desk, command, answer) => match desks.get_mut(desk) {
            Some(desk) => desk.does(heap, command, answer),
            None => Ok(false),
        },
        Step::Tells(from, to) => {
            let Some(teller) = desks.get(from) else {
                return Ok(false);
            };
            let letter = teller.letter(heap)?;
            match desks.get_mut(to) {
                Some(desk) => desk.hears(&letter),
                None => Ok(false),
            }
        }
        Step::Shows(desk, text) => match desks.get(desk) {
            Some(desk) => desk.shows(heap, text),
            None => Ok(false),
        },
        Step::Keeps(desk, key, word, tally) => {
            Ok(
                desks
                    .get(desk)
                    .is_some_and(|desk| desk.keeps(key, word, tally)),
            )
        }
    }
}

// How many steps went as they say, before the first that did not; on four new desks.
pub fn good_steps(heap: Global, steps: &[Step]) -> Result<usize, AllocError> {
    let mut desks = [
        Desk::new(heap, 0),
        Desk::new(heap, 1),
        Desk::new(heap, 2),
        Desk::new(heap, 3),
    ];
    for (i, step) in steps.iter().enumerate() {
        if !take(heap, &mut desks, *step)? {
            return Ok(i);
        }
    }
    Ok(steps.len())
}
