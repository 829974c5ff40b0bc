// What a day says of itself, and that a difference is found where there is one.
use days::{Day, Options};
use papers::{Command, Paper};
use replicas::Deed;
use simulator::{Answer, Item, Room};
use std::alloc::{AllocError, Global};
use std::test::Fail;
use witnesses::{Sight, compare_key};

// Short days, with this rate of loss and none of any other trouble.
fn short(lose: u64) -> Options {
    Options {
        days: 1,
        desks: 3,
        deeds: 10,
        seed: 5,
        lose,
        twice: 0,
        late: 0,
    }
}

fn played(heap: Global, options: Options) -> Result<Day, AllocError> {
    let mut day = Day::new(heap, options, 0)?;
    let _difference = day.run()?;
    Ok(day)
}

#[test]
fn a_day_is_kept_as_a_session(rt: HostRuntime) -> Result<(), Fail> {
    let day = played(rt.alloc(), short(0))?;
    let text = day.session()?;
    assert!(rt; text.as_str().starts_with("session 1\n"));
    Ok(())
}

#[test]
fn no_letter_is_lost(rt: HostRuntime) -> Result<(), Fail> {
    let summary = played(rt.alloc(), short(0))?.summary();
    assert_eq!(rt; summary.letters_lost, 0);
    assert_eq!(rt; summary.letters_come, summary.letters_made);
    assert_eq!(rt; summary.differences, 0);
    assert!(rt; summary.letters_made > 0);
    Ok(())
}

#[test]
fn every_letter_is_lost(rt: HostRuntime) -> Result<(), Fail> {
    let summary = played(rt.alloc(), short(100))?.summary();
    assert_eq!(rt; summary.letters_lost, summary.letters_made);
    assert_eq!(rt; summary.letters_come, 0);
    assert_eq!(rt; summary.differences, 0);
    Ok(())
}

// A desk that has added 5 to key 1, and a paper that has heard of that and of 2 more.
#[test]
fn a_difference_is_found(rt: HostRuntime) -> Result<(), Fail> {
    let heap = rt.alloc();
    let mut room = Room::new(heap)?;
    let mut paper = Paper::new(heap);
    let add = Command::Add { key: 1, amount: 5 };
    let told = simulator::Command::Do(Deed::Add { key: 1, amount: 5 });
    let item = Item::At {
        desk: 0,
        command: told,
    };
    assert_eq!(rt; room.play(heap, item)?, Ok(Answer::Done));
    paper.hear(paper.deed(0, add).map_err(|_refusal| "refused")?)?;
    assert!(rt;
        compare_key(heap, &mut room, 0, &paper, 1)?.is_none(),
        "both know one deed"
    );
    let more = Command::Add { key: 1, amount: 2 };
    paper.hear(paper.deed(0, more).map_err(|_refusal| "refused")?)?;
    let found = compare_key(heap, &mut room, 0, &paper, 1)?.ok_or("no difference")?;
    let expected = Sight::Key {
        word: None,
        tally: 7,
    };
    let shown = Sight::Key {
        word: None,
        tally: 5,
    };
    assert_eq!(rt; found.expected, expected);
    assert_eq!(rt; found.shown, shown);
    Ok(())
}
