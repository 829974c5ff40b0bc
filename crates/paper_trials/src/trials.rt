// The trials, and the numbers of refusals.
use crate::desk::Desk;
use crate::steps::Step::{Does, Keeps, Shows, Tells};
use crate::steps::{Step, good_steps};
use papers::Command::{Add, Insert, Strike, Write};
use papers::Refusal::{NoNumber, NoSuchPlace, TooMany};
use std::test::Fail;

const F: u64 = b'f' as u64;

const G: u64 = b'g' as u64;

const I: u64 = b'i' as u64;

const O: u64 = b'o' as u64;

const X: u64 = b'x' as u64;

const BANG: u64 = b'!' as u64;

// Three desks at one page.
const PAGE: [Step; 26] = [
    Does(0, Insert { place: 0, sign: F }, Ok(())),
    Does(0, Insert { place: 1, sign: G }, Ok(())),
    Tells(0, 1),
    Tells(0, 2),
    Does(0, Insert { place: 1, sign: O }, Ok(())),
    Does(1, Insert { place: 1, sign: I }, Ok(())),
    Does(2, Strike { place: 0 }, Ok(())),
    Does(
        2,
        Insert {
            place: 1,
            sign: BANG,
        },
        Ok(()),
    ),
    Shows(0, "fog"),
    Shows(1, "fig"),
    Shows(2, "g!"),
    Tells(0, 1),
    Shows(1, "fiog"),
    Tells(1, 0),
    Tells(2, 0),
    Shows(0, "iog!"),
    Tells(0, 1),
    Tells(0, 2),
    Shows(1, "iog!"),
    Shows(2, "iog!"),
    Does(1, Insert { place: 2, sign: X }, Ok(())),
    Shows(1, "ioxg!"),
    Does(0, Strike { place: 9 }, Err(NoSuchPlace)),
    Does(0, Insert { place: 5, sign: X }, Err(NoSuchPlace)),
    Does(0, Insert { place: 4, sign: X }, Ok(())),
    Shows(0, "iog!x"),
];

const KEYS: [Step; 8] = [
    Does(0, Write { key: 1, word: 7 }, Ok(())),
    Does(2, Write { key: 1, word: 9 }, Ok(())),
    Does(0, Add { key: 1, amount: 3 }, Ok(())),
    Does(2, Add { key: 1, amount: 4 }, Ok(())),
    Tells(2, 0),
    Tells(2, 0),
    Keeps(0, 1, Some(9), 7),
    Keeps(0, 2, None, 0),
];

// Two stretches typed at the same place, heard of in either order.
const STRETCHES: [Step; 14] = [
    Does(0, Insert { place: 0, sign: F }, Ok(())),
    Does(0, Insert { place: 1, sign: G }, Ok(())),
    Does(1, Insert { place: 0, sign: O }, Ok(())),
    Does(1, Insert { place: 1, sign: X }, Ok(())),
    Does(1, Insert { place: 2, sign: I }, Ok(())),
    Tells(1, 2),
    Tells(0, 2),
    Tells(1, 0),
    Shows(2, "oxifg"),
    Shows(0, "oxifg"),
    Does(2, Strike { place: 2 }, Ok(())),
    Does(
        2,
        Insert {
            place: 2,
            sign: BANG,
        },
        Ok(()),
    ),
    Tells(2, 0),
    Shows(0, "ox!fg"),
];

#[test]
fn the_page(rt: HostRuntime) -> Result<(), Fail> {
    assert_eq!(rt; good_steps(rt.alloc(), &PAGE)?, 26);
    Ok(())
}

#[test]
fn the_keys(rt: HostRuntime) -> Result<(), Fail> {
    assert_eq!(rt; good_steps(rt.alloc(), &KEYS)?, 8);
    Ok(())
}

#[test]
fn stretches_stay_whole(rt: HostRuntime) -> Result<(), Fail> {
    assert_eq!(rt; good_steps(rt.alloc(), &STRETCHES)?, 14);
    Ok(())
}

#[test]
fn the_numbers_of_refusals(rt: HostRuntime) {
    assert_eq!(rt; [NoSuchPlace, TooMany, NoNumber].map(u64::from), [4, 7, 8]);
}

// A desk that has done 256 deeds has done too many, but a place that isn't there is refused first.
#[test]
fn a_desk_has_done_enough(rt: HostRuntime) -> Result<(), Fail> {
    let heap = rt.alloc();
    let mut desk = Desk::new(heap, 3);
    for amount in 0..256 {
        assert!(rt; desk.does(heap, Add { key: 0, amount }, Ok(()))?);
    }
    assert!(rt; desk.does(heap, Write { key: 0, word: 1 }, Err(TooMany))?);
    assert!(rt; desk.does(heap, Insert { place: 0, sign: F }, Err(TooMany))?);
    assert!(rt; desk.does(heap, Strike { place: 0 }, Err(NoSuchPlace))?);
    Ok(())
}
