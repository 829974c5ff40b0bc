// 32 desks that each do all they may, until all know everything.
use crate::desk::{Desk, Kind, MOST_DEEDS, meet};
use std::alloc::{AllocError, Global};
use std::test::Fail;

// How many desks there are, and how many operations they do in all: the test's own figures.
const DESKS: u64 = 32;

const CAPACITY: u64 = 8192;

// Deeds on four keys in turn, four words and four amounts by turns.
fn do_all(desk: &mut Desk) {
    for i in 0..MOST_DEEDS {
        let kind = if i / 4 % 2 == 0 {
            Kind::Write
        } else {
            Kind::Add
        };
        desk.deed(kind, i % 4, desk.number.wrapping_add(i));
    }
}

fn busy_desk(heap: Global, number: u64) -> Result<Desk, AllocError> {
    let mut desk = Desk::opened(heap, number)?;
    do_all(&mut desk);
    Ok(desk)
}

// All desks but the first.
fn add_desks(heap: Global, desks: &mut Vec<Desk>) -> Result<(), AllocError> {
    for number in 1..DESKS {
        desks.push(busy_desk(heap, number)?)?;
    }
    Ok(())
}

fn meets_each(hub: &mut Desk, desks: &mut [Desk]) -> bool {
    desks.iter_mut().all(|desk| meet(hub, desk).is_some())
}

// The last word under the key k is deed 248 + k of desk 31. Of its tally each desk d added d + k and 4, 12, .., 252, in 32 deeds.
fn shows_all(desk: &mut Desk) -> bool {
    let shows = (0..4).all(|key| desk.key(key) == Some((Some(279 + key), 146_944 + 1024 * key)));
    shows && desk.known() == CAPACITY
}

fn each_shows_all(desks: &mut [Desk]) -> bool {
    desks.iter_mut().all(shows_all)
}

#[test]
fn all_know_all_8192_operations(rt: HostRuntime) -> Result<(), Fail> {
    let mut hub = busy_desk(rt.alloc(), 0)?;
    let mut desks = Vec::new(rt.alloc());
    add_desks(rt.alloc(), &mut desks)?;
    assert!(rt;
        meets_each(&mut hub, &mut desks) && shows_all(&mut hub),
        "the first desk meets each"
    );
    assert!(rt; !each_shows_all(&mut desks), "the others know all already");
    assert!(rt;
        meets_each(&mut hub, &mut desks) && each_shows_all(&mut desks),
        "they meet again"
    );
    Ok(())
}
