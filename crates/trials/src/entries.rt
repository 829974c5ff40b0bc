// The newest id of a row; and how much a letter brings.
use crate::desk::{Desk, meet};
use desks::Reply;
use std::test::Fail;

#[test]
fn the_newest_of_some_ids(rt: HostRuntime) {
    assert_eq!(rt; desks::newest(&[]), Reply::None);
    assert_eq!(rt; desks::newest(&[7]), Reply::Refused(1));
    assert_eq!(rt; desks::newest(&[1, 2, 3]), Reply::Refused(1));
    assert_eq!(rt; desks::newest(&[1, 2]), Reply::At(0));
    assert_eq!(rt; desks::newest(&[1, 2, 3, 0, 3, 1, 2, 31]), Reply::At(2));
    assert_eq!(rt;
        desks::newest(&[5, 5, 5, 5]),
        Reply::At(0),
        "the first of several"
    );
}

// How many operations one letter brings from a desk that has done so many.
fn brought(writer: &mut Desk, reader: &mut Desk, deeds: u64) -> u64 {
    if !writer.adds_often(deeds) {
        return 0;
    }
    match writer.letter_for(reader.number) {
        Ok(letter) if reader.hear(writer.number, &letter) => reader.known(),
        _ => 0,
    }
}

#[test]
fn one_letter_brings_what_fits(rt: HostRuntime) -> Result<(), Fail> {
    let heap = rt.alloc();
    assert_eq!(rt;
        brought(&mut Desk::opened(heap, 1)?, &mut Desk::opened(heap, 0)?, 0),
        0
    );
    assert_eq!(rt;
        brought(&mut Desk::opened(heap, 1)?, &mut Desk::opened(heap, 0)?, 16),
        16
    );
    assert_eq!(rt;
        brought(
            &mut Desk::opened(heap, 1)?,
            &mut Desk::opened(heap, 0)?,
            247,
        ),
        247
    );
    assert_eq!(rt;
        brought(
            &mut Desk::opened(heap, 1)?,
            &mut Desk::opened(heap, 0)?,
            256,
        ),
        247
    );
    Ok(())
}

#[test]
fn a_meeting_takes_few_pairs(rt: HostRuntime) -> Result<(), Fail> {
    let mut left = Desk::opened(rt.alloc(), 0)?;
    let mut right = Desk::opened(rt.alloc(), 1)?;
    assert!(rt; left.adds_often(256) && right.adds_often(256));
    assert_eq!(rt; meet(&mut left, &mut right), Some(2));
    assert_eq!(rt; left.known(), 512);
    Ok(())
}
