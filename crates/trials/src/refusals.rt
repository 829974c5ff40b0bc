// Every refusal, and its number; what is refused changes nothing.
use crate::desk::Kind::{
    Add, GoOn, Insert, NoKind, Open, Read, Send, ShowKey, ShowText, Strike, Write,
};
use crate::desk::{Desk, Kind, MOST_DEEDS};
use crate::seal::forged;
use desks::Refusal::{Closed, Malformed, NoRoom, Unfit, Unknown};
use desks::{MEMORY_SIZE, MOST_BYTES, MOST_SHOWN, Refusal};
use std::alloc::{AllocError, Global};
use std::test::Fail;

// The first number that has more than 32 bits.
const LARGE: u64 = 4_294_967_296;

// What it is told, with which two numbers, and how it is refused.
type Row = (Kind, u64, u64, Refusal);

#[test]
fn the_numbers(rt: HostRuntime) {
    assert_eq!(rt;
        [Unfit, Malformed, Unknown, Closed, NoRoom].map(u64::from),
        [0, 1, 2, 3, 7]
    );
}

// How many rows in a row are refused as they should be.
fn refused(desk: &mut Desk, table: &[Row]) -> usize {
    table
        .iter()
        .position(|(kind, a, b, refusal)| !desk.refuses(*kind, *a, *b, &[], *refusal))
        .unwrap_or(table.len())
}

#[test]
fn before_it_is_open(rt: HostRuntime) -> Result<(), Fail> {
    let mut desk = Desk::closed(rt.alloc(), 0)?;
    let table = [
        (Open, 32, 0, Malformed),
        (Insert, 0, 65, Closed),
        (Strike, 0, 0, Closed),
        (Write, 1, 1, Closed),
        (Write, LARGE, 1, Closed),
        (Add, 1, 1, Closed),
        (ShowText, 0, 0, Closed),
        (ShowKey, 1, 0, Closed),
        (Send, 1, 0, Closed),
        (Send, 32, 0, Closed),
        (Read, 1, 0, Closed),
        (GoOn, 0, 0, Closed),
        (NoKind, 0, 0, Unfit),
    ];
    assert_eq!(rt; refused(&mut desk, &table), 13);
    Ok(())
}

#[test]
fn once_it_is_open(rt: HostRuntime) -> Result<(), Fail> {
    let mut desk = Desk::opened(rt.alloc(), 0)?;
    let table = [
        (Open, 32, 0, Malformed),
        (Open, 0, 0, Closed),
        (Open, 1, 0, Closed),
        (Insert, 0, 65, Unknown),
        (Strike, 0, 0, Unknown),
        (ShowText, 0, 0, Unknown),
        (Write, LARGE, 1, Malformed),
        (Write, 1, LARGE, Malformed),
        (Add, LARGE, 1, Malformed),
        (Add, 1, LARGE, Malformed),
        (ShowKey, LARGE, 0, Malformed),
        (Send, 32, 0, Malformed),
        (Send, 0, 0, Malformed),
        (NoKind, 0, 0, Unfit),
    ];
    assert_eq!(rt; refused(&mut desk, &table), 14);
    Ok(())
}

#[test]
fn after_256_deeds(rt: HostRuntime) -> Result<(), Fail> {
    let mut desk = Desk::opened(rt.alloc(), 0)?;
    assert!(rt; desk.adds_often(MOST_DEEDS));
    assert_eq!(rt;
        refused(
            &mut desk,
            &[
                (Add, 1, 1, NoRoom),
                (Write, 1, 1, NoRoom),
                (Write, LARGE, 1, Malformed),
                (Insert, 0, 65, Unknown),
            ],
        ),
        4
    );
    Ok(())
}

// Whether all is refused where what is lent has such sizes.
fn is_unfit(heap: Global, cells: usize, shown: usize, bytes: usize) -> bool {
    let Ok(mut desk) = Desk::sized(heap, 0, cells, shown, bytes) else {
        return false;
    };
    refused(
        &mut desk,
        &[
            (Open, 0, 0, Unfit),
            (Open, 32, 0, Unfit),
            (Write, 1, 1, Unfit),
            (Send, 1, 0, Unfit),
            (GoOn, 0, 0, Unfit),
        ],
    ) == 5
}

#[test]
fn what_is_lent_does_not_fit(rt: HostRuntime) {
    assert!(rt; !is_unfit(rt.alloc(), MEMORY_SIZE, MOST_SHOWN, MOST_BYTES));
    assert!(rt;
        is_unfit(rt.alloc(), MEMORY_SIZE - 1, MOST_SHOWN, MOST_BYTES),
        "the memory is short"
    );
    assert!(rt;
        is_unfit(rt.alloc(), MEMORY_SIZE + 1, MOST_SHOWN, MOST_BYTES),
        "the memory is long"
    );
    assert!(rt;
        is_unfit(rt.alloc(), MEMORY_SIZE, MOST_SHOWN - 1, MOST_BYTES),
        "the row is short"
    );
    assert!(rt;
        is_unfit(rt.alloc(), MEMORY_SIZE, MOST_SHOWN, MOST_BYTES - 1),
        "the buffer for letters is short"
    );
}

#[test]
fn a_letter_that_is_too_long(rt: HostRuntime) -> Result<(), Fail> {
    let mut desk = Desk::opened(rt.alloc(), 0)?;
    assert!(rt; desk.refuses(Read, 1, 0, &[1; 4097], Unfit));
    Ok(())
}

// A letter from desk 1 for desk 0, as if from others.
fn refuses_peers(desk: &mut Desk, letter: &[u8]) -> bool {
    desk.refuses(Read, 0, 0, letter, Malformed)
        && desk.refuses(Read, 2, 0, letter, Malformed)
        && desk.refuses(Read, 32, 0, letter, Malformed)
}

// The letter with another byte at a place, sealed anew.
fn refuses_forgery(heap: Global, desk: &mut Desk, letter: &[u8], place: usize, byte: u8) -> bool {
    forged(heap, letter, place, byte).is_ok_and(|bytes| desk.refuses(Read, 1, 0, &bytes, Malformed))
}

// How many forgeries in a row are refused.
fn refused_forgeries(
    heap: Global,
    desk: &mut Desk,
    letter: &[u8],
    forgeries: &[(usize, u8)],
) -> usize {
    forgeries
        .iter()
        .position(|(place, byte)| !refuses_forgery(heap, desk, letter, *place, *byte))
        .unwrap_or(forgeries.len())
}

// A letter from desk 1 for desk 0, with one operation.
fn letter_of_one(heap: Global) -> Result<Vec<u8>, AllocError> {
    let mut writer = Desk::opened(heap, 1)?;
    writer.deed(Write, 1, 5);
    writer.letter_for(0)
}

#[test]
fn letters_that_are_none(rt: HostRuntime) -> Result<(), Fail> {
    let letter = letter_of_one(rt.alloc())?;
    let mut desk = Desk::opened(rt.alloc(), 0)?;
    assert!(rt; refuses_peers(&mut desk, &letter));
    // The version, the writer, the reader, the count; of the record the desk, the kind and the sign's desk.
    let forgeries = [
        (0, 0),
        (0, 2),
        (1, 2),
        (2, 1),
        (2, 2),
        (3, 0),
        (3, 2),
        (136, 32),
        (137, 4),
        (138, 32),
    ];
    assert_eq!(rt;
        refused_forgeries(rt.alloc(), &mut desk, &letter, &forgeries),
        10
    );
    Ok(())
}

// A forgery of the word is read, so those above aren't refused for their seal.
#[test]
fn a_forgery_of_the_word_is_read(rt: HostRuntime) -> Result<(), Fail> {
    let letter = letter_of_one(rt.alloc())?;
    let mut desk = Desk::opened(rt.alloc(), 0)?;
    let bytes = forged(rt.alloc(), &letter, 144, 6)?;
    assert!(rt; desk.hear(1, &bytes));
    assert_eq!(rt; desk.key(1), Some((Some(6), 0)));
    Ok(())
}
