// Letters that no desk wrote, and letters damaged on the way: all are refused, and the desk stays as it was.
use crate::desk::{Desk, Kind};
use desks::Refusal;
use plans::Draw;
use std::alloc::{AllocError, Global};
use std::test::Fail;

// How many lengths a letter can have, from 0 to 4,096.
const LENGTHS: usize = 4097;

// The length of a letter with two operations, and of one with as many as a letter can hold.
const SHORT_LETTER: usize = 168;

const FULL_LETTER: usize = 4088;

// How many operations the reader knows before.
const KNOWN: u64 = 20;

fn refuses_letter(desk: &mut Desk, letter: &[u8]) -> bool {
    desk.refuses(Kind::Read, 1, 0, letter, Refusal::Malformed)
}

// How many proper prefixes in a row are refused.
fn refused_prefixes(desk: &mut Desk, letter: &[u8]) -> usize {
    (0..letter.len())
        .take_while(|&n| refuses_letter(desk, &letter[..n]))
        .count()
}

// How many bytes in a row can have some bits flipped, so that the letter is refused.
fn refused_flips(desk: &mut Desk, letter: &mut [u8], bits: u8) -> usize {
    for i in 0..letter.len() {
        letter[i] ^= bits;
        if !refuses_letter(desk, letter) {
            return i;
        }
        letter[i] ^= bits;
    }
    letter.len()
}

// So many bytes that look random.
fn noise(heap: Global, draw: &mut Draw, n: usize) -> Result<Vec<u8>, AllocError> {
    (0..n).map(|_| draw.below(256) as u8).collect(heap)
}

fn refuses_noise(heap: Global, desk: &mut Desk, draw: &mut Draw, n: usize) -> bool {
    noise(heap, draw, n).is_ok_and(|bytes| refuses_letter(desk, &bytes))
}

fn refused_noises(heap: Global, desk: &mut Desk) -> usize {
    let mut draw = Draw::new(7);
    (0..LENGTHS)
        .take_while(|&n| refuses_noise(heap, desk, &mut draw, n))
        .count()
}

// A desk that has something to lose.
fn reader(heap: Global) -> Result<Desk, AllocError> {
    let mut desk = Desk::opened(heap, 0)?;
    desk.adds_often(KNOWN);
    Ok(desk)
}

fn letter_of(heap: Global, deeds: u64) -> Result<Vec<u8>, AllocError> {
    let mut writer = Desk::opened(heap, 1)?;
    writer.adds_often(deeds);
    writer.letter_for(0)
}

#[test]
fn noise_and_zeros(rt: HostRuntime) -> Result<(), Fail> {
    let mut desk = reader(rt.alloc())?;
    assert_eq!(rt; refused_prefixes(&mut desk, &[0; LENGTHS]), LENGTHS);
    assert_eq!(rt; refused_noises(rt.alloc(), &mut desk), LENGTHS);
    Ok(())
}

// Whether each bit flipped in each byte makes the letter one that is refused.
fn refuses_each_bit(desk: &mut Desk, letter: &mut [u8], size: usize) -> bool {
    [1, 2, 4, 8, 16, 32, 64, 128]
        .iter()
        .all(|bits| refused_flips(desk, letter, *bits) == size)
}

#[test]
fn a_short_letter_damaged(rt: HostRuntime) -> Result<(), Fail> {
    let mut desk = reader(rt.alloc())?;
    let mut letter = letter_of(rt.alloc(), 2)?;
    assert_eq!(rt; refused_prefixes(&mut desk, &letter), SHORT_LETTER);
    assert!(rt; refuses_each_bit(&mut desk, &mut letter, SHORT_LETTER));
    assert!(rt; desk.hear(1, &letter));
    assert_eq!(rt; desk.known(), KNOWN + 2);
    Ok(())
}

#[test]
fn a_full_letter_damaged(rt: HostRuntime) -> Result<(), Fail> {
    let mut desk = reader(rt.alloc())?;
    let mut letter = letter_of(rt.alloc(), 250)?;
    assert_eq!(rt; refused_prefixes(&mut desk, &letter), FULL_LETTER);
    assert_eq!(rt; refused_flips(&mut desk, &mut letter, 16), FULL_LETTER);
    assert!(rt; desk.hear(1, &letter));
    assert_eq!(rt; desk.known(), KNOWN + 247);
    Ok(())
}
