// The last four bytes of a letter, the CRC-32 of all bytes before, computed bit by bit: so that a test can change a letter and seal it anew.
use std::alloc::{AllocError, Global};

const POLYNOMIAL: u32 = 0xEDB8_8320;

const SEAL_SIZE: usize = 4;

fn next_bit(sum: u32) -> u32 {
    if sum % 2 == 1 {
        (sum >> 1) ^ POLYNOMIAL
    } else {
        sum >> 1
    }
}

fn next_byte(sum: u32, byte: u8) -> u32 {
    (0..8).fold(sum ^ u32::from(byte), |sum, _| next_bit(sum))
}

fn crc_of(bytes: &[u8]) -> u32 {
    !bytes
        .iter()
        .fold(u32::MAX, |sum, byte| next_byte(sum, *byte))
}

// A letter with another byte at a place, sealed anew.
pub fn forged(heap: Global, letter: &[u8], place: usize, byte: u8) -> Result<Vec<u8>, AllocError> {
    let end = letter.len().saturating_sub(SEAL_SIZE);
    let mut bytes = Vec::from_slice(heap, &letter[0..end])?;
    if place < bytes.len() {
        bytes[place] = byte;
    }
    let seal = crc_of(&bytes).to_le_bytes();
    bytes.extend_from_slice(&seal)?;
    Ok(bytes)
}
