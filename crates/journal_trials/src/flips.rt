// Bits that are flipped in one byte after the other, and flipped back.

// At how many bytes in a row flipped bits are seen as they should be.
pub fn good_flips<F: Fn(&[u8], usize) -> bool>(bytes: &mut [u8], bits: u8, is_seen: F) -> usize
    requires { F.IsAlwaysCallable is_seen }
{
    for i in 0..bytes.len() {
        bytes[i] ^= bits;
        if !is_seen(bytes, i) {
            return i;
        }
        bytes[i] ^= bits;
    }
    bytes.len()
}
