// Numbers among bytes, the lowest byte first, and checksums.
ghost use Rattle.std.specs.Prelude.{◌≡◌, ◌+◌, ◌≤◌, length, take, drop};
ghost use Rattle.journals.specs.Bytes.{number_at, is_sealed};

use checksums::crc32;

// So many bytes from a place on.
fn bytes_at<const N: usize>(bytes: &[u8], place: usize) -> [u8; N]
    requires { place + N ≤ length bytes.now }
    ensures { result ≡ take N (drop place bytes.now) }
{
    let mut found = [0; N];
    found.copy_from_slice(&bytes[place..place + N]);
    found
}

#[tactic(auto, using(crate::proofs::LittleEndian::two_at))]
pub fn u16_at(bytes: &[u8], place: usize) -> u16
    requires { place + 2 ≤ length bytes.now }
    ensures { result ≡ number_at 2 place bytes.now }
{
    u16::from_le_bytes(bytes_at(bytes, place))
}

#[tactic(auto, using(crate::proofs::LittleEndian::four_at))]
pub fn u32_at(bytes: &[u8], place: usize) -> u32
    requires { place + 4 ≤ length bytes.now }
    ensures { result ≡ number_at 4 place bytes.now }
{
    u32::from_le_bytes(bytes_at(bytes, place))
}

#[tactic(auto, using(crate::proofs::LittleEndian::eight_at))]
pub fn u64_at(bytes: &[u8], place: usize) -> u64
    requires { place + 8 ≤ length bytes.now }
    ensures { result ≡ number_at 8 place bytes.now }
{
    u64::from_le_bytes(bytes_at(bytes, place))
}

// Whether the CRC of the first `n` bytes stands behind them.
#[tactic(auto, unfolding(crate::specs::Bytes::is_sealed))]
pub fn is_sealed(bytes: &[u8], n: usize) -> bool
    requires { n + 4 ≤ length bytes.now }
    ensures { result ≡ is_sealed n bytes.now }
{
    u32_at(bytes, n) == crc32(&bytes[..n])
}
