// Adler-32, the checksum of RFC 1950.

// The largest prime number below 65,536.
const BASE: u64 = 65521;

// The checksum of all bytes.
pub(crate) fn adler(s: &[u8]) -> u64 {
    let mut sum: u64 = 1;
    let mut sums: u64 = 0;
    for b in s {
        sum = (sum + u64::from(*b)) % BASE;
        sums = (sums + sum) % BASE;
    }
    sums * 65536 + sum
}
