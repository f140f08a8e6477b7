// Bytes and slices of them: classes, comparison, search, parts, numbers as bytes.
#![tactic(auto)]

ghost use Rattle.std.specs.Prelude.{◌≡◌, ◌≤◌, ◌+◌, ℕ, eqb, length, take, drop};
ghost use Rattle.frame.specs.Every.{within};
ghost use Rattle.text.specs.Class.{belongs_to, is_word_byte, is_record_byte, is_text_byte, is_zero};
ghost use Rattle.text.specs.Bytes.{all as all_of, same as same_bytes, position_of};
ghost use Rattle.text.specs.Part.{Lies, rest_start};
ghost use Rattle.text.specs.Number.{big_endian, number_at, number_put};

// The bytes that are tested for zeros at once: a loop over a count that is known is compiled to wide steps.
const ZERO_BLOCK: usize = 1024;

// A class of bytes.
#[derive(Clone, Copy)]
pub enum Class {
    Digit,
    Capital,
    CapitalOrDigit,
    WordByte,
    RecordByte,
    AboveApostrophe,
    BodyByte,
    Space,
    Zero,
    TextByte,
}

// A number of a fixed count of bytes, the lowest first.
pub trait Word: Copy {
    ghost SIZE: { ℕ };

    ghost number: { Self → ℕ };

    // The number in the first bytes of s; 0 where they are not all there.
    fn read_first(s: &[u8]) -> Self
        ensures { number result ≡ number_at SIZE 0 s.now };

    // Writes it into the first bytes of s; nothing where they are not all there.
    fn write_first(self, s: &mut [u8])
        ensures { s.new ≡ number_put SIZE 0 (number self) s.old };
}

// As it is: two methods for each width, since each calls its own type's functions, and an impl that a macro writes is refused.
impl Word for u16 {
    ghost SIZE = { 2 };

    ghost number = { λ x. x };

    fn read_first(s: &[u8]) -> u16 {
        match s.first_chunk::<2>() {
            Some(w) => u16::from_le_bytes(*w),
            None => 0,
        }
    }

    fn write_first(self, s: &mut [u8]) {
        if let Some(w) = s.first_chunk_mut::<2>() {
            *w = u16::to_le_bytes(self);
        }
    }
}

impl Word for u32 {
    ghost SIZE = { 4 };

    ghost number = { λ x. x };

    fn read_first(s: &[u8]) -> u32 {
        match s.first_chunk::<4>() {
            Some(w) => u32::from_le_bytes(*w),
            None => 0,
        }
    }

    fn write_first(self, s: &mut [u8]) {
        if let Some(w) = s.first_chunk_mut::<4>() {
            *w = u32::to_le_bytes(self);
        }
    }
}

impl Word for u64 {
    ghost SIZE = { 8 };

    ghost number = { λ x. x };

    fn read_first(s: &[u8]) -> u64 {
        match s.first_chunk::<8>() {
            Some(w) => u64::from_le_bytes(*w),
            None => 0,
        }
    }

    fn write_first(self, s: &mut [u8]) {
        if let Some(w) = s.first_chunk_mut::<8>() {
            *w = u64::to_le_bytes(self);
        }
    }
}

fn is_word_byte(b: u8) -> bool
    ensures { result ≡ is_word_byte b }
{
    (0x20 <= b) & (b <= 0x7e) & !(b == b'+') & !(b == b'\'') & !(b == b':') & !(b == b'?')
}

fn is_record_byte(b: u8) -> bool
    ensures { result ≡ is_record_byte b }
{
    !(b == b'\r') & !(b == b'\n') & !(b == b'\'')
}

fn is_text_byte(b: u8) -> bool
    ensures { result ≡ is_text_byte b }
{
    (0x20 <= b) & (b <= 0x7e) & !(b == b'\'')
}

// Whether the byte b is of the class c.
pub fn belongs(c: Class, b: u8) -> bool
    ensures { result ≡ belongs_to c b }
{
    match c {
        Class::Digit => b.is_ascii_digit(),
        Class::Capital => b.is_ascii_uppercase(),
        Class::CapitalOrDigit => b.is_ascii_uppercase() | b.is_ascii_digit(),
        Class::WordByte => is_word_byte(b),
        Class::RecordByte => is_record_byte(b),
        Class::AboveApostrophe => b'\'' < b,
        Class::BodyByte => !(b == b'\''),
        Class::Space => b == b' ',
        Class::Zero => b == 0,
        Class::TextByte => is_text_byte(b),
    }
}

// 0 for a byte of the class c, and for no other.
fn mark(c: Class, b: u8) -> u8
    ensures { eqb result 0 ≡ belongs_to c b }
{
    match c {
        Class::Zero => b,
        _ => if belongs(c, b) { 0 } else { 1 },
    }
}

// Whether every byte of s is of the class c: their marks put together are none. Without an early end many bytes are tested side by side.
pub fn all(c: Class, s: &[u8]) -> bool
    ensures { result ≡ all_of (belongs_to c) s.now }
{
    let mut marks = 0;
    for b in s {
        marks |= mark(c, *b);
    }
    marks == 0
}

// Whether two texts of one length, of N bytes to twice as many, are the same: their last N bytes, and their first N. Always inlined, as below: each is a
// step or two, and fewer where the caller knows the length.
#[tactic(auto, using(crate::proofs::SameLaws::eq_same, crate::proofs::SameLaws::ends_same))]
#[inline(always)]
fn same_ends<const N: usize>(a: &[u8], b: &[u8]) -> bool
    requires { (length a.now ≡ length b.now) × (N ≤ length a.now) × (length a.now ≤ N + N) }
    ensures { result ≡ same_bytes a.now b.now }
{
    (a.last_chunk::<N>().unwrap() == b.last_chunk::<N>().unwrap())
        & (a.first_chunk::<N>().unwrap() == b.first_chunk::<N>().unwrap())
}

// Whether a and b hold the same bytes. Up to 16 of them, as those of a number or an address, are compared in two steps.
#[tactic(auto, using(crate::proofs::SameLaws::eq_same))]
#[inline(always)]
pub fn same(a: &[u8], b: &[u8]) -> bool
    ensures { result ≡ same_bytes a.now b.now }
{
    if a.len() != b.len() {
        return false;
    }
    match a.len() {
        4..8 => same_ends::<4>(a, b),
        8..=16 => same_ends::<8>(a, b),
        _ => a == b,
    }
}

// Where b first stands in s, if it does.
pub fn position(s: &[u8], b: u8) -> Option<usize>
    ensures { result ≡ within (length s.now) (position_of b s.now) }
{
    s.iter().position(|x| *x == b)
}

// The first k bytes of s, as a part of it; all of s where it has fewer.
pub fn front(s: &[u8], k: usize) -> &[u8]
    ensures { Lies s.entry 0 (take k s.now) result }
{
    if k <= s.len() { &s[..k] } else { s }
}

// What follows the first k bytes of s, as a part of it; the empty part at its start where it has fewer.
pub fn rest(s: &[u8], k: usize) -> &[u8]
    ensures { Lies s.entry (rest_start k s.now) (drop k s.now) result }
{
    if k <= s.len() { &s[k..] } else { &s[..0] }
}

// The number of the first eight bytes of s, of all where it has fewer, the highest first: texts of one length are ordered as these numbers are.
pub fn big_endian(s: &[u8]) -> u64
    ensures { result ≡ big_endian (take 8 s.now) }
{
    let w = front(s, 8);
    let mut number = 0;
    for b in w {
        number = number * 256 + u64::from(*b);
    }
    number
}

// The number in the bytes of s from a place on, the lowest first; 0 where they are not all there.
#[tactic(auto, using(crate::proofs::NumberLaws::number_behind))]
pub fn read<W: Word>(s: &[u8], at: usize) -> W
    ensures { W.number result ≡ number_at W.SIZE at s.now }
{
    W::read_first(rest(s, at))
}

// Writes x into the bytes of s from a place on, the lowest first; nothing where they are not all there.
pub fn write<W: Word>(s: &mut [u8], at: usize, x: W)
    ensures { s.new ≡ number_put W.SIZE at (W.number x) s.old }
{
    if at <= s.len() {
        x.write_first(&mut s[at..]);
    }
}

// Whether the bytes of s are all zero, block by block.
pub fn is_zero(s: &[u8]) -> bool
    ensures { result ≡ all_of is_zero s.now }
{
    let (blocks, rest) = s.as_chunks::<ZERO_BLOCK>();
    blocks.iter().all(|block| all(Class::Zero, block)) && all(Class::Zero, rest)
}
