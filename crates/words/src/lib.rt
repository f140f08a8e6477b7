// The parts of a line of test cases, and the numbers and bytes that they stand for.
#![tactic(auto)]

ghost use Rattle.std.specs.Prelude.{◌≡◌, ◌<◌};
ghost use Rattle.text.specs.Part.{Lies};
ghost use Rattle.page.specs.Lent.{with_text};
ghost use Rattle.words.specs.Words.{before_first, behind_first, tail_start, next_place, number_of, digit_value, byte_of, bytes_of, piece_bytes, repeated};
ghost use Rattle.words.specs.Parts.{parts_of, parts_left, GivesPart};

use page::Page;

// The text before the first byte b, as a part of s; all of s where there is none.
pub fn before(s: &[u8], b: u8) -> &[u8]
    ensures { Lies s.entry 0 (before_first b s.now) result }
{
    &s[..text::position(s, b).unwrap_or(s.len())]
}

// The text behind the first byte b, as a part of s; nothing, at its end, where there is none.
pub fn behind(s: &[u8], b: u8) -> &[u8]
    ensures { Lies s.entry (tail_start s.now (behind_first b s.now)) (behind_first b s.now) result }
{
    match text::position(s, b) {
        Some(k) => &s[k + 1..],
        None => &s[s.len()..],
    }
}

// The place behind the first byte b from a place on; the end of s where there is none.
#[tactic(auto, using(crate::proofs::LineLaws::behind_within), unfolding(crate::specs::Words::next_place))]
pub fn next(s: &[u8], at: usize, b: u8) -> usize
    ensures { result ≡ next_place b at s.now }
{
    s.len() - behind(text::rest(s, at), b).len()
}

// The parts of a text between single bytes; none behind such a byte at its end.
#[derive(Drop)]
pub struct Parts<'a> {
    text: &'a [u8],
    at: usize,
    by: u8,
}

// All parts of a text between bytes `by`, from the first on.
pub fn split(s: &[u8], by: u8) -> Parts<'_>
    ensures { result ≡ parts_of by s.entry }
{
    Parts { text: s, at: 0, by }
}

impl<'a> Iterator for Parts<'a> {
    type Item = &'a [u8];

    ghost next_gives = { GivesPart };

    ghost remaining = { parts_left };

    #[tactic(auto, using(crate::proofs::LineLaws::next_less))]
    fn next(&mut self) -> Option<&'a [u8]> {
        if self.text.len() <= self.at {
            return None;
        }
        let part = before(text::rest(self.text, self.at), self.by);
        self.at = next(self.text, self.at, self.by);
        Some(part)
    }
}

// The number of up to nine digits; 0 where s is none.
#[tactic(auto, unfolding(crate::specs::Words::number_of))]
pub fn number(s: &[u8]) -> usize
    ensures { result ≡ number_of s.now }
{
    decimal::read(s, 9, 0).map_or(0, |amount| amount.value as usize)
}

// The value of a hexadecimal digit; of any other byte a value below 16.
#[tactic(auto, unfolding(crate::specs::Words::digit_value))]
fn nibble(b: u8) -> u8
    ensures { (result ≡ digit_value b) × (result < 16) }
{
    match b {
        b'a'.. => (b - b'a' + 10) % 16,
        b'0'.. => (b - b'0') % 16,
        _ => 0,
    }
}

// The byte of the first two hexadecimal digits; 0 where they are not both there.
#[tactic(auto, unfolding(crate::specs::Words::byte_of))]
fn hex_byte(hex: &[u8]) -> u8
    ensures { result ≡ byte_of hex.now }
{
    match hex {
        [high, low, ..] => nibble(*high) * 16 + nibble(*low),
        _ => 0,
    }
}

// Writes the bytes that hexadecimal digits give, two by two.
pub fn append_hex(page: &mut Page, hex: &[u8])
    ensures { page.new ≡ with_text page.old (bytes_of hex.now) }
{
    // As it is: the wrong build digit_by_digit, where bytes overlap, has no place in a loop over pairs.
    let mut left = hex;
    while let [_, _, behind @ ..] = left {
        page.append(&[hex_byte(left)]);
        left = behind;
    }
}

// Writes the bytes that a piece stands for: hexadecimal behind %, else itself.
#[tactic(auto, using(text::proofs::SameLaws::eq_same), unfolding(crate::specs::Words::piece_bytes))]
fn append_piece(page: &mut Page, piece: &[u8])
    ensures { page.new ≡ with_text page.old (piece_bytes piece.now) }
{
    match piece.strip_prefix(b"%") {
        Some(hex) => append_hex(page, hex),
        None => page.append(piece),
    }
}

// Writes the bytes that a piece stands for so many times.
#[tactic(auto, using(crate::proofs::LineLaws::times_laws), unfolding(crate::specs::Words::repeated))]
pub fn append_times(page: &mut Page, times: usize, piece: &[u8])
    ensures { page.new ≡ with_text page.old (repeated times (piece_bytes piece.now)) }
{
    for _ in 0..times {
        append_piece(page, piece);
    }
}
