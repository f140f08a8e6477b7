// The lists of texts: their form, an index of them, and the text of a code as a part of the list that it comes from.
#![tactic(auto)]

ghost use Rattle.std.specs.Prelude.{◌-◌, ◌<◌, ◌≤◌, true, ◌≡◌, length, take};
ghost use Rattle.frame.specs.Every.{every};
ghost use Rattle.text.specs.Class.{is_digit, is_text_byte};
ghost use Rattle.text.specs.Bytes.{all};
ghost use Rattle.text.specs.Part.{Lies};
ghost use Rattle.texts.specs.Texts.{text_row_size, text_code_size, code_count, text_count, text_code, text_row_ok, texts_ok, trimmed, text_at, text_start};
ghost use Rattle.texts.specs.Index.{index_size, blank_index, index_of, is_listed, entry_in, names_row, HandedBy};
ghost use Rattle.texts.specs.Steps.{Open, Entered};

use text::Class;

// Bytes of a row, and of its code.
const ROW_SIZE: usize = 80;

const CODE_SIZE: usize = 4;

// How many codes of four digits there are.
const CODE_COUNT: usize = 10000;

// The entries of an index: one for each code, and one that tells whether both lists are of their form.
pub const INDEX_SIZE: usize = 10001;

// A blank entry of the index, from which the rows of our list are counted on; and what those of the member's are counted on from. The two bytes of a
// blank entry differ: so a blank index is made in wide steps, and not byte by byte.
// As it is: an entry is a number of two bytes, in a memory of fixed size, and `index_of` of specs/ says which.
pub const BLANK: u16 = 1;

const MEMBER_BASE: u16 = 10001;

// The list of texts of the member, and ours.
#[derive(Clone, Copy)]
pub struct Lists<'a> {
    pub member: &'a [u8],
    pub ours: &'a [u8],
}

// Two lists, and an index of them.
#[derive(Clone, Copy)]
pub struct Index<'a, 'r> {
    pub lists: Lists<'a>,
    pub rows: &'r [u16; INDEX_SIZE],
}

// A digit as a number.
fn digit(b: u8) -> u16
    requires { is_digit b ≡ true }
    ensures { (result ≡ b - 48) × (result ≤ 9) }
{
    u16::from(b - b'0')
}

// The code of a row that begins with four digits.
fn code_of(w: &[u8]) -> usize
    requires { (length w.now ≡ text_row_size) × (all is_digit (take text_code_size w.now) ≡ true) }
    ensures { (result ≡ text_code w.now) × (result < code_count) }
{
    let code = digit(w[0]) * 1000 + digit(w[1]) * 100 + digit(w[2]) * 10 + digit(w[3]);
    usize::from(code)
}

// Enters the rows of a list, whose bytes are all bytes of texts, in the index, counted on from a base; false where one begins with other than four
// digits, or with a code that the list has before it.
fn enter_rows(t: &[u8], base: u16, rows: &mut [u16]) -> bool
    requires { Open base rows.old × (text_count t.now ≤ code_count) × (all is_text_byte t.now ≡ true) }
    ensures { (result ≡ every (text_count t.now) (text_row_ok t.now))
        × (length rows.new ≡ index_size)
        × (result ≡ true → Entered base (text_count t.now) t.now rows.old rows.new) }
{
    for k in 0..t.len() / ROW_SIZE {
        let start = k * ROW_SIZE;
        let w = &t[start..start + ROW_SIZE];
        if !text::all(Class::Digit, text::front(w, CODE_SIZE)) {
            return false;
        }
        let code = code_of(w);
        if base < rows[code] {
            return false;
        }
        rows[code] = base + (k + 1) as u16;
    }
    true
}

// Enters a list in the index, counted on from a base; false where it is not of its form or has a code twice. More rows than there are codes have one twice.
fn enter(t: &[u8], base: u16, rows: &mut [u16]) -> bool
    requires { Open base rows.old }
    ensures { (result ≡ texts_ok t.now)
        × (length rows.new ≡ index_size)
        × (result ≡ true → Entered base (text_count t.now) t.now rows.old rows.new) }
{
    if t.len() % ROW_SIZE != 0 {
        return false;
    }
    if CODE_COUNT < t.len() / ROW_SIZE {
        return false;
    }
    if !text::all(Class::TextByte, t) {
        return false;
    }
    enter_rows(t, base, rows)
}

// Makes an index blank.
fn blank(rows: &mut [u16])
    requires { length rows.old ≡ index_size }
    ensures { rows.new ≡ blank_index }
{
    rows.fill(BLANK);
}

impl<'a> Lists<'a> {
    // Enters both lists in a blank index; it is blank again where one of them is not of its form or has a code twice.
    fn fill(&self, rows: &mut [u16])
        requires { rows.old ≡ blank_index }
        ensures { rows.new ≡ index_of self.now.member.now self.now.ours.now }
    {
        if !enter(self.ours, BLANK, rows) {
            blank(rows);
            return;
        }
        if !enter(self.member, MEMBER_BASE, rows) {
            blank(rows);
            return;
        }
        rows[CODE_COUNT] = 2;
    }

    // Makes the index of both lists: blank where one of them is not of its form or has a code twice.
    pub fn index(&self, rows: &mut [u16; INDEX_SIZE])
        ensures { rows.new ≡ index_of self.now.member.now self.now.ours.now }
    {
        blank(rows);
        self.fill(rows);
    }
}

impl<'a> Index<'a, '_> {
    // Whether both lists are of their form.
    pub fn is_listed(&self) -> bool
        ensures { result ≡ is_listed self.now.rows.now }
    {
        BLANK < self.rows[CODE_COUNT]
    }

    // The entry of a code; blank where it has more than four digits.
    #[tactic(auto, using(crate::proofs::IndexLaws::entry_within, crate::proofs::IndexLaws::entry_beyond))]
    fn entry(&self, code: u16) -> u16
        ensures { result ≡ entry_in self.now.rows.now code }
    {
        let k = usize::from(code);
        if k < CODE_COUNT { self.rows[k] } else { BLANK }
    }

    // Whether one of the lists holds a code.
    pub fn holds(&self, code: u16) -> bool
        ensures { result ≡ names_row self.now.rows.now code }
    {
        BLANK < self.entry(code)
    }

    // The text of a code, handed out as a part of the list that the index names.
    #[tactic(auto, using(crate::proofs::HandedLaws::by_member, crate::proofs::HandedLaws::by_ours, crate::proofs::HandedLaws::by_none))]
    pub fn text_of(&self, code: u16) -> &'a [u8]
        ensures { HandedBy (entry_in self.now.rows.now code) self.now.lists.member self.now.lists.ours result }
    {
        let n = self.entry(code);
        if MEMBER_BASE < n {
            return text_at(self.lists.member, usize::from(n - MEMBER_BASE));
        }
        if BLANK < n {
            return text_at(self.lists.ours, usize::from(n - BLANK));
        }
        text_at(self.lists.ours, 0)
    }
}

// How long a text is without its trailing spaces.
#[tactic(auto, using(crate::proofs::TextLaws::trimming))]
fn length_of(w: &[u8]) -> usize
    ensures { result ≡ trimmed w.now }
{
    for n in (0..w.len()).rev() {
        if w[n] != b' ' {
            return n + 1;
        }
    }
    0
}

// The text of row n, counted from 1, as a part of the list; the empty part at its start where there is no such row.
fn text_at(t: &[u8], n: usize) -> &[u8]
    ensures { Lies t.entry (text_start t.now n) (text_at t.now n) result }
{
    if n < 1 {
        return &t[..0];
    }
    if t.len() / ROW_SIZE < n {
        return &t[..0];
    }
    let end = n * ROW_SIZE;
    let start = end - ROW_SIZE + CODE_SIZE;
    let text_end = start + length_of(&t[start..end]);
    &t[start..text_end]
}
