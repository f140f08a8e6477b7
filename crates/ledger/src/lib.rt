// The ledger: whether it is sound, and what is looked up in a compartment.
#![tactic(auto)]

ghost use Rattle.std.specs.Prelude.{◌<◌, ◌≤◌, true, ◌&&◌, ◌≡◌, eqb, length, get_or};
ghost use Rattle.frame.specs.Every.{every, least};
ghost use Rattle.text.specs.Bytes.{same};
ghost use Rattle.text.specs.Number.{number_at};
ghost use Rattle.ledger.specs.Row.{row_size, state, byte_of, filled_row, number, number_padding, partner, is_side, row_form};
ghost use Rattle.ledger.specs.Sound.{row_count, compartment_size, rows_of, points_back, linked, precedes, sound_row, sound_compartment};
ghost use Rattle.ledger.specs.Sound.{AfterSound, FormAfterSound, sound_ledger};
ghost use Rattle.ledger.specs.Slots.{slot_count, slot_of, Fresh};
ghost use Rattle.ledger.specs.Lookup.{NoneIn, FirstFrom, is_asked, is_named, is_asked_row, free_row, row_by_number, live_row};

use text::Class;

pub const ROW_SIZE: usize = 32;

pub const ROW_COUNT: usize = 64;

pub const COMPARTMENT_SIZE: usize = ROW_COUNT * ROW_SIZE;

pub const BANK_COUNT: usize = 16;

const LEDGER_SIZE: usize = BANK_COUNT * COMPARTMENT_SIZE;

// The places of a row.
pub const STATE_PLACE: usize = 0;

pub const LENGTH_PLACE: usize = 1;

pub const NUMBER_PLACE: usize = 2;

const SECOND_WORD_PLACE: usize = 10;

pub const QUANTITY_PLACE: usize = 18;

pub const PARTNER_PLACE: usize = 26;

pub const SIDE_PLACE: usize = 28;

pub const ZEROS_PLACE: usize = 29;

pub const NUMBER_ROOM: usize = 16;

const LARGEST_QUANTITY: u64 = 9_999_999_999_999_999_999;

// What stands for no partner.
pub const NO_PARTNER: u16 = 65535;

// The slots of the test for doubles; neighbouring decimal numbers fall into different ones of so many.
const SLOT_COUNT: usize = 499;

// A compartment of the right length, and a row of it.
type Compartment = [u8; COMPARTMENT_SIZE];

type Row = [u8; ROW_SIZE];

// The state of a row, by its byte.
// As it is: `as u8` gives the byte where one is compared or written; a `From` would be one more name for it, no plainer.
#[derive(Clone, Copy)]
pub enum State {
    Free = 0,
    Live = 1,
    Cancelled = 2,
    Cancellation = 3,
}

// The states that a search for a number asks for.
#[derive(Clone, Copy)]
enum Asked {
    Live,
    Filled,
}

// Row k of a compartment.
#[tactic(auto, using(frame::proofs::ListLaws::chunk_part))]
fn row(c: &Compartment, k: usize) -> &Row
    requires { k < row_count }
    ensures { result.now ≡ rows_of c.now k }
{
    let (rows, _) = c.as_chunks();
    &rows[k]
}

// The number of a row.
fn number_of(w: &Row) -> &[u8]
    ensures { result.now ≡ number w.now }
{
    text::front(text::rest(w, NUMBER_PLACE), usize::from(w[LENGTH_PLACE]))
}

// What is left of the room for the number of a row.
fn padding_of(w: &Row) -> &[u8]
    ensures { result.now ≡ number_padding w.now }
{
    text::rest(
        &w[NUMBER_PLACE..QUANTITY_PLACE],
        usize::from(w[LENGTH_PLACE]),
    )
}

// The partner of a row.
fn partner_of(w: &Row) -> usize
    ensures { result ≡ partner w.now }
{
    usize::from(text::read::<u16>(w, PARTNER_PLACE))
}

// Whether b is the letter of a side: B or S.
fn is_side(b: u8) -> bool
    ensures { result ≡ is_side b }
{
    (b == b'B') | (b == b'S')
}

// Whether a filled row has the form, but for what its partner has to be.
#[tactic(auto, unfolding(crate::specs::Row::row_form))]
fn is_row_form(w: &Row) -> bool
    ensures { result ≡ row_form w.now }
{
    let s = w[STATE_PLACE];
    (State::Live as u8 <= s)
        & (s <= State::Cancellation as u8)
        & identifier::is_name(number_of(w), NUMBER_ROOM)
        & text::all(Class::Zero, padding_of(w))
        & (text::read::<u64>(w, QUANTITY_PLACE) <= LARGEST_QUANTITY)
        & is_side(w[SIDE_PLACE])
        & text::all(Class::Zero, text::rest(w, ZEROS_PLACE))
}

// Whether row q has the state s and points to row k.
#[tactic(auto, unfolding(crate::specs::Sound::points_back))]
fn points_back(c: &Compartment, q: usize, s: State, k: usize) -> bool
    requires { q < row_count }
    ensures { result ≡ points_back (rows_of c.now) q (byte_of s) k }
{
    let w = row(c, q);
    (w[STATE_PLACE] == s as u8) & (partner_of(w) == k)
}

// Whether row k is linked as its state asks.
#[tactic(auto, using(crate::proofs::CheckLaws::live_linked, crate::proofs::CheckLaws::cancellation_linked, crate::proofs::CheckLaws::cancelled_linked))]
fn is_linked(c: &Compartment, k: usize) -> bool
    requires { k < row_count }
    ensures { result ≡ linked (rows_of c.now) k }
{
    let w = row(c, k);
    let p = partner_of(w);
    if w[STATE_PLACE] == State::Live as u8 {
        return p == usize::from(NO_PARTNER);
    }
    if w[STATE_PLACE] == State::Cancellation as u8 {
        return p < k && points_back(c, p, State::Cancelled, k);
    }
    ((k < p) & (p < ROW_COUNT)) && points_back(c, p, State::Cancellation, k)
}

// Whether the number of a row is written in these two words; the second is read first, since numbers begin alike.
fn has_words(w: &Row, first: u64, second: u64) -> bool
    ensures { result ≡ (eqb (number_at 8 10 w.now) second && eqb (number_at 8 2 w.now) first) }
{
    text::read::<u64>(w, SECOND_WORD_PLACE) == second && text::read::<u64>(w, NUMBER_PLACE) == first
}

// Whether the rows before row k, which are sound, have other numbers.
fn is_new_number(c: &Compartment, k: usize) -> bool
    requires { FormAfterSound (rows_of c.now) k }
    ensures { result ≡ every k (precedes (rows_of c.now) (number (rows_of c.now k))) }
{
    let w = row(c, k);
    let first: u64 = text::read(w, NUMBER_PLACE);
    let second: u64 = text::read(w, SECOND_WORD_PLACE);
    for j in 0..k {
        if has_words(row(c, j), first, second) {
            return false;
        }
    }
    true
}

// The slot of a row: rows with one number have one slot.
#[tactic(auto, unfolding(crate::specs::Slots::slot_of))]
fn slot_of(w: &Row) -> usize
    ensures { (result ≡ slot_of w.now) × (result < slot_count) }
{
    let first: u64 = text::read(w, NUMBER_PLACE);
    let second: u64 = text::read(w, SECOND_WORD_PLACE);
    (first ^ second) as usize % SLOT_COUNT
}

// Whether the rows before row k, which are sound, have other numbers: at once where its slot is fresh, else pair by pair.
fn is_other_number(c: &Compartment, k: usize, fresh: bool) -> bool
    requires after { FormAfterSound (rows_of c.now) k }
    requires fresh { fresh ≡ true → Fresh (rows_of c.now) k }
    ensures { result ≡ every k (precedes (rows_of c.now) (number (rows_of c.now k))) }
{
    fresh || is_new_number(c, k)
}

// Whether row k, which is filled, is sound after the sound and filled rows before it; fresh where its slot is.
fn is_sound_filled(c: &Compartment, k: usize, fresh: bool) -> bool
    requires after { AfterSound (rows_of c.now) k }
    requires filled { filled_row (rows_of c.now k) ≡ true }
    requires fresh { fresh ≡ true → Fresh (rows_of c.now) k }
    ensures { result ≡ sound_row (rows_of c.now) k }
{
    is_row_form(row(c, k)) && (is_other_number(c, k, fresh) && is_linked(c, k))
}

// Whether each row of a compartment is sound. From the first free row on it is all zero.
fn sound_rows(c: &Compartment) -> bool
    ensures { result ≡ every row_count (sound_row (rows_of c.now)) }
{
    let mut seen = [false; SLOT_COUNT];
    for k in 0..ROW_COUNT {
        let w = row(c, k);
        if w[STATE_PLACE] == State::Free as u8 {
            return text::is_zero(text::rest(c, k * ROW_SIZE));
        }
        let slot = slot_of(w);
        if !is_sound_filled(c, k, !seen[slot]) {
            return false;
        }
        seen[slot] = true;
    }
    true
}

// Whether a compartment is sound.
pub fn sound_compartment(c: &[u8]) -> bool
    ensures { result ≡ sound_compartment c.now }
{
    match c.as_array() {
        Some(c) => sound_rows(c),
        None => false,
    }
}

// Whether the ledger is sound.
pub fn sound_ledger(l: &[u8]) -> bool
    ensures { result ≡ sound_ledger l.now }
{
    if l.len() != LEDGER_SIZE {
        return false;
    }
    for c in l.as_chunks::<COMPARTMENT_SIZE>().0 {
        if !sound_compartment(c) {
            return false;
        }
    }
    true
}

// The first row from a row on with a byte at a place, 64 where there is none.
// As it is: 64 for none, here and in the searches below, as in free_row.
fn next_with(c: &Compartment, from: usize, place: usize, b: u8) -> usize
    requires { (from ≤ row_count) × (place < row_size) }
    ensures { FirstFrom (λ j. eqb (get_or (rows_of c.now j) place 0) b) from result }
{
    for k in from..ROW_COUNT {
        let w = row(c, k);
        if w[place] == b {
            return k;
        }
    }
    ROW_COUNT
}

// The lowest free row of a compartment, 64 where none is free.
// As it is: 64 for none. `booked` and `booking_of` take and hold this number, so that an Option would be made here only to be taken apart there.
pub fn free_row(c: &[u8]) -> usize
    ensures { result ≡ free_row c.now }
{
    match c.as_array() {
        Some(c) => next_with(c, 0, STATE_PLACE, State::Free as u8),
        None => ROW_COUNT,
    }
}

// Whether a state is one that a search for a number asks for.
fn is_asked(state: u8, asked: Asked) -> bool
    ensures { result ≡ is_asked asked state }
{
    match asked {
        Asked::Live => state == State::Live as u8,
        Asked::Filled => state != State::Free as u8,
    }
}

// Whether the state of a row is asked for, and its number is n; the number first, since most rows that are looked at have another.
fn is_asked_with(w: &Row, n: &[u8], asked: Asked) -> bool
    ensures { result ≡ (is_asked asked (state w.now) && same (number w.now) n.now) }
{
    text::same(number_of(w), n) && is_asked(w[STATE_PLACE], asked)
}

// The next row, from a row on, that may have the number n: the last byte of n stands in it where the number would end. Numbers begin alike, so
// that most rows are passed over, and none of these has the number.
fn next_ending(c: &Compartment, from: usize, n: &[u8]) -> usize
    requires { from ≤ row_count }
    ensures { (from ≤ result) × (result ≤ row_count) × NoneIn (is_named (rows_of c.now) n.now) from result }
{
    match n.last() {
        Some(&last) if n.len() <= NUMBER_ROOM => next_with(c, from, n.len() + 1, last),
        _ => from,
    }
}

// The first row of a compartment with the number n whose state is asked for, 64 where there is none.
fn row_asked(c: &Compartment, n: &[u8], asked: Asked) -> usize
    ensures { result ≡ least row_count (is_asked_row asked (rows_of c.now) n.now) }
{
    // As it is: each turn goes on at the next row in which the last byte stands; an iterator of such rows would be this loop in a type of its own.
    let mut k = next_ending(c, 0, n);
    while k < ROW_COUNT {
        if is_asked_with(row(c, k), n, asked) {
            return k;
        }
        k = next_ending(c, k + 1, n);
    }
    ROW_COUNT
}

// The row of a compartment with the number n, 64 where none has it.
// As it is: 64 for none, as in free_row; one call of row_asked, as its like is, which has what is asked for as a parameter.
pub fn row_by_number(c: &[u8], n: &[u8]) -> usize
    ensures { result ≡ row_by_number c.now n.now }
{
    match c.as_array() {
        Some(c) => row_asked(c, n, Asked::Filled),
        None => ROW_COUNT,
    }
}

// The live row of a compartment with the number n, 64 where none has it.
// As it is: 64 for none, as in free_row; one call of row_asked, as its like is, which has what is asked for as a parameter.
pub fn live_row(c: &[u8], n: &[u8]) -> usize
    ensures { result ≡ live_row c.now n.now }
{
    match c.as_array() {
        Some(c) => row_asked(c, n, Asked::Live),
        None => ROW_COUNT,
    }
}
