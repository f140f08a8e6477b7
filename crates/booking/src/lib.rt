// A booking into a lent compartment: a new live row, and for a cancellation the link with the row that it cancels.
#![tactic(auto)]

ghost use Rattle.std.specs.Prelude.{◌≡◌, ◌≤◌, ◌<◌, length, get_or};
ghost use Rattle.ledger.specs.Row.{row_size, number_room, byte_of};
ghost use Rattle.ledger.specs.Sound.{row_count, compartment_size};
ghost use Rattle.booking.specs.Booking.{padded, new_row, entered, relinked, relinked_at, cancelled_by, can_book, booked};

use ledger::{
    COMPARTMENT_SIZE, LENGTH_PLACE, NO_PARTNER, NUMBER_PLACE, NUMBER_ROOM, PARTNER_PLACE,
    QUANTITY_PLACE, ROW_COUNT, ROW_SIZE, SIDE_PLACE, STATE_PLACE, State, ZEROS_PLACE,
};

// Writes a number and the zeros after it into its sixteen bytes.
#[tactic(auto, unfolding(crate::specs::Booking::padded))]
fn put_number(w: &mut [u8], n: &[u8])
    requires { (length w.old ≡ number_room) × (length n.now ≤ number_room) }
    ensures { w.new ≡ padded n.now }
{
    // As it is: the library's copy_from_slice is a call of memmove, which C callers would have to bring.
    let (number, zeros) = w.split_at_mut(n.len());
    for (i, b) in n.iter().enumerate() {
        number[i] = *b;
    }
    zeros.fill(0);
}

// Makes a row live with the number n, the quantity q and the side s, and with no partner.
fn fill_row(w: &mut [u8], n: &[u8], q: u64, s: u8)
    requires { (length w.old ≡ row_size) × (length n.now ≤ number_room) }
    ensures { w.new ≡ new_row n.now q s }
{
    w[ZEROS_PLACE..].fill(0);
    w[STATE_PLACE] = State::Live as u8;
    w[LENGTH_PLACE] = n.len() as u8;
    w[SIDE_PLACE] = s;
    put_number(&mut w[NUMBER_PLACE..QUANTITY_PLACE], n);
    text::write(w, QUANTITY_PLACE, q);
    text::write(w, PARTNER_PLACE, NO_PARTNER);
}

// Gives a row another state and the partner p.
#[tactic(auto, unfolding(crate::specs::Booking::relinked), using(crate::proofs::RowLaws::relinked_length))]
fn relink(w: &mut [u8], state: State, p: usize)
    requires { (length w.old ≡ row_size) × (p < row_count) }
    ensures { w.new ≡ relinked (byte_of state) p w.old }
{
    w[STATE_PLACE] = state as u8;
    text::write(w, PARTNER_PLACE, p as u16);
}

// Enters a new live row in row f.
// As it is: the length is asked here and in the two below, and tested once, in can_book; `as_mut_array` hands out a part of which `book`, whose clause
// names the whole, would have to say what became of it, no plainer.
fn enter(c: &mut [u8], f: usize, n: &[u8], q: u64, s: u8)
    requires { (length c.old ≡ compartment_size) × (f < row_count) × (length n.now ≤ number_room) }
    ensures { c.new ≡ entered f n.now q s c.old }
{
    let a = f * ROW_SIZE;
    let e = a + ROW_SIZE;
    fill_row(&mut c[a..e], n, q, s);
}

// Gives row k another state and the partner p.
fn relink_row(c: &mut [u8], k: usize, state: State, p: usize)
    requires { (length c.old ≡ compartment_size) × (k < row_count) × (p < row_count) }
    ensures { c.new ≡ relinked_at k (byte_of state) p c.old }
{
    let a = k * ROW_SIZE;
    let e = a + ROW_SIZE;
    relink(&mut c[a..e], state, p);
}

// Makes row f the cancellation of row p, and row p cancelled; they point at each other.
fn cancel(c: &mut [u8], f: usize, p: usize)
    requires { (length c.old ≡ compartment_size) × (f < row_count) × (p < row_count) }
    ensures { c.new ≡ cancelled_by f p c.old }
{
    relink_row(c, f, State::Cancellation, p);
    relink_row(c, p, State::Cancelled, f);
}

// Whether a booking can be made: the compartment has its length, f is one of its rows, and the number has room.
#[tactic(auto, unfolding(crate::specs::Booking::can_book))]
fn can_book(c: &[u8], f: usize, n: &[u8]) -> bool
    ensures { result ≡ can_book f n.now c.now }
{
    (c.len() == COMPARTMENT_SIZE) & ((f < ROW_COUNT) & (n.len() <= NUMBER_ROOM))
}

// Books number n, quantity q and side s in row f, and cancels row p where p is a row; nothing where no booking can be made.
// As it is: six parameters, the six of the clause booked f n q s p c; a struct of n, q and s would be made here only to be taken apart in fill_row.
pub fn book(c: &mut [u8], f: usize, n: &[u8], q: u64, s: u8, p: usize)
    ensures { c.new ≡ booked f n.now q s p c.old }
{
    if !can_book(c, f, n) {
        return;
    }
    enter(c, f, n, q, s);
    if p < ROW_COUNT {
        cancel(c, f, p);
    }
}
