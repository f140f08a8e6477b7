// Sixteen banks, each with a mailbox of its own but for the second, which has the first's: what stands in a bank's row of the reporters table.

use tables::REPORTER_SIZE;

pub(crate) const BANKS: usize = 16;

// The bytes of a bank's row from a place on.
fn row_from(reporters: &[u8], bank: usize, place: usize) -> &[u8] {
    text::rest(text::rest(reporters, bank % BANKS * REPORTER_SIZE), place)
}

// The code of a bank.
// As it is: three of one line each over `row_from`, which has the place as a parameter.
pub(crate) fn code(reporters: &[u8], bank: usize) -> &[u8] {
    text::front(row_from(reporters, bank, 0), 5)
}

// The address of a bank.
pub(crate) fn address(reporters: &[u8], bank: usize) -> &[u8] {
    text::front(row_from(reporters, bank, 5), 11)
}

// The mailbox of a bank, whose name has no space.
pub(crate) fn mailbox(reporters: &[u8], bank: usize) -> &[u8] {
    words::before(row_from(reporters, bank, 16), b' ')
}
