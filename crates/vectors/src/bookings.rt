// Places 61 to 63, on a compartment. A case is a line: the place that it aims at, F16 and F39, `-` for blank, and the rows from the first on, each
// as STATE:NUMBER or, where it has a partner, STATE:NUMBER:PARTNER.
ghost use Rattle.std.specs.Prelude.{◌≡◌, length};

use crate::identifiers::value;
use crate::records::print_failures;
use ledger::{
    COMPARTMENT_SIZE, LENGTH_PLACE, NO_PARTNER, NUMBER_PLACE, NUMBER_ROOM, PARTNER_PLACE,
    ROW_COUNT, ROW_SIZE, SIDE_PLACE, STATE_PLACE,
};
use page::Page;
use std::io;
use words::{before, behind, number, split};

// The partner that a word names; none where there is no word.
fn partner_of(word: &[u8]) -> u16 {
    if word.is_empty() {
        return NO_PARTNER;
    }
    (number(word) % ROW_COUNT) as u16
}

// The row that a word says, of a purchase of nothing.
fn row_of(word: &[u8]) -> [u8; ROW_SIZE]
    ensures { 32 ≡ length result }
{
    let numbered = behind(word, b':');
    let name = before(numbered, b':');
    let mut row = [0u8; ROW_SIZE];
    row[STATE_PLACE] = (number(before(word, b':')) % 4) as u8;
    row[LENGTH_PLACE] = (name.len() % 256) as u8;
    row[SIDE_PLACE] = b'B';
    let mut page = Page {
        room: &mut row,
        end: NUMBER_PLACE,
    };
    page.append(text::front(name, NUMBER_ROOM));
    text::write(&mut row, PARTNER_PLACE, partner_of(behind(numbered, b':')));
    row
}

// Writes the rows that words say, one behind the other.
fn write_rows(compartment: &mut [u8], rows: &[u8]) {
    let mut page = Page {
        room: compartment,
        end: 0,
    };
    for word in split(rows, b' ') {
        page.append(&row_of(word));
    }
}

// Prints what the line aims at, the set of failures, the lowest free row and the live row that F16 names, 64 for none.
pub(crate) fn print(rt: &impl Print, line: &[u8]) -> io::Result<()> {
    let mut compartment = [0u8; COMPARTMENT_SIZE];
    let cancelling = behind(line, b' ');
    let numbered = behind(cancelling, b' ');
    write_rows(&mut compartment, behind(numbered, b' '));
    let f16 = value(before(cancelling, b' '));
    let f39 = value(before(numbered, b' '));
    let found = checks::judge_booking(&compartment, f16, f39);
    rt.write_all(before(line, b' '))?;
    rt.write_all(b" ")?;
    print_failures(rt, found.failed)?;
    println!(rt; " {} {}", found.free, found.named)
}
