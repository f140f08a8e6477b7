// A text as pieces TIMES:PIECE, each of which is put in so many times, text or, behind %, hexadecimal.
use page::Page;
use words::{append_times, before, behind, number, split};

// Writes the text that pieces make, and answers its length.
pub(crate) fn write(out: &mut [u8], pieces: &[u8]) -> usize {
    let mut page = Page { room: out, end: 0 };
    for piece in split(pieces, b' ') {
        append_times(&mut page, number(before(piece, b':')), behind(piece, b':'));
    }
    page.end
}
