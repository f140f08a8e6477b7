// Edits, `OBJECT:PLACE/DROP/TIMES/PIECE`: at a place of the object, its number or the text that stands there, so many bytes are dropped, and a
// piece is put in so many times, text or, behind %, hexadecimal. `file:ATBWA/5/1/ATBWB` changes the receiver, `file:500/9999/0/` cuts.
ghost use Rattle.std.specs.Prelude.{◌≤◌, length};
ghost use Rattle.io.specs.Counts.{IsPrefixLen};

use page::Page;
use words::{append_times, before, behind, number, split};

// Where a text first stands in s; the length of s where it doesn't.
fn find(s: &[u8], t: &[u8]) -> usize {
    for i in 0..s.len() {
        if s[i..].starts_with(t) {
            return i;
        }
    }
    s.len()
}

// The place in s that a text names: its number, or where it stands.
fn place(s: &[u8], name: &[u8]) -> usize {
    if name.iter().all(|b| b.is_ascii_digit()) {
        return number(name);
    }
    find(s, name)
}

// Writes an object, edited.
fn append_edited(page: &mut Page, object: &[u8], edit: &[u8]) {
    let dropping = behind(edit, b'/');
    let putting = behind(dropping, b'/');
    let at = place(object, before(edit, b'/'));
    let rest = text::rest(text::rest(object, at), number(before(dropping, b'/')));
    page.append(text::front(object, at));
    append_times(page, number(before(putting, b'/')), behind(putting, b'/'));
    page.append(rest);
}

// Copies a text to the start of a buffer, as far as there is room, and answers how many bytes of it.
fn copied(buffer: &mut [u8], text: &[u8]) -> usize
    ensures { result ≤ length buffer.new }
{
    let n = text.len().min(buffer.len());
    buffer[..n].copy_from_slice(&text[..n]);
    n
}

// Edits the object in the first n bytes of a buffer, where the token names it, and answers its new length.
fn apply(buffer: &mut [u8], n: usize, name: &[u8], token: &[u8]) -> usize
    requires { n ≤ length buffer.old }
    ensures { result ≤ length buffer.new }
{
    if before(token, b':') != name {
        return n;
    }
    let mut room = [0u8; 36864];
    let mut copy = Page {
        room: &mut room,
        end: 0,
    };
    append_edited(&mut copy, &buffer[..n], behind(token, b':'));
    copied(buffer, copy.text())
}

// Copies an object into a buffer, makes those edits of a line that name it, and answers its length.
pub(crate) fn edited(buffer: &mut [u8], object: &[u8], name: &[u8], tokens: &[u8]) -> usize
    ensures { IsPrefixLen result buffer.new }
{
    let mut n = copied(buffer, object);
    for token in split(tokens, b' ') {
        n = apply(buffer, n, name, token);
    }
    n
}
