// The field view on records of every shape. A case is a line: a name, the number of a field, and the record as pieces.
use crate::pieces;
use std::io;
use words::{before, behind, number};

// How many bytes of a field are printed, at most.
const SHOWN: usize = 64;

// Prints the name, and the length and the first bytes of the field.
pub(crate) fn print(rt: &impl Print, line: &[u8]) -> io::Result<()> {
    let mut room = [0u8; 32768];
    let numbered = behind(line, b' ');
    let end = pieces::write(&mut room, behind(numbered, b' '));
    let field = fields::field(text::front(&room, end), number(before(numbered, b' ')));
    rt.write_all(before(line, b' '))?;
    print!(rt; " {}:", field.len())?;
    rt.write_all(text::front(field, SHOWN))?;
    rt.write_all(b"\n")
}
