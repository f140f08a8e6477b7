// Values of ISINs and SWIFT addresses, each with a verdict from elsewhere, which is not looked at, and perhaps a label that says from where; and texts,
// a case being a line: a name, the last digit of the sum from elsewhere, which is not looked at, and the text as pieces.
use crate::pieces;
use std::io;
use words::{before, behind};

// The value that a word stands for; `-` is the empty value.
pub(crate) fn value(word: &[u8]) -> &[u8] {
    match word {
        b"-" => b"",
        _ => word,
    }
}

// Prints the value as it stands in the line, this library's verdict, and the label.
fn print(rt: &impl Print, line: &[u8], right: bool) -> io::Result<()> {
    let label = behind(behind(line, b' '), b' ');
    rt.write_all(before(line, b' '))?;
    print!(rt; " {}", u8::from(right))?;
    if !label.is_empty() {
        rt.write_all(b" ")?;
    }
    rt.write_all(label)?;
    rt.write_all(b"\n")
}

// Prints whether the value is an ISIN with the right check digit.
// As it is: two of one line each over `print`, which has the verdict as a parameter.
pub(crate) fn print_isin(rt: &impl Print, line: &[u8]) -> io::Result<()> {
    print(rt, line, identifier::is_isin(value(before(line, b' '))))
}

// Prints whether the value has the form of a SWIFT address.
pub(crate) fn print_swift(rt: &impl Print, line: &[u8]) -> io::Result<()> {
    print(rt, line, identifier::is_swift(value(before(line, b' '))))
}

// Prints the name, the length of the text, and the last digit of its sum.
pub(crate) fn print_sum(rt: &impl Print, line: &[u8]) -> io::Result<()> {
    let mut room = [0u8; 32768];
    let end = pieces::write(&mut room, behind(behind(line, b' '), b' '));
    let sum = identifier::letter_sum(text::front(&room, end));
    rt.write_all(before(line, b' '))?;
    println!(rt; " {end} {sum}")
}
