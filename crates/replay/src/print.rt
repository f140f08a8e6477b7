// What is printed: bytes as hexadecimal digits, and labelled numbers.
use answer::Answer;
use std::io;

// The sixteen bytes of an answer.
pub(crate) fn bytes_of(a: Answer) -> [u8; answer::SIZE] {
    let mut bytes = [0u8; answer::SIZE];
    answer::write(a, &mut bytes, 0);
    bytes
}

// Prints two hexadecimal digits for each byte.
pub(crate) fn print_bytes(rt: &impl Print, s: &[u8]) -> io::Result<()> {
    for b in s {
        print!(rt; "{b:02x}")?;
    }
    Ok(())
}

// Prints a label and a number.
pub(crate) fn print_count(rt: &impl Print, label: &[u8], n: u64) -> io::Result<()> {
    rt.write_all(label)?;
    print!(rt; "{n}")
}
