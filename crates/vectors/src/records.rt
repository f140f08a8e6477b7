// Records, each judged at places 0 to 60. A case is a line: the place that it aims at, its sender, and the record.
use answer::Answer;
use failures::Failures;
use fields::Record;
use std::io;
use tables::Tables;
use words::{before, behind};

// The failures of a record: of places 0 to 6, or, where it passes these, of places 7 to 60.
fn failures_of(tables: Tables, sender: &[u8], record: &[u8]) -> Failures {
    let record = Record::of(record);
    let whole = record.is_whole();
    let checked = sender::check(
        tables.reporters,
        sender,
        whole,
        record.field(1),
        record.field(2),
    );
    match checked {
        Ok(row) => checks::judge(tables, row, &record),
        Err(failed) => failed,
    }
}

// The number of a set: the first eight bytes of an answer record that holds it.
fn number_of(failed: Failures) -> u64 {
    let mut bytes = [0u8; answer::SIZE];
    let a = Answer {
        failed,
        code: 0,
        row: 0,
        status: 0,
        booked: 0,
        length: 0,
    };
    answer::write(a, &mut bytes, 0);
    text::read(&bytes, 0)
}

// Prints a set: its number, its first code and its count.
pub(crate) fn print_failures(rt: &impl Print, failed: Failures) -> io::Result<()> {
    print!(rt;
        "{} {:04} {}",
        number_of(failed),
        failed.code(),
        failed.count()
    )
}

// Prints what the line aims at, and the set of failures.
pub(crate) fn print(rt: &impl Print, line: &[u8], tables: Tables) -> io::Result<()> {
    let sent = behind(line, b' ');
    let failed = failures_of(tables, before(sent, b' '), behind(sent, b' '));
    rt.write_all(before(line, b' '))?;
    rt.write_all(b" ")?;
    print_failures(rt, failed)?;
    rt.write_all(b"\n")
}
