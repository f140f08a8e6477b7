// The worked records, called one by one on a ledger.
use crate::print::{bytes_of, print_bytes, print_count};
use answer::Answer;
use calls::{Call, record_call};
use ledger::{ROW_COUNT, ROW_SIZE};
use refusal::Refusal;
use std::io;
use tables::Tables;

// Prints the sixteen bytes of an answer, or the number of a refusal.
fn print_reply(rt: &impl Print, reply: Result<Answer, Refusal>) -> io::Result<()> {
    match reply {
        Ok(a) => print_bytes(rt, &bytes_of(a))?,
        Err(refusal) => print!(rt; "refused {}", u8::from(refusal))?,
    }
    rt.write_all(b"\n")
}

// Prints a row of compartment 0.
fn print_row(rt: &impl Print, ledger: &[u8], row: usize) -> io::Result<()> {
    print_count(rt, b"row ", row as u64)?;
    rt.write_all(b" ")?;
    print_bytes(
        rt,
        text::front(text::rest(ledger, row % ROW_COUNT * ROW_SIZE), ROW_SIZE),
    )?;
    rt.write_all(b"\n")
}

// Calls the records of a file, one a line, on a ledger: prints what each answers, row 0 behind the first, and rows 0 and 1 behind the last.
pub(crate) fn run(
    rt: &impl Print,
    tables: Tables,
    ledger: &mut [u8],
    file: &[u8],
) -> io::Result<()> {
    for (k, line) in (1u64..).zip(words::split(file, b'\n')) {
        let call = Call {
            sender: b"MBONE",
            record: line,
        };
        print_count(rt, b"record ", k)?;
        rt.write_all(b" ")?;
        print_reply(rt, record_call(tables, ledger, call))?;
        if k == 1 {
            print_row(rt, ledger, 0)?;
        }
    }
    print_row(rt, ledger, 0)?;
    print_row(rt, ledger, 1)
}
