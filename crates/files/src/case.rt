// A case: a name, and edits to `file`, `reporters`, `currencies`, `ledger` and `answers`, as they are in data/ and the pattern.
use crate::checksum::adler;
use crate::edit::edited;
use calls::filing::file_call;
use refusal::Refusal;
use std::io;
use tables::Tables;
use words::{before, behind};

// What the cases edit: a report, and all that a file call is lent with it.
#[derive(Clone, Copy)]
pub(crate) struct Sample<'a> {
    pub file: &'a [u8],
    pub reporters: &'a [u8],
    pub currencies: &'a [u8],
    pub ledger: &'a [u8],
    pub answers: &'a [u8],
}

// Prints the number of the refusal, or the count of records.
fn print_filed(rt: &impl Print, filed: Result<usize, Refusal>) -> io::Result<()> {
    match filed {
        Ok(n) => print!(rt; " records {n}"),
        Err(refusal) => print!(rt; " refused {}", u8::from(refusal)),
    }
}

// Prints a checksum, and whether it is the one before the call.
fn print_sum(rt: &impl Print, label: &[u8], was: u64, sum: u64) -> io::Result<()> {
    rt.write_all(label)?;
    print!(rt; "{sum:08x}")?;
    if sum == was {
        rt.write_all(b" kept")
    } else {
        rt.write_all(b" changed")
    }
}

// Calls, and prints the reply, and the checksums of the ledger and the answer buffer.
fn call(
    rt: &impl Print,
    file: &[u8],
    tables: Tables,
    ledger: &mut [u8],
    answers: &mut [u8],
) -> io::Result<()> {
    let ledger_was = adler(ledger);
    let answers_were = adler(answers);
    print_filed(rt, file_call(file, tables, ledger, answers))?;
    print_sum(rt, b" ledger ", ledger_was, adler(ledger))?;
    print_sum(rt, b" answers ", answers_were, adler(answers))?;
    rt.write_all(b"\n")
}

// Edits what the call may change, and calls.
fn run_on(rt: &impl Print, tokens: &[u8], sample: Sample) -> io::Result<()> {
    let mut own = [0u8; 33024];
    let mut room = [0u8; 16640];
    let n = edited(&mut own, sample.ledger, b"ledger", tokens);
    let k = edited(&mut room, sample.answers, b"answers", tokens);
    let tables = Tables {
        reporters: sample.reporters,
        currencies: sample.currencies,
    };
    call(rt, sample.file, tables, &mut own[..n], &mut room[..k])
}

// Prints the name of a case, and runs it.
pub(crate) fn run(rt: &impl Print, line: &[u8], sample: Sample) -> io::Result<()> {
    let tokens = behind(line, b' ');
    let mut own = [0u8; 36864];
    let mut table = [0u8; 640];
    let mut list = [0u8; 1664];
    let n = edited(&mut own, sample.file, b"file", tokens);
    let rows = edited(&mut table, sample.reporters, b"reporters", tokens);
    let codes = edited(&mut list, sample.currencies, b"currencies", tokens);
    rt.write_all(before(line, b' '))?;
    let changed = Sample {
        file: &own[..n],
        reporters: &table[..rows],
        currencies: &list[..codes],
        ledger: sample.ledger,
        answers: sample.answers,
    };
    run_on(rt, tokens, changed)
}
