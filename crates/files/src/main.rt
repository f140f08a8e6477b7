// Runs whole files through the file call. A case is a line: a name, and edits to a sample; a line is printed for each.
#![tactic(auto)]

mod case;
mod checksum;
mod edit;

use case::Sample;
use disk::load_or_fail;
use std::io;
use std::rt::Files;

// The bytes of the answer buffer, where a case says nothing else: as many as 1,025 answers take.
const ANSWER_ROOM: usize = 1025 * answer::SIZE;

// Room for the cases of a file.
const CASES_ROOM: usize = 65536;

// Fills a buffer with a pattern, so that a byte that is cleared or moved shows.
fn fill(buffer: &mut [u8]) {
    for (i, b) in buffer.iter_mut().enumerate() {
        *b = (i % 251) as u8 + 1;
    }
}

// Runs the cases of the file of that name, one a line, on the sample of data/.
fn run(rt: &(impl Files + Print + Eprint), name: &[u8]) -> io::Result<()> {
    let mut cases = [0u8; CASES_ROOM];
    let mut file = [0u8; 1024];
    let mut table = [0u8; 512];
    let mut list = [0u8; 1536];
    let mut ledger = [0u8; 32768];
    let mut answers = [0u8; ANSWER_ROOM];
    let k = load_or_fail(rt, name, &mut cases);
    let n = load_or_fail(rt, b"report.edi", &mut file);
    let rows = load_or_fail(rt, b"reporters.ref", &mut table);
    let codes = load_or_fail(rt, b"currency.ref", &mut list);
    let m = load_or_fail(rt, b"ledger.dat", &mut ledger);
    fill(&mut answers);
    let sample = Sample {
        file: &file[..n],
        reporters: &table[..rows],
        currencies: &list[..codes],
        ledger: &ledger[..m],
        answers: &answers,
    };
    for line in words::split(&cases[..k], b'\n') {
        case::run(rt, line, sample)?;
    }
    Ok(())
}

// Runs all files of cases.
fn main(rt: HostRuntime) -> io::Result<()> {
    run(&rt, b"cuts.txt")?;
    run(&rt, b"edges.txt")?;
    run(&rt, b"forms.txt")?;
    run(&rt, b"bodies.txt")?;
    run(&rt, b"limits.txt")?;
    run(&rt, b"lent.txt")?;
    run(&rt, b"order.txt")?;
    run(&rt, b"records.txt")
}
