// Judges records without booking them: each record of standard input, one a line, as if the sender that is the argument reported it on ledger.dat,
// by reporters.ref and currency.ref, all in the working directory. Prints what would become of each, then how many would be booked. Writes no file.
#![tactic(auto)]

ghost use Rattle.std.specs.Prelude.{◌+◌, ◌<◌, ◌≡◌, ◌≤◌, IfOk, if◌then◌else◌, length};
ghost use Rattle.io.specs.Counts.{IsPrefixLen};

use answer::{Answer, BOOKED};
use calls::Call;
use console::{argument, print};
use disk::{Reason, load_or_complain};
use page::Page;
use refusal::Refusal;
use std::io;
use std::io::{Input, Read};
use std::rt::Files;
use tables::Tables;

// Room for 16 reporters, 512 currencies and a ledger, each with a byte more, so that what is too long is refused, and never cut.
const REPORTERS_ROOM: usize = 513;

const CURRENCIES_ROOM: usize = 1537;

const LEDGER_ROOM: usize = 32769;

// Room for a record and two bytes more: of a longer line so many are kept, which are too many without a CR at their end, too, and so it is refused.
const LINE_ROOM: usize = 32770;

// How much of standard input is read at a time, at most.
const CHUNK_ROOM: usize = 65536;

// Room for each line that is printed, whatever its numbers (`line_most`, crates/results/proofs/RoomLaws.antt): none is cut.
const PAGE_ROOM: usize = 68;

// A proved loop has to end, and nothing says that standard input does: no run makes so many reads.
const MOST_READS: u64 = 100000000000000;

// What is said first where a file cannot be read.
const UNDONE: &[u8] = b"nothing was judged: ";

// What the records are judged by, and for whom.
#[derive(Clone, Copy)]
struct Basis<'a> {
    tables: Tables<'a>,
    ledger: &'a [u8],
    sender: &'a [u8],
}

// How far a trial has come: the bytes of a line whose end is not read yet, the records judged, and those of them that would be booked.
#[derive(Clone, Copy)]
struct Progress {
    bytes: usize,
    number: u64,
    booked: u64,
    ghost most: { booked ≤ number },
}

impl Progress {
    // Before the first line.
    fn start() -> Progress
        ensures { result.number ≡ 0 }
    {
        Progress {
            bytes: 0,
            number: 0,
            booked: 0,
        }
    }

    // With a record more, whose line has been read to its end.
    fn counted(self, books: bool) -> Progress
        requires { self.number < 18446744073709551615 }
        ensures { (result.bytes ≡ 0) × (result.number ≡ self.number + 1) × (result.booked ≡ self.booked + (if books then 1 else 0)) }
    {
        Progress {
            bytes: 0,
            number: self.number + 1,
            booked: self.booked + u64::from(books),
        }
    }
}

// The record of a line: without the CR at its end, which the lines of a report have.
fn record_of(line: &[u8]) -> &[u8] {
    line.strip_suffix(b"\r").unwrap_or(line)
}

// Prints what would become of a record.
fn tell(
    rt: &(impl Print + Eprint),
    number: u64,
    replied: Result<Answer, Refusal>,
) -> io::Result<()> {
    let mut room = [0u8; PAGE_ROOM];
    let mut page = Page {
        room: &mut room,
        end: 0,
    };
    match replied {
        Ok(a) => results::append_line(&mut page, number, a),
        Err(refusal) => results::append_refused_line(&mut page, number, u8::from(refusal)),
    }
    print(rt, &mut io::writer(rt), page.text())
}

// Judges the record of a line, and prints what would become of it.
fn judge(
    rt: &(impl Print + Eprint),
    basis: Basis,
    line: &[u8],
    done: Progress,
) -> io::Result<Progress>
    requires { done.number < 18446744073709551615 }
    ensures { IfOk result (λ p. (p.bytes ≡ 0) × (p.number ≡ done.number + 1)) }
{
    let call = Call {
        sender: basis.sender,
        record: record_of(line),
    };
    let replied = calls::judging::judge_call(basis.tables, basis.ledger, call);
    let next = done.counted(replied.is_ok_and(|a| a.status == BOOKED));
    tell(rt, next.number, replied)?;
    Ok(next)
}

// Judges each line that ends in a chunk of the input. What stands behind the last of them is kept, as the start of the next.
fn judge_lines(
    rt: &(impl Print + Eprint),
    basis: Basis,
    chunk: &[u8],
    line: &mut [u8],
    start: Progress,
) -> io::Result<Progress>
    requires { start.number + length chunk.now < 18446744073709551615 }
    ensures { IfOk result (λ p. p.number ≤ start.number + length chunk.now) }
{
    let mut done = start;
    let mut rest = chunk;
    while let Some(n) = text::position(rest, b'\n') {
        let mut page = Page {
            room: line,
            end: done.bytes,
        };
        page.append(&rest[..n]);
        done = judge(rt, basis, page.text(), done)?;
        rest = &rest[n + 1..];
    }
    let mut page = Page {
        room: line,
        end: done.bytes,
    };
    page.append(rest);
    done.bytes = page.end;
    Ok(done)
}

// Prints how many records would be booked.
fn tell_bookings(rt: &(impl Print + Eprint), count: u64) -> io::Result<()> {
    let mut room = [0u8; PAGE_ROOM];
    let mut page = Page {
        room: &mut room,
        end: 0,
    };
    results::would_book(&mut page, count);
    print(rt, &mut io::writer(rt), page.text())
}

// Ends a trial. What stands behind the last LF is a record where it is not empty, a lone CR an empty one.
fn finish(rt: &(impl Print + Eprint), basis: Basis, line: &[u8], done: Progress) -> io::Result<()>
    requires { done.number < 18446744073709551615 }
{
    if line.is_empty() {
        return tell_bookings(rt, done.booked);
    }
    let last = judge(rt, basis, line, done)?;
    tell_bookings(rt, last.booked)
}

// Reads standard input on, no byte at its end, and says so where it cannot be read.
fn read_on(rt: &impl Eprint, input: &mut impl Read, chunk: &mut [u8]) -> io::Result<usize>
    ensures { IfOk result (λ n. IsPrefixLen n chunk.new) }
{
    let read = input.read(chunk);
    if let Err(error) = read {
        let _ = eprintln!(rt; "standard input: {}", Reason { error });
    }
    read
}

// Judges the records of standard input, chunk by chunk. Where it cannot be read, or a line cannot be printed, the trial ends without its last line.
fn judge_input(
    rt: &(impl Print + Eprint),
    input: &mut impl Read,
    basis: Basis,
    chunk: &mut [u8],
    line: &mut [u8],
) -> io::Result<()>
    requires { length chunk.old ≤ 65536 }
{
    let mut done = Progress::start();
    for reads in 0..MOST_READS {
        let n = read_on(rt, input, chunk)?;
        if n == 0 {
            return finish(rt, basis, text::front(line, done.bytes), done);
        }
        done = judge_lines(rt, basis, &chunk[..n], line, done)?;
    }
    Ok(())
}

// Prints the refusal that no record has a part in, the tables', the ledger's or the sender's; without one judges the records.
fn run<'a>(
    rt: &(impl Input + Print + Eprint),
    tables: Tables<'a>,
    ledger: &'a [u8],
    sender: &'a [u8],
) -> io::Result<()> {
    let no_record = Call {
        sender,
        record: b"",
    };
    if let Err(refusal) = calls::refusal(tables, ledger, no_record) {
        let mut room = [0u8; PAGE_ROOM];
        let mut page = Page {
            room: &mut room,
            end: 0,
        };
        results::refused(&mut page, u8::from(refusal));
        return print(rt, &mut io::writer(rt), page.text());
    }
    let mut chunk = [0u8; CHUNK_ROOM];
    let mut line = [0u8; LINE_ROOM];
    let mut input = rt.reader();
    let basis = Basis {
        tables,
        ledger,
        sender,
    };
    judge_input(rt, &mut input, basis, &mut chunk, &mut line)
}

// Reads the three files, and judges for a sender where all of them could be read. What fails is said where it fails.
fn read_and_run(rt: &(impl Files + Input + Print + Eprint), sender: &[u8]) {
    let mut reporters = [0u8; REPORTERS_ROOM];
    let mut currencies = [0u8; CURRENCIES_ROOM];
    let mut ledger = [0u8; LEDGER_ROOM];
    let rows = load_or_complain(rt, b"reporters.ref", &mut reporters, UNDONE);
    let codes = load_or_complain(rt, b"currency.ref", &mut currencies, UNDONE);
    let booked = load_or_complain(rt, b"ledger.dat", &mut ledger, UNDONE);
    if let (Ok(rows), Ok(codes), Ok(booked)) = (rows, codes, booked) {
        let tables = Tables {
            reporters: &reporters[..rows],
            currencies: &currencies[..codes],
        };
        let _ = run(rt, tables, &ledger[..booked], sender);
    }
}

// Takes the sender from its argument. One that is longer than a mailbox is taken for an empty one, and so refused as it has to be.
fn main(rt: HostRuntime) {
    let mut sender = [0u8; 8];
    let first = argument(&rt, 1, &mut sender);
    let second = argument(&rt, 2, &mut [0u8; 1]);
    let (Some(n), None) = (first, second) else {
        let _ = eprintln!(rt; "nothing was judged: say the sender, trial SENDER");
        return;
    };
    read_and_run(&rt, &sender[..n]);
}
