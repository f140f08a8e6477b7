// Books report.edi into ledger.dat, by reporters.ref and currency.ref, all in the working directory. Saves the new ledger as ledger.new, then
// prints what became of each record. With the argument `answers` it saves the answer records too, as answers.new.
#![tactic(auto)]

use calls::filing::file_call;
use console::{argument, print};
use disk::{load_or_complain, save_or_complain};
use page::Page;
use std::rt::Files;
use std::{fs, io};
use tables::Tables;

// Room for a report, for 16 reporters, 512 currencies and a ledger, each with a byte more, so that what is too long is refused, and never cut.
const REPORT_ROOM: usize = 32769;

const REPORTERS_ROOM: usize = 513;

const CURRENCIES_ROOM: usize = 1537;

const LEDGER_ROOM: usize = 32769;

// Room for the answers to 1,024 records, and for the lines that tell of them.
const MOST_RECORDS: usize = 1024;

const ANSWERS_ROOM: usize = MOST_RECORDS * answer::SIZE;

const PAGE_ROOM: usize = 20505;

// What is said first where a file cannot be read or saved.
const UNDONE: &[u8] = b"nothing was booked: ";

// Saves the ledger, and before it the answers where they are asked for: answers to a report that is then not booked do not stay.
fn save_all(rt: &(impl Files + Eprint), ledger: &[u8], answers: Option<&[u8]>) -> io::Result<()> {
    if let Some(answers) = answers {
        save_or_complain(rt, answers, b"answers.tmp", b"answers.new", UNDONE).named?;
    }
    let saved = save_or_complain(rt, ledger, b"ledger.tmp", b"ledger.new", UNDONE);
    if answers.is_some() && saved.named.is_err() {
        let _ = fs::remove_file(rt, "answers.new");
    }
    saved.named
}

// Files the report. What is asked for is saved before a line claims that something was booked.
fn run(
    rt: &(impl Files + Print + Eprint),
    file: &[u8],
    tables: Tables,
    ledger: &mut [u8],
    wanted: bool,
) -> io::Result<()> {
    let mut answers = [0u8; ANSWERS_ROOM];
    let mut room = [0u8; PAGE_ROOM];
    let mut page = Page {
        room: &mut room,
        end: 0,
    };
    match file_call(file, tables, ledger, &mut answers) {
        Ok(n) => {
            let made = text::front(&answers, n.saturating_mul(answer::SIZE));
            save_all(rt, ledger, wanted.then_some(made))?;
            results::accepted(&mut page, &answers, n);
        }
        Err(refusal) => results::refused(&mut page, u8::from(refusal)),
    }
    print(rt, &mut io::writer(rt), page.text())
}

// Reads the four files, and files the report where all of them could be read. What fails is said where it fails.
fn read_and_run(rt: &(impl Files + Print + Eprint), wanted: bool) {
    let mut file = [0u8; REPORT_ROOM];
    let mut reporters = [0u8; REPORTERS_ROOM];
    let mut currencies = [0u8; CURRENCIES_ROOM];
    let mut ledger = [0u8; LEDGER_ROOM];
    let report = load_or_complain(rt, b"report.edi", &mut file, UNDONE);
    let rows = load_or_complain(rt, b"reporters.ref", &mut reporters, UNDONE);
    let codes = load_or_complain(rt, b"currency.ref", &mut currencies, UNDONE);
    let booked = load_or_complain(rt, b"ledger.dat", &mut ledger, UNDONE);
    if let (Ok(report), Ok(rows), Ok(codes), Ok(booked)) = (report, rows, codes, booked) {
        let tables = Tables {
            reporters: &reporters[..rows],
            currencies: &currencies[..codes],
        };
        let _ = run(rt, &file[..report], tables, &mut ledger[..booked], wanted);
    }
}

// Without an argument books the report; with `answers` saves its answers too; with any other does nothing, and says what it knows.
fn main(rt: HostRuntime) {
    let mut word = [0u8; 8];
    let first = argument(&rt, 1, &mut word);
    let second = argument(&rt, 2, &mut [0u8; 1]);
    match (first, second) {
        (None, _) => read_and_run(&rt, false),
        (Some(n), None) if word[..n] == b"answers"[..] => read_and_run(&rt, true),
        _ => {
            let _ = eprintln!(rt;
                "nothing was booked: the only argument that report knows is answers"
            );
        }
    }
}
