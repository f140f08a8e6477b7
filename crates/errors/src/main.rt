// Writes the error file for the sender of report.edi, by its answers, answers.dat, and by the texts of member.txt and texts.ref, all in the working
// directory, as errors.edi; then prints its length. Its two arguments are the date and the time that it bears.
#![tactic(auto)]

ghost use Rattle.std.specs.Prelude.{◌≡◌, length};

use console::{argument, print};
use disk::{load_or_complain, save_or_complain};
use page::Page;
use std::io;
use std::rt::Files;
use texts::Lists;

// Room for a report, for the answers to 1,024 records, and for 10,000 rows of texts, each with a byte more, so that what is too long is refused, and
// never cut.
const REPORT_ROOM: usize = 32769;

const ANSWERS_ROOM: usize = 1024 * answer::SIZE + 1;

const TEXTS_ROOM: usize = 800001;

// Room for every error file, and for the line that tells of it.
const ERRORS_ROOM: usize = 117875;

const PAGE_ROOM: usize = 32;

// What is said first where a file cannot be read or saved.
const UNDONE: &[u8] = b"no error file was written: ";

// What an error file is written from.
#[derive(Clone, Copy)]
struct Sources<'a> {
    report: &'a [u8],
    answers: &'a [u8],
    member: &'a [u8],
    ours: &'a [u8],
}

// Room for a list of texts. It has a function of its own, whose clause says the length: a proof that meets so long a list computes it else.
fn texts_room() -> [u8; TEXTS_ROOM]
    ensures { 800001 ≡ length result }
{
    [0u8; TEXTS_ROOM]
}

// Writes the file and saves it. It is saved before a line claims that it was written.
fn run(
    rt: &(impl Files + Print + Eprint),
    from: Sources,
    date: &[u8],
    time: &[u8],
) -> io::Result<()> {
    let mut file = [0u8; ERRORS_ROOM];
    let mut room = [0u8; PAGE_ROOM];
    let mut page = Page {
        room: &mut room,
        end: 0,
    };
    let lists = Lists {
        member: from.member,
        ours: from.ours,
    };
    match error_file::write(from.report, from.answers, lists, date, time, &mut file) {
        Ok(n) => {
            let written = text::front(&file, n);
            save_or_complain(rt, written, b"errors.tmp", b"errors.edi", UNDONE).named?;
            results::written(&mut page, n as u64);
        }
        Err(refusal) => results::refused(&mut page, u8::from(refusal)),
    }
    print(rt, &mut io::writer(rt), page.text())
}

// Reads the four files, and writes the error file of a date and a time where all of them could be read. What fails is said where it fails.
fn read_and_run(rt: &(impl Files + Print + Eprint), date: &[u8], time: &[u8]) {
    let mut file = [0u8; REPORT_ROOM];
    let mut answers = [0u8; ANSWERS_ROOM];
    let mut member = texts_room();
    let mut ours = texts_room();
    let report = load_or_complain(rt, b"report.edi", &mut file, UNDONE);
    let answered = load_or_complain(rt, b"answers.dat", &mut answers, UNDONE);
    let theirs = load_or_complain(rt, b"member.txt", &mut member, UNDONE);
    let known = load_or_complain(rt, b"texts.ref", &mut ours, UNDONE);
    if let (Ok(report), Ok(answered), Ok(theirs), Ok(known)) = (report, answered, theirs, known) {
        let from = Sources {
            report: &file[..report],
            answers: &answers[..answered],
            member: &member[..theirs],
            ours: &ours[..known],
        };
        let _ = run(rt, from, date, time);
    }
}

// Takes the date and the time from its arguments. One that is longer than a date or a time is taken for an empty one, and so refused as it has to be.
fn main(rt: HostRuntime) {
    let mut date = [0u8; 8];
    let mut time = [0u8; 4];
    let first = argument(&rt, 1, &mut date);
    let second = argument(&rt, 2, &mut time);
    let third = argument(&rt, 3, &mut [0u8; 1]);
    let (Some(day), Some(minute), None) = (first, second, third) else {
        let _ = eprintln!(rt;
            "no error file was written: say its date and its time, errors YYYYMMDD HHMM"
        );
        return;
    };
    read_and_run(&rt, &date[..day], &time[..minute]);
}
