// A list of drawn calls on one ledger, and each bank's lone run, from a ledger of zeros.
use crate::arguments::{append_record, sender_of};
use crate::banks::BANKS;
use crate::drawn::{Draw, Draws};
use crate::print::{bytes_of, print_count};
use answer::{Answer, BOOKED};
use calls::{Call, record_call};
use ledger::COMPARTMENT_SIZE;
use page::Page;
use refusal::Refusal;
use std::io;
use std::rt::Files;
use tables::Tables;

// How many calls are drawn.
const CALLS: usize = 4096;

// The status of a record that passes for no bank.
// As it is: it is compared with the status of an answer record, a byte.
const STRANGER: u8 = 1;

// The record of a call, with a small letter for each part that is drawn.
const TEMPLATE: &[u8] =
    b"k;r;I;47m1;;;s;20130903;101500;;;;;WBAH;J;c;;N;S;AT0000831706;XXX;q;1;e;54,7;;;K;;;;;;;;;;N;Nn";

// What a call returns.
type Reply = Result<Answer, Refusal>;

// What a bank's lone run comes to.
#[derive(Clone, Copy)]
struct Tally {
    calls: u64,
    booked: u64,
    same: bool,
}

// Whether a reply has a status.
fn has_status(reply: Reply, status: u8) -> bool {
    reply.is_ok_and(|a| a.status == status)
}

// Makes a call.
fn reply_to(reporters: &[u8], ledger: &mut [u8], draw: Draw) -> Reply {
    let mut room = [0u8; 256];
    let mut page = Page {
        room: &mut room,
        end: 0,
    };
    append_record(&mut page, TEMPLATE, reporters, draw);
    let call = Call {
        sender: sender_of(reporters, draw),
        record: page.text(),
    };
    let tables = Tables {
        reporters,
        currencies: b"CHFEURUSD",
    };
    record_call(tables, ledger, call)
}

// Makes all calls, and keeps their replies.
fn run_list(reporters: &[u8], ledger: &mut [u8], replies: &mut [Reply]) {
    for (kept, draw) in replies.iter_mut().zip(Draws::new()) {
        *kept = reply_to(reporters, ledger, draw);
    }
}

// A tally with a reply more, and the one that is kept for the same call.
fn tallied(tally: Tally, reply: Reply, kept: Reply) -> Tally {
    Tally {
        calls: tally.calls.saturating_add(1),
        booked: tally
            .booked
            .saturating_add(u64::from(has_status(reply, BOOKED))),
        same: tally.same & (reply.map(bytes_of) == kept.map(bytes_of)),
    }
}

// Makes the calls that are steps of the bank.
fn run_lone(reporters: &[u8], ledger: &mut [u8], replies: &[Reply], bank: usize) -> Tally {
    let mut tally = Tally {
        calls: 0,
        booked: 0,
        same: true,
    };
    for (kept, draw) in replies.iter().zip(Draws::new()) {
        if draw.passes_for(bank) {
            tally = tallied(tally, reply_to(reporters, ledger, draw), *kept);
        }
    }
    tally
}

// The compartment of a bank.
fn compartment(ledger: &[u8], bank: usize) -> &[u8] {
    text::front(
        text::rest(ledger, bank % BANKS * COMPARTMENT_SIZE),
        COMPARTMENT_SIZE,
    )
}

// Runs a bank alone, and prints whether its replies and its compartment are those of the list.
fn compare(
    rt: &impl Print,
    reporters: &[u8],
    ledger: &[u8],
    replies: &[Reply],
    bank: usize,
) -> io::Result<()> {
    let mut own = crate::empty_ledger();
    let tally = run_lone(reporters, &mut own, replies, bank);
    let same = compartment(&own, bank) == compartment(ledger, bank);
    print_count(rt, b"bank ", bank as u64)?;
    print_count(rt, b" calls ", tally.calls)?;
    print_count(rt, b" booked ", tally.booked)?;
    if same & tally.same {
        rt.write_all(b" same\n")
    } else {
        rt.write_all(b" different\n")
    }
}

// How many of the replies have a status.
fn count(replies: &[Reply], status: u8) -> u64 {
    replies
        .iter()
        .filter(|reply| has_status(**reply, status))
        .count() as u64
}

// Prints how many calls there are, and of each kind.
fn print_totals(rt: &impl Print, replies: &[Reply]) -> io::Result<()> {
    let refused = replies.iter().filter(|reply| reply.is_err()).count();
    print_count(rt, b"calls ", replies.len() as u64)?;
    print_count(rt, b" refused ", refused as u64)?;
    print_count(rt, b" strangers ", count(replies, STRANGER))?;
    print_count(rt, b" booked ", count(replies, BOOKED))?;
    rt.write_all(b"\n")
}

// Makes the list, and compares each bank with its lone run.
pub(crate) fn run(rt: &(impl Files + Print + Eprint)) -> io::Result<()> {
    let mut reporters = [0u8; 512];
    let mut ledger = crate::empty_ledger();
    let mut replies: [Reply; CALLS] = [Err(Refusal::Record); CALLS];
    disk::load_or_fail(rt, b"banks.ref", &mut reporters);
    run_list(&reporters, &mut ledger, &mut replies);
    for bank in 0..BANKS {
        compare(rt, &reporters, &ledger, &replies, bank)?;
    }
    print_totals(rt, &replies)
}
