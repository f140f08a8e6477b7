// Calls that are refused, each with a single fault, and whether the ledger is kept.
ghost use Rattle.std.specs.Prelude.{◌≡◌, length};

use calls::{Call, record_call};
use page::Page;
use std::io;
use tables::Tables;

// Where field 10, which nothing judges, begins in the record that the calls share.
const FIELD_10: usize = 35;

// Room for a record that is a byte too long, and for a ledger.
fn empty_room() -> [u8; 32769]
    ensures { 32769 ≡ length result }
{
    [0u8; 32769]
}

// Calls, and prints the refusal and whether the ledger is as it was.
fn call(rt: &impl Print, tables: Tables, ledger: &mut [u8], made: Call) -> io::Result<()> {
    let mut room = empty_room();
    let mut page = Page {
        room: &mut room,
        end: 0,
    };
    page.append(ledger);
    match record_call(tables, ledger, made) {
        Ok(_) => rt.write_all(b"answered")?,
        Err(refusal) => print!(rt; "refused {}", u8::from(refusal))?,
    }
    if *ledger == *page.text() {
        rt.write_all(b" kept\n")
    } else {
        rt.write_all(b" changed\n")
    }
}

// Calls on tables and ledgers that are not as they should be.
fn lent(rt: &impl Print, tables: Tables, ledger: &mut [u8], shared: Call) -> io::Result<()> {
    let mut long = empty_room();
    let cut = Tables {
        reporters: text::front(tables.reporters, 33),
        ..tables
    };
    let special = Tables {
        currencies: b"XXX",
        ..tables
    };
    call(rt, cut, ledger, shared)?;
    call(rt, special, ledger, shared)?;
    call(rt, tables, &mut long, shared)
}

// Calls of senders that are no names.
fn senders(rt: &impl Print, tables: Tables, ledger: &mut [u8], shared: Call) -> io::Result<()> {
    let record = shared.record;
    let empty = Call {
        sender: b"",
        record,
    };
    let long = Call {
        sender: b"MBONEMBON",
        record,
    };
    let small = Call {
        sender: b"mbone",
        record,
    };
    call(rt, tables, ledger, empty)?;
    call(rt, tables, ledger, long)?;
    call(rt, tables, ledger, small)
}

// Calls with the record, a byte put in at its field 10 so many times.
fn extended(
    rt: &impl Print,
    tables: Tables,
    ledger: &mut [u8],
    shared: Call,
    times: usize,
    byte: u8,
) -> io::Result<()> {
    let mut room = empty_room();
    let mut page = Page {
        room: &mut room,
        end: 0,
    };
    page.append(text::front(shared.record, FIELD_10));
    words::append_times(&mut page, times, &[byte]);
    page.append(text::rest(shared.record, FIELD_10));
    let longer = Call {
        sender: shared.sender,
        record: page.text(),
    };
    call(rt, tables, ledger, longer)
}

// Calls with records that are none; a byte shorter, the last one is a record, and is booked.
fn records(rt: &impl Print, tables: Tables, ledger: &mut [u8], shared: Call) -> io::Result<()> {
    extended(rt, tables, ledger, shared, 1, b'\'')?;
    extended(rt, tables, ledger, shared, 1, b'\n')?;
    extended(rt, tables, ledger, shared, 32667, b'X')?;
    extended(rt, tables, ledger, shared, 32666, b'X')
}

// All these calls. What they share has no fault.
pub(crate) fn run(rt: &impl Print, tables: Tables, ledger: &mut [u8]) -> io::Result<()> {
    let shared = Call {
        sender: b"MBONE",
        record: b"B;98001;I;4711;;;B;20130903;101500;;;;;WBAH;J;;;N;S;AT0000831706;XXX;1500;1;EUR;54,7;;;K;;;;;;;;;;N;C1",
    };
    lent(rt, tables, ledger, shared)?;
    senders(rt, tables, ledger, shared)?;
    records(rt, tables, ledger, shared)
}
