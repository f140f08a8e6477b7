// Places 7 to 63: a record's fields, and the compartment that it is to be booked in.
#![tactic(auto)]

ghost use Rattle.std.specs.Prelude.{◌≡◌};
ghost use Rattle.fields.specs.Fields.{field_by};
ghost use Rattle.tables.specs.Currencies.{found_money};
ghost use Rattle.checks.specs.Record.{record_failures};
ghost use Rattle.checks.specs.Booking.{named_row, booking_of};
ghost use Rattle.checks.specs.Verdict.{status_of};

use failures::Failures;
use fields::Record;
use ledger::ROW_COUNT;
use tables::Tables;

// As it is: 64 for none in both rows, as ledger gives it and booking takes it.
// What places 61 to 63 find: their failures, the lowest free row, and the live row that the record names.
#[derive(Clone, Copy)]
pub struct Booking {
    pub failed: Failures,
    pub free: usize,
    pub named: usize,
}

// The failures of places 7 to 60 of a record that passes the sender check for a row, by the record's index. It is lent no ledger.
pub fn judge(tables: Tables, row: usize, record: &Record) -> Failures
    ensures { result ≡ record_failures tables.entry.reporters.now (found_money tables.entry.currencies.now) row
        (field_by «record».now.bytes.now «record».now.stops) }
{
    let f3 = record.field(3);
    let f4 = record.field(4);
    let f18 = record.field(18);
    let f19 = record.field(19);
    let f21 = record.field(21);
    let f24 = record.field(24);
    let money21 = tables::is_money(tables.currencies, f21);
    let money24 = tables::is_money(tables.currencies, f24);
    let client = client::judge(f3, f4, record.field(5), record.field(6));
    let trade = trade::judge_trade(
        record.field(7),
        record.field(8),
        record.field(9),
        record.field(14),
        record.field(15),
        f18,
        f19,
    );
    let instrument = trade::judge_instrument(f19, record.field(20));
    let terms = terms::judge_terms(
        money21,
        money24,
        f21,
        record.field(22),
        record.field(23),
        f24,
        record.field(25),
    );
    let capacity = terms::judge_capacity(tables.reporters, row, f3, f4, f18, record.field(28));
    let derivative = terms::judge_derivative(
        money21,
        f21,
        record.field(29),
        record.field(30),
        record.field(32),
    );
    let underlying = underlying::judge(f19, f21, record.field(33));
    let marks = terms::judge_marks(record.field(38), record.field(39));
    Failures::none()
        .add_from(7, &client)
        .add_from(18, &trade)
        .add_from(25, &instrument)
        .add_from(31, &terms)
        .add_from(42, &capacity)
        .add_from(47, &derivative)
        .add_from(52, &underlying)
        .add_from(59, &marks)
}

// The live row that F16 names, 64 for none.
// As it is: 64 for none, as ledger gives it and booking takes it; an Option would be made here only to be taken apart there.
#[tactic(auto, unfolding(crate::specs::Booking::named_row))]
fn named_row(c: &[u8], f16: &[u8]) -> usize
    ensures { result ≡ named_row c.now f16.now }
{
    if f16.is_empty() {
        ROW_COUNT
    } else {
        ledger::live_row(c, f16)
    }
}

// What places 61 to 63 find in a compartment. It is lent that compartment only, to read.
#[tactic(auto, unfolding(crate::specs::Booking::booking_of, crate::specs::Booking::booking_tests))]
pub fn judge_booking(c: &[u8], f16: &[u8], f39: &[u8]) -> Booking
    ensures { result ≡ booking_of c.now f16.now f39.now }
{
    let named = named_row(c, f16);
    let free = ledger::free_row(c);
    let tests = [
        ledger::row_by_number(c, f39) < ROW_COUNT, // 61 9392
        !f16.is_empty() & !(named < ROW_COUNT), // 62 0161
        !(free < ROW_COUNT), // 63 9900
    ];
    Booking {
        failed: Failures::none().add_from(61, &tests),
        free,
        named,
    }
}

// What became of a record, by its first failure: 0 booked, 1 places 0 to 6, 2 places 7 to 60, 3 places 61 to 63.
// As it is: the number is byte 11 of the answer record that C reads, and its one use writes it there.
#[tactic(auto, unfolding(crate::specs::Verdict::status_at))]
pub fn status(failed: Failures) -> u8
    ensures { result ≡ status_of failed }
{
    match failed.first() {
        0..=6 => 1,
        7..=60 => 2,
        61..=63 => 3,
        _ => 0,
    }
}
