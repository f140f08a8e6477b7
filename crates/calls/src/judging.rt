// Judging (document 02, Item 5): places 0 to 60 of a record without a ledger, then 61 to 63 on its bank's compartment as it is. Nothing is booked here.
ghost use Rattle.std.specs.Prelude.{◌≡◌, ◌≤◌, ◌<◌, length};
ghost use Rattle.decimal.specs.Decimal.{decimal_of, value_of};
ghost use Rattle.fields.specs.Fields.{field_by, is_whole_index};
ghost use Rattle.tables.specs.Currencies.{found_money};
ghost use Rattle.tables.specs.Tables.{lent};
ghost use Rattle.ledger.specs.Sound.{compartment, ledger_flaw};
ghost use Rattle.calls.specs.Call.{record_limit, sent, refusal_of, formal_by, answer_of};
ghost use Rattle.calls.specs.Judging.{judged_of};
ghost use Rattle.calls.specs.Replied.{outcome};
ghost use Rattle.calls.specs.CallSteps.{Judged, foreseen_of, foreseen_by};

use crate::{Call, refusal};
use answer::{Answer, NO_REPORTER};
use failures::Failures;
use fields::{Place, Record};
use ledger::COMPARTMENT_SIZE;
use refusal::Refusal;
use tables::Tables;

// The new row of a record that is not booked.
const NO_ROW: usize = 65535;

// Places 0 to 60 of a record: the row for which it passes the sender check, 255 for none, and its failures.
// As it is: 255 is the answer record's own number for none, and formal_in and step_answer, on which the theorems stand, say it so.
#[derive(Clone, Copy)]
pub struct Formal {
    pub row: usize,
    pub failed: Failures,
}

// What a booking enters and cancels: where the record's number lies, its quantity and its side, and the live row that it names, 64 for none.
// As it is: 64 for none is what named_row finds and booked takes; an Option would be made here only to be taken apart there.
#[derive(Clone, Copy)]
pub(crate) struct Entry {
    pub number: Place,
    pub quantity: u64,
    pub side: u8,
    pub named: usize,
}

// What a record comes to on the ledger as it is: its answer, and its entry where it has no failure.
#[derive(Clone, Copy)]
pub(crate) struct Foreseen {
    pub answer: Answer,
    pub entry: Option<Entry>,
}

// As it is: a sender and a record, and no `Call`, since the record is looked over by then.
// Judges places 0 to 60: the sender check, then 7 to 60 for a record that passes it. It is lent no ledger.
pub fn judge_formal(tables: Tables, sender: &[u8], record: &Record) -> Formal
    ensures { let t = lent tables.entry in result ≡ formal_by t.reporters (found_money t.currencies) sender.now
        (is_whole_index «record».now.stops) (field_by «record».now.bytes.now «record».now.stops) }
{
    match sender::check(
        tables.reporters,
        sender,
        record.is_whole(),
        record.field(1),
        record.field(2),
    ) {
        Ok(row) => Formal {
            row,
            failed: checks::judge(tables, row, record),
        },
        // As it is: `as` widens, as in settle.
        Err(failed) => Formal {
            row: NO_REPORTER as usize,
            failed,
        },
    }
}

// The answer to a record with these failures, for a reporter's row, booked in a new row.
// As it is: `as` makes each number as narrow as the answer record has it; a `try_from` with an `unwrap` would be no plainer.
fn answer_of(failed: Failures, row: usize, new: usize, record: &[u8]) -> Answer
    requires { (row < 256) × (new < 65536) × (length «record».now ≤ record_limit) }
    ensures { result ≡ answer_of failed row new «record».now }
{
    Answer {
        failed: failed,
        code: failed.code(),
        row: row as u8,
        status: checks::status(failed),
        booked: new as u16,
        length: record.len() as u16,
    }
}

// The quantity of field 22, in ten-thousandths.
fn quantity(f22: &[u8]) -> u64
    ensures { result ≡ value_of (decimal_of 15 4 f22.now) }
{
    match decimal::read(f22, 15, 4) {
        Some(amount) => amount.value,
        None => 0,
    }
}

// A record whose places 0 to 60 are judged, on the ledger as it is. Where all of them pass, 61 to 63 are lent the compartment of the record's bank, and
// nothing of the others, to read.
fn foresee(ledger: &[u8], formal: Formal, record: &Record) -> Foreseen
    requires { Judged formal «record».now.bytes.now «record».now.stops ledger.now }
    ensures { result ≡ foreseen_of formal «record».now.bytes.now (compartment formal.row ledger.now) }
{
    if !formal.failed.is_empty() {
        return Foreseen {
            answer: answer_of(formal.failed, formal.row, NO_ROW, record.bytes),
            entry: None,
        };
    }
    let a = formal.row * COMPARTMENT_SIZE;
    let e = a + COMPARTMENT_SIZE;
    let found = checks::judge_booking(&ledger[a..e], record.field(16), record.field(39));
    if !found.failed.is_empty() {
        return Foreseen {
            answer: answer_of(found.failed, formal.row, NO_ROW, record.bytes),
            entry: None,
        };
    }
    Foreseen {
        answer: answer_of(found.failed, formal.row, found.free, record.bytes),
        entry: Some(Entry {
            number: record.place(39),
            quantity: quantity(record.field(22)),
            side: fields::letter_of(record.field(7)),
            named: found.named,
        }),
    }
}

// All places of a call that is not refused, judged once, on the ledger as it is: what judging tells, and what booking carries out.
pub(crate) fn judged(tables: Tables, ledger: &[u8], call: Call) -> Foreseen
    requires { refusal_of (lent tables) (sent call) (ledger_flaw ledger.now) ≡ 0 }
    ensures { result ≡ foreseen_by (lent tables.entry) (sent call.entry) ledger.now }
{
    let record = Record::of(call.record);
    let formal = judge_formal(tables, call.sender, &record);
    foresee(ledger, formal, &record)
}

// Judging: refusals 2, 3, 4, 13, 14 in that order; then the old call's answer. The ledger is lent for reading only.
pub fn judge_call(tables: Tables, ledger: &[u8], call: Call) -> Result<Answer, Refusal>
    ensures { outcome result ledger.now ≡ judged_of (lent tables.entry) (sent call.entry) ledger.now }
{
    refusal(tables, ledger, call)?;
    Ok(judged(tables, ledger, call).answer)
}
