// The single-record call: judging and booking in a row.
#![tactic(auto)]

ghost use Rattle.std.specs.Prelude.{[], ◌∷◌, Ok, ◌≡◌, length};
ghost use Rattle.frame.specs.Isolation.{single};
ghost use Rattle.frame.specs.Reply.{first_of};
ghost use Rattle.refusal.specs.Refusal.{number_in};
ghost use Rattle.tables.specs.Tables.{lent, tables_flaw};
ghost use Rattle.ledger.specs.Sound.{ledger_flaw};
ghost use Rattle.calls.specs.Call.{record_form, call_flaw, refusal_of, sent};
ghost use Rattle.calls.specs.CallSteps.{Settles, settled};
ghost use Rattle.calls.specs.Rules.{rules};
ghost use Rattle.calls.specs.Judging.{in_a_row};
ghost use Rattle.calls.specs.Replied.{outcome};

use answer::Answer;
use judging::{Foreseen, judged};
use ledger::COMPARTMENT_SIZE;
use refusal::Refusal;
use tables::Tables;
use text::Class;

pub mod earlier;
pub mod filing;
pub mod judging;

// The largest record.
const RECORD_LIMIT: usize = 32768;

// The arguments of a call but for the tables and the ledger.
#[derive(Clone, Copy)]
pub struct Call<'a> {
    pub sender: &'a [u8],
    pub record: &'a [u8],
}

// Whether a record is at most 32,768 bytes, without CR, LF or apostrophe.
fn is_record(record: &[u8]) -> bool
    ensures { result ≡ record_form «record».now }
{
    record.len() <= RECORD_LIMIT && text::all(Class::RecordByte, record)
}

// Refusals 13 and 14, of a call's sender and its record.
fn call_flaw(call: Call) -> Result<(), Refusal>
    ensures { number_in result ≡ call_flaw (sent call.entry) }
{
    if !identifier::is_name(call.sender, 8) {
        return Err(Refusal::Sender);
    }
    if !is_record(call.record) {
        return Err(Refusal::Record);
    }
    Ok(())
}

// Refusals 2 to 4, of the tables and the ledger that are lent.
fn lent_flaw(tables: Tables, ledger: &[u8]) -> Result<(), Refusal>
    ensures { number_in result ≡ first_of (tables_flaw (lent tables.entry) ∷ ledger_flaw ledger.now ∷ []) }
{
    tables.check()?;
    if !ledger::sound_ledger(ledger) {
        return Err(Refusal::Ledger);
    }
    Ok(())
}

// Why a call is refused: 2, 3, 4, 13, 14, the first that applies.
pub fn refusal(tables: Tables, ledger: &[u8], call: Call) -> Result<(), Refusal>
    ensures { number_in result ≡ refusal_of (lent tables.entry) (sent call.entry) (ledger_flaw ledger.now) }
{
    lent_flaw(tables, ledger)?;
    call_flaw(call)
}

// Books a record for which an entry is foreseen: the booking is lent the compartment of its bank, and nothing of the others.
pub(crate) fn settle(ledger: &mut [u8], foreseen: Foreseen, record: &[u8])
    requires { Settles foreseen «record».now ledger.old }
    ensures { ledger.new ≡ settled foreseen «record».now ledger.old }
{
    if let Some(entry) = foreseen.entry {
        // As it is: `as` widens here and below; by `usize::from` an answer would have to carry what that gives, no plainer.
        let a = foreseen.answer.row as usize * COMPARTMENT_SIZE;
        let e = a + COMPARTMENT_SIZE;
        let start = entry.number.start;
        let end = start + entry.number.length;
        booking::book(
            &mut ledger[a..e],
            foreseen.answer.booked as usize,
            &record[start..end],
            entry.quantity,
            entry.side,
            entry.named,
        );
    }
}

// A call that is not refused: judged and booked, the two in a row. Always inlined: in a file of short records the call itself is a good part of one.
#[inline(always)]
pub(crate) fn admitted(tables: Tables, ledger: &mut [u8], call: Call) -> Answer
    requires { refusal_of (lent tables) (sent call) (ledger_flaw ledger.old) ≡ 0 }
    ensures { outcome (Ok result) ledger.new ≡ single (rules (lent tables.entry)) (sent call.entry) ledger.old }
{
    let foreseen = judged(tables, ledger, call);
    settle(ledger, foreseen, call.record);
    foreseen.answer
}

// The old single-record call: refusals 2, 3, 4, 13, 14 in that order; then judging and booking in a row. Nothing is judged twice.
pub fn record_call(tables: Tables, ledger: &mut [u8], call: Call) -> Result<Answer, Refusal>
    ensures { outcome result ledger.new ≡ in_a_row (lent tables.entry) (sent call.entry) ledger.old }
{
    refusal(tables, ledger, call)?;
    Ok(admitted(tables, ledger, call))
}
