// Booking by an earlier answer (document 02, Item 5): the record, its sender, and what judging answered before.
ghost use Rattle.std.specs.Prelude.{◌≡◌, IfOk};
ghost use Rattle.frame.specs.Isolation.{single};
ghost use Rattle.refusal.specs.Refusal.{number_in};
ghost use Rattle.failures.specs.Failures.{before_booking};
ghost use Rattle.tables.specs.Tables.{lent};
ghost use Rattle.ledger.specs.Sound.{ledger_flaw};
ghost use Rattle.calls.specs.Call.{sent};
ghost use Rattle.calls.specs.CallSteps.{foreseen_by};
ghost use Rattle.calls.specs.Judging.{booking, fits_failures, booking_rules};
ghost use Rattle.calls.specs.Replied.{outcome};

use crate::judging::{Foreseen, judged};
use crate::{Call, refusal, settle};
use answer::Answer;
use failures::Failures;
use refusal::Refusal;
use tables::Tables;

// Whether an earlier answer is sixteen bytes that have, of places 0 to 60, just those of these failures. Nothing else of it is looked at.
fn fits(earlier: &[u8], failed: Failures) -> bool
    ensures { result ≡ fits_failures earlier.now (before_booking failed) }
{
    if earlier.len() != answer::SIZE {
        return false;
    }
    let told = answer::read(earlier, 0);
    told.failed.before_booking().same(failed.before_booking())
}

// Refusals 2, 3, 4, 13, 14, 29 in that order; else what a record comes to on the ledger as it is, judged again.
fn fitting(tables: Tables, ledger: &[u8], call: Call, earlier: &[u8]) -> Result<Foreseen, Refusal>
    ensures number { number_in result ≡ (booking_rules (lent tables.entry)).refusal (booking (sent call.entry) earlier.now) (ledger_flaw ledger.now) }
    ensures foreseen { IfOk result (λ foreseen. foreseen ≡ foreseen_by (lent tables.entry) (sent call.entry) ledger.now) }
{
    refusal(tables, ledger, call)?;
    let foreseen = judged(tables, ledger, call);
    if !fits(earlier, foreseen.answer.failed) {
        return Err(Refusal::EarlierAnswer);
    }
    Ok(foreseen)
}

// Why a booking is refused: 2, 3, 4, 13, 14, 29, the first that applies.
pub fn booking_refusal(
    tables: Tables,
    ledger: &[u8],
    call: Call,
    earlier: &[u8],
) -> Result<(), Refusal>
    ensures { number_in result ≡ (booking_rules (lent tables.entry)).refusal (booking (sent call.entry) earlier.now) (ledger_flaw ledger.now) }
{
    fitting(tables, ledger, call, earlier)?;
    Ok(())
}

// Booking: refusals 2, 3, 4, 13, 14, 29 in that order; then the old call's answer and effect on the ledger as it is. Places 61 to 63 are judged again.
pub fn book_call(
    tables: Tables,
    ledger: &mut [u8],
    call: Call,
    earlier: &[u8],
) -> Result<Answer, Refusal>
    ensures { outcome result ledger.new ≡ single (booking_rules (lent tables.entry)) (booking (sent call.entry) earlier.now) ledger.old }
{
    let foreseen = fitting(tables, ledger, call, earlier)?;
    settle(ledger, foreseen, call.record);
    Ok(foreseen.answer)
}
