// The file call: the records of a report, called singly by its sender.
ghost use Rattle.std.specs.Prelude.{◌≡◌};
ghost use Rattle.frame.specs.Reply.{accepted};
ghost use Rattle.refusal.specs.Refusal.{number_in};
ghost use Rattle.tables.specs.Tables.{lent};
ghost use Rattle.ledger.specs.Sound.{ledger_flaw};
ghost use Rattle.calls.specs.Replied.{filed_as};
ghost use Rattle.calls.specs.Filing.{lent_refusal, file_outcome, carried_out, file_of};
ghost use Rattle.calls.specs.FileSteps.{calls_from, Ready, Taken, Open};

use crate::{Call, admitted, lent_flaw};
use refusal::Refusal;
use tables::Tables;

// Refusals 1 to 4, of the file and what is lent with it.
fn lent_refusal(file: &[u8], tables: Tables, ledger: &[u8]) -> Result<(), Refusal>
    ensures { number_in result ≡ lent_refusal (lent tables.entry) file.now (ledger_flaw ledger.now) }
{
    if envelope::FILE_LIMIT < file.len() {
        return Err(Refusal::FileSize);
    }
    lent_flaw(tables, ledger)
}

// Calls the record at a place of the body singly, and writes its answer as number k. The result is the next record's place: the body is opened, and that CR
// LF stands behind the record is not looked at again.
fn take_record(
    tables: Tables,
    ledger: &mut [u8],
    sender: &[u8],
    body: &[u8],
    at: usize,
    answers: &mut [u8],
    k: usize,
) -> usize
    requires { Ready (lent tables) sender.now body.now at k ledger.old answers.old }
    ensures { Taken (lent tables.entry) sender.now body.now at k ledger.old answers.old result ledger.new answers.new }
{
    let end = envelope::record_end(body, at);
    let answer = admitted(
        tables,
        ledger,
        Call {
            sender,
            record: &body[at..end],
        },
    );
    answer::write(answer, answers, k * answer::SIZE);
    end + envelope::CRLF_SIZE
}

// Takes all records of a body, in file order.
fn take_records(
    tables: Tables,
    ledger: &mut [u8],
    sender: &[u8],
    body: &[u8],
    records: usize,
    answers: &mut [u8],
)
    requires { Open (lent tables) sender.now body.now records 0 0 ledger.old answers.old }
    ensures { file_outcome (accepted records) ledger.new answers.new
        ≡ carried_out (lent tables.entry) (accepted (calls_from sender.now body.now 0)) ledger.old answers.old }
{
    let mut at = 0;
    for k in 0..records {
        at = take_record(tables, ledger, sender, body, at, answers, k);
    }
}

// The file call: refusals 1 to 12 in that order; then every record called singly, by the file's sender, and answered from the buffer's start on.
pub fn file_call(
    file: &[u8],
    tables: Tables,
    ledger: &mut [u8],
    answers: &mut [u8],
) -> Result<usize, Refusal>
    ensures { file_outcome (filed_as result) ledger.new answers.new ≡ file_of (lent tables.entry) file.now ledger.old answers.old }
{
    lent_refusal(file, tables, ledger)?;
    let report = envelope::open_report(file)?;
    if answers.len() < report.records * answer::SIZE {
        return Err(Refusal::ShortBuffer);
    }
    take_records(
        tables,
        ledger,
        &file[report.sender..report.sender_end],
        &file[report.first..report.end],
        report.records,
        answers,
    );
    Ok(report.records)
}
