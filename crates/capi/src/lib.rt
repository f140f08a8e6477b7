// What the functions exported for C and Rust do; the crate capi_c exports them. Each returns 0 where it is carried out, else the number of its refusal, and a
// refused call writes nothing; the field view and the sum are never refused, and return what they tell.
#![tactic(auto)]

ghost use Rattle.std.specs.Prelude.{[], ◌∷◌, ◌≡◌, ltb, length};
ghost use Rattle.answer.specs.Answer.{answer_size};
ghost use Rattle.tables.specs.Tables.{tables_of};
ghost use Rattle.refusal.specs.Refusal.{number_in};
ghost use Rattle.capi.specs.Exported.{told_into, counted_into, exported, record_export, judge_export, book_export, file_export, short_number};
ghost use Rattle.capi.specs.Exported.{field_numbers, field_export, error_export, sum_export};

use answer::Answer;
use calls::Call;
use refusal::Refusal;
use tables::Tables;
use texts::Lists;

// Whether a buffer has no room for one answer.
fn is_short(answer: &[u8]) -> bool
    ensures { result ≡ ltb (length answer.now) answer_size }
{
    answer.len() < answer::SIZE
}

// The number of a call whose buffer is too short: its own refusal, else 12. Nothing is booked.
fn short_number(refused: Result<(), Refusal>) -> u64
    ensures { result ≡ short_number (number_in refused) }
{
    match refused {
        Ok(()) => u64::from(Refusal::ShortBuffer),
        Err(own) => u64::from(own),
    }
}

// Tells the reply of a call of one record: the number of its refusal; or 0, with the answer's sixteen bytes at the start of the answer buffer.
fn tell(replied: Result<Answer, Refusal>, answer: &mut [u8]) -> u64
    ensures value { result ≡ number_in replied }
    ensures answer_after { answer.new ≡ told_into replied answer.old }
{
    match replied {
        Ok(told) => {
            answer::write(told, answer, 0);
            0
        }
        Err(why) => u64::from(why),
    }
}

// Tells the reply of a call that counts: the number of its refusal; or 0, with the count in the lent word.
fn tell_count(counted: Result<usize, Refusal>, word: &mut u64) -> u64
    ensures value { result ≡ number_in counted }
    ensures word_after { word.new ≡ counted_into counted word.old }
{
    match counted {
        Ok(count) => {
            *word = count as u64;
            0
        }
        Err(refusal) => u64::from(refusal),
    }
}

// The single-record call: the answer's sixteen bytes at the start of the answer buffer.
// As it is: the parameters, here and below, are those of the C interface, which capi_c passes on one by one.
pub fn roselhanda_record(
    reporters: &[u8],
    currencies: &[u8],
    ledger: &mut [u8],
    sender: &[u8],
    record: &[u8],
    answer: &mut [u8],
) -> u64
    ensures { exported result ledger.new answer.new []
        ≡ record_export (tables_of reporters.now currencies.now) sender.now «record».now ledger.old
        answer.old }
{
    let tables = Tables {
        reporters,
        currencies,
    };
    let call = Call { sender, record };
    if is_short(answer) {
        return short_number(calls::refusal(tables, ledger, call));
    }
    tell(calls::record_call(tables, ledger, call), answer)
}

// The file call: sixteen bytes a record from the start of the answer buffer, and in the lent word the count of records.
pub fn roselhanda_file(
    file: &[u8],
    reporters: &[u8],
    currencies: &[u8],
    ledger: &mut [u8],
    answers: &mut [u8],
    records: &mut u64,
) -> u64
    ensures { exported result ledger.new answers.new (records.new ∷ [])
        ≡ file_export (tables_of reporters.now currencies.now) file.now ledger.old answers.old
        records.old }
{
    let tables = Tables {
        reporters,
        currencies,
    };
    let filed = calls::filing::file_call(file, tables, ledger, answers);
    tell_count(filed, records)
}

// Judging: the answer's sixteen bytes at the start of the answer buffer. The ledger is lent for reading only.
pub fn roselhanda_judge(
    reporters: &[u8],
    currencies: &[u8],
    ledger: &[u8],
    sender: &[u8],
    record: &[u8],
    answer: &mut [u8],
) -> u64
    ensures { exported result ledger.now answer.new []
        ≡ judge_export (tables_of reporters.now currencies.now) sender.now «record».now ledger.now
        answer.old }
{
    let tables = Tables {
        reporters,
        currencies,
    };
    let call = Call { sender, record };
    if is_short(answer) {
        return short_number(calls::refusal(tables, ledger, call));
    }
    tell(calls::judging::judge_call(tables, ledger, call), answer)
}

// Booking by an earlier answer: the answer's sixteen bytes at the start of the answer buffer.
pub fn roselhanda_book(
    reporters: &[u8],
    currencies: &[u8],
    ledger: &mut [u8],
    sender: &[u8],
    record: &[u8],
    earlier: &[u8],
    answer: &mut [u8],
) -> u64
    ensures { exported result ledger.new answer.new []
        ≡ book_export (tables_of reporters.now currencies.now) sender.now «record».now earlier.now
        ledger.old answer.old }
{
    let tables = Tables {
        reporters,
        currencies,
    };
    let call = Call { sender, record };
    if is_short(answer) {
        return short_number(calls::earlier::booking_refusal(tables, ledger, call, earlier));
    }
    tell(
        calls::earlier::book_call(tables, ledger, call, earlier),
        answer,
    )
}

// The field view: where field n of the record starts, and in the lent word how long it is.
pub fn roselhanda_field(record: &[u8], n: u64, length: &mut u64) -> u64
    ensures { field_numbers result length.new ≡ field_export «record».now n }
{
    let p = fields::field_place(record, n as usize);
    *length = p.length as u64;
    p.start as u64
}

// The error file: from the start of out, and in the lent word how long it is.
pub fn roselhanda_error_file(
    report: &[u8],
    answers: &[u8],
    member_texts: &[u8],
    our_texts: &[u8],
    date: &[u8],
    time: &[u8],
    out: &mut [u8],
    written: &mut u64,
) -> u64
    ensures { exported result [] out.new (written.new ∷ [])
        ≡ error_export report.now answers.now member_texts.now our_texts.now date.now
        time.now out.old written.old }
{
    let lists = Lists {
        member: member_texts,
        ours: our_texts,
    };
    let wrote = error_file::write(report, answers, lists, date, time, out);
    tell_count(wrote, written)
}

// The sum over an ISIN without its check digit, or over any text, modulo 10.
pub fn roselhanda_isin_sum(text: &[u8]) -> u64
    ensures { result ≡ sum_export text.now }
{
    identifier::letter_sum(text)
}
