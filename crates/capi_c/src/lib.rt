// The functions exported for C and Rust, as include/roselhanda.h declares them: a slice is a pointer and a length. Each calls the function of that name in
// capi, and its clauses are that function's.
#![tactic(auto)]

ghost use Rattle.std.specs.Prelude.{[], ◌∷◌, ◌≡◌};
ghost use Rattle.tables.specs.Tables.{tables_of};
ghost use Rattle.capi.specs.Exported.{exported, record_export, judge_export, book_export, file_export};
ghost use Rattle.capi.specs.Exported.{field_numbers, field_export, error_export, sum_export};

// The single-record call: the answer's sixteen bytes at the start of the answer buffer.
// As it is: the C interface; here and below only the names are exported, and what the functions do is called by Rust too, from capi.
#[unsafe(no_mangle)]
pub extern "C" fn roselhanda_record<'a>(
    reporters: &'a [u8],
    currencies: &'a [u8],
    ledger: &mut [u8],
    sender: &'a [u8],
    record: &'a [u8],
    answer: &mut [u8],
) -> u64
    ensures { exported result ledger.new answer.new []
        ≡ record_export (tables_of reporters.now currencies.now) sender.now «record».now ledger.old
        answer.old }
{
    capi::roselhanda_record(reporters, currencies, ledger, sender, record, answer)
}

// The file call: sixteen bytes a record from the start of the answer buffer, and in the lent word the count of records.
#[unsafe(no_mangle)]
pub extern "C" fn roselhanda_file<'a>(
    file: &'a [u8],
    reporters: &'a [u8],
    currencies: &'a [u8],
    ledger: &mut [u8],
    answers: &mut [u8],
    records: &mut u64,
) -> u64
    ensures { exported result ledger.new answers.new (records.new ∷ [])
        ≡ file_export (tables_of reporters.now currencies.now) file.now ledger.old answers.old
        records.old }
{
    capi::roselhanda_file(file, reporters, currencies, ledger, answers, records)
}

// Judging: the answer's sixteen bytes at the start of the answer buffer. The ledger is lent for reading only.
#[unsafe(no_mangle)]
pub extern "C" fn roselhanda_judge<'a>(
    reporters: &'a [u8],
    currencies: &'a [u8],
    ledger: &'a [u8],
    sender: &'a [u8],
    record: &'a [u8],
    answer: &mut [u8],
) -> u64
    ensures { exported result ledger.now answer.new []
        ≡ judge_export (tables_of reporters.now currencies.now) sender.now «record».now ledger.now
        answer.old }
{
    capi::roselhanda_judge(reporters, currencies, ledger, sender, record, answer)
}

// Booking by an earlier answer: the answer's sixteen bytes at the start of the answer buffer.
#[unsafe(no_mangle)]
pub extern "C" fn roselhanda_book<'a>(
    reporters: &'a [u8],
    currencies: &'a [u8],
    ledger: &mut [u8],
    sender: &'a [u8],
    record: &'a [u8],
    earlier: &'a [u8],
    answer: &mut [u8],
) -> u64
    ensures { exported result ledger.new answer.new []
        ≡ book_export (tables_of reporters.now currencies.now) sender.now «record».now earlier.now
        ledger.old answer.old }
{
    capi::roselhanda_book(
        reporters, currencies, ledger, sender, record, earlier, answer,
    )
}

// The field view: where field n of the record starts, and in the lent word how long it is.
#[unsafe(no_mangle)]
pub extern "C" fn roselhanda_field(record: &[u8], n: u64, length: &mut u64) -> u64
    ensures { field_numbers result length.new ≡ field_export «record».now n }
{
    capi::roselhanda_field(record, n, length)
}

// The error file: from the start of out, and in the lent word how long it is.
#[unsafe(no_mangle)]
pub extern "C" fn roselhanda_error_file<'a>(
    report: &'a [u8],
    answers: &'a [u8],
    member_texts: &'a [u8],
    our_texts: &'a [u8],
    date: &'a [u8],
    time: &'a [u8],
    out: &mut [u8],
    written: &mut u64,
) -> u64
    ensures { exported result [] out.new (written.new ∷ [])
        ≡ error_export report.now answers.now member_texts.now our_texts.now date.now
        time.now out.old written.old }
{
    capi::roselhanda_error_file(
        report,
        answers,
        member_texts,
        our_texts,
        date,
        time,
        out,
        written,
    )
}

// The sum over an ISIN without its check digit, or over any text, modulo 10.
#[unsafe(no_mangle)]
pub extern "C" fn roselhanda_isin_sum(text: &[u8]) -> u64
    ensures { result ≡ sum_export text.now }
{
    capi::roselhanda_isin_sum(text)
}
