// The lines that tell of a file call, its refusal or what became of each record, of an error file, and of records that are judged without booking.
#![tactic(auto)]

ghost use Rattle.std.specs.Prelude.{◌≡◌, ◌++◌};
ghost use Rattle.page.specs.Lent.{with_text};
ghost use Rattle.page.specs.Number.{number_text};
ghost use Rattle.results.specs.Results.{line_feed, row_text, line_text, lines_text, booked_count, accepted_text, refused_text, written_text};
ghost use Rattle.results.specs.Results.{refused_line_text, would_book_text};

use answer::{Answer, BOOKED, NO_REPORTER};
use page::Page;

// Writes a reporter's row, or - for none.
#[tactic(auto, using(page::proofs::LentLaws::with_both, std::proofs::Common::append_assoc), unfolding(crate::specs::Results::row_text))]
fn append_row(page: &mut Page, row: u8)
    ensures { page.new ≡ with_text page.old (row_text row) }
{
    if row == NO_REPORTER {
        page.append(b"-");
    } else {
        page.append_number(u64::from(row));
    }
}

// Writes the line of a record: its number, its first code, its count of failures, its reporter's row.
#[tactic(auto, using(page::proofs::LentLaws::with_both, std::proofs::Common::append_assoc), unfolding(crate::specs::Results::line_text))]
pub fn append_line(page: &mut Page, number: u64, a: Answer)
    ensures { page.new ≡ with_text page.old (line_text number a) }
{
    page.append_number(number);
    page.append(b" ");
    page.append_code(a.code);
    page.append(b" ");
    page.append_number(u64::from(a.failed.count()));
    page.append(b" ");
    append_row(page, a.row);
    page.append(b"\n");
}

// Writes the lines of n records.
#[tactic(auto, using(page::proofs::LentLaws::with_nothing, crate::proofs::ResultLaws::lines_more), unfolding(crate::specs::Results::lines_text))]
fn append_lines(page: &mut Page, answers: &[u8], n: usize)
    ensures { page.new ≡ with_text page.old (lines_text n answers.now) }
{
    for k in 0..n {
        append_line(page, k as u64 + 1, answer::answer_to(answers, k));
    }
}

// How many of n records are booked.
#[tactic(auto, using(crate::proofs::ResultLaws::counting_laws), unfolding(crate::specs::Results::booked_count))]
fn booked(answers: &[u8], n: usize) -> u64
    ensures { result ≡ booked_count n answers.now }
{
    let mut count = 0;
    for k in 0..n {
        if answer::answer_to(answers, k).status == BOOKED {
            count += 1;
        }
    }
    count
}

// Writes a line of a label and a number.
#[tactic(auto, using(page::proofs::LentLaws::with_both, std::proofs::Common::append_assoc))]
fn append_labelled(page: &mut Page, label: &[u8], n: u64)
    ensures { page.new ≡ with_text page.old (label.now ++ number_text n ++ line_feed) }
{
    page.append(label);
    page.append_number(n);
    page.append(b"\n");
}

// Writes what is printed of a file call that is accepted, with n records.
#[tactic(auto, using(page::proofs::LentLaws::with_both, std::proofs::Common::append_assoc), unfolding(crate::specs::Results::accepted_text))]
pub fn accepted(page: &mut Page, answers: &[u8], n: usize)
    ensures { page.new ≡ with_text page.old (accepted_text n answers.now) }
{
    append_labelled(page, b"records ", n as u64);
    append_lines(page, answers, n);
    append_labelled(page, b"booked ", booked(answers, n));
}

// Writes what is printed of a call that is refused.
// As it is: any number is printed, here and in append_refused_line; a `Refusal` would ask more.
#[tactic(auto, using(page::proofs::LentLaws::with_both, std::proofs::Common::append_assoc), unfolding(crate::specs::Results::refused_text))]
pub fn refused(page: &mut Page, n: u8)
    ensures { page.new ≡ with_text page.old (refused_text n) }
{
    append_labelled(page, b"refused ", u64::from(n));
}

// Writes what is printed of an error file that is written, of so many bytes.
#[tactic(auto, using(page::proofs::LentLaws::with_both, std::proofs::Common::append_assoc), unfolding(crate::specs::Results::written_text))]
pub fn written(page: &mut Page, n: u64)
    ensures { page.new ≡ with_text page.old (written_text n) }
{
    append_labelled(page, b"written ", n);
}

// Writes the line of a record that is refused: its number, and the number of its refusal.
#[tactic(auto, using(page::proofs::LentLaws::with_both, std::proofs::Common::append_assoc), unfolding(crate::specs::Results::refused_line_text))]
pub fn append_refused_line(page: &mut Page, number: u64, refusal: u8)
    ensures { page.new ≡ with_text page.old (refused_line_text number refusal) }
{
    page.append_number(number);
    append_labelled(page, b" refused ", u64::from(refusal));
}

// Writes what is printed last of records that are judged without booking: how many would be booked.
#[tactic(auto, using(page::proofs::LentLaws::with_both, std::proofs::Common::append_assoc), unfolding(crate::specs::Results::would_book_text))]
pub fn would_book(page: &mut Page, count: u64)
    ensures { page.new ≡ with_text page.old (would_book_text count) }
{
    append_labelled(page, b"would book ", count);
}
