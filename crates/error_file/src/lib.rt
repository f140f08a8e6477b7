// The error file for the sender of a report: its refused records, each with the text of its code.
#![tactic(auto)]

ghost use Rattle.std.specs.Prelude.{◌≤◌, ◌<◌, ◌+◌, true, ◌&&◌, [], ◌∷◌, ◌≡◌, length};
ghost use Rattle.frame.specs.Every.{every};
ghost use Rattle.frame.specs.Reply.{unless, first_of};
ghost use Rattle.refusal.specs.Refusal.{number_in};
ghost use Rattle.calendar.specs.Calendar.{real_date, real_minute, digits_exactly};
ghost use Rattle.envelope.specs.Body.{records_of};
ghost use Rattle.envelope.specs.Envelope.{file_limit, record_count_limit, listed};
ghost use Rattle.page.specs.Lent.{with_text};
ghost use Rattle.page.specs.Page.{write_outcome, wrote_into, fitted};
ghost use Rattle.texts.specs.Texts.{code_count, texts_ok};
ghost use Rattle.texts.specs.Index.{index_of, is_listed};
ghost use Rattle.error_file.specs.ErrorFile.{code_in, known_code, answers_ok, error_text, error_file_of, wrote_as};
ghost use Rattle.error_file.specs.Steps.{is_named, piece, pieces_from, Lined};

use page::Page;
use refusal::Refusal;
use texts::{Index, Lists};

// The bytes of an error file beside its receiver, the two control words and the lines.
const FIXED_SIZE: usize = enclosing::FIXED_SIZE + 44;

// The bytes of a code's line beside its text: four digits, the hyphen, the line's end.
const LINE_SIZE: usize = 7;

// The code in the answer to record k, counted from 0.
fn code_in(answers: &[u8], k: usize) -> u16
    ensures { result ≡ code_in answers.now k }
{
    answer::answer_to(answers, k).code
}

// Whether the codes of the first n answers are all 0 or a place's.
fn codes_ok(answers: &[u8], n: usize) -> bool
    ensures { result ≡ every n (known_code answers.now) }
{
    (0..n).all(|k| !failures::is_no_code(code_in(answers, k)))
}

// Whether there are answers to n records, each with a code that is 0 or a place's; else the call is refused by 15.
#[tactic(auto, unfolding(crate::specs::ErrorFile::answers_ok))]
fn answers_ok(answers: &[u8], n: usize) -> bool
    requires { n ≤ record_count_limit }
    ensures { result ≡ answers_ok n answers.now }
{
    if answers.len() != n * answer::SIZE {
        return false;
    }
    codes_ok(answers, n)
}

// Whether each of the first n answers has a code that needs no text, or has one by the index.
fn codes_named(index: &Index, answers: &[u8], n: usize) -> bool
    ensures { result ≡ every n (is_named index.now.rows.now answers.now) }
{
    (0..n).all(|k| code_in(answers, k) == 0 || index.holds(code_in(answers, k)))
}

// Which of the refusals 15 to 18 applies first to a report of n records.
// As it is: a date and a time, here and below, which `enclosing` parts again at once; a struct of both would be no plainer.
#[tactic(auto, using(frame::proofs::ReplyLaws::test_applies, frame::proofs::ReplyLaws::test_passes, frame::proofs::ReplyLaws::first_end))]
fn flaw(answers: &[u8], index: &Index, date: &[u8], time: &[u8], n: usize) -> Result<(), Refusal>
    requires { n ≤ record_count_limit }
    ensures { number_in result ≡ first_of
        (unless (answers_ok n answers.now) 15
        ∷ unless (is_listed index.now.rows.now) 16
        ∷ unless (every n (is_named index.now.rows.now answers.now)) 17
        ∷ unless (real_date date.now && real_minute time.now) 18
        ∷ []) }
{
    if !answers_ok(answers, n) {
        return Err(Refusal::Answers);
    }
    if !index.is_listed() {
        return Err(Refusal::Texts);
    }
    if !codes_named(index, answers, n) {
        return Err(Refusal::MissingText);
    }
    if !(calendar::is_real_date(date) & calendar::is_real_minute(time)) {
        return Err(Refusal::ErrorFileMoment);
    }
    Ok(())
}

// Two lists that are in order, with their index.
#[derive(Clone, Copy)]
struct Texts<'a, 'r> {
    index: Index<'a, 'r>,
    ghost in_order: { texts_ok index.lists.member.now && texts_ok index.lists.ours.now ≡ true },
    ghost indexed: { index.rows.now ≡ index_of index.lists.member.now index.lists.ours.now },
}

impl Texts<'_, '_> {
    // How many bytes are written for a line of the report.
    fn piece_size(&self, code: u16, line: &[u8]) -> usize
        requires { (code < code_count) × (length line.now ≤ file_limit) }
        ensures { result ≡ length (piece self.now.index.lists.member.now
            self.now.index.lists.ours.now code line.now) }
    {
        if code == 0 {
            return 0;
        }
        line.len() + LINE_SIZE + self.index.text_of(code).len()
    }

    // How many bytes are written for the records of a body.
    #[tactic(auto, using(crate::proofs::PieceLaws::lining))]
    fn pieces_size(&self, answers: &[u8], body: &[u8]) -> usize
        requires { Lined answers.now body.now 0 0 }
        ensures { (result ≡ length (pieces_from self.now.index.lists.member.now
            self.now.index.lists.ours.now answers.now body.now 0 0))
            × (result ≤ 117760) }
    {
        let mut size: usize = 0;
        let mut at: usize = 0;
        let mut k: usize = 0;
        // As it is: the place goes from line to line, here and in append_pieces; a walk with a closure that counts or writes would have to say what the
        // closure changes.
        while let Some(next) = envelope::line_end(body, at) {
            size += self.piece_size(code_in(answers, k), &body[at..next]);
            at = next;
            k += 1;
        }
        size
    }

    // Writes a line of the report whose code is not 0, and the line of its code.
    fn append_piece(&self, page: &mut Page, code: u16, line: &[u8])
        requires { code < code_count }
        ensures { page.new ≡ with_text page.old (piece self.now.index.lists.member.now
            self.now.index.lists.ours.now code line.now) }
    {
        if code == 0 {
            return;
        }
        let text = self.index.text_of(code);
        page.append(line);
        page.append_code(code);
        page.append(b"-");
        page.append(text);
        page.append(b"\r\n");
    }

    // Writes the refused records of a body, each with the line of its code.
    #[tactic(auto, using(crate::proofs::PieceLaws::lining))]
    fn append_pieces(&self, page: &mut Page, answers: &[u8], body: &[u8])
        requires { Lined answers.now body.now 0 0 }
        ensures { page.new ≡ with_text page.old (pieces_from self.now.index.lists.member.now
            self.now.index.lists.ours.now answers.now body.now 0 0) }
    {
        let mut at: usize = 0;
        let mut k: usize = 0;
        // As it is: as in pieces_size.
        while let Some(next) = envelope::line_end(body, at) {
            self.append_piece(page, code_in(answers, k), &body[at..next]);
            at = next;
            k += 1;
        }
    }

    // Writes the file for an opened report where there is room for it; else it is refused by 19.
    fn write_opened(
        &self,
        sender: &[u8],
        word: &[u8],
        body: &[u8],
        answers: &[u8],
        date: &[u8],
        time: &[u8],
        out: &mut [u8],
    ) -> Result<usize, Refusal>
        requires { Lined answers.now body.now 0 0
            × (digits_exactly 8 date.now ≡ true) × (digits_exactly 4 time.now ≡ true)
            × (length sender.now ≤ file_limit) × (length word.now ≤ file_limit) }
        ensures { write_outcome (wrote_as result) out.new ≡ wrote_into out.old
            (fitted (length out.old)
            (error_text self.now.index.lists.member.now self.now.index.lists.ours.now answers.now date.now time.now sender.now
            word.now (listed (records_of body.now)))) }
    {
        let lines = self.pieces_size(answers, body);
        if out.len() < FIXED_SIZE + sender.len() + 2 * word.len() + lines {
            return Err(Refusal::ErrorFileRoom);
        }
        let mut page = Page { room: out, end: 0 };
        enclosing::append_head(
            &mut page,
            b"ATBWA",
            sender,
            date,
            time,
            word,
            b"++BWAMSERR'UNH+BWA+BWERR:0'",
        );
        self.append_pieces(&mut page, answers, body);
        enclosing::append_tail(&mut page, word);
        Ok(page.end)
    }
}

// Writes the error file: refusals 1, 5 to 11 and 15 to 19 in that order; then its length is returned, and it stands at the start of out.
#[tactic(auto, using(crate::proofs::ErrorLaws::report_parts))]
pub fn write(
    report: &[u8],
    answers: &[u8],
    lists: Lists,
    date: &[u8],
    time: &[u8],
    out: &mut [u8],
) -> Result<usize, Refusal>
    ensures { write_outcome (wrote_as result) out.new ≡ wrote_into out.old
        (error_file_of lists.entry.member.now lists.entry.ours.now answers.now date.now time.now report.now
        (length out.old)) }
{
    if envelope::FILE_LIMIT < report.len() {
        return Err(Refusal::FileSize);
    }
    let l = envelope::open_report(report)?;
    let mut rows = [texts::BLANK; texts::INDEX_SIZE];
    lists.index(&mut rows);
    let index = Index { lists, rows: &rows };
    flaw(answers, &index, date, time, l.records)?;
    Texts { index }.write_opened(
        &report[l.sender..l.sender_end],
        &report[l.word..l.word_end],
        &report[l.first..l.end],
        answers,
        date,
        time,
        out,
    )
}
