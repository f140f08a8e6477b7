// Reads the envelope of a report file: head, body and tail, piece by piece at places of the file.
#![tactic(auto)]

ghost use Rattle.std.specs.Prelude.{◌≡◌, ◌+◌, drop};
ghost use Rattle.std.specs.Option.{ForSome};
ghost use Rattle.text.specs.declared.Class.TheVariants.{RecordByte};
ghost use Rattle.envelope.specs.Pieces.{run_of, text_end, part_end, part_then};
ghost use Rattle.envelope.specs.Body.{line_end, lines_at, body_at};
ghost use Rattle.envelope.specs.Envelope.{Ordered, head_of, tail_of, body_stage, envelope_of, report_of, opened_as};

use refusal::Refusal;
use text::Class;

// The largest file, and the most records of one.
pub const FILE_LIMIT: usize = 32768;

const RECORD_COUNT_LIMIT: usize = 1024;

// The size of CR LF, which ends a line.
pub const CRLF_SIZE: usize = 2;

// The bytes of a record that are tested at once.
const BLOCK_SIZE: usize = 16;

// Where the records of a body begin and end, and how many they are.
#[derive(Clone, Copy)]
pub struct Span {
    pub first: usize,
    pub end: usize,
    pub records: usize,
}

// Where the parts of a head begin, and where its word and the whole head end.
#[derive(Clone, Copy)]
pub struct Parts {
    pub sender: usize,
    pub receiver: usize,
    pub date: usize,
    pub time: usize,
    pub word: usize,
    pub word_end: usize,
    pub end: usize,
}

// A report: where its sender, its control word and its records lie in the file, and how many records it has.
#[derive(Clone, Copy)]
pub struct Layout {
    pub sender: usize,
    pub sender_end: usize,
    pub word: usize,
    pub word_end: usize,
    pub first: usize,
    pub end: usize,
    pub records: usize,
}

// The end of the run of bytes of a class that begins at a place.
fn run_end(s: &[u8], at: usize, k: Class) -> usize
    ensures { result ≡ at + run_of k (drop at s.now) }
{
    at + text::rest(s, at)
        .iter()
        .take_while(|b| text::belongs(k, **b))
        .count()
}

// Where a fixed text at a place ends, if it stands there.
#[tactic(auto, using(crate::proofs::PieceLaws::begins_there), unfolding(crate::specs::Pieces::text_end))]
fn text_end(s: &[u8], at: usize, t: &[u8]) -> Option<usize>
    ensures { result ≡ text_end s.now at t.now }
{
    if text::rest(s, at).starts_with(t) {
        Some(at + t.len())
    } else {
        None
    }
}

// Where a part of lo to hi bytes of a class at a place ends.
#[tactic(auto, unfolding(crate::specs::Pieces::part_end))]
fn part_end(s: &[u8], at: usize, k: Class, lo: usize, hi: usize) -> Option<usize>
    ensures { result ≡ part_end s.now at k lo hi }
{
    let end = run_end(s, at, k);
    if (lo..=hi).contains(&(end - at)) {
        Some(end)
    } else {
        None
    }
}

// A part, and the fixed text that ends it.
#[tactic(auto, unfolding(crate::specs::Pieces::part_then))]
fn part_then(s: &[u8], at: usize, k: Class, lo: usize, hi: usize, t: &[u8]) -> Option<usize>
    ensures { result ≡ part_then s.now at k lo hi t.now }
{
    text_end(s, part_end(s, at, k, lo, hi)?, t)
}

// The end of the run of record bytes in w: its length where every byte is above the apostrophe, as in most blocks of a record.
#[tactic(auto, using(crate::proofs::BlockLaws::above_run))]
fn block_end(w: &[u8]) -> usize
    ensures { result ≡ run_of RecordByte w.now }
{
    if text::all(Class::AboveApostrophe, w) {
        return w.len();
    }
    run_end(w, 0, Class::RecordByte)
}

// The end of the record at a place, block by block.
fn blocks_end(s: &[u8], at: usize) -> usize
    ensures { result ≡ at + run_of RecordByte (drop at s.now) }
{
    let (blocks, _) = text::rest(s, at).as_chunks::<BLOCK_SIZE>();
    let mut end = at;
    for w in blocks {
        let n = block_end(w);
        if n < BLOCK_SIZE {
            return end + n;
        }
        end += BLOCK_SIZE;
    }
    run_end(s, end, Class::RecordByte)
}

// The end of the record at a place; an empty one, whose CR stands there, is not worth a block.
#[tactic(auto, using(crate::proofs::BlockLaws::record_empty))]
pub fn record_end(s: &[u8], at: usize) -> usize
    ensures { result ≡ at + run_of RecordByte (drop at s.now) }
{
    if s.get(at) == Some(&b'\r') {
        return at;
    }
    blocks_end(s, at)
}

// The end of the line at a place: a record, then CR LF.
#[tactic(auto, unfolding(crate::specs::Body::line_end))]
pub fn line_end(s: &[u8], at: usize) -> Option<usize>
    ensures { result ≡ line_end s.now at }
{
    let e = record_end(s, at);
    text_end(s, e, b"\r\n")
}

// The records from a place up to the first apostrophe, counted in one pass.
#[tactic(auto, using(crate::proofs::LineLaws::counting))]
fn count_lines(s: &[u8], first: usize) -> Option<Span>
    ensures { result ≡ lines_at s.now first }
{
    let mut p = first;
    let mut n: usize = 0;
    // As it is: the place goes from line to line; by `iter::successors` each turn's fact would stand in a closure's clause and in the run's, no plainer.
    while p < s.len() {
        if s[p] == b'\'' {
            return Some(Span {
                first,
                end: p,
                records: n,
            });
        }
        p = line_end(s, p)?;
        n += 1;
    }
    None
}

// The body at a place: CR LF, then records.
#[tactic(auto, unfolding(crate::specs::Body::body_at))]
fn read_body(s: &[u8], at: usize) -> Option<Span>
    ensures { result ≡ body_at s.now at }
{
    count_lines(s, text_end(s, at, b"\r\n")?)
}

// The head of a file: fixed pieces, sender, receiver, date, time and word, then the text of the class.
#[tactic(auto, unfolding(crate::specs::Envelope::head_of))]
fn read_head(s: &[u8], class: &[u8]) -> Option<Parts>
    ensures read { result ≡ head_of s.now class.now }
    ensures ordered { ForSome result (λ h. Ordered s.now h) }
{
    let sender = text_end(s, 0, b"UNB+UNOA:1+")?;
    let receiver = part_then(s, sender, Class::CapitalOrDigit, 1, 8, b"+")?;
    let date = part_then(s, receiver, Class::CapitalOrDigit, 1, 8, b"+")?;
    let time = part_then(s, date, Class::Digit, 8, 8, b":")?;
    let word = part_then(s, time, Class::Digit, 4, 4, b"+")?;
    let word_end = part_end(s, word, Class::WordByte, 1, 14)?;
    let end = text_end(s, word_end, class)?;
    Some(Parts {
        sender,
        receiver,
        date,
        time,
        word,
        word_end,
        end,
    })
}

// Where the word of the tail begins: the tail stands at a place, and ends the file.
#[tactic(auto, unfolding(crate::specs::Envelope::tail_of))]
fn read_tail(s: &[u8], at: usize) -> Option<usize>
    ensures { result ≡ tail_of s.now at }
{
    let word = text_end(s, at, b"'UNT+3+BWA'UNZ+1+")?;
    let end = part_then(s, word, Class::WordByte, 1, 14, b"'")?;
    if end == s.len() { Some(word) } else { None }
}

// A file whose head was read: its body, its tail, its words and its count of records.
#[tactic(auto, using(text::proofs::SameLaws::eq_same), unfolding(crate::specs::Envelope::body_stage))]
fn open_body(s: &[u8], h: Parts) -> Result<Layout, Refusal>
    requires { Ordered s.now h }
    ensures { opened_as result ≡ body_stage s.now h }
{
    let b = read_body(s, h.end).ok_or(Refusal::Body)?;
    let last = read_tail(s, b.end).ok_or(Refusal::Tail)?;
    if s[h.word..h.word_end] != s[last..s.len() - 1] {
        return Err(Refusal::ControlWord);
    }
    if RECORD_COUNT_LIMIT < b.records {
        return Err(Refusal::RecordCount);
    }
    Ok(Layout {
        sender: h.sender,
        sender_end: h.receiver - 1,
        word: h.word,
        word_end: h.word_end,
        first: b.first,
        end: b.end,
        records: b.records,
    })
}

// A report file of a message class.
#[tactic(auto, using(text::proofs::SameLaws::eq_same), unfolding(crate::specs::Envelope::envelope_of))]
pub fn open(s: &[u8], class: &[u8]) -> Result<Layout, Refusal>
    ensures { opened_as result ≡ envelope_of class.now s.now }
{
    let h = read_head(s, class).ok_or(Refusal::Head)?;
    if !(calendar::is_real_date(&s[h.date..h.time - 1])
        & calendar::is_real_minute(&s[h.time..h.word - 1]))
    {
        return Err(Refusal::Moment);
    }
    if &s[h.receiver..h.date - 1] != b"ATBWA".as_slice() {
        return Err(Refusal::Receiver);
    }
    open_body(s, h)
}

// A report file.
pub fn open_report(s: &[u8]) -> Result<Layout, Refusal>
    ensures { opened_as result ≡ report_of s.now }
{
    open(s, b"++BWAMS'UNH+BWA+BWA:0'")
}
