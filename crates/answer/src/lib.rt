// The answer record: sixteen bytes, written and read at a place of a buffer.
#![tactic(auto)]

ghost use Rattle.std.specs.Prelude.{◌≡◌, ◌+◌, ◌*◌, leb, length};
ghost use Rattle.answer.specs.Answer.{answer_size, answer_bytes, answer_put, answer_at};

use failures::Failures;

// The bytes of an answer record.
pub const SIZE: usize = 16;

// The reporter's row of a record that passes for no bank.
pub const NO_REPORTER: u8 = 255;

// The status of a record that is booked.
// As it is: both are bytes of the answer record that C reads, and one that is lent holds any byte.
pub const BOOKED: u8 = 0;

// What a call answers to a record.
#[derive(Clone, Copy, Default)]
pub struct Answer {
    // The set of failed checks.
    pub failed: Failures,
    // The code at the lowest failed place, 0 if none.
    pub code: u16,
    // The reporter's row, 255 if places 0 to 6 failed.
    pub row: u8,
    // 0 booked; 1, 2 or 3 by the first failure.
    pub status: u8,
    // The new row in its compartment, 65535 for none.
    pub booked: u16,
    // The length of the record.
    pub length: u16,
}

// Whether the sixteen bytes of s from a place on are all there.
fn is_there(s: &[u8], at: usize) -> bool
    ensures { result ≡ leb (at + answer_size) (length s.now) }
{
    SIZE <= s.len() && at <= s.len() - SIZE
}

// Writes the answer over its sixteen bytes.
fn fill(w: &mut [u8], a: Answer)
    requires { length w.old ≡ answer_size }
    ensures { w.new ≡ answer_bytes a }
{
    text::write(w, 0, a.failed.bits);
    text::write(w, 8, a.code);
    w[10] = a.row;
    w[11] = a.status;
    text::write(w, 12, a.booked);
    text::write(w, 14, a.length);
}

// As it is: a place and no page, since answers stand at places of their own and not one behind another's end.
// Writes the answer into the sixteen bytes of out from a place on; nothing where they are not all there.
#[tactic(auto, using(crate::proofs::AnswerLaws::writing_laws))]
pub fn write(a: Answer, out: &mut [u8], at: usize)
    ensures { out.new ≡ answer_put at a out.old }
{
    if is_there(out, at) {
        fill(&mut out[at..at + SIZE], a);
    }
}

// The answer in the sixteen bytes of s from a place on; zeros where they are not all there.
#[tactic(auto, unfolding(crate::specs::Answer::answer_at))]
pub fn read(s: &[u8], at: usize) -> Answer
    ensures { result ≡ answer_at at s.now }
{
    if !is_there(s, at) {
        return Answer::default();
    }
    Answer {
        failed: Failures {
            bits: text::read(s, at),
        },
        code: text::read(s, at + 8),
        row: s[at + 10],
        status: s[at + 11],
        booked: text::read(s, at + 12),
        length: text::read(s, at + 14),
    }
}

// The answer to record k, counted from 0; zeros where it is not there.
#[tactic(auto, using(crate::proofs::AnswerLaws::answer_missing))]
pub fn answer_to(answers: &[u8], k: usize) -> Answer
    ensures { result ≡ answer_at (k * answer_size) answers.now }
{
    if k < answers.len() / SIZE {
        read(answers, k * SIZE)
    } else {
        read(answers, answers.len())
    }
}
