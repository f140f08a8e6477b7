// Writes an envelope around its records: the head before them, the tail behind them.
#![tactic(auto, using(page::proofs::LentLaws::with_both), unfolding(crate::specs::Enclosing::head_text, crate::specs::Enclosing::tail_text))]

ghost use Rattle.std.specs.Prelude.{◌++◌, ◌≡◌};
ghost use Rattle.page.specs.Lent.{with_text};
ghost use Rattle.enclosing.specs.Enclosing.{head_text, tail_text};

use page::Page;

// The bytes of an envelope beside its sender, receiver, date, time, class, the two control words and the records.
pub const FIXED_SIZE: usize = 35;

// Writes a part, and the fixed text that ends it.
fn append_then(page: &mut Page, part: &[u8], mark: &[u8])
    ensures { page.new ≡ with_text page.old (part.now ++ mark.now) }
{
    page.append(part);
    page.append(mark);
}

// Writes the head of a message class, and the line's end that begins the body.
pub fn append_head(
    page: &mut Page,
    sender: &[u8],
    receiver: &[u8],
    date: &[u8],
    time: &[u8],
    word: &[u8],
    class: &[u8],
)
    ensures { page.new ≡ with_text page.old (head_text sender.now receiver.now date.now time.now
        word.now class.now) }
{
    page.append(b"UNB+UNOA:1+");
    append_then(page, sender, b"+");
    append_then(page, receiver, b"+");
    append_then(page, date, b":");
    append_then(page, time, b"+");
    page.append(word);
    append_then(page, class, b"\r\n");
}

// Writes the tail, with the control word of the head.
pub fn append_tail(page: &mut Page, word: &[u8])
    ensures { page.new ≡ with_text page.old (tail_text word.now) }
{
    page.append(b"'UNT+3+BWA'UNZ+1+");
    append_then(page, word, b"'");
}
