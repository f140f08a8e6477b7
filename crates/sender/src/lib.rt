// Places 0 to 6, the sender check.
#![tactic(auto)]

ghost use Rattle.std.specs.Prelude.{◌≡◌};
ghost use Rattle.frame.specs.Every.{within};
ghost use Rattle.tables.specs.Reporters.{reporter_count};
ghost use Rattle.sender.specs.Sender.{reporter_row, reporter_tests, sender_check};

use failures::Failures;

// The row found by F1 and F2, if one is.
#[tactic(auto, unfolding(crate::specs::Sender::reporter_row))]
fn reporter_row(reporters: &[u8], f1: &[u8], f2: &[u8]) -> Option<usize>
    ensures { result ≡ within (reporter_count reporters.now) (reporter_row reporters.now f1.now f2.now) }
{
    match fields::letter_of(f1) {
        b'B' => tables::row_by_code(reporters, f2),
        b'S' => tables::row_by_address(reporters, f2),
        _ => None,
    }
}

// Whether each of places 1 to 6 fails, of F1, F2 and the row that they find.
#[tactic(auto, unfolding(crate::specs::Sender::reporter_tests))]
fn judge_reporter(
    reporters: &[u8],
    sender: &[u8],
    f1: &[u8],
    f2: &[u8],
    row: Option<usize>,
) -> [bool; 6]
    requires { row ≡ within (reporter_count reporters.now) (reporter_row reporters.now f1.now f2.now) }
    ensures { result ≡ reporter_tests reporters.now sender.now f1.now f2.now (reporter_row reporters.now f1.now f2.now) }
{
    let k = fields::letter_of(f1);
    let blank1 = f1.is_empty();
    let blank2 = f2.is_empty();
    let found = row.is_some();
    let sent = row.is_some_and(|row| tables::has_mailbox(reporters, sender, row));
    [
        blank1, // 1 0010
        !blank1 & !((k == b'B') | (k == b'S')), // 2 0011
        blank2, // 3 0020
        (k == b'B') & !blank2 & !found, // 4 0021
        (k == b'S') & !blank2 & !found, // 5 0022
        found & !sent, // 6 0024
    ]
}

// As it is: it takes fields, as the judges of the groups do, and no `Record`: parts of different texts have an answer too, and a `Record` would ask more.
// The sender check: the reporter's row for which the record passes, or the failures of places 0 to 6. A record without 38 semicolons fails at place 0,
// and nothing else is looked at.
pub fn check(
    reporters: &[u8],
    sender: &[u8],
    whole: bool,
    f1: &[u8],
    f2: &[u8],
) -> Result<usize, Failures>
    ensures { result ≡ sender_check reporters.now sender.now whole f1.now f2.now }
{
    if !whole {
        return Err(Failures::none().add(0, true)); // 0 9001
    }
    let row = reporter_row(reporters, f1, f2);
    let tests = judge_reporter(reporters, sender, f1, f2, row);
    let failed = Failures::none().add_from(1, &tests);
    match row {
        Some(row) if failed.is_empty() => Ok(row),
        _ => Err(failed),
    }
}
