// Tables and ledgers, sound and damaged. A case is a line: its kind, a name for the rule that it breaks or meets, its length, and those of its
// bytes that are not all zero, as PLACE:HEX.
use page::Page;
use refusal::Refusal;
use std::io;
use words::{append_hex, before, behind, number, split};

// Writes what a token PLACE:HEX says.
fn patch(object: &mut [u8], token: &[u8]) {
    let mut page = Page {
        room: object,
        end: number(before(token, b':')),
    };
    append_hex(&mut page, behind(token, b':'));
}

// Prints the line's kind and name, and whether the object is as it should be, or by which number a call is refused.
pub(crate) fn print(rt: &impl Print, line: &[u8]) -> io::Result<()> {
    let mut room = [0u8; 32769];
    let kind = before(line, b' ');
    let named = behind(line, b' ');
    let sized = behind(named, b' ');
    for token in split(behind(sized, b' '), b' ') {
        patch(&mut room, token);
    }
    let object = text::front(&room, number(before(sized, b' ')));
    let (sound, refusal) = match kind {
        b"reporters" => (tables::reporters_ok(object), Refusal::Reporters),
        b"currencies" => (tables::currencies_ok(object), Refusal::Currencies),
        _ => (ledger::sound_ledger(object), Refusal::Ledger),
    };
    rt.write_all(kind)?;
    rt.write_all(b" ")?;
    rt.write_all(before(named, b' '))?;
    if sound {
        return rt.write_all(b" ok\n");
    }
    println!(rt; " refused {}", u8::from(refusal))
}
