// The sender and the record of a drawn call, as text.
use crate::banks::{BANKS, address, code, mailbox};
use crate::drawn::{Draw, Flaw};
use page::Page;

// The sender: the bank's mailbox, another bank's, or no name at all.
pub(crate) fn sender_of(reporters: &[u8], draw: Draw) -> &[u8] {
    match draw.flaw {
        Flaw::Sender => b"",
        Flaw::Mailbox => mailbox(reporters, (draw.bank % BANKS + 2) % BANKS),
        _ => mailbox(reporters, draw.bank),
    }
}

// Field 2: the bank's code or its address, or its mailbox, which is neither.
fn reporter_of(reporters: &[u8], draw: Draw) -> &[u8] {
    if draw.flaw == Flaw::Bank {
        return mailbox(reporters, draw.bank);
    }
    if draw.by_address {
        return address(reporters, draw.bank);
    }
    code(reporters, draw.bank)
}

// The last decimal digit of n, as text.
fn digit(n: usize) -> u8 {
    (n % 10) as u8 + b'0'
}

// The last two decimal digits of n.
fn digits(n: usize) -> [u8; 2] {
    [digit(n / 10), digit(n)]
}

// Field 24: one of three codes that are listed, or one that is not.
fn currency_of(draw: Draw) -> [u8; 3] {
    if draw.flaw == Flaw::Currency {
        return *b"GBP";
    }
    match draw.currency % 3 {
        0 => *b"CHF",
        1 => *b"EUR",
        _ => *b"USD",
    }
}

// Writes field 16.
fn append_named(page: &mut Page, draw: Draw) {
    if draw.cancels {
        page.append(b"N");
        page.append(&digits(draw.named));
    }
}

// Writes what a byte of the template stands for: field 1, 2, a byte of field 4, which may be an apostrophe, field 7, 16, 22, 24, the digits of field
// 39. Any other byte stands for itself.
fn append_slot(page: &mut Page, slot: u8, reporters: &[u8], draw: Draw) {
    match slot {
        b'k' => page.append(if draw.by_address { b"S" } else { b"B" }),
        b'r' => page.append(reporter_of(reporters, draw)),
        b'm' => page.append(if draw.flaw == Flaw::Apostrophe {
            b"'"
        } else {
            b"1"
        }),
        b's' => page.append(if draw.sells { b"S" } else { b"B" }),
        b'c' => append_named(page, draw),
        b'q' => page.append(&digits(draw.quantity)),
        b'e' => page.append(&currency_of(draw)),
        b'n' => page.append(&digits(draw.number)),
        _ => page.append(&[slot]),
    }
}

// Writes the record, which is the template with its small letters replaced.
pub(crate) fn append_record(page: &mut Page, template: &[u8], reporters: &[u8], draw: Draw) {
    for slot in template {
        append_slot(page, *slot, reporters, draw);
    }
}
