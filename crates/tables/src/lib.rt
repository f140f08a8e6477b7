// The lent tables: who reports, and which currencies are money.
#![tactic(auto)]

ghost use Rattle.std.specs.Prelude.{◌*◌, ◌/◌, ◌<◌, true, ◌||◌, ◌&&◌, ◌≡◌, not, eqb, length};
ghost use Rattle.frame.specs.Every.{every, within};
ghost use Rattle.frame.specs.Parts.{AreParts};
ghost use Rattle.std.specs.List.{list_all};
ghost use Rattle.text.specs.Class.{is_capital};
ghost use Rattle.text.specs.Bytes.{all, same};
ghost use Rattle.text.specs.Number.{number_at};
ghost use Rattle.tables.specs.Reporters.{reporter_size, reporter_count, code_of, address_of, mailbox_bytes, mailbox_of, mailbox_form, reporter_form};
ghost use Rattle.tables.specs.Reporters.{reporters_differ, reporter_ok, reporters_ok, has_code, has_address, has_mailbox};
ghost use Rattle.tables.specs.Reporters.{row_by_code, row_by_address};
ghost use Rattle.tables.specs.Currencies.{currency_size, currency_count, is_special, currency_ok, currencies_ok, found_money};
ghost use Rattle.refusal.specs.Refusal.{number_in};
ghost use Rattle.tables.specs.Tables.{tables_flaw, lent};

use refusal::Refusal;
use std::cmp::Ordering;
use text::Class;

// Bytes of a row of the reporters table, and the most rows that it may have.
pub const REPORTER_SIZE: usize = 32;

const REPORTER_LIMIT: usize = 16;

// Bytes of a currency code, and the most codes that the list may have.
const CURRENCY_SIZE: usize = 3;

const CURRENCY_LIMIT: usize = 512;

// A row of the reporters table, and a code of the currency list.
type Row = [u8; REPORTER_SIZE];

type Code = [u8; CURRENCY_SIZE];

// How many whole rows a reporters table has.
pub fn reporter_count(t: &[u8]) -> usize
    ensures { result ≡ reporter_count t.now }
{
    t.len() / REPORTER_SIZE
}

// The whole parts of N bytes of a table: its rows, or its codes.
#[tactic(auto, using(frame::proofs::ListLaws::chunks_parts))]
fn parts<const N: usize>(t: &[u8]) -> &[[u8; N]]
    requires { 0 < N }
    ensures { AreParts N t.now result.now }
{
    t.as_chunks().0
}

// The rows of a reporters table.
fn rows(t: &[u8]) -> &[Row]
    ensures { AreParts reporter_size t.now result.now }
{
    parts(t)
}

// The bank code of a row: its length is known, so that two are compared in a step or two.
fn code_of(w: &Row) -> &[u8; 5]
    ensures { result.now ≡ code_of w.now }
{
    w.first_chunk().unwrap()
}

// The SWIFT address of a row.
fn address_of(w: &Row) -> &[u8]
    ensures { result.now ≡ address_of w.now }
{
    &w[5..16]
}

// The eight bytes of a row that hold its mailbox, with the spaces behind it.
fn mailbox_bytes(w: &Row) -> &[u8]
    ensures { result.now ≡ mailbox_bytes w.now }
{
    &w[16..24]
}

// The mailbox of a row, without the spaces behind it.
#[tactic(auto, using(text::proofs::SameLaws::position_or_end), unfolding(crate::specs::Reporters::mailbox_of))]
fn mailbox_of(w: &Row) -> &[u8]
    ensures { result.now ≡ mailbox_of w.now }
{
    let m = mailbox_bytes(w);
    text::front(m, text::position(m, b' ').unwrap_or(m.len()))
}

// Whether the mailbox of a row is a name with nothing but spaces behind it.
fn is_mailbox(w: &Row) -> bool
    ensures { result ≡ mailbox_form w.now }
{
    let name = mailbox_of(w);
    identifier::is_name(name, 8) & text::all(Class::Space, text::rest(mailbox_bytes(w), name.len()))
}

// Whether a row has the form of a reporter's.
fn is_reporter(w: &Row) -> bool
    ensures { result ≡ reporter_form w.now }
{
    identifier::is_bank_code(code_of(w))
        & identifier::is_swift(address_of(w))
        & is_mailbox(w)
        & text::is_zero(&w[24..])
}

// Whether two rows have the same word in their bank codes or in their addresses: the last two digits, the first eight bytes. Most rows have not.
fn may_agree(v: &Row, w: &Row) -> bool
    ensures { result ≡ (eqb (number_at 2 3 (code_of v.now)) (number_at 2 3 (code_of w.now))
        || eqb (number_at 8 0 (address_of v.now)) (number_at 8 0 (address_of w.now))) }
{
    (text::read::<u16>(code_of(v), 3) == text::read::<u16>(code_of(w), 3))
        | (text::read::<u64>(address_of(v), 0) == text::read::<u64>(address_of(w), 0))
}

// Whether two rows differ in bank code. Where their last two digits do, which have been read for may_agree, no more is compared.
#[tactic(auto, using(text::proofs::SameLaws::eq_same))]
fn codes_differ(v: &Row, w: &Row) -> bool
    ensures { result ≡ not (same (code_of v.now) (code_of w.now)) }
{
    if text::read::<u16>(code_of(v), 3) != text::read::<u16>(code_of(w), 3) {
        return true;
    }
    code_of(v) != code_of(w)
}

// Whether two rows differ in bank code and in address.
fn rows_differ(v: &Row, w: &Row) -> bool
    ensures { result ≡ (not (same (code_of v.now) (code_of w.now)) && not (same (address_of v.now) (address_of w.now))) }
{
    if !may_agree(v, w) {
        return true;
    }
    codes_differ(v, w) & !text::same(address_of(v), address_of(w))
}

// Whether row w differs from each row before it.
fn is_new(w: &Row, earlier: &[Row]) -> bool
    ensures { result ≡ list_all (λ v. not (same (code_of w.now) (code_of v)) && not (same (address_of w.now) (address_of v))) earlier.now }
{
    earlier.iter().all(|v| rows_differ(w, v))
}

// Whether row k is in order.
fn reporter_ok(t: &[u8], k: usize) -> bool
    requires { k < reporter_count t.now }
    ensures { result ≡ reporter_ok t.now k }
{
    let rows = rows(t);
    let w = &rows[k];
    is_reporter(w) & is_new(w, &rows[..k])
}

// Whether the reporters table is in order; else the call is refused by 2.
pub fn reporters_ok(t: &[u8]) -> bool
    ensures { result ≡ reporters_ok t.now }
{
    if REPORTER_LIMIT * REPORTER_SIZE < t.len() {
        return false;
    }
    if t.len() % REPORTER_SIZE != 0 {
        return false;
    }
    for k in 0..reporter_count(t) {
        if !reporter_ok(t, k) {
            return false;
        }
    }
    true
}

// Whether row k has the bank code f.
// As it is: three look-ups of one line each, and two below; the closure is what they differ in.
#[tactic(auto, using(text::proofs::SameLaws::eq_same), unfolding(crate::specs::Reporters::has_code))]
pub fn has_code(t: &[u8], f: &[u8], k: usize) -> bool
    ensures { result ≡ has_code t.now f.now k }
{
    rows(t).get(k).is_some_and(|w| &code_of(w)[..] == f)
}

// Whether row k has the address f, which may lack the XXX at its end.
#[tactic(auto, unfolding(crate::specs::Reporters::has_address))]
pub fn has_address(t: &[u8], f: &[u8], k: usize) -> bool
    ensures { result ≡ has_address t.now f.now k }
{
    rows(t)
        .get(k)
        .is_some_and(|w| identifier::same_address(address_of(w), f))
}

// Whether row k has the mailbox f.
#[tactic(auto, using(text::proofs::SameLaws::eq_same), unfolding(crate::specs::Reporters::has_mailbox))]
pub fn has_mailbox(t: &[u8], f: &[u8], k: usize) -> bool
    ensures { result ≡ has_mailbox t.now f.now k }
{
    rows(t).get(k).is_some_and(|w| mailbox_of(w) == f)
}

// The first row with the bank code f.
pub fn row_by_code(t: &[u8], f: &[u8]) -> Option<usize>
    ensures { result ≡ within (reporter_count t.now) (row_by_code t.now f.now) }
{
    let code = f.as_array()?;
    rows(t).iter().position(|w| code_of(w) == code)
}

// The first row with the address f.
pub fn row_by_address(t: &[u8], f: &[u8]) -> Option<usize>
    ensures { result ≡ within (reporter_count t.now) (row_by_address t.now f.now) }
{
    rows(t)
        .iter()
        .position(|w| identifier::same_address(address_of(w), f))
}

// The codes of a currency list.
fn codes(t: &[u8]) -> &[Code]
    ensures { AreParts currency_size t.now result.now }
{
    parts(t)
}

// Whether s is a special code, which is no currency: XX, then X, K, O or Z.
#[tactic(auto, using(crate::proofs::CodeLaws::special_none, crate::proofs::CodeLaws::special_letters))]
pub fn is_special(s: &[u8]) -> bool
    ensures { result ≡ is_special s.now }
{
    matches!(s, [b'X', b'X', b'X' | b'K' | b'O' | b'Z'])
}

// Whether the codes of a list of capitals are in order: none is special, and as numbers they ascend.
fn ascends(t: &[u8]) -> bool
    requires { (length t.now ≡ currency_count t.now * currency_size) × (all is_capital t.now ≡ true) }
    ensures { result ≡ every (currency_count t.now) (currency_ok t.now) }
{
    let mut before = 0;
    for w in codes(t) {
        let x = text::big_endian(w);
        if x <= before {
            return false;
        }
        if is_special(w) {
            return false;
        }
        before = x;
    }
    true
}

// Whether the currency list is in order; else the call is refused by 3.
pub fn currencies_ok(t: &[u8]) -> bool
    ensures { result ≡ currencies_ok t.now }
{
    if CURRENCY_LIMIT * CURRENCY_SIZE < t.len() {
        return false;
    }
    if t.len() % CURRENCY_SIZE != 0 {
        return false;
    }
    text::all(Class::Capital, t) && ascends(t)
}

// Whether s is money: a search of the ascending list, which halves what is left at each turn.
// As it is: the clause names what this search finds in any list, found_money, and std's binary_search_by compares at other places of a list out of order.
pub fn is_money(t: &[u8], s: &[u8]) -> bool
    ensures { result ≡ found_money t.now s.now }
{
    let codes = codes(t);
    let mut low = 0;
    let mut high = codes.len();
    while low < high {
        let middle = low + (high - low) / 2;
        match codes[middle][..].cmp(s) {
            Ordering::Equal => {
                return true;
            }
            Ordering::Less => {
                low = middle + 1;
            }
            Ordering::Greater => {
                high = middle;
            }
        }
    }
    false
}

// The two tables that every call is lent.
#[derive(Clone, Copy)]
pub struct Tables<'a> {
    pub reporters: &'a [u8],
    pub currencies: &'a [u8],
}

impl Tables<'_> {
    // Why they refuse a call: the reporters table is not in order, or else the currency list.
    pub fn check(self) -> Result<(), Refusal>
        ensures { number_in result ≡ tables_flaw (lent self.entry) }
    {
        if !reporters_ok(self.reporters) {
            return Err(Refusal::Reporters);
        }
        if !currencies_ok(self.currencies) {
            return Err(Refusal::Currencies);
        }
        Ok(())
    }
}
