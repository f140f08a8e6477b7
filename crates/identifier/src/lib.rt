// Bank codes, SWIFT addresses, names and ISINs.
#![tactic(auto)]

ghost use Rattle.std.specs.Prelude.{◌-◌, ◌%◌, ◌<◌, ◌≤◌, ◌++◌, ◌≡◌, length, get_or};
ghost use Rattle.text.specs.Bytes.{same};
ghost use Rattle.text.specs.Text.{bytes};
ghost use Rattle.identifier.specs.Identifier.{bank_code, swift_form, same_address, name_up_to};
ghost use Rattle.identifier.specs.Isin.{isin_form, check_digit_right, valid_isin};
ghost use Rattle.identifier.specs.Isin.{letter_value, value_weight, letter_sum};

use text::Class;

// Whether s is a bank code.
// As it is: one line over text::all, as calendar's and decimal's digits, names and trade's venue are; each has a length and a class of its own.
#[tactic(auto, unfolding(crate::specs::Identifier::bank_code))]
pub fn is_bank_code(s: &[u8]) -> bool
    ensures { result ≡ bank_code s.now }
{
    s.len() == 5 && text::all(Class::Digit, s)
}

// Whether s has SWIFT form.
#[tactic(auto, unfolding(crate::specs::Identifier::swift_form))]
pub fn is_swift(s: &[u8]) -> bool
    ensures { result ≡ swift_form s.now }
{
    matches!(s.len(), 8 | 11)
        && (text::all(Class::Capital, &s[..6]) & text::all(Class::CapitalOrDigit, &s[6..]))
}

// Whether t is s, an address of eight bytes, with XXX added.
#[tactic(auto, using(crate::proofs::AddressLaws::completion_laws))]
fn is_completion(s: &[u8], t: &[u8]) -> bool
    requires { length s.now ≡ 8 }
    ensures { result ≡ same (s.now ++ bytes "XXX") t.now }
{
    if t.len() != 11 {
        return false;
    }
    let (address, added) = t.split_at(8);
    text::same(s, address) & (added == b"XXX".as_slice())
}

// Whether two addresses are the same, eight bytes meaning the same with XXX added.
#[tactic(auto, using(crate::proofs::AddressLaws::address_laws))]
pub fn same_address(s: &[u8], t: &[u8]) -> bool
    ensures { result ≡ same_address s.now t.now }
{
    if s.len() == t.len() {
        text::same(s, t)
    } else if s.len() == 8 {
        is_completion(s, t)
    } else {
        t.len() == 8 && is_completion(t, s)
    }
}

// Whether s is a name of at most so many bytes.
#[tactic(auto, unfolding(crate::specs::Identifier::name_up_to))]
pub fn is_name(s: &[u8], most: usize) -> bool
    ensures { result ≡ name_up_to most s.now }
{
    ((1 <= s.len()) & (s.len() <= most)) && text::all(Class::CapitalOrDigit, s)
}

// Whether s has ISIN form.
#[tactic(auto, unfolding(crate::specs::Isin::isin_form))]
pub fn is_isin_form(s: &[u8]) -> bool
    ensures { result ≡ isin_form s.now }
{
    s.len() == 12
        && (text::all(Class::Capital, &s[..2])
            & text::all(Class::CapitalOrDigit, &s[2..11])
            & text::all(Class::Digit, &s[11..]))
}

// The value of a digit or a letter.
#[tactic(auto, using(text::proofs::ByteLaws::digit_low), unfolding(crate::specs::Isin::letter_value))]
fn value_of(b: u8) -> u64
    ensures { (result ≡ letter_value b) × (result ≤ 255) }
{
    if text::belongs(Class::Digit, b) {
        u64::from(b - b'0')
    } else {
        u64::from(b.saturating_sub(b'A')) + 10
    }
}

// What a value adds to the sum, up to a multiple of 10: a doubled digit d then adds 2 * d + d / 5.
#[tactic(auto, using(crate::proofs::IsinLaws::weight_laws))]
fn weight(double: bool, v: u64) -> u64
    requires { v ≤ 255 }
    ensures { (result % 10 ≡ value_weight double v % 10) × (result ≤ 600) }
{
    if double {
        2 * v + (v + 5) / 10
    } else {
        v + 2 * (v / 10) + v / 50
    }
}

// The same for the capital b, whose value is b - 55, in fewer steps.
// As it is: by `weight` alone a capital of a record's ISIN takes a division more (docs/DECISIONS.md, under `capital_weight`).
#[tactic(auto, using(crate::proofs::IsinLaws::capital_laws))]
fn capital_weight(double: bool, b: u64) -> u64
    requires { (65 ≤ b) × (b ≤ 90) }
    ensures { (result % 10 ≡ value_weight double (b - 55) % 10) × (result ≤ 600) }
{
    if double {
        2 * (b - 55) + b / 10 - 5
    } else {
        (b - 55) % 10 + 2 * ((b - 55) / 10)
    }
}

// The same for the value of a letter, or of another byte.
#[tactic(auto, using(crate::proofs::IsinLaws::letter_laws))]
fn letter_weight(double: bool, b: u8) -> u64
    ensures { (result % 10 ≡ value_weight double (letter_value b) % 10) × (result ≤ 600) }
{
    if text::belongs(Class::Capital, b) {
        capital_weight(double, u64::from(b))
    } else {
        weight(double, value_of(b))
    }
}

// The last three digits of a sum.
fn last_digits(n: u64) -> u64
    requires { n < 2000 }
    ensures { result ≡ n % 1000 }
{
    if n < 1000 { n } else { n - 1000 }
}

// The last digit of the sum over s, letter by letter from the last of them leftwards. No digits are stored, and of the sum only the last three are kept,
// by a subtraction: no length overflows.
pub fn letter_sum(s: &[u8]) -> u64
    ensures { result ≡ letter_sum s.now % 10 }
{
    let mut double = true;
    let mut total = 0;
    for b in s.iter().rev() {
        if text::belongs(Class::Digit, *b) {
            total = last_digits(total + weight(double, value_of(*b)));
            double = !double;
        } else {
            total = last_digits(total + letter_weight(double, *b));
        }
    }
    total % 10
}

// Whether the check digit of s is right.
#[tactic(auto, using(crate::proofs::IsinLaws::check_digit))]
pub fn is_check_digit_right(s: &[u8]) -> bool
    ensures { result ≡ check_digit_right s.now }
{
    (letter_sum(text::front(s, 11)) + value_of(s.get(11).copied().unwrap_or(0))) % 10 == 0
}

// Whether s is a valid ISIN.
pub fn is_isin(s: &[u8]) -> bool
    ensures { result ≡ valid_isin s.now }
{
    is_isin_form(s) && is_check_digit_right(s)
}
