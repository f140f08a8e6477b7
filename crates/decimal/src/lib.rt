// Decimal numbers of the form Nm,n, and whether they are zero, shown once over m and n.
#![tactic(auto)]

ghost use Rattle.std.specs.Prelude.{◌≡◌, true, ◌≤◌, ◌<◌, ◌+◌, ◌-◌, ◌*◌, ◌^◌, length};
ghost use Rattle.text.specs.Class.{is_digit};
ghost use Rattle.text.specs.Bytes.{all};
ghost use Rattle.decimal.specs.Decimal.{digits_up_to, digits_value, amount_of, whole_only, whole_and_part, decimal_of};

use text::Class;

// A value, in units of the last place behind the comma that the form allows; and whether it is zero.
// As it is: document 02, Item 4, has the reader tell it, and theorem zero_told speaks of the field.
#[derive(Clone, Copy)]
pub struct Amount {
    pub value: u64,
    pub zero: bool,
}

const POWERS: [u64; 20] = [
    1,
    10,
    100,
    1000,
    10000,
    100000,
    1000000,
    10000000,
    100000000,
    1000000000,
    10000000000,
    100000000000,
    1000000000000,
    10000000000000,
    100000000000000,
    1000000000000000,
    10000000000000000,
    100000000000000000,
    1000000000000000000,
    10000000000000000000,
];

// 10 to the n-th power.
// As it is: `10u64.pow(..)` takes some 7 instructions more for each decimal of a record, by callgrind; row file-250-empty is over its bar already.
fn power(n: usize) -> u64
    requires { n ≤ 19 }
    ensures { result ≡ 10 ^ n }
{
    POWERS[n]
}

// Whether s is 1 to `most` digits.
#[tactic(auto, unfolding(crate::specs::Decimal::digits_up_to))]
fn is_digits(s: &[u8], most: usize) -> bool
    ensures { result ≡ digits_up_to most s.now }
{
    ((1 <= s.len()) & (s.len() <= most)) && text::all(Class::Digit, s)
}

// The value of a digit.
fn digit(b: u8) -> u64
    requires { is_digit b ≡ true }
    ensures { (result ≡ b - 48) × (result < 10) }
{
    u64::from(b - b'0')
}

// The number that up to nineteen digits write.
#[tactic(auto, using(crate::proofs::DecimalLaws::digit_laws))]
fn number_of(s: &[u8]) -> u64
    requires { (length s.now ≤ 19) × (all is_digit s.now ≡ true) }
    ensures { result ≡ digits_value s.now }
{
    let mut v = 0;
    for b in s {
        v = v * 10 + digit(*b);
    }
    v
}

// The number that the digits write with n zeros behind them.
#[tactic(auto, using(crate::proofs::DecimalLaws::reading_laws))]
fn scaled(s: &[u8], n: usize) -> u64
    requires { (length s.now + n ≤ 19) × (all is_digit s.now ≡ true) }
    ensures { result ≡ digits_value s.now * 10 ^ n }
{
    number_of(s) * power(n)
}

// The value of a whole part and of the part behind the comma, and whether it is zero.
fn amount_of(whole: u64, part: u64) -> Amount
    requires { whole + part < 2 ^ 64 }
    ensures { result ≡ amount_of (whole + part) }
{
    let value = whole + part;
    Amount {
        value,
        zero: value == 0,
    }
}

// The digits w, without a comma.
#[tactic(auto, using(crate::proofs::DecimalLaws::reading_laws), unfolding(crate::specs::Decimal::whole_only))]
fn read_whole(w: &[u8], m: usize, n: usize) -> Option<Amount>
    requires { m + n ≤ 19 }
    ensures { result ≡ whole_only m n w.now }
{
    is_digits(w, m).then(|| amount_of(scaled(w, n), 0))
}

// The digits w, a comma and the digits f.
#[tactic(auto, using(crate::proofs::DecimalLaws::reading_laws), unfolding(crate::specs::Decimal::whole_and_part))]
fn read_both(w: &[u8], f: &[u8], m: usize, n: usize) -> Option<Amount>
    requires { m + n ≤ 19 }
    ensures { result ≡ whole_and_part m n w.now f.now }
{
    (is_digits(w, m) & is_digits(f, n)).then(|| amount_of(scaled(w, n), scaled(f, n - f.len())))
}

// The value of s read as Nm,n; none where s is malformed, or m and n are together over 19.
#[tactic(auto, unfolding(crate::specs::Decimal::decimal_of, crate::specs::Decimal::decimal_at))]
pub fn read(s: &[u8], m: usize, n: usize) -> Option<Amount>
    ensures { result ≡ decimal_of m n s.now }
{
    if m > 19 || n > 19 - m {
        return None;
    }
    match text::position(s, b',') {
        Some(k) => read_both(&s[..k], &s[k + 1..], m, n),
        None => read_whole(s, m, n),
    }
}
