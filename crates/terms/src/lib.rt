// Places 31 to 51, 59 and 60: currency, quantity and price, the capacity, the terms of a derivative, and the last marks.
#![tactic(auto)]

ghost use Rattle.std.specs.Prelude.{◌≡◌};
ghost use Rattle.terms.specs.Terms.{is_decimal, is_positive, terms_tests};
ghost use Rattle.terms.specs.Capacity.{names_own, capacity_tests};
ghost use Rattle.terms.specs.Derivative.{derivative_tests};
ghost use Rattle.terms.specs.Marks.{mark_tests};

// Whether s is Nm,n.
fn is_decimal(s: &[u8], m: usize, n: usize) -> bool
    ensures { result ≡ is_decimal m n s.now }
{
    decimal::read(s, m, n).is_some()
}

// Whether s is Nm,n and not zero.
fn is_positive(s: &[u8], m: usize, n: usize) -> bool
    ensures { result ≡ is_positive m n s.now }
{
    decimal::read(s, m, n).is_some_and(|amount| !amount.zero)
}

// Whether each of places 31 to 41 fails.
// As it is: `money21` and `money24` are two tests, each asked once for several groups; no value stands beside them.
#[tactic(auto, unfolding(crate::specs::Terms::terms_tests))]
pub fn judge_terms(
    money21: bool,
    money24: bool,
    f21: &[u8],
    f22: &[u8],
    f23: &[u8],
    f24: &[u8],
    f25: &[u8],
) -> [bool; 11]
    ensures { result ≡ terms_tests money21 money24 f21.now f22.now f23.now f24.now f25.now }
{
    let special = tables::is_special(f21);
    let k = fields::letter_of(f23);
    let blank21 = f21.is_empty();
    let blank22 = f22.is_empty();
    let blank23 = f23.is_empty();
    let blank25 = f25.is_empty();
    [
        blank21, // 31 0210
        !blank21 & !special & !money21, // 32 0211
        blank22, // 33 0220
        !blank22 & !is_positive(f22, 15, 4), // 34 0221
        blank23, // 35 0230
        !blank23 & !((k == b'1') | (k == b'2') | (k == b'3') | (k == b'4')), // 36 0231
        money21 & ((k == b'1') | (k == b'4')) | special & ((k == b'2') | (k == b'3')), // 37 0232
        money21 & !f24.is_empty(), // 38 0240
        special & !money24, // 39 0241
        blank25, // 40 0250
        !blank25 & !is_decimal(f25, 7, 4), // 41 0251
    ]
}

// Whether F3 and F4 name the reporter's own row.
#[tactic(auto, unfolding(crate::specs::Capacity::names_own))]
fn names_own(reporters: &[u8], row: usize, f3: &[u8], f4: &[u8]) -> bool
    ensures { result ≡ names_own reporters.now row f3.now f4.now }
{
    let k = fields::letter_of(f3);
    (k == b'B') & tables::has_code(reporters, f4, row)
        | (k == b'S') & tables::has_address(reporters, f4, row)
}

// Whether each of places 42 to 46 fails.
#[tactic(auto, unfolding(crate::specs::Capacity::capacity_tests))]
pub fn judge_capacity(
    reporters: &[u8],
    row: usize,
    f3: &[u8],
    f4: &[u8],
    f18: &[u8],
    f28: &[u8],
) -> [bool; 5]
    ensures { result ≡ capacity_tests reporters.now row f3.now f4.now f18.now f28.now }
{
    let k18 = fields::letter_of(f18);
    let k28 = fields::letter_of(f28);
    let blank28 = f28.is_empty();
    let own = names_own(reporters, row, f3, f4);
    [
        blank28, // 42 0280
        !blank28 & !((k28 == b'E') | (k28 == b'K')), // 43 0281
        (k28 == b'E') & (k18 == b'N'), // 44 0282
        (k28 == b'K') & own, // 45 0283
        (k28 == b'E') & !f4.is_empty() & !own, // 46 0284
    ]
}

// Whether each of places 47 to 51 fails.
#[tactic(auto, using(text::proofs::SameLaws::eq_same), unfolding(crate::specs::Derivative::derivative_tests))]
pub fn judge_derivative(money21: bool, f21: &[u8], f29: &[u8], f30: &[u8], f32: &[u8]) -> [bool; 5]
    ensures { result ≡ derivative_tests money21 f21.now f29.now f30.now f32.now }
{
    let xxk = f21 == b"XXK".as_slice();
    let xxo = f21 == b"XXO".as_slice();
    let xxx = f21 == b"XXX".as_slice();
    let xxz = f21 == b"XXZ".as_slice();
    let k = fields::letter_of(f29);
    [
        (xxk | xxo) & !((k == b'C') | (k == b'P') | (k == b'F')), // 47 0290
        xxo & (k == b'F'), // 48 0292
        (money21 | xxx | xxz) & !f29.is_empty(), // 49 0293
        xxk & !is_decimal(f30, 10, 6), // 50 0301
        (xxo | xxk & ((k == b'C') | (k == b'P'))) & !is_decimal(f32, 10, 6), // 51 0321
    ]
}

// Whether each of places 59 and 60 fails.
#[tactic(auto, unfolding(crate::specs::Marks::mark_tests))]
pub fn judge_marks(f38: &[u8], f39: &[u8]) -> [bool; 2]
    ensures { result ≡ mark_tests f38.now f39.now }
{
    let k = fields::letter_of(f38);
    [
        !((k == b'J') | (k == b'N')), // 59 9381
        !identifier::is_name(f39, 16), // 60 9391
    ]
}
