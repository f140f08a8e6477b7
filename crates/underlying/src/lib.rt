// Field 33 of a record, the underlying of a derivative: places 52 to 58 of document 01.
#![tactic(auto)]

ghost use Rattle.std.specs.Prelude.{◌≡◌};
ghost use Rattle.underlying.specs.Underlying.{asks_underlying, underlying_tests};
ghost use Rattle.underlying.specs.Cases.{theme_of, present_of, underlying_of, first_letter, is_lacking, tests_of};

// The six words that may follow T.
#[derive(Clone, Copy)]
pub enum Theme {
    Basket,
    Commodity,
    Metal,
    NonMetal,
    Interest,
    Currency,
}

// Field 33 by its first letter.
#[derive(Clone, Copy)]
pub enum Underlying {
    // Blank, or over 41 bytes.
    Missing,
    // S, and whether the rest is a valid ISIN.
    Isin(bool),
    // E, a number of Eurex, and whether the letter stands alone.
    Eurex(bool),
    // O, a number of the ÖTOB, and whether the letter stands alone.
    Otob(bool),
    // A, a number of a foreign derivative, and whether the letter stands alone.
    Foreign(bool),
    // T with one of the six words.
    Themed(Theme),
    // T with any other text.
    Unlisted,
    // Any other letter.
    Unknown,
}

impl Underlying {
    // The letter that field 33 begins with; 0 where it is missing, a question mark for any other letter.
    fn first_letter(self) -> u8
        ensures { result ≡ first_letter self }
    {
        match self {
            Underlying::Missing => 0,
            Underlying::Isin(_) => b'S',
            Underlying::Eurex(_) => b'E',
            Underlying::Otob(_) => b'O',
            Underlying::Foreign(_) => b'A',
            Underlying::Themed(_) | Underlying::Unlisted => b'T',
            Underlying::Unknown => b'?',
        }
    }

    // Whether what follows the letter is not what the letter asks for: a valid ISIN, a number, one of the six words.
    fn is_lacking(self) -> bool
        ensures { result ≡ is_lacking self }
    {
        match self {
            Underlying::Isin(valid) => !valid,
            Underlying::Eurex(alone) | Underlying::Otob(alone) | Underlying::Foreign(alone) =>
                alone,
            Underlying::Unlisted => true,
            Underlying::Missing | Underlying::Themed(_) | Underlying::Unknown => false,
        }
    }
}

// What places 52 to 58 ask of a derivative's record.
#[derive(Clone, Copy)]
pub struct Derivative {
    // How the instrument is named: the byte of field 19; 0 where that field isn't one byte.
    pub naming: u8,
    pub underlying: Underlying,
}

impl Derivative {
    // Whether each of places 52 to 58 fails.
    #[tactic(auto, unfolding(crate::specs::Cases::tests_of), using(crate::proofs::UnderlyingLaws::letter_tests))]
    fn tests(self) -> [bool; 7]
        ensures { result ≡ tests_of self }
    {
        let naming = self.naming;
        let k = self.underlying.first_letter();
        let lacking = self.underlying.is_lacking();
        [
            k == 0, // 52 0331
            (k == b'S') & lacking, // 53 0332
            (naming == b'E') & ((k == b'O') | (k == b'A') | (k == b'T')), // 54 0335
            (k == b'T') & lacking, // 55 0336
            k == b'?', // 56 0337
            (naming == b'O') & ((k == b'E') | (k == b'A') | (k == b'T')), // 57 0338
            ((k == b'E') | (k == b'O') | (k == b'A')) & lacking, // 58 0339
        ]
    }
}

// Whether field 21 asks for an underlying.
#[tactic(auto, using(text::proofs::SameLaws::eq_same), unfolding(crate::specs::Underlying::asks_underlying))]
fn asks_underlying(f21: &[u8]) -> bool
    ensures { result ≡ asks_underlying f21.now }
{
    (f21 == b"XXK".as_slice()) | (f21 == b"XXO".as_slice()) | (f21 == b"XXZ".as_slice())
}

// What follows T: one of the six words, or an unlisted text.
// As it is: a match on byte strings leaves a goal for each byte at which a word may differ, 52 of them, and they did not close.
#[tactic(auto, using(text::proofs::SameLaws::eq_same), unfolding(crate::specs::Cases::first_theme))]
fn theme_of(word: &[u8]) -> Underlying
    ensures { result ≡ theme_of word.now }
{
    if word == b"BASKET".as_slice() {
        Underlying::Themed(Theme::Basket)
    } else if word == b"COMMODITY".as_slice() {
        Underlying::Themed(Theme::Commodity)
    } else if word == b"METAL".as_slice() {
        Underlying::Themed(Theme::Metal)
    } else if word == b"NON-METAL".as_slice() {
        Underlying::Themed(Theme::NonMetal)
    } else if word == b"INTEREST".as_slice() {
        Underlying::Themed(Theme::Interest)
    } else if word == b"CURRENCY".as_slice() {
        Underlying::Themed(Theme::Currency)
    } else {
        Underlying::Unlisted
    }
}

// Field 33 by its first letter, where it isn't missing.
#[tactic(auto, unfolding(crate::specs::Cases::present_of))]
fn present_of(f33: &[u8]) -> Underlying
    ensures { result ≡ present_of f33.now }
{
    let rest = text::rest(f33, 1);
    let alone = rest.is_empty();
    match fields::first_byte(f33) {
        b'S' => Underlying::Isin(identifier::is_isin(rest)),
        b'E' => Underlying::Eurex(alone),
        b'O' => Underlying::Otob(alone),
        b'A' => Underlying::Foreign(alone),
        b'T' => theme_of(rest),
        _ => Underlying::Unknown,
    }
}

// Field 33 by its first letter; missing where it is blank or over 41 bytes.
#[tactic(auto, unfolding(crate::specs::Cases::underlying_of, crate::specs::Underlying::is_missing))]
pub fn underlying_of(f33: &[u8]) -> Underlying
    ensures { result ≡ underlying_of f33.now }
{
    if f33.is_empty() | (41 < f33.len()) {
        return Underlying::Missing;
    }
    present_of(f33)
}

// Whether each of places 52 to 58 fails; none does where field 21 asks for no underlying.
#[tactic(auto, using(crate::proofs::UnderlyingLaws::asked_tests, crate::proofs::UnderlyingLaws::unasked_tests))]
pub fn judge(f19: &[u8], f21: &[u8], f33: &[u8]) -> [bool; 7]
    ensures { result ≡ underlying_tests f19.now f21.now f33.now }
{
    if asks_underlying(f21) {
        Derivative {
            naming: fields::letter_of(f19),
            underlying: underlying_of(f33),
        }
        .tests()
    } else {
        [false; 7]
    }
}
