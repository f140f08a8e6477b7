// Places 18 to 30 of document 01: the trade and its instrument.
#![tactic(auto)]

ghost use Rattle.std.specs.Prelude.{◌≡◌};
ghost use Rattle.trade.specs.Trade.{venue_form, trade_tests};
ghost use Rattle.trade.specs.Instrument.{instrument_tests};

use text::Class;

// Whether s has the form of a venue.
#[tactic(auto, unfolding(crate::specs::Trade::venue_form))]
fn is_venue(s: &[u8]) -> bool
    ensures { result ≡ venue_form s.now }
{
    s.len() == 4 && text::all(Class::CapitalOrDigit, s)
}

// Whether each of places 18 to 24 fails.
#[tactic(auto, unfolding(crate::specs::Trade::trade_tests))]
pub fn judge_trade(
    f7: &[u8],
    f8: &[u8],
    f9: &[u8],
    f14: &[u8],
    f15: &[u8],
    f18: &[u8],
    f19: &[u8],
) -> [bool; 7]
    ensures { result ≡ trade_tests f7.now f8.now f9.now f14.now
        f15.now f18.now f19.now }
{
    let k7 = fields::letter_of(f7);
    let k15 = fields::letter_of(f15);
    let k18 = fields::letter_of(f18);
    let k19 = fields::letter_of(f19);
    [
        !((k7 == b'B') | (k7 == b'S')), // 18 9071
        !calendar::is_real_date(f8), // 19 9081
        !calendar::is_real_second(f9), // 20 9091
        !is_venue(f14) & ((k15 == b'J') | ((k19 == b'A') | (k19 == b'R'))), // 21 9141
        (k15 == b'N') & !f14.is_empty() & !((k19 == b'A') | (k19 == b'R')), // 22 9142
        !((k15 == b'J') | (k15 == b'N')), // 23 9151
        !((k18 == b'J') | (k18 == b'N')), // 24 9181
    ]
}

// Whether each of places 25 to 30 fails.
#[tactic(auto, unfolding(crate::specs::Instrument::instrument_tests))]
pub fn judge_instrument(f19: &[u8], f20: &[u8]) -> [bool; 6]
    ensures { result ≡ instrument_tests f19.now f20.now }
{
    let k = fields::letter_of(f19);
    let isin = identifier::is_isin_form(f20);
    let n = f20.len();
    let blank = f20.is_empty();
    [
        !((k == b'S') | (k == b'E') | (k == b'O') | (k == b'A') | (k == b'R') | (k == b'I')), // 25 0191
        blank, // 26 0200
        !blank & (k == b'S') & !isin, // 27 0201
        !blank & (k == b'R') & (4 < n), // 28 0204
        !blank & (k == b'S') & isin & !identifier::is_check_digit_right(f20), // 29 0206
        !blank & ((k == b'E') & (20 < n) | ((k == b'O') | (k == b'A') | (k == b'I')) & (15 < n)), // 30 0207
    ]
}
