// Dates and times of day.
#![tactic(auto)]

ghost use Rattle.std.specs.Prelude.{◌≡◌, ◌-◌, ◌<◌, ◌&&◌, leb, get_or};
ghost use Rattle.calendar.specs.Calendar.{digits_exactly, two_at, days_in, real_day, real_date, real_minute, real_second};

use text::Class;

// Whether s is n digits.
#[tactic(auto, unfolding(crate::specs::Calendar::digits_exactly))]
fn is_digits(s: &[u8], n: usize) -> bool
    ensures { result ≡ digits_exactly n s.now }
{
    s.len() == n && text::all(Class::Digit, s)
}

// How far the byte at place i is above the digit 0; 0 below it, and where s ends before it.
fn digit_at(s: &[u8], i: usize) -> u64
    ensures { (result ≡ get_or s.now i 0 - 48) × (result < 256) }
{
    u64::from(s.get(i).copied().unwrap_or(0).saturating_sub(b'0'))
}

// The number that the digits at place i and behind it write.
fn two_at(s: &[u8], i: usize) -> u64
    requires { i < 8 }
    ensures { result ≡ two_at s.now i }
{
    digit_at(s, i) * 10 + digit_at(s, i + 1)
}

#[tactic(auto, unfolding(crate::specs::Calendar::days_in))]
fn days_in(year: u64, month: u64) -> u64
    ensures { result ≡ days_in year month }
{
    match month {
        2 => { if year % 4 == 0 { 29 } else { 28 } }
        4 | 6 | 9 | 11 => 30,
        _ => 31,
    }
}

#[tactic(auto, unfolding(crate::specs::Calendar::real_day))]
fn is_real_day(century: u64, year: u64, month: u64, day: u64) -> bool
    ensures { result ≡ real_day century year month day }
{
    (century == 20) & (1 <= month) & (month <= 12) & (1 <= day) & (day <= days_in(year, month))
}

// Whether s is YYYYMMDD, a real date in 2000 to 2099.
#[tactic(auto, unfolding(crate::specs::Calendar::real_date))]
pub fn is_real_date(s: &[u8]) -> bool
    ensures { result ≡ real_date s.now }
{
    is_digits(s, 8) & is_real_day(two_at(s, 0), two_at(s, 2), two_at(s, 4), two_at(s, 6))
}

// Whether s is n digits, of which the first four are an hour to 23 and a minute to 59.
fn is_time(s: &[u8], n: usize) -> bool
    ensures { result ≡ (digits_exactly n s.now && leb (two_at s.now 0) 23 && leb (two_at s.now 2) 59) }
{
    is_digits(s, n) & (two_at(s, 0) <= 23) & (two_at(s, 2) <= 59)
}

// Whether s is HHMM, up to 2359 with minutes to 59.
#[tactic(auto, unfolding(crate::specs::Calendar::real_minute))]
pub fn is_real_minute(s: &[u8]) -> bool
    ensures { result ≡ real_minute s.now }
{
    is_time(s, 4)
}

// Whether s is HHMMSS, up to 235959 with minutes and seconds to 59.
#[tactic(auto, unfolding(crate::specs::Calendar::real_second))]
pub fn is_real_second(s: &[u8]) -> bool
    ensures { result ≡ real_second s.now }
{
    is_time(s, 6) & (two_at(s, 4) <= 59)
}
