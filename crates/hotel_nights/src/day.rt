//! Days of the calendar, by their numbers.

ghost use Rattle.std.specs.Prelude.{◌≡◌, ℕ, ◌≤◌, ◌+◌, Some, option_map};
ghost use Rattle.hotel_nights.specs.Days.{day_of_number, read_ymd, ymd, read_day, day_text};
ghost use Rattle.keycard_rules.specs.{Numerals.fixed_text, declared.note.TheConstants.LAST_DAY};

use jiff::civil::Date;
use jiff_core::civil::Date as PlainDate;
use keycard_rules::{LAST_DAY, read_numeral, write_fixed};
use std::fmt;
use std::marker::Model;

/// A day from 2000-01-01 to 2099-12-31 of the Gregorian calendar.
///
/// Contracts see a day as its number: how many days after 2000-01-01 it is, 0 to `LAST_DAY`. Days are ordered by it.
#[derive(Clone, Copy, PartialEq, Eq, PartialOrd, Ord, Hash, Debug)]
pub struct Day {
    number: u16,
}

impl Model for Day {
    ghost Value = { ℕ };

    ghost view = { λ d. d.number };

    ghost invariant = { λ d. d.number ≤ LAST_DAY };

    ghost inverse = { λ n. record { number = n } };
}

/// The days from -9999-01-01, the first date of `jiff`, to 2000-01-01.
const BEFORE: u32 = 4_382_544;

/// The year, the month and the day that `YYYY-MM-DD` writes, whether or not the calendar has them.
fn read_parts(text: &[u8]) -> Option<(u64, u64, u64)>
    ensures { option_map (λ p. ymd p.0 p.1 p.2) result ≡ read_ymd text.now }
{
    if text.len() != 10 || text[4] != b'-' || text[7] != b'-' {
        return None;
    }
    let year = read_numeral(&text[0..4], 10, 4)?;
    let month = read_numeral(&text[5..7], 10, 2)?;
    let day = read_numeral(&text[8..10], 10, 2)?;
    Some((year, month, day))
}

/// The last two decimal digits of the number, with leading zeros.
pub(crate) fn two_digits(number: u8) -> [u8; 2]
    ensures { result ≡ fixed_text 10 2 number }
{
    let mut text = [0; 2];
    write_fixed(u64::from(number), 10, &mut text);
    text
}

/// The last four decimal digits of the number, with leading zeros.
fn four_digits(number: u16) -> [u8; 4]
    ensures { result ≡ fixed_text 10 4 number }
{
    let mut text = [0; 4];
    write_fixed(u64::from(number), 10, &mut text);
    text
}

impl Day {
    /// The day that many days after 2000-01-01; `None` above `LAST_DAY`, which is 2099-12-31.
    pub fn new(number: u16) -> Option<Day>
        ensures { result ≡ day_of_number number }
    {
        if number > LAST_DAY {
            return None;
        }
        Some(Day { number })
    }

    /// The days from 2000-01-01 to this day, 0 to `LAST_DAY`.
    pub fn number(&self) -> u16
        ensures same { result ≡ self.now }
        ensures known { result ≤ LAST_DAY }
    {
        self.number
    }

    /// Reads `YYYY-MM-DD`, ten bytes: a date that `jiff` takes, from 2000-01-01 to 2099-12-31.
    ///
    /// `None` for any other text, as for `2001-02-29`.
    pub fn read(text: &[u8]) -> Option<Day>
        ensures { result ≡ read_day text.now }
    {
        let (year, month, day) = read_parts(text)?;
        if year < 2000 || year > 2099 || month > 12 || day > 31 {
            return None;
        }
        let Ok(date) = Date::new(year as i16, month as i8, day as i8) else {
            return None;
        };
        Some(Day {
            number: (date.to_plain().days_since_min() - BEFORE) as u16,
        })
    }

    /// Prints `YYYY-MM-DD`, which `read` takes back to this day.
    pub fn print(&self) -> [u8; 10]
        ensures text { result ≡ day_text self.now }
        ensures reads_back { read_day result ≡ Some self.now }
    {
        let date = PlainDate::from_days_since_min(BEFORE + u32::from(self.number));
        let [a, b, c, d] = four_digits(date.year.unsigned_abs());
        let [e, f] = two_digits(date.month);
        let [g, h] = two_digits(date.day);
        [a, b, c, d, b'-', e, f, b'-', g, h]
    }

    /// The day that many days later; `None` where that is after 2099-12-31.
    pub fn plus(&self, days: u16) -> Option<Day>
        ensures { result ≡ day_of_number (self.now + days) }
    {
        let number = self.number.checked_add(days)?;
        Day::new(number)
    }
}

/// As `print`: `YYYY-MM-DD`.
impl fmt::Display for Day {
    ghost output = { λ d. Some (day_text d) };

    fn fmt<W: fmt::Write>(&self, f: &mut fmt::Formatter<W>) -> fmt::Result {
        match std::str::from_utf8(&self.print()) {
            Ok(text) => f.write_str(text),
            Err(_) => Err(fmt::Error),
        }
    }
}
