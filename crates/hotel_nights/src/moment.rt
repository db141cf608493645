//! Moments: a day and a second of it.

ghost use Rattle.std.specs.Prelude.{◌≡◌, ℕ, ◌≤◌, Some};
ghost use Rattle.hotel_nights.specs.Moments.{moment_within, read_moment, read_time, moment_text, time_text};
ghost use Rattle.hotel_nights.specs.Moments.{moment_of, note_from};
ghost use Rattle.keycard_rules.specs.declared.note.TheConstants.{LAST_DAY, LAST_SECOND};

use crate::day::{Day, two_digits};
use keycard_rules::{Act, Count, FitNo, LAST_SECOND, LockNote, RoomNo, read_numeral};
use std::marker::Model;

/// A second of a day, in no time zone: each day has 86,400.
///
/// Contracts see a moment as the pair of its day's number and its second, 0 to `LAST_SECOND`.
/// Moments are ordered by the day, and on one day by the second. Whoever sets the second keeps it in this range.
#[derive(Clone, Copy, PartialEq, Eq, PartialOrd, Ord, Hash, Debug)]
pub struct Moment {
    pub day: Day,
    /// The second of the day, 0 to `LAST_SECOND`.
    pub second: u32,
}

impl Model for Moment {
    ghost Value = { ℕ × ℕ };

    ghost view = { λ m. (m.day, m.second) };

    ghost invariant = { λ m. (m.day ≤ LAST_DAY) × (m.second ≤ LAST_SECOND) };

    ghost inverse = { λ v. record { day = v.0; second = v.1 } };
}

/// The second of the day that `HH:MM:SS` writes.
fn read_time(text: &[u8]) -> Option<u32>
    ensures { result ≡ read_time text.now }
{
    if text.len() != 8 || text[2] != b':' || text[5] != b':' {
        return None;
    }
    let hour = read_numeral(&text[0..2], 10, 2)?;
    let minute = read_numeral(&text[3..5], 10, 2)?;
    let second = read_numeral(&text[6..8], 10, 2)?;
    if hour > 23 || minute > 59 || second > 59 {
        return None;
    }
    Some((hour * 3600 + minute * 60 + second) as u32)
}

/// The second of a day as `HH:MM:SS`.
fn print_time(second: u32) -> [u8; 8]
    requires { second ≤ LAST_SECOND }
    ensures { result ≡ time_text second }
{
    let [a, b] = two_digits((second / 3600) as u8);
    let [c, d] = two_digits((second / 60 % 60) as u8);
    let [e, f] = two_digits((second % 60) as u8);
    [a, b, b':', c, d, b':', e, f]
}

impl Moment {
    /// That second of the day; `None` above `LAST_SECOND`.
    pub fn new(day: Day, second: u32) -> Option<Moment>
        ensures { result ≡ moment_within day second }
    {
        if second > LAST_SECOND {
            return None;
        }
        Some(Moment { day, second })
    }

    /// When the lock noted it.
    pub fn of(note: &LockNote) -> Moment
        ensures { result ≡ moment_of note.now }
    {
        let Some(day) = Day::new(note.day) else {
            unreachable!()
        };
        let second = note.second;
        Moment { day, second }
    }

    /// What a room's lock notes at this moment.
    pub fn note(self, room: RoomNo, fit: FitNo, count: Count, act: Act) -> LockNote
        ensures { result ≡ note_from room fit count act self }
    {
        LockNote {
            room,
            fit,
            count,
            act,
            day: self.day.number(),
            second: self.second,
        }
    }

    /// Reads `YYYY-MM-DDTHH:MM:SS`, 19 bytes, where one space may stand for the `T`: a date as `Day::read` takes it,
    /// hours 00 to 23, minutes and seconds 00 to 59.
    ///
    /// `None` for any other text, as for the second 60 of a leap second.
    pub fn read(text: &[u8]) -> Option<Moment>
        ensures { result ≡ read_moment text.now }
    {
        if text.len() != 19 || (text[10] != b'T' && text[10] != b' ') {
            return None;
        }
        let day = Day::read(&text[0..10])?;
        let second = read_time(&text[11..19])?;
        Some(Moment { day, second })
    }

    /// Prints `YYYY-MM-DDTHH:MM:SS`, which `read` takes back to this moment.
    pub fn print(&self) -> [u8; 19]
        ensures text { result ≡ moment_text self.now }
        ensures reads_back { read_moment result ≡ Some self.now }
    {
        let [a, b, c, d, e, f, g, h, i, j] = self.day.print();
        let [k, l, m, n, o, p, q, r] = print_time(self.second);
        [a, b, c, d, e, f, g, h, i, j, b'T', k, l, m, n, o, p, q, r]
    }
}
