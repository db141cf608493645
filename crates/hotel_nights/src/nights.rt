//! Numbers of nights.

ghost use Rattle.std.specs.Prelude.{◌≡◌, ℕ};
ghost use Rattle.std.specs.Option.{SomeIff};
ghost use Rattle.keycard_rules.specs.{Numerals.number_up_to, Numbers.IsNumberUpTo};
ghost use Rattle.hotel_nights.specs.declared.nights.TheConstants.{MOST_NIGHTS};

use keycard_rules::read_numeral;
use std::marker::Model;

/// The number of nights of a stay, 1 to `MOST_NIGHTS`.
///
/// Contracts see it as that number.
#[derive(Clone, Copy, PartialEq, Eq, PartialOrd, Ord, Hash, Debug)]
pub struct Nights {
    value: u8,
}

impl Model for Nights {
    ghost Value = { ℕ };

    ghost view = { λ n. n.value };

    ghost invariant = { λ n. IsNumberUpTo MOST_NIGHTS n.value };

    ghost inverse = { λ n. record { value = n } };
}

/// The most nights of one stay.
pub const MOST_NIGHTS: u8 = 90;

impl Nights {
    /// That many nights; `None` at 0 and above `MOST_NIGHTS`.
    pub fn new(value: u8) -> Option<Nights>
        ensures { SomeIff result (IsNumberUpTo MOST_NIGHTS value) value }
    {
        if value == 0 || value > MOST_NIGHTS {
            return None;
        }
        Some(Nights { value })
    }

    /// Reads 1 to 9 decimal digits, leading zeros among them, whose number is 1 to `MOST_NIGHTS`; `None` for any other
    /// text.
    pub fn read(text: &[u8]) -> Option<Nights>
        ensures { result ≡ number_up_to MOST_NIGHTS text.now }
    {
        let value = read_numeral(text, 10, 9)?;
        if value == 0 || value > u64::from(MOST_NIGHTS) {
            return None;
        }
        Some(Nights { value: value as u8 })
    }

    /// How many nights, 1 to `MOST_NIGHTS`.
    pub fn value(&self) -> u8
        ensures same { result ≡ self.now }
        ensures known { IsNumberUpTo MOST_NIGHTS result }
    {
        self.value
    }
}
