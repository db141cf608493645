//! The codes of cards and locks.

ghost use Rattle.std.specs.Prelude.{◌≡◌, ℕ, ◌<◌, Some, None, if◌then◌else◌, nat_lt};
ghost use Rattle.keycard_rules.specs.{Draw.code_of, Numerals.read_code, Numerals.code_text};
ghost use Rattle.keycard_rules.specs.declared.code.TheConstants.{CODES};

use crate::numerals::{read_numeral, write_fixed};
use std::marker::Model;

/// How many codes there are: 2^48, each with twelve hexadecimal digits.
pub const CODES: u64 = 281_474_976_710_656;

/// A code of a card or a lock: a whole number below `CODES`.
#[derive(Clone, Copy, PartialEq, Eq, PartialOrd, Ord, Hash, Debug)]
pub struct Code {
    value: u64,
}

impl Model for Code {
    ghost Value = { ℕ };

    ghost view = { λ c. c.value };

    ghost invariant = { λ c. c.value < CODES };

    ghost inverse = { λ n. record { value = n } };
}

impl Code {
    /// The code of this value, or `None` from `CODES` on.
    pub fn new(value: u64) -> Option<Code>
        ensures { result ≡ (if nat_lt value CODES then Some value else None) }
    {
        if value < CODES {
            Some(Code { value })
        } else {
            None
        }
    }

    /// The code of a source's word: its upper 48 bits.
    pub(crate) fn of_word(word: u64) -> Code
        ensures { result ≡ code_of word }
    {
        Code {
            value: word / 65_536,
        }
    }

    /// The code as a number.
    pub fn value(&self) -> u64
        ensures same { result ≡ self.now }
        ensures below { result < CODES }
    {
        self.value
    }

    /// Reads one to twelve hexadecimal digits of either case and nothing else.
    pub fn read(text: &[u8]) -> Option<Code>
        ensures { result ≡ read_code text.now }
    {
        let value = read_numeral(text, 16, 12)?;
        Some(Code { value })
    }

    /// Twelve hexadecimal digits with small letters and leading zeros.
    pub fn print(&self) -> [u8; 12]
        ensures text { result ≡ code_text self.now }
        ensures reads_back { read_code result ≡ Some self.now }
    {
        let mut text = [0; 12];
        write_fixed(self.value, 16, &mut text);
        text
    }
}
