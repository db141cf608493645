//! A short text in a buffer of fixed size, for answers that take no memory.

ghost use Rattle.std.specs.Prelude.{◌≡◌, ◌++◌, ◌+◌, ◌^◌, ◌<◌, ◌≤◌, ℕ, List, [], length, take};
ghost use Rattle.std.specs.Fmt.{decimal};

use std::marker::Model;

/// A text of at most `MOST` bytes. Contracts see its bytes.
#[derive(Drop)]
pub struct ShortText<const MOST: usize> {
    bytes: [u8; MOST],
    len: usize,
}

impl<const MOST: usize> Model for ShortText<MOST> {
    ghost Value = { List ℕ };

    ghost view = { λ t. take t.len t.bytes };

    ghost invariant = { λ t. t.len ≤ MOST };
}

impl<const MOST: usize> ShortText<MOST> {
    /// A text of no bytes.
    pub fn new() -> ShortText<MOST>
        ensures { result ≡ [] }
    {
        ShortText {
            bytes: [0; MOST],
            len: 0,
        }
    }

    /// The bytes of the text.
    pub fn as_bytes(&self) -> &[u8]
        ensures same { result.now ≡ self.now }
        ensures short { length result.now ≤ MOST }
    {
        &self.bytes[..self.len]
    }

    /// Puts a text behind the others.
    pub fn push(&mut self, text: &[u8])
        requires { length self.old + length text.now ≤ MOST }
        ensures text { self.new ≡ self.old ++ text.now }
        ensures len { length self.new ≡ length self.old + length text.now }
    {
        let begin = self.len;
        let end = begin + text.len();
        let bytes = &mut self.bytes[..];
        bytes[begin..end].copy_from_slice(text);
        self.len = end;
    }

    /// Puts a number of at most `DIGITS` digits behind the others, in decimal digits.
    pub fn push_number<const DIGITS: usize>(&mut self, number: u128)
        requires few { (0 < DIGITS) × (number < 10 ^ DIGITS) }
        requires room { length self.old + DIGITS ≤ MOST }
        ensures text { self.new ≡ self.old ++ decimal number }
        ensures len { length self.new ≤ length self.old + DIGITS }
    {
        let mut digits = itoa::Buffer::new();
        self.push(digits.format(number).as_bytes());
    }
}
