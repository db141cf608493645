//! The texts of a verb's values.

ghost use Rattle.std.specs.Prelude.{◌≡◌, ◌↔◌, false, ◌<◌, ◌++◌, [], ◌∷◌, length, map};

use std::marker::Model;

/// The most values that a verb has.
pub const MOST_VALUES: usize = 6;

/// The texts of up to `MOST_VALUES` values, in the order of `Verb::values`. Contracts see the list of the texts.
#[derive(Drop)]
pub struct ValueTexts<'a> {
    texts: [&'a [u8]; MOST_VALUES],
    count: usize,
}

impl<'a> Model for ValueTexts<'a> {
    ghost use Rattle.std.specs.Prelude.{◌≡◌, ◌≤◌, ℕ, List, length, map, take};
    ghost use Rattle.hotel_asks.specs.declared.texts.TheConstants.{MOST_VALUES};

    ghost Value = { List (List ℕ) };

    ghost view = { λ v. map (λ t. t.now) (take v.count v.texts) };

    ghost invariant = { λ v. (length v.texts ≡ MOST_VALUES) × (v.count ≤ MOST_VALUES) };
}

impl<'a> ValueTexts<'a> {
    /// No values.
    pub fn new() -> ValueTexts<'a>
        ensures { result ≡ [] }
    {
        let texts: [&[u8]; MOST_VALUES] = [b""; MOST_VALUES];
        ValueTexts { texts, count: 0 }
    }

    /// Whether there is room for no further value.
    pub fn is_full(&self) -> bool
        ensures { result ≡ false ↔ (length self.now < MOST_VALUES) }
    {
        self.count == MOST_VALUES
    }

    /// Adds a value after the others.
    pub fn push(&mut self, text: &'a [u8])
        requires { length self.old < MOST_VALUES }
        ensures { self.new ≡ self.old ++ text.now ∷ [] }
    {
        self.texts[self.count] = text;
        self.count += 1;
    }

    /// The values, in order.
    pub fn as_slice(&self) -> &[&'a [u8]]
        ensures { map (λ t. t.now) result.now ≡ self.now }
    {
        &self.texts[..self.count]
    }
}
