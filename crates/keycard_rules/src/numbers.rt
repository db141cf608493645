//! The numbers of cards, parties, rooms, locks and notes: one generic type.

ghost use Rattle.std.specs.Prelude.{◌≡◌, ℕ, ◌+◌, ◌<◌};
ghost use Rattle.std.specs.Option.{SomeIff};
ghost use Rattle.keycard_rules.specs.{Numerals.number_up_to, Numbers.IsNumberUpTo};
ghost use Rattle.std.specs.Ordering.{nat_cmp, as_partial_cmp};
ghost use Rattle.std.specs.Cmp.{partial_order_from_own_ties};
ghost use Rattle.std.specs.Cmp.Rules.{comparing};
ghost use Rattle.std.proofs.Common.{rules};

use crate::numerals::read_numeral;
use std::cmp::Ordering;
use std::marker::{Model, PhantomData};

/// The last number of a card, of a party and of the notes that one lock counts.
pub const LAST_NUMBER: u32 = 9_999_999;

/// The last number of a room.
pub const LAST_ROOM: u32 = 9_999;

/// The last number of a room's locks.
pub const LAST_FIT: u32 = 99;

/// A number from 1 up to `MOST`. `K` keeps the numbers of different things apart.
#[derive(Clone, Copy, PartialEq, Eq, Debug)]
pub struct Number<K, const MOST: u32> {
    value: u32,
    kind: PhantomData<K>,
}

impl<K, const MOST: u32> Model for Number<K, MOST> {
    ghost Value = { ℕ };

    ghost view = { λ n. n.value };

    ghost invariant = { λ n. IsNumberUpTo MOST n.value };

    ghost inverse = { λ n. record { value = n; kind = record {} } };
}

impl<K, const MOST: u32> Number<K, MOST> {
    /// The number of this value, or `None` where it is 0 or above `MOST`.
    pub fn new(value: u32) -> Option<Number<K, MOST>>
        ensures { SomeIff result (IsNumberUpTo MOST value) value }
    {
        if value == 0 || value > MOST {
            return None;
        }
        Some(Number {
            value,
            kind: PhantomData,
        })
    }

    /// The number as an integer.
    pub fn value(&self) -> u32
        ensures same { result ≡ self.now }
        ensures known { IsNumberUpTo MOST result }
    {
        self.value
    }

    /// Reads one to nine decimal digits and nothing else: leading zeros are allowed, the value is in range.
    pub fn read(text: &[u8]) -> Option<Number<K, MOST>>
        ensures { result ≡ number_up_to MOST text.now }
    {
        let value = read_numeral(text, 10, 9)?;
        if value == 0 || value > u64::from(MOST) {
            return None;
        }
        Some(Number {
            value: value as u32,
            kind: PhantomData,
        })
    }

    /// The number after it, or `None` at the greatest.
    pub fn next(&self) -> Option<Number<K, MOST>>
        ensures { SomeIff result (self.now < MOST) (self.now + 1) }
    {
        if self.value >= MOST {
            return None;
        }
        Some(Number {
            value: self.value + 1,
            kind: PhantomData,
        })
    }
}

// Written out, so that contracts see a map's keys in the order of plain numbers.
impl<K: Eq, const MOST: u32> Ord for Number<K, MOST> {
    ghost cmp = { nat_cmp };

    ghost total = { Prim.search (comparing, rules) };

    ghost matches_partial_cmp = { Prim.search (comparing, rules) };

    ghost matches_eq = { Prim.search (comparing, rules) };

    fn cmp(&self, other: &Number<K, MOST>) -> Ordering {
        self.value.cmp(&other.value)
    }
}

impl<K: Eq, const MOST: u32> PartialOrd for Number<K, MOST> {
    ghost partial_cmp = { as_partial_cmp nat_cmp };

    ghost laws = { partial_order_from_own_ties (Prim.search (comparing, rules)) (Prim.search (comparing, rules)) };

    fn partial_cmp(&self, other: &Number<K, MOST>) -> Option<Ordering> {
        Some(self.cmp(other))
    }
}

/// Marks the numbers of cards.
#[derive(Clone, Copy, PartialEq, Eq, PartialOrd, Ord, Debug)]
pub struct CardKind;

/// The number of a card, from 1 on.
pub type CardNo = Number<CardKind, LAST_NUMBER>;

/// Marks the numbers of parties.
#[derive(Clone, Copy, PartialEq, Eq, PartialOrd, Ord, Debug)]
pub struct PartyKind;

/// The number of a party, which is one reservation, from 1 on.
pub type PartyNo = Number<PartyKind, LAST_NUMBER>;

/// Marks the numbers of rooms.
#[derive(Clone, Copy, PartialEq, Eq, PartialOrd, Ord, Debug)]
pub struct RoomKind;

/// The number of a room, from 1 on.
pub type RoomNo = Number<RoomKind, LAST_ROOM>;

/// Marks the numbers of a room's locks.
#[derive(Clone, Copy, PartialEq, Eq, PartialOrd, Ord, Debug)]
pub struct FitKind;

/// The number of a room's lock: the first is 1.
pub type FitNo = Number<FitKind, LAST_FIT>;

/// Marks the counts of lock notes.
#[derive(Clone, Copy, PartialEq, Eq, PartialOrd, Ord, Debug)]
pub struct NoteKind;

/// The count that a lock gives its note, from 1 on.
pub type Count = Number<NoteKind, LAST_NUMBER>;
