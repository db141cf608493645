//! Stored numbers as the rules read them.
ghost use Rattle.std.specs.Prelude.{◌≡◌, option_map};
ghost use Rattle.std.specs.Ordering.{nat_cmp, is_lt};
ghost use Rattle.hotel_model.specs.Words.{pair_cmp};
ghost use Rattle.hotel_model.specs.SoundRooms.{are_in_order, count_up};
ghost use Rattle.hotel_rows.specs.Keys.{are_numbered};
ghost use Rattle.hotel_rows.specs.Stored.{number_of};

use keycard_rules::LAST_NUMBER;

/// The greatest number, which no rule takes: it stands where there is none.
pub(crate) const NO_NUMBER: u64 = u64::MAX;

/// A stored number; one below 0 is read as one that no rule takes.
pub(crate) fn number(stored: i64) -> u64
    ensures { result ≡ number_of stored }
{
    if stored < 0 {
        return NO_NUMBER;
    }
    stored as u64
}

/// The same of a number that may be null.
pub(crate) fn number_if(stored: Option<i64>) -> Option<u64>
    ensures { result ≡ option_map number_of stored }
{
    match stored {
        Some(stored) => Some(number(stored)),
        None => None,
    }
}

/// Whether each key comes before the next.
pub(crate) fn rise(keys: &[u64]) -> bool
    ensures { result ≡ are_in_order nat_cmp keys.now }
{
    for i in 1..keys.len() {
        if keys[i - 1] >= keys[i] {
            return false;
        }
    }
    true
}

fn is_before(a: (u64, u64), b: (u64, u64)) -> bool
    ensures { result ≡ is_lt (pair_cmp a b) }
{
    a < b
}

/// Whether each pair comes before the next.
pub(crate) fn rise_in_pairs(keys: &[(u64, u64)]) -> bool
    ensures { result ≡ are_in_order pair_cmp keys.now }
{
    for i in 1..keys.len() {
        if !is_before(keys[i - 1], keys[i]) {
            return false;
        }
    }
    true
}

/// Whether the keys are 1, 2 and so on.
pub(crate) fn count_from_one(keys: &[u64]) -> bool
    ensures { result ≡ count_up 1 keys.now }
{
    for (i, key) in keys.iter().enumerate() {
        if *key != i as u64 + 1 {
            return false;
        }
    }
    true
}

/// Whether the keys are 1 and on, in order, and no more than there are numbers.
pub(crate) fn are_numbered(keys: &[u64]) -> bool
    ensures { result ≡ are_numbered keys.now }
{
    if !count_from_one(keys) {
        return false;
    }
    keys.len() <= LAST_NUMBER as usize
}
