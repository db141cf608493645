//! The counts of 32 nights.
ghost use Rattle.std.specs.Prelude.{◌≡◌, ℕ, ◌+◌, ◌-◌, ◌^◌, ◌<◌, ◌≤◌, ◌&&◌, false, true, nat_le, nat_lt, slice_index};
ghost use Rattle.hotel_nights.specs.Block.{one_if};
ghost use Rattle.hotel_books.specs.NightIndex.{HasTakenNight};

/// One more stay takes each night from the place `from` on and before `to`; a count stays at its greatest value.
pub(crate) fn more(counts: &mut [usize; 32], from: usize, to: usize)
    requires { to ≤ 32 }
    ensures counts { (j : ℕ) → slice_index counts.old j < 2 ^ 64 - 1
        → slice_index counts.new j ≡ slice_index counts.old j + one_if (nat_le from j && nat_lt j to) }
    ensures taken { from < to → HasTakenNight counts.new }
{
    for place in from..to {
        counts[place] = counts[place].saturating_add(1);
    }
}

/// One stay less takes each night from the place `from` on and before `to`, where any does. Whether a stay takes any
/// night.
pub(crate) fn less(counts: &mut [usize; 32], from: usize, to: usize) -> bool
    requires { to ≤ 32 }
    ensures counts { (j : ℕ) → slice_index counts.new j ≡ slice_index counts.old j - one_if
        (nat_le from j && nat_lt j to) }
    ensures none { result ≡ false → (j : ℕ) → slice_index counts.new j ≡ 0 }
    ensures some { result ≡ true → HasTakenNight counts.new }
{
    for place in from..to {
        counts[place] = counts[place].saturating_sub(1);
    }
    *counts != [0; 32]
}
