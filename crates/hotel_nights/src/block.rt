//! The first full night of a block of nights, by one pass over the stays.

ghost use Rattle.std.specs.Prelude.{◌≡◌, ℕ, ◌+◌, ◌-◌, ◌<◌, ◌≤◌, ◌^◌, slice_index};
ghost use Rattle.std.specs.List.{count_by};
ghost use Rattle.hotel_nights.specs.{FullNight.is_full, FullNight.first_day, FullNight.is_of_kind, Block.begins};
ghost use Rattle.hotel_nights.specs.{Block.ends, Block.one_if, declared.block.TheConstants.BLOCK};

use crate::kind::KindCode;
use crate::nights::MOST_NIGHTS;
use crate::stay::Stay;

/// The most nights of a block: a stay lies in two of them at most.
pub(crate) const BLOCK: u16 = MOST_NIGHTS as u16;

/// For each night of a block, how many stays begin to take it, and how many took the night before and don't take it.
#[derive(Clone, Copy)]
struct Tally {
    pub begins: [usize; BLOCK as usize],
    pub ends: [usize; BLOCK as usize],
}

/// Whether the stay holds its nights in rooms of the kind.
fn is_of_kind(stay: &Stay, kind: &KindCode) -> bool
    ensures { result ≡ is_of_kind kind.now stay.now }
{
    stay.state.is_standing() && stay.kind == *kind
}

/// Counts the stay at its first night in the block, and at the night after its last.
fn add(tally: &mut Tally, stay: &Stay, kind: &KindCode, first: u16, after: u16)
    requires order { first < after }
    requires few { after ≤ first + BLOCK }
    requires begins_fit { (j : ℕ) → slice_index tally.old.begins j < 2 ^ 63 }
    requires ends_fit { (j : ℕ) → slice_index tally.old.ends j < 2 ^ 63 }
    ensures begins { (j : ℕ) → slice_index tally.new.begins j ≡ slice_index tally.old.begins j + one_if
        (begins kind.now first after (first + j) stay.now) }
    ensures ends { (j : ℕ) → slice_index tally.new.ends j ≡ slice_index tally.old.ends j + one_if
        (ends kind.now first after (first + j) stay.now) }
{
    if !is_of_kind(stay, kind) {
        return;
    }
    let from = stay.arrive.number().max(first);
    let to = stay.depart.number().min(after);
    if from >= to {
        return;
    }
    tally.begins[usize::from(from - first)] += 1;
    if to < after {
        tally.ends[usize::from(to - first)] += 1;
    }
}

/// Counts all the stays of the kind.
fn count_stays(stays: &[Stay], kind: &KindCode, first: u16, after: u16) -> Tally
    requires order { first < after }
    requires few { after ≤ first + BLOCK }
    ensures begins { (j : ℕ) → slice_index result.begins j ≡ count_by
        (begins kind.now first after (first + j)) stays.now }
    ensures ends { (j : ℕ) → slice_index result.ends j ≡ count_by (ends kind.now first after (first + j)) stays.now }
{
    let mut tally = Tally {
        begins: [0; BLOCK as usize],
        ends: [0; BLOCK as usize],
    };
    for stay in stays {
        add(&mut tally, stay, kind, first, after);
    }
    tally
}

/// The number of the first full night from `first` on and before `after`.
pub(crate) fn first_in_block(
    stays: &[Stay],
    kind: &KindCode,
    rooms: u32,
    first: u16,
    after: u16,
) -> Option<u16>
    requires order { first < after }
    requires few { after ≤ first + BLOCK }
    ensures { result ≡ first_day (is_full stays.now kind.now rooms) first (after - first) }
{
    let tally = count_stays(stays, kind, first, after);
    let mut taken = 0;
    for night in first..after {
        let place = usize::from(night - first);
        taken = taken - tally.ends[place] + tally.begins[place];
        if taken >= rooms as usize {
            return Some(night);
        }
    }
    None
}
