//! How many stays take each night, found by kind and night.
ghost use Rattle.std.specs.Prelude.{◌≡◌, ℕ, ◌+◌, ◌-◌, ◌*◌, ◌/◌, ◌^◌, ◌<◌, ◌≤◌, List, [], false, nat_le, IsOk};
ghost use Rattle.std.specs.Prelude.{OnOk, OnErr};
ghost use Rattle.hotel_nights.specs.Block.{one_if};
ghost use Rattle.hotel_nights.specs.FullNight.{first_day, is_full, is_standing, takes};
ghost use Rattle.hotel_nights.specs.{declared.stay.Stay.Stay};
ghost use Rattle.hotel_model.specs.Words.{greatest};
ghost use Rattle.hotel_books.specs.NightIndex.{counted, spans, CountsNights};

use crate::night_counts::{less, more};
use hotel_nights::{Day, KindCode, Stay};
use keycard_rules::Memory;
use std::alloc::Global;
use std::collections::BTreeMap;
use std::marker::Model;

/// How many booked and in-house stays of each kind take each night.
///
/// It keeps counts alone, so that books of any form can keep it beside their stays: of each kind those of 32 nights
/// together, and none of 32 that no stay takes. A night is named by its day's number.
#[derive(Drop)]
pub struct NightIndex {
    blocks: BTreeMap<(KindCode, u16), [usize; 32]>,
}

impl Model for NightIndex {
    ghost use Rattle.std.specs.Prelude.{ℕ, List};
    ghost use Rattle.hotel_books.specs.NightIndex.{HasNoEmptyBlock};

    ghost Value = { List ((List ℕ × ℕ) × List ℕ) };

    ghost view = { λ t. t.blocks.entries };

    ghost invariant = { λ t. HasNoEmptyBlock t.blocks.entries };
}

/// The first night that isn't of the block of `from`, or `to` where that comes before it.
fn end_of_part(from: u16, to: u16) -> u16
    requires { from < to }
    ensures later { from < result }
    ensures within { result ≤ to }
    ensures one_block { result ≤ from / 32 * 32 + 32 }
{
    from + (to - from).min(32 - from % 32)
}

impl NightIndex {
    /// The index of no stays.
    pub fn empty(alloc: Global) -> NightIndex
        ensures { result ≡ [] }
    {
        NightIndex {
            blocks: BTreeMap::new(alloc),
        }
    }

    /// One more stay takes each night from `from` on and before `to`, all of one block; a refusal changes nothing.
    fn count_part(&mut self, kind: &KindCode, from: u16, to: u16) -> Result<(), Memory>
        requires order { from < to }
        requires one_block { to ≤ from / 32 * 32 + 32 }
        ensures ok { OnOk result ((k : List ℕ) (d : ℕ) → counted self.old k d < 2 ^ 64 - 1
            → counted self.new k d ≡ counted self.old k d + one_if (spans kind.now from to k d)) }
        ensures err { OnErr result ((k : List ℕ) (d : ℕ) → counted self.new k d ≡ counted self.old k d) }
    {
        let block = from / 32;
        let first = usize::from(from % 32);
        let after = first + usize::from(to - from);
        if let Some(counts) = self.blocks.get_mut(&(*kind, block)) {
            more(counts, first, after);
            return Ok(());
        }
        let mut counts = [0; 32];
        more(&mut counts, first, after);
        let Ok(_) = self.blocks.insert((*kind, block), counts) else {
            return Err(Memory);
        };
        Ok(())
    }

    /// One stay less takes each night from `from` on and before `to`, all of one block, where any does.
    fn uncount_part(&mut self, kind: &KindCode, from: u16, to: u16)
        requires order { from < to }
        requires one_block { to ≤ from / 32 * 32 + 32 }
        ensures { (k : List ℕ) (d : ℕ) → counted self.new k d ≡ counted self.old k d - one_if
            (spans kind.now from to k d) }
    {
        let block = from / 32;
        let first = usize::from(from % 32);
        let after = first + usize::from(to - from);
        let Some(counts) = self.blocks.get_mut(&(*kind, block)) else {
            return;
        };
        let is_taken = less(counts, first, after);
        if !is_taken {
            self.blocks.remove(&(*kind, block));
        }
    }

    /// One stay less takes each night from `from` on and before `to`.
    fn uncount(&mut self, kind: &KindCode, from: u16, to: u16)
        ensures { (k : List ℕ) (d : ℕ) → counted self.new k d ≡ counted self.old k d - one_if
            (spans kind.now from to k d) }
    {
        let mut night = from;
        while night < to {
            let end = end_of_part(night, to);
            self.uncount_part(kind, night, end);
            night = end;
        }
    }

    /// One stay more takes each night from `from` on and before `to`, or where memory is refused none does.
    fn add_nights(&mut self, kind: &KindCode, from: u16, to: u16) -> Result<(), Memory>
        ensures ok { OnOk result ((k : List ℕ) (d : ℕ) → counted self.old k d < 2 ^ 63
            → counted self.new k d ≡ counted self.old k d + one_if (spans kind.now from to k d)) }
        ensures err { OnErr result ((k : List ℕ) (d : ℕ) → counted self.old k d < 2 ^ 63
            → counted self.new k d ≡ counted self.old k d) }
    {
        let mut night = from;
        while night < to {
            let end = end_of_part(night, to);
            let Ok(()) = self.count_part(kind, night, end) else {
                self.uncount(kind, from, night);
                return Err(Memory);
            };
            night = end;
        }
        Ok(())
    }

    /// Counts a standing stay of the kind at each night from its arrival on and before its departure. Where memory is
    /// refused, no count changes.
    ///
    /// A count that has reached its greatest value stays there, so what is said holds of counts below 2^63.
    pub fn add_span(&mut self, kind: &KindCode, arrive: Day, depart: Day) -> Result<(), Memory>
        ensures ok { OnOk result ((k : List ℕ) (d : ℕ) → counted self.old k d < 2 ^ 63
            → counted self.new k d ≡ counted self.old k d + one_if (spans kind.now arrive depart k d)) }
        ensures err { OnErr result ((k : List ℕ) (d : ℕ) → counted self.old k d < 2 ^ 63
            → counted self.new k d ≡ counted self.old k d) }
    {
        self.add_nights(kind, arrive.number(), depart.number())
    }

    /// Counts a stay at each night that it takes: none, where it doesn't stand. Where memory is refused, no count
    /// changes.
    ///
    /// A count that has reached its greatest value stays there, so what is said holds of counts below 2^63.
    pub fn add(&mut self, stay: &Stay) -> Result<(), Memory>
        ensures ok { OnOk result ((kind : List ℕ) (d : ℕ) → counted self.old kind d < 2 ^ 63
            → counted self.new kind d ≡ counted self.old kind d + one_if (takes kind d stay.now)) }
        ensures err { OnErr result ((kind : List ℕ) (d : ℕ) → counted self.old kind d < 2 ^ 63
            → counted self.new kind d ≡ counted self.old kind d) }
        ensures sure { is_standing stay.now.state ≡ false → IsOk result }
    {
        if !stay.state.is_standing() {
            return Ok(());
        }
        self.add_span(&stay.kind, stay.arrive, stay.depart)
    }

    /// Counts a stay no longer: once less at each night that it takes, down to 0. It takes no memory.
    pub fn remove(&mut self, stay: &Stay)
        ensures { (kind : List ℕ) (d : ℕ) → counted self.new kind d ≡ counted self.old kind d - one_if
            (takes kind d stay.now) }
    {
        if stay.state.is_standing() {
            let first = stay.arrive.number();
            let last = stay.depart.number();
            self.uncount(&stay.kind, first, last);
        }
    }

    /// The first night from `from` on and before `to`, all of one block, that so many stays take.
    fn first_in_part(&self, kind: &KindCode, rooms: u32, from: u16, to: u16) -> Option<u16>
        requires order { from < to }
        requires one_block { to ≤ from / 32 * 32 + 32 }
        ensures { result ≡ first_day (λ d. nat_le rooms (counted self.now kind.now d)) from (to - from) }
    {
        let counts = self
            .blocks
            .get(&(*kind, from / 32))
            .copied()
            .unwrap_or([0; 32]);
        for night in from..to {
            if counts[usize::from(night % 32)] >= rooms as usize {
                return Some(night);
            }
        }
        None
    }

    fn first_full(&self, kind: &KindCode, rooms: u32, arrive: Day, depart: Day) -> Option<Day>
        ensures { result ≡ first_day (λ d. nat_le rooms (counted self.now kind.now d)) arrive (depart - arrive) }
    {
        let last = depart.number();
        let mut first = arrive.number();
        while first < last {
            let end = end_of_part(first, last);
            if let Some(night) = self.first_in_part(kind, rooms, first, end) {
                return Day::new(night);
            }
            first = end;
        }
        None
    }

    /// The first night from `arrive` on and before `depart` that so many of the stays, or more, take in rooms of the
    /// kind, where these are the stays that are counted. It takes no memory.
    pub fn full_night(&self, kind: &KindCode, rooms: u32, arrive: Day, depart: Day) -> Option<Day>
        ensures { (stays : List Stay) → CountsNights self.now stays
            → result ≡ first_day (is_full stays kind.now rooms) arrive (depart - arrive) }
    {
        self.first_full(kind, rooms, arrive, depart)
    }

    /// The most stays that take one night from `from` on and before `to`, all of one block.
    fn most_in_part(&self, kind: &KindCode, from: u16, to: u16) -> usize
        requires order { from < to }
        requires one_block { to ≤ from / 32 * 32 + 32 }
        ensures { result ≡ greatest (counted self.now kind.now) from (to - from) }
    {
        let counts = self
            .blocks
            .get(&(*kind, from / 32))
            .copied()
            .unwrap_or([0; 32]);
        let mut most: usize = 0;
        for night in from..to {
            most = most.max(counts[usize::from(night % 32)]);
        }
        most
    }

    pub(crate) fn most_counted(&self, kind: &KindCode, arrive: Day, depart: Day) -> usize
        ensures { result ≡ greatest (counted self.now kind.now) arrive (depart - arrive) }
    {
        let last = depart.number();
        let mut first = arrive.number();
        let mut most: usize = 0;
        while first < last {
            let end = end_of_part(first, last);
            most = most.max(self.most_in_part(kind, first, end));
            first = end;
        }
        most
    }
}
