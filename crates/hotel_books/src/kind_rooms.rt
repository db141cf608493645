//! The kinds, each with how many rooms it has.
ghost use Rattle.std.specs.Prelude.{◌≡◌, ℕ, ◌+◌, ◌-◌, ◌^◌, ◌<◌, List, [], true, false, IsOk, OnOk, OnErr, bytes_eq};
ghost use Rattle.std.specs.Ordering.{nat_cmp};
ghost use Rattle.std.specs.Cmp.Lexicographic.{slice_cmp};
ghost use Rattle.std.specs.BTreeSet.{insert_key};
ghost use Rattle.std.specs.Map.{keys_of};
ghost use Rattle.hotel_nights.specs.Block.{one_if};
ghost use Rattle.hotel_books.specs.KindRooms.{is_there, rooms_in};

use hotel_nights::KindCode;
use keycard_rules::Memory;
use std::alloc::Global;
use std::collections::BTreeMap;
use std::marker::Model;

/// The kinds, and how many rooms each of them has.
///
/// It keeps counts alone, so that books of any form can keep it beside their rooms.
#[derive(Drop)]
pub struct KindRooms {
    counts: BTreeMap<KindCode, u32>,
}

impl Model for KindRooms {
    ghost use Rattle.std.specs.Prelude.{ℕ, List};

    ghost Value = { List (List ℕ × ℕ) };

    ghost view = { λ t. t.counts.entries };
}

impl KindRooms {
    /// No kinds.
    pub fn empty(alloc: Global) -> KindRooms
        ensures { result ≡ [] }
    {
        KindRooms {
            counts: BTreeMap::new(alloc),
        }
    }

    /// Whether a kind is there.
    pub fn has(&self, kind: &KindCode) -> bool
        ensures { result ≡ is_there self.now kind.now }
    {
        self.counts.contains_key(kind)
    }

    /// How many rooms a kind has; 0 where it isn't there.
    pub fn rooms(&self, kind: &KindCode) -> u32
        ensures { result ≡ rooms_in self.now kind.now }
    {
        self.counts.get(kind).copied().unwrap_or(0)
    }

    /// The kinds in order, each with how many rooms it has.
    pub fn map(&self) -> &BTreeMap<KindCode, u32>
        ensures { result.now.entries ≡ self.now }
    {
        &self.counts
    }

    /// Adds a kind, which has no rooms yet; a refusal changes nothing.
    pub fn add_kind(&mut self, kind: KindCode) -> Result<(), Memory>
        requires { is_there self.old kind ≡ false }
        ensures kinds { OnOk result (keys_of self.new ≡ insert_key (slice_cmp nat_cmp) (keys_of self.old) kind) }
        ensures rooms { OnOk result ((k : List ℕ) → rooms_in self.new k ≡ rooms_in self.old k) }
        ensures err { OnErr result (self.new ≡ self.old) }
    {
        let Ok(_) = self.counts.insert(kind, 0) else {
            return Err(Memory);
        };
        Ok(())
    }

    /// A kind is there from now on: one that wasn't has no rooms yet. A refusal changes nothing.
    pub fn know_kind(&mut self, kind: KindCode) -> Result<(), Memory>
        ensures same { is_there self.old kind ≡ true → self.new ≡ self.old }
        ensures kinds { is_there self.old kind ≡ false →
            OnOk result (keys_of self.new ≡ insert_key (slice_cmp nat_cmp) (keys_of self.old) kind) }
        ensures rooms { (k : List ℕ) → rooms_in self.new k ≡ rooms_in self.old k }
        ensures err { OnErr result (self.new ≡ self.old) }
        ensures sure { is_there self.old kind ≡ true → IsOk result }
    {
        if self.has(&kind) {
            return Ok(());
        }
        self.add_kind(kind)
    }

    /// A kind that is there has one more room, up to the greatest count. It takes no memory.
    pub fn add_room(&mut self, kind: &KindCode)
        ensures kinds { keys_of self.new ≡ keys_of self.old }
        ensures absent { is_there self.old kind.now ≡ false → self.new ≡ self.old }
        ensures rooms { is_there self.old kind.now ≡ true → rooms_in self.old kind.now < 2 ^ 32 - 1 → (k : List ℕ)
            → rooms_in self.new k ≡ rooms_in self.old k + one_if (bytes_eq kind.now k) }
    {
        let Some(rooms) = self.counts.get_mut(kind) else {
            return;
        };
        *rooms = rooms.saturating_add(1);
    }
}
