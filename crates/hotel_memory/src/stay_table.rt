//! The stays, with the index of those that stand.
ghost use Rattle.std.specs.Prelude.{◌≡◌, ◌-◌, ℕ, true, false, Some, [], OnOk, OnErr, None};
ghost use Rattle.std.specs.Ordering.{nat_cmp};
ghost use Rattle.std.specs.BTreeMap.{insert_entry};
ghost use Rattle.std.specs.Map.{values_of};
ghost use Rattle.hotel_nights.specs.FullNight.{first_day, is_full, is_standing};
ghost use Rattle.hotel_nights.specs.declared.stay.StayState.TheVariants as state;
ghost use Rattle.hotel_model.specs.{Words.said_of, Rows.at_number, Stays.in_state};
ghost use Rattle.hotel_books.specs.NightIndex.{CountsNightsOf};

use crate::row_changes::set_state;
use hotel_books::NightIndex;
use hotel_nights::{Day, KindCode, Stay, StayState};
use keycard_rules::{Memory, PartyNo, RoomNo};
use std::alloc::Global;
use std::collections::BTreeMap;
use std::marker::Model;

/// The stays by party, and how many that stand take each night of each kind.
#[derive(Drop)]
pub(crate) struct StayTable {
    stays: BTreeMap<PartyNo, Stay>,
    nights: NightIndex,
}

impl Model for StayTable {
    ghost use Rattle.std.specs.Prelude.{ℕ, List};
    ghost use Rattle.hotel_nights.specs.declared.stay.Stay.{Stay};
    ghost use Rattle.hotel_books.specs.NightIndex.{CountsNightsOf};

    ghost Value = { List (ℕ × Stay) };

    ghost view = { λ t. t.stays.entries };

    ghost invariant = { λ t. CountsNightsOf t.nights t.stays.entries };
}

impl StayTable {
    pub(crate) fn empty(alloc: Global) -> StayTable
        ensures { result ≡ [] }
    {
        StayTable {
            stays: BTreeMap::new(alloc),
            nights: NightIndex::empty(alloc),
        }
    }

    /// The stays by party.
    pub(crate) fn map(&self) -> &BTreeMap<PartyNo, Stay>
        ensures { result.now.entries ≡ self.now }
    {
        &self.stays
    }

    /// How many stays that stand take each night of each kind.
    pub(crate) fn nights(&self) -> &NightIndex
        ensures { CountsNightsOf result.now self.now }
    {
        &self.nights
    }

    /// Adds the stay of a new party; a refusal changes nothing.
    pub(crate) fn insert(&mut self, stay: Stay) -> Result<(), Memory>
        requires { at_number self.old stay.party ≡ None }
        ensures ok { OnOk result (self.new ≡ insert_entry nat_cmp self.old stay.party stay) }
        ensures err { OnErr result (self.new ≡ self.old) }
    {
        // There are fewer than 2^63 stays, so the counts fit.
        let _few = self.stays.len();
        self.nights.add(&stay)?;
        let party = stay.party;
        match self.stays.insert(party, stay) {
            Ok(_) => Ok(()),
            Err(refused) => {
                self.nights.remove(&refused.value.1);
                Err(Memory)
            }
        }
    }

    /// A stay that stands is in house from now on. It takes no memory.
    pub(crate) fn stand_on(&mut self, party: PartyNo, room: RoomNo)
        requires { said_of (at_number self.old party) true (λ s. is_standing s.state) ≡ true }
        ensures { self.new ≡ in_state party (state.InHouse room) self.old }
    {
        set_state(&mut self.stays, party, StayState::InHouse(room));
    }

    /// A stay no longer holds its nights. It takes no memory.
    pub(crate) fn end(&mut self, party: PartyNo, state: StayState)
        requires { is_standing state ≡ false }
        ensures { self.new ≡ in_state party state self.old }
    {
        let Some(stay) = self.stays.get(&party) else {
            return;
        };
        self.nights.remove(stay);
        set_state(&mut self.stays, party, state);
    }

    /// The first night from `arrive` on and before `depart` that so many stays of the kind, or more, take. It takes no
    /// memory.
    pub(crate) fn full_night(
        &self,
        kind: &KindCode,
        rooms: u32,
        arrive: Day,
        depart: Day,
    ) -> Option<Day>
        ensures { result ≡ first_day (is_full (values_of self.now) kind.now rooms) arrive (depart - arrive) }
    {
        self.nights.full_night(kind, rooms, arrive, depart)
    }
}
