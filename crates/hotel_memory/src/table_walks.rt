//! Walks over the tables in memory, each list's own.
ghost use Rattle.std.specs.Prelude.{◌≡◌, false, IfOk, IsOk, Err, None, filter_map, is_some, option_map};
ghost use Rattle.std.specs.List.{range_with_len};
ghost use Rattle.hotel_model.specs.Refinement.ListsOnRows.{house_row_on, chain_row_on, behind_row_on, inside_row_on};
ghost use Rattle.hotel_model.specs.Refinement.ListsOnRows.{counted_note, lock_at};
ghost use Rattle.hotel_model.specs.{Lists.arrives_on, Lists.is_booking};
ghost use Rattle.hotel_nights.specs.Moments.{moment_of};
ghost use Rattle.hotel_books.specs.Books.Walks.{Hands, failure_of};
ghost use Rattle.hotel_books.specs.declared.books.walks.WalkFault.TheVariants.{Store};

use crate::tables::Tables;
use hotel_books::lists::{
    Arrivals, AuditOf, Availability, Bookings, CardsGiven, ChainOf, InHouse, Inside, LeftBehind,
    Listed, Locks, RoomStatus,
};
use hotel_books::{Sink, WalkFault, free_row};
use hotel_model::{
    BehindRow, ChainRow, CodeState, FreeRow, HouseRow, InsideRow, LockRow, RoomRow, StatusRow,
};
use hotel_nights::{Day, Moment, Stay, StayState};
use keycard_rules::{Card, CardNo, Count, LockNote, RoomNo};
use std::alloc::AllocError;

/// A list that books in memory can walk.
pub trait WalkedInMemory: Listed {
    /// Hands its rows to a sink, in order, up to the first at which the sink stops.
    fn walk_tables<S: Sink<Self::Row>>(
        &self,
        tables: &Tables,
        sink: &mut S,
    ) -> Result<(), WalkFault>
        ensures hands { Hands S.after S.after_stop (Self.rows_on self.now tables.now) sink.old sink.new result }
        ensures sure { Self.takes_memory tables.now ≡ false → failure_of result ≡ None }
        ensures no_store { result ≡ Err Store → ⊥ };
}

/// Whether a stay is booked: not in house, done or cancelled.
fn is_booking(stay: &Stay) -> bool
    ensures { result ≡ is_booking stay.now }
{
    matches!(stay.state, StayState::Booked)
}

/// Whether a stay is booked and takes the night of a day.
fn arrives(stay: &Stay, day: Day) -> bool
    ensures { result ≡ arrives_on day stay.now }
{
    is_booking(stay) && stay.arrive <= day && day < stay.depart
}

impl Tables {
    /// The row of the room's party, where one is registered; the guest's name is copied.
    fn house_row(&self, row: &RoomRow) -> Result<Option<HouseRow>, AllocError>
        ensures same { IfOk result (λ house. house ≡ house_row_on self.now row.now) }
        ensures sure { is_some (house_row_on self.now row.now) ≡ false → IsOk result }
    {
        let Some(party) = row.party else {
            return Ok(None);
        };
        let Some(stay) = self.stays.map().get(&party) else {
            return Ok(None);
        };
        Ok(Some(HouseRow {
            room: row.room,
            party: stay.party,
            guest: stay.guest.clone()?,
            kind: stay.kind,
            depart: stay.depart,
            secured: row.secured,
        }))
    }

    fn chain_row(&self, row: &RoomRow, place: u32) -> Option<ChainRow>
        ensures { result ≡ chain_row_on self.now row.now place }
    {
        let code = self.codes.code_at(row.room, place)?;
        let state = CodeState::at(row.lock_place, place);
        Some(ChainRow { place, code, state })
    }

    /// The room's row, where its lock awaits two codes or more.
    fn behind_row(&self, row: &RoomRow) -> Option<BehindRow>
        ensures { result ≡ behind_row_on self.now row.now }
    {
        let awaited = row.codes.saturating_sub(row.lock_place).saturating_sub(1);
        if awaited < 2 {
            return None;
        }
        let held = self.codes.code_at(row.room, row.lock_place)?;
        let current = self.codes.code_at(row.room, row.codes - 1)?;
        Some(BehindRow {
            room: row.room,
            held,
            current,
            awaited,
        })
    }

    /// Walks the codes of a room that is there.
    fn walk_places<S: Sink<ChainRow>>(&self, row: &RoomRow, sink: &mut S) -> Result<(), WalkFault>
        ensures hands { Hands S.after S.after_stop (filter_map (chain_row_on self.now row.now)
            (range_with_len 0 row.now.codes)) sink.old sink.new result }
        ensures sure { failure_of result ≡ None }
    {
        for place in 0..row.codes {
            if let Some(link) = self.chain_row(row, place) {
                sink.take(&link)?;
            }
        }
        Ok(())
    }

    /// The row of a card inside a room, with the party that it was given to.
    fn inside_row(&self, room: RoomNo, number: CardNo) -> Option<InsideRow>
        ensures { result ≡ inside_row_on self.now (room, number) }
    {
        let card = self.card(number)?;
        let party = card.party;
        Some(InsideRow {
            room,
            card: number,
            party,
        })
    }

    /// When the present lock of a room noted the last of so many notes.
    fn last_moment(&self, row: &RoomRow, count: u32) -> Option<Moment>
        ensures { result ≡ option_map moment_of (counted_note self.now row.now count) }
    {
        let note = self.note(row.room, row.fit, Count::new(count)?)?;
        Some(Moment::of(&note))
    }

    /// The present lock of a room, where the room is there.
    fn lock(&self, room: RoomNo) -> Option<LockRow>
        ensures { result ≡ lock_at self.now room }
    {
        let row = self.room(room)?;
        let count = row.notes.saturating_sub(row.before);
        Some(LockRow {
            room: row.room,
            fit: row.fit,
            count,
            at: self.last_moment(&row, count),
        })
    }
}

impl WalkedInMemory for Arrivals {
    fn walk_tables<S: Sink<Stay>>(&self, tables: &Tables, sink: &mut S) -> Result<(), WalkFault> {
        for stay in tables.stays.map().values() {
            if arrives(stay, self.0) {
                sink.take(stay)?;
            }
        }
        Ok(())
    }
}

impl WalkedInMemory for InHouse {
    fn walk_tables<S: Sink<HouseRow>>(
        &self,
        tables: &Tables,
        sink: &mut S,
    ) -> Result<(), WalkFault> {
        for row in tables.rooms.values() {
            if let Some(house) = tables.house_row(row)? {
                sink.take(&house)?;
            }
        }
        Ok(())
    }
}

impl WalkedInMemory for ChainOf {
    fn walk_tables<S: Sink<ChainRow>>(
        &self,
        tables: &Tables,
        sink: &mut S,
    ) -> Result<(), WalkFault> {
        match tables.room(self.0) {
            Some(row) => tables.walk_places(&row, sink),
            None => Ok(()),
        }
    }
}

impl WalkedInMemory for LeftBehind {
    fn walk_tables<S: Sink<BehindRow>>(
        &self,
        tables: &Tables,
        sink: &mut S,
    ) -> Result<(), WalkFault> {
        for row in tables.rooms.values() {
            if let Some(behind) = tables.behind_row(row) {
                sink.take(&behind)?;
            }
        }
        Ok(())
    }
}

impl WalkedInMemory for AuditOf {
    fn walk_tables<S: Sink<LockNote>>(
        &self,
        tables: &Tables,
        sink: &mut S,
    ) -> Result<(), WalkFault> {
        tables.notes.walk(self.0, sink)
    }
}

impl WalkedInMemory for RoomStatus {
    fn walk_tables<S: Sink<StatusRow>>(
        &self,
        tables: &Tables,
        sink: &mut S,
    ) -> Result<(), WalkFault> {
        for row in tables.rooms.values() {
            sink.take(&StatusRow::of_room(row))?;
        }
        Ok(())
    }
}

impl WalkedInMemory for Inside {
    fn walk_tables<S: Sink<InsideRow>>(
        &self,
        tables: &Tables,
        sink: &mut S,
    ) -> Result<(), WalkFault> {
        for pair in tables.inside.set() {
            if let Some(row) = tables.inside_row(pair.0, pair.1) {
                sink.take(&row)?;
            }
        }
        Ok(())
    }
}

impl WalkedInMemory for Bookings {
    fn walk_tables<S: Sink<Stay>>(&self, tables: &Tables, sink: &mut S) -> Result<(), WalkFault> {
        for stay in tables.stays.map().values() {
            if is_booking(stay) {
                sink.take(stay)?;
            }
        }
        Ok(())
    }
}

impl WalkedInMemory for Availability {
    fn walk_tables<S: Sink<FreeRow>>(
        &self,
        tables: &Tables,
        sink: &mut S,
    ) -> Result<(), WalkFault> {
        let index = tables.stays.nights();
        for kind in tables.kinds.map().keys() {
            let row = free_row(&tables.kinds, index, tables.day, kind, self.0, self.1);
            sink.take(&row)?;
        }
        Ok(())
    }
}

impl WalkedInMemory for CardsGiven {
    fn walk_tables<S: Sink<Card>>(&self, tables: &Tables, sink: &mut S) -> Result<(), WalkFault> {
        tables.cards.walk_given(self.0, sink)
    }
}

impl WalkedInMemory for Locks {
    fn walk_tables<S: Sink<LockRow>>(
        &self,
        tables: &Tables,
        sink: &mut S,
    ) -> Result<(), WalkFault> {
        for row in tables.rooms.values() {
            if let Some(lock) = tables.lock(row.room) {
                sink.take(&lock)?;
            }
        }
        Ok(())
    }
}
