//! The walks of the lists over the connection: one statement each, but for a room's codes, its notes and what is free,
//! before which the room's row, its fits or the business day are looked up.
ghost use Rattle.sqlite.specs.Held.{state};
ghost use Rattle.hotel_model.specs.Sound.{IsSound};
ghost use Rattle.hotel_statements.specs.Books.{IsBooks, IsKept};
ghost use Rattle.hotel_statements.specs.Tables.{rows_in};
ghost use Rattle.hotel_statements.specs.Walks.{AreCounted, WalksList};
ghost use Rattle.hotel_statements.specs.Failures.{WalkedList, ListFails, arrivals, audit, availability, bookings};
ghost use Rattle.hotel_statements.specs.Failures.{cards_given, cards_inside, chain, in_house, left_behind, room_status};
ghost use Rattle.hotel_statements.specs.Failures.{locks};

use crate::from_row::bare_rows::UnderFits;
use crate::from_row::list_rows::{Alone, AtLock, FreeOn};
use crate::look_ups;
use crate::number::{dated, numbered};
use crate::texts::{
    READ_KIND, WALK_ARRIVALS, WALK_AUDIT, WALK_BOOKINGS, WALK_CARDS_GIVEN, WALK_CHAIN,
    WALK_IN_HOUSE, WALK_INSIDE, WALK_LEFT_BEHIND, WALK_LOCKS, WALK_ROOM_STATUS,
};
use crate::walk::walk;
use hotel_books::lists::{
    Arrivals, AuditOf, Availability, Bookings, CardsGiven, ChainOf, InHouse, Inside, LeftBehind,
    Listed, Locks, RoomStatus,
};
use hotel_books::{KindRooms, NightIndex, Sink, WalkFault};
use hotel_model::{BehindRow, ChainRow, FreeRow, HouseRow, InsideRow, LockRow, StatusRow};
use hotel_nights::Stay;
use keycard_rules::{Card, LockNote};
use sqlite::{Alter, Connection};
use std::alloc::Global;

/// What is counted beside the tables.
#[derive(Clone, Copy)]
pub struct Counts<'a> {
    /// How many rooms each kind has.
    pub kinds: &'a KindRooms,
    /// How many stays take each night.
    pub nights: &'a NightIndex,
}

/// A list that can be walked over a connection.
pub trait WalkedOverTables: Listed {
    /// Which one it is, for why its walk fails.
    ghost named: { Self → WalkedList };

    /// Hands its rows to a sink, in order, up to the first at which the sink stops.
    fn walk_connection<S: Alter, K: Sink<Self::Row>>(
        &self,
        alloc: Global,
        conn: &mut Connection<S>,
        counts: Counts<'_>,
        sink: &mut K,
    ) -> Result<(), WalkFault>
        requires books { IsBooks (state S.Store conn.old) }
        requires sound { IsKept (state S.Store conn.old) → IsSound (rows_in (state S.Store conn.old).now.trees) }
        requires counted { IsKept (state S.Store conn.old)
            → AreCounted counts.kinds.now counts.nights.now (rows_in (state S.Store conn.old).now.trees) }
        ensures { WalksList (ListFails (named self.now)) K.Sink.after K.Sink.after_stop (Self.rows_on self.now)
            (state S.Store conn.old) (state S.Store conn.new) sink.old sink.new result };
}

impl WalkedOverTables for Arrivals {
    ghost named = { λ list. arrivals list.0 };

    fn walk_connection<S: Alter, K: Sink<Stay>>(
        &self,
        alloc: Global,
        conn: &mut Connection<S>,
        _: Counts<'_>,
        sink: &mut K,
    ) -> Result<(), WalkFault> {
        walk(alloc, conn, WALK_ARRIVALS, &[dated(self.0)], &Alone, sink)
    }
}

impl WalkedOverTables for AuditOf {
    ghost named = { λ list. audit list.0 };

    fn walk_connection<S: Alter, K: Sink<LockNote>>(
        &self,
        alloc: Global,
        conn: &mut Connection<S>,
        _: Counts<'_>,
        sink: &mut K,
    ) -> Result<(), WalkFault> {
        let fits = look_ups::fits_of_room(alloc, conn, self.0)?;
        let under = UnderFits { fits };
        walk(alloc, conn, WALK_AUDIT, &[numbered(self.0)], &under, sink)
    }
}

impl WalkedOverTables for ChainOf {
    ghost named = { λ list. chain list.0 };

    fn walk_connection<S: Alter, K: Sink<ChainRow>>(
        &self,
        alloc: Global,
        conn: &mut Connection<S>,
        _: Counts<'_>,
        sink: &mut K,
    ) -> Result<(), WalkFault> {
        let Some(row) = look_ups::bare_room(alloc, conn, self.0)? else {
            return Ok(());
        };
        let lock = AtLock {
            place: row.lock_place(),
        };
        walk(alloc, conn, WALK_CHAIN, &[numbered(self.0)], &lock, sink)
    }
}

impl WalkedOverTables for InHouse {
    ghost named = { λ _. in_house };

    fn walk_connection<S: Alter, K: Sink<HouseRow>>(
        &self,
        alloc: Global,
        conn: &mut Connection<S>,
        _: Counts<'_>,
        sink: &mut K,
    ) -> Result<(), WalkFault> {
        walk(alloc, conn, WALK_IN_HOUSE, &[], &Alone, sink)
    }
}

impl WalkedOverTables for LeftBehind {
    ghost named = { λ _. left_behind };

    fn walk_connection<S: Alter, K: Sink<BehindRow>>(
        &self,
        alloc: Global,
        conn: &mut Connection<S>,
        _: Counts<'_>,
        sink: &mut K,
    ) -> Result<(), WalkFault> {
        walk(alloc, conn, WALK_LEFT_BEHIND, &[], &Alone, sink)
    }
}

impl WalkedOverTables for RoomStatus {
    ghost named = { λ _. room_status };

    fn walk_connection<S: Alter, K: Sink<StatusRow>>(
        &self,
        alloc: Global,
        conn: &mut Connection<S>,
        _: Counts<'_>,
        sink: &mut K,
    ) -> Result<(), WalkFault> {
        walk(alloc, conn, WALK_ROOM_STATUS, &[], &Alone, sink)
    }
}

impl WalkedOverTables for Inside {
    ghost named = { λ _. cards_inside };

    fn walk_connection<S: Alter, K: Sink<InsideRow>>(
        &self,
        alloc: Global,
        conn: &mut Connection<S>,
        _: Counts<'_>,
        sink: &mut K,
    ) -> Result<(), WalkFault> {
        walk(alloc, conn, WALK_INSIDE, &[], &Alone, sink)
    }
}

impl WalkedOverTables for Bookings {
    ghost named = { λ _. bookings };

    fn walk_connection<S: Alter, K: Sink<Stay>>(
        &self,
        alloc: Global,
        conn: &mut Connection<S>,
        _: Counts<'_>,
        sink: &mut K,
    ) -> Result<(), WalkFault> {
        walk(alloc, conn, WALK_BOOKINGS, &[], &Alone, sink)
    }
}

impl WalkedOverTables for CardsGiven {
    ghost named = { λ list. cards_given list.0 };

    fn walk_connection<S: Alter, K: Sink<Card>>(
        &self,
        alloc: Global,
        conn: &mut Connection<S>,
        _: Counts<'_>,
        sink: &mut K,
    ) -> Result<(), WalkFault> {
        walk(
            alloc,
            conn,
            WALK_CARDS_GIVEN,
            &[numbered(self.0)],
            &Alone,
            sink,
        )
    }
}

impl WalkedOverTables for Locks {
    ghost named = { λ _. locks };

    fn walk_connection<S: Alter, K: Sink<LockRow>>(
        &self,
        alloc: Global,
        conn: &mut Connection<S>,
        _: Counts<'_>,
        sink: &mut K,
    ) -> Result<(), WalkFault> {
        walk(alloc, conn, WALK_LOCKS, &[], &Alone, sink)
    }
}

impl WalkedOverTables for Availability {
    ghost named = { λ _. availability };

    fn walk_connection<S: Alter, K: Sink<FreeRow>>(
        &self,
        alloc: Global,
        conn: &mut Connection<S>,
        counts: Counts<'_>,
        sink: &mut K,
    ) -> Result<(), WalkFault> {
        // The kinds are those of their table, and no night is looked up: the counts say how many stays take it.
        let today = look_ups::day(alloc, conn)?;
        let free = FreeOn {
            counts,
            today,
            arrive: self.0,
            nights: self.1,
        };
        walk(alloc, conn, READ_KIND, &[], &free, sink)
    }
}
