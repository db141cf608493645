//! Walks over the rows of the lists, which are handed to a sink one after the other.
ghost use Rattle.std.specs.Prelude.{◌≡◌, false, Some, Err, OnOk, OnErr};
ghost use Rattle.hotel_model.specs.Refinement.ListsOnRows.{arrivals_on, in_house_on, chain_on, left_behind_on};
ghost use Rattle.hotel_model.specs.Refinement.ListsOnRows.{room_status_on, cards_inside_on, bookings_on};
ghost use Rattle.hotel_model.specs.Refinement.ListsOnRows.{availability_on};
ghost use Rattle.hotel_model.specs.Rows.{notes_at};
ghost use Rattle.hotel_books.specs.Books.Reads.{is_any};
ghost use Rattle.hotel_books.specs.Books.Walks.{WalksOver, failure_of, walk_text};
ghost use Rattle.hotel_books.specs.declared.books.walks.WalkFault.TheVariants.{Memory};
ghost use Rattle.hotel_books.specs.declared.books.walks.WalkFault.TheVariants.{Stopped};

use crate::books::Books;
use crate::lists::{
    Arrivals, AuditOf, Availability, Bookings, CardsGiven, ChainOf, InHouse, Inside, LeftBehind,
    Listed, Locks, RoomStatus,
};
use hotel_model::{BehindRow, ChainRow, FreeRow, HouseRow, InsideRow, StatusRow};
use hotel_nights::{Day, Nights, Stay};
use keycard_rules::{LockNote, LookFault, RoomNo};
use std::alloc::AllocError;
use std::error::Error;
use std::fmt;

/// A sink takes no further row.
#[derive(Clone, Copy, PartialEq, Eq, Debug)]
pub struct Stop;

/// Why a walk ended before its last row.
#[derive(Clone, Copy, PartialEq, Eq, Debug)]
pub enum WalkFault {
    /// Memory for a row was refused.
    Memory,
    /// A call of the store failed.
    Store,
    /// The sink stopped.
    Stopped,
}

impl fmt::Display for WalkFault {
    ghost output = { λ why. Some (walk_text why) };

    fn fmt<W: fmt::Write>(&self, f: &mut fmt::Formatter<W>) -> fmt::Result {
        f.write_str(match self {
            WalkFault::Memory => "memory",
            WalkFault::Store => "store",
            WalkFault::Stopped => "stopped",
        })
    }
}

impl Error for WalkFault {}

impl From<Stop> for WalkFault {
    ghost from_gives = { λ _ fault. fault ≡ Stopped };

    fn from(_: Stop) -> WalkFault {
        WalkFault::Stopped
    }
}

impl From<AllocError> for WalkFault {
    ghost from_gives = { λ _ fault. fault ≡ Memory };

    fn from(_: AllocError) -> WalkFault {
        WalkFault::Memory
    }
}

impl From<LookFault> for WalkFault {
    ghost from_gives = { λ cause fault. failure_of (Err fault) ≡ Some cause };

    fn from(cause: LookFault) -> WalkFault {
        match cause {
            LookFault::Memory => WalkFault::Memory,
            LookFault::Store => WalkFault::Store,
        }
    }
}

/// Takes rows one after the other, until it stops.
pub trait Sink<Row> {
    /// The meanings that may follow one after a row that was taken.
    ghost after: { Self → Row → Self → Type 0 };

    /// The meanings that may follow one after a row at which the sink stopped.
    ghost after_stop: { Self → Row → Self → Type 0 };

    /// Takes a row, or stops at it.
    fn take(&mut self, row: &Row) -> Result<(), Stop>
        ensures taken { OnOk result (after self.old row.now self.new) }
        ensures stopped { OnErr result (after_stop self.old row.now self.new) };
}

/// Books of which one list can be walked.
///
/// A walk hands the rows of the list to a sink in their order, and ends at the first row at which the sink stops. The
/// rows that it handed over are a prefix of the list's rows, and all of them on `Ok`. It leaves of the books what a
/// look-up does.
pub trait WalksOf<L: Listed>: Books {
    fn walk<S: Sink<L::Row>>(&mut self, list: &L, sink: &mut S) -> Result<(), WalkFault>
        ensures { WalksOver Self.Kept (L.takes_memory (Self.rows self.old)) S.after S.after_stop
            (L.rows_on list.now (Self.rows self.old)) self.old self.new sink.old sink.new result };
}

/// Books whose lists can be walked: all those of `lists`.
///
/// Most have a name for their walk, too.
pub trait Walks: WalksOf<Arrivals>
    + WalksOf<InHouse>
    + WalksOf<ChainOf>
    + WalksOf<LeftBehind>
    + WalksOf<AuditOf>
    + WalksOf<RoomStatus>
    + WalksOf<Inside>
    + WalksOf<Bookings>
    + WalksOf<Availability>
    + WalksOf<CardsGiven>
    + WalksOf<Locks> {
    /// The booked stays that take the night of a day, by party.
    final fn walk_arrivals<S: Sink<Stay>>(
        &mut self,
        day: Day,
        sink: &mut S,
    ) -> Result<(), WalkFault>
        ensures { WalksOver Self.Kept false S.after S.after_stop
            (arrivals_on (Self.rows self.old) day) self.old self.new sink.old sink.new result }
    {
        self.walk(&Arrivals(day), sink)
    }

    /// The rooms with a registered party, by room.
    final fn walk_in_house<S: Sink<HouseRow>>(&mut self, sink: &mut S) -> Result<(), WalkFault>
        ensures { WalksOver Self.Kept (is_any (in_house_on (Self.rows self.old))) S.after S.after_stop
            (in_house_on (Self.rows self.old)) self.old self.new sink.old sink.new result }
    {
        self.walk(&InHouse, sink)
    }

    /// The codes of a room in order of issue; none where the room isn't there.
    final fn walk_chain<S: Sink<ChainRow>>(
        &mut self,
        room: RoomNo,
        sink: &mut S,
    ) -> Result<(), WalkFault>
        ensures { WalksOver Self.Kept false S.after S.after_stop
            (chain_on (Self.rows self.old) room) self.old self.new sink.old sink.new result }
    {
        self.walk(&ChainOf(room), sink)
    }

    /// The rooms with two awaited codes or more, by room.
    final fn walk_left_behind<S: Sink<BehindRow>>(&mut self, sink: &mut S) -> Result<(), WalkFault>
        ensures { WalksOver Self.Kept false S.after S.after_stop
            (left_behind_on (Self.rows self.old)) self.old self.new sink.old sink.new result }
    {
        self.walk(&LeftBehind, sink)
    }

    /// The notes of a room, in the order in which they were taken; none where the room isn't there.
    final fn walk_audit<S: Sink<LockNote>>(
        &mut self,
        room: RoomNo,
        sink: &mut S,
    ) -> Result<(), WalkFault>
        ensures { WalksOver Self.Kept false S.after S.after_stop
            (notes_at (Self.rows self.old).notes room) self.old self.new sink.old sink.new result }
    {
        self.walk(&AuditOf(room), sink)
    }

    /// All rooms, by room.
    final fn walk_room_status<S: Sink<StatusRow>>(&mut self, sink: &mut S) -> Result<(), WalkFault>
        ensures { WalksOver Self.Kept false S.after S.after_stop
            (room_status_on (Self.rows self.old)) self.old self.new sink.old sink.new result }
    {
        self.walk(&RoomStatus, sink)
    }

    /// The cards inside rooms, by room and card.
    final fn walk_inside<S: Sink<InsideRow>>(&mut self, sink: &mut S) -> Result<(), WalkFault>
        ensures { WalksOver Self.Kept false S.after S.after_stop
            (cards_inside_on (Self.rows self.old)) self.old self.new sink.old sink.new result }
    {
        self.walk(&Inside, sink)
    }

    /// The booked stays, by party.
    final fn walk_bookings<S: Sink<Stay>>(&mut self, sink: &mut S) -> Result<(), WalkFault>
        ensures { WalksOver Self.Kept false S.after S.after_stop
            (bookings_on (Self.rows self.old)) self.old self.new sink.old sink.new result }
    {
        self.walk(&Bookings, sink)
    }

    /// The kinds, in order, each with its rooms and what is free of it from a day on, for so many nights.
    final fn walk_availability<S: Sink<FreeRow>>(
        &mut self,
        day: Day,
        nights: Nights,
        sink: &mut S,
    ) -> Result<(), WalkFault>
        ensures { WalksOver Self.Kept false S.after S.after_stop
            (availability_on (Self.rows self.old) day nights) self.old self.new sink.old sink.new result }
    {
        self.walk(&Availability(day, nights), sink)
    }
}
