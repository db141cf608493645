//! The rows of the lists.
ghost use Rattle.std.specs.Prelude.{◌≡◌};
ghost use Rattle.hotel_model.specs.Refinement.ListsOnRows.{state_at, status_row_on};

use crate::rows::RoomRow;
use hotel_nights::{Day, Guest, KindCode, Moment};
use keycard_rules::{Card, CardNo, Code, FitNo, PartyNo, RoomNo};

/// A room in which a party is registered, with the party's stay.
#[derive(Debug, Drop)]
pub struct HouseRow {
    pub room: RoomNo,
    pub party: PartyNo,
    pub guest: Guest,
    pub kind: KindCode,
    /// The day of departure.
    pub depart: Day,
    /// Whether, since the last issue at the room, a card with the current code entered while no card was inside.
    pub secured: bool,
}

/// How a code stands to its room's lock.
#[derive(Clone, Copy, PartialEq, Eq, Debug)]
pub enum CodeState {
    /// The lock has passed it.
    Passed,
    Held,
    /// The lock has not taken it yet.
    Awaited,
}

impl CodeState {
    /// How the code at a place stands, where the lock stands at another.
    pub fn at(lock_place: u32, place: u32) -> CodeState
        ensures { result ≡ state_at lock_place place }
    {
        if place < lock_place {
            CodeState::Passed
        } else if place == lock_place {
            CodeState::Held
        } else {
            CodeState::Awaited
        }
    }
}

/// A code of a room.
#[derive(Clone, Copy, PartialEq, Eq, Debug)]
pub struct ChainRow {
    /// Its place among the room's codes, counted from 0 in order of issue.
    pub place: u32,
    pub code: Code,
    pub state: CodeState,
}

/// A room whose lock has not taken two codes or more, so that its newest card does not open it.
#[derive(Clone, Copy, PartialEq, Eq, Debug)]
pub struct BehindRow {
    pub room: RoomNo,
    /// The code that the lock holds.
    pub held: Code,
    /// The code that was issued last.
    pub current: Code,
    /// How many codes the lock has not taken yet.
    pub awaited: u32,
}

/// A room as it stands now.
#[derive(Clone, Copy, PartialEq, Eq, Debug)]
pub struct StatusRow {
    pub room: RoomNo,
    pub kind: KindCode,
    /// The party that is registered at the room.
    pub party: Option<PartyNo>,
    /// Whether, since the last issue at the room, a card with the current code entered while no card was inside.
    pub secured: bool,
    /// How many codes the lock has not taken yet.
    pub awaited: u32,
}

impl StatusRow {
    /// How a room stands, by its row in the books.
    pub fn of_room(row: &RoomRow) -> StatusRow
        ensures { result ≡ status_row_on row.now }
    {
        StatusRow {
            room: row.room,
            kind: row.kind,
            party: row.party,
            secured: row.secured,
            awaited: row.codes.saturating_sub(row.lock_place).saturating_sub(1),
        }
    }
}

/// A card that is inside a room.
#[derive(Clone, Copy, PartialEq, Eq, Debug)]
pub struct InsideRow {
    pub room: RoomNo,
    pub card: CardNo,
    /// The party that the card was given to.
    pub party: PartyNo,
}

/// A kind, and what is left of it for some nights.
#[derive(Clone, Copy, PartialEq, Eq, Debug)]
pub struct FreeRow {
    pub kind: KindCode,
    /// How many rooms the kind has.
    pub rooms: u32,
    /// How many bookings, one after the other, wouldn't be refused for these nights.
    pub free: u32,
}

/// A card, with the guest of the party that it was given to.
#[derive(Debug, Drop)]
pub struct CardRow {
    pub card: Card,
    pub guest: Guest,
}

/// The present lock of a room.
#[derive(Clone, Copy, PartialEq, Eq, Debug)]
pub struct LockRow {
    pub room: RoomNo,
    /// Its number among the room's locks, counted from 1.
    pub fit: FitNo,
    /// How many of its notes were taken. The last of them has this count.
    pub count: u32,
    /// When the lock noted the last of them.
    pub at: Option<Moment>,
}
