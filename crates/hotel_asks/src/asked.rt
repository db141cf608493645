//! What a desk may be asked.

use hotel_core::Command;
use hotel_nights::{Day, Nights};
use keycard_rules::{CardNo, PartyNo, RoomNo};

/// What is asked of the desk.
#[derive(Drop)]
pub enum Ask {
    Command(Command),
    List(ListAsk),
}

/// A list that is asked for.
#[derive(Clone, Copy, Debug, PartialEq, Eq)]
pub enum ListAsk {
    /// The booked stays that take the night of the day.
    Arrivals(Day),
    /// The rooms with a registered party.
    InHouse,
    /// The codes of the room.
    ChainOf(RoomNo),
    /// The rooms with two awaited codes or more.
    LeftBehind,
    /// The notes of the room.
    AuditOf(RoomNo),
    /// The business day.
    BusinessDay,
    /// All rooms, each with its party, and how its lock stands.
    RoomStatus,
    /// The cards inside rooms.
    Inside,
    /// The booked stays.
    Bookings,
    /// The kinds, and how many more stays of each are accepted from the day on, for so many nights.
    Availability(Day, Nights),
    /// The cards that the party was given.
    CardsGiven(PartyNo),
    /// The card of the number.
    CardOf(CardNo),
    /// The present locks of all rooms.
    Locks,
}
