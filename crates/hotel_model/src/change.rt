//! The changes that books make.
use hotel_nights::{Day, KindCode, Stay};
use keycard_rules::{Card, CardNo, Code, FitNo, LockNote, PartyNo, RoomNo};

/// What a note does to the cards inside its room.
#[derive(Clone, Copy, Debug)]
pub enum InsideMove {
    Same,
    Goes(CardNo),
    Comes(CardNo),
}

/// A change of the books, made whole or not at all.
#[derive(Drop)]
pub enum Change {
    /// The first business day.
    Begin(Day),
    /// The next business day.
    DayTo(Day),
    Kind(KindCode),
    /// A room whose lock holds its first code.
    Room {
        room: RoomNo,
        kind: KindCode,
        code: Code,
    },
    /// A booked stay.
    Reserved(Stay),
    Cancelled(PartyNo),
    /// A card of a new code: the card's party comes to the room, and leaves another one where that is named.
    Issue {
        card: Card,
        room: RoomNo,
        leaves: Option<RoomNo>,
    },
    /// One more card of a link that is there.
    Spare(Card),
    CheckedOut {
        party: PartyNo,
        room: RoomNo,
    },
    /// A new lock of a room, which holds a new code: all earlier codes are passed, and no card is inside.
    Refit {
        room: RoomNo,
        code: Code,
        fit: FitNo,
    },
    /// A note that was taken, with the lock's place and the secured flag after it.
    Noted {
        note: LockNote,
        lock_place: u32,
        secured: bool,
        insides: InsideMove,
    },
}
