//! What the desk answers.
use hotel_nights::Day;
use keycard_rules::{Card, Code, FitNo, PartyNo};

/// The answer to one command.
#[derive(Clone, Copy, Debug, PartialEq, Eq)]
pub enum Reply {
    Begun,
    KindAdded,
    RoomAdded { code: Code },
    Reserved { party: PartyNo },
    Cancelled,
    Issued(Card),
    CheckedOut,
    /// The room has a new lock: its number, and the code that it holds.
    Refitted { code: Code, fit: FitNo },
    DayIs(Day),
    Taken,
    /// The note was taken before; nothing changed.
    Seen,
    /// Nothing changed.
    Refused(Refusal),
}

/// Why a command was refused.
#[derive(Clone, Copy, Debug, PartialEq, Eq)]
pub enum Refusal {
    /// No business day is set.
    NotBegun,
    /// A business day is set.
    AlreadyBegun,
    /// The kind is there.
    KindExists,
    /// The kind isn't there.
    NoKind,
    /// The room is there.
    RoomExists,
    /// The room isn't there.
    NoRoom,
    /// No stay has the party's number.
    NoParty,
    /// The stay isn't booked.
    NotBooked,
    /// The stay isn't in house.
    NotInHouse,
    /// The business day is before the stay's arrival.
    TooEarly,
    /// The business day is the stay's departure or later.
    StayOver,
    /// The room isn't of the stay's kind.
    WrongKind,
    /// The party is in that room.
    SameRoom,
    /// A party is registered at the room.
    RoomTaken,
    /// The arrival is before the business day.
    PastArrival,
    /// The departure is after 2099-12-31.
    PastEnd,
    /// On this night, the first such, each room of the kind is taken.
    KindFull(Day),
    /// 9,999,999 parties or cards were given.
    NumbersUsedUp,
    /// The next 64 words of the source give issued codes.
    NoFreshCode,
    /// The business day is 2099-12-31.
    LastDay,
    /// A note of that count was taken with other content.
    Conflict,
    /// The note's count is after the next one, which is this.
    Gap(u32),
    /// No card has the number.
    NoCard,
    /// The card has another link.
    CardDiffers,
    /// The link doesn't open the lock.
    LockShut,
    /// The card isn't inside the room.
    NotInside,
    /// The lock doesn't hold the code that was recoded from.
    HeldDiffers,
    /// The lock doesn't await the code that was recoded to.
    NotAwaited,
    /// A growth of memory was refused.
    Memory,
    /// A call of the store failed.
    Store,
    /// The note is of an earlier lock of the room, and its count isn't among that lock's notes.
    OldFit,
    /// The note is of a later lock than the room's.
    NoFit,
    /// The room is at its 99th lock.
    FitsUsedUp,
}
