//! The rows of the tables as plain data.

/// The tables.
#[derive(Clone, Copy, PartialEq, Eq, Debug)]
pub enum TableName {
    Meta,
    Kind,
    Room,
    Stay,
    Code,
    Card,
    Inside,
    Note,
    Fit,
}

/// A row of the table of kinds.
#[derive(Debug, Drop)]
pub struct PlainKind {
    pub kind: String,
}

/// A row of the table of rooms.
#[derive(Debug, Drop)]
pub struct PlainRoom {
    pub room: i64,
    pub kind: String,
    pub lock_place: i64,
    pub codes: i64,
    pub secured: i64,
    pub party: Option<i64>,
    pub notes: i64,
}

/// A row of the table of stays.
#[derive(Debug, Drop)]
pub struct PlainStay {
    pub party: i64,
    pub guest: String,
    pub kind: String,
    pub arrive: i64,
    pub depart: i64,
    /// 0 booked, 1 in house, 2 done, 3 cancelled.
    pub state: i64,
    pub room: Option<i64>,
}

/// A row of the table of codes.
#[derive(Clone, Copy, Debug)]
pub struct PlainCode {
    pub code: i64,
    pub room: i64,
    pub place: i64,
}

/// A row of the table of cards.
#[derive(Clone, Copy, Debug)]
pub struct PlainCard {
    pub number: i64,
    pub party: i64,
    pub old_code: i64,
    pub new_code: i64,
}

/// A row of the table of cards that are inside.
#[derive(Clone, Copy, Debug)]
pub struct PlainInside {
    pub room: i64,
    pub card: i64,
}

/// A row of the table of lock notes.
#[derive(Clone, Copy, Debug)]
pub struct PlainNote {
    pub room: i64,
    /// The number of the note among those of all locks of the room, counted from 1.
    pub n: i64,
    /// 0 entered, 1 left, 2 recoded.
    pub act: i64,
    pub card: Option<i64>,
    pub first_code: i64,
    pub second_code: i64,
    pub day: i64,
    pub second: i64,
}

/// A row of the table of fits: a lock of a room.
#[derive(Clone, Copy, Debug)]
pub struct PlainFit {
    pub room: i64,
    /// Its number among the locks of the room, counted from 1.
    pub fit: i64,
    /// The place of its first code.
    pub place: i64,
    /// How many notes of the room were taken before it.
    pub before: i64,
}

/// The rows of the tables, each table in the order of its key.
#[derive(Debug, Drop)]
pub struct Stored {
    /// The business day, from meta's row.
    pub day: Option<i64>,
    pub kind: Vec<PlainKind>,
    pub room: Vec<PlainRoom>,
    pub stay: Vec<PlainStay>,
    pub code: Vec<PlainCode>,
    pub card: Vec<PlainCard>,
    pub inside: Vec<PlainInside>,
    pub note: Vec<PlainNote>,
    /// None in tables of the first version, where each room has the one fit that it began with.
    pub fit: Option<Vec<PlainFit>>,
}
