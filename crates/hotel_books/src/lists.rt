//! The lists whose rows a walk hands over, each a type: which rows it has.
ghost use Rattle.std.specs.Prelude.{List, Bool, false};
ghost use Rattle.hotel_model.specs.{Rows.Rows, Rows.notes_at};
ghost use Rattle.hotel_model.specs.Refinement.ListsOnRows.{arrivals_on, in_house_on, chain_on, left_behind_on};
ghost use Rattle.hotel_model.specs.Refinement.ListsOnRows.{room_status_on, cards_inside_on, bookings_on};
ghost use Rattle.hotel_model.specs.Refinement.ListsOnRows.{availability_on, cards_given_on, locks_on};
ghost use Rattle.hotel_books.specs.Books.Reads.{is_any};

use hotel_model::{BehindRow, ChainRow, FreeRow, HouseRow, InsideRow, LockRow, StatusRow};
use hotel_nights::{Day, Nights, Stay};
use keycard_rules::{Card, LockNote, PartyNo, RoomNo};

/// A list that books have.
pub trait Listed {
    type Row;

    /// Its rows, where these are the rows of the books.
    ghost rows_on: { Self → Rows → List Self.Row };

    /// Whether a walk over it takes memory, where these are the rows of the books.
    ghost takes_memory: { Rows → Bool } = { λ _. false };
}

/// The booked stays that take the night of a day, by party.
#[derive(Clone, Copy)]
pub struct Arrivals(pub Day);

impl Listed for Arrivals {
    type Row = Stay;

    ghost rows_on = { λ list rows. arrivals_on rows list.0 };
}

/// The rooms with a registered party, by room.
#[derive(Clone, Copy)]
pub struct InHouse;

impl Listed for InHouse {
    type Row = HouseRow;

    ghost rows_on = { λ _ rows. in_house_on rows };

    ghost takes_memory = { λ rows. is_any (in_house_on rows) };
}

/// The codes of a room in order of issue; none where the room isn't there.
#[derive(Clone, Copy)]
pub struct ChainOf(pub RoomNo);

impl Listed for ChainOf {
    type Row = ChainRow;

    ghost rows_on = { λ list rows. chain_on rows list.0 };
}

/// The rooms with two awaited codes or more, by room.
#[derive(Clone, Copy)]
pub struct LeftBehind;

impl Listed for LeftBehind {
    type Row = BehindRow;

    ghost rows_on = { λ _ rows. left_behind_on rows };
}

/// The notes of a room, in the order in which they were taken; none where the room isn't there.
#[derive(Clone, Copy)]
pub struct AuditOf(pub RoomNo);

impl Listed for AuditOf {
    type Row = LockNote;

    ghost rows_on = { λ list rows. notes_at rows.notes list.0 };
}

/// All rooms, by room.
#[derive(Clone, Copy)]
pub struct RoomStatus;

impl Listed for RoomStatus {
    type Row = StatusRow;

    ghost rows_on = { λ _ rows. room_status_on rows };
}

/// The cards inside rooms, by room and card.
#[derive(Clone, Copy)]
pub struct Inside;

impl Listed for Inside {
    type Row = InsideRow;

    ghost rows_on = { λ _ rows. cards_inside_on rows };
}

/// The booked stays, by party.
#[derive(Clone, Copy)]
pub struct Bookings;

impl Listed for Bookings {
    type Row = Stay;

    ghost rows_on = { λ _ rows. bookings_on rows };
}

/// The kinds, in order, each with its rooms and what is free of it from a day on, for so many nights.
#[derive(Clone, Copy)]
pub struct Availability(pub Day, pub Nights);

impl Listed for Availability {
    type Row = FreeRow;

    ghost rows_on = { λ list rows. availability_on rows list.0 list.1 };
}

/// The cards that a party was given, by number; none where the party isn't there.
#[derive(Clone, Copy)]
pub struct CardsGiven(pub PartyNo);

impl Listed for CardsGiven {
    type Row = Card;

    ghost rows_on = { λ list rows. cards_given_on rows list.0 };
}

/// The present locks of all rooms, by room.
#[derive(Clone, Copy)]
pub struct Locks;

impl Listed for Locks {
    type Row = LockRow;

    ghost rows_on = { λ _ rows. locks_on rows };
}
