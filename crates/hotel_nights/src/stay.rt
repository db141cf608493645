//! Stays of parties.
ghost use Rattle.std.specs.Prelude.{◌≡◌};
ghost use Rattle.hotel_nights.specs.FullNight.{is_standing};

use crate::day::Day;
use crate::guest::Guest;
use crate::kind::KindCode;
use keycard_rules::{PartyNo, RoomNo};

/// How a stay stands.
#[derive(Clone, Copy, PartialEq, Eq, Debug)]
pub enum StayState {
    /// Reserved, and neither begun nor cancelled.
    Booked,
    /// The party is registered in that room.
    InHouse(RoomNo),
    /// The party has checked out.
    Done,
    /// Cancelled before it began.
    Cancelled,
}

impl StayState {
    /// Whether a stay in this state holds its nights.
    pub const fn is_standing(&self) -> bool
        ensures { result ≡ is_standing self.now }
    {
        match self {
            StayState::Booked | StayState::InHouse(_) => true,
            StayState::Done | StayState::Cancelled => false,
        }
    }
}

/// The stay of a party in a room of a kind: it takes the nights from `arrive` up to, and not including, `depart`.
///
/// A copy takes memory for the guest, so `clone` answers a `Result`; a copy that was made is the same stay.
#[derive(Clone, PartialEq, Eq, Debug, Drop)]
pub struct Stay {
    /// The party, which is one reservation.
    pub party: PartyNo,
    /// The name that the party gave.
    pub guest: Guest,
    /// The kind of its room.
    pub kind: KindCode,
    /// The day of arrival, whose night is the first.
    pub arrive: Day,
    /// The day of departure, whose night it doesn't take.
    pub depart: Day,
    /// How it stands.
    pub state: StayState,
}
