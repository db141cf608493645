//! Each command on any books: what it looks up, what it draws, and the change that it makes.

pub mod bookings;
pub mod calendar;
pub mod changes;
pub mod entries;
pub mod exits;
pub mod fresh_codes;
pub mod guest_moves;
pub mod kinds_and_rooms;
pub mod lock_codes;
pub mod look_ups;
pub mod notes;
pub mod ranges;
pub mod recodings;
pub mod refits;
pub mod room_cards;
