//! Days, moments, kinds of rooms, guests, stays, and the first night on which a kind of rooms is full. Of locks the
//! crate knows the notes alone: a moment is that of a note, and makes one.
//!
//! Contracts see a day and a number of nights as numbers, a moment as a pair of numbers, and a kind and a guest as
//! bytes. Each reader of bytes answers the value that one function of `specs/` gives for them, so it takes exactly that
//! function's texts. Only `Guest::read` and the copies of guests and stays take memory.
//!
//! - Days, Moments, Kinds, Guests of specs: their texts and values. FullNight: full nights; Block: stays counted by
//!   blocks of nights.
#![tactic(auto)]

mod block;
mod day;
mod full_night;
mod guest;
mod kind;
mod laws;
mod moment;
mod nights;
mod stay;

pub use day::Day;
pub use full_night::first_full_night;
pub use guest::{GUEST_BYTES, Guest, GuestFault, is_guest};
pub use kind::{KIND_BYTES, KindCode};
pub use moment::Moment;
pub use nights::{MOST_NIGHTS, Nights};
pub use stay::{Stay, StayState};
