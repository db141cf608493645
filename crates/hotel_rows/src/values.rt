//! The numbers and texts of columns as values of the desk; one that is out of its range is a failure of the store.
ghost use Rattle.std.specs.Prelude.{◌≡◌, false, IfOk, IfErr};
ghost use Rattle.keycard_rules.specs.declared.issued.LookFault.TheVariants.{Store};
ghost use Rattle.hotel_nights.specs.Guests.{is_guest};
ghost use Rattle.hotel_nights.specs.Kinds.{is_kind};
ghost use Rattle.hotel_model.specs.SoundRooms.{is_day};
ghost use Rattle.hotel_rows.specs.Stored.{state_of};
ghost use Rattle.hotel_rows.specs.RowTests.{is_number_up_to};
ghost use Rattle.hotel_rows.specs.Counts.{tells_state};

use hotel_nights::{Day, Guest, GuestFault, KindCode, StayState};
use keycard_rules::{LookFault, Number};
use std::alloc::Global;

/// A number from 1 up to a greatest one.
pub fn counted<K, const MOST: u32>(n: u64) -> Result<Number<K, MOST>, LookFault>
    ensures ok { IfOk result (λ number. number ≡ n) }
    ensures err { IfErr result (λ why. why ≡ Store × (is_number_up_to MOST n ≡ false)) }
{
    let Ok(n) = u32::try_from(n) else {
        return Err(LookFault::Store);
    };
    match Number::new(n) {
        Some(number) => Ok(number),
        None => Err(LookFault::Store),
    }
}

/// A day by its number.
pub fn day(n: u64) -> Result<Day, LookFault>
    ensures ok { IfOk result (λ day. day ≡ n) }
    ensures err { IfErr result (λ why. why ≡ Store × (is_day n ≡ false)) }
{
    let Ok(n) = u16::try_from(n) else {
        return Err(LookFault::Store);
    };
    match Day::new(n) {
        Some(day) => Ok(day),
        None => Err(LookFault::Store),
    }
}

/// A kind by its code.
pub fn kind_code(text: &str) -> Result<KindCode, LookFault>
    ensures ok { IfOk result (λ kind. kind ≡ text.now) }
    ensures err { IfErr result (λ why. why ≡ Store × (is_kind text.now ≡ false)) }
{
    match KindCode::read(text.as_bytes()) {
        Some(kind) => Ok(kind),
        None => Err(LookFault::Store),
    }
}

/// A guest by its name.
pub fn guest(alloc: Global, text: &str) -> Result<Guest, LookFault>
    ensures ok { IfOk result (λ guest. guest ≡ text.now) }
    ensures err { IfErr result (λ why. why ≡ Store → is_guest text.now ≡ false) }
    ensures unread { is_guest text.now ≡ false → IfErr result (λ why. why ≡ Store) }
{
    match Guest::read(alloc, text) {
        Ok(guest) => Ok(guest),
        Err(GuestFault::Memory) => Err(LookFault::Memory),
        Err(GuestFault::Unread) => Err(LookFault::Store),
    }
}

/// How a stay stands, from its number and its room, which is set exactly where it is in house.
pub fn stay_state(state: u64, room: Option<u64>) -> Result<StayState, LookFault>
    ensures ok { IfOk result (λ is. is ≡ state_of state room) }
    ensures err { IfErr result (λ why. why ≡ Store × (tells_state state room ≡ false)) }
{
    match (state, room) {
        (0, None) => Ok(StayState::Booked),
        (1, Some(room)) => Ok(StayState::InHouse(counted(room)?)),
        (2, None) => Ok(StayState::Done),
        (3, None) => Ok(StayState::Cancelled),
        _ => Err(LookFault::Store),
    }
}
