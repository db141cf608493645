//! The rules of the table of rooms.
ghost use Rattle.std.specs.Prelude.{◌≡◌, IfOk};
ghost use Rattle.std.specs.List.{list_all};
ghost use Rattle.hotel_model.specs.Stays.{room_of_state};
ghost use Rattle.hotel_rows.specs.Stored.{plain_fits, rows_of, room_row, stay_row};
ghost use Rattle.hotel_rows.specs.Damage.{most_notes, are_room_columns, room_holds};
ghost use Rattle.hotel_rows.specs.Known.{KindsOf};
ghost use Rattle.hotel_rows.specs.Places.{AreOf};
ghost use Rattle.hotel_rows.specs.FitRuns.{FitRunsOf, BeginsOf, FitsOf};
ghost use Rattle.hotel_rows.specs.RowTests.{is_room_number, is_secured_as_due, has_few_codes, is_at_home};
ghost use Rattle.hotel_rows.specs.RowTests.{room_fits};

use crate::damage::by_key::{Places, room_keys, stay_at};
use crate::damage::fit_runs::{RoomFits, ends_with_fit, fits_of_room};
use crate::damage::kinds::{Kinds, has_kind};
use crate::damage::numbers::{NO_NUMBER, number, number_if, rise};
use crate::stored::{PlainRoom, PlainStay, Stored};
use keycard_rules::{LAST_FIT, LAST_NUMBER, LAST_ROOM, Memory};
use std::alloc::Global;

/// The most notes of a room: those that all its fits can count, or one in the first version.
fn most_notes(stored: &Stored) -> u64
    ensures { result ≡ most_notes stored.now }
{
    if stored.fit.is_none() {
        return u64::from(LAST_NUMBER);
    }
    u64::from(LAST_FIT) * u64::from(LAST_NUMBER)
}

fn has_columns(room: &PlainRoom) -> bool
    ensures { result ≡ are_room_columns room.now }
{
    number(room.secured) <= 1
}

fn has_number(room: &PlainRoom) -> bool
    ensures { result ≡ is_room_number room.now }
{
    let named = number(room.room);
    named >= 1 && named <= u64::from(LAST_ROOM)
}

/// Whether the room has at most as many codes as there are cards, and those that its fits begin with.
fn has_few_codes(stored: &Stored, fits: &RoomFits, room: &PlainRoom) -> bool
    requires { FitRunsOf fits.now.runs.entries (plain_fits stored.now) }
    ensures { result ≡ has_few_codes stored.now room.now }
{
    let codes = number(room.codes);
    let cards = stored.card.len() as u64;
    codes <= cards || codes - cards <= fits_of_room(fits, number(room.room))
}

/// Whether the lock holds the last code, not the first one nor that of a fit, if the room is secured.
fn is_secured_as_due(stored: &Stored, fits: &RoomFits, room: &PlainRoom) -> bool
    requires { BeginsOf fits.now.begins.entries (plain_fits stored.now) }
    ensures { result ≡ is_secured_as_due stored.now room.now }
{
    if number(room.secured) != 1 {
        return true;
    }
    let codes = number(room.codes);
    if codes < 2 || number(room.lock_place) != codes - 1 {
        return false;
    }
    !ends_with_fit(fits, number(room.room), codes)
}

/// The room of a stay that is in house.
pub(crate) fn home_of(stay: &PlainStay) -> Option<u64>
    ensures { result ≡ room_of_state (stay_row stay.now).state }
{
    let state = number(stay.state);
    if state == 0 {
        return None;
    }
    if state != 1 {
        return None;
    }
    Some(number_if(stay.room).unwrap_or(NO_NUMBER))
}

/// Whether the party of the room, if it has one, is in house there, with a stay of its kind.
fn has_guest(places: &Places, stored: &Stored, room: &PlainRoom) -> bool
    requires { AreOf places.now stored.now }
    ensures { result ≡ is_at_home (rows_of stored.now) (room_row room.now) }
{
    let Some(party) = number_if(room.party) else {
        return true;
    };
    let Some(stay) = stay_at(places, stored, party) else {
        return false;
    };
    let Some(home) = home_of(stay) else {
        return false;
    };
    home == number(room.room) && room.kind.as_str() == stay.kind.as_str()
}

fn room_fits(
    kinds: &Kinds,
    places: &Places,
    fits: &RoomFits,
    stored: &Stored,
    room: &PlainRoom,
) -> bool
    requires kinds { KindsOf kinds.now.entries stored.now }
    requires places { AreOf places.now stored.now }
    requires fits { FitsOf fits.now (plain_fits stored.now) }
    ensures { result ≡ room_fits stored.now room.now }
{
    if !has_columns(room) || !has_number(room) {
        return false;
    }
    if number(room.lock_place) >= number(room.codes) {
        return false;
    }
    if !has_kind(kinds, room.kind.as_str()) {
        return false;
    }
    if !has_few_codes(stored, fits, room) {
        return false;
    }
    if number(room.notes) > most_notes(stored) {
        return false;
    }
    has_guest(places, stored, room) && is_secured_as_due(stored, fits, room)
}

fn rooms_fit(kinds: &Kinds, places: &Places, fits: &RoomFits, stored: &Stored) -> bool
    requires kinds { KindsOf kinds.now.entries stored.now }
    requires places { AreOf places.now stored.now }
    requires fits { FitsOf fits.now (plain_fits stored.now) }
    ensures { result ≡ list_all (room_fits stored.now) stored.now.room.items }
{
    for i in 0..stored.room.len() {
        if !room_fits(kinds, places, fits, stored, &stored.room[i]) {
            return false;
        }
    }
    true
}

/// Whether the rules of the table of rooms hold, where those of the kinds do.
pub(crate) fn rooms_hold(
    alloc: Global,
    kinds: &Kinds,
    places: &Places,
    fits: &RoomFits,
    stored: &Stored,
) -> Result<bool, Memory>
    requires kinds { KindsOf kinds.now.entries stored.now }
    requires places { AreOf places.now stored.now }
    requires fits { FitsOf fits.now (plain_fits stored.now) }
    ensures { IfOk result (λ hold. hold ≡ room_holds stored.now) }
{
    let keys = room_keys(alloc, &stored.room)?;
    if !rise(&keys) {
        return Ok(false);
    }
    Ok(rooms_fit(kinds, places, fits, stored))
}
