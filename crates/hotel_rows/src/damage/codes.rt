//! The rules of the table of codes, and where links stand.
ghost use Rattle.std.specs.Prelude.{◌≡◌, IfOk};
ghost use Rattle.std.specs.List.{list_all};
ghost use Rattle.hotel_model.specs.SoundCards.{are_neighbours, stands_at};
ghost use Rattle.hotel_model.specs.SoundNotes.{comes_later};
ghost use Rattle.hotel_rows.specs.Stored.{rows_of, code_row};
ghost use Rattle.hotel_rows.specs.Damage.{code_holds};
ghost use Rattle.hotel_rows.specs.Places.{AreOf};
ghost use Rattle.hotel_rows.specs.CodePlaces.{PlacesOf};
ghost use Rattle.hotel_rows.specs.RowTests.{code_fits, recoding_fits};

use crate::damage::by_key::{Places, code_at, code_keys, room_at};
use crate::damage::code_places::rooms_have_places;
use crate::damage::known::Known;
use crate::damage::numbers::{number, rise};
use crate::stored::{PlainCode, Stored};
use keycard_rules::{Code, Memory};
use std::alloc::Global;

/// Whether a code is in range and its room is there.
fn code_fits(places: &Places, stored: &Stored, code: &PlainCode) -> bool
    requires { AreOf places.now stored.now }
    ensures { result ≡ code_fits (rows_of stored.now) code.now }
{
    if Code::new(number(code.code)).is_none() {
        return false;
    }
    room_at(places, stored, number(code.room)).is_some()
}

/// Whether each code is in range and its room is there.
pub(crate) fn codes_fit(places: &Places, stored: &Stored) -> bool
    requires { AreOf places.now stored.now }
    ensures { result ≡ list_all (code_fits (rows_of stored.now)) stored.now.code.items }
{
    for i in 0..stored.code.len() {
        if !code_fits(places, stored, &stored.code[i]) {
            return false;
        }
    }
    true
}

/// Whether the second code stands at the room, one place after the first.
fn are_neighbours(room: u64, first: PlainCode, second: PlainCode) -> bool
    ensures { result ≡ are_neighbours room (code_row first) (code_row second) }
{
    if number(first.room) != room || number(second.room) != room {
        return false;
    }
    let place = number(first.place);
    let next = number(second.place);
    place < next && next - place == 1
}

/// Whether the second code stands at the room, one place after the first.
pub(crate) fn stands_at(places: &Places, stored: &Stored, room: u64, old: u64, new: u64) -> bool
    requires { AreOf places.now stored.now }
    ensures { result ≡ stands_at (rows_of stored.now) room (record { old_code = old; new_code = new }) }
{
    let Some(first) = code_at(places, stored, old) else {
        return false;
    };
    let Some(second) = code_at(places, stored, new) else {
        return false;
    };
    are_neighbours(room, first, second)
}

/// Whether the second code stands at the room, after the first.
fn comes_later(room: u64, first: PlainCode, second: PlainCode) -> bool
    ensures { result ≡ comes_later room (code_row first) (code_row second) }
{
    if number(first.room) != room || number(second.room) != room {
        return false;
    }
    number(first.place) < number(second.place)
}

/// Whether the second code stands at the room, some place after the first.
pub(crate) fn stands_later(places: &Places, stored: &Stored, room: u64, from: u64, to: u64) -> bool
    requires { AreOf places.now stored.now }
    ensures { result ≡ recoding_fits (rows_of stored.now) room from to }
{
    let Some(first) = code_at(places, stored, from) else {
        return false;
    };
    let Some(second) = code_at(places, stored, to) else {
        return false;
    };
    comes_later(room, first, second)
}

/// Whether the rules of the table of codes hold.
pub(crate) fn codes_hold(alloc: Global, known: &Known, stored: &Stored) -> Result<bool, Memory>
    requires places { AreOf known.now.places stored.now }
    requires placed { PlacesOf known.now.placed.entries stored.now.code.items }
    ensures { IfOk result (λ hold. hold ≡ code_holds stored.now) }
{
    let keys = code_keys(alloc, &stored.code)?;
    if !rise(&keys) {
        return Ok(false);
    }
    if !codes_fit(&known.places, stored) {
        return Ok(false);
    }
    Ok(rooms_have_places(&known.placed, stored))
}
