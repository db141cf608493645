//! The codes of each room by their places.
ghost use Rattle.std.specs.Prelude.{◌≡◌, ℕ, ◌==◌, ◌+◌, ◌<◌, ◌^◌, IfOk, OnOk, None, true, option_map};
ghost use Rattle.std.specs.List.{list_all};
ghost use Rattle.std.specs.Prelude.{if◌then◌else◌};
ghost use Rattle.std.specs.Ordering.{nat_cmp};
ghost use Rattle.std.specs.BTreeMap.{insert_entry};
ghost use Rattle.std.specs.Map.{keys_of, values_of};
ghost use Rattle.hotel_nights.specs.Block.{one_if};
ghost use Rattle.hotel_model.specs.Words.{when, is_that};
ghost use Rattle.hotel_model.specs.Rows.{at_number, last_link_of};
ghost use Rattle.hotel_model.specs.SoundCards.{is_newest};
ghost use Rattle.hotel_model.specs.SoundRooms.{count_up};
ghost use Rattle.hotel_rows.specs.Stored.{number_of, plain_fits, rows_of};
ghost use Rattle.hotel_rows.specs.LastCards.{link_of_pair, link_of_both};
ghost use Rattle.hotel_rows.specs.FitRuns.{BeginsOf};
ghost use Rattle.hotel_rows.specs.CodePlaces.{places_in, listed_in, PlacesOf, placed_as_due, are_due_at, is_last_link};

use crate::damage::fit_runs::{RoomFits, ends_with_fit};
use crate::damage::link_owners::LinkKey;
use crate::damage::numbers::number;
use crate::stored::{PlainCode, PlainRoom, Stored};
use keycard_rules::Memory;
use std::alloc::Global;
use std::collections::BTreeMap;

/// The codes of a room by place, and how many there are.
#[derive(Drop)]
pub(crate) struct Placed {
    by_place: BTreeMap<u64, u64>,
    listed: u64,
}

/// Takes out what is known of a room: nothing, where it isn't there.
fn take_out(alloc: Global, placed: &mut BTreeMap<u64, Placed>, room: u64) -> Placed
    ensures places { result.by_place.entries ≡ places_in placed.old.entries room }
    ensures listed { result.listed ≡ listed_in placed.old.entries room }
    ensures others { (r : ℕ) → at_number placed.new.entries r
        ≡ (if r == room then None else at_number placed.old.entries r) }
{
    match placed.remove(&room) {
        Some(found) => found,
        None => Placed {
            by_place: BTreeMap::new(alloc),
            listed: 0,
        },
    }
}

/// Puts a code at its place.
fn place_code(
    alloc: Global,
    placed: &mut BTreeMap<u64, Placed>,
    room: u64,
    place: u64,
    code: u64,
) -> Result<(), Memory>
    requires { listed_in placed.old.entries room < 2 ^ 63 }
    ensures places { OnOk result ((r : ℕ) → places_in placed.new.entries r ≡ when (room == r)
        (λ es. insert_entry nat_cmp es place code) (places_in placed.old.entries r)) }
    ensures listed { OnOk result ((r : ℕ) → listed_in placed.new.entries r ≡ listed_in placed.old.entries r + one_if
        (room == r)) }
{
    let mut found = take_out(alloc, placed, room);
    let Ok(_) = found.by_place.insert(place, code) else {
        return Err(Memory);
    };
    found.listed += 1;
    let Ok(_) = placed.insert(room, found) else {
        return Err(Memory);
    };
    Ok(())
}

fn place_plain(
    alloc: Global,
    placed: &mut BTreeMap<u64, Placed>,
    code: &PlainCode,
) -> Result<(), Memory>
    requires { listed_in placed.old.entries (number_of code.now.room) < 2 ^ 63 }
    ensures places { OnOk result ((r : ℕ) → places_in placed.new.entries r
        ≡ when (number_of code.now.room == r) (λ es. insert_entry nat_cmp es (number_of code.now.place)
        (number_of code.now.code)) (places_in placed.old.entries r)) }
    ensures listed { OnOk result ((r : ℕ) → listed_in placed.new.entries r ≡ listed_in placed.old.entries r + one_if
        (number_of code.now.room == r)) }
{
    let room = number(code.room);
    let place = number(code.place);
    let named = number(code.code);
    place_code(alloc, placed, room, place, named)
}

/// The codes of each room by their places.
pub(crate) fn place_codes(
    alloc: Global,
    codes: &[PlainCode],
) -> Result<BTreeMap<u64, Placed>, Memory>
    ensures { IfOk result (λ placed. PlacesOf placed.entries codes.now) }
{
    let mut placed = BTreeMap::new(alloc);
    let len = codes.len();
    for k in 0..len {
        place_plain(alloc, &mut placed, &codes[len - 1 - k])?;
    }
    Ok(placed)
}

/// Whether the places are 0 and on, without holes.
fn count_from_zero(by_place: &BTreeMap<u64, u64>) -> bool
    ensures { result ≡ count_up 0 (keys_of by_place.now.entries) }
{
    let mut next = 0u64;
    for (place, _code) in by_place.iter() {
        if *place != next {
            return false;
        }
        next += 1;
    }
    true
}

/// Whether the places of a room's codes are 0 and on, each once, as many as the room's row says.
fn has_places(placed: &BTreeMap<u64, Placed>, room: &PlainRoom) -> bool
    ensures { result ≡ placed_as_due placed.now.entries room.now }
{
    let codes = number(room.codes);
    let Some(found) = placed.get(&number(room.room)) else {
        return codes == 0;
    };
    if !count_from_zero(&found.by_place) {
        return false;
    }
    found.by_place.len() as u64 == codes && found.listed == codes
}

/// Whether that is so at each room.
pub(crate) fn rooms_have_places(placed: &BTreeMap<u64, Placed>, stored: &Stored) -> bool
    ensures { result ≡ list_all (placed_as_due placed.now.entries) stored.now.room.items }
{
    for i in 0..stored.room.len() {
        if !has_places(placed, &stored.room[i]) {
            return false;
        }
    }
    true
}

/// The code at a place of a room.
fn code_of(placed: &BTreeMap<u64, Placed>, room: u64, place: u64) -> Option<u64>
    ensures { result ≡ at_number (places_in placed.now.entries room) place }
{
    let Some(found) = placed.get(&room) else {
        return None;
    };
    found.by_place.get(&place).copied()
}

fn is_at_place(placed: &BTreeMap<u64, Placed>, room: u64, place: u64, code: u64) -> bool
    ensures { result ≡ is_that (at_number (places_in placed.now.entries room) place) code }
{
    let Some(there) = code_of(placed, room, place) else {
        return false;
    };
    there == code
}

/// Whether a link is that of the last two codes of a room with so many.
fn is_newest_in(placed: &BTreeMap<u64, Placed>, room: u64, codes: u64, old: u64, new: u64) -> bool
    requires { are_due_at placed.now.entries room codes ≡ true }
    ensures { result ≡ is_last_link placed.now.entries room (record { old_code = old; new_code = new }) }
{
    if codes < 2 {
        return false;
    }
    if !is_at_place(placed, room, codes - 2, old) {
        return false;
    }
    is_at_place(placed, room, codes - 1, new)
}

/// Whether a link is the newest of a room, whose codes are at the places that its row says.
pub(crate) fn is_newest(
    placed: &BTreeMap<u64, Placed>,
    fits: &RoomFits,
    stored: &Stored,
    room: &PlainRoom,
    old: u64,
    new: u64,
) -> bool
    requires placed { PlacesOf placed.now.entries stored.now.code.items }
    requires begins { BeginsOf fits.now.begins.entries (plain_fits stored.now) }
    requires due { placed_as_due placed.now.entries room.now ≡ true }
    ensures { result ≡ is_newest (rows_of stored.now) (number_of room.now.room)
        (record { old_code = old; new_code = new }) }
{
    let named = number(room.room);
    let codes = number(room.codes);
    if ends_with_fit(fits, named, codes) {
        return false;
    }
    is_newest_in(placed, named, codes, old, new)
}

/// The link of the last two codes of a room with so many.
pub(crate) fn newest_of(placed: &BTreeMap<u64, Placed>, room: u64, codes: u64) -> Option<LinkKey>
    requires { are_due_at placed.now.entries room codes ≡ true }
    ensures { option_map link_of_pair result ≡ last_link_of (values_of (places_in placed.now.entries room)) }
{
    if codes < 2 {
        return None;
    }
    let old = code_of(placed, room, codes - 2);
    let new = code_of(placed, room, codes - 1);
    both_of(old, new)
}

fn both_of(old: Option<u64>, new: Option<u64>) -> Option<LinkKey>
    ensures { option_map link_of_pair result ≡ link_of_both old new }
{
    let Some(old) = old else {
        return None;
    };
    let Some(new) = new else {
        return None;
    };
    Some((old, new))
}
