//! Changes of rows that are there: they take no memory.
ghost use Rattle.std.specs.Prelude.{◌≡◌, ◌+◌, ◌-◌, ◌^◌, ◌<◌, Some, None, false};
ghost use Rattle.hotel_model.specs.{Rows.column_at, Refinement.Change.room_changed, Refinement.Change.refitted_row};
ghost use Rattle.hotel_model.specs.{Refinement.Change.without_party, Refinement.Change.freed_by, Stays.in_state};

use hotel_model::RoomRow;
use hotel_nights::{Stay, StayState};
use keycard_rules::{FitNo, PartyNo, RoomNo};
use std::collections::BTreeMap;

/// How many codes were issued at a room; 0 where it isn't there.
pub(crate) fn codes_issued(rooms: &BTreeMap<RoomNo, RoomRow>, room: RoomNo) -> u32
    ensures { result ≡ column_at rooms.now.entries room (λ row. row.codes) }
{
    match rooms.get(&room) {
        Some(row) => row.codes,
        None => 0,
    }
}

/// How many notes a room has; 0 where it isn't there.
pub(crate) fn notes_taken(rooms: &BTreeMap<RoomNo, RoomRow>, room: RoomNo) -> u32
    ensures { result ≡ column_at rooms.now.entries room (λ row. row.notes) }
{
    match rooms.get(&room) {
        Some(row) => row.notes,
        None => 0,
    }
}

/// How many notes of a room were taken before its present lock; 0 where it isn't there.
pub(crate) fn notes_before(rooms: &BTreeMap<RoomNo, RoomRow>, room: RoomNo) -> u32
    ensures { result ≡ column_at rooms.now.entries room (λ row. row.before) }
{
    match rooms.get(&room) {
        Some(row) => row.before,
        None => 0,
    }
}

/// The room has a new lock, which holds a new code.
pub(crate) fn refit_at(rooms: &mut BTreeMap<RoomNo, RoomRow>, room: RoomNo, fit: FitNo)
    requires { column_at rooms.old.entries room (λ row. row.codes) < 2 ^ 32 - 1 }
    ensures { rooms.new.entries ≡ room_changed room (refitted_row fit) rooms.old.entries }
{
    if let Some(row) = rooms.get_mut(&room) {
        *row = RoomRow {
            lock_place: row.codes,
            codes: row.codes + 1,
            secured: false,
            fit,
            before: row.notes,
            ..*row
        };
    }
}

/// One more code was issued at the room, to the party that is registered there from now on.
pub(crate) fn issue_at(rooms: &mut BTreeMap<RoomNo, RoomRow>, room: RoomNo, party: PartyNo)
    requires { column_at rooms.old.entries room (λ row. row.codes) < 2 ^ 32 - 1 }
    ensures { rooms.new.entries ≡ room_changed room
        (λ row. record row { codes = row.codes + 1; secured = false; party = Some party }) rooms.old.entries }
{
    if let Some(row) = rooms.get_mut(&room) {
        row.codes += 1;
        row.secured = false;
        row.party = Some(party);
    }
}

/// The party has left the room.
pub(crate) fn leave(rooms: &mut BTreeMap<RoomNo, RoomRow>, room: RoomNo)
    ensures { rooms.new.entries ≡ without_party room rooms.old.entries }
{
    if let Some(row) = rooms.get_mut(&room) {
        row.party = None;
    }
}

/// The party has left the room that is named, if one is.
pub(crate) fn leave_any(rooms: &mut BTreeMap<RoomNo, RoomRow>, leaves: Option<RoomNo>)
    ensures { rooms.new.entries ≡ freed_by leaves rooms.old.entries }
{
    if let Some(room) = leaves {
        leave(rooms, room);
    }
}

/// The room after a note of its lock.
pub(crate) fn note_at(
    rooms: &mut BTreeMap<RoomNo, RoomRow>,
    room: RoomNo,
    lock_place: u32,
    secured: bool,
    count: u32,
)
    requires { column_at rooms.old.entries room (λ row. row.before) + count < 2 ^ 32 }
    ensures { rooms.new.entries ≡ room_changed room
        (λ row. record row { lock_place = lock_place; secured = secured; notes = row.before + count })
        rooms.old.entries }
{
    if let Some(row) = rooms.get_mut(&room) {
        row.lock_place = lock_place;
        row.secured = secured;
        row.notes = row.before + count;
    }
}

/// The stay of a party stands so from now on.
pub(crate) fn set_state(stays: &mut BTreeMap<PartyNo, Stay>, party: PartyNo, state: StayState)
    ensures { stays.new.entries ≡ in_state party state stays.old.entries }
{
    if let Some(stay) = stays.get_mut(&party) {
        stay.state = state;
    }
}
