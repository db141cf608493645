//! The rules of the table of lock notes.
ghost use Rattle.std.specs.Prelude.{◌≡◌, ◌&&◌, nat_le, IfOk};
ghost use Rattle.std.specs.List.{list_all};
ghost use Rattle.keycard_rules.specs.declared.note.TheConstants.{LAST_SECOND};
ghost use Rattle.hotel_model.specs.SoundNotes.{act_fits, has_link_at};
ghost use Rattle.hotel_model.specs.SoundRooms.{is_day};
ghost use Rattle.hotel_rows.specs.Damage.{are_note_columns, note_holds};
ghost use Rattle.hotel_rows.specs.Stored.{rows_of, number_of, note_row};
ghost use Rattle.hotel_rows.specs.Places.{AreOf};
ghost use Rattle.hotel_rows.specs.RowTests.{plain_note_fits};

use crate::damage::by_key::{Places, card_at, note_keys, room_at};
use crate::damage::codes::{stands_at, stands_later};
use crate::damage::note_runs::{rooms_have_counts, runs_of};
use crate::damage::numbers::{NO_NUMBER, number, number_if, rise_in_pairs};
use crate::stored::{PlainNote, Stored};
use keycard_rules::{LAST_DAY, LAST_SECOND, Memory};
use std::alloc::Global;

/// Whether the card of the number has this link, which stands at the room.
fn has_link_at(places: &Places, stored: &Stored, room: u64, named: u64, old: u64, new: u64) -> bool
    requires { AreOf places.now stored.now }
    ensures { result ≡ has_link_at (rows_of stored.now) room named (record { old_code = old; new_code = new }) }
{
    let Some(card) = card_at(places, stored, named) else {
        return false;
    };
    if number(card.old_code) != old || number(card.new_code) != new {
        return false;
    }
    stands_at(places, stored, room, old, new)
}

/// Whether the note has a card exactly where one entered or left.
fn has_columns(note: &PlainNote) -> bool
    ensures { result ≡ are_note_columns note.now }
{
    let act = number(note.act);
    if act > 2 {
        return false;
    }
    if note.card.is_some() {
        return act <= 1;
    }
    act == 2
}

fn act_fits(places: &Places, stored: &Stored, note: &PlainNote) -> bool
    requires { AreOf places.now stored.now }
    ensures { result ≡ act_fits (rows_of stored.now) (number_of note.now.room) (note_row note.now).act }
{
    let act = number(note.act);
    let room = number(note.room);
    let card = number_if(note.card).unwrap_or(NO_NUMBER);
    let first = number(note.first_code);
    let second = number(note.second_code);
    if act == 0 || act == 1 {
        return has_link_at(places, stored, room, card, first, second);
    }
    stands_later(places, stored, room, first, second)
}

fn has_time(note: &PlainNote) -> bool
    ensures { result ≡ (is_day (number_of note.now.day) && nat_le (number_of note.now.second) LAST_SECOND) }
{
    number(note.day) <= u64::from(LAST_DAY) && number(note.second) <= u64::from(LAST_SECOND)
}

/// Whether the note fits the cards and codes of its room, and its time is one.
fn note_fits(places: &Places, stored: &Stored, note: &PlainNote) -> bool
    requires { AreOf places.now stored.now }
    ensures { result ≡ plain_note_fits (rows_of stored.now) note.now }
{
    if !has_columns(note) {
        return false;
    }
    if room_at(places, stored, number(note.room)).is_none() {
        return false;
    }
    if !act_fits(places, stored, note) {
        return false;
    }
    has_time(note)
}

/// Whether each note fits.
pub(crate) fn notes_fit(places: &Places, stored: &Stored) -> bool
    requires { AreOf places.now stored.now }
    ensures { result ≡ list_all (plain_note_fits (rows_of stored.now)) stored.now.note.items }
{
    for i in 0..stored.note.len() {
        if !note_fits(places, stored, &stored.note[i]) {
            return false;
        }
    }
    true
}

/// Whether the rules of the table of notes hold.
pub(crate) fn notes_hold(alloc: Global, places: &Places, stored: &Stored) -> Result<bool, Memory>
    requires { AreOf places.now stored.now }
    ensures { IfOk result (λ hold. hold ≡ note_holds stored.now) }
{
    let keys = note_keys(alloc, &stored.note)?;
    if !rise_in_pairs(&keys) {
        return Ok(false);
    }
    let runs = runs_of(alloc, &stored.note)?;
    if !notes_fit(places, stored) {
        return Ok(false);
    }
    Ok(rooms_have_counts(&runs, stored))
}
