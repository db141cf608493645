//! The rules of the table of cards that are inside.
ghost use Rattle.std.specs.Prelude.{◌≡◌, true, IfOk};
ghost use Rattle.std.specs.List.{list_all};
ghost use Rattle.hotel_rows.specs.Stored.{number_of, plain_fits, rows_of};
ghost use Rattle.hotel_rows.specs.Stored.{room_row, code_row, card_row, inside_pair};
ghost use Rattle.hotel_model.specs.SoundNotes.{fits_inside, has_entered};
ghost use Rattle.hotel_rows.specs.Damage.{inside_holds};
ghost use Rattle.hotel_rows.specs.FitRuns.{FitRunsOf};
ghost use Rattle.hotel_rows.specs.Known.{IsOfRows};
ghost use Rattle.hotel_rows.specs.CodePlaces.{placed_as_due};
ghost use Rattle.hotel_rows.specs.RowTests.{inside_fits};

use crate::damage::by_key::{card_at, code_at, inside_keys, room_at};
use crate::damage::code_places::is_newest;
use crate::damage::codes::stands_at;
use crate::damage::fit_runs::{RoomFits, last_place};
use crate::damage::known::Known;
use crate::damage::numbers::{number, rise_in_pairs};
use crate::stored::{PlainCard, PlainCode, PlainInside, PlainRoom, Stored};
use keycard_rules::Memory;
use std::alloc::Global;

/// Whether the code's place is after that of the room's last fit, and not after the lock's.
fn has_entered(stored: &Stored, fits: &RoomFits, room: &PlainRoom, code: PlainCode) -> bool
    requires { FitRunsOf fits.now.runs.entries (plain_fits stored.now) }
    ensures { result
        ≡ has_entered (rows_of stored.now) (number_of room.now.room) (room_row room.now) (code_row code) }
{
    let place = number(code.place);
    let least = last_place(fits, number(room.room));
    least < place && place <= number(room.lock_place)
}

/// Whether the card's link stands at the room, its new code was entered at the present lock, and is the newest in a
/// secured room.
fn fits_inside(known: &Known, stored: &Stored, room: &PlainRoom, card: PlainCard) -> bool
    requires known { IsOfRows known.now stored.now }
    requires due { placed_as_due known.now.placed.entries room.now ≡ true }
    ensures { result ≡ fits_inside (rows_of stored.now) (number_of room.now.room) (room_row room.now) (card_row card) }
{
    let old = number(card.old_code);
    let new = number(card.new_code);
    if !stands_at(&known.places, stored, number(room.room), old, new) {
        return false;
    }
    let Some(code) = code_at(&known.places, stored, new) else {
        return false;
    };
    if !has_entered(stored, &known.fits, room, code) {
        return false;
    }
    if number(room.secured) != 1 {
        return true;
    }
    is_newest(&known.placed, &known.fits, stored, room, old, new)
}

fn inside_fits(known: &Known, stored: &Stored, inside: &PlainInside) -> bool
    requires known { IsOfRows known.now stored.now }
    requires due { list_all (placed_as_due known.now.placed.entries) stored.now.room.items ≡ true }
    ensures { result ≡ inside_fits (rows_of stored.now) (inside_pair inside.now) }
{
    let named = number(inside.room);
    let Some(room) = room_at(&known.places, stored, named) else {
        return false;
    };
    let Some(card) = card_at(&known.places, stored, number(inside.card)) else {
        return false;
    };
    fits_inside(known, stored, room, card)
}

fn insides_fit(known: &Known, stored: &Stored) -> bool
    requires known { IsOfRows known.now stored.now }
    requires due { list_all (placed_as_due known.now.placed.entries) stored.now.room.items ≡ true }
    ensures { result ≡ list_all (λ e. inside_fits (rows_of stored.now) (inside_pair e)) stored.now.inside.items }
{
    for i in 0..stored.inside.len() {
        if !inside_fits(known, stored, &stored.inside[i]) {
            return false;
        }
    }
    true
}

/// Whether the rules of the table of cards that are inside hold, where those of the codes do.
pub(crate) fn insides_hold(alloc: Global, known: &Known, stored: &Stored) -> Result<bool, Memory>
    requires known { IsOfRows known.now stored.now }
    requires due { list_all (placed_as_due known.now.placed.entries) stored.now.room.items ≡ true }
    ensures { IfOk result (λ hold. hold ≡ inside_holds stored.now) }
{
    let keys = inside_keys(alloc, &stored.inside)?;
    if !rise_in_pairs(&keys) {
        return Ok(false);
    }
    Ok(insides_fit(known, stored))
}
