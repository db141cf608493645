//! The rules of the table of fits.
ghost use Rattle.std.specs.Prelude.{◌≡◌, map, IfOk};
ghost use Rattle.std.specs.List.{list_all};
ghost use Rattle.hotel_rows.specs.Stored.{plain_fits, first_fit, rows_of};
ghost use Rattle.hotel_rows.specs.Damage.{fit_holds};
ghost use Rattle.hotel_rows.specs.FitRuns.{FitRunsOf, fitted_as_due};
ghost use Rattle.hotel_rows.specs.Places.{AreOf};
ghost use Rattle.hotel_rows.specs.RowTests.{has_room};

use crate::damage::by_key::{Places, fit_keys, room_at};
use crate::damage::fit_runs::{RoomFits, is_fitted};
use crate::damage::known::Known;
use crate::damage::numbers::{number, rise_in_pairs};
use crate::stored::{PlainFit, PlainRoom, Stored};
use keycard_rules::Memory;
use std::alloc::Global;

/// The fits of rooms of which each has the one that it began with.
pub(crate) fn first_fits(alloc: Global, rooms: &[PlainRoom]) -> Result<Vec<PlainFit>, Memory>
    ensures { IfOk result (λ fits. fits.items ≡ map first_fit rooms.now) }
{
    match rooms
        .iter()
        .map(|room| PlainFit {
            room: room.room,
            fit: 1,
            place: 0,
            before: 0,
        })
        .collect(alloc)
    {
        Ok(fits) => Ok(fits),
        Err(_) => Err(Memory),
    }
}

fn has_room(places: &Places, stored: &Stored, fit: &PlainFit) -> bool
    requires { AreOf places.now stored.now }
    ensures { result ≡ has_room (rows_of stored.now) fit.now }
{
    room_at(places, stored, number(fit.room)).is_some()
}

/// Whether the room of each fit is there.
fn fits_have_rooms(places: &Places, stored: &Stored, fits: &[PlainFit]) -> bool
    requires { AreOf places.now stored.now }
    ensures { result ≡ list_all (has_room (rows_of stored.now)) fits.now }
{
    for i in 0..fits.len() {
        if !has_room(places, stored, &fits[i]) {
            return false;
        }
    }
    true
}

/// Whether the fits of each room are as they must be.
pub(crate) fn rooms_are_fitted(fits: &RoomFits, stored: &Stored) -> bool
    ensures { result ≡ list_all (fitted_as_due fits.now.runs.entries) stored.now.room.items }
{
    for i in 0..stored.room.len() {
        if !is_fitted(fits, &stored.room[i]) {
            return false;
        }
    }
    true
}

/// Whether the rules of the table of fits hold.
pub(crate) fn fits_hold(
    alloc: Global,
    known: &Known,
    stored: &Stored,
    plain: &[PlainFit],
) -> Result<bool, Memory>
    requires places { AreOf known.now.places stored.now }
    requires runs { FitRunsOf known.now.fits.runs.entries (plain_fits stored.now) }
    requires plain { plain.now ≡ plain_fits stored.now }
    ensures { IfOk result (λ hold. hold ≡ fit_holds stored.now) }
{
    let keys = fit_keys(alloc, plain)?;
    if !rise_in_pairs(&keys) {
        return Ok(false);
    }
    if !fits_have_rooms(&known.places, stored, plain) {
        return Ok(false);
    }
    Ok(rooms_are_fitted(&known.fits, stored))
}
