//! The rules of the table of stays.
ghost use Rattle.std.specs.Prelude.{◌≡◌, true, false, IfOk, MatchOption};
ghost use Rattle.std.specs.List.{list_all};
ghost use Rattle.hotel_rows.specs.Stored.{rows_of, stay_row};
ghost use Rattle.hotel_rows.specs.Counts.{IsCountedOf};
ghost use Rattle.hotel_rows.specs.Damage.{are_stay_columns, kind_holds, room_holds, stay_holds};
ghost use Rattle.hotel_rows.specs.Known.{KindsOf};
ghost use Rattle.hotel_rows.specs.Places.{AreOf};
ghost use Rattle.hotel_rows.specs.RowTests.{are_stay_days, has_home, stay_fits};

use crate::counts::{Counts, counts_of};
use crate::damage::by_key::{Places, room_at, stay_keys};
use crate::damage::kinds::{Kinds, has_kind};
use crate::damage::nights::nights_fit;
use crate::damage::numbers::{are_numbered, number, number_if};
use crate::damage::rooms::home_of;
use crate::stored::{PlainStay, Stored};
use hotel_nights::{MOST_NIGHTS, is_guest};
use keycard_rules::{LAST_DAY, Memory};
use std::alloc::Global;

/// Whether the stay has a room exactly where it is in house.
fn has_columns(stay: &PlainStay) -> bool
    ensures { result ≡ are_stay_columns stay.now }
{
    let state = number(stay.state);
    if state > 3 {
        return false;
    }
    if stay.room.is_some() {
        return state == 1;
    }
    state != 1
}

fn has_days(stay: &PlainStay) -> bool
    ensures { result ≡ are_stay_days stay.now }
{
    let arrive = number(stay.arrive);
    let depart = number(stay.depart);
    depart <= u64::from(LAST_DAY) && arrive < depart && depart - arrive <= u64::from(MOST_NIGHTS)
}

/// Whether the room of a stay in house has its party.
fn has_home(places: &Places, stored: &Stored, stay: &PlainStay) -> bool
    requires { AreOf places.now stored.now }
    ensures { result ≡ has_home (rows_of stored.now) (stay_row stay.now) }
{
    let Some(home) = home_of(stay) else {
        return true;
    };
    let Some(room) = room_at(places, stored, home) else {
        return false;
    };
    let Some(party) = number_if(room.party) else {
        return false;
    };
    party == number(stay.party)
}

fn stay_fits(kinds: &Kinds, places: &Places, stored: &Stored, stay: &PlainStay) -> bool
    requires kinds { KindsOf kinds.now.entries stored.now }
    requires places { AreOf places.now stored.now }
    ensures { result ≡ stay_fits stored.now stay.now }
{
    has_columns(stay)
        && is_guest(stay.guest.as_str())
        && has_kind(kinds, stay.kind.as_str())
        && has_days(stay)
        && has_home(places, stored, stay)
}

/// Whether each stay fits by itself.
pub(crate) fn stays_fit(kinds: &Kinds, places: &Places, stored: &Stored) -> bool
    requires kinds { KindsOf kinds.now.entries stored.now }
    requires places { AreOf places.now stored.now }
    ensures { result ≡ list_all (stay_fits stored.now) stored.now.stay.items }
{
    for i in 0..stored.stay.len() {
        if !stay_fits(kinds, places, stored, &stored.stay[i]) {
            return false;
        }
    }
    true
}

/// What is counted of the rows, where the rules of the table of stays hold.
pub(crate) fn stays_hold(
    alloc: Global,
    kinds: &Kinds,
    places: &Places,
    stored: &Stored,
) -> Result<Option<Counts>, Memory>
    requires kinds { KindsOf kinds.now.entries stored.now }
    requires places { AreOf places.now stored.now }
    requires kinds_hold { kind_holds stored.now ≡ true }
    requires rooms_hold { room_holds stored.now ≡ true }
    ensures { IfOk result (λ hold. MatchOption hold (stay_holds stored.now ≡ false)
        (λ counts. (stay_holds stored.now ≡ true) × IsCountedOf stored.now counts)) }
{
    let keys = stay_keys(alloc, &stored.stay)?;
    if !are_numbered(&keys) {
        return Ok(None);
    }
    if !stays_fit(kinds, places, stored) {
        return Ok(None);
    }
    let counts = counts_of(alloc, stored)?;
    if !nights_fit(&counts, stored) {
        return Ok(None);
    }
    Ok(Some(counts))
}
