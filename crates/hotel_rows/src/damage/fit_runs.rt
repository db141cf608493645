//! What is known of the fits of each room.
ghost use Rattle.std.specs.Prelude.{◌≡◌, ◌<◌, ◌^◌, ◌-◌, ℕ, List, ◌∷◌, ◌==◌, if◌then◌else◌, IfOk, OnOk, Some};
ghost use Rattle.std.specs.BTreeMap.{is_at};
ghost use Rattle.std.specs.Map.{lookup};
ghost use Rattle.hotel_model.specs.declared.rows.FitRow.{FitRow};
ghost use Rattle.hotel_model.specs.Words.{said_of, pair_cmp};
ghost use Rattle.hotel_model.specs.Rows.{PlaceKey, at_number};
ghost use Rattle.hotel_rows.specs.Stored.{number_of, fit_row};
ghost use Rattle.hotel_rows.specs.FitRuns.{fit_run_of, first_in, comes_next, begin_key, FitRunsOf, BeginsOf, FitsOf};
ghost use Rattle.hotel_rows.specs.FitRuns.{fit_count, last_place_in, begins_in, starts_at_one, is_ended, fitted_as_due};

use crate::damage::numbers::number;
use crate::stored::{PlainFit, PlainRoom};
use keycard_rules::{LAST_FIT, LAST_NUMBER, Memory};
use std::alloc::Global;
use std::collections::BTreeMap;

/// The room and the place of a code.
type PlaceKey = (u64, u64);

/// What is known of some fits of a room.
#[derive(Clone, Copy)]
pub(crate) struct FitRun {
    /// How many they are.
    fits: u64,
    /// The number, the place and the notes before it of the first one.
    fit: u64,
    place: u64,
    before: u64,
    /// The place and the notes before it of the last one.
    last_place: u64,
    last_before: u64,
    /// Whether each comes next after the one before it.
    in_order: bool,
}

/// The fits of each room, and by the room and place of its first code the number of each.
#[derive(Drop)]
pub(crate) struct RoomFits {
    runs: BTreeMap<u64, FitRun>,
    begins: BTreeMap<PlaceKey, u64>,
}

fn run_at(runs: &BTreeMap<u64, FitRun>, room: u64) -> Option<FitRun>
    ensures { result ≡ at_number runs.now.entries room }
{
    runs.get(&room).copied()
}

/// Whether the first of some fits comes next after a fit.
fn comes_next(fit: &PlainFit, run: &FitRun) -> bool
    ensures { result ≡ comes_next (fit_row fit.now) (first_in run.now) }
{
    let named = number(fit.fit);
    if run.fit <= named || run.fit - named != 1 {
        return false;
    }
    if number(fit.place) >= run.place {
        return false;
    }
    let before = number(fit.before);
    before <= run.before && run.before - before <= u64::from(LAST_NUMBER)
}

/// What is known of the fits with one more before them.
fn with_first(run: Option<FitRun>, fit: &PlainFit) -> FitRun
    requires { said_of run 0 (λ run. run.fits) < 2 ^ 63 }
    ensures { (fs : List FitRow) → run ≡ fit_run_of fs → Some result ≡ fit_run_of (fit_row fit.now ∷ fs) }
{
    let place = number(fit.place);
    let before = number(fit.before);
    let Some(run) = run else {
        return FitRun {
            fits: 1,
            fit: number(fit.fit),
            place,
            before,
            last_place: place,
            last_before: before,
            in_order: true,
        };
    };
    FitRun {
        fits: run.fits + 1,
        fit: number(fit.fit),
        place,
        before,
        last_place: run.last_place,
        last_before: run.last_before,
        in_order: comes_next(fit, &run) && run.in_order,
    }
}

fn add_fit(runs: &mut BTreeMap<u64, FitRun>, fit: &PlainFit) -> Result<(), Memory>
    requires { fit_count runs.old.entries (number_of fit.now.room) < 2 ^ 63 }
    ensures { OnOk result ((r : ℕ) (fs : List FitRow)
        → at_number runs.old.entries (number_of fit.now.room) ≡ fit_run_of fs
        → at_number runs.new.entries r
        ≡ (if r == number_of fit.now.room then fit_run_of (fit_row fit.now ∷ fs) else at_number runs.old.entries r)) }
{
    let room = number(fit.room);
    let run = with_first(run_at(runs, room), fit);
    let Ok(_) = runs.insert(room, run) else {
        return Err(Memory);
    };
    Ok(())
}

fn runs_of(alloc: Global, fits: &[PlainFit]) -> Result<BTreeMap<u64, FitRun>, Memory>
    ensures { IfOk result (λ runs. FitRunsOf runs.entries fits.now) }
{
    let mut runs = BTreeMap::new(alloc);
    let len = fits.len();
    for k in 0..len {
        add_fit(&mut runs, &fits[len - 1 - k])?;
    }
    Ok(runs)
}

fn add_begin(begins: &mut BTreeMap<PlaceKey, u64>, fit: &PlainFit) -> Result<(), Memory>
    ensures { OnOk result ((q : PlaceKey) → lookup (is_at (pair_cmp q)) begins.new.entries
        ≡ (if is_at (pair_cmp (begin_key fit.now)) q then Some (number_of fit.now.fit)
        else lookup (is_at (pair_cmp q)) begins.old.entries)) }
{
    let key = (number(fit.room), number(fit.place));
    let named = number(fit.fit);
    let Ok(_) = begins.insert(key, named) else {
        return Err(Memory);
    };
    Ok(())
}

fn begins_of(alloc: Global, fits: &[PlainFit]) -> Result<BTreeMap<PlaceKey, u64>, Memory>
    ensures { IfOk result (λ begins. BeginsOf begins.entries fits.now) }
{
    let mut begins = BTreeMap::new(alloc);
    let len = fits.len();
    for k in 0..len {
        add_begin(&mut begins, &fits[len - 1 - k])?;
    }
    Ok(begins)
}

/// What is known of the fits.
pub(crate) fn room_fits(alloc: Global, fits: &[PlainFit]) -> Result<RoomFits, Memory>
    ensures { IfOk result (λ known. FitsOf known fits.now) }
{
    let runs = runs_of(alloc, fits)?;
    let begins = begins_of(alloc, fits)?;
    Ok(RoomFits { runs, begins })
}

/// How many fits a room has.
pub(crate) fn fits_of_room(fits: &RoomFits, room: u64) -> u64
    ensures { result ≡ fit_count fits.now.runs.entries room }
{
    match run_at(&fits.runs, room) {
        Some(run) => run.fits,
        None => 0,
    }
}

/// The place of the code that the room's last fit begins with, 0 where it has none.
pub(crate) fn last_place(fits: &RoomFits, room: u64) -> u64
    ensures { result ≡ last_place_in fits.now.runs.entries room }
{
    match run_at(&fits.runs, room) {
        Some(run) => run.last_place,
        None => 0,
    }
}

/// Whether a fit of the room begins with the code at this place.
pub(crate) fn begins_fit(fits: &RoomFits, room: u64, place: u64) -> bool
    ensures { result ≡ begins_in fits.now.begins.entries room place }
{
    fits.begins.contains_key(&(room, place))
}

/// Whether a fit of the room begins with the last of so many codes.
pub(crate) fn ends_with_fit(fits: &RoomFits, room: u64, codes: u64) -> bool
    ensures { result ≡ begins_in fits.now.begins.entries room (codes - 1) }
{
    begins_fit(fits, room, codes.saturating_sub(1))
}

/// Whether the fits of a room are 1 to n, as many as a room can have, the first at place 0 with no note before it.
fn is_begun(run: &FitRun) -> bool
    ensures { result ≡ starts_at_one run.now }
{
    if !run.in_order || run.fit != 1 {
        return false;
    }
    run.place == 0 && run.before == 0 && run.fits <= u64::from(LAST_FIT)
}

/// Whether the last fit of a room isn't after its lock's place, nor after its notes, of which it has no more than a
/// lock can count.
fn is_ended(run: &FitRun, room: &PlainRoom) -> bool
    ensures { result ≡ is_ended room.now run.now }
{
    if run.last_place > number(room.lock_place) {
        return false;
    }
    let notes = number(room.notes);
    run.last_before <= notes && notes - run.last_before <= u64::from(LAST_NUMBER)
}

/// Whether the fits of the room are as they must be.
pub(crate) fn is_fitted(fits: &RoomFits, room: &PlainRoom) -> bool
    ensures { result ≡ fitted_as_due fits.now.runs.entries room.now }
{
    let Some(run) = run_at(&fits.runs, number(room.room)) else {
        return false;
    };
    is_begun(&run) && is_ended(&run, room)
}
