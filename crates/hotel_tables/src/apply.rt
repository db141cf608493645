//! A change of the books over the connection, one transaction.
ghost use Rattle.std.specs.Prelude.{◌≡◌, ◌⊎◌, true, option_map, OnOk, OnErr, IfOk, IfErr, IfSome, IsSome, IsTrue};
ghost use Rattle.keycard_rules.specs.declared.issued.LookFault.TheVariants.{Store};
ghost use Rattle.sqlite.specs.Held.{state};
ghost use Rattle.sqlite.specs.State.{HasCleanDisk, Survives};
ghost use Rattle.hotel_model.specs.Refinement.Change.{made};
ghost use Rattle.hotel_model.specs.Refinement.Fits.{Fits};
ghost use Rattle.hotel_model.specs.Rows.{fit_at};
ghost use Rattle.hotel_statements.specs.Tables.{rows_in};
ghost use Rattle.hotel_statements.specs.Books.{IsBooks, IsKept};
ghost use Rattle.hotel_statements.specs.Steps.{IsMadeOf};
ghost use Rattle.hotel_statements.specs.Statements.{WritesBy, statements_of};
ghost use Rattle.hotel_statements.specs.LookUps.{Selects, MayLook, HasCause};
ghost use Rattle.hotel_statements.specs.Failures.{FitFails};
ghost use Rattle.hotel_tables.specs.Applied.{MayMake, Applies, known_by_fit, told_for, known_for};
ghost use Rattle.hotel_tables.specs.Applied.{can_count};
ghost use Rattle.hotel_tables.specs.Causes.{ToldFails, AsksTold, HasLooked, FailsToWrite, MakingFails};

use hotel_model::Change;
use hotel_nights::StayState;
use hotel_statements::changes::{add_room, end_stay};
use hotel_statements::issue::issue;
use hotel_statements::lock_notes::take_note;
use hotel_statements::refits::refit;
use hotel_statements::steps::{insert_card, insert_kind, insert_stay, set_day, set_state};
use hotel_statements::{RoomCounts, fault_of, look_ups};
use keycard_rules::{FitNo, LookFault, RoomNo};
use sqlite::{Alter, Connection, Error, Transaction};
use std::alloc::Global;

/// Writes a change within a transaction, by what is known of its room.
fn write_change<S: Alter>(
    tx: &mut Transaction<'_, S>,
    change: &Change,
    known: RoomCounts,
) -> Result<(), Error>
    requires { can_count change.now known ≡ true }
    ensures same_reference { tx.new.conn.ghost_name ≡ tx.old.conn.ghost_name }
    ensures makes { WritesBy S.Store (statements_of change.now known) (MayMake change.now known)
        (made change.now) tx.old.conn.now tx.new.conn.now result }
{
    match change {
        Change::Begin(day) => set_day(tx, *day),
        Change::DayTo(day) => set_day(tx, *day),
        Change::Kind(kind) => insert_kind(tx, kind),
        Change::Room { room, kind, code } => add_room(tx, *room, *kind, *code),
        Change::Reserved(stay) => insert_stay(tx, stay),
        Change::Cancelled(party) => set_state(tx, *party, StayState::Cancelled),
        Change::Issue { card, room, leaves } => issue(tx, card, *room, *leaves, known.codes),
        Change::Spare(card) => insert_card(tx, *card),
        Change::CheckedOut { party, room } => end_stay(tx, *party, *room),
        Change::Refit { room, code, fit } => {
            refit(tx, *room, *code, *fit, known.codes, known.notes)
        }
        Change::Noted {
            note,
            lock_place,
            secured,
            insides,
        } => {
            let number = known.before + note.count.value();
            take_note(tx, note, number, *lock_place, *secured, *insides)
        }
    }
}

/// Makes all of a change, or nothing, by one transaction whose commit is its last store call.
fn make_change<S: Alter>(
    conn: &mut Connection<S>,
    change: &Change,
    known: RoomCounts,
) -> Result<(), Error>
    requires books { IsBooks (state S.Store conn.old) }
    requires counted { can_count change.now known ≡ true }
    requires fits { IsKept (state S.Store conn.old)
        → MayMake change.now known (rows_in (state S.Store conn.old).now.trees) }
    ensures books { IsBooks (state S.Store conn.new) }
    ensures was { IsKept (state S.Store conn.new) → IsKept (state S.Store conn.old) }
    ensures open_on { HasCleanDisk (state S.Store conn.new) → OnOk result (IsTrue (state S.Store conn.new).is_open) }
    ensures made { IsKept (state S.Store conn.new) → OnOk result
        (rows_in (state S.Store conn.new).now.trees ≡ made change.now (rows_in (state S.Store conn.old).now.trees)) }
    ensures same { IsKept (state S.Store conn.new) → OnErr result
        ((state S.Store conn.new).now ≡ (state S.Store conn.old).now) }
    ensures crash { Survives (state S.Store conn.old) (state S.Store conn.new)
        (IsMadeOf (made change.now) (state S.Store conn.old).now.trees) }
    ensures failed { IfErr result (FailsToWrite S.Store (statements_of change.now known) conn.old conn.new) }
{
    let mut tx = conn.transaction();
    write_change(&mut tx, change, known)?;
    tx.commit()
}

/// Whether one more code can be counted at the room of a change that adds one, or the number of a note that one adds.
fn can_count(change: &Change, known: RoomCounts) -> bool
    ensures { result ≡ can_count change.now known }
{
    match change {
        Change::Issue { .. } => known.codes < u32::MAX,
        Change::Refit { .. } => known.codes < u32::MAX,
        Change::Noted { note, .. } => known.before <= u32::MAX - note.count.value(),
        _ => true,
    }
}

/// What the row of a fit tells of it.
fn known_by_fit<S: Alter>(
    alloc: Global,
    conn: &mut Connection<S>,
    room: RoomNo,
    number: FitNo,
) -> Result<Option<RoomCounts>, LookFault>
    requires { IsBooks (state S.Store conn.old) }
    ensures { Selects (FitFails room number) (λ known. known)
        (λ rows. option_map known_by_fit (fit_at rows room number))
        (state S.Store conn.old) (state S.Store conn.new) result }
{
    let Some(fit) = look_ups::fit(alloc, conn, room, number)? else {
        return Ok(None);
    };
    Ok(Some(RoomCounts {
        codes: 0,
        notes: 0,
        before: fit.before,
    }))
}

/// What the row of a change's room, or of its note's fit, tells the statements of the change.
///
/// None where there is no such row; nothing is looked up for a change that adds no code and no note.
fn told_for<S: Alter>(
    alloc: Global,
    conn: &mut Connection<S>,
    change: &Change,
) -> Result<Option<RoomCounts>, LookFault>
    requires { IsBooks (state S.Store conn.old) }
    ensures looks { MayLook (λ known. known) (told_for change.now) (state S.Store conn.old)
        (state S.Store conn.new) result }
    ensures cause { HasCause (ToldFails change.now) (state S.Store conn.old) (state S.Store conn.new) result }
    ensures asks { HasCleanDisk (state S.Store conn.new)
        → IfOk result (λ known. AsksTold S.Store change.now known conn.old conn.new) }
{
    match change {
        Change::Issue { room, .. } => look_ups::known_by_room(alloc, conn, *room),
        Change::Refit { room, .. } => look_ups::known_by_room(alloc, conn, *room),
        Change::Noted { note, .. } => known_by_fit(alloc, conn, note.room, note.fit),
        _ => Ok(Some(RoomCounts {
            codes: 0,
            notes: 0,
            before: 0,
        })),
    }
}

/// What the statements of a change are told.
///
/// None where the row that tells it isn't there or what is added can't be counted, which is so of no change that fits.
fn known_for<S: Alter>(
    alloc: Global,
    conn: &mut Connection<S>,
    change: &Change,
) -> Result<Option<RoomCounts>, LookFault>
    requires books { IsBooks (state S.Store conn.old) }
    requires fits { IsKept (state S.Store conn.old) → Fits change.now (rows_in (state S.Store conn.old).now.trees) }
    ensures looks { MayLook (λ known. known) (known_for change.now) (state S.Store conn.old)
        (state S.Store conn.new) result }
    ensures counted { IfOk result (λ known. IfSome known (λ k. can_count change.now k ≡ true)) }
    ensures there { HasCleanDisk (state S.Store conn.new) → IfOk result IsSome }
    ensures cause { HasCause (ToldFails change.now) (state S.Store conn.old) (state S.Store conn.new) result }
    ensures known { HasCleanDisk (state S.Store conn.new) → IfOk result (λ known.
        known ≡ known_for change.now (rows_in (state S.Store conn.old).now.trees)) }
    ensures asked { HasCleanDisk (state S.Store conn.new)
        → OnOk result ((conn.new ≡ conn.old) ⊎ HasLooked S.Store conn.old conn.new) }
{
    let Some(known) = told_for(alloc, conn, change)? else {
        return Ok(None);
    };
    if can_count(change, known) {
        Ok(Some(known))
    } else {
        Ok(None)
    }
}

/// Makes all of a change, or nothing, also where a crash comes in it.
///
/// The row that a change that fits asks for is there; Store is answered where it isn't, which only a failure of the
/// store can bring about.
pub(crate) fn apply_change<S: Alter>(
    alloc: Global,
    conn: &mut Connection<S>,
    change: &Change,
) -> Result<(), LookFault>
    requires books { IsBooks (state S.Store conn.old) }
    requires fits { IsKept (state S.Store conn.old) → Fits change.now (rows_in (state S.Store conn.old).now.trees) }
    ensures applies { Applies change.now (state S.Store conn.old) (state S.Store conn.new) result }
    ensures cause { HasCleanDisk (state S.Store conn.new)
        → IfErr result (λ why. why ≡ Store → MakingFails S.Store change.now conn.old conn.new) }
{
    let Some(known) = known_for(alloc, conn, change)? else {
        return Err(LookFault::Store);
    };
    match make_change(conn, change, known) {
        Ok(()) => Ok(()),
        Err(error) => Err(fault_of(error)),
    }
}
