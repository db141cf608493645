//! The counts beside the tables, kept in step with the changes of the rows.
ghost use Rattle.std.specs.Prelude.{None, OnOk, OnErr};
ghost use Rattle.sqlite.specs.Held.{state};
ghost use Rattle.hotel_statements.specs.Books.{IsBooks};
ghost use Rattle.sqlite.specs.State.{HasCleanDisk};
ghost use Rattle.hotel_statements.specs.LookUps.{MayLook, HasCause};
ghost use Rattle.hotel_tables.specs.Counted.{booked_by, ended_by, CountsMore, CountsLess, KeepsRooms, HasItsKind};
ghost use Rattle.hotel_tables.specs.Counted.{CountsItsRoom};
ghost use Rattle.hotel_tables.specs.Causes.{EndedFails, AsksEnded};

use hotel_books::{KindRooms, NightIndex};
use hotel_model::Change;
use hotel_nights::Stay;
use hotel_statements::look_ups;
use keycard_rules::{LookFault, Memory};
use sqlite::{Alter, Connection};
use std::alloc::Global;

/// The stay that a change ends, as it stands before.
pub(crate) fn ended_by<S: Alter>(
    alloc: Global,
    conn: &mut Connection<S>,
    change: &Change,
) -> Result<Option<Stay>, LookFault>
    requires { IsBooks (state S.Store conn.old) }
    ensures looks { MayLook (λ a. a) (ended_by change.now) (state S.Store conn.old) (state S.Store conn.new) result }
    ensures cause { HasCause (EndedFails change.now) (state S.Store conn.old) (state S.Store conn.new) result }
    ensures asks { HasCleanDisk (state S.Store conn.new)
        → OnOk result (AsksEnded S.Store change.now conn.old conn.new) }
{
    match change {
        Change::Cancelled(party) => look_ups::stay(alloc, conn, *party),
        Change::CheckedOut { party, .. } => look_ups::stay(alloc, conn, *party),
        _ => Ok(None),
    }
}

/// Counts what a change adds and memory may run out for: its kind, which has no rooms yet, or its stay.
///
/// A refusal changes no count.
pub(crate) fn count_added(
    kinds: &mut KindRooms,
    nights: &mut NightIndex,
    change: &Change,
) -> Result<(), Memory>
    ensures kind { OnOk result (HasItsKind change.now kinds.new) }
    ensures rooms { KeepsRooms kinds.old kinds.new }
    ensures stays { OnOk result (CountsMore (booked_by change.now) nights.old nights.new) }
    ensures err { OnErr result (CountsMore None nights.old nights.new) }
{
    match change {
        Change::Kind(kind) => kinds.know_kind(*kind),
        Change::Reserved(stay) => nights.add(stay),
        _ => Ok(()),
    }
}

/// Counts the room that a change added. It takes no memory.
pub(crate) fn count_room(kinds: &mut KindRooms, change: &Change)
    ensures { CountsItsRoom change.now kinds.old kinds.new }
{
    if let Change::Room { kind, .. } = change {
        kinds.add_room(kind);
    }
}

/// Counts a stay that ended no longer. It takes no memory.
pub(crate) fn count_ended(nights: &mut NightIndex, ended: Option<Stay>)
    ensures { CountsLess ended nights.old nights.new }
{
    if let Some(stay) = &ended {
        nights.remove(stay);
    }
}

/// Counts the stay of a change that wasn't made no longer.
pub(crate) fn uncount_added(nights: &mut NightIndex, change: &Change)
    ensures { CountsLess (booked_by change.now) nights.old nights.new }
{
    if let Change::Reserved(stay) = change {
        nights.remove(stay);
    }
}
