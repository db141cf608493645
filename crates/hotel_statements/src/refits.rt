//! A lock that is replaced, within a transaction.
ghost use Rattle.std.specs.Prelude.{◌≡◌, ◌<◌, ◌-◌, ◌^◌};
ghost use Rattle.hotel_model.specs.Refinement.Change.{made};
ghost use Rattle.hotel_model.specs.declared.change.Change.TheVariants as change;
ghost use Rattle.hotel_statements.specs.Statements.{WritesBy, replaces_lock, refits_room};
ghost use Rattle.hotel_books.specs.Refinement.Finds.{AnyRows};
ghost use Rattle.hotel_statements.specs.Steps.{IsRefit, lock_replaced};

use crate::steps::{delete_insides, insert_code, insert_fit, set_refitted};
use hotel_model::{CodeRow, FitRow};
use keycard_rules::{Code, FitNo, RoomNo};
use sqlite::{Alter, Error, Transaction};

/// Adds the new lock's code to a room that had so many; the lock holds it, and no card is inside.
fn replace_lock<S: Alter>(
    tx: &mut Transaction<'_, S>,
    room: RoomNo,
    code: Code,
    codes: u32,
) -> Result<(), Error>
    requires { codes < 2 ^ 32 - 1 }
    ensures same_reference { tx.new.conn.ghost_name ≡ tx.old.conn.ghost_name }
    ensures makes { WritesBy S.Store (replaces_lock room code codes) AnyRows
        (lock_replaced room code codes) tx.old.conn.now tx.new.conn.now result }
{
    insert_code(tx, code, CodeRow { room, place: codes })?;
    set_refitted(tx, room, codes, codes + 1)?;
    delete_insides(tx, room)
}

/// Gives a room that had so many codes and notes its next fit, whose lock holds a new code.
pub fn refit<S: Alter>(
    tx: &mut Transaction<'_, S>,
    room: RoomNo,
    code: Code,
    fit: FitNo,
    codes: u32,
    notes: u32,
) -> Result<(), Error>
    requires { codes < 2 ^ 32 - 1 }
    ensures same_reference { tx.new.conn.ghost_name ≡ tx.old.conn.ghost_name }
    ensures makes { WritesBy S.Store (refits_room room code fit codes notes) (IsRefit room fit codes notes)
        (made (change.Refit room code fit)) tx.old.conn.now tx.new.conn.now result }
{
    replace_lock(tx, room, code, codes)?;
    let row = FitRow {
        room,
        fit,
        place: codes,
        before: notes,
    };
    insert_fit(tx, row)
}
