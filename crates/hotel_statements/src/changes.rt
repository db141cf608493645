//! The changes of the books that are two statements or three, within a transaction.
ghost use Rattle.std.specs.Prelude.{◌≡◌};
ghost use Rattle.hotel_model.specs.Refinement.Change.{made};
ghost use Rattle.hotel_model.specs.declared.change.Change.TheVariants as change;
ghost use Rattle.hotel_statements.specs.Statements.{WritesBy, opens_room, ends_stay};
ghost use Rattle.hotel_books.specs.Refinement.Finds.{AnyRows};
ghost use Rattle.hotel_statements.specs.Steps.{IsNewRoom};

use crate::steps::{free_room, insert_code, insert_fit, insert_room, set_state};
use hotel_model::{CodeRow, FitRow, RoomRow};
use hotel_nights::{KindCode, StayState};
use keycard_rules::{Code, FitNo, PartyNo, RoomNo};
use sqlite::{Alter, Error, Transaction};

/// Adds a room whose lock, its first, holds its first code.
pub fn add_room<S: Alter>(
    tx: &mut Transaction<'_, S>,
    room: RoomNo,
    kind: KindCode,
    code: Code,
) -> Result<(), Error>
    ensures same_reference { tx.new.conn.ghost_name ≡ tx.old.conn.ghost_name }
    ensures makes { WritesBy S.Store (opens_room room kind code) (IsNewRoom room)
        (made (change.Room room kind code)) tx.old.conn.now tx.new.conn.now result }
{
    insert_room(tx, RoomRow::of_new_room(room, kind))?;
    insert_code(tx, code, CodeRow { room, place: 0 })?;
    insert_fit(tx, FitRow::of_new_room(room))
}

/// Ends a stay, and leaves its room without a party.
pub fn end_stay<S: Alter>(
    tx: &mut Transaction<'_, S>,
    party: PartyNo,
    room: RoomNo,
) -> Result<(), Error>
    ensures same_reference { tx.new.conn.ghost_name ≡ tx.old.conn.ghost_name }
    ensures makes { WritesBy S.Store (ends_stay party room) AnyRows (made (change.CheckedOut party room))
        tx.old.conn.now tx.new.conn.now result }
{
    set_state(tx, party, StayState::Done)?;
    free_room(tx, room)
}
