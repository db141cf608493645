//! A note that is taken, within a transaction.
ghost use Rattle.std.specs.Prelude.{◌≡◌};
ghost use Rattle.hotel_model.specs.Refinement.Change.{made};
ghost use Rattle.hotel_model.specs.declared.change.Change.TheVariants as change;
ghost use Rattle.hotel_statements.specs.Statements.{WritesBy, gives_note, takes_note};
ghost use Rattle.hotel_statements.specs.Steps.{IsNewNote, IsNumbered, note_given};

use crate::steps::{delete_inside, insert_inside, insert_note, set_noted};
use hotel_model::InsideMove;
use keycard_rules::LockNote;
use sqlite::{Alter, Error, Transaction};

/// Adds a note under its number, and sets what follows of it for its room.
fn give_note<S: Alter>(
    tx: &mut Transaction<'_, S>,
    note: &LockNote,
    number: u32,
    lock_place: u32,
    secured: bool,
) -> Result<(), Error>
    ensures same_reference { tx.new.conn.ghost_name ≡ tx.old.conn.ghost_name }
    ensures makes { WritesBy S.Store (gives_note note.now number lock_place secured) (IsNewNote note.now number)
        (note_given note.now number lock_place secured) tx.old.conn.now tx.new.conn.now result }
{
    insert_note(tx, note, number)?;
    set_noted(tx, note.room, lock_place, secured, number)
}

/// Takes a note of a room's present lock, whose number isn't there: adds it, sets what follows of it for its room, and
/// moves a card in or out.
pub fn take_note<S: Alter>(
    tx: &mut Transaction<'_, S>,
    note: &LockNote,
    number: u32,
    lock_place: u32,
    secured: bool,
    insides: InsideMove,
) -> Result<(), Error>
    ensures same_reference { tx.new.conn.ghost_name ≡ tx.old.conn.ghost_name }
    ensures makes { WritesBy S.Store (takes_note note.now number lock_place secured insides)
        (IsNumbered note.now number) (made (change.Noted note.now lock_place secured insides))
        tx.old.conn.now tx.new.conn.now result }
{
    match insides {
        InsideMove::Same => give_note(tx, note, number, lock_place, secured),
        InsideMove::Goes(card) => {
            give_note(tx, note, number, lock_place, secured)?;
            delete_inside(tx, note.room, card)
        }
        InsideMove::Comes(card) => {
            give_note(tx, note, number, lock_place, secured)?;
            insert_inside(tx, note.room, card)
        }
    }
}
