//! Notes of locks.
ghost use Rattle.std.specs.Prelude.{◌≡◌, None, nat_le, Ok};
ghost use Rattle.hotel_model.specs.{Refinement.Answered.IsOutcome, Refinement.NotesOnRows.IsUntaken, Ranges.IsCommand};
ghost use Rattle.hotel_model.specs.{Notes.same_note};
ghost use Rattle.hotel_model.specs.{Refinement.OnRows.reported_on};
ghost use Rattle.hotel_books.specs.Refinement.Finds.{reply_of};
ghost use Rattle.hotel_core.specs.Refinement.NextNote.{next_checked};
ghost use Rattle.hotel_core.specs.Refinement.StepOnRows.{StepsWithoutWords, CarriesOutWithoutWords};
ghost use Rattle.hotel_model.specs.declared.command.Command.TheVariants as command;

use crate::commands::entries::enter;
use crate::commands::exits::leave;
use crate::commands::lock_codes::{is_present, kept_note, notes_of_present};
use crate::commands::look_ups::{room_there, today};
use crate::commands::recodings::recode;
use hotel_books::Books;
use hotel_model::{Refusal, Reply, RoomRow};
use keycard_rules::{Act, LockNote};

fn same_note(kept: &LockNote, note: &LockNote) -> bool
    ensures { result ≡ same_note kept.now note.now }
{
    kept == note
}

/// Whether a note is of a lock that the room has, or had.
fn is_fit(note: &LockNote, row: &RoomRow) -> bool
    ensures { result ≡ nat_le note.now.fit row.now.fit }
{
    note.fit <= row.fit
}

/// Whether a note that wasn't taken is the next one of its room's present lock.
fn check_next(note: &LockNote, row: &RoomRow) -> Result<(), Refusal>
    ensures { result ≡ next_checked note.now row.now }
{
    if !is_present(note, row) {
        return Err(Refusal::OldFit);
    }
    let count = note.count.value();
    let taken = notes_of_present(row);
    if count <= taken {
        // Sound books have each note up to this count.
        return Err(Refusal::Store);
    }
    let next = taken + 1;
    if next < count {
        return Err(Refusal::Gap(next));
    }
    Ok(())
}

/// Takes the next note of a room's present lock.
fn take_next<B: Books>(books: &mut B, note: &LockNote, row: &RoomRow) -> Result<Reply, Refusal>
    requires next { next_checked note.now row.now ≡ Ok tt }
    requires untaken { B.is_clean books.old → IsUntaken note.now row.now (B.rows books.old) }
    requires outcome { B.is_clean books.old → IsOutcome (B.rows books.old)
        (reported_on (B.rows books.old) note.now None) }
    ensures { StepsWithoutWords B.Kept B.Books.own (λ rows. reported_on rows note.now None) books.old books.new
        (reply_of result) }
{
    match note.act {
        Act::Entered { card, link } => enter(books, note, row, card, &link),
        Act::Left { card, link } => leave(books, note, row, card, &link),
        Act::Recoded { from, to } => recode(books, note, row, from, to),
    }
}

/// Takes a note of a lock.
pub(crate) fn take_note<B: Books>(books: &mut B, note: &LockNote) -> Result<Reply, Refusal>
    requires { IsCommand (command.Reported note.now) }
    ensures { CarriesOutWithoutWords B.Kept B.Books.own (command.Reported note.now) books.old books.new
        (reply_of result) }
{
    today(books)?;
    let row = room_there(books, note.room)?;
    if !is_fit(note, &row) {
        return Err(Refusal::NoFit);
    }
    match kept_note(books, note, &row)? {
        Some(kept) if same_note(&kept, note) => Ok(Reply::Seen),
        Some(_) => Err(Refusal::Conflict),
        None => {
            check_next(note, &row)?;
            take_next(books, note, &row)
        }
    }
}
