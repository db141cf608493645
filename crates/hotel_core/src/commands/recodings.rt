//! Locks that staff recoded.
ghost use Rattle.std.specs.Prelude.{◌≡◌, ◌==◌, ◌&&◌, nat_lt};
ghost use Rattle.keycard_rules.specs.declared.note.Act.TheVariants as act;
ghost use Rattle.hotel_model.specs.{Refinement.Answered.IsOutcome, Refinement.NotesOnRows.IsUntaken};
ghost use Rattle.hotel_model.specs.{Refinement.OnRows.told_on};
ghost use Rattle.hotel_books.specs.Refinement.Finds.{reply_of};
ghost use Rattle.hotel_core.specs.Refinement.StepOnRows.{StepsWithoutWords};

use crate::commands::changes::make;
use crate::commands::lock_codes::awaited_place;
use crate::commands::room_cards::code_in;
use hotel_books::Books;
use hotel_model::{Change, CodeRow, InsideMove, Refusal, Reply, RoomRow};
use keycard_rules::{Code, LockNote, RoomNo};

/// Whether a code that stands here comes after the one that the room's lock holds.
fn is_awaited(awaited: &CodeRow, room: RoomNo, row: &RoomRow) -> bool
    ensures { result ≡ (awaited.now.room == room) && nat_lt row.now.lock_place awaited.now.place }
{
    awaited.room == room && row.lock_place < awaited.place
}

/// Takes the next note of a room: its lock was recoded.
pub(crate) fn recode<B: Books>(
    books: &mut B,
    note: &LockNote,
    row: &RoomRow,
    from: Code,
    to: Code,
) -> Result<Reply, Refusal>
    requires untaken { B.is_clean books.old → IsUntaken note.now row.now (B.rows books.old) }
    requires outcome { B.is_clean books.old → IsOutcome (B.rows books.old)
        (told_on (B.rows books.old) note.now (act.Recoded from to)) }
    ensures { StepsWithoutWords B.Kept B.Books.own (λ rows. told_on rows note.now (act.Recoded from to))
        books.old books.new (reply_of result) }
{
    let room = note.room;
    let held = code_in(books, room, row.lock_place)?;
    if held != from {
        return Err(Refusal::HeldDiffers);
    }
    let awaited = awaited_place(books, to)?;
    if !is_awaited(&awaited, room, row) {
        return Err(Refusal::NotAwaited);
    }
    let change = Change::Noted {
        note: *note,
        lock_place: awaited.place,
        secured: row.secured,
        insides: InsideMove::Same,
    };
    make(books, change, Reply::Taken)
}
