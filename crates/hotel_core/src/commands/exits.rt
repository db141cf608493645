//! Cards that were shown on the way out.
ghost use Rattle.keycard_rules.specs.declared.note.Act.TheVariants as act;
ghost use Rattle.hotel_model.specs.{Refinement.Answered.IsOutcome, Refinement.NotesOnRows.IsUntaken};
ghost use Rattle.hotel_model.specs.{Refinement.OnRows.told_on};
ghost use Rattle.hotel_books.specs.Refinement.Finds.{reply_of};
ghost use Rattle.hotel_core.specs.Refinement.StepOnRows.{StepsWithoutWords};

use crate::commands::changes::make;
use crate::commands::lock_codes::{is_inside, noted_card};
use hotel_books::Books;
use hotel_model::{Change, InsideMove, Refusal, Reply, RoomRow};
use keycard_rules::{CardNo, Link, LockNote};

/// Takes the next note of a room: a card left.
pub(crate) fn leave<B: Books>(
    books: &mut B,
    note: &LockNote,
    row: &RoomRow,
    number: CardNo,
    link: &Link,
) -> Result<Reply, Refusal>
    requires untaken { B.is_clean books.old → IsUntaken note.now row.now (B.rows books.old) }
    requires outcome { B.is_clean books.old → IsOutcome (B.rows books.old)
        (told_on (B.rows books.old) note.now (act.Left number link.now)) }
    ensures { StepsWithoutWords B.Kept B.Books.own (λ rows. told_on rows note.now (act.Left number link.now))
        books.old books.new (reply_of result) }
{
    noted_card(books, number, link)?;
    if !is_inside(books, note.room, number)? {
        return Err(Refusal::NotInside);
    }
    let change = Change::Noted {
        note: *note,
        lock_place: row.lock_place,
        secured: row.secured,
        insides: InsideMove::Goes(number),
    };
    make(books, change, Reply::Taken)
}
