//! Cards that open a door from outside.
ghost use Rattle.std.specs.Prelude.{◌≡◌, ◌+◌, true, is_some, Some};
ghost use Rattle.keycard_rules.specs.Lock.{turn};
ghost use Rattle.keycard_rules.specs.declared.note.Act.TheVariants as act;
ghost use Rattle.hotel_model.specs.{Refinement.Answered.IsOutcome, Refinement.Lookups.inside_at};
ghost use Rattle.hotel_books.specs.Refinement.Finds.{Finds, AnyRows, reply_of};
ghost use Rattle.hotel_model.specs.{Guests.are_none, declared.reply.Refusal.TheVariants.Store};
ghost use Rattle.hotel_model.specs.{Refinement.NotesOnRows.IsUntaken, Refinement.OnRows.opened_on};
ghost use Rattle.hotel_model.specs.{Refinement.NotesOnRows.secured_by, Refinement.ChangeOf.comes};
ghost use Rattle.hotel_model.specs.{Refinement.OnRows.told_on, Refinement.OnRows.has_link_on};
ghost use Rattle.hotel_core.specs.Refinement.StepOnRows.{StepsWithoutWords};

use crate::commands::changes::make;
use crate::commands::lock_codes::{has_inside, is_inside, issued_place, noted_card};
use crate::commands::room_cards::code_in;
use hotel_books::Books;
use hotel_model::{Change, InsideMove, Refusal, Reply, RoomRow};
use keycard_rules::{CardNo, Code, Link, LockNote, RoomNo, turn};

/// Whether a lock that holds a code opens to a card of the link.
fn opens(held: Code, link: &Link) -> bool
    ensures { result ≡ is_some (turn held link.now) }
{
    turn(held, link).is_some()
}

/// Whether a room is secured after an entry by the code at a place. The cards inside are asked for only where they
/// decide it.
fn secured_after<B: Books>(
    books: &mut B,
    room: RoomNo,
    row: &RoomRow,
    place: u32,
) -> Result<bool, Refusal>
    requires vouched { B.is_honest books.old → B.is_clean books.old }
    ensures { Finds B.Kept B.Books.own AnyRows Store (λ rows. Some
        (secured_by row.now place (are_none (inside_at rows room)))) books.old books.new result }
{
    let is_current = u64::from(place) + 1 == u64::from(row.codes);
    if row.secured || !is_current {
        return Ok(row.secured);
    }
    let has_inside = has_inside(books, room)?;
    Ok(!has_inside)
}

/// How a card comes in.
fn comes(number: CardNo, is_inside: bool) -> InsideMove
    ensures { result ≡ comes is_inside number }
{
    if is_inside {
        InsideMove::Same
    } else {
        InsideMove::Comes(number)
    }
}

/// Takes the note of a card whose link opens the lock.
fn open<B: Books>(
    books: &mut B,
    note: &LockNote,
    row: &RoomRow,
    number: CardNo,
    link: &Link,
) -> Result<Reply, Refusal>
    requires known { B.is_clean books.old → IsUntaken note.now row.now (B.rows books.old)
        × (has_link_on (B.rows books.old) number link.now ≡ true) }
    requires outcome { B.is_clean books.old → IsOutcome (B.rows books.old)
        (opened_on (B.rows books.old) note.now number link.now) }
    ensures { StepsWithoutWords B.Kept B.Books.own (λ rows. opened_on rows note.now number link.now)
        books.old books.new (reply_of result) }
{
    let lock_place = issued_place(books, link.new_code)?.place;
    let secured = secured_after(books, note.room, row, lock_place)?;
    let is_inside = is_inside(books, note.room, number)?;
    let insides = comes(number, is_inside);
    let note = *note;
    make(
        books,
        Change::Noted {
            note,
            lock_place,
            secured,
            insides,
        },
        Reply::Taken,
    )
}

/// Takes the next note of a room: a card entered.
pub(crate) fn enter<B: Books>(
    books: &mut B,
    note: &LockNote,
    row: &RoomRow,
    number: CardNo,
    link: &Link,
) -> Result<Reply, Refusal>
    requires untaken { B.is_clean books.old → IsUntaken note.now row.now (B.rows books.old) }
    requires outcome { B.is_clean books.old → IsOutcome (B.rows books.old)
        (told_on (B.rows books.old) note.now (act.Entered number link.now)) }
    ensures { StepsWithoutWords B.Kept B.Books.own (λ rows. told_on rows note.now (act.Entered number link.now))
        books.old books.new (reply_of result) }
{
    noted_card(books, number, link)?;
    let held = code_in(books, note.room, row.lock_place)?;
    if !opens(held, link) {
        return Err(Refusal::LockShut);
    }
    open(books, note, row, number, link)
}
