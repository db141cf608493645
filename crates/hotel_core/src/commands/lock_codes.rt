//! What a note of a lock is compared with in the books.
ghost use Rattle.std.specs.Prelude.{◌≡◌, ◌-◌, ◌==◌, ◌&&◌, nat_lt, Option, Some, None, IsSome, not, is_some, [], ◌∷◌};
ghost use Rattle.std.specs.Prelude.{false};
ghost use Rattle.hotel_books.specs.{Books.Reads.LooksUp, Refinement.Finds.Finds, Refinement.Finds.AnyRows};
ghost use Rattle.hotel_core.specs.Refinement.FindsChecked.{FindsChecked};
ghost use Rattle.hotel_model.specs.{Refinement.Lookups.room_at, Refinement.Lookups.code_place};
ghost use Rattle.hotel_model.specs.{Refinement.Lookups.inside_at, Refinement.Lookups.note_at, Guests.are_none};
ghost use Rattle.hotel_model.specs.{Cards.same_link, Refinement.Lookups.card_at, Refinement.OnRows.has_link_on};
ghost use Rattle.hotel_model.specs.{Outcome.needs, declared.reply.Refusal.TheVariants.NoCard};
ghost use Rattle.hotel_model.specs.{declared.reply.Refusal.TheVariants.CardDiffers};
ghost use Rattle.hotel_model.specs.{Words.is_one_of, declared.reply.Refusal.TheVariants.NotAwaited};
ghost use Rattle.hotel_model.specs.{declared.reply.Refusal.TheVariants.Store};

use crate::commands::look_ups::{card_there, known, there_or};
use hotel_books::Books;
use hotel_model::{CodeRow, Refusal, RoomRow};
use keycard_rules::{CardNo, Code, Link, LockNote, LookFault, RoomNo};

/// How many notes of a room's present lock were taken.
pub(crate) fn notes_of_present(row: &RoomRow) -> u32
    ensures { result ≡ row.now.notes - row.now.before }
{
    row.notes.saturating_sub(row.before)
}

/// Whether a note is of a room's present lock.
pub(crate) fn is_present(note: &LockNote, row: &RoomRow) -> bool
    ensures { result ≡ (note.now.fit == row.now.fit) }
{
    note.fit == row.fit
}

/// Whether a note comes after all that the room's row counts of its present lock.
fn is_past(note: &LockNote, row: &RoomRow) -> bool
    ensures { result ≡ (note.now.fit == row.now.fit) && nat_lt (row.now.notes - row.now.before) note.now.count }
{
    is_present(note, row) && notes_of_present(row) < note.count.value()
}

/// The note of the same room, lock and count, where one was taken; none is asked for that comes after all that the
/// room's row counts of its present lock.
pub(crate) fn kept_note<B: Books>(
    books: &mut B,
    note: &LockNote,
    row: &RoomRow,
) -> Result<Option<LockNote>, Refusal>
    requires there { B.is_clean books.old → room_at (B.rows books.old) note.now.room ≡ Some row.now }
    requires vouched { B.is_honest books.old → B.is_clean books.old }
    ensures { Finds B.Kept B.Books.own AnyRows Store (λ rows. Some
        (note_at rows note.now.room note.now.fit note.now.count)) books.old books.new result }
{
    books.known_sound();
    if is_past(note, row) {
        return Ok(None);
    }
    let kept = books.note(note.room, note.fit, note.count);
    known(kept)
}

/// Where a code stands.
fn row_of_code<B: Books>(books: &mut B, code: Code) -> Result<Option<CodeRow>, LookFault>
    ensures { LooksUp B.Kept false (λ a. a) (code_place (B.rows books.old) code) books.old books.new result }
{
    match books.code_place(code) {
        Ok(Some((room, place))) => Ok(Some(CodeRow { room, place })),
        Ok(None) => Ok(None),
        Err(fault) => Err(fault),
    }
}

/// Where a card's new code stands, which sound books have.
pub(crate) fn issued_place<B: Books>(books: &mut B, code: Code) -> Result<CodeRow, Refusal>
    ensures { Finds B.Kept B.Books.own (λ rows. IsSome (code_place rows code)) Store
        (λ rows. code_place rows code) books.old books.new result }
{
    let row = row_of_code(books, code);
    there_or(row, Refusal::Store)
}

/// Where a code stands to which a lock was recoded.
pub(crate) fn awaited_place<B: Books>(books: &mut B, code: Code) -> Result<CodeRow, Refusal>
    ensures { Finds B.Kept B.Books.own AnyRows NotAwaited (λ rows. code_place rows code) books.old books.new result }
{
    let row = row_of_code(books, code);
    there_or(row, Refusal::NotAwaited)
}

/// Whether a card is inside a room.
pub(crate) fn is_inside<B: Books>(
    books: &mut B,
    room: RoomNo,
    number: CardNo,
) -> Result<bool, Refusal>
    ensures { Finds B.Kept B.Books.own AnyRows Store (λ rows. Some (is_one_of number (inside_at rows room)))
        books.old books.new result }
{
    let answer = books.is_inside(room, number);
    known(answer)
}

/// Whether any card is inside a room.
pub(crate) fn has_inside<B: Books>(books: &mut B, room: RoomNo) -> Result<bool, Refusal>
    ensures { Finds B.Kept B.Books.own AnyRows Store (λ rows. Some (not (are_none (inside_at rows room))))
        books.old books.new result }
{
    let answer = books.has_inside(room);
    known(answer)
}

fn same_link(a: &Link, b: &Link) -> bool
    ensures { result ≡ same_link a.now b.now }
{
    a == b
}

/// The card that a note names is there, with the note's link.
pub(crate) fn noted_card<B: Books>(
    books: &mut B,
    number: CardNo,
    link: &Link,
) -> Result<(), Refusal>
    ensures { FindsChecked B.Kept B.Books.own (λ rows. needs (is_some (card_at rows number)) NoCard
        ∷ needs (has_link_on rows number link.now) CardDiffers ∷ []) books.old books.new result }
{
    let card = card_there(books, number)?;
    if !same_link(&card.link, link) {
        return Err(Refusal::CardDiffers);
    }
    Ok(())
}
