//! Look-ups that no command makes: those that answer several rows, the number of a kind's rooms, and a room's locks
//! with the notes of each.
use crate::desks::{Desk, room};
use crate::replaced_locks::REPLACED_LOCK;
use crate::scenarios::{CHECKED_IN, OPENED, SPARE_KEEPS_ROOM_OPEN};
use hotel_core::{Books, FitRow};
use hotel_nights::{Day, Guest, KindCode, Stay, StayState};
use keycard_rules::{Act, CardNo, Code, Count, FitNo, Link, LockNote, PartyNo};
use std::alloc::Global;
use std::test::Fail;

fn kind(text: &[u8]) -> Result<KindCode, Fail> {
    Ok(KindCode::read(text).ok_or("a kind")?)
}

/// A stay of the scenario: each one is of the kind DBL, and from the first day on for two nights.
fn stay_of(alloc: Global, party: u32, guest: &str, state: StayState) -> Result<Stay, Fail> {
    Ok(Stay {
        party: PartyNo::new(party).ok_or("a party")?,
        guest: Guest::read(alloc, guest)?,
        kind: kind(b"DBL")?,
        arrive: Day::read(b"2031-05-01").ok_or("a day")?,
        depart: Day::read(b"2031-05-03").ok_or("a day")?,
        state,
    })
}

/// Whether the stays of each kind are found: Ann Lee's, who is gone, and Bo's in room 101; of the other kind none.
fn stays_are_found<B: Books>(alloc: Global, books: &mut B) -> Result<bool, Fail> {
    let ann = stay_of(alloc, 1, "Ann Lee", StayState::Done)?;
    let bo = stay_of(alloc, 2, "Bo", StayState::InHouse(room(101)?))?;
    let found = books.stays_of_kind(&kind(b"DBL")?)?;
    let others = books.stays_of_kind(&kind(b"SGL")?)?;
    Ok(found.as_slice() == [ann, bo].as_slice() && others.is_empty())
}

/// Whether the cards inside each room are found: the spare card and Bo's in room 101; none in room 102.
fn insides_are_found<B: Books>(books: &mut B) -> Result<bool, Fail> {
    let spare = CardNo::new(2).ok_or("a card")?;
    let of_bo = CardNo::new(3).ok_or("a card")?;
    let found = books.inside(room(101)?)?;
    let others = books.inside(room(102)?)?;
    Ok(found.as_slice() == [spare, of_bo].as_slice() && others.is_empty())
}

/// Whether the rooms of each kind are counted: one of the kind DBL; of a kind that isn't there none.
fn rooms_are_counted<B: Books>(books: &mut B) -> Result<bool, Fail> {
    let found = books.rooms_of_kind(&kind(b"DBL")?)?;
    let others = books.rooms_of_kind(&kind(b"TWN")?)?;
    Ok(found == 1 && others == 0)
}

/// Over these empty books, scenario `spare-keeps-room-open` up to the second guest's entry: whether the stays of a kind
/// and the cards inside a room are found as it says, where another kind and another room have none; and whether the
/// rooms of a kind are counted.
pub fn many_rows_are_found<B: Books + Drop>(alloc: Global, books: B) -> Result<bool, Fail> {
    let entered = SPARE_KEEPS_ROOM_OPEN.get(..8).ok_or("eight steps")?;
    let mut desk = Desk::over(alloc, books, &[0xa0, 0xa1, 0xa2, 0xb0])?;
    desk.goes_through(&[OPENED, CHECKED_IN, entered])?;
    desk.do_lines(&[b"add-kind SGL", b"add-room 102 SGL"])?;
    let are_counted = rooms_are_counted(&mut desk.books)?;
    let are_found = stays_are_found(alloc, &mut desk.books)? && insides_are_found(&mut desk.books)?;
    Ok(are_counted && are_found)
}

fn fit(number: u32) -> Result<FitNo, Fail> {
    Ok(FitNo::new(number).ok_or("a fit")?)
}

/// The lock of a room of this number.
fn lock<B: Books>(books: &mut B, its_room: u32, number: u32) -> Result<Option<FitRow>, Fail> {
    Ok(books.fit(room(its_room)?, fit(number)?)?)
}

/// The note of this count of a lock of a room.
fn note<B: Books>(
    books: &mut B,
    its_room: u32,
    number: u32,
    count: u32,
) -> Result<Option<LockNote>, Fail> {
    let count = Count::new(count).ok_or("a count")?;
    Ok(books.note(room(its_room)?, fit(number)?, count)?)
}

/// The lock of room 101 of this number, whose first code stands at this place, behind so many notes.
fn lock_of(number: u32, place: u32, before: u32) -> Result<FitRow, Fail> {
    Ok(FitRow {
        room: room(101)?,
        fit: fit(number)?,
        place,
        before,
    })
}

/// The first note of a lock of room 101: the entry of this card, whose codes are these, on 2031-05-01 at 15:00:00.
fn entry_of(number: u32, card: u32, old_code: u64, new_code: u64) -> Result<LockNote, Fail> {
    let link = Link {
        old_code: Code::new(old_code).ok_or("a code")?,
        new_code: Code::new(new_code).ok_or("a code")?,
    };
    let card = CardNo::new(card).ok_or("a card")?;
    let count = Count::new(1).ok_or("a count")?;
    let act = Act::Entered { card, link };
    let entry = LockNote::new(room(101)?, fit(number)?, count, act, 11_443, 54_000);
    Ok(entry.ok_or("a note")?)
}

/// Whether each lock of room 101 is found, and no other.
fn locks_are_found<B: Books>(books: &mut B) -> Result<bool, Fail> {
    let are_found = lock(books, 101, 1)? == Some(lock_of(1, 0, 0)?)
        && lock(books, 101, 2)? == Some(lock_of(2, 2, 1)?);
    let others = [
        lock(books, 101, 3)?,
        lock(books, 101, 99)?,
        lock(books, 102, 1)?,
    ];
    Ok(are_found && others == [None; 3])
}

/// Whether the one note of each lock of room 101 is found, and no other.
fn notes_are_found<B: Books>(books: &mut B) -> Result<bool, Fail> {
    let are_found = note(books, 101, 1, 1)? == Some(entry_of(1, 1, 0xa0, 0xa1)?)
        && note(books, 101, 2, 1)? == Some(entry_of(2, 2, 0xa2, 0xa3)?);
    let others = [
        note(books, 101, 1, 2)?,
        note(books, 101, 2, 2)?,
        note(books, 101, 3, 1)?,
        note(books, 101, 1, 9_999_999)?,
        note(books, 102, 1, 1)?,
    ];
    Ok(are_found && others == [None; 5])
}

/// Over these empty books, scenario `replaced-lock`: whether each lock of the room is found, with its first code's
/// place and the number of notes before it, and so is each note by its lock and count; and what the room's row says of
/// them.
pub fn locks_and_notes_are_found<B: Books + Drop>(alloc: Global, books: B) -> Result<bool, Fail> {
    let mut desk = Desk::over(alloc, books, &[0xa0, 0xa1, 0xa2, 0xa3])?;
    desk.goes_through(&[OPENED, CHECKED_IN, REPLACED_LOCK])?;
    let row = desk.books.room(room(101)?)?.ok_or("no row")?;
    let is_last = row.fit == fit(2)? && row.before == 1 && row.notes == 2;
    let are_found = locks_are_found(&mut desk.books)? && notes_are_found(&mut desk.books)?;
    Ok(is_last && are_found)
}
