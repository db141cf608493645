//! The rows of scenario `two-entries`, by each look-up of books of any kind.
use crate::values::{
    card_number, code, count, day, entered, first_card, fit, guest, kind, party, room,
};
use hotel_core::{Books, FitRow, NextNumbers, RoomRow};
use hotel_nights::{Stay, StayState};
use keycard_rules::LookFault;
use std::alloc::Global;
use std::process::Abort;
use std::test::Fail;

fn room_row() -> Result<RoomRow, Fail> {
    Ok(RoomRow {
        room: room(101)?,
        kind: kind(b"DBL")?,
        lock_place: 1,
        codes: 2,
        secured: true,
        party: Some(party(1)?),
        notes: 2,
        fit: fit(1)?,
        before: 0,
    })
}

fn first_stay(alloc: Global) -> Result<Stay, Fail> {
    Ok(Stay {
        party: party(1)?,
        guest: guest(alloc, "Ann Lee")?,
        kind: kind(b"DBL")?,
        arrive: day(b"2031-05-01")?,
        depart: day(b"2031-05-03")?,
        state: StayState::InHouse(room(101)?),
    })
}

fn days_and_kinds<B: Books>(rt: &impl Abort, books: &mut B) -> Result<(), Fail> {
    assert!(rt; books.day() == Ok(Some(day(b"2031-05-01")?)));
    assert!(rt; books.kind(&kind(b"DBL")?) == Ok(true));
    assert!(rt; books.kind(&kind(b"SGL")?) == Ok(false));
    assert!(rt; books.rooms_of_kind(&kind(b"DBL")?) == Ok(1));
    Ok(())
}

/// The one room is taken on the first two nights.
fn full_nights<B: Books>(rt: &impl Abort, books: &mut B) -> Result<(), Fail> {
    let dbl = kind(b"DBL")?;
    let first = day(b"2031-05-01")?;
    let second = day(b"2031-05-02")?;
    let third = day(b"2031-05-03")?;
    assert!(rt; books.full_night(&dbl, first, third) == Ok(Some(first)));
    assert!(rt; books.full_night(&dbl, second, third) == Ok(Some(second)));
    assert!(rt; books.full_night(&dbl, third, day(b"2031-05-05")?) == Ok(None));
    Ok(())
}

fn rooms<B: Books>(rt: &impl Abort, books: &mut B) -> Result<(), Fail> {
    assert!(rt; books.room(room(101)?) == Ok(Some(room_row()?)));
    assert!(rt; books.room(room(102)?) == Ok(None));
    let first = FitRow {
        room: room(101)?,
        fit: fit(1)?,
        place: 0,
        before: 0,
    };
    assert!(rt; books.fit(room(101)?, fit(1)?) == Ok(Some(first)));
    assert!(rt; books.fit(room(101)?, fit(2)?) == Ok(None));
    Ok(())
}

fn codes<B: Books>(rt: &impl Abort, books: &mut B) -> Result<(), Fail> {
    assert!(rt; books.code_place(code(0xa0)?) == Ok(Some((room(101)?, 0))));
    assert!(rt; books.code_place(code(0xa1)?) == Ok(Some((room(101)?, 1))));
    assert!(rt; books.code_place(code(0xa2)?) == Ok(None));
    assert!(rt; books.code_at(room(101)?, 1) == Ok(Some(code(0xa1)?)));
    assert!(rt; books.code_at(room(101)?, 2) == Ok(None));
    Ok(())
}

fn issued<B: Books>(rt: &impl Abort, books: &mut B) -> Result<(), Fail> {
    assert!(rt; books.is_issued(code(0xa1)?) == Ok(true));
    assert!(rt; books.is_issued(code(0xa2)?) == Ok(false));
    Ok(())
}

fn stays<B: Books>(rt: &(impl Abort + AllocGlobal), books: &mut B) -> Result<(), Fail> {
    let stay = first_stay(rt.alloc())?;
    assert!(rt; books.stay(party(1)?)?.as_ref() == Some(&stay));
    assert!(rt; books.stay(party(2)?)?.is_none());
    let of_kind = books.stays_of_kind(&kind(b"DBL")?)?;
    assert!(rt; of_kind.as_slice() == [stay].as_slice());
    Ok(())
}

fn cards<B: Books>(rt: &impl Abort, books: &mut B) -> Result<(), Fail> {
    assert!(rt; books.card(card_number(1)?) == Ok(Some(first_card()?)));
    assert!(rt; books.card(card_number(2)?) == Ok(None));
    let next = NextNumbers {
        party: Some(party(2)?),
        card: Some(card_number(2)?),
    };
    assert!(rt; books.next_numbers() == Ok(next));
    Ok(())
}

fn inside<B: Books>(rt: &impl Abort, books: &mut B) -> Result<(), Fail> {
    let room = room(101)?;
    let card = card_number(1)?;
    let all = books.inside(room)?;
    assert!(rt; all.as_slice() == [card].as_slice());
    assert!(rt; books.is_inside(room, card) == Ok(true));
    assert!(rt; books.is_inside(room, card_number(2)?) == Ok(false));
    assert!(rt; books.has_inside(room) == Ok(true));
    Ok(())
}

fn notes<B: Books>(rt: &impl Abort, books: &mut B) -> Result<(), Fail> {
    let second: Result<_, LookFault> = books.note(room(101)?, fit(1)?, count(2)?);
    assert!(rt; second == Ok(Some(entered(2)?)));
    assert!(rt; books.note(room(101)?, fit(1)?, count(3)?) == Ok(None));
    Ok(())
}

/// Each look-up finds what the scenario left, and nothing else.
pub(crate) fn rows_are_found<B: Books>(
    rt: &(impl Abort + AllocGlobal),
    books: &mut B,
) -> Result<(), Fail> {
    days_and_kinds(rt, books)?;
    full_nights(rt, books)?;
    rooms(rt, books)?;
    codes(rt, books)?;
    issued(rt, books)?;
    stays(rt, books)?;
    cards(rt, books)?;
    inside(rt, books)?;
    notes(rt, books)
}
