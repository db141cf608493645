//! Values, made by the readers of their types.
use hotel_nights::{Day, Guest, KindCode, Nights};
use keycard_rules::{Act, Card, CardNo, Code, Count, FitNo, Link, LockNote, PartyNo, RoomNo};
use std::alloc::Global;
use std::test::Fail;

pub(crate) fn room(number: u32) -> Result<RoomNo, Fail> {
    Ok(RoomNo::new(number).ok_or("a room")?)
}

pub(crate) fn party(number: u32) -> Result<PartyNo, Fail> {
    Ok(PartyNo::new(number).ok_or("a party")?)
}

pub(crate) fn card_number(number: u32) -> Result<CardNo, Fail> {
    Ok(CardNo::new(number).ok_or("a card")?)
}

pub(crate) fn fit(number: u32) -> Result<FitNo, Fail> {
    Ok(FitNo::new(number).ok_or("a fit")?)
}

pub(crate) fn count(number: u32) -> Result<Count, Fail> {
    Ok(Count::new(number).ok_or("a count")?)
}

pub(crate) fn code(value: u64) -> Result<Code, Fail> {
    Ok(Code::new(value).ok_or("a code")?)
}

pub(crate) fn day(text: &[u8]) -> Result<Day, Fail> {
    Ok(Day::read(text).ok_or("a day")?)
}

pub(crate) fn nights(number: u8) -> Result<Nights, Fail> {
    Ok(Nights::new(number).ok_or("nights")?)
}

pub(crate) fn kind(text: &[u8]) -> Result<KindCode, Fail> {
    Ok(KindCode::read(text).ok_or("a kind")?)
}

pub(crate) fn guest(alloc: Global, text: &str) -> Result<Guest, Fail> {
    Ok(Guest::read(alloc, text)?)
}

pub(crate) fn link(old_code: u64, new_code: u64) -> Result<Link, Fail> {
    Ok(Link {
        old_code: code(old_code)?,
        new_code: code(new_code)?,
    })
}

/// The first card of party 1, whose link is (a0, a1).
pub(crate) fn first_card() -> Result<Card, Fail> {
    Ok(Card {
        number: card_number(1)?,
        party: party(1)?,
        link: link(0xa0, 0xa1)?,
    })
}

/// A note of room 101 and its first lock, at 15:00:00 on 2031-05-01.
pub(crate) fn note(number: u32, act: Act) -> Result<LockNote, Fail> {
    let day = day(b"2031-05-01")?;
    let noted = LockNote::new(
        room(101)?,
        fit(1)?,
        count(number)?,
        act,
        day.number(),
        54_000,
    );
    Ok(noted.ok_or("a note")?)
}

/// The note of an entry with the first card.
pub(crate) fn entered(number: u32) -> Result<LockNote, Fail> {
    let card = card_number(1)?;
    let link = link(0xa0, 0xa1)?;
    note(number, Act::Entered { card, link })
}
