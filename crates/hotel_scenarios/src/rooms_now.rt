//! What the books say of room 101, and what an audit file's lines are answered.
use crate::desks::room;
use hotel_audit::{LineAnswer, answer_text, import};
use hotel_core::{Books, FitRow, RoomRow, Walks};
use hotel_nights::Stay;
use keycard_rules::{Card, CardNo, Code, Count, FitNo, LockNote, PartyNo, RoomNo};
use std::alloc::Global;
use std::test::Fail;

/// What the books say of room 101, of the stays of its kind and of all cards.
#[derive(Drop, PartialEq)]
pub struct RoomNow {
    pub lock_place: u32,
    pub secured: bool,
    pub party: Option<PartyNo>,
    pub codes: Vec<Code>,
    pub inside: Vec<CardNo>,
    pub fits: Vec<FitRow>,
    pub notes: Vec<LockNote>,
    pub stays: Vec<Stay>,
    pub cards: Vec<Card>,
}

/// The room's first codes, so many.
fn codes_of<B: Books>(
    alloc: Global,
    books: &mut B,
    room: RoomNo,
    most: u32,
) -> Result<Vec<Code>, Fail> {
    let mut codes = Vec::new(alloc);
    for place in 0..most {
        codes.push(books.code_at(room, place)?.ok_or("no code")?)?;
    }
    Ok(codes)
}

/// The room's locks up to this one.
fn fits_of<B: Books>(
    alloc: Global,
    books: &mut B,
    room: RoomNo,
    last: FitNo,
) -> Result<Vec<FitRow>, Fail> {
    let mut fits = Vec::new(alloc);
    for number in 1..=last.value() {
        let fit = FitNo::new(number).ok_or("no lock")?;
        fits.push(books.fit(room, fit)?.ok_or("no fit")?)?;
    }
    Ok(fits)
}

/// Appends the first notes of a lock, so many.
fn push_notes<B: Books>(
    books: &mut B,
    lock: &FitRow,
    most: u32,
    notes: &mut Vec<LockNote>,
) -> Result<(), Fail> {
    for earlier in 0..most {
        let count = Count::new(earlier.saturating_add(1)).ok_or("no count")?;
        notes.push(books.note(lock.room, lock.fit, count)?.ok_or("no note")?)?;
    }
    Ok(())
}

/// The notes of these locks, which are so many.
fn notes_of<B: Books>(
    alloc: Global,
    books: &mut B,
    fits: &[FitRow],
    all: u32,
) -> Result<Vec<LockNote>, Fail> {
    let mut notes = Vec::new(alloc);
    for (at, lock) in fits.iter().enumerate() {
        let end = match fits.get(at.saturating_add(1)) {
            Some(next) => next.before,
            None => all,
        };
        push_notes(books, lock, end.saturating_sub(lock.before), &mut notes)?;
    }
    Ok(notes)
}

/// All cards, which are fewer than there are numbers.
fn all_cards<B: Books>(alloc: Global, books: &mut B) -> Result<Vec<Card>, Fail> {
    let next = books.next_numbers()?.card.ok_or("no number")?;
    let mut cards = Vec::new(alloc);
    for number in 1..next.value() {
        let number = CardNo::new(number).ok_or("no card number")?;
        cards.push(books.card(number)?.ok_or("no card")?)?;
    }
    Ok(cards)
}

/// How many notes of room 101 the books have.
pub fn note_count<B: Books>(books: &mut B) -> Result<u32, Fail> {
    let room = room(101)?;
    let row = books.room(room)?.ok_or("no row")?;
    Ok(row.notes)
}

impl RoomNow {
    /// What these books say of the room with this row.
    fn of_row<B: Books>(alloc: Global, books: &mut B, row: &RoomRow) -> Result<RoomNow, Fail> {
        let codes = codes_of(alloc, books, row.room, row.codes)?;
        let fits = fits_of(alloc, books, row.room, row.fit)?;
        let notes = notes_of(alloc, books, fits.as_slice(), row.notes)?;
        let inside = books.inside(row.room)?;
        let stays = books.stays_of_kind(&row.kind)?;
        let cards = all_cards(alloc, books)?;
        Ok(RoomNow {
            lock_place: row.lock_place,
            secured: row.secured,
            party: row.party,
            codes,
            inside,
            fits,
            notes,
            stays,
            cards,
        })
    }

    /// What these books say; nothing where the room isn't there.
    pub fn of<B: Books>(alloc: Global, books: &mut B) -> Result<Option<RoomNow>, Fail> {
        match books.room(room(101)?)? {
            Some(row) => Ok(Some(RoomNow::of_row(alloc, books, &row)?)),
            None => Ok(None),
        }
    }
}

/// The texts of answers, numbered from 1.
fn answer_texts(alloc: Global, answers: &[LineAnswer]) -> Result<Vec<u8>, Fail> {
    let mut texts = Vec::new(alloc);
    let mut number = 0usize;
    for answer in answers {
        number = number.saturating_add(1);
        texts.extend_from_slice(answer_text(number, answer).as_bytes())?;
    }
    Ok(texts)
}

/// The texts of the answers to a file's lines.
pub fn answers_to<B: Walks>(alloc: Global, books: &mut B, bytes: &[u8]) -> Result<Vec<u8>, Fail> {
    let Ok(answers) = import(alloc, books, bytes) else {
        return Err(Fail::from("stopped"));
    };
    answer_texts(alloc, answers.as_slice())
}
