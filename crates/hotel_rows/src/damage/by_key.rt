//! Rows found by their keys.
ghost use Rattle.std.specs.Prelude.{◌≡◌, Bool, true, IfOk, IfSome, map, option_map};
ghost use Rattle.std.specs.List.{list_all};
ghost use Rattle.std.specs.Option.{option_copied};
ghost use Rattle.hotel_model.specs.Rows.{at_number};
ghost use Rattle.hotel_rows.specs.Stored.{number_of, fits_of, rows_of, joined_row};
ghost use Rattle.hotel_rows.specs.Stored.{stay_row, code_row, card_row, inside_pair};
ghost use Rattle.hotel_rows.specs.Keys.{IndexesFirst, room_key, stay_key, code_key, card_key, note_key, fit_key};
ghost use Rattle.hotel_rows.specs.Places.{AreOf, Indexes, counted_place, place_at};
ghost use Rattle.hotel_rows.specs.declared.stored.PlainRoom.{PlainRoom};

use crate::damage::numbers;
use crate::stored::{
    PlainCard, PlainCode, PlainFit, PlainInside, PlainNote, PlainRoom, PlainStay, Stored,
};
use keycard_rules::Memory;
use std::alloc::Global;
use std::collections::BTreeMap;

/// The room and the number of a card that is inside.
pub(crate) type InsideKey = (u64, u64);

/// The room of a note, and its number among all notes of the room.
pub(crate) type NoteKey = (u64, u64);

/// The room and the number of a fit.
pub(crate) type FitKey = (u64, u64);

/// Where each key stands first.
pub(crate) fn index_of(alloc: Global, keys: &[u64]) -> Result<BTreeMap<u64, usize>, Memory>
    ensures { IfOk result (λ places. IndexesFirst places.entries keys.now) }
{
    let mut places = BTreeMap::new(alloc);
    for i in 0..keys.len() {
        if places.contains_key(&keys[i]) {
            continue;
        }
        let Ok(_) = places.insert(keys[i], i) else {
            return Err(Memory);
        };
    }
    Ok(places)
}

/// The numbers of the rooms.
pub(crate) fn room_keys(alloc: Global, rooms: &[PlainRoom]) -> Result<Vec<u64>, Memory>
    ensures { IfOk result (λ keys. keys.items ≡ map room_key rooms.now) }
{
    match rooms
        .iter()
        .map(|plain| numbers::number(plain.room))
        .collect(alloc)
    {
        Ok(keys) => Ok(keys),
        Err(_) => Err(Memory),
    }
}

/// The parties of the stays.
pub(crate) fn stay_keys(alloc: Global, stays: &[PlainStay]) -> Result<Vec<u64>, Memory>
    ensures { IfOk result (λ keys. keys.items ≡ map stay_key stays.now) }
{
    match stays
        .iter()
        .map(|plain| numbers::number(plain.party))
        .collect(alloc)
    {
        Ok(keys) => Ok(keys),
        Err(_) => Err(Memory),
    }
}

/// The codes.
pub(crate) fn code_keys(alloc: Global, codes: &[PlainCode]) -> Result<Vec<u64>, Memory>
    ensures { IfOk result (λ keys. keys.items ≡ map code_key codes.now) }
{
    match codes
        .iter()
        .map(|plain| numbers::number(plain.code))
        .collect(alloc)
    {
        Ok(keys) => Ok(keys),
        Err(_) => Err(Memory),
    }
}

/// The numbers of the cards.
pub(crate) fn card_keys(alloc: Global, cards: &[PlainCard]) -> Result<Vec<u64>, Memory>
    ensures { IfOk result (λ keys. keys.items ≡ map card_key cards.now) }
{
    match cards
        .iter()
        .map(|plain| numbers::number(plain.number))
        .collect(alloc)
    {
        Ok(keys) => Ok(keys),
        Err(_) => Err(Memory),
    }
}

/// The rooms and cards of what is inside.
pub(crate) fn inside_keys(alloc: Global, inside: &[PlainInside]) -> Result<Vec<InsideKey>, Memory>
    ensures { IfOk result (λ keys. keys.items ≡ map inside_pair inside.now) }
{
    match inside
        .iter()
        .map(|plain| (numbers::number(plain.room), numbers::number(plain.card)))
        .collect(alloc)
    {
        Ok(keys) => Ok(keys),
        Err(_) => Err(Memory),
    }
}

/// The rooms and numbers of the notes.
pub(crate) fn note_keys(alloc: Global, notes: &[PlainNote]) -> Result<Vec<NoteKey>, Memory>
    ensures { IfOk result (λ keys. keys.items ≡ map note_key notes.now) }
{
    match notes
        .iter()
        .map(|plain| (numbers::number(plain.room), numbers::number(plain.n)))
        .collect(alloc)
    {
        Ok(keys) => Ok(keys),
        Err(_) => Err(Memory),
    }
}

/// The rooms and numbers of the fits.
pub(crate) fn fit_keys(alloc: Global, fits: &[PlainFit]) -> Result<Vec<FitKey>, Memory>
    ensures { IfOk result (λ keys. keys.items ≡ map fit_key fits.now) }
{
    match fits
        .iter()
        .map(|plain| (numbers::number(plain.room), numbers::number(plain.fit)))
        .collect(alloc)
    {
        Ok(keys) => Ok(keys),
        Err(_) => Err(Memory),
    }
}

/// Where each key of a table stands first.
#[derive(Drop)]
pub(crate) enum Index {
    /// The keys are 1 and on, so many, in order.
    Counted(usize),
    Listed(BTreeMap<u64, usize>),
}

/// Where each key of a table stands first. Keys that count up from 1 need no map.
fn table_index(alloc: Global, keys: &[u64]) -> Result<Index, Memory>
    ensures { IfOk result (λ index. Indexes index keys.now) }
{
    if numbers::count_from_one(keys) {
        return Ok(Index::Counted(keys.len()));
    }
    let places = index_of(alloc, keys)?;
    Ok(Index::Listed(places))
}

/// Where the rows with a number for a key stand.
#[derive(Drop)]
pub(crate) struct Places {
    rooms: Index,
    stays: Index,
    codes: Index,
    cards: Index,
}

/// Where the stored rows stand.
pub(crate) fn places_of(alloc: Global, stored: &Stored) -> Result<Places, Memory>
    ensures { IfOk result (λ places. AreOf places stored.now) }
{
    let room_keys = room_keys(alloc, &stored.room)?;
    let rooms = table_index(alloc, &room_keys)?;
    let stay_keys = stay_keys(alloc, &stored.stay)?;
    let stays = table_index(alloc, &stay_keys)?;
    let code_keys = code_keys(alloc, &stored.code)?;
    let codes = table_index(alloc, &code_keys)?;
    let card_keys = card_keys(alloc, &stored.card)?;
    let cards = table_index(alloc, &card_keys)?;
    Ok(Places {
        rooms,
        stays,
        codes,
        cards,
    })
}

/// Where a key stands among 1 and on, so many.
fn counted_place(len: usize, key: u64) -> Option<usize>
    ensures { result ≡ counted_place len key }
{
    if key < 1 || key > len as u64 {
        return None;
    }
    Some((key - 1) as usize)
}

fn place_at(index: &Index, key: u64) -> Option<usize>
    ensures { result ≡ place_at index.now key }
{
    match index {
        Index::Counted(len) => counted_place(*len, key),
        Index::Listed(places) => places.get(&key).copied(),
    }
}

/// The room of a number.
pub(crate) fn room_at<'a>(places: &Places, stored: &'a Stored, room: u64) -> Option<&'a PlainRoom>
    requires { AreOf places.now stored.now }
    ensures row { option_map (joined_row (fits_of stored.now)) (option_copied result)
        ≡ at_number (rows_of stored.now).rooms room }
    ensures key { IfSome result (λ plain. number_of plain.now.room ≡ room) }
    ensures rules { IfSome result (λ plain. (t : PlainRoom → Bool) → list_all t stored.now.room.items ≡ true
        → t plain.now ≡ true) }
{
    let Some(place) = place_at(&places.rooms, room) else {
        return None;
    };
    if place >= stored.room.len() {
        return None;
    }
    Some(&stored.room[place])
}

/// The stay of a party.
pub(crate) fn stay_at<'a>(places: &Places, stored: &'a Stored, party: u64) -> Option<&'a PlainStay>
    requires { AreOf places.now stored.now }
    ensures { option_map stay_row (option_copied result) ≡ at_number (rows_of stored.now).stays party }
{
    let Some(place) = place_at(&places.stays, party) else {
        return None;
    };
    if place >= stored.stay.len() {
        return None;
    }
    Some(&stored.stay[place])
}

/// The row of a code.
pub(crate) fn code_at(places: &Places, stored: &Stored, code: u64) -> Option<PlainCode>
    requires { AreOf places.now stored.now }
    ensures { option_map code_row result ≡ at_number (rows_of stored.now).codes code }
{
    let Some(place) = place_at(&places.codes, code) else {
        return None;
    };
    if place >= stored.code.len() {
        return None;
    }
    Some(stored.code[place])
}

/// The card of a number.
pub(crate) fn card_at(places: &Places, stored: &Stored, number: u64) -> Option<PlainCard>
    requires { AreOf places.now stored.now }
    ensures { option_map card_row result ≡ at_number (rows_of stored.now).cards number }
{
    let Some(place) = place_at(&places.cards, number) else {
        return None;
    };
    if place >= stored.card.len() {
        return None;
    }
    Some(stored.card[place])
}
