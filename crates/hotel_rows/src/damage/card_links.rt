//! The rules on links of cards: whose they are, and which are the newest of rooms.
ghost use Rattle.std.specs.Prelude.{◌≡◌, ℕ, true, IfOk, OnOk, map, ◌==◌, Some, None, is_some, if◌then◌else◌};
ghost use Rattle.std.specs.List.{list_all, list_any};
ghost use Rattle.hotel_model.specs.Rows.{at_number};
ghost use Rattle.hotel_model.specs.SoundCards.{has_newest, is_newest};
ghost use Rattle.hotel_rows.specs.Stored.{number_of, plain_fits, rows_of};
ghost use Rattle.hotel_rows.specs.LastCards.{link_of_pair, link_pair, LastsOf};
ghost use Rattle.hotel_rows.specs.LinkOwners.{OwnersOf, owner_in};
ghost use Rattle.hotel_model.specs.Words.{said_of};
ghost use Rattle.hotel_rows.specs.Keys.{IndexesFirst, new_code_of};
ghost use Rattle.hotel_rows.specs.FitRuns.{BeginsOf};
ghost use Rattle.hotel_rows.specs.Known.{IsOfRows};
ghost use Rattle.hotel_rows.specs.CodePlaces.{PlacesOf, are_due_at, placed_as_due};
ghost use Rattle.hotel_rows.specs.RowTests.{agrees, begins_one, is_brought, is_owned};
ghost use Rattle.hotel_rows.specs.RowTests.{has_owner, has_last, stay_has_home};

use crate::damage::by_key::room_at;
use crate::damage::code_places::{is_newest, newest_of};
use crate::damage::fit_runs::{RoomFits, begins_fit, ends_with_fit};
use crate::damage::known::Known;
use crate::damage::link_owners::{LinkKey, owner_of};
use crate::damage::numbers::{number, number_if};
use crate::damage::rooms::home_of;
use crate::stored::{PlainCard, PlainCode, PlainRoom, PlainStay, Stored};
use keycard_rules::Memory;
use std::alloc::Global;
use std::collections::BTreeMap;

/// The codes that the cards brought.
pub(crate) fn brought_codes(alloc: Global, cards: &[PlainCard]) -> Result<Vec<u64>, Memory>
    ensures { IfOk result (λ codes. codes.items ≡ map new_code_of cards.now) }
{
    match cards
        .iter()
        .map(|card| number(card.new_code))
        .collect(alloc)
    {
        Ok(codes) => Ok(codes),
        Err(_) => Err(Memory),
    }
}

fn is_first(code: &PlainCode) -> bool
    ensures { result ≡ (number_of code.now.place == 0) }
{
    number(code.place) == 0
}

fn has_brought(brought: &BTreeMap<u64, usize>, stored: &Stored, code: u64) -> bool
    requires { IndexesFirst brought.now.entries (map new_code_of stored.now.card.items) }
    ensures { result ≡ list_any (λ card. number_of card.new_code == code) stored.now.card.items }
{
    brought.contains_key(&code)
}

fn begins_one(fits: &RoomFits, stored: &Stored, code: &PlainCode) -> bool
    requires { BeginsOf fits.now.begins.entries (plain_fits stored.now) }
    ensures { result ≡ begins_one stored.now code.now }
{
    begins_fit(fits, number(code.room), number(code.place))
}

fn is_brought(
    brought: &BTreeMap<u64, usize>,
    fits: &RoomFits,
    stored: &Stored,
    code: &PlainCode,
) -> bool
    requires brought { IndexesFirst brought.now.entries (map new_code_of stored.now.card.items) }
    requires begins { BeginsOf fits.now.begins.entries (plain_fits stored.now) }
    ensures { result ≡ is_brought stored.now code.now }
{
    let has_card = has_brought(brought, stored, number(code.code));
    if begins_one(fits, stored, code) {
        return !has_card;
    }
    has_card || is_first(code)
}

/// Whether a card brought each code but the first of its room, and those that fits begin with, which none did.
pub(crate) fn all_brought(brought: &BTreeMap<u64, usize>, fits: &RoomFits, stored: &Stored) -> bool
    requires brought { IndexesFirst brought.now.entries (map new_code_of stored.now.card.items) }
    requires begins { BeginsOf fits.now.begins.entries (plain_fits stored.now) }
    ensures { result ≡ list_all (is_brought stored.now) stored.now.code.items }
{
    for i in 0..stored.code.len() {
        if !is_brought(brought, fits, stored, &stored.code[i]) {
            return false;
        }
    }
    true
}

/// Whether a link's cards are of a party, where it has any.
fn is_link_of(owners: &BTreeMap<LinkKey, u64>, stored: &Stored, link: LinkKey, party: u64) -> bool
    requires { OwnersOf owners.now.entries stored.now.card.items }
    ensures { result ≡ said_of (owner_in stored.now.card.items (link_of_pair link)) true (λ owner. owner == party) }
{
    let Some(owner) = owner_of(owners, link.0, link.1) else {
        return true;
    };
    owner == party
}

/// Whether the cards of the newest link of a room with so many codes are of a party.
fn all_owned(
    owners: &BTreeMap<LinkKey, u64>,
    known: &Known,
    stored: &Stored,
    room: u64,
    codes: u64,
    party: u64,
) -> bool
    requires owners { OwnersOf owners.now.entries stored.now.card.items }
    requires own { list_all (agrees stored.now) stored.now.card.items ≡ true }
    requires begins { BeginsOf known.now.fits.begins.entries (plain_fits stored.now) }
    requires placed { PlacesOf known.now.placed.entries stored.now.code.items }
    requires due { are_due_at known.now.placed.entries room codes ≡ true }
    ensures { result ≡ list_all (is_owned stored.now room party) stored.now.card.items }
{
    if ends_with_fit(&known.fits, room, codes) {
        return true;
    }
    let Some(link) = newest_of(&known.placed, room, codes) else {
        return true;
    };
    is_link_of(owners, stored, link, party)
}

fn has_owner(
    owners: &BTreeMap<LinkKey, u64>,
    known: &Known,
    stored: &Stored,
    room: &PlainRoom,
) -> bool
    requires owners { OwnersOf owners.now.entries stored.now.card.items }
    requires own { list_all (agrees stored.now) stored.now.card.items ≡ true }
    requires begins { BeginsOf known.now.fits.begins.entries (plain_fits stored.now) }
    requires placed { PlacesOf known.now.placed.entries stored.now.code.items }
    requires due { placed_as_due known.now.placed.entries room.now ≡ true }
    ensures { result ≡ has_owner stored.now room.now }
{
    let Some(party) = number_if(room.party) else {
        return true;
    };
    let named = number(room.room);
    let codes = number(room.codes);
    all_owned(owners, known, stored, named, codes, party)
}

/// Whether the cards of each room's newest link are of its party, where it has one.
pub(crate) fn all_have_owners(
    owners: &BTreeMap<LinkKey, u64>,
    known: &Known,
    stored: &Stored,
) -> bool
    requires owners { OwnersOf owners.now.entries stored.now.card.items }
    requires own { list_all (agrees stored.now) stored.now.card.items ≡ true }
    requires begins { BeginsOf known.now.fits.begins.entries (plain_fits stored.now) }
    requires placed { PlacesOf known.now.placed.entries stored.now.code.items }
    requires due { list_all (placed_as_due known.now.placed.entries) stored.now.room.items ≡ true }
    ensures { result ≡ list_all (has_owner stored.now) stored.now.room.items }
{
    for i in 0..stored.room.len() {
        if !has_owner(owners, known, stored, &stored.room[i]) {
            return false;
        }
    }
    true
}

/// The link of the party's last card, among those after a card, or else that card's.
fn add_last(lasts: &mut BTreeMap<u64, LinkKey>, card: &PlainCard) -> Result<(), Memory>
    ensures { OnOk result ((p : ℕ) → at_number lasts.new.entries p
        ≡ (if is_some (at_number lasts.old.entries p) then at_number lasts.old.entries p
        else (if p == number_of card.now.party then Some (link_pair card.now) else None))) }
{
    let party = number(card.party);
    if lasts.contains_key(&party) {
        return Ok(());
    }
    let link = (number(card.old_code), number(card.new_code));
    let Ok(_) = lasts.insert(party, link) else {
        return Err(Memory);
    };
    Ok(())
}

/// The link of each party's last card.
pub(crate) fn lasts_of(alloc: Global, cards: &[PlainCard]) -> Result<BTreeMap<u64, LinkKey>, Memory>
    ensures { IfOk result (λ lasts. LastsOf lasts.entries cards.now) }
{
    let mut lasts = BTreeMap::new(alloc);
    let len = cards.len();
    for k in 0..len {
        add_last(&mut lasts, &cards[len - 1 - k])?;
    }
    Ok(lasts)
}

fn last_of(lasts: &BTreeMap<u64, LinkKey>, party: u64) -> Option<LinkKey>
    ensures { result ≡ at_number lasts.now.entries party }
{
    lasts.get(&party).copied()
}

/// Whether a link is the newest of a room that is there.
fn is_newest_at(known: &Known, stored: &Stored, home: u64, link: LinkKey) -> bool
    requires known { IsOfRows known.now stored.now }
    requires due { list_all (placed_as_due known.now.placed.entries) stored.now.room.items ≡ true }
    requires there { is_some (at_number (rows_of stored.now).rooms home) ≡ true }
    ensures { result ≡ is_newest (rows_of stored.now) home (record { old_code = link.0; new_code = link.1 }) }
{
    let Some(room) = room_at(&known.places, stored, home) else {
        return false;
    };
    is_newest(&known.placed, &known.fits, stored, room, link.0, link.1)
}

/// Whether the last card of a party has the newest link of a room that is there.
fn has_newest(
    known: &Known,
    stored: &Stored,
    lasts: &BTreeMap<u64, LinkKey>,
    party: u64,
    home: u64,
) -> bool
    requires known { IsOfRows known.now stored.now }
    requires due { list_all (placed_as_due known.now.placed.entries) stored.now.room.items ≡ true }
    requires lasts { LastsOf lasts.now.entries stored.now.card.items }
    requires there { is_some (at_number (rows_of stored.now).rooms home) ≡ true }
    ensures { result ≡ has_newest (rows_of stored.now) party home }
{
    let Some(link) = last_of(lasts, party) else {
        return false;
    };
    is_newest_at(known, stored, home, link)
}

fn has_last(
    known: &Known,
    stored: &Stored,
    lasts: &BTreeMap<u64, LinkKey>,
    stay: &PlainStay,
) -> bool
    requires known { IsOfRows known.now stored.now }
    requires due { list_all (placed_as_due known.now.placed.entries) stored.now.room.items ≡ true }
    requires lasts { LastsOf lasts.now.entries stored.now.card.items }
    requires home { stay_has_home stored.now stay.now ≡ true }
    ensures { result ≡ has_last stored.now stay.now }
{
    let Some(home) = home_of(stay) else {
        return true;
    };
    has_newest(known, stored, lasts, number(stay.party), home)
}

/// Whether the last card of each party in house has the newest link of its room.
pub(crate) fn all_have_lasts(known: &Known, stored: &Stored, lasts: &BTreeMap<u64, LinkKey>) -> bool
    requires known { IsOfRows known.now stored.now }
    requires due { list_all (placed_as_due known.now.placed.entries) stored.now.room.items ≡ true }
    requires lasts { LastsOf lasts.now.entries stored.now.card.items }
    requires homes { list_all (stay_has_home stored.now) stored.now.stay.items ≡ true }
    ensures { result ≡ list_all (has_last stored.now) stored.now.stay.items }
{
    for i in 0..stored.stay.len() {
        if !has_last(known, stored, lasts, &stored.stay[i]) {
            return false;
        }
    }
    true
}
