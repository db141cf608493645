//! The rules of the table of cards.
ghost use Rattle.std.specs.Prelude.{◌≡◌, true, IfOk};
ghost use Rattle.std.specs.List.{list_all};
ghost use Rattle.hotel_rows.specs.Stored.{rows_of, card_row};
ghost use Rattle.hotel_rows.specs.Places.{AreOf};
ghost use Rattle.hotel_rows.specs.RowTests.{card_fits, stay_has_home, links_hold};
ghost use Rattle.hotel_rows.specs.Damage.{card_holds};
ghost use Rattle.hotel_rows.specs.Known.{IsOfRows};
ghost use Rattle.hotel_rows.specs.CodePlaces.{placed_as_due};

use crate::damage::by_key::{Places, card_keys, code_at, index_of, stay_at};
use crate::damage::card_links::{
    all_brought, all_have_lasts, all_have_owners, brought_codes, lasts_of,
};
use crate::damage::codes::stands_at;
use crate::damage::known::Known;
use crate::damage::link_owners::{all_agree, owners_of};
use crate::damage::numbers::{are_numbered, number};
use crate::stored::{PlainCard, Stored};
use keycard_rules::Memory;
use std::alloc::Global;

/// Whether the card's party has a stay, and its codes are neighbours at one room.
fn card_fits(places: &Places, stored: &Stored, card: &PlainCard) -> bool
    requires { AreOf places.now stored.now }
    ensures { result ≡ card_fits (rows_of stored.now) (card_row card.now) }
{
    if stay_at(places, stored, number(card.party)).is_none() {
        return false;
    }
    let new = number(card.new_code);
    let Some(code) = code_at(places, stored, new) else {
        return false;
    };
    stands_at(
        places,
        stored,
        number(code.room),
        number(card.old_code),
        new,
    )
}

/// Whether each card's party has a stay, and its codes are neighbours at one room.
pub(crate) fn cards_fit(places: &Places, stored: &Stored) -> bool
    requires { AreOf places.now stored.now }
    ensures { result ≡ list_all (λ card. card_fits (rows_of stored.now) (card_row card)) stored.now.card.items }
{
    for i in 0..stored.card.len() {
        if !card_fits(places, stored, &stored.card[i]) {
            return false;
        }
    }
    true
}

/// Whether the rules on links hold: whose they are, that each was given, and which are the newest.
fn links_hold(alloc: Global, known: &Known, stored: &Stored) -> Result<bool, Memory>
    requires known { IsOfRows known.now stored.now }
    requires due { list_all (placed_as_due known.now.placed.entries) stored.now.room.items ≡ true }
    requires homes { list_all (stay_has_home stored.now) stored.now.stay.items ≡ true }
    ensures { IfOk result (λ hold. hold ≡ links_hold stored.now) }
{
    let codes = brought_codes(alloc, &stored.card)?;
    let brought = index_of(alloc, &codes)?;
    let lasts = lasts_of(alloc, &stored.card)?;
    let owners = owners_of(alloc, &stored.card)?;
    if !all_agree(&owners, stored) {
        return Ok(false);
    }
    if !all_brought(&brought, &known.fits, stored) {
        return Ok(false);
    }
    if !all_have_owners(&owners, known, stored) {
        return Ok(false);
    }
    Ok(all_have_lasts(known, stored, &lasts))
}

/// Whether the rules of the table of cards hold, where those of the stays and codes do.
pub(crate) fn cards_hold(alloc: Global, known: &Known, stored: &Stored) -> Result<bool, Memory>
    requires known { IsOfRows known.now stored.now }
    requires due { list_all (placed_as_due known.now.placed.entries) stored.now.room.items ≡ true }
    requires homes { list_all (stay_has_home stored.now) stored.now.stay.items ≡ true }
    ensures { IfOk result (λ hold. hold ≡ card_holds stored.now) }
{
    let keys = card_keys(alloc, &stored.card)?;
    if !are_numbered(&keys) {
        return Ok(false);
    }
    if !cards_fit(&known.places, stored) {
        return Ok(false);
    }
    links_hold(alloc, known, stored)
}
