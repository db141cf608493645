//! The first damaged table of stored rows.
ghost use Rattle.std.specs.Prelude.{◌≡◌, ◌∷◌, [], true, IfOk};
ghost use Rattle.std.specs.List.{list_all};
ghost use Rattle.hotel_rows.specs.declared.stored.TableName.TheVariants as table;
ghost use Rattle.hotel_rows.specs.Counts.{IsTested};
ghost use Rattle.hotel_rows.specs.Damage.{UndamagedIsSound, first_damaged_of, first_of_tables};
ghost use Rattle.hotel_rows.specs.Stored.{plain_fits};
ghost use Rattle.hotel_rows.specs.Known.{IsOfRows};
ghost use Rattle.hotel_rows.specs.RowTests.{stay_has_home};

mod by_key;
mod card_links;
mod cards;
mod code_places;
mod codes;
mod fit_runs;
mod fits;
mod insides;
mod kinds;
mod known;
mod link_owners;
mod nights;
mod note_runs;
mod notes;
pub(crate) mod numbers;
mod rooms;
mod stays;

use crate::counts::Counts;
use crate::damage::by_key::places_of;
use crate::damage::cards::cards_hold;
use crate::damage::codes::codes_hold;
use crate::damage::fit_runs::room_fits;
use crate::damage::fits::{first_fits, fits_hold};
use crate::damage::insides::insides_hold;
use crate::damage::kinds::{kinds_hold, meta_holds};
use crate::damage::known::{Known, known_of};
use crate::damage::notes::notes_hold;
use crate::damage::rooms::rooms_hold;
use crate::damage::stays::stays_hold;
use crate::stored::{PlainFit, Stored, TableName};
use keycard_rules::Memory;
use std::alloc::Global;

/// The first damaged one of the tables of codes, cards, insides, notes and fits, where each stay in house has its room.
fn first_of_later(
    alloc: Global,
    known: &Known,
    stored: &Stored,
    plain: &[PlainFit],
) -> Result<Option<TableName>, Memory>
    requires known { IsOfRows known.now stored.now }
    requires plain { plain.now ≡ plain_fits stored.now }
    requires homes { list_all (stay_has_home stored.now) stored.now.stay.items ≡ true }
    ensures { IfOk result (λ first.
        first ≡ first_of_tables (table.Code ∷ table.Card ∷ table.Inside ∷ table.Note ∷ table.Fit ∷ []) stored.now) }
{
    let codes = codes_hold(alloc, known, stored)?;
    if !codes {
        return Ok(Some(TableName::Code));
    }
    let cards = cards_hold(alloc, known, stored)?;
    if !cards {
        return Ok(Some(TableName::Card));
    }
    let insides = insides_hold(alloc, known, stored)?;
    if !insides {
        return Ok(Some(TableName::Inside));
    }
    let notes = notes_hold(alloc, &known.places, stored)?;
    if !notes {
        return Ok(Some(TableName::Note));
    }
    let fitted = fits_hold(alloc, known, stored, plain)?;
    if !fitted {
        return Ok(Some(TableName::Fit));
    }
    Ok(None)
}

/// What books count of rows whose fits are these, or the first damaged table.
fn counts_with(
    alloc: Global,
    stored: &Stored,
    plain: &[PlainFit],
) -> Result<Result<Counts, TableName>, Memory>
    requires { plain.now ≡ plain_fits stored.now }
    ensures { IfOk result (IsTested stored.now) }
{
    if !meta_holds(stored) {
        return Ok(Err(TableName::Meta));
    }
    let kinds = kinds_hold(alloc, stored)?;
    let Some(kinds) = kinds else {
        return Ok(Err(TableName::Kind));
    };
    let places = places_of(alloc, stored)?;
    let fits = room_fits(alloc, plain)?;
    let rooms = rooms_hold(alloc, &kinds, &places, &fits, stored)?;
    if !rooms {
        return Ok(Err(TableName::Room));
    }
    let counts = stays_hold(alloc, &kinds, &places, stored)?;
    let Some(counts) = counts else {
        return Ok(Err(TableName::Stay));
    };
    let known = known_of(alloc, stored, places, fits)?;
    let first = first_of_later(alloc, &known, stored, plain)?;
    let Some(table) = first else {
        return Ok(Ok(counts));
    };
    Ok(Err(table))
}

/// What books count of the rows, or the first table, in the order of their names, of which a rule fails.
///
/// `Memory` only where a growth was refused.
pub fn counts_if_sound(alloc: Global, stored: &Stored) -> Result<Result<Counts, TableName>, Memory>
    ensures { IfOk result (IsTested stored.now) }
{
    let Some(fits) = &stored.fit else {
        let fits = first_fits(alloc, &stored.room)?;
        return counts_with(alloc, stored, &fits);
    };
    counts_with(alloc, stored, fits)
}

/// The first table, in the order of their names, of which a rule fails.
///
/// `Memory` only where a growth was refused.
pub fn first_damaged(alloc: Global, stored: &Stored) -> Result<Option<TableName>, Memory>
    ensures { IfOk result (λ first. first ≡ first_damaged_of stored.now) }
{
    match counts_if_sound(alloc, stored)? {
        Ok(_counts) => Ok(None),
        Err(table) => Ok(Some(table)),
    }
}

/// A law, which makes no call: no table is damaged exactly where the rows are sound in the sense of the core and each
/// column is of its range.
pub fn undamaged_is_sound()
    ensures { UndamagedIsSound }
{}
