//! Whose the cards of a link are.
ghost use Rattle.std.specs.Prelude.{◌≡◌, Some, IfOk, OnOk, if◌then◌else◌};
ghost use Rattle.std.specs.List.{list_all};
ghost use Rattle.std.specs.BTreeMap.{is_at};
ghost use Rattle.std.specs.Map.{lookup};
ghost use Rattle.hotel_model.specs.Words.{pair_cmp};
ghost use Rattle.hotel_rows.specs.Stored.{number_of};
ghost use Rattle.hotel_rows.specs.Keys.{LinkKey};
ghost use Rattle.hotel_rows.specs.LastCards.{link_pair};
ghost use Rattle.hotel_rows.specs.LinkOwners.{OwnersOf, is_own};
ghost use Rattle.hotel_rows.specs.RowTests.{agrees};

use crate::damage::numbers::number;
use crate::stored::{PlainCard, Stored};
use keycard_rules::Memory;
use std::alloc::Global;
use std::collections::BTreeMap;

/// The codes of a link: the old one, and the new one.
pub(crate) type LinkKey = (u64, u64);

fn add_owner(owners: &mut BTreeMap<LinkKey, u64>, card: &PlainCard) -> Result<(), Memory>
    ensures { OnOk result ((q : LinkKey) → lookup (is_at (pair_cmp q)) owners.new.entries
        ≡ (if is_at (pair_cmp (link_pair card.now)) q then Some (number_of card.now.party)
        else lookup (is_at (pair_cmp q)) owners.old.entries)) }
{
    let link = (number(card.old_code), number(card.new_code));
    let party = number(card.party);
    let Ok(_) = owners.insert(link, party) else {
        return Err(Memory);
    };
    Ok(())
}

/// The party of each link.
pub(crate) fn owners_of(
    alloc: Global,
    cards: &[PlainCard],
) -> Result<BTreeMap<LinkKey, u64>, Memory>
    ensures { IfOk result (λ owners. OwnersOf owners.entries cards.now) }
{
    let mut owners = BTreeMap::new(alloc);
    let len = cards.len();
    for k in 0..len {
        add_owner(&mut owners, &cards[len - 1 - k])?;
    }
    Ok(owners)
}

/// The party of a link.
pub(crate) fn owner_of(owners: &BTreeMap<LinkKey, u64>, old: u64, new: u64) -> Option<u64>
    ensures { result ≡ lookup (is_at (pair_cmp (old, new))) owners.now.entries }
{
    owners.get(&(old, new)).copied()
}

fn is_own(owners: &BTreeMap<LinkKey, u64>, stored: &Stored, card: &PlainCard) -> bool
    requires { OwnersOf owners.now.entries stored.now.card.items }
    ensures { result ≡ is_own stored.now.card.items card.now }
{
    let old = number(card.old_code);
    let new = number(card.new_code);
    let Some(party) = owner_of(owners, old, new) else {
        return false;
    };
    party == number(card.party)
}

fn all_own(owners: &BTreeMap<LinkKey, u64>, stored: &Stored) -> bool
    requires { OwnersOf owners.now.entries stored.now.card.items }
    ensures { result ≡ list_all (is_own stored.now.card.items) stored.now.card.items }
{
    for i in 0..stored.card.len() {
        if !is_own(owners, stored, &stored.card[i]) {
            return false;
        }
    }
    true
}

/// Whether the cards of one link have one party.
pub(crate) fn all_agree(owners: &BTreeMap<LinkKey, u64>, stored: &Stored) -> bool
    requires { OwnersOf owners.now.entries stored.now.card.items }
    ensures { result ≡ list_all (agrees stored.now) stored.now.card.items }
{
    all_own(owners, stored)
}
