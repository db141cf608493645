//! The cards, found by number.
ghost use Rattle.std.specs.Prelude.{◌≡◌, ◌+◌, ◌==◌, [], filter, length, OnOk, OnErr, None};
ghost use Rattle.std.specs.Map.{values_of};
ghost use Rattle.std.specs.Ordering.{nat_cmp};
ghost use Rattle.std.specs.BTreeMap.{insert_entry};
ghost use Rattle.hotel_model.specs.Rows.{at_number};
ghost use Rattle.hotel_books.specs.Books.Walks.{Hands, failure_of};

use hotel_books::{Sink, WalkFault};
use keycard_rules::{Card, CardNo, Memory, PartyNo};
use std::alloc::Global;
use std::marker::Model;

/// The cards by number, from 1 on with none left out, so that a card's place says its number.
#[derive(Drop)]
pub(crate) struct CardTable {
    cards: Vec<Card>,
}

impl Model for CardTable {
    ghost use Rattle.std.specs.Prelude.{ℕ, List};
    ghost use Rattle.std.specs.List.{enumerate_from};
    ghost use Rattle.keycard_rules.specs.declared.card.Card.{Card};

    ghost Value = { List (ℕ × Card) };

    ghost view = { λ t. enumerate_from 1 t.cards.items };
}

/// Walks those of some cards that a party was given.
fn walk_given<S: Sink<Card>>(cards: &[Card], party: PartyNo, sink: &mut S) -> Result<(), WalkFault>
    ensures hands { Hands S.after S.after_stop (filter (λ card. card.party == party) cards.now)
        sink.old sink.new result }
    ensures sure { failure_of result ≡ None }
{
    for card in cards {
        if card.party == party {
            sink.take(card)?;
        }
    }
    Ok(())
}

impl CardTable {
    pub(crate) fn empty(alloc: Global) -> CardTable
        ensures { result ≡ [] }
    {
        CardTable {
            cards: Vec::new(alloc),
        }
    }

    /// How many cards there are.
    pub(crate) fn len(&self) -> usize
        ensures { result ≡ length self.now }
    {
        self.cards.len()
    }

    /// The card of a number.
    pub(crate) fn get(&self, number: CardNo) -> Option<Card>
        ensures { result ≡ at_number self.now number }
    {
        let place = number.value() as usize - 1;
        if place >= self.cards.len() {
            return None;
        }
        Some(self.cards[place])
    }

    /// Adds the card of the next number; a refusal changes nothing.
    pub(crate) fn push(&mut self, card: &Card) -> Result<(), Memory>
        requires { card.now.number ≡ length self.old + 1 }
        ensures ok { OnOk result (self.new ≡ insert_entry nat_cmp self.old card.now.number card.now) }
        ensures err { OnErr result (self.new ≡ self.old) }
    {
        let Ok(()) = self.cards.push(*card) else {
            return Err(Memory);
        };
        Ok(())
    }
    /// Walks the cards of a party by number.
    pub(crate) fn walk_given<S: Sink<Card>>(
        &self,
        party: PartyNo,
        sink: &mut S,
    ) -> Result<(), WalkFault>
        ensures hands { Hands S.after S.after_stop (filter (λ card. card.party == party) (values_of self.now))
            sink.old sink.new result }
        ensures sure { failure_of result ≡ None }
    {
        walk_given(self.cards.as_slice(), party, sink)
    }
}
