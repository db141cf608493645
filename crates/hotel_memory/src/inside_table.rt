//! The cards inside rooms, found by room.
ghost use Rattle.std.specs.Prelude.{◌≡◌, [], false, not, IfOk, IsOk, OnOk, OnErr};
ghost use Rattle.hotel_model.specs.{Words.is_one_of, Guests.those_in, Guests.are_none, Guests.those_elsewhere};
ghost use Rattle.hotel_model.specs.{Refinement.Change.moved};
ghost use Rattle.hotel_books.specs.Books.Reads.{is_any};

use hotel_model::InsideMove;
use keycard_rules::{CardNo, LAST_NUMBER, Memory, RoomNo};
use std::alloc::{AllocError, Global};
use std::collections::BTreeSet;
use std::marker::Model;

/// The room and the card of one that is inside.
type InsideKey = (RoomNo, CardNo);

/// The rooms and cards, by room and then by card.
#[derive(Drop)]
pub(crate) struct InsideTable {
    pairs: BTreeSet<InsideKey>,
}

impl Model for InsideTable {
    ghost use Rattle.std.specs.Prelude.{List};
    ghost use Rattle.hotel_model.specs.Rows.{InsideKey};
    ghost use Rattle.hotel_memory.specs.Tables.{HaveCardNumbers};

    ghost Value = { List InsideKey };

    ghost view = { λ t. t.pairs.keys };

    ghost invariant = { λ t. HaveCardNumbers t.pairs.keys };
}

impl InsideTable {
    pub(crate) fn empty(alloc: Global) -> InsideTable
        ensures { result ≡ [] }
    {
        InsideTable {
            pairs: BTreeSet::new(alloc),
        }
    }

    /// The numbers of the cards inside a room, in order.
    pub(crate) fn at(&self, alloc: Global, room: RoomNo) -> Result<Vec<CardNo>, AllocError>
        ensures same { IfOk result (λ numbers. numbers.items ≡ those_in self.now room) }
        ensures sure { is_any (those_in self.now room) ≡ false → IsOk result }
    {
        let mut found = Vec::new(alloc);
        let least = CardNo::new(1).unwrap();
        let most = CardNo::new(LAST_NUMBER).unwrap();
        for pair in self.pairs.range((room, least)..=(room, most)) {
            found.push(pair.1)?;
        }
        Ok(found)
    }

    /// The rooms and cards, in order.
    pub(crate) fn set(&self) -> &BTreeSet<InsideKey>
        ensures { result.now.keys ≡ self.now }
    {
        &self.pairs
    }

    /// Whether a card is inside a room.
    pub(crate) fn has(&self, room: RoomNo, number: CardNo) -> bool
        ensures { result ≡ is_one_of number (those_in self.now room) }
    {
        self.pairs.contains(&(room, number))
    }

    /// Whether any card is inside a room.
    pub(crate) fn has_any(&self, room: RoomNo) -> bool
        ensures { result ≡ not (are_none (those_in self.now room)) }
    {
        let least = CardNo::new(1).unwrap();
        let most = CardNo::new(LAST_NUMBER).unwrap();
        let mut pairs = self.pairs.range((room, least)..=(room, most));
        pairs.next().is_some()
    }

    /// No card is inside the room any more.
    pub(crate) fn clear(&mut self, room: RoomNo)
        ensures { self.new ≡ those_elsewhere room self.old }
    {
        self.pairs.retain(|pair| pair.0 != room);
    }

    /// A card comes to a room, goes from it, or neither; a refusal changes nothing.
    pub(crate) fn change(&mut self, room: RoomNo, insides: InsideMove) -> Result<(), Memory>
        ensures ok { OnOk result (self.new ≡ moved insides room self.old) }
        ensures err { OnErr result (self.new ≡ self.old) }
    {
        match insides {
            InsideMove::Same => Ok(()),
            InsideMove::Goes(number) => {
                self.pairs.remove(&(room, number));
                Ok(())
            }
            InsideMove::Comes(number) => {
                let _in_range = number.value();
                let Ok(_) = self.pairs.insert((room, number)) else {
                    return Err(Memory);
                };
                Ok(())
            }
        }
    }
}
