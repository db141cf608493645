//! The tables of books in memory, and what look-ups find there.
ghost use Rattle.std.specs.Prelude.{◌≡◌, ◌-◌, ◌<◌, false, is_some, length, IfOk, IsOk, not};
ghost use Rattle.std.specs.Map.{keys_of};
ghost use Rattle.keycard_rules.specs.Words.{is_one_of};
ghost use Rattle.hotel_model.specs.{Guests.are_none, Rows.Rows, Rows.no_rows, Rows.has_kind};
ghost use Rattle.hotel_model.specs.{Rows.fit_at, Rows.rooms_of_kind};
ghost use Rattle.hotel_model.specs.Refinement.Lookups.{room_at, codes_in, code_place, code_at, stay_at, stays_of_kind};
ghost use Rattle.hotel_model.specs.Refinement.Lookups.{card_at, inside_at, note_at, first_full_on};
ghost use Rattle.hotel_model.specs.Refinement.Lookups.{number_after};
ghost use Rattle.hotel_books.specs.Books.Reads.{is_any};

use crate::card_table::CardTable;
use crate::code_table::CodeTable;
use crate::inside_table::InsideTable;
use crate::note_table::NoteTable;
use crate::stay_table::StayTable;
use hotel_books::KindRooms;
use hotel_model::{CodeRow, FitRow, NextNumbers, RoomRow};
use hotel_nights::{Day, KindCode, Stay};
use keycard_rules::{
    Card, CardNo, Code, Count, FitNo, LAST_NUMBER, LockNote, Number, PartyNo, RoomNo,
};
use std::alloc::{AllocError, Global};
use std::collections::BTreeMap;
use std::marker::Model;

/// A fit's room, and its number.
type FitKey = (RoomNo, FitNo);

/// The nine tables.
#[derive(Drop)]
pub struct Tables {
    pub(crate) alloc: Global,
    pub(crate) day: Option<Day>,
    pub(crate) kinds: KindRooms,
    pub(crate) rooms: BTreeMap<RoomNo, RoomRow>,
    pub(crate) codes: CodeTable,
    pub(crate) stays: StayTable,
    pub(crate) cards: CardTable,
    pub(crate) inside: InsideTable,
    pub(crate) notes: NoteTable,
    pub(crate) fits: BTreeMap<FitKey, FitRow>,
}

impl Model for Tables {
    ghost use Rattle.hotel_model.specs.{Rows.Rows};
    ghost use Rattle.hotel_memory.specs.Tables.{TablesAgree};
    ghost use Rattle.std.specs.Map.{keys_of};

    ghost Value = { Rows };

    ghost view = { λ t. record {
      day = t.day;
      kinds = keys_of t.kinds;
      rooms = t.rooms.entries;
      codes = t.codes;
      stays = t.stays;
      cards = t.cards;
      inside = t.inside;
      notes = t.notes;
      fits = t.fits.entries;
    } };

    ghost invariant = { λ t. TablesAgree t.kinds t.rooms.entries t.codes };
}

/// The number after so many that were given, up to the last one.
fn number_after<K>(given: usize) -> Option<Number<K, LAST_NUMBER>>
    ensures { result ≡ number_after given }
{
    if given >= LAST_NUMBER as usize {
        return None;
    }
    Number::new(given as u32 + 1)
}

impl Tables {
    pub(crate) fn empty(alloc: Global) -> Tables
        ensures { result ≡ no_rows }
    {
        Tables {
            alloc,
            day: None,
            kinds: KindRooms::empty(alloc),
            rooms: BTreeMap::new(alloc),
            codes: CodeTable::empty(alloc),
            stays: StayTable::empty(alloc),
            cards: CardTable::empty(alloc),
            inside: InsideTable::empty(alloc),
            notes: NoteTable::empty(alloc),
            fits: BTreeMap::new(alloc),
        }
    }

    pub(crate) fn day(&self) -> Option<Day>
        ensures { result ≡ self.now.day }
    {
        self.day
    }

    pub(crate) fn has_kind(&self, kind: &KindCode) -> bool
        ensures { result ≡ has_kind self.now kind.now }
    {
        self.kinds.has(kind)
    }

    pub(crate) fn room(&self, room: RoomNo) -> Option<RoomRow>
        ensures { result ≡ room_at self.now room }
    {
        self.rooms.get(&room).copied()
    }

    pub(crate) fn is_issued(&self, code: Code) -> bool
        ensures { result ≡ is_one_of code (codes_in self.now) }
    {
        self.codes.has(code)
    }

    pub(crate) fn code_place(&self, code: Code) -> Option<CodeRow>
        ensures { result ≡ code_place self.now code }
    {
        self.codes.place_of(code)
    }

    pub(crate) fn code_at(&self, room: RoomNo, place: u32) -> Option<Code>
        ensures { result ≡ code_at self.now room place }
    {
        self.codes.code_at(room, place)
    }

    /// A copy of a party's stay.
    pub(crate) fn stay(&self, party: PartyNo) -> Result<Option<Stay>, AllocError>
        ensures same { IfOk result (λ stay. stay ≡ stay_at self.now party) }
        ensures sure { is_some (stay_at self.now party) ≡ false → IsOk result }
    {
        let Some(stay) = self.stays.map().get(&party) else {
            return Ok(None);
        };
        Ok(Some(stay.clone()?))
    }

    /// Copies of the stays of a kind, by the party's number.
    pub(crate) fn stays_of_kind(&self, kind: &KindCode) -> Result<Vec<Stay>, AllocError>
        ensures same { IfOk result (λ stays. stays.items ≡ stays_of_kind self.now kind.now) }
        ensures sure { is_any (stays_of_kind self.now kind.now) ≡ false → IsOk result }
    {
        let mut found = Vec::new(self.alloc);
        for stay in self.stays.map().values() {
            if stay.kind == *kind {
                found.push(stay.clone()?)?;
            }
        }
        Ok(found)
    }

    /// The first night from `arrive` on and before `depart` on which the kind's rooms are all taken. It takes no
    /// memory.
    pub(crate) fn full_night(&self, kind: &KindCode, arrive: Day, depart: Day) -> Option<Day>
        ensures { result ≡ first_full_on self.now kind.now arrive (depart - arrive) }
    {
        let rooms = self.rooms_of_kind(kind);
        self.stays.full_night(kind, rooms, arrive, depart)
    }

    pub(crate) fn card(&self, number: CardNo) -> Option<Card>
        ensures { result ≡ card_at self.now number }
    {
        self.cards.get(number)
    }

    /// The numbers of the cards inside a room, in order.
    pub(crate) fn inside(&self, room: RoomNo) -> Result<Vec<CardNo>, AllocError>
        ensures same { IfOk result (λ numbers. numbers.items ≡ inside_at self.now room) }
        ensures sure { is_any (inside_at self.now room) ≡ false → IsOk result }
    {
        self.inside.at(self.alloc, room)
    }

    pub(crate) fn is_inside(&self, room: RoomNo, number: CardNo) -> bool
        ensures { result ≡ is_one_of number (inside_at self.now room) }
    {
        self.inside.has(room, number)
    }

    pub(crate) fn has_inside(&self, room: RoomNo) -> bool
        ensures { result ≡ not (are_none (inside_at self.now room)) }
    {
        self.inside.has_any(room)
    }

    /// A lock of a room, by its number.
    pub(crate) fn fit(&self, room: RoomNo, fit: FitNo) -> Option<FitRow>
        ensures { result ≡ fit_at self.now room fit }
    {
        self.fits.get(&(room, fit)).copied()
    }

    /// A note, by its room, lock and count.
    pub(crate) fn note(&self, room: RoomNo, fit: FitNo, count: Count) -> Option<LockNote>
        ensures { result ≡ note_at self.now room fit count }
    {
        let row = self.fit(room, fit)?;
        let note = self.notes.note(room, row.before, count.value())?;
        if note.fit != fit {
            return None;
        }
        Some(note)
    }

    pub(crate) fn rooms_of_kind(&self, kind: &KindCode) -> u32
        ensures { result ≡ rooms_of_kind self.now.rooms kind.now }
    {
        self.kinds.rooms(kind)
    }

    pub(crate) fn next_numbers(&self) -> NextNumbers
        ensures { result ≡ record {
          party = number_after (length self.now.stays);
          card = number_after
              (length self.now.cards);
        } }
    {
        NextNumbers {
            party: number_after(self.stays.map().len()),
            card: number_after(self.cards.len()),
        }
    }
}
