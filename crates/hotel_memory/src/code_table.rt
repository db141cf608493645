//! The codes of all rooms, found by code and by place.
ghost use Rattle.std.specs.Prelude.{◌≡◌, ℕ, Some, None, [], OnOk, OnErr};
ghost use Rattle.std.specs.Ordering.{nat_cmp};
ghost use Rattle.std.specs.BTreeMap.{is_at, insert_entry};
ghost use Rattle.std.specs.Map.{remove_entry, keys_of};
ghost use Rattle.keycard_rules.specs.Words.{is_one_of};
ghost use Rattle.hotel_model.specs.{Rows.at_number, Refinement.Lookups.first_code_at};

use hotel_model::CodeRow;
use keycard_rules::{Code, Memory, RoomNo};
use std::alloc::Global;
use std::collections::BTreeMap;
use std::marker::Model;

/// A code's room, and its place among the room's codes.
type PlaceKey = (RoomNo, u32);

/// The codes with their places, and the same by room and place.
#[derive(Drop)]
pub(crate) struct CodeTable {
    codes: BTreeMap<Code, CodeRow>,
    places: BTreeMap<PlaceKey, Code>,
}

impl Model for CodeTable {
    ghost use Rattle.std.specs.Prelude.{ℕ, List};
    ghost use Rattle.hotel_model.specs.{declared.rows.CodeRow.CodeRow};
    ghost use Rattle.hotel_memory.specs.Tables.{PlacesAgree};

    ghost Value = { List (ℕ × CodeRow) };

    ghost view = { λ t. t.codes.entries };

    ghost invariant = { λ t. PlacesAgree t.codes.entries t.places.entries };
}

impl CodeTable {
    pub(crate) fn empty(alloc: Global) -> CodeTable
        ensures { result ≡ [] }
    {
        CodeTable {
            codes: BTreeMap::new(alloc),
            places: BTreeMap::new(alloc),
        }
    }

    /// Where a code stands.
    pub(crate) fn place_of(&self, code: Code) -> Option<CodeRow>
        ensures { result ≡ at_number self.now code }
    {
        self.codes.get(&code).copied()
    }

    pub(crate) fn has(&self, code: Code) -> bool
        ensures { result ≡ is_one_of code (keys_of self.now) }
    {
        self.codes.contains_key(&code)
    }

    /// The code at a place of a room.
    pub(crate) fn code_at(&self, room: RoomNo, place: u32) -> Option<Code>
        ensures { result ≡ first_code_at self.now room place }
    {
        self.places.get(&(room, place)).copied()
    }

    /// Adds a new code at a free place; a refusal changes nothing.
    pub(crate) fn insert(&mut self, code: Code, row: CodeRow) -> Result<(), Memory>
        requires new_code { at_number self.old code ≡ None }
        requires free_place { first_code_at self.old row.room row.place ≡ None }
        ensures ok { OnOk result (self.new ≡ insert_entry nat_cmp self.old code row) }
        ensures err { OnErr result (self.new ≡ self.old) }
    {
        let place = (row.room, row.place);
        let Ok(_) = self.places.insert(place, code) else {
            return Err(Memory);
        };
        let Ok(_) = self.codes.insert(code, row) else {
            self.places.remove(&place);
            return Err(Memory);
        };
        Ok(())
    }

    /// Takes out a code that stands at its place alone.
    pub(crate) fn remove(&mut self, code: Code, row: CodeRow)
        requires there { at_number self.old code ≡ Some row }
        requires alone { first_code_at (remove_entry (is_at (nat_cmp code)) self.old) row.room row.place ≡ None }
        ensures { self.new ≡ remove_entry (is_at (nat_cmp code)) self.old }
    {
        self.codes.remove(&code);
        self.places.remove(&(row.room, row.place));
    }
}
