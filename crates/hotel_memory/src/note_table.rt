//! The notes of the locks, found by room and number.
ghost use Rattle.std.specs.Prelude.{◌≡◌, ◌+◌, [], OnOk, OnErr, None};
ghost use Rattle.std.specs.Map.{lookup, remove_entry};
ghost use Rattle.std.specs.BTreeMap.{is_at, insert_entry};
ghost use Rattle.hotel_model.specs.{Words.pair_cmp, Rows.notes_at};
ghost use Rattle.hotel_books.specs.Books.Walks.{Hands, failure_of};

use hotel_books::{Sink, WalkFault};
use keycard_rules::{LockNote, Memory, RoomNo};
use std::alloc::Global;
use std::collections::BTreeMap;
use std::marker::Model;

/// A note's room, and its number among all notes of the room.
type NoteKey = (RoomNo, u32);

/// The notes by room and then by number.
#[derive(Drop)]
pub(crate) struct NoteTable {
    notes: BTreeMap<NoteKey, LockNote>,
}

impl Model for NoteTable {
    ghost use Rattle.std.specs.Prelude.{List};
    ghost use Rattle.keycard_rules.specs.Note.{Note};
    ghost use Rattle.hotel_model.specs.Rows.{NoteKey};
    ghost use Rattle.hotel_memory.specs.Tables.{HaveCounts};

    ghost Value = { List (NoteKey × Note) };

    ghost view = { λ t. t.notes.entries };

    ghost invariant = { λ t. HaveCounts t.notes.entries };
}

impl NoteTable {
    pub(crate) fn empty(alloc: Global) -> NoteTable
        ensures { result ≡ [] }
    {
        NoteTable {
            notes: BTreeMap::new(alloc),
        }
    }

    /// The note of a room under the number `before + count`.
    pub(crate) fn note(&self, room: RoomNo, before: u32, count: u32) -> Option<LockNote>
        ensures { result ≡ lookup (is_at (pair_cmp (room, before + count))) self.now }
    {
        let notes = &self.notes;
        let number = before.checked_add(count)?;
        notes.get(&(room, number)).copied()
    }

    /// Keeps a note under its room and a number; a refusal changes nothing.
    pub(crate) fn insert(&mut self, number: u32, note: &LockNote) -> Result<(), Memory>
        ensures ok { OnOk result (self.new ≡ insert_entry pair_cmp self.old (note.now.room, number) note.now) }
        ensures err { OnErr result (self.new ≡ self.old) }
    {
        let Ok(_) = self.notes.insert((note.room, number), *note) else {
            return Err(Memory);
        };
        Ok(())
    }

    pub(crate) fn remove(&mut self, room: RoomNo, number: u32)
        ensures { self.new ≡ remove_entry (is_at (pair_cmp (room, number))) self.old }
    {
        self.notes.remove(&(room, number));
    }

    /// Walks the notes of a room by number.
    pub(crate) fn walk<S: Sink<LockNote>>(
        &self,
        room: RoomNo,
        sink: &mut S,
    ) -> Result<(), WalkFault>
        ensures hands { Hands S.after S.after_stop (notes_at self.now room) sink.old sink.new result }
        ensures sure { failure_of result ≡ None }
    {
        for (_, note) in self.notes.range((room, 0)..=(room, u32::MAX)) {
            sink.take(note)?;
        }
        Ok(())
    }
}
