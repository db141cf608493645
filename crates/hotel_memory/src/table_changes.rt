//! Changes of the tables in memory, each made whole or not at all.
//!
//! New rows come first, since they may want memory; what was put in is taken out again where a later one finds none.
//! Rows that are there are changed last, which takes no memory.
ghost use Rattle.std.specs.Prelude.{◌≡◌, ◌+◌, ◌-◌, ◌^◌, ◌<◌, length, Some, None, true, false, IsSome, OnOk, OnErr};
ghost use Rattle.std.specs.Prelude.{IsOk};
ghost use Rattle.hotel_model.specs.declared.change.Change.TheVariants as change;
ghost use Rattle.hotel_model.specs.{Refinement.Lookups.room_at, Refinement.Lookups.code_place};
ghost use Rattle.hotel_model.specs.{Refinement.Lookups.stay_at, Refinement.Lookups.note_numbered};
ghost use Rattle.hotel_model.specs.{Refinement.Change.made, Refinement.Change.codes_of, Refinement.Change.before_in};
ghost use Rattle.hotel_model.specs.{Rows.fit_at};
ghost use Rattle.hotel_nights.specs.FullNight.{is_standing};
ghost use Rattle.hotel_nights.specs.declared.stay.StayState.TheVariants as state;
ghost use Rattle.hotel_model.specs.{Words.said_of, Rows.has_kind, Refinement.Fits.HasItsRows};
ghost use Rattle.hotel_model.specs.{Refinement.Fits.takes_memory};

use crate::row_changes::{
    codes_issued, issue_at, leave, leave_any, note_at, notes_before, notes_taken, refit_at,
};
use crate::tables::Tables;
use hotel_model::{Change, CodeRow, FitRow, InsideMove, RoomRow};
use hotel_nights::{Day, KindCode, Stay, StayState};
use keycard_rules::{Card, Code, FitNo, LockNote, Memory, PartyNo, RoomNo};

impl Tables {
    /// Makes all of a change, or nothing.
    pub(crate) fn apply(&mut self, change: Change) -> Result<(), Memory>
        requires { HasItsRows change self.old }
        ensures ok { OnOk result (self.new ≡ made change self.old) }
        ensures err { OnErr result (self.new ≡ self.old) }
        ensures sure { takes_memory change ≡ false → IsOk result }
    {
        match change {
            Change::Begin(day) => {
                self.set_day(day);
                Ok(())
            }
            Change::DayTo(day) => {
                self.set_day(day);
                Ok(())
            }
            Change::Kind(kind) => self.add_kind(kind),
            Change::Room { room, kind, code } => self.add_room(room, kind, code),
            Change::Reserved(stay) => self.add_stay(stay),
            Change::Cancelled(party) => {
                self.cancel(party);
                Ok(())
            }
            Change::Issue { card, room, leaves } => self.issue(&card, room, leaves),
            Change::Spare(card) => self.add_card(&card),
            Change::CheckedOut { party, room } => {
                self.check_out(party, room);
                Ok(())
            }
            Change::Refit { room, code, fit } => self.refit(room, code, fit),
            Change::Noted {
                note,
                lock_place,
                secured,
                insides,
            } => self.add_note(&note, lock_place, secured, insides),
        }
    }

    fn set_day(&mut self, day: Day)
        ensures { self.new ≡ made (change.DayTo day) self.old }
    {
        self.day = Some(day);
    }

    pub(crate) fn add_kind(&mut self, kind: KindCode) -> Result<(), Memory>
        requires { has_kind self.old kind ≡ false }
        ensures ok { OnOk result (self.new ≡ made (change.Kind kind) self.old) }
        ensures err { OnErr result (self.new ≡ self.old) }
    {
        let Ok(()) = self.kinds.add_kind(kind) else {
            return Err(Memory);
        };
        Ok(())
    }

    /// Adds a room and its first code.
    pub(crate) fn add_room(
        &mut self,
        room: RoomNo,
        kind: KindCode,
        code: Code,
    ) -> Result<(), Memory>
        requires there { has_kind self.old kind ≡ true }
        requires new_room { room_at self.old room ≡ None }
        requires new_code { code_place self.old code ≡ None }
        requires new_fit { fit_at self.old room 1 ≡ None }
        ensures ok { OnOk result (self.new ≡ made (change.Room room kind code) self.old) }
        ensures err { OnErr result (self.new ≡ self.old) }
    {
        let row = RoomRow::of_new_room(room, kind);
        let Ok(_) = self.rooms.insert(room, row) else {
            return Err(Memory);
        };
        let first = FitRow::of_new_room(room);
        let fit = first.fit;
        let Ok(_) = self.fits.insert((room, fit), first) else {
            self.rooms.remove(&room);
            return Err(Memory);
        };
        let Ok(()) = self.codes.insert(code, CodeRow { room, place: 0 }) else {
            self.fits.remove(&(room, fit));
            self.rooms.remove(&room);
            return Err(Memory);
        };
        let _in_range = room.value();
        self.kinds.add_room(&kind);
        Ok(())
    }

    pub(crate) fn add_stay(&mut self, stay: Stay) -> Result<(), Memory>
        requires { stay_at self.old stay.party ≡ None }
        ensures ok { OnOk result (self.new ≡ made (change.Reserved stay) self.old) }
        ensures err { OnErr result (self.new ≡ self.old) }
    {
        self.stays.insert(stay)
    }

    fn cancel(&mut self, party: PartyNo)
        ensures { self.new ≡ made (change.Cancelled party) self.old }
    {
        self.stays.end(party, StayState::Cancelled);
    }

    /// Adds a new code and a card with it; the card's party comes to the room, and leaves another one where that is
    /// named.
    pub(crate) fn issue(
        &mut self,
        card: &Card,
        room: RoomNo,
        leaves: Option<RoomNo>,
    ) -> Result<(), Memory>
        requires there { IsSome (room_at self.old room) }
        requires few { codes_of self.old room < 2 ^ 32 - 1 }
        requires new_code { code_place self.old card.now.link.new_code ≡ None }
        requires next { card.now.number ≡ length self.old.cards + 1 }
        requires stands { said_of (stay_at self.old card.now.party) true (λ stay. is_standing stay.state) ≡ true }
        ensures ok { OnOk result (self.new ≡ made (change.Issue card.now room leaves) self.old) }
        ensures err { OnErr result (self.new ≡ self.old) }
    {
        let code = card.link.new_code;
        let place = codes_issued(&self.rooms, room);
        let Ok(()) = self.codes.insert(code, CodeRow { room, place }) else {
            return Err(Memory);
        };
        let Ok(()) = self.cards.push(card) else {
            self.codes.remove(code, CodeRow { room, place });
            return Err(Memory);
        };
        leave_any(&mut self.rooms, leaves);
        issue_at(&mut self.rooms, room, card.party);
        self.stays.stand_on(card.party, room);
        Ok(())
    }

    pub(crate) fn add_card(&mut self, card: &Card) -> Result<(), Memory>
        requires { card.now.number ≡ length self.old.cards + 1 }
        ensures ok { OnOk result (self.new ≡ made (change.Spare card.now) self.old) }
        ensures err { OnErr result (self.new ≡ self.old) }
    {
        self.cards.push(card)
    }

    fn check_out(&mut self, party: PartyNo, room: RoomNo)
        ensures { self.new ≡ made (change.CheckedOut party room) self.old }
    {
        leave(&mut self.rooms, room);
        self.stays.end(party, StayState::Done);
    }

    /// A new lock of a room, which holds a new code.
    pub(crate) fn refit(&mut self, room: RoomNo, code: Code, fit: FitNo) -> Result<(), Memory>
        requires there { IsSome (room_at self.old room) }
        requires few { codes_of self.old room < 2 ^ 32 - 1 }
        requires new_code { code_place self.old code ≡ None }
        requires new_fit { fit_at self.old room fit ≡ None }
        ensures ok { OnOk result (self.new ≡ made (change.Refit room code fit) self.old) }
        ensures err { OnErr result (self.new ≡ self.old) }
    {
        let place = codes_issued(&self.rooms, room);
        let before = notes_taken(&self.rooms, room);
        let Ok(()) = self.codes.insert(code, CodeRow { room, place }) else {
            return Err(Memory);
        };
        let row = FitRow {
            room,
            fit,
            place,
            before,
        };
        let Ok(_) = self.fits.insert((room, fit), row) else {
            self.codes.remove(code, CodeRow { room, place });
            return Err(Memory);
        };
        self.inside.clear(room);
        refit_at(&mut self.rooms, room, fit);
        Ok(())
    }

    pub(crate) fn add_note(
        &mut self,
        note: &LockNote,
        lock_place: u32,
        secured: bool,
        insides: InsideMove,
    ) -> Result<(), Memory>
        requires untaken { note_numbered self.old note.now.room
            (before_in self.old note.now.room + note.now.count) ≡ None }
        requires few { before_in self.old note.now.room + note.now.count < 2 ^ 32 }
        ensures ok { OnOk result (self.new ≡ made (change.Noted note.now lock_place secured insides) self.old) }
        ensures err { OnErr result (self.new ≡ self.old) }
    {
        let room = note.room;
        let count = note.count.value();
        let number = notes_before(&self.rooms, room) + count;
        let Ok(()) = self.notes.insert(number, note) else {
            return Err(Memory);
        };
        let Ok(()) = self.inside.change(room, insides) else {
            self.notes.remove(room, number);
            return Err(Memory);
        };
        note_at(&mut self.rooms, room, lock_place, secured, count);
        Ok(())
    }
}
