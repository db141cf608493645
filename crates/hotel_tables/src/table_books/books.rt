//! The look-ups and the changes, each counted where it fails.
ghost use Rattle.std.specs.Prelude.{refl};
ghost use Rattle.sqlite.specs.Held.{state};
ghost use Rattle.hotel_statements.specs.Tables.{rows_in};
ghost use Rattle.hotel_tables.specs.{Applied.LeavesChange, StopLaws.change_after};
ghost use Rattle.hotel_tables.specs.Causes.{ChangeFails};

use crate::table_books::TableBooks;
use hotel_books::Books;
use hotel_model::{Change, FitRow, NextNumbers, RoomRow};
use hotel_nights::{Day, Guest, KindCode, Stay};
use hotel_statements::look_ups;
use keycard_rules::{Card, CardNo, Code, Count, FitNo, LockNote, LookFault, PartyNo, RoomNo};
use sqlite::Alter;

impl<S: Alter> Books for TableBooks<S> {
    ghost rows = { λ b. rows_in (state S.Store b.conn).now.trees };

    ghost leaves_change = { λ change a b. LeavesChange change (state S.Store a.conn) (state S.Store b.conn) };

    ghost change_fails = { λ change a b. ChangeFails S.Store change a.conn b.conn };

    fn day(&mut self) -> Result<Option<Day>, LookFault> {
        self.ask()?;
        self.answers = false;
        let day = look_ups::day(self.alloc, &mut self.conn);
        self.counting(day)
    }

    fn kind(&mut self, kind: &KindCode) -> Result<bool, LookFault> {
        self.ask()?;
        self.answers = false;
        let there = look_ups::kind(self.alloc, &mut self.conn, kind);
        self.counting(there)
    }

    fn room(&mut self, room: RoomNo) -> Result<Option<RoomRow>, LookFault> {
        self.ask()?;
        self.answers = false;
        let row = look_ups::room(self.alloc, &mut self.conn, room);
        self.counting(row)
    }

    fn code_place(&mut self, code: Code) -> Result<Option<(RoomNo, u32)>, LookFault> {
        self.ask()?;
        self.answers = false;
        let place = look_ups::code_place(self.alloc, &mut self.conn, code);
        self.counting(place)
    }

    fn code_at(&mut self, room: RoomNo, place: u32) -> Result<Option<Code>, LookFault> {
        self.ask()?;
        self.answers = false;
        let code = look_ups::code_at(self.alloc, &mut self.conn, room, place);
        self.counting(code)
    }

    fn stay(&mut self, party: PartyNo) -> Result<Option<Stay>, LookFault> {
        self.ask()?;
        self.answers = false;
        let stay = look_ups::stay(self.alloc, &mut self.conn, party);
        self.counting(stay)
    }

    fn stays_of_kind(&mut self, kind: &KindCode) -> Result<Vec<Stay>, LookFault> {
        self.ask()?;
        self.answers = false;
        let stays = look_ups::stays_of_kind(self.alloc, &mut self.conn, kind);
        self.counting(stays)
    }

    fn full_night(
        &mut self,
        kind: &KindCode,
        arrive: Day,
        depart: Day,
    ) -> Result<Option<Day>, LookFault> {
        self.ask()?;
        let rooms = self.kinds.rooms(kind);
        Ok(self.nights.full_night(kind, rooms, arrive, depart))
    }

    fn copy_guest(&mut self, guest: &Guest) -> Result<Guest, LookFault> {
        self.ask()?;
        let copy = match guest.clone() {
            Ok(copy) => Ok(copy),
            Err(_) => Err(LookFault::Memory),
        };
        self.counting(copy)
    }

    fn card(&mut self, number: CardNo) -> Result<Option<Card>, LookFault> {
        self.ask()?;
        self.answers = false;
        let card = look_ups::card(self.alloc, &mut self.conn, number);
        self.counting(card)
    }

    fn inside(&mut self, room: RoomNo) -> Result<Vec<CardNo>, LookFault> {
        self.ask()?;
        self.answers = false;
        let numbers = look_ups::inside(self.alloc, &mut self.conn, room);
        self.counting(numbers)
    }

    fn is_inside(&mut self, room: RoomNo, number: CardNo) -> Result<bool, LookFault> {
        self.ask()?;
        self.answers = false;
        let inside = look_ups::is_inside(self.alloc, &mut self.conn, room, number);
        self.counting(inside)
    }

    fn has_inside(&mut self, room: RoomNo) -> Result<bool, LookFault> {
        self.ask()?;
        self.answers = false;
        let any = look_ups::has_inside(self.alloc, &mut self.conn, room);
        self.counting(any)
    }

    fn note(
        &mut self,
        room: RoomNo,
        fit: FitNo,
        count: Count,
    ) -> Result<Option<LockNote>, LookFault> {
        self.ask()?;
        self.answers = false;
        let note = look_ups::note(self.alloc, &mut self.conn, room, fit, count);
        self.counting(note)
    }

    fn fit(&mut self, room: RoomNo, fit: FitNo) -> Result<Option<FitRow>, LookFault> {
        self.ask()?;
        self.answers = false;
        let row = look_ups::fit(self.alloc, &mut self.conn, room, fit);
        self.counting(row)
    }

    fn rooms_of_kind(&mut self, kind: &KindCode) -> Result<u32, LookFault> {
        self.ask()?;
        Ok(self.kinds.rooms(kind))
    }

    fn next_numbers(&mut self) -> Result<NextNumbers, LookFault> {
        self.ask()?;
        self.answers = false;
        let numbers = look_ups::next_numbers(self.alloc, &mut self.conn);
        self.counting(numbers)
    }

    fn known_sound(&self) {
        // The type's invariant is known where a field is read.
        let _ = &self.memory;
    }

    fn apply(&mut self, change: Change) -> Result<(), LookFault> {
        match self.ask() {
            Ok(()) => {
                let applied = self.change_tables(&change);
                self.counting(applied)
            }
            Err(why) => Err(why),
        }
    }

    ghost kept_rows = { λ a b h. h };

    ghost change_after = { λ change a b c was same before stop. change_after change _ _ _ was same before stop };

    ghost issued_are = { λ a. refl };
}
