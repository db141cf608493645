//! Books in memory.
ghost use Rattle.std.specs.Prelude.{◌≡◌, Err, IfSome, IsOk, Some, not, refl};
ghost use Rattle.std.proofs.Common.{ap, ◌∙◌};
ghost use Rattle.keycard_rules.specs.Rise.{Counts, HasRisen, NoFewer, of_memory, one_of};
ghost use Rattle.keycard_rules.specs.{declared.issued.LookFault.TheVariants.Memory};
ghost use Rattle.hotel_model.specs.{Guests.are_none, Rows.no_rows, Words.is_one_of};
ghost use Rattle.hotel_model.specs.Refinement.Lookups.{codes_in, inside_at};
ghost use Rattle.hotel_books.specs.Books.Reads.{LooksUp, is_any};
ghost use Rattle.hotel_books.specs.{Books.Walks.failure_of, declared.books.walks.WalkFault.TheVariants.Store};

use crate::table_walks::WalkedInMemory;
use crate::tables::Tables;
use hotel_books::{Books, Sink, WalkFault, Walks, WalksOf};
use hotel_model::{Change, FitRow, NextNumbers, RoomRow};
use hotel_nights::{Day, Guest, KindCode, Stay};
use keycard_rules::{
    Card, CardNo, Code, Count, FitNo, Issued, Kept, LockNote, LookFault, PartyNo, RoomNo,
};
use std::alloc::Global;
use std::marker::Model;

/// Books in memory.
///
/// Only memory fails: a call that finds none answers so, changes no row, and is counted.
#[derive(Drop)]
pub struct ListBooks {
    tables: Tables,
    failures: u64,
}

impl Model for ListBooks {
    ghost use Rattle.hotel_memory.specs.Tables.{Listed};
    ghost use Rattle.hotel_model.specs.{Sound.IsSound};

    ghost Value = { Listed };

    ghost view = { λ b. record { rows = b.tables; failures = b.failures } };

    ghost invariant = { λ b. IsSound b.tables };
}

impl ListBooks {
    /// Books with no rows, which take no memory yet.
    pub fn empty(alloc: Global) -> ListBooks
        ensures { result ≡ record { rows = no_rows; failures = 0 } }
    {
        ListBooks {
            tables: Tables::empty(alloc),
            failures: 0,
        }
    }

    /// Counts that memory ran out; the count stays at its greatest value.
    fn wanting(&mut self) -> LookFault
        ensures fault { result ≡ Memory }
        ensures rows { self.new.rows ≡ self.old.rows }
        ensures no_fewer { NoFewer (of_memory self.old.failures) (of_memory self.new.failures) }
        ensures counted { Counts (λ why. one_of why (Some result)) (of_memory self.old.failures)
            (of_memory self.new.failures) }
        ensures rose { HasRisen self.old.failures self.new.failures }
    {
        self.failures = self.failures.saturating_add(1);
        LookFault::Memory
    }

    /// How a walk ended, which is counted where it found no memory.
    fn ended(&mut self, end: Result<(), WalkFault>) -> Result<(), WalkFault>
        requires { end ≡ Err Store → ⊥ }
        ensures same { result ≡ end }
        ensures rows { self.new.rows ≡ self.old.rows }
        ensures no_fewer { NoFewer (of_memory self.old.failures) (of_memory self.new.failures) }
        ensures counted { Counts (λ why. one_of why (failure_of result)) (of_memory self.old.failures)
            (of_memory self.new.failures) }
        ensures rose { IfSome (failure_of result) (λ why. HasRisen (of_memory self.old.failures why)
            (of_memory self.new.failures why)) }
    {
        if matches!(end, Err(WalkFault::Memory)) {
            self.wanting();
        }
        end
    }
}

impl Kept for ListBooks {
    ghost issued = { λ b. codes_in b.rows };

    ghost is_clean = { λ _. Unit {0} };

    ghost is_honest = { λ _. Unit {0} };

    ghost leaves_no_more = { λ _ _. Unit {0} };

    ghost look_up_fails = { λ _ _. ⊥ };

    ghost is_kept = { λ a b. b.rows ≡ a.rows };

    ghost failures = { λ b. of_memory b.failures };

    ghost disk_failures = { λ _. 0 };

    ghost never_fails = { Unit {0} };

    ghost never_store = { λ a never. refl };

    ghost clean_honest = { λ a clean. clean };

    ghost kept_refl = { λ a. refl };

    ghost kept_trans = { λ a b c h k. k ∙ h };

    ghost no_more_refl = { λ a. tt };

    ghost no_more_trans = { λ a b c h k. tt };

    ghost kept_issued = { λ a b h. ap (λ rows. codes_in rows) h };
}

impl Issued for ListBooks {
    fn is_issued(&mut self, code: Code) -> Result<bool, LookFault> {
        Ok(self.tables.is_issued(code))
    }
}

impl Books for ListBooks {
    ghost rows = { λ b. b.rows };

    ghost leaves_change = { λ _ _ _. Unit {0} };

    ghost change_fails = { λ _ _ _. ⊥ };

    fn day(&mut self) -> Result<Option<Day>, LookFault> {
        Ok(self.tables.day())
    }

    fn kind(&mut self, kind: &KindCode) -> Result<bool, LookFault> {
        Ok(self.tables.has_kind(kind))
    }

    fn room(&mut self, room: RoomNo) -> Result<Option<RoomRow>, LookFault> {
        Ok(self.tables.room(room))
    }

    fn code_place(&mut self, code: Code) -> Result<Option<(RoomNo, u32)>, LookFault> {
        match self.tables.code_place(code) {
            Some(row) => Ok(Some((row.room, row.place))),
            None => Ok(None),
        }
    }

    fn code_at(&mut self, room: RoomNo, place: u32) -> Result<Option<Code>, LookFault> {
        Ok(self.tables.code_at(room, place))
    }

    fn stay(&mut self, party: PartyNo) -> Result<Option<Stay>, LookFault> {
        match self.tables.stay(party) {
            Ok(stay) => Ok(stay),
            Err(_) => Err(self.wanting()),
        }
    }

    fn stays_of_kind(&mut self, kind: &KindCode) -> Result<Vec<Stay>, LookFault> {
        match self.tables.stays_of_kind(kind) {
            Ok(stays) => Ok(stays),
            Err(_) => Err(self.wanting()),
        }
    }

    fn full_night(
        &mut self,
        kind: &KindCode,
        arrive: Day,
        depart: Day,
    ) -> Result<Option<Day>, LookFault> {
        Ok(self.tables.full_night(kind, arrive, depart))
    }

    fn copy_guest(&mut self, guest: &Guest) -> Result<Guest, LookFault> {
        match guest.clone() {
            Ok(copy) => Ok(copy),
            Err(_) => Err(self.wanting()),
        }
    }

    fn card(&mut self, number: CardNo) -> Result<Option<Card>, LookFault> {
        Ok(self.tables.card(number))
    }

    fn inside(&mut self, room: RoomNo) -> Result<Vec<CardNo>, LookFault> {
        match self.tables.inside(room) {
            Ok(numbers) => Ok(numbers),
            Err(_) => Err(self.wanting()),
        }
    }

    fn is_inside(&mut self, room: RoomNo, number: CardNo) -> Result<bool, LookFault>
        ensures looks { LooksUp ⟦<ListBooks as Kept>⟧ (is_any (inside_at self.old.rows room)) (λ a. a)
            (is_one_of number (inside_at self.old.rows room)) self.old self.new result }
        ensures sure { IsOk result }
    {
        Ok(self.tables.is_inside(room, number))
    }

    fn has_inside(&mut self, room: RoomNo) -> Result<bool, LookFault>
        ensures looks { LooksUp ⟦<ListBooks as Kept>⟧ (is_any (inside_at self.old.rows room)) (λ a. a)
            (not (are_none (inside_at self.old.rows room))) self.old self.new result }
        ensures sure { IsOk result }
    {
        Ok(self.tables.has_inside(room))
    }

    fn note(
        &mut self,
        room: RoomNo,
        fit: FitNo,
        count: Count,
    ) -> Result<Option<LockNote>, LookFault> {
        Ok(self.tables.note(room, fit, count))
    }

    fn fit(&mut self, room: RoomNo, fit: FitNo) -> Result<Option<FitRow>, LookFault> {
        Ok(self.tables.fit(room, fit))
    }

    fn rooms_of_kind(&mut self, kind: &KindCode) -> Result<u32, LookFault> {
        Ok(self.tables.rooms_of_kind(kind))
    }

    fn next_numbers(&mut self) -> Result<NextNumbers, LookFault> {
        Ok(self.tables.next_numbers())
    }

    fn known_sound(&self) {
        // The type's invariant is known where a field is read.
        let _ = &self.failures;
    }

    fn apply(&mut self, change: Change) -> Result<(), LookFault> {
        match self.tables.apply(change) {
            Ok(()) => Ok(()),
            Err(_) => Err(self.wanting()),
        }
    }

    ghost kept_rows = { λ a b h. h };

    ghost change_after = { λ change a b c was same before stop. tt };

    ghost issued_are = { λ a. refl };
}

impl<L: WalkedInMemory> WalksOf<L> for ListBooks {
    fn walk<S: Sink<L::Row>>(&mut self, list: &L, sink: &mut S) -> Result<(), WalkFault> {
        let end = list.walk_tables(&self.tables, sink);
        self.ended(end)
    }
}

impl Walks for ListBooks {}
