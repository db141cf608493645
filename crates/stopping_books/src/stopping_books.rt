//! Books in memory of which one call fails.
ghost use Rattle.std.specs.Prelude.{◌≡◌, ◌-◌, is_err, is_some, Some, IfErr, IfOk, true, false, length, not, refl};
ghost use Rattle.std.specs.Prelude.{option_map};
ghost use Rattle.std.proofs.Common.{ap, ◌∙◌};
ghost use Rattle.keycard_rules.specs.{Leaves.Looks, Leaves.told_by, Words.is_one_of};
ghost use Rattle.stopping_books.specs.Stops.{counts, CountsFailure, IsCall, IsLeft, MakesCall};
ghost use Rattle.hotel_model.specs.{Guests.are_none, Rows.fit_at, Rows.has_kind, Rows.rooms_of_kind};
ghost use Rattle.hotel_model.specs.Refinement.Fits.{Fits};
ghost use Rattle.hotel_model.specs.Refinement.Lookups.{room_at, codes_in, code_place, code_at, stay_at, stays_of_kind};
ghost use Rattle.hotel_model.specs.Refinement.Lookups.{card_at, inside_at, note_at, first_full_on, number_after};
ghost use Rattle.hotel_books.specs.Books.{Reads.LooksUp, Reads.is_any, Reads.placed_row, Changes.Makes};

use crate::calls::Calls;
use hotel_core::{Books, Change, FitRow, ListBooks, NextNumbers, RoomRow};
use hotel_nights::{Day, Guest, KindCode, Stay};
use keycard_rules::{
    Card, CardNo, Code, Count, FitNo, Issued, Kept, LockNote, LookFault, PartyNo, RoomNo,
};
use std::marker::Model;

/// Books in memory of which one call fails.
///
/// The call that fails changes no row, and is counted by its cause; the calls after it are carried out. A walk makes a
/// call before each row that it hands over, and one at its end: so it can fail before its first row, between two, or
/// after its last.
#[derive(Drop)]
pub struct StoppingBooks {
    pub(crate) books: ListBooks,
    pub(crate) calls: Calls,
    cause: LookFault,
    memory: u64,
    store: u64,
}

impl Model for StoppingBooks {
    ghost use Rattle.stopping_books.specs.Stops.{Stopping};

    ghost Value = { Stopping };

    ghost view = { λ b. record {
      rows = b.books.rows;
      calls = b.calls;
      cause = b.cause;
      memory = b.memory;
      store = b.store;
    } };
}

impl StoppingBooks {
    /// Books whose call of this number, counted from 1, fails for this cause; none does where it is 0.
    pub fn new(books: ListBooks, failing: u64, cause: LookFault) -> StoppingBooks
        ensures { result ≡ record {
          rows = books.rows;
          calls = record { made = 0; failing = failing };
          cause = cause;
          memory = 0;
          store = 0;
        } }
    {
        StoppingBooks {
            books,
            calls: Calls::none_before(failing),
            cause,
            memory: 0,
            store: 0,
        }
    }

    /// How many calls were made.
    pub fn calls(&self) -> u64
        ensures { result ≡ self.now.calls.made }
    {
        self.calls.made()
    }

    /// How many calls failed for this cause.
    pub fn failures(&self, cause: LookFault) -> u64
        ensures { result ≡ counts self.now cause }
    {
        match cause {
            LookFault::Memory => self.memory,
            LookFault::Store => self.store,
        }
    }

    /// Why the call fails.
    pub(crate) fn cause(&self) -> LookFault
        ensures { result ≡ self.now.cause }
    {
        self.cause
    }

    /// Counts a failure; a count stays at its greatest value.
    pub(crate) fn count(&mut self, cause: LookFault)
        ensures left { IsLeft self.old self.new }
        ensures counted { CountsFailure (Some cause) self.old self.new }
    {
        match cause {
            LookFault::Memory => self.memory = self.memory.saturating_add(1),
            LookFault::Store => self.store = self.store.saturating_add(1),
        }
    }

    /// Makes a call, which fails where its number is the one that is to fail.
    pub(crate) fn begin(&mut self) -> Result<(), LookFault>
        ensures rows { self.new.rows ≡ self.old.rows }
        ensures calls { MakesCall self.old.calls self.new.calls (is_err result) }
        ensures cause { self.new.cause ≡ self.old.cause }
        ensures why { IfErr result (λ why. why ≡ self.old.cause) }
        ensures counted { CountsFailure (told_by result) self.old self.new }
    {
        if self.calls.fails() {
            let cause = self.cause;
            self.count(cause);
            return Err(cause);
        }
        Ok(())
    }

    /// What the books in memory found; where they found no memory, that is counted.
    fn found<T>(&mut self, found: Result<T, LookFault>) -> Result<T, LookFault>
        ensures same { result ≡ found }
        ensures left { IsLeft self.old self.new }
        ensures counted { CountsFailure (told_by result) self.old self.new }
    {
        match found {
            Ok(answer) => Ok(answer),
            Err(cause) => {
                self.count(cause);
                Err(cause)
            }
        }
    }
}

impl Kept for StoppingBooks {
    ghost issued = { λ b. codes_in b.rows };

    ghost is_clean = { λ _. Unit {0} };

    ghost is_honest = { λ _. Unit {0} };

    ghost leaves_no_more = { λ _ _. Unit {0} };

    ghost look_up_fails = { λ _ _. Unit {0} };

    ghost is_kept = { λ a b. b.rows ≡ a.rows };

    ghost failures = { counts };

    ghost disk_failures = { λ _. 0 };

    ghost never_fails = { ⊥ };

    ghost never_store = { λ a never. absurd never };

    ghost clean_honest = { λ a clean. clean };

    ghost kept_refl = { λ a. refl };

    ghost kept_trans = { λ a b c h k. k ∙ h };

    ghost no_more_refl = { λ a. tt };

    ghost no_more_trans = { λ a b c h k. tt };

    ghost kept_issued = { λ a b h. ap (λ rows. codes_in rows) h };
}

impl Issued for StoppingBooks {
    fn is_issued(&mut self, code: Code) -> Result<bool, LookFault>
        ensures answer { ⟦<StoppingBooks as Kept>⟧.is_honest self.new
            → IfOk result (λ yes. yes ≡ is_one_of code (codes_in self.old.rows)) }
        ensures looks { Looks ⟦<StoppingBooks as Kept>⟧ false self.old (told_by result) self.new }
        ensures call { IsCall self.old self.new result }
    {
        self.begin()?;
        let found = self.books.is_issued(code);
        self.found(found)
    }
}

impl Books for StoppingBooks {
    ghost rows = { λ b. b.rows };

    ghost leaves_change = { λ _ _ _. Unit {0} };

    ghost change_fails = { λ _ _ _. Unit {0} };

    fn day(&mut self) -> Result<Option<Day>, LookFault>
        ensures looks { LooksUp ⟦<StoppingBooks as Kept>⟧ false (λ a. a) self.old.rows.day self.old self.new result }
        ensures call { IsCall self.old self.new result }
    {
        self.begin()?;
        let found = self.books.day();
        self.found(found)
    }

    fn kind(&mut self, kind: &KindCode) -> Result<bool, LookFault>
        ensures looks { LooksUp ⟦<StoppingBooks as Kept>⟧ false (λ a. a) (has_kind self.old.rows kind.now)
            self.old self.new result }
        ensures call { IsCall self.old self.new result }
    {
        self.begin()?;
        let found = self.books.kind(kind);
        self.found(found)
    }

    fn room(&mut self, room: RoomNo) -> Result<Option<RoomRow>, LookFault>
        ensures looks { LooksUp ⟦<StoppingBooks as Kept>⟧ false (λ a. a) (room_at self.old.rows room)
            self.old self.new result }
        ensures call { IsCall self.old self.new result }
    {
        self.begin()?;
        let found = self.books.room(room);
        self.found(found)
    }

    fn code_place(&mut self, code: Code) -> Result<Option<(RoomNo, u32)>, LookFault>
        ensures looks { LooksUp ⟦<StoppingBooks as Kept>⟧ false (option_map placed_row) (code_place
            self.old.rows code)
            self.old self.new result }
        ensures call { IsCall self.old self.new result }
    {
        self.begin()?;
        let found = self.books.code_place(code);
        self.found(found)
    }

    fn code_at(&mut self, room: RoomNo, place: u32) -> Result<Option<Code>, LookFault>
        ensures looks { LooksUp ⟦<StoppingBooks as Kept>⟧ false (λ a. a) (code_at self.old.rows room place)
            self.old self.new result }
        ensures call { IsCall self.old self.new result }
    {
        self.begin()?;
        let found = self.books.code_at(room, place);
        self.found(found)
    }

    fn stay(&mut self, party: PartyNo) -> Result<Option<Stay>, LookFault>
        ensures looks { LooksUp ⟦<StoppingBooks as Kept>⟧ (is_some (stay_at self.old.rows party)) (λ a. a)
            (stay_at self.old.rows party)
            self.old self.new result }
        ensures call { IsCall self.old self.new result }
    {
        self.begin()?;
        let found = self.books.stay(party);
        self.found(found)
    }

    fn stays_of_kind(&mut self, kind: &KindCode) -> Result<Vec<Stay>, LookFault>
        ensures looks { LooksUp ⟦<StoppingBooks as Kept>⟧ (is_any (stays_of_kind self.old.rows kind.now))
            (λ v. v.items)
            (stays_of_kind self.old.rows kind.now) self.old self.new result }
        ensures call { IsCall self.old self.new result }
    {
        self.begin()?;
        let found = self.books.stays_of_kind(kind);
        self.found(found)
    }

    fn full_night(
        &mut self,
        kind: &KindCode,
        arrive: Day,
        depart: Day,
    ) -> Result<Option<Day>, LookFault>
        ensures looks { LooksUp ⟦<StoppingBooks as Kept>⟧ false
            (λ a. a) (first_full_on self.old.rows kind.now arrive (depart - arrive))
            self.old self.new result }
        ensures call { IsCall self.old self.new result }
    {
        self.begin()?;
        let found = self.books.full_night(kind, arrive, depart);
        self.found(found)
    }

    fn copy_guest(&mut self, guest: &Guest) -> Result<Guest, LookFault>
        ensures looks { LooksUp ⟦<StoppingBooks as Kept>⟧ true (λ a. a) guest.now self.old self.new result }
        ensures call { IsCall self.old self.new result }
    {
        self.begin()?;
        let copy = self.books.copy_guest(guest);
        self.found(copy)
    }

    fn card(&mut self, number: CardNo) -> Result<Option<Card>, LookFault>
        ensures looks { LooksUp ⟦<StoppingBooks as Kept>⟧ false (λ a. a) (card_at self.old.rows number)
            self.old self.new result }
        ensures call { IsCall self.old self.new result }
    {
        self.begin()?;
        let found = self.books.card(number);
        self.found(found)
    }

    fn inside(&mut self, room: RoomNo) -> Result<Vec<CardNo>, LookFault>
        ensures looks { LooksUp ⟦<StoppingBooks as Kept>⟧ (is_any (inside_at self.old.rows room)) (λ v. v.items)
            (inside_at self.old.rows room) self.old self.new result }
        ensures call { IsCall self.old self.new result }
    {
        self.begin()?;
        let found = self.books.inside(room);
        self.found(found)
    }

    fn is_inside(&mut self, room: RoomNo, number: CardNo) -> Result<bool, LookFault>
        ensures looks { LooksUp ⟦<StoppingBooks as Kept>⟧ (is_any (inside_at self.old.rows room)) (λ a. a)
            (is_one_of number (inside_at self.old.rows room)) self.old self.new result }
        ensures call { IsCall self.old self.new result }
    {
        self.begin()?;
        let found = self.books.is_inside(room, number);
        self.found(found)
    }

    fn has_inside(&mut self, room: RoomNo) -> Result<bool, LookFault>
        ensures looks { LooksUp ⟦<StoppingBooks as Kept>⟧ (is_any (inside_at self.old.rows room)) (λ a. a)
            (not (are_none (inside_at self.old.rows room))) self.old self.new result }
        ensures call { IsCall self.old self.new result }
    {
        self.begin()?;
        let found = self.books.has_inside(room);
        self.found(found)
    }

    fn note(
        &mut self,
        room: RoomNo,
        fit: FitNo,
        count: Count,
    ) -> Result<Option<LockNote>, LookFault>
        ensures looks { LooksUp ⟦<StoppingBooks as Kept>⟧ false (λ a. a) (note_at self.old.rows room fit count)
            self.old self.new result }
        ensures call { IsCall self.old self.new result }
    {
        self.begin()?;
        let found = self.books.note(room, fit, count);
        self.found(found)
    }

    fn fit(&mut self, room: RoomNo, fit: FitNo) -> Result<Option<FitRow>, LookFault>
        ensures looks { LooksUp ⟦<StoppingBooks as Kept>⟧ false (λ a. a) (fit_at self.old.rows room fit)
            self.old self.new result }
        ensures call { IsCall self.old self.new result }
    {
        self.begin()?;
        let found = self.books.fit(room, fit);
        self.found(found)
    }

    fn rooms_of_kind(&mut self, kind: &KindCode) -> Result<u32, LookFault>
        ensures looks { LooksUp ⟦<StoppingBooks as Kept>⟧ false (λ a. a) (rooms_of_kind self.old.rows.rooms kind.now)
            self.old self.new result }
        ensures call { IsCall self.old self.new result }
    {
        self.begin()?;
        let found = self.books.rooms_of_kind(kind);
        self.found(found)
    }

    fn next_numbers(&mut self) -> Result<NextNumbers, LookFault>
        ensures looks { LooksUp ⟦<StoppingBooks as Kept>⟧ false (λ a. a) (record {
          party = number_after (length self.old.rows.stays);
          card = number_after (length self.old.rows.cards);
        })
            self.old self.new result }
        ensures call { IsCall self.old self.new result }
    {
        self.begin()?;
        match self.books.next_numbers() {
            Ok(numbers) => Ok(numbers),
            Err(cause) => {
                self.count(cause);
                Err(cause)
            }
        }
    }

    fn known_sound(&self) {
        self.books.known_sound();
    }

    fn apply(&mut self, change: Change) -> Result<(), LookFault>
        requires { ⟦<StoppingBooks as Kept>⟧.is_clean self.old → Fits change self.old.rows }
        ensures makes { Makes ⟦<StoppingBooks as Kept>⟧ (λ b. b.rows) (λ _ _ _. Unit {0})
            (λ _ _ _. Unit {0}) change self.old self.new result }
        ensures call { IsCall self.old self.new result }
    {
        self.begin()?;
        let made = self.books.apply(change);
        self.found(made)
    }

    ghost kept_rows = { λ a b h. h };

    ghost change_after = { λ change a b c was same before stop. tt };

    ghost issued_are = { λ a. refl };
}
