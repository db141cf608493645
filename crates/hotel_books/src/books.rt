//! The books of the desk, however they are kept.
ghost use Rattle.std.specs.Prelude.{◌≡◌, ◌-◌, Option, true, false, is_some, length, not, option_map};
ghost use Rattle.hotel_model.specs.{Words.is_one_of, Rows.Rows, Rows.has_kind, Rows.fit_at, Rows.rooms_of_kind};
ghost use Rattle.hotel_model.specs.Guests.{are_none};
ghost use Rattle.hotel_books.specs.Books.{Reads.LooksUp, Reads.is_any, Reads.placed_row, Changes.Makes};
ghost use Rattle.hotel_books.specs.Books.Changes.{ChangesAfter};
ghost use Rattle.hotel_model.specs.Refinement.Lookups.{room_at, codes_in, code_place, code_at, stay_at, stays_of_kind};
ghost use Rattle.hotel_model.specs.Refinement.Lookups.{card_at, inside_at, note_at, first_full_on};
ghost use Rattle.hotel_model.specs.Refinement.Lookups.{number_after};
ghost use Rattle.hotel_model.specs.{Refinement.Fits.Fits, Sound.IsSound};
ghost use Rattle.hotel_model.specs.{declared.change.Change.Change};

pub mod walks;

use hotel_model::{Change, FitRow, NextNumbers, RoomRow};
use hotel_nights::{Day, Guest, KindCode, Stay};
use keycard_rules::{
    Card, CardNo, Code, Count, FitNo, Issued, LockNote, LookFault, PartyNo, RoomNo,
};

/// The books of the desk: nine tables, each seen as the list of its rows in the order of their keys.
///
/// A look-up changes nothing but the counts of failures. What is answered is so where the state is honest as the call
/// ends. What is answered for lack of memory or by the store's failure is counted, each by its cause.
pub trait Books: Issued {
    /// The rows of the nine tables.
    ghost rows: { Self → Rows };

    /// What a stop leaves in a change, or after it, from the first state to the second.
    ghost leaves_change: { Change → Self → Self → Type 0 };

    /// Why a change from the first state to the second isn't made, but for lack of memory: a call of the store failed.
    ghost change_fails: { Change → Self → Self → Type 0 };

    /// The business day, once it is set.
    fn day(&mut self) -> Result<Option<Day>, LookFault>
        ensures { LooksUp Self.Kept false (λ a. a) (rows self.old).day self.old self.new result };

    /// Whether the kind is there.
    fn kind(&mut self, kind: &KindCode) -> Result<bool, LookFault>
        ensures { LooksUp Self.Kept false (λ a. a) (has_kind (rows self.old) kind.now) self.old self.new result };

    /// A room's row.
    fn room(&mut self, room: RoomNo) -> Result<Option<RoomRow>, LookFault>
        ensures { LooksUp Self.Kept false (λ a. a) (room_at (rows self.old) room) self.old self.new result };

    /// The room at which a code stands, and its place among the room's codes, counted from 0 in order of issue.
    fn code_place(&mut self, code: Code) -> Result<Option<(RoomNo, u32)>, LookFault>
        ensures { LooksUp Self.Kept false (option_map placed_row) (code_place (rows self.old) code)
            self.old self.new result };

    /// The code at a place of a room.
    fn code_at(&mut self, room: RoomNo, place: u32) -> Result<Option<Code>, LookFault>
        ensures { LooksUp Self.Kept false (λ a. a) (code_at (rows self.old) room place) self.old self.new result };

    /// A party's stay; its guest's name is copied.
    fn stay(&mut self, party: PartyNo) -> Result<Option<Stay>, LookFault>
        ensures { LooksUp Self.Kept (is_some (stay_at (rows self.old) party)) (λ a. a) (stay_at (rows self.old) party)
            self.old self.new result };

    /// The stays of a kind, by the party's number.
    fn stays_of_kind(&mut self, kind: &KindCode) -> Result<Vec<Stay>, LookFault>
        ensures { LooksUp Self.Kept (is_any (stays_of_kind (rows self.old) kind.now)) (λ v. v.items)
            (stays_of_kind (rows self.old) kind.now) self.old self.new result };

    /// The first night from `arrive` on and before `depart` on which the kind's booked and in-house stays take all its
    /// rooms.
    fn full_night(
        &mut self,
        kind: &KindCode,
        arrive: Day,
        depart: Day,
    ) -> Result<Option<Day>, LookFault>
        ensures { LooksUp Self.Kept false (λ a. a) (first_full_on (rows self.old) kind.now arrive (depart - arrive))
            self.old self.new result };

    /// A copy of a guest's name, which takes memory of the books' own.
    fn copy_guest(&mut self, guest: &Guest) -> Result<Guest, LookFault>
        ensures { LooksUp Self.Kept true (λ a. a) guest.now self.old self.new result };

    /// A card, by its number.
    fn card(&mut self, number: CardNo) -> Result<Option<Card>, LookFault>
        ensures { LooksUp Self.Kept false (λ a. a) (card_at (rows self.old) number) self.old self.new result };

    /// The numbers of the cards inside a room, in order.
    fn inside(&mut self, room: RoomNo) -> Result<Vec<CardNo>, LookFault>
        ensures { LooksUp Self.Kept (is_any (inside_at (rows self.old) room)) (λ v. v.items)
            (inside_at (rows self.old) room) self.old self.new result };

    /// Whether a card is inside a room: by `inside`, unless books know it without a copy.
    fn is_inside(&mut self, room: RoomNo, number: CardNo) -> Result<bool, LookFault>
        ensures { LooksUp Self.Kept (is_any (inside_at (rows self.old) room)) (λ a. a)
            (is_one_of number (inside_at (rows self.old) room)) self.old self.new result }
    {
        let numbers = self.inside(room)?;
        Ok(numbers.contains(&number))
    }

    /// Whether any card is inside a room: by `inside`, unless books know it without a copy.
    fn has_inside(&mut self, room: RoomNo) -> Result<bool, LookFault>
        ensures { LooksUp Self.Kept (is_any (inside_at (rows self.old) room)) (λ a. a)
            (not (are_none (inside_at (rows self.old) room))) self.old self.new result }
    {
        let numbers = self.inside(room)?;
        Ok(!numbers.is_empty())
    }

    /// A note that was taken, by its room, lock and count.
    fn note(
        &mut self,
        room: RoomNo,
        fit: FitNo,
        count: Count,
    ) -> Result<Option<LockNote>, LookFault>
        ensures { LooksUp Self.Kept false (λ a. a) (note_at (rows self.old) room fit count)
            self.old self.new result };

    /// A lock of a room, by its number.
    fn fit(&mut self, room: RoomNo, fit: FitNo) -> Result<Option<FitRow>, LookFault>
        ensures { LooksUp Self.Kept false (λ a. a) (fit_at (rows self.old) room fit) self.old self.new result };

    /// How many rooms a kind has; 0 where it isn't there.
    fn rooms_of_kind(&mut self, kind: &KindCode) -> Result<u32, LookFault>
        ensures { LooksUp Self.Kept false (λ a. a) (rooms_of_kind (rows self.old).rooms kind.now)
            self.old self.new result };

    /// The numbers that the next party and the next card are given, up to the last number.
    fn next_numbers(&mut self) -> Result<NextNumbers, LookFault>
        ensures { LooksUp Self.Kept false (λ a. a) (record {
          party = number_after
              (length (rows self.old).stays);
          card = number_after (length (rows self.old).cards);
        })
            self.old self.new result };

    /// The rows are sound. The call does nothing.
    fn known_sound(&self)
        ensures { Self.is_clean self.now → IsSound (rows self.now) };

    /// Makes all of a change, or nothing.
    fn apply(&mut self, change: Change) -> Result<(), LookFault>
        requires { Self.is_clean self.old → Fits change (rows self.old) }
        ensures { Makes Self.Kept rows leaves_change change_fails change self.old self.new result };

    // What a look-up leaves has the same rows, and the issued codes are those of the rows.
    ghost kept_rows: { (a b : Self) → Self.is_kept a b → rows b ≡ rows a };

    // A change after what a look-up left: a stop leaves what the books say of the change made before it.
    ghost change_after: { ChangesAfter Self.Kept rows leaves_change };

    ghost issued_are: { (books : Self) → Self.issued books ≡ codes_in (rows books) };
}
