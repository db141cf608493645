//! What commands find in the books, or the refusal where it isn't there.
ghost use Rattle.std.specs.Prelude.{◌≡◌, Option, Some, None, false, Result, Ok, Err, IsSome, length};
ghost use Rattle.hotel_model.specs.{Refinement.Lookups.room_at, Refinement.Lookups.stay_at, Refinement.Lookups.card_at};
ghost use Rattle.hotel_model.specs.{Refinement.Lookups.number_after, Rows.has_kind};
ghost use Rattle.hotel_books.specs.Refinement.Finds.{Finds, AnyRows, has_failed, known, there_or};
ghost use Rattle.hotel_books.specs.Books.Failures.{refusal_of};
ghost use Rattle.hotel_model.specs.declared.reply.Refusal.TheVariants.{NotBegun, NoRoom, NoParty, NoCard};
ghost use Rattle.hotel_model.specs.declared.reply.Refusal.TheVariants.{NumbersUsedUp, Store};

use hotel_books::Books;
use hotel_model::{Refusal, RoomRow};
use hotel_nights::{Day, KindCode, Stay};
use keycard_rules::{Card, CardNo, LookFault, PartyNo, RoomNo};

pub(crate) fn refusal_of(fault: LookFault) -> Refusal
    ensures { result ≡ refusal_of fault }
{
    match fault {
        LookFault::Memory => Refusal::Memory,
        LookFault::Store => Refusal::Store,
    }
}

pub(crate) fn known<A>(answer: Result<A, LookFault>) -> Result<A, Refusal>
    ensures { result ≡ known answer }
{
    match answer {
        Ok(found) => Ok(found),
        Err(fault) => Err(refusal_of(fault)),
    }
}

pub(crate) fn there_or<A>(answer: Result<Option<A>, LookFault>, why: Refusal) -> Result<A, Refusal>
    ensures { result ≡ there_or why answer }
{
    match answer {
        Ok(Some(found)) => Ok(found),
        Ok(None) => Err(why),
        Err(fault) => Err(refusal_of(fault)),
    }
}

/// The business day.
pub(crate) fn today<B: Books>(books: &mut B) -> Result<Day, Refusal>
    ensures finds { Finds B.Kept B.Books.own AnyRows NotBegun (λ rows. rows.day) books.old books.new result }
    ensures sure { B.never_fails → has_failed result ≡ false }
{
    let day = books.day();
    there_or(day, Refusal::NotBegun)
}

/// The business day, where one is set.
pub(crate) fn day_if_set<B: Books>(books: &mut B) -> Result<Option<Day>, Refusal>
    ensures finds { Finds B.Kept B.Books.own AnyRows Store (λ rows. Some rows.day) books.old books.new result }
    ensures sure { B.never_fails → has_failed result ≡ false }
{
    let day = books.day();
    known(day)
}

pub(crate) fn is_kind<B: Books>(books: &mut B, kind: &KindCode) -> Result<bool, Refusal>
    ensures { Finds B.Kept B.Books.own AnyRows Store (λ rows. Some (has_kind rows kind.now))
        books.old books.new result }
{
    let answer = books.kind(kind);
    known(answer)
}

pub(crate) fn room_there<B: Books>(books: &mut B, room: RoomNo) -> Result<RoomRow, Refusal>
    ensures { Finds B.Kept B.Books.own AnyRows NoRoom (λ rows. room_at rows room) books.old books.new result }
{
    let row = books.room(room);
    there_or(row, Refusal::NoRoom)
}

pub(crate) fn stay_there<B: Books>(books: &mut B, party: PartyNo) -> Result<Stay, Refusal>
    ensures { Finds B.Kept B.Books.own AnyRows NoParty (λ rows. stay_at rows party) books.old books.new result }
{
    let stay = books.stay(party);
    there_or(stay, Refusal::NoParty)
}

/// The row of a room in which a party is in house, which sound books have.
pub(crate) fn row_of<B: Books>(books: &mut B, room: RoomNo) -> Result<RoomRow, Refusal>
    ensures { Finds B.Kept B.Books.own (λ rows. IsSome (room_at rows room)) Store
        (λ rows. room_at rows room) books.old books.new result }
{
    let row = books.room(room);
    there_or(row, Refusal::Store)
}

/// The room's row, where it is there.
pub(crate) fn room_if_there<B: Books>(
    books: &mut B,
    room: RoomNo,
) -> Result<Option<RoomRow>, Refusal>
    ensures { Finds B.Kept B.Books.own AnyRows Store (λ rows. Some (room_at rows room)) books.old books.new result }
{
    let row = books.room(room);
    known(row)
}

/// The number of the next party.
pub(crate) fn next_party<B: Books>(books: &mut B) -> Result<PartyNo, Refusal>
    ensures { Finds B.Kept B.Books.own AnyRows NumbersUsedUp
        (λ rows. number_after (length rows.stays)) books.old books.new result }
{
    let numbers = books.next_numbers();
    let number = known(numbers)?.party;
    number.ok_or(Refusal::NumbersUsedUp)
}

/// The number of the next card.
pub(crate) fn next_card<B: Books>(books: &mut B) -> Result<CardNo, Refusal>
    ensures { Finds B.Kept B.Books.own AnyRows NumbersUsedUp
        (λ rows. number_after (length rows.cards)) books.old books.new result }
{
    let numbers = books.next_numbers();
    let number = known(numbers)?.card;
    number.ok_or(Refusal::NumbersUsedUp)
}

pub(crate) fn card_there<B: Books>(books: &mut B, number: CardNo) -> Result<Card, Refusal>
    ensures { Finds B.Kept B.Books.own AnyRows NoCard (λ rows. card_at rows number) books.old books.new result }
{
    let card = books.card(number);
    there_or(card, Refusal::NoCard)
}
