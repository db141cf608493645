//! Parties that come, move and leave.
ghost use Rattle.std.specs.Prelude.{◌≡◌, Option, Some, None, bytes_eq};
ghost use Rattle.hotel_model.specs.{Stays.is_booked_state, Stays.room_of_state};
ghost use Rattle.hotel_books.specs.Refinement.Finds.{reply_of, IsChecked};
ghost use Rattle.hotel_core.specs.Refinement.StepOnRows.{CarriesOut, CarriesOutWithoutWords};
ghost use Rattle.hotel_model.specs.{Refinement.CardsOnRows.bars_to_check_in, Refinement.CardsOnRows.bars_to_transfer};
ghost use Rattle.hotel_model.specs.declared.command.Command.TheVariants as command;

use crate::commands::changes::make;
use crate::commands::look_ups::{next_card, room_there, row_of, stay_there, today};
use crate::commands::room_cards::{issue, last_link};
use hotel_books::Books;
use hotel_model::{Change, Refusal, Reply, RoomRow};
use hotel_nights::{Day, KindCode, Stay, StayState};
use keycard_rules::{Card, PartyNo, RoomNo};
use rand_core::Rng;

fn same_kind(a: &KindCode, b: &KindCode) -> bool
    ensures { result ≡ bytes_eq a.now b.now }
{
    a.as_bytes() == b.as_bytes()
}

pub(crate) const fn is_booked(stay: &Stay) -> bool
    ensures { result ≡ is_booked_state stay.now.state }
{
    matches!(stay.state, StayState::Booked)
}

/// The room of a party in house.
const fn home_of(stay: &Stay) -> Option<RoomNo>
    ensures { result ≡ room_of_state stay.now.state }
{
    match stay.state {
        StayState::InHouse(room) => Some(room),
        StayState::Booked | StayState::Done | StayState::Cancelled => None,
    }
}

fn may_check_in(day: Day, row: &RoomRow, stay: &Stay) -> Result<(), Refusal>
    ensures { IsChecked (bars_to_check_in day row.now stay.now) result }
{
    if !is_booked(stay) {
        return Err(Refusal::NotBooked);
    }
    if day < stay.arrive {
        return Err(Refusal::TooEarly);
    }
    if stay.depart <= day {
        return Err(Refusal::StayOver);
    }
    if !same_kind(&row.kind, &stay.kind) {
        return Err(Refusal::WrongKind);
    }
    if row.party.is_some() {
        return Err(Refusal::RoomTaken);
    }
    Ok(())
}

fn may_transfer(party: PartyNo, row: &RoomRow, stay: &Stay) -> Result<(), Refusal>
    ensures { IsChecked (bars_to_transfer party row.now stay.now) result }
{
    if !same_kind(&row.kind, &stay.kind) {
        return Err(Refusal::WrongKind);
    }
    match row.party {
        Some(other) if other == party => Err(Refusal::SameRoom),
        Some(_) => Err(Refusal::RoomTaken),
        None => Ok(()),
    }
}

/// Registers a booked party at a room, and gives it a card.
pub(crate) fn check_in<B: Books, R: Rng>(
    books: &mut B,
    source: &mut R,
    party: PartyNo,
    room: RoomNo,
) -> Result<Reply, Refusal>
    ensures { CarriesOut B.Kept B.Books.own (command.CheckIn party room) books.old books.new
        (R.stream source.old) (R.stream source.new) (reply_of result) }
{
    let day = today(books)?;
    let row = room_there(books, room)?;
    let stay = stay_there(books, party)?;
    may_check_in(day, &row, &stay)?;
    issue(books, source, party, &row, room, None)
}

/// Moves a party in house to another room, and gives it a card.
pub(crate) fn transfer<B: Books, R: Rng>(
    books: &mut B,
    source: &mut R,
    party: PartyNo,
    room: RoomNo,
) -> Result<Reply, Refusal>
    ensures { CarriesOut B.Kept B.Books.own (command.Transfer party room) books.old books.new
        (R.stream source.old) (R.stream source.new) (reply_of result) }
{
    today(books)?;
    let row = room_there(books, room)?;
    let stay = stay_there(books, party)?;
    let Some(home) = home_of(&stay) else {
        return Err(Refusal::NotInHouse);
    };
    may_transfer(party, &row, &stay)?;
    issue(books, source, party, &row, room, Some(home))
}

/// Gives a party in house one more card of its last link.
pub(crate) fn spare<B: Books>(books: &mut B, party: PartyNo) -> Result<Reply, Refusal>
    ensures { CarriesOutWithoutWords B.Kept B.Books.own (command.Spare party) books.old books.new (reply_of result) }
{
    today(books)?;
    let stay = stay_there(books, party)?;
    let Some(home) = home_of(&stay) else {
        return Err(Refusal::NotInHouse);
    };
    let number = next_card(books)?;
    let link = last_link(books, home)?;
    let card = &Card {
        number,
        party,
        link,
    };
    make(books, Change::Spare(*card), Reply::Issued(*card))
}

/// Gives a party in house a card of a fresh code for its room.
pub(crate) fn reissue<B: Books, R: Rng>(
    books: &mut B,
    source: &mut R,
    party: PartyNo,
) -> Result<Reply, Refusal>
    ensures { CarriesOut B.Kept B.Books.own (command.Reissue party) books.old books.new
        (R.stream source.old) (R.stream source.new) (reply_of result) }
{
    today(books)?;
    let stay = stay_there(books, party)?;
    let Some(home) = home_of(&stay) else {
        return Err(Refusal::NotInHouse);
    };
    let row = row_of(books, home)?;
    issue(books, source, party, &row, home, None)
}

/// Ends the stay of a party in house.
pub(crate) fn check_out<B: Books>(books: &mut B, party: PartyNo) -> Result<Reply, Refusal>
    ensures { CarriesOutWithoutWords B.Kept B.Books.own (command.CheckOut party) books.old books.new
        (reply_of result) }
{
    today(books)?;
    let stay = stay_there(books, party)?;
    let Some(room) = home_of(&stay) else {
        return Err(Refusal::NotInHouse);
    };
    row_of(books, room)?;
    make(books, Change::CheckedOut { party, room }, Reply::CheckedOut)
}
