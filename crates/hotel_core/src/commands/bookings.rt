//! Bookings.
ghost use Rattle.std.specs.Prelude.{◌-◌, Option, Some};
ghost use Rattle.hotel_model.specs.{Refinement.Lookups.first_full_on};
ghost use Rattle.hotel_books.specs.Refinement.Finds.{Finds, AnyRows, reply_of};
ghost use Rattle.hotel_model.specs.{Ranges.IsCommand, declared.reply.Refusal.TheVariants.Store};
ghost use Rattle.hotel_core.specs.Refinement.StepOnRows.{CarriesOutWithoutWords};
ghost use Rattle.hotel_model.specs.declared.command.Command.TheVariants as command;

use crate::commands::changes::make;
use crate::commands::guest_moves::is_booked;
use crate::commands::look_ups::{is_kind, known, next_party, stay_there, today};
use hotel_books::Books;
use hotel_model::{Change, Refusal, Reply};
use hotel_nights::{Day, Guest, KindCode, Nights, Stay, StayState};
use keycard_rules::PartyNo;

/// The first night of a stay on which each room of the kind is taken.
fn first_full<B: Books>(
    books: &mut B,
    kind: &KindCode,
    arrive: Day,
    depart: Day,
) -> Result<Option<Day>, Refusal>
    ensures { Finds B.Kept B.Books.own AnyRows Store
        (λ rows. Some (first_full_on rows kind.now arrive (depart - arrive))) books.old books.new result }
{
    let night = books.full_night(kind, arrive, depart);
    known(night)
}

/// Gives up a booking.
pub(crate) fn cancel<B: Books>(books: &mut B, party: PartyNo) -> Result<Reply, Refusal>
    ensures { CarriesOutWithoutWords B.Kept B.Books.own (command.Cancel party) books.old books.new (reply_of result) }
{
    today(books)?;
    let stay = stay_there(books, party)?;
    if !is_booked(&stay) {
        return Err(Refusal::NotBooked);
    }
    make(books, Change::Cancelled(party), Reply::Cancelled)
}

/// A copy of a guest's name.
fn copied<B: Books>(books: &mut B, guest: &Guest) -> Result<Guest, Refusal>
    ensures { Finds B.Kept B.Books.own AnyRows Store (λ _. Some guest.now) books.old books.new result }
{
    let copy = books.copy_guest(guest);
    known(copy)
}

/// Books a room of a kind; the guest's name is copied.
pub(crate) fn reserve<B: Books>(
    books: &mut B,
    guest: &Guest,
    kind: &KindCode,
    arrive: Day,
    nights: Nights,
) -> Result<Reply, Refusal>
    requires { IsCommand (command.Reserve guest.now kind.now arrive nights) }
    ensures { CarriesOutWithoutWords B.Kept B.Books.own (command.Reserve guest.now kind.now arrive nights)
        books.old books.new (reply_of result) }
{
    let today = today(books)?;
    if !is_kind(books, kind)? {
        return Err(Refusal::NoKind);
    }
    if arrive < today {
        return Err(Refusal::PastArrival);
    }
    let Some(depart) = arrive.plus(u16::from(nights.value())) else {
        return Err(Refusal::PastEnd);
    };
    if let Some(night) = first_full(books, kind, arrive, depart)? {
        return Err(Refusal::KindFull(night));
    }
    let party = next_party(books)?;
    let guest = copied(books, guest)?;
    let kind = *kind;
    let state = StayState::Booked;
    let stay = Stay {
        party,
        guest,
        kind,
        arrive,
        depart,
        state,
    };
    make(books, Change::Reserved(stay), Reply::Reserved { party })
}
