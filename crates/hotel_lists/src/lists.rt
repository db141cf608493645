//! The lists as text, each by its name: a header, and a line for each row. What has no name here `write_rows` writes.
ghost use Rattle.hotel_lists.specs.Listings.{WritesList, WritesRoomList, arrivals_listing, audit_listing};
ghost use Rattle.hotel_lists.specs.Listings.{availability_listing, bookings_listing, business_day_listing};
ghost use Rattle.hotel_lists.specs.Listings.{card_listing, chain_listing, in_house_listing};
ghost use Rattle.hotel_lists.specs.Listings.{inside_listing, left_behind_listing, locks_listing, room_status_listing};

use crate::fault::ListFault;
use crate::write_lists::{write_business_day, write_card_of, write_room_rows, write_rows};
use hotel_books::{Walks, lists};
use hotel_nights::{Day, Nights};
use hotel_streams::IoCalls;
use keycard_rules::{CardNo, RoomNo};
use std::alloc::Global;
use std::io::Write;

/// Writes the booked stays that take the night of a day, by party.
pub fn arrivals<B: Walks, W: Write>(
    alloc: Global,
    books: &mut B,
    day: Day,
    writer: &mut W,
) -> Result<(), ListFault>
    ensures list { WritesList B.Kept (arrivals_listing (B.rows books.old) day) books.old books.new
        (W.contents writer.old) (W.contents writer.new) result }
{
    write_rows(
        alloc,
        books,
        &lists::Arrivals(day),
        writer,
        &mut IoCalls::none(),
    )
}

/// Writes the rooms with a registered party, by room.
pub fn in_house<B: Walks, W: Write>(
    alloc: Global,
    books: &mut B,
    writer: &mut W,
) -> Result<(), ListFault>
    ensures list { WritesList B.Kept (in_house_listing (B.rows books.old)) books.old books.new
        (W.contents writer.old) (W.contents writer.new) result }
{
    write_rows(alloc, books, &lists::InHouse, writer, &mut IoCalls::none())
}

/// Writes the codes of a room in order of issue. `NoRoom` where it isn't there.
pub fn chain_of<B: Walks, W: Write>(
    alloc: Global,
    books: &mut B,
    room: RoomNo,
    writer: &mut W,
) -> Result<(), ListFault>
    ensures list { WritesRoomList B.Kept (chain_listing (B.rows books.old) room) books.old books.new
        (W.contents writer.old) (W.contents writer.new) result }
{
    write_room_rows(
        alloc,
        books,
        room,
        &lists::ChainOf(room),
        writer,
        &mut IoCalls::none(),
    )
}

/// Writes the rooms whose lock awaits two codes or more, by room.
pub fn left_behind<B: Walks, W: Write>(
    alloc: Global,
    books: &mut B,
    writer: &mut W,
) -> Result<(), ListFault>
    ensures list { WritesList B.Kept (left_behind_listing (B.rows books.old)) books.old books.new
        (W.contents writer.old) (W.contents writer.new) result }
{
    write_rows(
        alloc,
        books,
        &lists::LeftBehind,
        writer,
        &mut IoCalls::none(),
    )
}

/// Writes the notes of a room, in the order in which they were taken. `NoRoom` where it isn't there.
pub fn audit_of<B: Walks, W: Write>(
    alloc: Global,
    books: &mut B,
    room: RoomNo,
    writer: &mut W,
) -> Result<(), ListFault>
    ensures list { WritesRoomList B.Kept (audit_listing (B.rows books.old) room) books.old books.new
        (W.contents writer.old) (W.contents writer.new) result }
{
    write_room_rows(
        alloc,
        books,
        room,
        &lists::AuditOf(room),
        writer,
        &mut IoCalls::none(),
    )
}

/// Writes the business day, once it is set.
pub fn business_day<B: Walks, W: Write>(
    alloc: Global,
    books: &mut B,
    writer: &mut W,
) -> Result<(), ListFault>
    ensures list { WritesList B.Kept (business_day_listing (B.rows books.old)) books.old books.new
        (W.contents writer.old) (W.contents writer.new) result }
{
    write_business_day(alloc, books, writer, &mut IoCalls::none())
}

/// Writes all rooms, by room: each with its registered party, whether it is secured, and how many codes its
/// lock awaits.
pub fn room_status<B: Walks, W: Write>(
    alloc: Global,
    books: &mut B,
    writer: &mut W,
) -> Result<(), ListFault>
    ensures list { WritesList B.Kept (room_status_listing (B.rows books.old)) books.old books.new
        (W.contents writer.old) (W.contents writer.new) result }
{
    write_rows(
        alloc,
        books,
        &lists::RoomStatus,
        writer,
        &mut IoCalls::none(),
    )
}

/// Writes the cards inside rooms, by room and card, each with the party that it was given to.
pub fn inside<B: Walks, W: Write>(
    alloc: Global,
    books: &mut B,
    writer: &mut W,
) -> Result<(), ListFault>
    ensures list { WritesList B.Kept (inside_listing (B.rows books.old)) books.old books.new
        (W.contents writer.old) (W.contents writer.new) result }
{
    write_rows(alloc, books, &lists::Inside, writer, &mut IoCalls::none())
}

/// Writes the booked stays, by party.
pub fn bookings<B: Walks, W: Write>(
    alloc: Global,
    books: &mut B,
    writer: &mut W,
) -> Result<(), ListFault>
    ensures list { WritesList B.Kept (bookings_listing (B.rows books.old)) books.old books.new
        (W.contents writer.old) (W.contents writer.new) result }
{
    write_rows(alloc, books, &lists::Bookings, writer, &mut IoCalls::none())
}

/// Writes the kinds, in the order of their letters: each with its rooms, and with how many bookings for so many
/// nights from the day on wouldn't be refused for these nights, one after the other.
pub fn availability<B: Walks, W: Write>(
    alloc: Global,
    books: &mut B,
    day: Day,
    nights: Nights,
    writer: &mut W,
) -> Result<(), ListFault>
    ensures list { WritesList B.Kept (availability_listing (B.rows books.old) day nights) books.old books.new
        (W.contents writer.old) (W.contents writer.new) result }
{
    write_rows(
        alloc,
        books,
        &lists::Availability(day, nights),
        writer,
        &mut IoCalls::none(),
    )
}

/// Writes the card of a number, with its party and its party's guest; no row where there is no such card.
pub fn card_of<B: Walks, W: Write>(
    alloc: Global,
    books: &mut B,
    number: CardNo,
    writer: &mut W,
) -> Result<(), ListFault>
    ensures list { WritesList B.Kept (card_listing (B.rows books.old) number) books.old books.new
        (W.contents writer.old) (W.contents writer.new) result }
{
    write_card_of(alloc, books, number, writer, &mut IoCalls::none())
}

/// Writes the present lock of each room, by room: how many of its notes were taken, and when it noted the last.
pub fn locks<B: Walks, W: Write>(
    alloc: Global,
    books: &mut B,
    writer: &mut W,
) -> Result<(), ListFault>
    ensures list { WritesList B.Kept (locks_listing (B.rows books.old)) books.old books.new
        (W.contents writer.old) (W.contents writer.new) result }
{
    write_rows(alloc, books, &lists::Locks, writer, &mut IoCalls::none())
}
