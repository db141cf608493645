//! The list that is asked for, written.

ghost use Rattle.std.specs.Prelude.{[]};
ghost use Rattle.hotel_streams.specs.Calls.{CountsWrites, OnErrOf};
ghost use Rattle.hotel_lists.specs.{RowLines.LooksAt, Listings.ListEnds};
ghost use Rattle.hotel_asks.specs.Listings.{listing_on};

use crate::asked::ListAsk;
use hotel_core::{Walks, lists};
use hotel_lists::{ListFault, write_business_day, write_card_of, write_room_rows, write_rows};
use hotel_streams::IoCalls;
use std::alloc::Global;
use std::io::Write;

/// Writes the text of a list. Its writes are added to the calls.
pub fn write_list<W: Write, B: Walks>(
    alloc: Global,
    list: &ListAsk,
    writer: &mut W,
    books: &mut B,
    calls: &mut IoCalls,
) -> Result<(), ListFault>
    ensures text { B.is_honest books.new → ListEnds [] (listing_on (B.rows books.old) list.now) (W.contents writer.old)
        (W.contents writer.new) result }
    ensures books { LooksAt B.Kept books.old books.new result }
    ensures calls { CountsWrites calls.old calls.new (OnErrOf result ListFault.Write) }
{
    match list {
        ListAsk::Arrivals(day) => write_rows(alloc, books, &lists::Arrivals(*day), writer, calls),
        ListAsk::InHouse => write_rows(alloc, books, &lists::InHouse, writer, calls),
        ListAsk::ChainOf(room) => write_room_rows(
            alloc,
            books,
            *room,
            &lists::ChainOf(*room),
            writer,
            calls,
        ),
        ListAsk::LeftBehind => write_rows(alloc, books, &lists::LeftBehind, writer, calls),
        ListAsk::AuditOf(room) => write_room_rows(
            alloc,
            books,
            *room,
            &lists::AuditOf(*room),
            writer,
            calls,
        ),
        ListAsk::BusinessDay => write_business_day(alloc, books, writer, calls),
        ListAsk::RoomStatus => write_rows(alloc, books, &lists::RoomStatus, writer, calls),
        ListAsk::Inside => write_rows(alloc, books, &lists::Inside, writer, calls),
        ListAsk::Bookings => write_rows(alloc, books, &lists::Bookings, writer, calls),
        ListAsk::Availability(day, nights) => write_rows(
            alloc,
            books,
            &lists::Availability(*day, *nights),
            writer,
            calls,
        ),
        ListAsk::CardsGiven(party) => write_rows(
            alloc,
            books,
            &lists::CardsGiven(*party),
            writer,
            calls,
        ),
        ListAsk::CardOf(card) => write_card_of(alloc, books, *card, writer, calls),
        ListAsk::Locks => write_rows(alloc, books, &lists::Locks, writer, calls),
    }
}
