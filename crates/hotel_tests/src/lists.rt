//! Lists by their own calls, over books in memory.
use hotel_asks::{Ask, ListAsk};
use hotel_core::Walks;
use hotel_core::lists::CardsGiven;
use hotel_lists::{
    ListFault, arrivals, audit_of, availability, bookings, business_day, card_of, chain_of,
    in_house, inside, left_behind, locks, room_status, write_rows,
};
use hotel_scenarios::chains::walks_end;
use hotel_scenarios::desks::Desk;
use hotel_scenarios::line_asks::ask_of;
use hotel_scenarios::scenarios::{CHECKED_IN, LEFT_BEHIND_RECODED, NEXT_CHECKED_IN, OPENED};
use hotel_streams::IoCalls;
use std::alloc::Global;
use std::io::Write;
use std::test::Fail;

/// The list that a line asks for.
pub(crate) fn list_of(alloc: Global, line: &[u8]) -> Result<ListAsk, Fail> {
    match &ask_of(alloc, line)? {
        Ask::List(list) => Ok(*list),
        Ask::Command(_) => Err(Fail::from("no list")),
    }
}

/// Writes a list by its own call.
pub(crate) fn write_alone<B: Walks, W: Write>(
    alloc: Global,
    list: &ListAsk,
    books: &mut B,
    writer: &mut W,
) -> Result<(), ListFault> {
    match list {
        ListAsk::Arrivals(day) => arrivals(alloc, books, *day, writer),
        ListAsk::InHouse => in_house(alloc, books, writer),
        ListAsk::ChainOf(room) => chain_of(alloc, books, *room, writer),
        ListAsk::LeftBehind => left_behind(alloc, books, writer),
        ListAsk::AuditOf(room) => audit_of(alloc, books, *room, writer),
        ListAsk::BusinessDay => business_day(alloc, books, writer),
        ListAsk::RoomStatus => room_status(alloc, books, writer),
        ListAsk::Inside => inside(alloc, books, writer),
        ListAsk::Bookings => bookings(alloc, books, writer),
        ListAsk::Availability(day, nights) => availability(alloc, books, *day, *nights, writer),
        ListAsk::CardsGiven(party) => {
            let mut calls = IoCalls::none();
            write_rows(alloc, books, &CardsGiven(*party), writer, &mut calls)
        }
        ListAsk::CardOf(number) => card_of(alloc, books, *number, writer),
        ListAsk::Locks => locks(alloc, books, writer),
    }
}

/// A desk of one room, of three codes, of which staff recoded the lock that was left behind.
fn recoded(alloc: Global) -> Result<Desk, Fail> {
    Desk::behind(
        alloc,
        &[0xa0, 0xa1, 0xa2],
        &[OPENED, CHECKED_IN, NEXT_CHECKED_IN, LEFT_BEHIND_RECODED],
    )
}

#[test]
fn a_walk_ends_where_its_sink_stops(rt: HostRuntime) -> Result<(), Fail> {
    let mut desk = recoded(rt.alloc())?;
    assert!(rt; walks_end(rt.alloc(), &mut desk.books)?);
    Ok(())
}
