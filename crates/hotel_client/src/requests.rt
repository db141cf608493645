//! Requests that are served over bytes in memory.
use crate::commands::{desk_behind, first_booking};
use hotel_core::{ListBooks, Walks};
use hotel_http::{ServeFault, Served, serve_one};
use hotel_scenarios::desks::Desk;
use std::alloc::Global;
use std::io::Write;
use std::test::Fail;

/// A check-in of the first party.
pub(crate) const CHECK_IN: &[u8] =
    b"POST /reservations/1/check-in HTTP/1.1\r\nHost: localhost\r\nContent-Length: 8\r\n\r\nroom=101";

/// The answer to the first one.
pub(crate) const CHECKED_IN: &[u8] =
    b"HTTP/1.1 200 OK\r\nContent-Type: text/plain; charset=utf-8\r\nContent-Length: 49\r\n\
        Connection: close\r\n\r\ncard 1 party 1 old 0000000000a0 new 0000000000a1\n";

/// The answer to a second one.
pub(crate) const NOT_BOOKED: &[u8] =
    b"HTTP/1.1 409 Conflict\r\nContent-Type: text/plain; charset=utf-8\r\nContent-Length: 20\r\n\
        Connection: close\r\n\r\nrefused 8 NotBooked\n";

/// A list.
const IN_HOUSE: &[u8] = b"GET /in-house HTTP/1.1\r\nHost: localhost\r\n\r\n";

/// Its answer where party 1 is checked in.
const ONE_GUEST: &[u8] =
    b"HTTP/1.1 200 OK\r\nContent-Type: text/csv; charset=utf-8\r\nContent-Length: 69\r\n\
        Connection: close\r\n\r\nroom,party,guest,kind,depart,secured\n101,1,Ann Lee,DBL,2031-05-03,no\n";

/// The desk answers the request to the writer.
pub(crate) fn serve<B: Walks, W: Write>(
    desk: &mut Desk<B>,
    request: &[u8],
    writer: &mut W,
) -> Result<Served, ServeFault> {
    let mut reader = request;
    serve_one(
        desk.alloc,
        &mut reader,
        writer,
        &mut desk.books,
        &mut desk.source,
    )
}

/// A desk over books in memory, behind a booking of Ann Lee.
pub(crate) fn booked(alloc: Global) -> Result<Desk, Fail> {
    let commands = first_booking(alloc, "Ann Lee")?;
    desk_behind(alloc, ListBooks::empty(alloc), commands.as_slice())
}

/// A request, its answer, the status and whether it acted.
static EXCHANGES: [(&[u8], &[u8], u16, bool); 3] = [
    (CHECK_IN, CHECKED_IN, 200, true),
    (CHECK_IN, NOT_BOOKED, 409, false),
    (IN_HOUSE, ONE_GUEST, 200, false),
];

#[test]
fn requests_served(rt: HostRuntime) -> Result<(), Fail> {
    let mut desk = booked(rt.alloc())?;
    for (request, answer, status, acted) in &EXCHANGES {
        let mut writer = Vec::new(rt.alloc());
        let served = serve(&mut desk, request, &mut writer)?;
        assert!(rt; writer.as_slice() == *answer);
        assert!(rt; served.status == *status && served.acted == *acted);
    }
    Ok(())
}
