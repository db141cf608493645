//! The lists as text, within a call whose reads and writes are counted. The writes of a list are added to them.
ghost use Rattle.std.specs.Prelude.{◌≡◌, [], Some, is_some, Err};
ghost use Rattle.hotel_model.specs.Refinement.Lookups.{room_at};
ghost use Rattle.hotel_streams.specs.Calls.{CountsWrites, OnErrOf};
ghost use Rattle.hotel_lists.specs.declared.fault.ListFault.TheVariants.{NoRoom, Write};
ghost use Rattle.hotel_lists.specs.Listings.{ListEnds, WritesList, WritesRoomList, listing, of_room};
ghost use Rattle.hotel_lists.specs.Listings.{business_day_listing, card_listing};
ghost use Rattle.hotel_lists.specs.{RowLines.LooksAt, RowLines.FindsRoom, LookedLists.IsAfterLookUps};

use crate::fault::ListFault;
use crate::line_sink::{LineSink, hand_rows, listed};
use crate::looked_lists::{find_card, find_day};
use crate::row_lines::RowLine;
use hotel_books::lists::Listed;
use hotel_books::{Books, Walks, WalksOf};
use hotel_lock::Gathered;
use hotel_nights::Day;
use hotel_streams::{IoCalls, write_bytes};
use keycard_rules::{CardNo, RoomNo};
use std::alloc::Global;
use std::io::Write;

/// Whether the room is there, or why no list of it is written.
fn find_room<B: Books>(books: &mut B, room: RoomNo) -> Result<(), ListFault>
    ensures room { B.is_honest books.new → FindsRoom (room_at (B.rows books.old) room) result }
    ensures unwritten { result ≡ Err Write → ⊥ }
    ensures books { LooksAt B.Kept books.old books.new result }
{
    match books.room(room)? {
        Some(_) => Ok(()),
        None => Err(ListFault::NoRoom),
    }
}

/// Writes a list that is walked: its header and the lines of its rows.
pub fn write_rows<B: WalksOf<L>, L: Listed, W: Write>(
    alloc: Global,
    books: &mut B,
    list: &L,
    writer: &mut W,
    calls: &mut IoCalls,
) -> Result<(), ListFault>
where
    L::Row: RowLine,
    ensures list { WritesList B.Kept (Some (listing L.Row.header L.Row.line (L.rows_on list.now (B.rows books.old))))
        books.old books.new (W.contents writer.old) (W.contents writer.new) result }
    ensures calls { CountsWrites calls.old calls.new (OnErrOf result Write) }
{
    write_bytes(writer, <L::Row as RowLine>::header(), calls)?;
    let mut gathered = Gathered::none(alloc);
    let mut lines = LineSink::new(writer, calls, &mut gathered);
    let walked = books.walk(list, &mut lines);
    let end = lines.finish(walked);
    listed(end, lines.write_failed)
}

/// Writes a list of a room, where the room is there. `NoRoom` where it isn't.
pub fn write_room_rows<B: WalksOf<L>, L: Listed, W: Write>(
    alloc: Global,
    books: &mut B,
    room: RoomNo,
    list: &L,
    writer: &mut W,
    calls: &mut IoCalls,
) -> Result<(), ListFault>
where
    L::Row: RowLine,
    ensures list { WritesRoomList B.Kept (of_room (is_some (room_at (B.rows books.old) room)) (listing L.Row.header
        L.Row.line (L.rows_on list.now (B.rows books.old)))) books.old books.new
        (W.contents writer.old) (W.contents writer.new) result }
    ensures calls { CountsWrites calls.old calls.new (OnErrOf result Write) }
{
    find_room(books, room)?;
    write_rows(alloc, books, list, writer, calls)
}

/// Writes the header of a list and the lines of rows that were looked up.
fn write_found<R: RowLine, W: Write>(
    alloc: Global,
    rows: &[R],
    writer: &mut W,
    calls: &mut IoCalls,
) -> Result<(), ListFault>
    ensures text { ListEnds [] (Some (listing R.header R.line rows.now)) (W.contents writer.old)
        (W.contents writer.new) result }
    ensures looked { IsAfterLookUps result }
    ensures calls { CountsWrites calls.old calls.new (OnErrOf result Write) }
{
    write_bytes(writer, R::header(), calls)?;
    let mut gathered = Gathered::none(alloc);
    let mut lines = LineSink::new(writer, calls, &mut gathered);
    let handed = hand_rows(rows, &mut lines);
    let end = lines.finish(handed);
    listed(end, lines.write_failed)
}

/// Writes the business day, once it is set.
pub fn write_business_day<B: Books, W: Write>(
    alloc: Global,
    books: &mut B,
    writer: &mut W,
    calls: &mut IoCalls,
) -> Result<(), ListFault>
    ensures list { WritesList B.Kept (business_day_listing (B.rows books.old)) books.old books.new
        (W.contents writer.old) (W.contents writer.new) result }
    ensures calls { CountsWrites calls.old calls.new (OnErrOf result Write) }
{
    match find_day(books)? {
        Some(day) => write_found(alloc, &[day], writer, calls),
        None => write_found::<Day, W>(alloc, &[], writer, calls),
    }
}

/// Writes the card of a number, with its party and its party's guest; no row where there is no such card.
pub fn write_card_of<B: Walks, W: Write>(
    alloc: Global,
    books: &mut B,
    number: CardNo,
    writer: &mut W,
    calls: &mut IoCalls,
) -> Result<(), ListFault>
    ensures list { WritesList B.Kept (card_listing (B.rows books.old) number) books.old books.new
        (W.contents writer.old) (W.contents writer.new) result }
    ensures calls { CountsWrites calls.old calls.new (OnErrOf result Write) }
{
    let cards = find_card(alloc, books, number)?;
    write_found(alloc, cards.as_slice(), writer, calls)
}
