//! The kinds and the rooms.
ghost use Rattle.hotel_books.specs.Refinement.Finds.{reply_of};
ghost use Rattle.hotel_core.specs.Refinement.StepOnRows.{CarriesOut, CarriesOutWithoutWords};
ghost use Rattle.hotel_model.specs.{Ranges.IsCommand};
ghost use Rattle.hotel_model.specs.declared.command.Command.TheVariants as command;

use crate::commands::changes::make;
use crate::commands::fresh_codes::fresh;
use crate::commands::look_ups::{is_kind, room_if_there, today};
use hotel_books::Books;
use hotel_model::{Change, Refusal, Reply};
use hotel_nights::KindCode;
use keycard_rules::RoomNo;
use rand_core::Rng;

/// Adds a kind.
pub(crate) fn add_kind<B: Books>(books: &mut B, kind: &KindCode) -> Result<Reply, Refusal>
    requires { IsCommand (command.AddKind kind.now) }
    ensures { CarriesOutWithoutWords B.Kept B.Books.own (command.AddKind kind.now) books.old books.new
        (reply_of result) }
{
    today(books)?;
    if is_kind(books, kind)? {
        return Err(Refusal::KindExists);
    }
    make(books, Change::Kind(*kind), Reply::KindAdded)
}

/// Adds a room whose lock holds a fresh code.
pub(crate) fn add_room<B: Books, R: Rng>(
    books: &mut B,
    source: &mut R,
    room: RoomNo,
    kind: &KindCode,
) -> Result<Reply, Refusal>
    requires { IsCommand (command.AddRoom room kind.now) }
    ensures { CarriesOut B.Kept B.Books.own (command.AddRoom room kind.now) books.old books.new
        (R.stream source.old) (R.stream source.new) (reply_of result) }
{
    today(books)?;
    if !is_kind(books, kind)? {
        return Err(Refusal::NoKind);
    }
    if room_if_there(books, room)?.is_some() {
        return Err(Refusal::RoomExists);
    }
    let code = fresh(books, source)?;
    let kind = *kind;
    make(
        books,
        Change::Room { room, kind, code },
        Reply::RoomAdded { code },
    )
}
