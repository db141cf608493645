//! Locks that are replaced.
ghost use Rattle.hotel_books.specs.Refinement.Finds.{reply_of};
ghost use Rattle.hotel_core.specs.Refinement.StepOnRows.{CarriesOut};
ghost use Rattle.hotel_model.specs.{Ranges.IsCommand};
ghost use Rattle.hotel_model.specs.declared.command.Command.TheVariants as command;

use crate::commands::changes::make;
use crate::commands::fresh_codes::fresh;
use crate::commands::look_ups::{room_there, today};
use hotel_books::Books;
use hotel_model::{Change, Refusal, Reply};
use keycard_rules::RoomNo;
use rand_core::Rng;

/// Replaces the lock of a room at which no party is registered; the new one holds a fresh code.
pub(crate) fn refit<B: Books, R: Rng>(
    books: &mut B,
    source: &mut R,
    room: RoomNo,
) -> Result<Reply, Refusal>
    requires { IsCommand (command.Refit room) }
    ensures { CarriesOut B.Kept B.Books.own (command.Refit room) books.old books.new
        (R.stream source.old) (R.stream source.new) (reply_of result) }
{
    today(books)?;
    let row = room_there(books, room)?;
    if row.party.is_some() {
        return Err(Refusal::RoomTaken);
    }
    let Some(fit) = row.fit.next() else {
        return Err(Refusal::FitsUsedUp);
    };
    let code = fresh(books, source)?;
    make(
        books,
        Change::Refit { room, code, fit },
        Reply::Refitted { code, fit },
    )
}
