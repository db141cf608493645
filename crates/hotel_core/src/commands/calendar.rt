//! The business day.
ghost use Rattle.std.specs.Prelude.{◌≡◌, false};
ghost use Rattle.hotel_books.specs.Refinement.Finds.{reply_of};
ghost use Rattle.hotel_core.specs.Refinement.StepOnRows.{CarriesOutWithoutWords};
ghost use Rattle.hotel_model.specs.{Run.is_failed, Ranges.IsCommand};
ghost use Rattle.hotel_model.specs.declared.command.Command.TheVariants as command;

use crate::commands::changes::make;
use crate::commands::look_ups::{day_if_set, today};
use hotel_books::Books;
use hotel_model::{Change, Refusal, Reply};
use hotel_nights::Day;

/// Sets the first business day.
pub(crate) fn begin<B: Books>(books: &mut B, day: Day) -> Result<Reply, Refusal>
    requires { IsCommand (command.Begin day) }
    ensures steps { CarriesOutWithoutWords B.Kept B.Books.own (command.Begin day) books.old books.new
        (reply_of result) }
    ensures sure { B.never_fails → is_failed (reply_of result) ≡ false }
{
    if day_if_set(books)?.is_some() {
        return Err(Refusal::AlreadyBegun);
    }
    make(books, Change::Begin(day), Reply::Begun)
}

/// Moves the business day on by one.
pub(crate) fn next_day<B: Books>(books: &mut B) -> Result<Reply, Refusal>
    ensures steps { CarriesOutWithoutWords B.Kept B.Books.own command.NextDay books.old books.new (reply_of result) }
    ensures sure { B.never_fails → is_failed (reply_of result) ≡ false }
{
    let day = today(books)?;
    let Some(next) = day.plus(1) else {
        return Err(Refusal::LastDay);
    };
    make(books, Change::DayTo(next), Reply::DayIs(next))
}
