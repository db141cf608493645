//! One command, over any books.
ghost use Rattle.std.specs.Prelude.{◌≡◌, true, false};
ghost use Rattle.hotel_core.specs.Books.Stepped.{Noted, Stepped};
ghost use Rattle.hotel_model.specs.declared.command.Command.TheVariants as command;
ghost use Rattle.hotel_model.specs.{NoteReplies.IsNoteReply, Ranges.IsCommand, Run.is_failed};
ghost use Rattle.hotel_books.specs.Refinement.Finds.{reply_of};
ghost use Rattle.hotel_core.specs.Refinement.StepOnRows.{CarriesOut};
ghost use Rattle.hotel_model.specs.Refinement.Fits.{takes_none};

use crate::commands::bookings::{cancel, reserve};
use crate::commands::calendar::{begin, next_day};
use crate::commands::guest_moves::{check_in, check_out, reissue, spare, transfer};
use crate::commands::kinds_and_rooms::{add_kind, add_room};
use crate::commands::notes::take_note;
use crate::commands::ranges::{known_command, known_note, known_reply};
use crate::commands::refits::refit;
use hotel_books::Books;
use hotel_model::{Command, Refusal, Reply};
use keycard_rules::LockNote;
use rand_core::Rng;

fn reply_of(outcome: Result<Reply, Refusal>) -> Reply
    ensures { result ≡ reply_of outcome }
{
    match outcome {
        Ok(reply) => reply,
        Err(refusal) => Reply::Refused(refusal),
    }
}

/// Carries out a command.
fn carry_out<B: Books, R: Rng>(
    books: &mut B,
    source: &mut R,
    command: &Command,
) -> Result<Reply, Refusal>
    requires { IsCommand command.now }
    ensures steps { CarriesOut B.Kept B.Books.own command.now books.old books.new
        (R.stream source.old) (R.stream source.new) (reply_of result) }
    ensures sure { B.never_fails → takes_none command.now ≡ true → is_failed (reply_of result) ≡ false }
{
    match command {
        Command::Begin(day) => begin(books, *day),
        Command::AddKind(kind) => add_kind(books, kind),
        Command::AddRoom { room, kind } => add_room(books, source, *room, kind),
        Command::Reserve {
            guest,
            kind,
            arrive,
            nights,
        } => reserve(books, guest, kind, *arrive, *nights),
        Command::Cancel(party) => cancel(books, *party),
        Command::CheckIn { party, room } => check_in(books, source, *party, *room),
        Command::Spare(party) => spare(books, *party),
        Command::Reissue(party) => reissue(books, source, *party),
        Command::Transfer { party, room } => transfer(books, source, *party, *room),
        Command::CheckOut(party) => check_out(books, *party),
        Command::Refit(room) => refit(books, source, *room),
        Command::NextDay => next_day(books),
        Command::Reported(note) => take_note(books, note),
    }
}

/// Carries out one command, or refuses it and changes nothing.
///
/// `Memory` and `Store` may stand in place of any answer; the books count these failures.
pub fn step<B: Books, R: Rng>(books: &mut B, source: &mut R, command: &Command) -> Reply
    ensures { Stepped B.Kept B.Books.own (books.old, R.stream source.old) (command.now, result)
        (books.new, R.stream source.new) }
{
    known_command(command);
    books.known_sound();
    let outcome = carry_out(books, source, command);
    let reply = reply_of(outcome);
    known_reply(&reply);
    reply
}

/// Takes a note of a lock: `step` of [`Command::Reported`], which draws nothing.
pub fn report<B: Books>(books: &mut B, note: &LockNote) -> Reply
    ensures noted { Noted B.Kept B.Books.own note.now books.old books.new result }
    ensures note { B.is_honest books.new → IsNoteReply result }
{
    known_note(note);
    books.known_sound();
    let taken = take_note(books, note);
    let reply = reply_of(taken);
    known_reply(&reply);
    reply
}
