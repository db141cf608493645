//! One command that is carried out alone: its reply on one writer, and what went wrong on another.

ghost use Rattle.std.specs.Prelude.{◌≡◌, Bool};
ghost use Rattle.hotel_model.specs.declared.reply.Reply.{Reply};
ghost use Rattle.hotel_streams.specs.Calls.{CountsWrites, OnErrOf};
ghost use Rattle.hotel_program.specs.Alone.CommandRuns.{command_end, WritesReply};
ghost use Rattle.hotel_core.specs.Books.Stepped.{Stepped};
ghost use Rattle.hotel_program.specs.Faults.{end_status, Reports};
ghost use Rattle.hotel_program.specs.declared.faults.Fault.{Fault};

use crate::faults::{Fault, FaultSink, finish};
use crate::statuses::status_of;
use hotel_core::{Books, Command, reply_text, step};
use hotel_streams::{IoCalls, WriteFailed, write_bytes};
use rand_core::Rng;
use std::io::Write;

/// Carries out a command and writes its reply. It answers the exit status, or the fault that came instead.
fn step_and_write<B: Books, R: Rng, W: Write>(
    command: &Command,
    books: &mut B,
    source: &mut R,
    writer: &mut W,
    calls: &mut IoCalls,
) -> Result<u8, Fault>
    ensures ends { (reply : Reply) × (write_failed : Bool) × (result ≡ command_end reply write_failed)
        × WritesReply (W.contents writer.old) (W.contents writer.new) reply write_failed
        × Stepped B.Kept B.Books.own (books.old, R.stream source.old) (command.now, reply)
        (books.new, R.stream source.new) }
    ensures calls { CountsWrites calls.old calls.new (OnErrOf result Fault.Write) }
{
    let reply = step(books, source, command);
    match write_bytes(writer, reply_text(&reply).as_bytes(), calls) {
        Ok(()) => Ok(status_of(&reply)),
        Err(WriteFailed) => Err(Fault::Write),
    }
}

/// Carries out a command and writes its reply, and reports the fault that came instead. It answers the
/// exit status: 0, 3 where the command was refused, 4 where memory or the store failed, 5 where the
/// reply couldn't be written. A command that was accepted stands also then.
pub fn run_one<B: Books, R: Rng, W: Write, F: FaultSink>(
    command: &Command,
    books: &mut B,
    source: &mut R,
    writer: &mut W,
    faults: &mut F,
) -> u8
    ensures ends { (reply : Reply) × (write_failed : Bool) × (result ≡ end_status (command_end reply write_failed))
        × Reports F.told faults.old (command_end reply write_failed) faults.new
        × WritesReply (W.contents writer.old) (W.contents writer.new) reply write_failed
        × Stepped B.Kept B.Books.own (books.old, R.stream source.old) (command.now, reply)
        (books.new, R.stream source.new) }
{
    let mut calls = IoCalls::none();
    let end = step_and_write(command, books, source, writer, &mut calls);
    finish(end, faults, &mut calls)
}
