//! A list that is asked for alone: its text on one writer, and what went wrong on another.

ghost use Rattle.std.specs.Prelude.{◌≡◌, Result};
ghost use Rattle.hotel_streams.specs.Calls.{CountsWrites, OnErrOf};
ghost use Rattle.hotel_lists.specs.RowLines.{LooksAt};
ghost use Rattle.hotel_lists.specs.declared.fault.ListFault.{ListFault};
ghost use Rattle.hotel_program.specs.Faults.{end_status, Reports};
ghost use Rattle.hotel_program.specs.Alone.ListRuns.{AnswerEnds, AnswerEndsFor, list_end};
ghost use Rattle.hotel_asks.specs.Listings.{listing_on};

use crate::faults::{Fault, FaultSink, finish};
use crate::statuses::{DONE, REFUSED};
use hotel_asks::{ListAsk, write_list};
use hotel_core::{Refusal, Reply, Walks, reply_text};
use hotel_lists::ListFault;
use hotel_streams::{IoCalls, write_bytes};
use std::alloc::Global;
use std::io::Write;

/// Writes a list's text; or, where the room isn't there, the line that says so.
fn write_list_or_refusal<W: Write, B: Walks>(
    alloc: Global,
    list: &ListAsk,
    writer: &mut W,
    books: &mut B,
    calls: &mut IoCalls,
) -> Result<(), ListFault>
    ensures text { B.is_honest books.new → AnswerEnds (listing_on (B.rows books.old) list.now) (W.contents writer.old)
        (W.contents writer.new) result }
    ensures books { LooksAt B.Kept books.old books.new result }
    ensures calls { CountsWrites calls.old calls.new (OnErrOf result ListFault.Write) }
{
    match write_list(alloc, list, writer, books, calls) {
        Err(ListFault::NoRoom) => {
            let refused = reply_text(&Reply::Refused(Refusal::NoRoom));
            write_bytes(writer, refused.as_bytes(), calls)?;
            Err(ListFault::NoRoom)
        }
        end => end,
    }
}

/// The exit status of a list that ended so, or the fault that is reported.
fn end_of_list(end: Result<(), ListFault>) -> Result<u8, Fault>
    ensures { result ≡ list_end end }
{
    match end {
        Ok(()) => Ok(DONE),
        Err(ListFault::NoRoom) => Ok(REFUSED),
        Err(ListFault::Memory) => Err(Fault::Memory),
        Err(ListFault::Store) => Err(Fault::Store),
        Err(ListFault::Write) => Err(Fault::Write),
    }
}

/// Answers a list: writes its text, or the line that its room isn't there, and reports the fault that came instead. It
/// answers the exit status. The interrupted writes of the call are counted together, on both writers.
pub fn run_list<B: Walks, W: Write, F: FaultSink>(
    alloc: Global,
    list: &ListAsk,
    books: &mut B,
    writer: &mut W,
    faults: &mut F,
) -> u8
    ensures ends { (end : Result (Unit {0}) ListFault) × (result ≡ end_status (list_end end))
        × Reports F.told faults.old (list_end end) faults.new
        × (B.is_honest books.new → AnswerEndsFor (B.rows books.old) list.now (W.contents writer.old)
        (W.contents writer.new) end)
        × LooksAt B.Kept books.old books.new end }
{
    let mut calls = IoCalls::none();
    let end = write_list_or_refusal(alloc, list, writer, books, &mut calls);
    finish(end_of_list(end), faults, &mut calls)
}
