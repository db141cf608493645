//! The answer to a line that asks for a list.

ghost use Rattle.std.specs.Prelude.{Some, OnErr};
ghost use Rattle.rand_core.specs.Stream.{Stream};
ghost use Rattle.hotel_core.specs.Books.Happens.{HappensBy};
ghost use Rattle.hotel_asks.specs.declared.asked.Ask.TheVariants as ask;
ghost use Rattle.hotel_streams.specs.Calls.{CountsWrites};
ghost use Rattle.hotel_program.specs.Script.{LineAnswers.AskEnds};

use hotel_asks::{ListAsk, write_list};
use hotel_core::{Reply, Walks, reply_text};
use hotel_streams::{IoCalls, WriteFailed, write_bytes};
use std::alloc::Global;
use std::io::Write;

/// Writes the answer to a list: its text; or, where the room isn't there, the line that says so; or,
/// where memory or the store failed, whole rows of it and then the line that says so. The writes of the
/// list and of such a line are added to those of the script.
pub(crate) fn answer_list<W: Write, B: Walks>(
    alloc: Global,
    list: &ListAsk,
    writer: &mut W,
    books: &mut B,
    calls: &mut IoCalls,
) -> Result<(), WriteFailed>
    ensures went { (s : Stream) → HappensBy B.Kept B.Books.own books.old
        (AskEnds (Some (ask.List list.now)) s s (W.contents writer.old) (W.contents writer.new) result
        (B.is_clean books.old)) books.new }
    ensures calls { CountsWrites calls.old calls.new (OnErr result) }
{
    let Err(fault) = write_list(alloc, list, writer, books, calls) else {
        return Ok(());
    };
    let Some(refusal) = fault.told_refusal() else {
        return Err(WriteFailed);
    };
    let text = reply_text(&Reply::Refused(refusal));
    write_bytes(writer, text.as_bytes(), calls)
}
