//! The answer to a line of a script.

ghost use Rattle.std.specs.Prelude.{Some, OnErr};
ghost use Rattle.hotel_asks.specs.declared.asked.Ask.TheVariants as ask;
ghost use Rattle.hotel_core.specs.Books.Happens.{HappensBy};
ghost use Rattle.hotel_streams.specs.Bytes.{Writes};
ghost use Rattle.hotel_streams.specs.Calls.{CountsWrites};
ghost use Rattle.hotel_program.specs.Script.{Asks.ask_in, LineAnswers.AskEnds, LineAnswers.answer_text};

use crate::script::asks::read_line;
use crate::script::list_answers::answer_list;
use hotel_asks::Ask;
use hotel_core::{Books, Command, Refusal, Reply, Walks, reply_text, step};
use hotel_streams::{IoCalls, WriteFailed, write_bytes};
use rand_core::Rng;
use std::alloc::Global;
use std::io::Write;

/// The answer to a line.
#[derive(Clone, Copy, Debug)]
pub(crate) enum ScriptAnswer {
    /// The reply to the command that the line asks for.
    Replied(Reply),
    /// The line asks for no command; nothing was done.
    Unread,
}

/// Writes the text of an answer. After a fault the writer took a prefix of it.
fn write_answer<W: Write>(
    writer: &mut W,
    answer: &ScriptAnswer,
    calls: &mut IoCalls,
) -> Result<(), WriteFailed>
    ensures writes { Writes (W.contents writer.old) (W.contents writer.new) (answer_text answer.now)
        calls.old calls.new result }
{
    match answer {
        ScriptAnswer::Replied(reply) => { write_bytes(writer, reply_text(reply).as_bytes(), calls) }
        ScriptAnswer::Unread => write_bytes(writer, b"unread\n", calls),
    }
}

/// Carries out a command and writes the reply.
fn answer_command<W: Write, B: Books, R: Rng>(
    command: &Command,
    writer: &mut W,
    books: &mut B,
    source: &mut R,
    calls: &mut IoCalls,
) -> Result<(), WriteFailed>
    ensures went { HappensBy B.Kept B.Books.own books.old (AskEnds (Some (ask.Command command.now))
        (R.stream source.old) (R.stream source.new)
        (W.contents writer.old) (W.contents writer.new) result (B.is_clean books.old)) books.new }
    ensures calls { CountsWrites calls.old calls.new (OnErr result) }
{
    let answer = ScriptAnswer::Replied(step(books, source, command));
    write_answer(writer, &answer, calls)
}

/// Reads a line, which is without its end, carries out its command, and writes the answer; of a list,
/// the list itself. Where a growth of memory for the line is refused, nothing is done and the answer
/// says so. After a fault the writer took a prefix of the answer.
pub(crate) fn answer_line<W: Write, B: Walks, R: Rng>(
    alloc: Global,
    line: &[u8],
    writer: &mut W,
    books: &mut B,
    source: &mut R,
    calls: &mut IoCalls,
) -> Result<(), WriteFailed>
    ensures went { HappensBy B.Kept B.Books.own books.old (AskEnds (ask_in line.now) (R.stream source.old)
        (R.stream source.new)
        (W.contents writer.old) (W.contents writer.new) result (B.is_clean books.old)) books.new }
    ensures calls { CountsWrites calls.old calls.new (OnErr result) }
{
    match read_line(alloc, line) {
        Ok(Some(Ask::Command(command))) => {
            answer_command(&command, writer, books, source, calls)
        }
        Ok(Some(Ask::List(list))) => answer_list(alloc, &list, writer, books, calls),
        Ok(None) => write_answer(writer, &ScriptAnswer::Unread, calls),
        Err(_) => {
            let answer = ScriptAnswer::Replied(Reply::Refused(Refusal::Memory));
            write_answer(writer, &answer, calls)
        }
    }
}
