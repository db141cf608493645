//! The answers to an audit file, written to any writer.

ghost use Rattle.hotel_streams.specs.Bytes.{Writes};
ghost use Rattle.hotel_audit.specs.Answers.{answers_text};

use crate::answer::LineAnswer;
use crate::texts::answer_text;
use hotel_streams::{IoCalls, WriteFailed, write_bytes};
use std::io::Write;

/// Writes the texts of answers, a line each, numbered from 1. After a fault the writer took a prefix of them.
pub fn write_answers<W: Write>(
    writer: &mut W,
    answers: &[LineAnswer],
    calls: &mut IoCalls,
) -> Result<(), WriteFailed>
    ensures writes { Writes (W.contents writer.old) (W.contents writer.new) (answers_text 1 answers.now)
        calls.old calls.new result }
{
    for (index, answer) in answers.iter().enumerate() {
        let text = answer_text(index + 1, answer);
        write_bytes(writer, text.as_bytes(), calls)?;
    }
    Ok(())
}
