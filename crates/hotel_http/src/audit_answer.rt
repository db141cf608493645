//! The answer to an audit file, from buffers of fixed size.

ghost use Rattle.std.specs.Prelude.{◌≡◌, ◌≤◌, length};
ghost use Rattle.hotel_streams.specs.Bytes.{Writes};
ghost use Rattle.hotel_audit.specs.{Answers.answers_text};
ghost use Rattle.hotel_core.specs.declared.reply_texts.TheConstants.{REPLY_BYTES};
ghost use Rattle.hotel_http.specs.AuditAnswer.{lines_answer, import_status, fault_body, fault_answer};

use crate::answer::{Media, head_text, memory_text, write_short};
use crate::buffer::HeadText;
use crate::status::Status;
use hotel_audit::{ImportFault, LineAnswer, answer_text, stopped_text, write_answers};
use hotel_lock::AuditFault;
use hotel_streams::{IoCalls, WriteFailed, write_bytes};
use keycard_rules::LookFault;
use std::io::Write;

/// The number of bytes of the texts of answers. No sum of them overflows a `u128`.
fn answers_size(answers: &[LineAnswer]) -> u128
    ensures { result ≡ length (answers_text 1 answers.now) }
{
    let mut size = 0;
    for (index, answer) in answers.iter().enumerate() {
        size += answer_text(index + 1, answer).as_bytes().len() as u128;
    }
    size
}

/// Writes the answer to an audit file whose lines were all answered. After a fault the writer took a prefix of it.
pub(crate) fn write_audit<W: Write>(
    writer: &mut W,
    answers: &[LineAnswer],
    calls: &mut IoCalls,
) -> Result<(), WriteFailed>
    ensures writes { Writes (W.contents writer.old) (W.contents writer.new) (lines_answer answers.now)
        calls.old calls.new result }
{
    let head = head_text(Status::Success, Media::Plain, None, answers_size(answers));
    write_bytes(writer, head.as_bytes(), calls)?;
    write_answers(writer, answers, calls)
}

/// The status of an import that has no answers.
pub(crate) fn fault_status(why: &ImportFault) -> Status
    ensures { result ≡ import_status why.now }
{
    match why {
        ImportFault::File(AuditFault::TooLarge) => Status::ContentTooLarge,
        ImportFault::File(AuditFault::NoHeader | AuditFault::WrongHeader) => Status::BadRequest,
        ImportFault::File(AuditFault::Memory) => Status::Unavailable,
        ImportFault::Memory { .. } | ImportFault::Store { .. } => Status::Unavailable,
    }
}

fn fault_body(why: &ImportFault) -> HeadText
    ensures same { result ≡ fault_body why.now }
    ensures short { length result ≤ REPLY_BYTES }
{
    let mut text = HeadText::new();
    match why {
        ImportFault::File(AuditFault::TooLarge) => text.push(b"too large\n"),
        ImportFault::File(AuditFault::NoHeader) => text.push(b"no header\n"),
        ImportFault::File(AuditFault::WrongHeader) => text.push(b"wrong header\n"),
        ImportFault::File(AuditFault::Memory) => text.push(memory_text()),
        ImportFault::Memory { answered, .. } => {
            text.push(stopped_text(*answered, LookFault::Memory).as_bytes())
        }
        ImportFault::Store { answered, .. } => {
            text.push(stopped_text(*answered, LookFault::Store).as_bytes())
        }
    }
    text
}

/// Writes the answer to an audit file whose import has no answers. After a fault the writer took a prefix of it.
pub(crate) fn write_fault<W: Write>(
    writer: &mut W,
    why: &ImportFault,
    calls: &mut IoCalls,
) -> Result<(), WriteFailed>
    ensures writes { Writes (W.contents writer.old) (W.contents writer.new) (fault_answer why.now)
        calls.old calls.new result }
{
    let body = fault_body(why);
    write_short(writer, fault_status(why), None, body.as_bytes(), calls)
}
