//! The import of an audit file into any books that take notes.
ghost use Rattle.std.specs.Prelude.{◌≡◌, ◌<◌, length, IfOk, Ok, Err};
ghost use Rattle.hotel_lock.specs.{declared.audit_file.AuditFault.AuditFault, AuditFile.audit_lines};
ghost use Rattle.hotel_lock.specs.declared.audit_file.TheConstants.{AUDIT_BYTES};
ghost use Rattle.hotel_audit.specs.Import.{Imports, IsAnswerTo, ImportsLine, answer_of, has_taken, outcome_of, stopped};

use crate::answer::{LineAnswer, has_taken};
use hotel_core::{Books, Refusal, Reply, report};
use hotel_lock::{AuditFault, Line, read_notes};
use keycard_rules::LookFault;
use std::alloc::Global;

/// Why an import has no answers.
#[derive(Clone, Copy, Debug, PartialEq, Eq)]
pub enum ImportFault {
    /// The bytes are no audit file, or there was no memory to read it or for its answers. Nothing was begun.
    File(AuditFault),
    /// A growth of the books' memory was refused. So many lines were answered, which stand, and `taken` says whether
    /// one of them was Taken; the next one changed nothing.
    Memory { answered: usize, taken: bool },
    /// A call of the store failed. So many lines were answered, which stand, and `taken` says whether one of them was
    /// Taken; the next one changed nothing.
    Store { answered: usize, taken: bool },
}

const fn answer_of(reply: &Reply) -> Result<LineAnswer, LookFault>
    ensures { result ≡ answer_of reply.now }
{
    match reply {
        Reply::Taken => Ok(LineAnswer::Taken),
        Reply::Seen => Ok(LineAnswer::Seen),
        Reply::Refused(Refusal::Memory) => Err(LookFault::Memory),
        Reply::Refused(Refusal::Store) => Err(LookFault::Store),
        Reply::Refused(refusal) => Ok(LineAnswer::Refused(*refusal)),
        // A note is given no other reply.
        _ => Err(LookFault::Store),
    }
}

/// Carries out one line.
fn answer_line<B: Books>(books: &mut B, line: &Line) -> Result<LineAnswer, LookFault>
    ensures answer { IfOk result (λ answer. IsAnswerTo line.now answer) }
    ensures went { ImportsLine B.Kept B.Books.own books.old line.now result books.new }
{
    match line {
        Line::Unread(cause) => Ok(LineAnswer::Unread(*cause)),
        Line::Note(note) => answer_of(&report(books, note)),
    }
}

/// An import that was stopped behind these answers.
fn stopped(answers: &[LineAnswer], by: LookFault) -> ImportFault
    ensures { result ≡ stopped by (length answers.now) (has_taken answers.now) }
{
    let (answered, taken) = (answers.len(), has_taken(answers));
    match by {
        LookFault::Memory => ImportFault::Memory { answered, taken },
        LookFault::Store => ImportFault::Store { answered, taken },
    }
}

/// Carries out lines in order. The memory for all answers is taken before the first line.
fn import_lines<B: Books>(
    alloc: Global,
    books: &mut B,
    lines: &[Line],
) -> Result<Vec<LineAnswer>, ImportFault>
    ensures { Imports B.Kept B.Books.own (Ok lines.now) books.old books.new (outcome_of (λ v. v.items) result) }
{
    let Ok(mut answers) = Vec::with_capacity(alloc, lines.len()) else {
        return Err(ImportFault::File(AuditFault::Memory));
    };
    for line in lines {
        let answer = match answer_line(books, line) {
            Ok(answer) => answer,
            Err(by) => return Err(stopped(answers.as_slice(), by)),
        };
        let Ok(()) = answers.push(answer) else {
            return Err(stopped(answers.as_slice(), LookFault::Memory));
        };
    }
    Ok(answers)
}

/// Imports an audit file: reports its notes in order.
///
/// The file is read whole and the memory for all answers is taken first. The answers are those to the lines, in order:
/// the reply to the line's note, or Unread with its cause. Unread and refused lines don't stop the import.
pub fn import<B: Books>(
    alloc: Global,
    books: &mut B,
    bytes: &[u8],
) -> Result<Vec<LineAnswer>, ImportFault>
    ensures imported { Imports B.Kept B.Books.own (audit_lines bytes.now) books.old books.new
        (outcome_of (λ v. v.items) result) }
    ensures large { AUDIT_BYTES < length bytes.now → result ≡ Err (ImportFault.File AuditFault.TooLarge) }
{
    match read_notes(alloc, bytes) {
        Ok(lines) => import_lines(alloc, books, lines.as_slice()),
        Err(fault) => Err(ImportFault::File(fault)),
    }
}
