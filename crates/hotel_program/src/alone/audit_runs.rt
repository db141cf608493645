//! An audit file that is imported alone: its answers on one writer, and what went wrong on another.

ghost use Rattle.std.specs.Prelude.{◌≡◌, List, Bool, Result};
ghost use Rattle.hotel_streams.specs.Calls.{CountsWrites, OnErrOf};
ghost use Rattle.hotel_audit.specs.declared.answer.LineAnswer.{LineAnswer};
ghost use Rattle.hotel_audit.specs.declared.imports.ImportFault.{ImportFault};
ghost use Rattle.hotel_program.specs.Faults.{end_status, Reports};
ghost use Rattle.hotel_program.specs.Alone.AuditRuns.{answers_status, audit_file_fault, import_fault, audit_end};
ghost use Rattle.hotel_program.specs.Alone.AuditRuns.{WritesAnswers};
ghost use Rattle.hotel_lock.specs.AuditFile.{audit_lines};
ghost use Rattle.hotel_audit.specs.Import.{Imports};

use crate::faults::{Fault, FaultSink, finish};
use crate::statuses::{DONE, REFUSED};
use hotel_audit::{ImportFault, LineAnswer, import, write_answers};
use hotel_core::Books;
use hotel_lock::AuditFault;
use hotel_streams::{IoCalls, WriteFailed};
use keycard_rules::LookFault;
use std::alloc::Global;
use std::io::Write;

/// The exit status that goes with answers.
fn answers_status(answers: &[LineAnswer]) -> u8
    ensures { result ≡ answers_status answers.now }
{
    for answer in answers {
        if let LineAnswer::Unread(_) | LineAnswer::Refused(_) = answer {
            return REFUSED;
        }
    }
    DONE
}

/// The fault of bytes that give no lines.
fn audit_file_fault(fault: AuditFault) -> Fault
    ensures { result ≡ audit_file_fault fault }
{
    match fault {
        AuditFault::TooLarge => Fault::TooLarge,
        AuditFault::NoHeader => Fault::NoHeader,
        AuditFault::WrongHeader => Fault::WrongHeader,
        AuditFault::Memory => Fault::Memory,
    }
}

/// The fault of an import that has no answers.
fn import_fault(fault: ImportFault) -> Fault
    ensures { result ≡ import_fault fault }
{
    match fault {
        ImportFault::File(why) => audit_file_fault(why),
        ImportFault::Memory { answered, .. } => Fault::Stopped {
            answered,
            by: LookFault::Memory,
        },
        ImportFault::Store { answered, .. } => Fault::Stopped {
            answered,
            by: LookFault::Store,
        },
    }
}

/// Imports an audit file and writes the texts of its answers. It answers the exit status, or the
/// fault that came instead.
fn import_and_write<B: Books, W: Write>(
    alloc: Global,
    bytes: &[u8],
    books: &mut B,
    writer: &mut W,
    calls: &mut IoCalls,
) -> Result<u8, Fault>
    ensures ends { (outcome : Result (List LineAnswer) ImportFault) × (write_failed : Bool)
        × (result ≡ audit_end outcome write_failed)
        × WritesAnswers W.contents writer.old writer.new outcome write_failed
        × Imports B.Kept B.Books.own (audit_lines bytes.now) books.old books.new outcome }
    ensures calls { CountsWrites calls.old calls.new (OnErrOf result Fault.Write) }
{
    let answers = match import(alloc, books, bytes) {
        Ok(answers) => answers,
        Err(fault) => return Err(import_fault(fault)),
    };
    let answers = answers.as_slice();
    match write_answers(writer, answers, calls) {
        Ok(()) => Ok(answers_status(answers)),
        Err(WriteFailed) => Err(Fault::Write),
    }
}

/// Imports an audit file: writes the answers to its lines, and reports the fault that came instead. It
/// answers the exit status. The interrupted writes of the call are counted together, on both writers.
pub fn run_audit<B: Books, W: Write, F: FaultSink>(
    alloc: Global,
    bytes: &[u8],
    books: &mut B,
    writer: &mut W,
    faults: &mut F,
) -> u8
    ensures ends { (outcome : Result (List LineAnswer) ImportFault) × (write_failed : Bool)
        × (result ≡ end_status (audit_end outcome write_failed))
        × Reports F.told faults.old (audit_end outcome write_failed) faults.new
        × WritesAnswers W.contents writer.old writer.new outcome write_failed
        × Imports B.Kept B.Books.own (audit_lines bytes.now) books.old books.new outcome }
{
    let mut calls = IoCalls::none();
    let end = import_and_write(alloc, bytes, books, writer, &mut calls);
    finish(end, faults, &mut calls)
}
