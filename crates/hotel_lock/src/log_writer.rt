//! Writes notes as the audit file that the desk imports.
ghost use Rattle.std.specs.Prelude.{◌≡◌, [], ◌++◌};
ghost use Rattle.hotel_streams.specs.Calls.{CountsWrites, OnErrOf};
ghost use Rattle.hotel_lock.specs.declared.log_writer.LogFault.TheVariants as fault;
ghost use Rattle.hotel_lock.specs.{LogWriter.GathersOrEnds, LogWriter.LinesEnd, LogWriter.LogEnds, NoteLine.note_line};

use crate::gathered::Gathered;
use crate::note_line::audit_header;
use hotel_streams::{IoCalls, WriteFailed, write_bytes};
use keycard_rules::{LockNote, Memory};
use std::alloc::Global;
use std::io::Write;

/// Why a log was not written whole.
#[derive(Clone, Copy, Debug, PartialEq, Eq)]
pub enum LogFault {
    /// Memory was refused.
    Memory,
    /// A write failed, took no byte, or was the last interrupted one.
    Write,
}

impl From<Memory> for LogFault {
    ghost from_gives = { λ _ why. why ≡ fault.Memory };

    fn from(_: Memory) -> LogFault {
        LogFault::Memory
    }
}

impl From<WriteFailed> for LogFault {
    ghost from_gives = { λ _ why. why ≡ fault.Write };

    fn from(_: WriteFailed) -> LogFault {
        LogFault::Write
    }
}

/// Writes the lines that are gathered, of which then none is left.
fn write_lines<W: Write>(
    lines: &mut Gathered,
    writer: &mut W,
    calls: &mut IoCalls,
) -> Result<(), LogFault>
    ensures lines { LinesEnd lines.old (W.contents writer.old) (W.contents writer.new) result }
    ensures left { lines.new ≡ [] }
    ensures calls { CountsWrites calls.old calls.new (OnErrOf result fault.Write) }
{
    let text = lines.take_text()?;
    write_bytes(writer, text.as_slice(), calls)?;
    Ok(())
}

/// Puts the line of a note behind those that are gathered. Where there is enough for one write, all are written.
fn add_note<W: Write>(
    lines: &mut Gathered,
    note: &LockNote,
    writer: &mut W,
    calls: &mut IoCalls,
) -> Result<(), LogFault>
    ensures line { GathersOrEnds (lines.old ++ note_line note.now) (W.contents writer.old) (W.contents writer.new)
        lines.new result }
    ensures calls { CountsWrites calls.old calls.new (OnErrOf result fault.Write) }
{
    lines.push_note(note)?;
    if lines.is_long() {
        return write_lines(lines, writer, calls);
    }
    Ok(())
}

/// Writes the text of a log: an audit file of these notes. The writes are added to `calls`.
pub fn write_notes<W: Write>(
    alloc: Global,
    notes: &[LockNote],
    writer: &mut W,
    calls: &mut IoCalls,
) -> Result<(), LogFault>
    ensures log { LogEnds notes.now (W.contents writer.old) (W.contents writer.new) result }
    ensures calls { CountsWrites calls.old calls.new (OnErrOf result fault.Write) }
{
    write_bytes(writer, audit_header(), calls)?;
    let mut lines = Gathered::none(alloc);
    for note in notes {
        add_note(&mut lines, note, writer, calls)?;
    }
    write_lines(&mut lines, writer, calls)
}
