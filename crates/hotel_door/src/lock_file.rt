//! The file of a lock: a line of how it stands, and its notes as the desk's import reads them.
ghost use Rattle.std.specs.Prelude.{◌≡◌, ◌≢◌, ◌≤◌, List, length, map, option_map, IfOk, IfErr, Ok};
ghost use Rattle.keycard_rules.specs.{Note.Note, Numerals.fixed_text};
ghost use Rattle.hotel_streams.specs.Bytes.{Writes};
ghost use Rattle.hotel_lock.specs.AuditFile.{audit_lines};
ghost use Rattle.hotel_lock.specs.declared.line.Line.TheVariants as line;
ghost use Rattle.hotel_lock.specs.Logged.{Logged};
ghost use Rattle.hotel_door.specs.LockFile.{Happens, IsFileOf, IsFullAfter, head_in, head_text, lock_text};

use crate::acts::{Doing, carry_out};
use crate::faults::Fault;
use hotel_lock::{AUDIT_BYTES, AuditFault, Line, LoggedLock, read_notes, write_notes};
use hotel_nights::Moment;
use hotel_streams::{IoCalls, WriteFailed, write_parts};
use keycard_rules::{Code, FitNo, LockNote, RoomNo, write_fixed};
use std::alloc::Global;
use std::io::Write;

/// The most bytes of a lock's file: the desk imports no longer log at once.
pub(crate) const FILE_BYTES: usize = AUDIT_BYTES;

/// How many bytes the first line has, its line feed included.
const HEAD_BYTES: usize = 69;

/// A number's last decimal digits, with leading zeros.
fn digits<const WIDTH: usize>(number: u32) -> [u8; WIDTH]
    ensures { result ≡ fixed_text 10 WIDTH number }
{
    let mut text = [0; WIDTH];
    write_fixed(u64::from(number), 10, &mut text);
    text
}

/// Writes the first line: the room, the lock's number, the code that it was first set to, the one that it holds, and
/// how many notes it made.
fn write_head<W: Write>(
    logged: &LoggedLock,
    writer: &mut W,
    calls: &mut IoCalls,
) -> Result<(), WriteFailed>
    ensures { Writes (W.contents writer.old) (W.contents writer.new) (head_text logged.now) calls.old calls.new result }
{
    let lock = logged.lock();
    let room = digits::<4>(lock.room().value());
    let fit = digits::<2>(lock.fit().value());
    let first = logged.first().print();
    let held = lock.held().print();
    let made = digits::<7>(lock.made());
    write_parts(
        writer,
        &[
            b"room ",
            room.as_slice(),
            b" fit ",
            fit.as_slice(),
            b" first ",
            first.as_slice(),
            b" holds ",
            held.as_slice(),
            b" notes ",
            made.as_slice(),
            b"\n",
        ],
        calls,
    )
}

/// The text of a lock's file.
pub(crate) fn lock_text(alloc: Global, logged: &LoggedLock) -> Result<Vec<u8>, Fault>
    ensures text { IfOk result (λ text. text.items ≡ lock_text logged.now) }
    ensures err { IfErr result (λ why. why ≡ Fault.Memory) }
{
    let mut text = Vec::new(alloc);
    let mut calls = IoCalls::none();
    match write_head(logged, &mut text, &mut calls) {
        Ok(()) => {}
        Err(WriteFailed) => return Err(Fault::Memory),
    }
    match write_notes(alloc, logged.notes(), &mut text, &mut calls) {
        Ok(()) => Ok(text),
        Err(_) => Err(Fault::Memory),
    }
}

/// The notes of an audit file whose lines are all notes.
fn notes_in(alloc: Global, bytes: &[u8]) -> Result<Vec<LockNote>, Fault>
    ensures ok { IfOk result (λ notes. audit_lines bytes.now ≡ Ok (map line.Note notes.items)) }
    ensures err { IfErr result (λ why. why ≢ Fault.Memory → (notes : List Note)
        → audit_lines bytes.now ≡ Ok (map line.Note notes) → ⊥) }
{
    let lines = match read_notes(alloc, bytes) {
        Ok(lines) => lines,
        Err(AuditFault::Memory) => return Err(Fault::Memory),
        Err(_) => return Err(Fault::NotALock),
    };
    let mut notes = Vec::new(alloc);
    for line in &lines {
        match line {
            Line::Note(note) => notes.push(*note).map_err(|_| Fault::Memory)?,
            Line::Unread(_) => return Err(Fault::NotALock),
        }
    }
    Ok(notes)
}

/// The room, the lock's number and its first code, as the first line has them.
fn read_head(head: &[u8]) -> Option<(RoomNo, FitNo, Code)>
    requires { 35 ≤ length head.now }
    ensures { result ≡ head_in head.now }
{
    let room = RoomNo::read(&head[5..9])?;
    let fit = FitNo::read(&head[14..16])?;
    let first = Code::read(&head[23..35])?;
    Some((room, fit, first))
}

/// The lock whose file has these bytes. They are refused unless they are just the text of a lock: its notes are those
/// that such a lock makes, and the first line says how it then stands. The text of a lock is never refused.
pub(crate) fn read_lock(alloc: Global, bytes: &[u8]) -> Result<LoggedLock, Fault>
    ensures ok { IfOk result (λ l. bytes.now ≡ lock_text l) }
    ensures only { IfOk result (λ l. (other : Logged) → IsFileOf other → bytes.now ≡ lock_text other → other ≡ l) }
    ensures err { IfErr result (λ why. why ≢ Fault.Memory → (l : Logged) → IsFileOf l → bytes.now ≡ lock_text l → ⊥) }
{
    if bytes.len() < HEAD_BYTES {
        return Err(Fault::NotALock);
    }
    let Some(head) = read_head(&bytes[..HEAD_BYTES]) else {
        return Err(Fault::NotALock);
    };
    let notes = match notes_in(alloc, &bytes[HEAD_BYTES..]) {
        Ok(notes) => notes,
        Err(why) => return Err(why),
    };
    let found = match LoggedLock::replayed(alloc, head.0, head.1, head.2, &notes) {
        Ok(found) => found,
        Err(_) => return Err(Fault::Memory),
    };
    let Some(logged) = found else {
        return Err(Fault::NotALock);
    };
    let text = match lock_text(alloc, &logged) {
        Ok(text) => text,
        Err(why) => return Err(why),
    };
    if text.as_slice() != bytes {
        return Err(Fault::NotALock);
    }
    Ok(logged)
}

/// What happens at the door of the lock whose file has these bytes: the text of the file behind it; `None` where the
/// lock's answer is no, and it does nothing. The fault `Full` comes only where the file would have too many bytes.
pub(crate) fn happen(
    alloc: Global,
    bytes: &[u8],
    doing: &Doing,
    at: Moment,
) -> Result<Option<Vec<u8>>, Fault>
    ensures ok { IfOk result (λ text. (l : Logged)
        × Happens l doing.now at bytes.now (option_map (λ text. text.items) text)) }
    ensures err { IfErr result (λ why. why ≢ Fault.Memory → (l : Logged) → IsFileOf l → bytes.now ≡ lock_text l
        → (why ≡ Fault.Full) × IsFullAfter l doing.now at) }
{
    let mut logged = read_lock(alloc, bytes)?;
    let Ok(answer) = carry_out(&mut logged, doing, at) else {
        return Err(Fault::Memory);
    };
    if !answer {
        return Ok(None);
    }
    let text = lock_text(alloc, &logged)?;
    if text.len() > FILE_BYTES {
        return Err(Fault::Full);
    }
    Ok(Some(text))
}
