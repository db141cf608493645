//! A sink that writes the lines of a list.
ghost use Rattle.std.specs.Prelude.{◌≡◌, [], OnOk, OnErr, None};
ghost use Rattle.hotel_books.specs.Books.Walks.{Hands, failure_of};
ghost use Rattle.std.specs.Io.KnownBytes.{Appends};
ghost use Rattle.hotel_lists.specs.{LineSink.SameEnds, LineSink.StopsAtWrite, LineSink.Finishes, RowLines.list_result};

use crate::fault::ListFault;
use crate::row_lines::RowLine;
use hotel_books::{Sink, Stop, WalkFault};
use hotel_lock::Gathered;
use hotel_streams::{IoCalls, write_bytes};
use std::io::Write;

/// Writes the line of each row that it takes. Lines are gathered in memory first, and many of them are written at once.
#[derive(Drop)]
pub(crate) struct LineSink<'a, W> {
    pub(crate) writer: &'a mut W,
    pub(crate) calls: &'a mut IoCalls,
    /// The lines that aren't written yet.
    pub(crate) gathered: &'a mut Gathered,
    /// Whether it stopped since a write failed, and not for lack of memory.
    pub(crate) write_failed: bool,
}

impl<'a, W: Write> LineSink<'a, W> {
    /// No line is written yet.
    pub(crate) fn new(
        writer: &'a mut W,
        calls: &'a mut IoCalls,
        gathered: &'a mut Gathered,
    ) -> LineSink<'a, W>
        ensures same_writer { result.writer.ghost_name ≡ writer.entry.ghost_name }
        ensures same_calls { result.calls.ghost_name ≡ calls.entry.ghost_name }
        ensures unwritten { result.writer.now ≡ writer.old }
        ensures uncalled { result.calls.now ≡ calls.old }
        ensures gathered { result.gathered.now ≡ gathered.old }
    {
        LineSink {
            writer,
            calls,
            gathered,
            write_failed: false,
        }
    }

    /// Writes the lines that are gathered.
    fn write_gathered(&mut self) -> Result<(), Stop>
        ensures same { SameEnds self.old self.new }
        ensures ok { OnOk result (Appends (W.contents self.old.writer.now)
            (W.contents self.new.writer.now) self.old.gathered.now) }
        ensures err { OnErr result (StopsAtWrite W.contents self.old self.new self.old.gathered.now) }
        ensures left { self.new.gathered.now ≡ [] }
    {
        let Ok(text) = self.gathered.take_text() else {
            self.write_failed = false;
            return Err(Stop);
        };
        let Ok(()) = write_bytes(self.writer, text.as_slice(), self.calls) else {
            self.write_failed = true;
            return Err(Stop);
        };
        Ok(())
    }

    /// Writes what is still gathered after a walk that ended so, where it handed over all rows. After another end
    /// nothing more is written, so that the list reports what its walk reported. It answers how the list ended.
    pub(crate) fn finish(&mut self, end: Result<(), WalkFault>) -> Result<(), WalkFault>
        ensures same { SameEnds self.old self.new }
        ensures ends { Finishes W.contents self.old self.new end result }
    {
        end?;
        self.write_gathered()?;
        Ok(())
    }
}

impl<'a, W: Write, R: RowLine> Sink<R> for LineSink<'a, W> {
    ghost use Rattle.hotel_lists.specs.LineSink.{SameEnds, Gathers, StopsAtWrite};
    ghost use Rattle.std.specs.Prelude.{◌++◌};

    ghost after = { λ old row new. SameEnds old new × Gathers W.contents old new (R.line row) };

    ghost after_stop = { λ old row new. SameEnds old new
        × StopsAtWrite W.contents old new (old.gathered.now ++ R.line row) };

    fn take(&mut self, row: &R) -> Result<(), Stop> {
        if row.gather(self.gathered).is_err() {
            self.write_failed = false;
            return Err(Stop);
        }
        if self.gathered.is_long() {
            return self.write_gathered();
        }
        Ok(())
    }
}

/// How a list ended, where its walk ended so.
pub(crate) fn listed(end: Result<(), WalkFault>, write_failed: bool) -> Result<(), ListFault>
    ensures { result ≡ list_result end write_failed }
{
    match end {
        Ok(()) => Ok(()),
        Err(WalkFault::Memory) => Err(ListFault::Memory),
        Err(WalkFault::Store) => Err(ListFault::Store),
        Err(WalkFault::Stopped) if write_failed => Err(ListFault::Write),
        Err(WalkFault::Stopped) => Err(ListFault::Memory),
    }
}

/// Hands rows to a sink, one after the other.
pub(crate) fn hand_rows<R, S: Sink<R>>(rows: &[R], sink: &mut S) -> Result<(), WalkFault>
    ensures hands { Hands S.after S.after_stop rows.now sink.old sink.new result }
    ensures sure { failure_of result ≡ None }
{
    for row in rows {
        sink.take(row)?;
    }
    Ok(())
}
