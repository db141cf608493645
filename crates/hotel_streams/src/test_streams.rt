//! Readers and writers for tests: each hands its calls on to another one, but for those that go wrong on purpose.

ghost use Rattle.std.specs.Prelude.{◌≡◌, ◌-◌, ◌<◌, ◌↔◌, true, IsTrue};
ghost use Rattle.std.specs.Io.KnownBytes.{Keeps, ReadConsumes, WriteAppends};
ghost use Rattle.std.specs.Io.{ReadsAtMost, WritesAtMost};
ghost use Rattle.hotel_streams.specs.TestStreams.{FailsAs, TakesNoByte, next_good};

use crate::calls::{ReadOnce, WriteOnce};
use std::io::{self, ErrorKind, Read, Write};

/// Counts a call, and says whether it is good.
fn is_good(good: &mut u32) -> bool
    ensures good { IsTrue result ↔ (0 < good.old) }
    ensures counts { good.new ≡ next_good good.old }
{
    let is_good = *good > 0;
    *good = if is_good { *good - 1 } else { u32::MAX };
    is_good
}

/// Counts a call, and says whether it is interrupted.
fn interrupts(times: &mut u32) -> bool
    ensures interrupts { IsTrue result ↔ (0 < times.old) }
    ensures counts { times.new ≡ times.old - 1 }
{
    let interrupts = *times > 0;
    *times = times.saturating_sub(1);
    interrupts
}

/// A reader of which one read fails.
#[derive(Drop)]
pub struct FailingReader<R> {
    pub reader: R,
    /// How many reads are good before the one that fails. Behind that one it is `u32::MAX`.
    pub good: u32,
}

impl<R: ReadOnce> Read for FailingReader<R> {
    ghost remaining = { λ r. R.remaining r.reader };

    fn read(&mut self, room: &mut [u8]) -> io::Result<usize>
        ensures bound { ReadsAtMost result room.new }
        ensures bytes { ReadConsumes (R.remaining self.old.reader) (R.remaining self.new.reader) result room.new }
        ensures fails { self.old.good ≡ 0 → FailsAs ErrorKind.Other self.old.reader result self.new.reader }
        ensures empty { self.old.good ≡ 0 → room.new ≡ room.old }
        ensures hands_on { 0 < self.old.good → R.was_read self.old.reader result self.new.reader }
        ensures counts { self.new.good ≡ next_good self.old.good }
    {
        if !is_good(&mut self.good) {
            return Err(io::Error::from(ErrorKind::Other));
        }
        self.reader.read_once(room)
    }
}

/// A reader of which the first reads are interrupted.
#[derive(Drop)]
pub struct InterruptedReader<R> {
    pub reader: R,
    /// How many reads are interrupted from here on.
    pub times: u32,
}

impl<R: ReadOnce> Read for InterruptedReader<R> {
    ghost remaining = { λ r. R.remaining r.reader };

    fn read(&mut self, room: &mut [u8]) -> io::Result<usize>
        ensures bound { ReadsAtMost result room.new }
        ensures bytes { ReadConsumes (R.remaining self.old.reader) (R.remaining self.new.reader) result room.new }
        ensures interrupts { 0 < self.old.times
            → FailsAs ErrorKind.Interrupted self.old.reader result self.new.reader }
        ensures empty { 0 < self.old.times → room.new ≡ room.old }
        ensures hands_on { self.old.times ≡ 0 → R.was_read self.old.reader result self.new.reader }
        ensures counts { self.new.times ≡ self.old.times - 1 }
    {
        if interrupts(&mut self.times) {
            return Err(io::Error::from(ErrorKind::Interrupted));
        }
        self.reader.read_once(room)
    }
}

/// A writer of which one write fails.
#[derive(Drop)]
pub struct FailingWriter<W> {
    pub writer: W,
    /// How many writes are good before the one that fails. Behind that one it is `u32::MAX`.
    pub good: u32,
}

impl<W: WriteOnce> Write for FailingWriter<W> {
    ghost contents = { λ w. W.contents w.writer };

    fn write(&mut self, bytes: &[u8]) -> io::Result<usize>
        ensures bound { WritesAtMost result bytes.now }
        ensures bytes { WriteAppends (W.contents self.old.writer) (W.contents self.new.writer) result bytes.now }
        ensures fails { self.old.good ≡ 0 → FailsAs ErrorKind.Other self.old.writer result self.new.writer }
        ensures hands_on { 0 < self.old.good → W.was_written self.old.writer bytes.now result self.new.writer }
        ensures counts { self.new.good ≡ next_good self.old.good }
    {
        if !is_good(&mut self.good) {
            return Err(io::Error::from(ErrorKind::Other));
        }
        self.writer.write_once(bytes)
    }

    fn flush(&mut self) -> io::Result<()>
        ensures bytes { Keeps (W.contents self.old.writer) (W.contents self.new.writer) }
        ensures hands_on { W.was_flushed self.old.writer result self.new.writer }
        ensures same { self.new.good ≡ self.old.good }
    {
        self.writer.flush_once()
    }
}

/// A writer of which the first writes are interrupted.
#[derive(Drop)]
pub struct InterruptedWriter<W> {
    pub writer: W,
    /// How many writes are interrupted from here on.
    pub times: u32,
}

impl<W: WriteOnce> Write for InterruptedWriter<W> {
    ghost contents = { λ w. W.contents w.writer };

    fn write(&mut self, bytes: &[u8]) -> io::Result<usize>
        ensures bound { WritesAtMost result bytes.now }
        ensures bytes { WriteAppends (W.contents self.old.writer) (W.contents self.new.writer) result bytes.now }
        ensures interrupts { 0 < self.old.times
            → FailsAs ErrorKind.Interrupted self.old.writer result self.new.writer }
        ensures hands_on { self.old.times ≡ 0 → W.was_written self.old.writer bytes.now result self.new.writer }
        ensures counts { self.new.times ≡ self.old.times - 1 }
    {
        if interrupts(&mut self.times) {
            return Err(io::Error::from(ErrorKind::Interrupted));
        }
        self.writer.write_once(bytes)
    }

    fn flush(&mut self) -> io::Result<()>
        ensures bytes { Keeps (W.contents self.old.writer) (W.contents self.new.writer) }
        ensures hands_on { W.was_flushed self.old.writer result self.new.writer }
        ensures same { self.new.times ≡ self.old.times }
    {
        self.writer.flush_once()
    }
}

/// A writer of which one write takes no byte, and answers so.
#[derive(Drop)]
pub struct FullWriter<W> {
    pub writer: W,
    /// How many writes are good before the one that takes no byte. Behind that one it is `u32::MAX`.
    pub good: u32,
}

impl<W: WriteOnce> Write for FullWriter<W> {
    ghost contents = { λ w. W.contents w.writer };

    fn write(&mut self, bytes: &[u8]) -> io::Result<usize>
        ensures bound { WritesAtMost result bytes.now }
        ensures bytes { WriteAppends (W.contents self.old.writer) (W.contents self.new.writer) result bytes.now }
        ensures full { self.old.good ≡ 0 → TakesNoByte self.old.writer result self.new.writer }
        ensures hands_on { 0 < self.old.good → W.was_written self.old.writer bytes.now result self.new.writer }
        ensures counts { self.new.good ≡ next_good self.old.good }
    {
        if !is_good(&mut self.good) {
            return Ok(0);
        }
        self.writer.write_once(bytes)
    }

    fn flush(&mut self) -> io::Result<()>
        ensures bytes { Keeps (W.contents self.old.writer) (W.contents self.new.writer) }
        ensures hands_on { W.was_flushed self.old.writer result self.new.writer }
        ensures same { self.new.good ≡ self.old.good }
    {
        self.writer.flush_once()
    }
}
