//! The reads and writes of one public call. An interrupted one is made again, up to a limit of such calls.

ghost use Rattle.std.specs.Prelude.{◌≡◌, ◌+◌, ◌↔◌, ◌<◌, ◌≤◌, true, false, IsTrue, length, take, IfOk, OnErr};
ghost use Rattle.std.specs.Io.KnownBytes.{Appends, Consumes, IsAtEnd, Keeps};
ghost use Rattle.std.specs.Io.{ReadsAtMost, WritesAtMost};
ghost use Rattle.std.specs.Io.KnownBytes.{ReadConsumes, WriteAppends};
ghost use Rattle.std.specs.IoError.{error_kind};
ghost use Rattle.hotel_streams.specs.Calls.{NoneForgotten, CountsReads, CountsWrites};
ghost use Rattle.hotel_streams.specs.Asked.{Asks, ReadAnswers, WriteAnswers};
ghost use Rattle.hotel_streams.specs.declared.calls.TheConstants.{LAST_INTERRUPTION};

use std::io::{self, ErrorKind, Read, Write};
use std::marker::Model;

/// The interrupted reads and writes of one public call together: the one of this number is a fault.
pub const LAST_INTERRUPTION: u32 = 1000;

/// The reads and writes of one public call: how many were interrupted so far, and whether a read or a write failed. A
/// public call begins with none, unless its caller gives it a record, to which it adds. A record can't be copied, so
/// that no call is forgotten.
#[derive(Debug, Drop)]
pub struct IoCalls {
    interrupted: u32,
    read_failed: bool,
    write_failed: bool,
}

impl Model for IoCalls {
    ghost use Rattle.std.specs.Prelude.{◌≤◌};
    ghost use Rattle.hotel_streams.specs.Calls.{Calls};
    ghost use Rattle.hotel_streams.specs.declared.calls.TheConstants.{LAST_INTERRUPTION};

    ghost Value = { Calls };

    ghost view = { λ c. record {
      interrupted = c.interrupted;
      read_failed = c.read_failed;
      write_failed = c.write_failed;
    } };

    ghost invariant = { λ c. c.interrupted ≤ LAST_INTERRUPTION };
}

impl IoCalls {
    /// No call was made yet.
    pub fn none() -> IoCalls
        ensures { result ≡ record { interrupted = 0; read_failed = false; write_failed = false } }
    {
        IoCalls {
            interrupted: 0,
            read_failed: false,
            write_failed: false,
        }
    }

    /// Counts an interrupted call, and says whether it is the last one.
    fn is_last(&mut self) -> bool
        ensures last { IsTrue result ↔ (LAST_INTERRUPTION ≤ self.old.interrupted + 1) }
        ensures counted { result ≡ false → (self.new.interrupted ≡ self.old.interrupted + 1)
            × (self.new.interrupted < LAST_INTERRUPTION) }
        ensures given_up { result ≡ true → self.new.interrupted ≡ LAST_INTERRUPTION }
        ensures calls { NoneForgotten self.old self.new }
    {
        if self.interrupted >= LAST_INTERRUPTION - 1 {
            self.interrupted = LAST_INTERRUPTION;
            return true;
        }
        self.interrupted += 1;
        false
    }

    fn fail_read(&mut self)
        ensures failed { self.new.read_failed ≡ true }
        ensures same { self.new.interrupted ≡ self.old.interrupted }
        ensures calls { NoneForgotten self.old self.new }
    {
        self.read_failed = true;
    }

    fn fail_write(&mut self)
        ensures failed { self.new.write_failed ≡ true }
        ensures same { self.new.interrupted ≡ self.old.interrupted }
        ensures calls { NoneForgotten self.old self.new }
    {
        self.write_failed = true;
    }
}

/// What is read, and what shows of each read. Of a reader a clause knows its bytes alone, and so not how often it was
/// asked, or what of: this trait says it of any that shows it.
pub(crate) trait ReadOnce {
    ghost use Rattle.std.specs.Prelude.{ℕ, List, Option, Result};
    ghost use Rattle.std.specs.declared.io.Error.{Error};

    /// The bytes that reads will give, where they are known.
    ghost remaining: { Self → Option (List ℕ) };

    /// The states that may follow one after a read that ended so.
    ghost was_read: { Self → Result ℕ Error → Self → Type 0 };

    fn read_once(&mut self, room: &mut [u8]) -> io::Result<usize>
        ensures bound { ReadsAtMost result room.new }
        ensures bytes { ReadConsumes (remaining self.old) (remaining self.new) result room.new }
        ensures read { was_read self.old result self.new };
}

impl<R: Read> ReadOnce for R {
    ghost remaining = { λ reader. R.remaining reader };

    ghost was_read = { λ _ _ _. Unit {0} };

    fn read_once(&mut self, room: &mut [u8]) -> io::Result<usize> {
        self.read(room)
    }
}

/// The same of what is written to.
pub(crate) trait WriteOnce {
    ghost use Rattle.std.specs.Prelude.{ℕ, List, Option, Result};
    ghost use Rattle.std.specs.declared.io.Error.{Error};

    /// The bytes that were written, where they are known.
    ghost contents: { Self → Option (List ℕ) };

    /// The states that may follow one after a write of these bytes that ended so.
    ghost was_written: { Self → List ℕ → Result ℕ Error → Self → Type 0 };

    /// The states that may follow one after a flush that ended so.
    ghost was_flushed: { Self → Result (Unit {0}) Error → Self → Type 0 };

    fn write_once(&mut self, bytes: &[u8]) -> io::Result<usize>
        ensures bound { WritesAtMost result bytes.now }
        ensures bytes { WriteAppends (contents self.old) (contents self.new) result bytes.now }
        ensures written { was_written self.old bytes.now result self.new };

    fn flush_once(&mut self) -> io::Result<()>
        ensures bytes { Keeps (contents self.old) (contents self.new) }
        ensures flushed { was_flushed self.old result self.new };
}

impl<W: Write> WriteOnce for W {
    ghost contents = { λ writer. W.contents writer };

    ghost was_written = { λ _ _ _ _. Unit {0} };

    ghost was_flushed = { λ _ _ _. Unit {0} };

    fn write_once(&mut self, bytes: &[u8]) -> io::Result<usize> {
        self.write(bytes)
    }

    fn flush_once(&mut self) -> io::Result<()> {
        self.flush()
    }
}

/// Whether a call was interrupted.
fn is_interrupted(why: &io::Error) -> bool
    ensures { IsTrue result ↔ (error_kind why.now ≡ ErrorKind.Interrupted) }
{
    match why.kind() {
        ErrorKind::Interrupted => true,
        _ => false,
    }
}

/// A read failed, or was the last interrupted one.
#[derive(Debug, Drop)]
pub struct ReadFailed;

/// A write failed, took no byte, or was the last interrupted one.
#[derive(Debug, Drop)]
pub struct WriteFailed;

/// One read, made again while it is interrupted.
pub(crate) fn read_some<R: ReadOnce>(
    reader: &mut R,
    room: &mut [u8],
    calls: &mut IoCalls,
) -> Result<usize, ReadFailed>
    ensures bound { IfOk result (λ n. n ≤ length room.new) }
    ensures ok { IfOk result (λ n. Consumes (R.remaining reader.old) (R.remaining reader.new) (take n room.new)) }
    ensures end { IfOk result (λ n. n ≡ 0 → 0 < length room.new → IsAtEnd (R.remaining reader.new)) }
    ensures err { OnErr result (Keeps (R.remaining reader.old) (R.remaining reader.new)) }
    ensures asks { Asks R.was_read reader.old calls.old.interrupted (ReadAnswers result) reader.new
        calls.new.interrupted }
    ensures calls { CountsReads calls.old calls.new (OnErr result) }
{
    loop {
        match reader.read_once(room) {
            Ok(n) => return Ok(n),
            Err(why) => {
                if !is_interrupted(&why) || calls.is_last() {
                    calls.fail_read();
                    return Err(ReadFailed);
                }
            }
        }
    }
}

/// One write of some of the bytes, made again while it is interrupted. It fails where it takes no byte.
pub(crate) fn write_some<W: WriteOnce>(
    writer: &mut W,
    bytes: &[u8],
    calls: &mut IoCalls,
) -> Result<usize, WriteFailed>
    ensures some { IfOk result (λ n. 0 < n) }
    ensures bound { IfOk result (λ n. n ≤ length bytes.now) }
    ensures ok { IfOk result (λ n. Appends (W.contents writer.old) (W.contents writer.new) (take n bytes.now)) }
    ensures err { OnErr result (Keeps (W.contents writer.old) (W.contents writer.new)) }
    ensures asks { Asks (λ old got new. W.was_written old bytes.now got new) writer.old calls.old.interrupted
        (WriteAnswers result) writer.new calls.new.interrupted }
    ensures calls { CountsWrites calls.old calls.new (OnErr result) }
{
    loop {
        match writer.write_once(bytes) {
            Ok(0) => {
                calls.fail_write();
                return Err(WriteFailed);
            }
            Ok(n) => return Ok(n),
            Err(why) => {
                if !is_interrupted(&why) || calls.is_last() {
                    calls.fail_write();
                    return Err(WriteFailed);
                }
            }
        }
    }
}
