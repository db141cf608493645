//! Faults of the program and of its calls: what is said of each, where it is said, and its exit status.

ghost use Rattle.std.specs.Prelude.{◌≡◌, ◌≤◌, Some, length};
ghost use Rattle.hotel_streams.specs.Calls.{NoneForgotten};
ghost use Rattle.hotel_streams.specs.Bytes.{Writes};
ghost use Rattle.hotel_rows.specs.OpenFault.{table_name};
ghost use Rattle.hotel_program.specs.Faults.{cause_text, fault_text, fault_words, fault_status, refused_text};
ghost use Rattle.hotel_program.specs.Faults.{end_status, IsHeard, Reports};

use crate::statuses::{BROKEN, FAILED};
use hotel_asks::ValueName;
use hotel_rows::{FileFault, OpenFault, TableName};
use hotel_streams::{IoCalls, WriteFailed, write_bytes};
use keycard_rules::{LookFault, ShortText};
use std::error::Error;
use std::fmt;
use std::io::Write;

/// Why the program or a call of it didn't do its work to the end. Words that ask for nothing are a `UsageFault`.
#[derive(Clone, Copy, Debug, PartialEq, Eq)]
pub enum Fault {
    /// A growth of memory was refused.
    Memory,
    /// A call of the store failed.
    Store,
    /// A read failed.
    Read,
    /// A write failed.
    Write,
    /// A script or an audit file has too many bytes.
    TooLarge,
    /// An audit file has no record.
    NoHeader,
    /// The first record of an audit file isn't the header.
    WrongHeader,
    /// An import was stopped after so many lines.
    Stopped { answered: usize, by: LookFault },
    /// The file of a database gave no books.
    Books(FileFault),
    /// The seed's file couldn't be opened, or has fewer than 32 bytes.
    Seed,
    /// An audit file couldn't be opened or read, or the seed's couldn't be read.
    File,
    /// The port couldn't be listened on.
    Port,
    /// A connection couldn't be taken, or ended before its request's first byte.
    Closed,
}

impl Fault {
    /// The exit status of a call that came to it.
    pub fn status(&self) -> u8
        ensures { result ≡ fault_status self.now }
    {
        match self {
            Fault::Memory | Fault::Store | Fault::Stopped { .. } => FAILED,
            Fault::Books(FileFault::Desk(OpenFault::Memory | OpenFault::Store)) => FAILED,
            _ => BROKEN,
        }
    }
}

/// The name of a table.
fn table_name(table: TableName) -> &'static [u8]
    ensures same { result.now ≡ table_name table }
    ensures short { length result.now ≤ 6 }
{
    match table {
        TableName::Meta => b"meta",
        TableName::Kind => b"kind",
        TableName::Room => b"room",
        TableName::Stay => b"stay",
        TableName::Code => b"code",
        TableName::Card => b"card",
        TableName::Inside => b"inside",
        TableName::Note => b"note",
        TableName::Fit => b"fit",
    }
}

/// What stopped an import.
fn cause_text<'a>(by: LookFault) -> &'a str
    ensures same { result.now ≡ cause_text by }
    ensures short { length result.now ≤ 8 }
{
    match by {
        LookFault::Memory => ": Memory",
        LookFault::Store => ": Store",
    }
}

/// The line of a fault, or of a refused value: at most 43 bytes, the line feed included.
pub(crate) type FaultText = ShortText<43>;

/// The line of a fault.
fn fault_text(fault: &Fault) -> FaultText
    ensures { result ≡ fault_text fault.now }
{
    let mut text = FaultText::new();
    match fault {
        Fault::Memory | Fault::Books(FileFault::Desk(OpenFault::Memory)) => text.push(b"memory"),
        Fault::Store | Fault::Books(FileFault::Desk(OpenFault::Store)) => text.push(b"store"),
        Fault::Read => text.push(b"read"),
        Fault::Write => text.push(b"write"),
        Fault::TooLarge => text.push(b"too large"),
        Fault::NoHeader => text.push(b"no header"),
        Fault::WrongHeader => text.push(b"wrong header"),
        Fault::Stopped { answered, by } => {
            text.push(b"stopped after ");
            text.push_number::<20>(*answered as u128);
            text.push(cause_text(*by).as_bytes());
        }
        Fault::Books(FileFault::Desk(OpenFault::NotADesk)) => text.push(b"not a desk"),
        Fault::Books(FileFault::Desk(OpenFault::Damaged(table))) => {
            text.push(b"damaged ");
            text.push(table_name(*table));
        }
        Fault::Seed => text.push(b"seed"),
        Fault::File | Fault::Books(FileFault::File) => text.push(b"file"),
        Fault::Port => text.push(b"port"),
        Fault::Closed => text.push(b"closed"),
    }
    text.push(b"\n");
    text
}

impl fmt::Display for Fault {
    ghost output = { λ why. Some (fault_words why) };

    fn fmt<W: fmt::Write>(&self, f: &mut fmt::Formatter<W>) -> fmt::Result {
        match self {
            Fault::Memory => f.write_str("memory"),
            Fault::Store => f.write_str("store"),
            Fault::Read => f.write_str("read"),
            Fault::Write => f.write_str("write"),
            Fault::TooLarge => f.write_str("too large"),
            Fault::NoHeader => f.write_str("no header"),
            Fault::WrongHeader => f.write_str("wrong header"),
            Fault::Stopped { answered, by } => {
                let cause = cause_text(*by);
                write!(f, "stopped after {answered}{cause}")
            }
            Fault::Books(why) => write!(f, "{why}"),
            Fault::Seed => f.write_str("seed"),
            Fault::File => f.write_str("file"),
            Fault::Port => f.write_str("port"),
            Fault::Closed => f.write_str("closed"),
        }
    }
}

impl Error for Fault {}

/// The line of a value of the command line that its reader refuses.
pub(crate) fn refused_text(name: ValueName) -> FaultText
    ensures { result ≡ refused_text name }
{
    let mut text = FaultText::new();
    text.push(b"unread ");
    text.push(name.text().as_bytes());
    text.push(b"\n");
    text
}

/// Writes the line of a fault.
fn write_fault<W: Write>(
    writer: &mut W,
    fault: &Fault,
    calls: &mut IoCalls,
) -> Result<(), WriteFailed>
    ensures writes { Writes (W.contents writer.old) (W.contents writer.new) (fault_text fault.now)
        calls.old calls.new result }
{
    write_bytes(writer, fault_text(fault).as_bytes(), calls)
}

/// Takes the faults that calls tell, and what is said of words that ask for nothing. Each writer is one.
pub trait FaultSink {
    ghost use Rattle.std.specs.Prelude.{ℕ, List};
    ghost use Rattle.hotel_streams.specs.Calls.{Calls, NoneForgotten};
    ghost use Rattle.hotel_program.specs.declared.faults.Fault.{Fault};
    ghost use Rattle.hotel_program.specs.Faults.{fault_text};

    /// The meanings that may follow one after a fault was reported.
    ghost told: { Self → Fault → Self → Type 0 };

    /// The meanings that may follow one after a text on the words was shown.
    ghost shown: { Self → List ℕ → Self → Type 0 };

    /// The meanings that may follow one after a text, where the call's reads and writes went so.
    ghost heard: { Self → List ℕ → Calls → Self → Type 0 };

    /// Takes a text that says what is wrong with the words. Where that goes wrong, nobody hears of it.
    fn show(&mut self, text: &[u8], calls: &mut IoCalls)
        ensures shown { shown self.old text.now self.new }
        ensures heard { heard self.old text.now calls.new self.new }
        ensures calls { NoneForgotten calls.old calls.new };

    /// Takes a fault. Where that goes wrong, nobody hears of it.
    fn tell(&mut self, fault: &Fault, calls: &mut IoCalls)
        ensures told { told self.old fault.now self.new }
        ensures heard { heard self.old (fault_text fault.now) calls.new self.new }
        ensures calls { NoneForgotten calls.old calls.new };
}

impl<W: Write> FaultSink for W {
    ghost use Rattle.std.specs.Prelude.{◌≡◌, false};
    ghost use Rattle.std.specs.Io.KnownBytes.{Appends};
    ghost use Rattle.hotel_streams.specs.Bytes.{AppendsPrefix};
    ghost use Rattle.hotel_program.specs.Faults.{fault_text};

    ghost told = { λ old fault new. AppendsPrefix (W.contents old) (W.contents new) (fault_text fault) };

    ghost shown = { λ old text new. AppendsPrefix (W.contents old) (W.contents new) text };

    ghost heard = { λ old text calls new. calls.write_failed ≡ false → Appends (W.contents old) (W.contents new) text };

    fn show(&mut self, text: &[u8], calls: &mut IoCalls) {
        let _ = write_bytes(self, text, calls);
    }

    fn tell(&mut self, fault: &Fault, calls: &mut IoCalls) {
        let _ = write_fault(self, fault, calls);
    }
}

/// The exit status of a call that came to this end. A fault is reported first.
pub(crate) fn finish<F: FaultSink>(
    end: Result<u8, Fault>,
    faults: &mut F,
    calls: &mut IoCalls,
) -> u8
    ensures status { result ≡ end_status end }
    ensures told { Reports F.told faults.old end faults.new }
    ensures heard { IsHeard F.heard faults.old end calls.new faults.new }
    ensures calls { NoneForgotten calls.old calls.new }
{
    match end {
        Ok(status) => status,
        Err(fault) => {
            faults.tell(&fault, calls);
            fault.status()
        }
    }
}
