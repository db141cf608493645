//! Where connections are taken, and what calls them and tells how long a call takes.

ghost use Rattle.std.specs.Prelude.{◌≡◌, OnOk};
ghost use Rattle.std.specs.Duration.{as_nanos};
ghost use Rattle.std.specs.Io.{ReadsAtMost, WritesAtMost};
ghost use Rattle.std.specs.Io.KnownBytes.{ReadConsumes, WriteAppends};

use std::io::{self, Read, Write};
use std::net::{Shutdown, TcpListener, TcpStream};
use std::thread;
use std::time::{Clock, Duration, Instant};

/// What calls connections of the type `S`, and reads the clock. What comes of a limit and what the clock shows is not
/// known to contracts: they say what was asked, in which order, and what the answers were.
pub trait Caller<S> {
    ghost use Rattle.std.specs.Prelude.{ℕ, List, Option, None, Result};
    ghost use Rattle.std.specs.declared.io.Error.{Error};
    ghost use Rattle.std.specs.declared.time.Instant.{Instant};

    /// The bytes that reads of a connection will give, where they are known.
    ghost remaining: { S → Self → Option (List ℕ) } = { λ _ _. None };

    /// The bytes that it was given, where they are known.
    ghost contents: { S → Self → Option (List ℕ) } = { λ _ _. None };

    /// The states that may follow one after the clock was read.
    ghost clock_read: { Self → Result Instant Error → Self → Type 0 };

    /// The same after reads of a connection were asked to take no more than so many nanoseconds.
    ghost reads_limited: { S → Self → ℕ → Result (Unit {0}) Error → Self → Type 0 };

    /// The same of writes.
    ghost writes_limited: { S → Self → ℕ → Result (Unit {0}) Error → Self → Type 0 };

    /// The same of a read, which left this in the room.
    ghost was_read: { S → Self → Result ℕ Error → List ℕ → Self → Type 0 };

    /// The same of a write of these bytes.
    ghost was_written: { S → Self → List ℕ → Result ℕ Error → Self → Type 0 };

    /// The same after the writing side was shut.
    ghost writes_shut: { S → Self → Result (Unit {0}) Error → Self → Type 0 };

    fn now(&mut self) -> io::Result<Instant>
        ensures read { clock_read self.old result self.new }
        ensures unread { (stream : S) → remaining stream self.new ≡ remaining stream self.old }
        ensures unwritten { (stream : S) → contents stream self.new ≡ contents stream self.old };

    fn limit_reads(&mut self, stream: &S, limit: Duration) -> io::Result<()>
        ensures limited { reads_limited stream.now self.old (as_nanos limit) result self.new }
        ensures unread { remaining stream.now self.new ≡ remaining stream.now self.old }
        ensures past { as_nanos limit ≡ 0 → OnOk result ⊥ };

    fn limit_writes(&mut self, stream: &S, limit: Duration) -> io::Result<()>
        ensures limited { writes_limited stream.now self.old (as_nanos limit) result self.new }
        ensures unwritten { contents stream.now self.new ≡ contents stream.now self.old }
        ensures past { as_nanos limit ≡ 0 → OnOk result ⊥ };

    fn read_some(&mut self, stream: &S, room: &mut [u8]) -> io::Result<usize>
        ensures bound { ReadsAtMost result room.new }
        ensures bytes { ReadConsumes (remaining stream.now self.old) (remaining stream.now self.new) result room.new }
        ensures read { was_read stream.now self.old result room.new self.new };

    fn write_some(&mut self, stream: &S, bytes: &[u8]) -> io::Result<usize>
        ensures bound { WritesAtMost result bytes.now }
        ensures bytes { WriteAppends (contents stream.now self.old) (contents stream.now self.new) result bytes.now }
        ensures written { was_written stream.now self.old bytes.now result self.new };

    /// The peer is told that nothing more is written.
    fn shut_writes(&mut self, stream: &S) -> io::Result<()>
        ensures shut { writes_shut stream.now self.old result self.new };
}

/// What takes connections, one after the other. Which come is not known to contracts: they say what was asked, in which
/// order, and what was answered.
pub trait Listener {
    ghost use Rattle.std.specs.Prelude.{ℕ, Result};
    ghost use Rattle.std.specs.declared.io.Error.{Error};

    /// A connection.
    type Stream: Drop;

    /// What calls one: one caller reads it, another writes to it.
    type Caller: Caller<Self::Stream> + Drop;

    /// The states that may follow one after a connection was asked for, and was taken or not.
    ghost taken: { Self → Result Self.Stream Error → Self → Type 0 };

    /// The same after a caller was made.
    ghost caller_made: { Self → Self.Caller → Self → Type 0 };

    /// The same after a connection was closed, with the caller that read it and the one that wrote to it.
    ghost closed: { Self → Self.Stream → Self.Caller → Self.Caller → Self → Type 0 };

    /// The same after so many nanoseconds were waited for.
    ghost waited: { Self → ℕ → Self → Type 0 };

    fn accept(&mut self) -> io::Result<Self::Stream>
        ensures taken { taken self.old result self.new };

    fn caller(&mut self) -> Self::Caller
        ensures caller_made { caller_made self.old result self.new };

    fn close(&mut self, stream: Self::Stream, reads: Self::Caller, writes: Self::Caller)
        ensures closed { closed self.old stream reads writes self.new };

    fn wait(&mut self, time: Duration)
        ensures waited { waited self.old (as_nanos time) self.new };
}

/// Calls connections of the system, with a clock.
#[derive(Drop)]
pub struct SystemCaller<C> {
    clock: C,
}

impl<C: Clock> Caller<TcpStream> for SystemCaller<C> {
    ghost clock_read = { λ _ _ _. Unit {0} };

    ghost reads_limited = { λ _ _ _ _ _. Unit {0} };

    ghost writes_limited = { λ _ _ _ _ _. Unit {0} };

    ghost was_read = { λ _ _ _ _ _. Unit {0} };

    ghost was_written = { λ _ _ _ _ _. Unit {0} };

    ghost writes_shut = { λ _ _ _ _. Unit {0} };

    fn now(&mut self) -> io::Result<Instant> {
        Instant::now(&self.clock)
    }

    fn limit_reads(&mut self, stream: &TcpStream, limit: Duration) -> io::Result<()> {
        stream.set_read_timeout(Some(limit))
    }

    fn limit_writes(&mut self, stream: &TcpStream, limit: Duration) -> io::Result<()> {
        stream.set_write_timeout(Some(limit))
    }

    fn read_some(&mut self, stream: &TcpStream, room: &mut [u8]) -> io::Result<usize> {
        let mut stream = stream;
        stream.read(room)
    }

    fn write_some(&mut self, stream: &TcpStream, bytes: &[u8]) -> io::Result<usize> {
        let mut stream = stream;
        stream.write(bytes)
    }

    fn shut_writes(&mut self, stream: &TcpStream) -> io::Result<()> {
        stream.shutdown(Shutdown::Write)
    }
}

/// A clock that stands still.
#[derive(Clone, Copy, Debug)]
pub struct NoClock;

impl Clock for NoClock {
    fn monotonic(&self) -> io::Result<Duration> {
        Ok(Duration::ZERO)
    }

    fn since_1970(&self) -> io::Result<Duration> {
        Ok(Duration::ZERO)
    }
}

/// Without a clock each read and each write of a connection may take as long as all of them together, and behind a
/// connection that couldn't be taken the next is tried at once.
impl Listener for &TcpListener {
    type Stream = TcpStream;

    type Caller = SystemCaller<NoClock>;

    ghost taken = { λ _ _ _. Unit {0} };

    ghost caller_made = { λ _ _ _. Unit {0} };

    ghost closed = { λ _ _ _ _ _. Unit {0} };

    ghost waited = { λ _ _ _. Unit {0} };

    fn accept(&mut self) -> io::Result<TcpStream> {
        let (stream, _) = TcpListener::accept(self)?;
        Ok(stream)
    }

    fn caller(&mut self) -> SystemCaller<NoClock> {
        SystemCaller { clock: NoClock }
    }

    fn close(
        &mut self,
        _stream: TcpStream,
        _reads: SystemCaller<NoClock>,
        _writes: SystemCaller<NoClock>,
    ) {}

    fn wait(&mut self, _time: Duration) {}
}

/// A listener of the system, with a clock.
#[derive(Drop)]
pub struct ClockedListener<C> {
    listener: TcpListener,
    clock: C,
}

impl<C: Clock + Copy> ClockedListener<C> {
    pub fn new(listener: TcpListener, clock: C) -> ClockedListener<C> {
        ClockedListener { listener, clock }
    }
}

impl<C: Clock + Copy> Listener for ClockedListener<C> {
    type Stream = TcpStream;

    type Caller = SystemCaller<C>;

    ghost taken = { λ _ _ _. Unit {0} };

    ghost caller_made = { λ _ _ _. Unit {0} };

    ghost closed = { λ _ _ _ _ _. Unit {0} };

    ghost waited = { λ _ _ _. Unit {0} };

    fn accept(&mut self) -> io::Result<TcpStream> {
        let (stream, _) = self.listener.accept()?;
        Ok(stream)
    }

    fn caller(&mut self) -> SystemCaller<C> {
        SystemCaller { clock: self.clock }
    }

    fn close(&mut self, _stream: TcpStream, _reads: SystemCaller<C>, _writes: SystemCaller<C>) {}

    fn wait(&mut self, time: Duration) {
        thread::sleep(&self.clock, time);
    }
}
