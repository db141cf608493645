//! A connection that has a time for its first byte, one for all its reads behind it, and the same for all its writes.

ghost use Rattle.std.specs.Prelude.{◌≡◌, ◌≤◌, ℕ, false, true, Option, Some, None, Result, IsOk, OnOk};
ghost use Rattle.std.specs.Duration.{as_nanos};
ghost use Rattle.std.specs.Io.{ReadsAtMost, WritesAtMost};
ghost use Rattle.std.specs.Io.KnownBytes.{Keeps, ReadConsumes, WriteAppends};
ghost use Rattle.std.specs.declared.io.Error.{Error};
ghost use Rattle.hotel_program.specs.Timed.{CallInTime, LeavesTime, LingersOn, ReadSince, ReadsRest, SecondSet};
ghost use Rattle.hotel_program.specs.Timed.{WrittenSince, is_first, left_after, left_at, shorter};

use crate::listener::Caller;
use std::io::{self, Read, Write};
use std::marker::{Brand, PhantomData};
use std::time::{Duration, Instant};

/// How many nanoseconds the first byte of a connection may take to come: one second. Browsers open connections ahead,
/// and send nothing over them.
pub(crate) const FIRST_PATIENCE: u64 = 1_000_000_000;

/// How many nanoseconds all the reads of a connection behind its first byte may take together, and as many all its
/// writes: ten seconds.
pub(crate) const PATIENCE: u64 = 10_000_000_000;

/// How many nanoseconds one read may take of what comes behind an answer: one second.
pub(crate) const SILENCE: u64 = 1_000_000_000;

/// How many bytes are thrown away of what comes behind an answer, until no more are read.
pub(crate) const REST_BYTES: usize = 1_000_000;

/// How many of them are read at once.
const ROOM_BYTES: usize = 4096;

/// The time that a connection has.
fn patience() -> Duration
    ensures { as_nanos result ≡ PATIENCE }
{
    Duration::from_nanos(PATIENCE)
}

/// Sets how long a read and a write of the connection may take: whether the system took both limits.
pub(crate) fn set_limits<S, L: Caller<S>>(stream: &S, reads: &mut L, writes: &mut L) -> bool
    ensures limits { (first : Result (Unit {0}) Error) × L.reads_limited stream.now reads.old PATIENCE first reads.new
        × SecondSet (λ old set new. L.writes_limited stream.now old PATIENCE set new) first writes.old writes.new
        result }
    ensures unread { L.remaining stream.now reads.new ≡ L.remaining stream.now reads.old }
    ensures unwritten { L.contents stream.now writes.new ≡ L.contents stream.now writes.old }
{
    reads.limit_reads(stream, patience()).is_ok() && writes.limit_writes(stream, patience()).is_ok()
}

/// What is left of a time, of which some was taken between two readings of a clock.
fn left_of(left: Duration, begun: Instant, ended: Instant) -> Duration
    ensures { as_nanos result ≡ left_after (as_nanos left) begun ended }
{
    left.saturating_sub(ended.duration_since(begun))
}

/// The same by what the clock gave behind a call: nothing, where it gave no time.
fn left_at(left: Duration, begun: Instant, ended: io::Result<Instant>) -> Duration
    ensures left { as_nanos result ≡ left_at (as_nanos left) begun ended }
    ensures less { as_nanos result ≤ as_nanos left }
{
    match ended {
        Ok(ended) => left_of(left, begun, ended),
        Err(_) => Duration::ZERO,
    }
}

/// The shorter of two times.
fn shorter(a: Duration, b: Duration) -> Duration
    ensures { as_nanos result ≡ shorter (as_nanos a) (as_nanos b) }
{
    a.saturating_sub(a.saturating_sub(b))
}

/// A read that may take the time that is left, and takes from it what it took: all, where the clock doesn't say. Where
/// nothing is left it fails.
fn read_within<S, L: Caller<S>>(
    caller: &mut L,
    stream: &S,
    left: &mut Duration,
    room: &mut [u8],
) -> io::Result<usize>
    ensures bound { ReadsAtMost result room.new }
    ensures bytes { ReadConsumes (L.remaining stream.now caller.old) (L.remaining stream.now caller.new)
        result room.new }
    ensures past { as_nanos left.old ≡ 0 → OnOk result ⊥ }
    ensures less { as_nanos left.new ≤ as_nanos left.old }
    ensures timed { CallInTime (L.reads_limited stream.now) L.clock_read
        (λ old got new. L.was_read stream.now old got room.new new)
        caller.old (as_nanos left.old) result (as_nanos left.new) caller.new }
{
    caller.limit_reads(stream, *left)?;
    let begun = caller.now()?;
    let got = caller.read_some(stream, room);
    *left = left_at(*left, begun, caller.now());
    got
}

/// The same of a write.
fn write_within<S, L: Caller<S>>(
    caller: &mut L,
    stream: &S,
    left: &mut Duration,
    bytes: &[u8],
) -> io::Result<usize>
    ensures bound { WritesAtMost result bytes.now }
    ensures bytes { WriteAppends (L.contents stream.now caller.old) (L.contents stream.now caller.new)
        result bytes.now }
    ensures past { as_nanos left.old ≡ 0 → OnOk result ⊥ }
    ensures less { as_nanos left.new ≤ as_nanos left.old }
    ensures timed { CallInTime (L.writes_limited stream.now) L.clock_read
        (λ old. L.was_written stream.now old bytes.now)
        caller.old (as_nanos left.old) result (as_nanos left.new) caller.new }
{
    caller.limit_writes(stream, *left)?;
    let begun = caller.now()?;
    let taken = caller.write_some(stream, bytes);
    *left = left_at(*left, begun, caller.now());
    taken
}

/// A read of what comes behind an answer: it may take a second, and no more than what is left.
fn read_rest<S, L: Caller<S>>(
    caller: &mut L,
    stream: &S,
    left: &mut Duration,
    room: &mut [u8],
) -> io::Result<usize>
    ensures bound { ReadsAtMost result room.new }
    ensures timed { ReadsRest (L.reads_limited stream.now) L.clock_read (L.was_read stream.now)
        (caller.old, as_nanos left.old) (result, room.new) (caller.new, as_nanos left.new) }
{
    let limit = shorter(*left, Duration::from_nanos(SILENCE));
    let mut rest = limit;
    let got = read_within(caller, stream, &mut rest, room);
    *left = left.saturating_sub(limit.saturating_sub(rest));
    got
}

/// A connection and its callers as they began, for proofs alone: who serves one picks it. It ties what generic code
/// leaves of a reader or writer to what that began with.
pub(crate) trait Begun<S, L> {
    ghost stream: { Option S };

    /// The caller that reads the connection.
    ghost reads: { Option L };

    /// The caller that writes to it.
    ghost writes: { Option L };
}

impl<S, L> Begun<S, L> for Brand {
    ghost stream = { None };

    ghost reads = { None };

    ghost writes = { None };
}

/// A connection that is read: its first byte has one second, and all reads behind it together have ten, whatever pieces
/// come in.
#[derive(Drop)]
pub(crate) struct TimedReader<'s, S, L: Caller<S>, K: Begun<S, L>> {
    stream: &'s S,
    caller: L,
    left: Duration,
    /// No byte has come.
    waits: bool,
    begun: PhantomData<K>,
    ghost of: { K.stream ≡ Some stream.now },
    ghost timed: { ∥ ReadSince L.Caller K.reads stream.now
        (record { caller = caller; left = as_nanos left; waits = waits }) ∥₁ },
}

/// Whether a read brought the first byte.
fn is_first(waits: bool, got: &io::Result<usize>) -> bool
    ensures { result ≡ is_first waits got.now }
{
    match got {
        Ok(count) => waits && *count > 0,
        Err(_) => false,
    }
}

impl<'s, S, L: Caller<S>, K: Begun<S, L>> TimedReader<'s, S, L, K> {
    pub fn new(stream: &'s S, caller: L) -> TimedReader<'s, S, L, K>
        requires stream { K.stream ≡ Some stream.now }
        requires caller { K.reads ≡ Some caller }
        ensures { (result.stream.now ≡ stream.now) × (result.caller ≡ caller) }
    {
        TimedReader {
            stream,
            caller,
            left: Duration::from_nanos(FIRST_PATIENCE),
            waits: true,
            begun: PhantomData,
        }
    }

    /// The caller, when nothing more is read.
    pub fn into_caller(self) -> L
        ensures { result ≡ self.entry.caller }
    {
        self.caller
    }

    /// Shuts the writing side, and throws away what comes until the peer ends too. So no reset takes the answer from a
    /// peer that still sends. It ends too where one second brings nothing, `REST_BYTES` came, or no time is left. It
    /// answers the caller.
    pub fn linger(self) -> L
        ensures lingers { (shut : Result (Unit {0}) Error) × (mid : L) × (rest : ℕ)
            × L.writes_shut self.entry.stream.now self.entry.caller shut mid
            × LingersOn (ReadsRest (L.reads_limited self.entry.stream.now) L.clock_read
            (L.was_read self.entry.stream.now)) shut (mid, as_nanos self.entry.left) (result, rest) }
    {
        let TimedReader {
            stream,
            mut caller,
            mut left,
            ..
        } = self;
        if caller.shut_writes(stream).is_err() {
            return caller;
        }
        let mut room = [0; ROOM_BYTES];
        let mut rest = REST_BYTES;
        while rest > 0 {
            match read_rest(&mut caller, stream, &mut left, &mut room) {
                Ok(count) if count > 0 => rest = rest.saturating_sub(count),
                _ => return caller,
            }
        }
        caller
    }
}

impl<'s, S, L: Caller<S>, K: Begun<S, L>> Read for TimedReader<'s, S, L, K> {
    ghost remaining = { λ r. L.remaining r.stream.now r.caller };

    fn read(&mut self, room: &mut [u8]) -> io::Result<usize>
        ensures bound { ReadsAtMost result room.new }
        ensures bytes { ReadConsumes (L.remaining self.old.stream.now self.old.caller)
            (L.remaining self.new.stream.now self.new.caller) result room.new }
        ensures past { as_nanos self.old.left ≡ 0 → OnOk result ⊥ }
        ensures timed { (left : ℕ) × CallInTime (L.reads_limited self.old.stream.now) L.clock_read
            (λ old got new. L.was_read self.old.stream.now old got room.new new)
            self.old.caller (as_nanos self.old.left) result left self.new.caller
            × LeavesTime self.old.waits result left (as_nanos self.new.left) self.new.waits }
    {
        let got = read_within(&mut self.caller, self.stream, &mut self.left, room);
        if is_first(self.waits, &got) {
            self.waits = false;
            self.left = patience();
        }
        got
    }
}

/// A connection that is written to: all its writes together have ten seconds, whatever the peer takes at once.
#[derive(Drop)]
pub(crate) struct TimedWriter<'s, S, L: Caller<S>, K: Begun<S, L>> {
    stream: &'s S,
    caller: L,
    left: Duration,
    begun: PhantomData<K>,
    ghost of: { K.stream ≡ Some stream.now },
    ghost timed: { ∥ WrittenSince L.Caller K.writes stream.now (caller, as_nanos left) ∥₁ },
}

impl<'s, S, L: Caller<S>, K: Begun<S, L>> TimedWriter<'s, S, L, K> {
    pub fn new(stream: &'s S, caller: L) -> TimedWriter<'s, S, L, K>
        requires stream { K.stream ≡ Some stream.now }
        requires caller { K.writes ≡ Some caller }
        ensures { (result.stream.now ≡ stream.now) × (result.caller ≡ caller) }
    {
        TimedWriter {
            stream,
            caller,
            left: patience(),
            begun: PhantomData,
        }
    }

    /// The caller, when nothing more is written.
    pub fn into_caller(self) -> L
        ensures { result ≡ self.entry.caller }
    {
        self.caller
    }
}

impl<'s, S, L: Caller<S>, K: Begun<S, L>> Write for TimedWriter<'s, S, L, K> {
    ghost contents = { λ w. L.contents w.stream.now w.caller };

    fn write(&mut self, bytes: &[u8]) -> io::Result<usize>
        ensures bound { WritesAtMost result bytes.now }
        ensures bytes { WriteAppends (L.contents self.old.stream.now self.old.caller)
            (L.contents self.new.stream.now self.new.caller) result bytes.now }
        ensures past { as_nanos self.old.left ≡ 0 → OnOk result ⊥ }
        ensures less { as_nanos self.new.left ≤ as_nanos self.old.left }
        ensures timed { CallInTime (L.writes_limited self.old.stream.now) L.clock_read
            (λ old. L.was_written self.old.stream.now old bytes.now)
            self.old.caller (as_nanos self.old.left) result (as_nanos self.new.left) self.new.caller }
    {
        write_within(&mut self.caller, self.stream, &mut self.left, bytes)
    }

    /// Nothing is held back.
    fn flush(&mut self) -> io::Result<()>
        ensures done { IsOk result }
        ensures bytes { Keeps (L.contents self.old.stream.now self.old.caller)
            (L.contents self.new.stream.now self.new.caller) }
        ensures same { self.new ≡ self.old }
    {
        Ok(())
    }
}
