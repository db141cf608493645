//! Walks over books in memory of which one call fails.
ghost use Rattle.std.specs.Prelude.{◌≡◌, Err, is_some, OnErr, OnOk, Some};
ghost use Rattle.hotel_books.specs.Books.Walks.{failure_of};
ghost use Rattle.stopping_books.specs.Stops.{CountsFailure, EndsAs, IsLeft, MakesCall};

use crate::calls::Calls;
use crate::stopping_books::StoppingBooks;
use hotel_core::{Sink, Stop, WalkFault, WalkedInMemory, Walks, WalksOf};
use keycard_rules::LookFault;

/// A sink that hands rows on to another one, up to the call that fails.
#[derive(Drop)]
pub(crate) struct Passing<'a, S> {
    sink: &'a mut S,
    calls: Calls,
    /// Whether it stopped since the call failed, and not since the other sink stopped.
    failed: bool,
}

impl<'a, S> Passing<'a, S> {
    /// No row is handed on yet.
    fn new(sink: &'a mut S, calls: Calls) -> Passing<'a, S>
        ensures same_sink { result.sink.ghost_name ≡ sink.entry.ghost_name }
        ensures untouched { result.sink.now ≡ sink.old }
    {
        Passing {
            sink,
            calls,
            failed: false,
        }
    }
}

impl<'a, R, S: Sink<R>> Sink<R> for Passing<'a, S> {
    ghost use Rattle.std.specs.Prelude.{◌≡◌, false};
    ghost use Rattle.stopping_books.specs.Stops.{MakesCall, StopsEither};

    ghost after = { λ old row new. (new.sink.ghost_name ≡ old.sink.ghost_name)
        × S.after old.sink.now row new.sink.now × MakesCall old.calls new.calls false };

    ghost after_stop = { λ old row new. (new.sink.ghost_name ≡ old.sink.ghost_name)
        × StopsEither new.failed (new.sink.now ≡ old.sink.now) (S.after_stop old.sink.now row new.sink.now)
        × MakesCall old.calls new.calls new.failed };

    fn take(&mut self, row: &R) -> Result<(), Stop> {
        self.failed = self.calls.fails();
        if self.failed {
            return Err(Stop);
        }
        self.sink.take(row)
    }
}

impl StoppingBooks {
    /// The fault of a walk that failed for this cause, which is counted.
    fn walk_failed(&mut self, cause: LookFault) -> WalkFault
        ensures same { failure_of (Err result) ≡ Some cause }
        ensures left { IsLeft self.old self.new }
        ensures counted { CountsFailure (failure_of (Err result)) self.old self.new }
    {
        self.count(cause);
        match cause {
            LookFault::Memory => WalkFault::Memory,
            LookFault::Store => WalkFault::Store,
        }
    }

    /// How a walk ends that the books in memory ended so, after these calls.
    fn ended(
        &mut self,
        end: Result<(), WalkFault>,
        calls: Calls,
        failed: bool,
    ) -> Result<(), WalkFault>
        ensures ends { EndsAs self.old.cause end failed result }
        ensures rows { self.new.rows ≡ self.old.rows }
        ensures cause { self.new.cause ≡ self.old.cause }
        ensures last_call { OnOk end (MakesCall calls self.new.calls (is_some (failure_of result))) }
        ensures no_call { OnErr end (self.new.calls ≡ calls) }
        ensures counted { CountsFailure (failure_of result) self.old self.new }
    {
        self.calls = calls;
        match end {
            Ok(()) => match self.begin() {
                Ok(()) => Ok(()),
                Err(LookFault::Memory) => Err(WalkFault::Memory),
                Err(LookFault::Store) => Err(WalkFault::Store),
            },
            Err(WalkFault::Memory) => Err(self.walk_failed(LookFault::Memory)),
            Err(WalkFault::Store) => Err(self.walk_failed(LookFault::Store)),
            Err(WalkFault::Stopped) if failed => Err(self.walk_failed(self.cause())),
            Err(WalkFault::Stopped) => Err(WalkFault::Stopped),
        }
    }
}

impl<L: WalkedInMemory> WalksOf<L> for StoppingBooks {
    fn walk<S: Sink<L::Row>>(&mut self, list: &L, sink: &mut S) -> Result<(), WalkFault> {
        let mut passing = Passing::new(sink, self.calls);
        let end = self.books.walk(list, &mut passing);
        self.ended(end, passing.calls, passing.failed)
    }
}

impl Walks for StoppingBooks {}
