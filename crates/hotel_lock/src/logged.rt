//! A lock with all its notes.
ghost use Rattle.std.specs.Prelude.{◌≡◌, [], ◌∷◌, ◌++◌, true, false, is_some, Ok, IfOk, OnOk, OnErr, IfSome, IfNone};
ghost use Rattle.hotel_lock.specs.Door.{fitted, Lock as Kept};
ghost use Rattle.hotel_lock.specs.Log.{goes_out, holds_after, sets, shows};
ghost use Rattle.hotel_lock.specs.Logged.{IsLogOf, Makes, does, logged_after};

use crate::lock::Lock;
use hotel_nights::Moment;
use keycard_rules::{Act, CardNo, Code, FitNo, Link, LockNote, Memory, RoomNo};
use std::alloc::Global;
use std::marker::Model;

/// A lock with its log: all its notes are what a new lock of its room and number makes of itself, one after the other.
#[derive(Drop)]
pub struct LoggedLock {
    first: Code,
    lock: Lock,
    notes: Vec<LockNote>,
}

impl Model for LoggedLock {
    ghost use Rattle.hotel_lock.specs.Logged.{IsLogged, Logged};

    ghost Value = { Logged };

    ghost view = { λ l. record { first = l.first; lock = l.lock; notes = l.notes.items } };

    ghost invariant = { λ l. IsLogged (record { first = l.first; lock = l.lock; notes = l.notes.items }) };
}

impl LoggedLock {
    /// A new lock, set to its code.
    pub fn fitted(alloc: Global, room: RoomNo, fit: FitNo, code: Code) -> LoggedLock
        ensures { result ≡ record { first = code; lock = fitted room fit code; notes = [] } }
    {
        LoggedLock {
            first: code,
            lock: Lock::fitted(room, fit, code),
            notes: Vec::new(alloc),
        }
    }

    /// The code that it was first set to.
    pub fn first(&self) -> Code
        ensures { result ≡ self.now.first }
    {
        self.first
    }

    /// The lock, as it stands.
    pub fn lock(&self) -> &Lock
        ensures { result.now ≡ self.now.lock }
    {
        &self.lock
    }

    /// All its notes, the earliest first.
    pub fn notes(&self) -> &[LockNote]
        ensures { result.now ≡ self.now.notes }
    {
        self.notes.as_slice()
    }

    /// Keeps a note that the lock makes, behind which it stands so.
    fn keep(&mut self, lock: Lock, note: LockNote) -> Result<(), Memory>
        requires { Makes self.old.lock self.old.notes note lock }
        ensures ok { OnOk result (self.new ≡ record self.old { lock = lock; notes = self.old.notes ++ (note ∷ []) }) }
        ensures err { OnErr result (self.new ≡ self.old) }
    {
        self.notes.push(note).map_err(|_| Memory)?;
        self.lock = lock;
        Ok(())
    }

    /// Does what the act says, and keeps the note. It answers whether the lock did anything. Without memory for the
    /// note it does nothing.
    fn act(&mut self, act: &Act, at: Moment) -> Result<bool, Memory>
        ensures done { IfOk result (λ done. done ≡ is_some (does self.old.lock self.old.notes act.now at)) }
        ensures ok { OnOk result (self.new ≡ logged_after self.old (does self.old.lock self.old.notes act.now at)) }
        ensures err { OnErr result (self.new ≡ self.old) }
    {
        let mut lock = self.lock;
        let Some(note) = lock.does(&self.notes, act, at) else {
            return Ok(false);
        };
        self.keep(lock, note)?;
        Ok(true)
    }

    /// A card is shown from outside. The answer: whether the door opens; where it stays shut, nothing changes.
    pub fn enter(&mut self, card: CardNo, link: &Link, at: Moment) -> Result<bool, Memory>
        ensures done { IfOk result (λ opens. opens ≡ is_some (shows self.old.lock card link.now at)) }
        ensures ok { OnOk result (self.new ≡ logged_after self.old (shows self.old.lock card link.now at)) }
        ensures err { OnErr result (self.new ≡ self.old) }
    {
        self.act(&Act::Entered { card, link: *link }, at)
    }

    /// A card is shown on the way out. The answer: whether the lock notes it, since its notes have the card inside.
    pub fn leave(&mut self, card: CardNo, link: &Link, at: Moment) -> Result<bool, Memory>
        ensures done { IfOk result (λ notes. notes ≡ is_some (goes_out self.old.lock self.old.notes card link.now at)) }
        ensures ok { OnOk result (self.new ≡ logged_after self.old
            (goes_out self.old.lock self.old.notes card link.now at)) }
        ensures err { OnErr result (self.new ≡ self.old) }
    {
        self.act(&Act::Left { card, link: *link }, at)
    }

    /// Staff set it to a code. The answer: whether it then holds this code. It does if it held it already, and makes no
    /// note of it; else it has no further count for the note.
    pub fn set(&mut self, code: Code, at: Moment) -> Result<bool, Memory>
        ensures done { IfOk result (λ holds. holds ≡ holds_after self.old.lock code (sets self.old.lock code at)) }
        ensures ok { OnOk result (self.new ≡ logged_after self.old (sets self.old.lock code at)) }
        ensures err { OnErr result (self.new ≡ self.old) }
    {
        let from = self.lock.held();
        self.act(&Act::Recoded { from, to: code }, at)?;
        Ok(self.lock.held() == code)
    }

    /// Repeats what a note tells of. It answers whether the lock makes this very note; else nothing changes.
    fn repeat(&mut self, note: &LockNote) -> Result<bool, Memory>
        ensures makes { result ≡ Ok true → Makes self.old.lock self.old.notes note.now self.new.lock }
        ensures log { result ≡ Ok true → self.new.notes ≡ self.old.notes ++ (note.now ∷ []) }
        ensures first { self.new.first ≡ self.old.first }
        ensures differs { result ≡ Ok false → (after : Kept) → Makes self.old.lock self.old.notes note.now after → ⊥ }
    {
        let mut lock = self.lock;
        match lock.does(&self.notes, &note.act, Moment::of(note)) {
            Some(made) if made == *note => {
                self.keep(lock, made)?;
                Ok(true)
            }
            _ => Ok(false),
        }
    }

    /// The lock that was set to this code at first and made just these notes; `None` where no lock of the room and of
    /// this number can have made them.
    pub fn replayed(
        alloc: Global,
        room: RoomNo,
        fit: FitNo,
        code: Code,
        notes: &[LockNote],
    ) -> Result<Option<LoggedLock>, Memory>
        ensures some { IfOk result (λ found. IfSome found (λ l. (l.first ≡ code) × (l.notes ≡ notes.now)
            × IsLogOf room fit code notes.now l.lock)) }
        ensures none { IfOk result (λ found. IfNone found ((end : Kept) → IsLogOf room fit code notes.now end → ⊥)) }
    {
        let mut logged = LoggedLock::fitted(alloc, room, fit, code);
        for note in notes {
            if !logged.repeat(note)? {
                return Ok(None);
            }
        }
        Ok(Some(logged))
    }
}
