//! The lock of one door, which stands alone: it knows no desk, and not which cards were issued.
ghost use Rattle.std.specs.Prelude.{◌≡◌};
ghost use Rattle.hotel_lock.specs.Door.{fitted};
ghost use Rattle.hotel_lock.specs.Log.{inside_behind, is_inside, is_same_card};
ghost use Rattle.hotel_lock.specs.Logged.{does};
ghost use Rattle.hotel_lock.specs.Log.{acts_where_counted, goes_out, lock_after, note_of, sets, shows};

use hotel_nights::Moment;
use keycard_rules::{Act, CardNo, Code, Count, FitNo, LAST_NUMBER, Link, LockNote, RoomNo, turn};
use std::marker::Model;

/// A lock: the room of its door, its number among the room's locks, the code that it holds, and how many notes it made.
#[derive(Clone, Copy, Debug, PartialEq, Eq)]
pub struct Lock {
    room: RoomNo,
    fit: FitNo,
    held: Code,
    made: u32,
}

impl Model for Lock {
    ghost use Rattle.std.specs.Prelude.{◌≤◌};
    ghost use Rattle.keycard_rules.specs.declared.numbers.TheConstants.{LAST_NUMBER};
    ghost use Rattle.hotel_lock.specs.Door.{Lock as Kept};

    ghost Value = { Kept };

    ghost view = { λ l. record { room = l.room; fit = l.fit; held = l.held; made = l.made } };

    ghost invariant = { λ l. l.made ≤ LAST_NUMBER };

    ghost inverse = { λ v. record { room = v.room; fit = v.fit; held = v.held; made = v.made } };
}

/// Whether the two are one card: the same number and the same codes.
fn is_same_card(number: CardNo, link: &Link, other: CardNo, its: &Link) -> bool
    ensures { result ≡ is_same_card number link.now other its.now }
{
    other == number && its.old_code == link.old_code && its.new_code == link.new_code
}

/// Whether a card is inside behind an act, where it was or wasn't before.
fn inside_behind(number: CardNo, link: &Link, was: bool, act: &Act) -> bool
    ensures { result ≡ inside_behind number link.now was act.now }
{
    match act {
        Act::Entered { card, link: its } => is_same_card(number, link, *card, its) || was,
        Act::Left { card, link: its } => !is_same_card(number, link, *card, its) && was,
        Act::Recoded { .. } => was,
    }
}

/// Whether a card is inside by these notes, all that the lock made: it came in, and didn't go out since.
pub fn is_inside(notes: &[LockNote], number: CardNo, link: &Link) -> bool
    ensures { result ≡ is_inside notes.now number link.now }
{
    let mut inside = false;
    for note in notes {
        inside = inside_behind(number, link, inside, &note.act);
    }
    inside
}

impl Lock {
    /// A new lock, set to its code: it has made no note.
    pub fn fitted(room: RoomNo, fit: FitNo, code: Code) -> Lock
        ensures { result ≡ fitted room fit code }
    {
        Lock {
            room,
            fit,
            held: code,
            made: 0,
        }
    }

    /// The number of the room of its door.
    pub fn room(&self) -> RoomNo
        ensures { result ≡ self.now.room }
    {
        self.room
    }

    /// Its number among the room's locks.
    pub fn fit(&self) -> FitNo
        ensures { result ≡ self.now.fit }
    {
        self.fit
    }

    /// The code that it holds.
    pub fn held(&self) -> Code
        ensures { result ≡ self.now.held }
    {
        self.held
    }

    /// How many notes it made.
    pub fn made(&self) -> u32
        ensures { result ≡ self.now.made }
    {
        self.made
    }

    /// Does an act, behind which it holds this code, and notes it.
    fn act(&mut self, act: Act, code: Code, at: Moment) -> Option<LockNote>
        ensures note { result ≡ note_of (acts_where_counted self.old act code at) }
        ensures lock { self.new ≡ lock_after self.old (acts_where_counted self.old act code at) }
    {
        let count = Count::new(self.made + 1)?;
        self.made += 1;
        self.held = code;
        Some(at.note(self.room, self.fit, count, act))
    }

    /// A card is shown from outside. `None`: the door stays shut and nothing changes. Else the door opens, the lock
    /// holds the card's new code, and this is its note of it.
    ///
    /// A lock whose counts are used up stays shut: it opens to nobody of whom it makes no note.
    pub fn enter(&mut self, card: CardNo, link: &Link, at: Moment) -> Option<LockNote>
        ensures note { result ≡ note_of (shows self.old card link.now at) }
        ensures lock { self.new ≡ lock_after self.old (shows self.old card link.now at) }
    {
        let code = turn(self.held, link)?;
        self.act(Act::Entered { card, link: *link }, code, at)
    }

    /// A card is shown on the way out; `notes` are all that the lock made. `None`: by them the card isn't inside, or
    /// the counts are used up, and the lock makes no note. The door opens from inside in any case.
    pub fn leave(
        &mut self,
        notes: &[LockNote],
        card: CardNo,
        link: &Link,
        at: Moment,
    ) -> Option<LockNote>
        ensures note { result ≡ note_of (goes_out self.old notes.now card link.now at) }
        ensures lock { self.new ≡ lock_after self.old (goes_out self.old notes.now card link.now at) }
    {
        if !is_inside(notes, card, link) {
            return None;
        }
        self.act(Act::Left { card, link: *link }, self.held, at)
    }

    /// Staff set it to a code. `None`: nothing happens, since it holds this code already, or its counts are used up.
    pub fn set(&mut self, code: Code, at: Moment) -> Option<LockNote>
        ensures note { result ≡ note_of (sets self.old code at) }
        ensures lock { self.new ≡ lock_after self.old (sets self.old code at) }
    {
        let from = self.held;
        if from == code {
            return None;
        }
        self.act(Act::Recoded { from, to: code }, code, at)
    }

    /// What the act says: a card is shown, a card goes out, or staff set the lock. `notes` are all that it made.
    pub(crate) fn does(&mut self, notes: &[LockNote], act: &Act, at: Moment) -> Option<LockNote>
        ensures note { result ≡ note_of (does self.old notes.now act.now at) }
        ensures lock { self.new ≡ lock_after self.old (does self.old notes.now act.now at) }
    {
        match act {
            Act::Entered { card, link } => self.enter(*card, link, at),
            Act::Left { card, link } => self.leave(notes, *card, link, at),
            Act::Recoded { to, .. } => self.set(*to, at),
        }
    }
}
