//! What a lock notes of itself, counted by it from 1 on.
ghost use Rattle.std.specs.Prelude.{◌≡◌, ◌≤◌, Some, None, if◌then◌else◌, nat_le, ◌&&◌};
ghost use Rattle.keycard_rules.specs.declared.note.TheConstants.{LAST_DAY, LAST_SECOND};

use crate::card::Link;
use crate::code::Code;
use crate::numbers::{CardNo, Count, FitNo, RoomNo};
use std::marker::Model;

/// The last day that is known, 2099-12-31: the days are counted from 2000-01-01 as day 0.
pub const LAST_DAY: u16 = 36_524;

/// The last second of a day, 23:59:59: the seconds are counted from 0.
pub const LAST_SECOND: u32 = 86_399;

/// What happened at a lock.
#[derive(Clone, Copy, Debug, PartialEq, Eq)]
pub enum Act {
    /// A card opened the door from outside.
    Entered { card: CardNo, link: Link },
    /// A card was shown on the way out.
    Left { card: CardNo, link: Link },
    /// Staff recoded the lock.
    Recoded { from: Code, to: Code },
}

/// One note of a lock. Two notes are equal where all their fields are.
///
/// Whoever sets a field keeps the day and the second within their last ones.
#[derive(Clone, Copy, Debug, PartialEq, Eq)]
pub struct LockNote {
    /// The room whose lock noted it.
    pub room: RoomNo,
    /// The number of the room's lock that noted it.
    pub fit: FitNo,
    /// The lock's count of the note.
    pub count: Count,
    /// What happened.
    pub act: Act,
    /// The day of the note, counted from 2000-01-01 as day 0: at most `LAST_DAY`.
    pub day: u16,
    /// The second of its day, from 0 on: at most `LAST_SECOND`.
    pub second: u32,
}

impl Model for LockNote {
    ghost use Rattle.keycard_rules.specs.Note.{Note, IsTimed};

    ghost Value = { Note };

    ghost view = { λ n. record {
      room = n.room;
      fit = n.fit;
      count = n.count;
      act = n.act;
      day = n.day;
      second = n.second;
    } };

    ghost invariant = { λ n. IsTimed n.day n.second };

    ghost inverse = { λ v. record {
      room = v.room;
      fit = v.fit;
      count = v.count;
      act = v.act;
      day = v.day;
      second = v.second;
    } };
}

impl LockNote {
    /// The note of these, or `None` where the day is after `LAST_DAY` or the second after `LAST_SECOND`.
    pub fn new(
        room: RoomNo,
        fit: FitNo,
        count: Count,
        act: Act,
        day: u16,
        second: u32,
    ) -> Option<LockNote>
        ensures { result ≡ (if nat_le day LAST_DAY && nat_le second LAST_SECOND
            then Some (record { room = room; fit = fit; count = count; act = act; day = day; second = second })
            else None) }
    {
        if day > LAST_DAY || second > LAST_SECOND {
            return None;
        }
        Some(LockNote {
            room,
            fit,
            count,
            act,
            day,
            second,
        })
    }
}
