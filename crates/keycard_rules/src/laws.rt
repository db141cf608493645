//! Laws, which make no call: what a caller may rest on beside the contract of each call; and the limits.
ghost use Rattle.std.specs.Prelude.{◌≡◌};
ghost use Rattle.keycard_rules.specs.Calls.{CallsLeave, ShutCallsFail};
ghost use Rattle.keycard_rules.specs.declared.code.TheConstants.{CODES};
ghost use Rattle.keycard_rules.specs.declared.draw.TheConstants.{MOST_WORDS};
ghost use Rattle.keycard_rules.specs.declared.note.TheConstants.{LAST_DAY, LAST_SECOND};
ghost use Rattle.keycard_rules.specs.declared.numbers.TheConstants.{LAST_FIT, LAST_NUMBER, LAST_ROOM};

use crate::kept::Kept;

/// Calls that are made one after the other leave together what one of them does.
pub fn calls_leave<K: Kept>()
    ensures together { CallsLeave K.Kept }
    ensures shut { ShutCallsFail K.Kept }
{}

/// Rooms, locks, numbers, codes, draws, days and seconds have the limits that they should have.
pub fn limits_are()
    ensures room { LAST_ROOM ≡ 9999 }
    ensures fit { LAST_FIT ≡ 99 }
    ensures number { LAST_NUMBER ≡ 9999999 }
    ensures code { CODES ≡ 281474976710656 }
    ensures words { MOST_WORDS ≡ 64 }
    ensures day { LAST_DAY ≡ 36524 }
    ensures second { LAST_SECOND ≡ 86399 }
{}
