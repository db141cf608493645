//! Codes, cards and locks: the two-code rule of a lock without a network, one room's chain of codes, and the drawing of
//! codes; and what all crates above share: how a call fails and what it leaves, numerals, short texts. The crate knows
//! no guest and no stay; the day of a note is a plain number.
//!
//! - src: lock, chain, draw, note, card, code, numbers: the rules, each with its file of specs or its contract. kept:
//!   what is known of issued codes, with its laws (`Kept`). issued: the one call that asks for them (`Issued`).
//! - specs: Leaves, Since, Rise: what any call leaves, and a look-up or a walk beside it (`Looks`); failures counted
//!   exactly. Calls: calls one after the other (`Passes`), and what they leave together (law `calls_leave`).
//! - specs: Words, Results, Numerals, Numbers: small words, and what readers take. ListedWords: a source for tests.
#![tactic(auto)]

mod card;
mod chain;
mod code;
mod draw;
mod faults;
mod issued;
mod kept;
mod laws;
mod listed_words;
mod lock;
mod note;
mod numbers;
mod numerals;
mod short_text;

pub use card::{Card, Link};
pub use chain::{Chain, Memory, RecodeFault, Turned};
pub use code::{CODES, Code};
pub use draw::{DrawFault, draw_fresh};
pub use issued::{Issued, LookFault};
pub use kept::Kept;
pub use laws::calls_leave;
pub use listed_words::ListedWords;
pub use lock::turn;
pub use note::{Act, LAST_DAY, LAST_SECOND, LockNote};
pub use numbers::{
    CardNo, Count, FitNo, LAST_FIT, LAST_NUMBER, LAST_ROOM, Number, PartyNo, RoomNo,
};
pub use numerals::{read_numeral, write_fixed};
pub use short_text::ShortText;
