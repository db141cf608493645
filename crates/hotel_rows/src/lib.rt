//! The rows of a desk's tables as plain data: whether they are sound, which table is damaged first, and what books
//! count of them. `hotel_statements` knows how they are read and written. The crate has no store, so all is checked
//! without `sqlite`.
//!
//! - src/stored, specs/Stored: plain rows, and the books' rows that they stand for. Joined: rooms and notes joined with
//!   the fits of their rooms.
//! - src/damage, specs/Damage: the rules of sound rows as tests, table by table. RowTests: tests of a row alone. Keys,
//!   Places, Known: where rows stand. NoteRuns, FitRuns, CodePlaces: each room's notes, fits and codes. LastCards: each
//!   party's last card. LinkOwners: the party that was given the cards of a link.
//! - src/counts and rooms, specs/Counts: what books keep in memory of the rows. src/values: columns as values.
//! - src/open_fault: why a database, or a file, gives no books. It stands here, since a damaged table is such a reason,
//!   and `hotel_program`, which knows no database, reports it.
#![tactic(auto)]

mod counts;
mod damage;
mod open_fault;
mod rooms;
mod stored;
pub mod values;

pub use counts::Counts;
pub use damage::{counts_if_sound, first_damaged, undamaged_is_sound};
pub use open_fault::{FileFault, OpenFault};
pub use rooms::rooms_of;
pub use stored::{
    PlainCard, PlainCode, PlainFit, PlainInside, PlainKind, PlainNote, PlainRoom, PlainStay,
    Stored, TableName,
};
