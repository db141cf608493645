//! The desk's SQL statements over one connection. `hotel_tables` makes books of them; here no transaction is begun or
//! committed.
//!
//! - specs: Trees, Schema, Texts, Columns, Values, Tables: the tables of both versions and their stored rows. Books:
//!   what is true of the connection.
//! - src: look_ups, look, from_row; LookUps, Failures, Ready, Readable: look-ups, and why they fail.
//!   from_row/bare_rows: rooms and notes as their tables have them, and with the fits of their rooms.
//! - src: statement, steps, changes, issue, refits, lock_notes, new_desk; Statements, Steps, NewDesk: what changes and
//!   a new desk write.
//! - src: walk, walks, plain_rows, whole_tables; specs of these names: the walks; each table read whole.
//! - src: version, indexes, upgrade, same_schema; Upgrade, SameSchema: what an older desk lacks; two schemas compared.
//! - proofs: Transaction, Ends, Upgraded: how a transaction of a change or an upgrade ends.
#![tactic(auto)]

pub mod changes;
mod from_row;
mod indexes;
pub mod issue;
pub mod lock_notes;
mod look;
pub mod look_ups;
pub mod new_desk;
mod number;
pub mod plain_rows;
pub mod refits;
pub mod same_schema;
mod statement;
pub mod steps;
mod texts;
pub mod upgrade;
mod version;
mod walk;
pub mod walks;
pub mod whole_tables;

pub use from_row::fault_of;
pub use look_ups::RoomCounts;
pub use version::{INDEXES, Layout, Version};
