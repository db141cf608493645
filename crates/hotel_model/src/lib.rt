//! The model of the desk: the types of commands, replies, changes and rows, their laws, and the computed scenes. Of
//! code it has `CodeState::at`, `StatusRow::of_room`, the rows of a new room, and the texts of refusals. docs/MODEL.md
//! says how to read it.
//!
//! - src: command, reply, change, rows and list_rows are the types; laws and scenes are functions with an empty body.
//! - specs: the model, in the reading order of Lib.antt. Refinement is the code's own terms, between the rows and the
//!   model; Scenes the worked scenarios, two refusals at once, and each rule of sound rows broken.
//! - proofs: Facts and Invariants hold of each history, Starts of sound rows as one; RowsAfter, SoundRows: the rows
//!   after an event; Lifted: what is computed on rows is the model's answer; LeadsOn: calls in a row; OfTables: lists
//!   in the order of keys; Names re-exports the names that proofs cite most.
#![tactic(auto)]

mod change;
mod command;
mod laws;
mod list_rows;
mod refusal_texts;
mod reply;
mod rows;
mod scenes;

pub use change::{Change, InsideMove};
pub use command::Command;
pub use laws::{
    answers_lift, assured, cards_are_shown, changes_fit, free_is_kept, insiders_are_listed,
    rules_are_tested, runs_compute, runs_join, starts_stand,
};
pub use list_rows::{
    BehindRow, CardRow, ChainRow, CodeState, FreeRow, HouseRow, InsideRow, LockRow, StatusRow,
};
pub use reply::{Refusal, Reply};
pub use rows::{CodeRow, FitRow, NextNumbers, RoomRow};
