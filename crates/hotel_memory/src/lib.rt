//! Books in memory, `ListBooks`: a table for each kind of rows, found by key.
//!
//! - src: list_books; a module for each table; row_changes, table_changes, table_walks: what a change and a walk do with
//!   them. specs: Tables: how the tables agree.
//! - proofs: OfTables: maps and lists in the order of keys.
#![tactic(auto)]

mod card_table;
mod code_table;
mod inside_table;
mod list_books;
mod note_table;
mod row_changes;
mod stay_table;
mod table_changes;
mod table_walks;
mod tables;

pub use list_books::ListBooks;
pub use table_walks::WalkedInMemory;
