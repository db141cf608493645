//! The desk's books over SQL tables. No rows are kept in memory, only counts of rooms and nights. A look-up is one
//! keyed statement of `hotel_statements`. Three exceptions: `full_night`, `rooms_of_kind` and `copy_guest` run none; a
//! room, a note and the next numbers take up to two; `stays_of_kind`, which no command asks, goes through all stays.
//!
//! - src: table_books, counted; specs: TableBooks, Counted: `Books` and `Walks` over a connection; the counts beside
//!   it.
//! - src: create, apply; Applied, Exits: a new desk and each change, as one transaction each.
//! - src: desk_schema, entering, opening, migration, open_books, laws; Opening, Reopening: an opening, the upgrade in
//!   it, and a close. ChangesStay: what a crash leaves of the rows.
//! - specs: Causes: why a call answers Store. Why there are no books is told by `hotel_rows`' `OpenFault`.
//! - src: path_disk, system_disk, files; Paths, Files: disks opened at a path; the books of a file.
#![tactic(auto)]

mod apply;
mod counted;
mod create;
mod desk_schema;
mod entering;
mod files;
mod laws;
mod migration;
mod open_books;
mod opening;
mod path_disk;
mod system_disk;
mod table_books;

pub use files::{close_file, open_file};
pub use hotel_rows::{
    FileFault, OpenFault, PlainCard, PlainCode, PlainFit, PlainInside, PlainKind, PlainNote,
    PlainRoom, PlainStay, Stored, TableName, first_damaged, undamaged_is_sound,
};
pub use laws::{changes_stay, files_are_clean, files_keep_books, memory_is_clean, read_undamaged};
pub use path_disk::PathDisk;
pub use system_disk::SystemDisk;
pub use table_books::TableBooks;
