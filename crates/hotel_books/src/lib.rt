//! What the desk's books promise, however they are kept, and what is counted beside their tables. It knows no command, no
//! list's text and no store.
//!
//! - src: books; specs: Books: look-ups and changes (Reads, Changes), walks (Walks), the failure that a reply reports
//!   (Failures), what a stop leaves (Stops). specs: Refinement: what a part of a step finds in the books.
//! - src: lists: the lists that can be walked, each a type.
//! - src: night_index, night_counts, kind_rooms, free_rows; specs: NightIndex, KindRooms, FreeRows: how many stays take
//!   a night, whether it is full, and what is free.
//! - proofs: OfTables, OfNights, OfCode: maps in the order of keys; counts; walks. Names re-exports the names that the
//!   proofs of books and of commands cite most.
#![tactic(auto)]

mod books;
mod free_rows;
mod kind_rooms;
pub mod lists;
mod night_counts;
mod night_index;

pub use books::Books;
pub use books::walks::{Sink, Stop, WalkFault, Walks, WalksOf};
pub use free_rows::free_row;
pub use kind_rooms::KindRooms;
pub use night_index::NightIndex;
