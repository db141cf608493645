//! A client of the desk's crates, as somebody else would write it: by public names alone, with ample memory. The worked
//! scenarios run here too, over tables: worked_scenarios, tables, interrupted_walks.
//!
//! # A client
//!
//! Its line in crates.txt names the crates whose names it writes. The line of a client of everything is
//!
//!     my_client: keycard_rules hotel_nights hotel_lock hotel_core hotel_streams hotel_lists hotel_audit hotel_http
//!         hotel_program hotel_tables
//!
//! - keycard_rules, hotel_nights: values. hotel_core: commands and replies, and books in memory, `ListBooks`.
//! - hotel_streams: readers and writers for tests. hotel_lists: the lists. hotel_audit: the import of audit files; their
//!   lines are read by hotel_lock.
//! - hotel_http: one request. hotel_program: scripts, a command line's arguments, connections. (The crate hotel_desk is
//!   the program, and no crate can depend on a program.)
//! - hotel_tables: books in a database. Whoever makes its connection names sqlite too; the tests here also name
//!   sqlite_disk, for files in memory, hotel_scenarios and stopping_books.
//!
//! # Books of its own
//!
//! Three impls make a type books. A fourth one, of `WalksOf` a list, hands the rows of the list to a sink, one by one:
//! one for each list that `Walks` names, or one for all of them. An `impl Walks`, which has nothing in it, says that
//! none is left out. The crate stopping_books has them, over `ListBooks`, whose walks are those of `WalkedInMemory`.
//!
//! - `Kept` has no call. Its ghosts say what proofs know of a state. `issued`: the codes of the rows. `is_kept`: the
//!   second state has the rows of the first. `is_clean` and `is_honest`: tests of a state, `Unit {0}` for books that
//!   nothing can spoil. `failures`: how many calls answered Memory, and how many Store; `disk_failures`: 0 without a
//!   disk. `never_fails`: ⊥, unless look-ups can't fail. `leaves_no_more` and `look_up_fails`: what a stop leaves, and
//!   why the store failed; `Unit {0}` where nothing is known. The laws are `never_store`, `clean_honest`, `kept_refl`,
//!   `kept_trans`, `no_more_refl`, `no_more_trans` and `kept_issued`.
//! - `Issued`: `is_issued`. A call that answers a fault has counted it, and has changed no row.
//! - `Books`. Its ghosts are `rows`, and for changes `leaves_change` and `change_fails`; its laws are `kept_rows`,
//!   `change_after` and `issued_are`. To be written are `day`, `kind`, `room`, `code_place`, `code_at`, `stay`,
//!   `stays_of_kind`, `card`, `inside`, `note`, `fit`, `rooms_of_kind`, `next_numbers`, and `apply`, which makes all of
//!   a change or nothing.
//!   `is_inside` and `has_inside` have bodies, over `inside`. Three more are to be written, each for a reason:
//!   - `full_night` finds the first full night, and takes no memory;
//!   - `copy_guest` copies a guest's name: books alone can count that memory for it ran out;
//!   - `known_sound` does nothing. By its clause clean books have sound rows, which a type's `invariant` may say and a
//!     law can't use.
#![tactic(auto)]

#[cfg(test)]
mod audit_files;
#[cfg(test)]
mod books_in_memory;
#[cfg(test)]
mod commands;
#[cfg(test)]
mod connections;
#[cfg(test)]
mod faults;
#[cfg(test)]
mod interrupted_walks;
#[cfg(test)]
mod lists;
#[cfg(test)]
mod look_ups;
#[cfg(test)]
mod met_faults;
#[cfg(test)]
mod named_calls;
#[cfg(test)]
mod printed_faults;
#[cfg(test)]
mod refusals;
#[cfg(test)]
mod requests;
#[cfg(test)]
mod sinks;
#[cfg(test)]
mod sockets;
#[cfg(test)]
mod stopped_calls;
#[cfg(test)]
mod stored;
#[cfg(test)]
mod tables;
#[cfg(test)]
mod values;
#[cfg(test)]
mod worked_scenarios;
