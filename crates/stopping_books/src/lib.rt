//! Books in memory of which one call fails, for tests: a `Books` of a caller's own, written by public names alone.
#![tactic(auto)]

mod calls;
mod stopping_books;
mod stopping_walks;

pub use stopping_books::StoppingBooks;
