//! Walks into a sink of the client's own, which takes some rows and stops.
use crate::books_in_memory::two_entries_in_memory;
use crate::faults::of_walk;
use crate::tables::two_entries_in_tables;
use crate::values::{code, entered, room};
use hotel_core::{ChainRow, CodeState, Sink, Stop, Walks};
use keycard_rules::LockNote;
use std::alloc::Global;
use std::process::Abort;
use std::test::Fail;

/// The first rows of a walk, of which so many are taken.
#[derive(Drop)]
struct FirstRows<R> {
    rows: Vec<R>,
    most: usize,
}

impl<R> FirstRows<R> {
    fn new(alloc: Global, most: usize) -> FirstRows<R> {
        FirstRows {
            rows: Vec::new(alloc),
            most,
        }
    }
}

impl<R: Copy> Sink<R> for FirstRows<R> {
    ghost after = { λ _ _ _. Unit {0} };

    ghost after_stop = { λ _ _ _. Unit {0} };

    fn take(&mut self, row: &R) -> Result<(), Stop> {
        if self.rows.len() >= self.most || self.rows.push(*row).is_err() {
            return Err(Stop);
        }
        Ok(())
    }
}

/// A walk over the room's two codes takes the first, and stops.
fn walk_is_stopped<B: Walks>(rt: &(impl Abort + AllocGlobal), books: &mut B) -> Result<(), Fail> {
    let mut sink: FirstRows<ChainRow> = FirstRows::new(rt.alloc(), 1);
    let fault = books.walk_chain(room(101)?, &mut sink).err();
    assert!(rt; fault.map(of_walk) == Some("stopped"));
    let first = ChainRow {
        place: 0,
        code: code(0xa0)?,
        state: CodeState::Passed,
    };
    assert!(rt; sink.rows.as_slice() == [first].as_slice());
    Ok(())
}

/// A walk over the room's two notes takes both.
fn walk_is_whole<B: Walks>(rt: &(impl Abort + AllocGlobal), books: &mut B) -> Result<(), Fail> {
    let mut sink: FirstRows<LockNote> = FirstRows::new(rt.alloc(), 2);
    assert!(rt; books.walk_audit(room(101)?, &mut sink) == Ok(()));
    assert!(rt; sink.rows.as_slice() == [entered(1)?, entered(2)?].as_slice());
    Ok(())
}

#[test]
fn walks_of_memory(rt: HostRuntime) -> Result<(), Fail> {
    let mut desk = two_entries_in_memory(rt.alloc())?;
    walk_is_stopped(&rt, &mut desk.books)?;
    walk_is_whole(&rt, &mut desk.books)
}

#[test]
fn walks_of_tables(rt: HostRuntime) -> Result<(), Fail> {
    let mut desk = two_entries_in_tables(rt.alloc())?;
    walk_is_stopped(&rt, &mut desk.books)?;
    walk_is_whole(&rt, &mut desk.books)
}
