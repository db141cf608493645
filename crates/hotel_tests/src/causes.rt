//! The two causes of a failed call of the books: what is counted of each, and what it is answered as.
use hotel_scenarios::desks::Desk;
use keycard_rules::LookFault;
use stopping_books::StoppingBooks;

pub(crate) static CAUSES: [LookFault; 2] = [LookFault::Memory, LookFault::Store];

/// The desk over its books, of which the call of this number fails for this cause; none does where it is 0.
pub(crate) fn stopping(desk: Desk, call: u64, cause: LookFault) -> Desk<StoppingBooks> {
    Desk {
        alloc: desk.alloc,
        books: StoppingBooks::new(desk.books, call, cause),
        source: desk.source,
    }
}

/// Which failures were counted: of memory, of the store.
pub(crate) fn counts(books: &StoppingBooks) -> (u64, u64) {
    (
        books.failures(LookFault::Memory),
        books.failures(LookFault::Store),
    )
}

/// Which are counted where one call failed for this cause, or none did.
pub(crate) fn counts_of(failed: Option<LookFault>) -> (u64, u64) {
    match failed {
        None => (0, 0),
        Some(LookFault::Memory) => (1, 0),
        Some(LookFault::Store) => (0, 1),
    }
}

/// The refusal that a command or a list has where a call failed for this cause.
pub(crate) fn refusal_of(cause: LookFault) -> &'static [u8] {
    match cause {
        LookFault::Memory => b"refused 29 Memory\n",
        LookFault::Store => b"refused 30 Store\n",
    }
}
