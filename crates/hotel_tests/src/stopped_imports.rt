//! Imports that are stopped by a call of the books that fails, and the same file sent again.

use crate::causes::{CAUSES, counts, counts_of};
use hotel_audit::{ImportFault, LineAnswer, import};
use hotel_core::Books;
use hotel_lock::AuditFault;
use hotel_scenarios::sent_again::{
    CUT, LATE, REPLACED_TWICE, Sent, TWICE, TWICE_WITH_FITS, comes_again,
};
use keycard_rules::LookFault;
use std::alloc::Global;
use std::process::Abort;
use std::test::Fail;
use stopping_books::StoppingBooks;

/// More calls of the books than an import of one of these files makes.
const MOST_CALLS: u64 = 60;

/// How many lines were answered, where an import of this file ended so; and it says whether a note of these was taken.
fn lines_answered<A: Abort>(
    rt: &A,
    sent: &Sent,
    end: Result<Vec<LineAnswer>, ImportFault>,
) -> usize {
    match end {
        Ok(answers) => answers.len(),
        Err(ImportFault::File(why)) => {
            assert!(rt; why == AuditFault::Memory);
            0
        }
        Err(ImportFault::Memory { answered, taken } | ImportFault::Store { answered, taken }) => {
            assert!(rt; sent.stops_behind(answered, taken));
            answered
        }
    }
}

/// By which cause the import ended, where a call of the books failed.
fn cause_of(end: &Result<Vec<LineAnswer>, ImportFault>) -> Option<LookFault> {
    match end {
        Err(ImportFault::Memory { .. }) => Some(LookFault::Memory),
        Err(ImportFault::Store { .. }) => Some(LookFault::Store),
        _ => None,
    }
}

/// The import ended well, or by this cause; fewer calls are made than the most.
fn ended_by<A: Abort>(rt: &A, ended: Option<LookFault>, cause: LookFault, call: u64) {
    if let Some(why) = ended {
        assert!(rt; why == cause && call < MOST_CALLS);
    }
}

/// Imports the file into these books.
fn imported(
    alloc: Global,
    books: &mut impl Books,
    file: &[u8],
) -> Result<Vec<LineAnswer>, ImportFault> {
    import(alloc, books, file)
}

/// Imports the file into books of which this call fails for this cause, which they count by that cause alone: how many
/// lines were answered, where it was stopped.
fn stopped_at(
    rt: &(impl Abort + AllocGlobal),
    books: &mut StoppingBooks,
    sent: &Sent,
    cause: LookFault,
    call: u64,
) -> Option<usize> {
    let end = imported(rt.alloc(), books, sent.file);
    let ended = cause_of(&end);
    assert!(rt; counts(books) == counts_of(ended));
    ended_by(rt, ended, cause, call);
    if end.is_ok() {
        return None;
    }
    assert!(rt; ended.is_some());
    Some(lines_answered(rt, sent, end))
}

/// Imports the file into books of which this call fails, and sends it again where it was stopped.
fn stops_at_call(
    rt: &(impl Abort + AllocGlobal),
    sent: &Sent,
    cause: LookFault,
    call: u64,
) -> Result<(), Fail> {
    let books = sent.desk(rt.alloc())?.books;
    let mut books = StoppingBooks::new(books, call, cause);
    match stopped_at(rt, &mut books, sent, cause, call) {
        Some(answered) => {
            let again = comes_again(rt.alloc(), &mut books, sent, answered)?;
            assert!(rt; again);
            Ok(())
        }
        None => Ok(()),
    }
}

/// Each call of the books fails in turn, for lack of memory or by the store; the answered lines stand. Then the file is
/// sent again.
fn stops_in_turn(rt: &(impl Abort + AllocGlobal), sent: &Sent) -> Result<(), Fail> {
    for call in 1..=MOST_CALLS {
        for cause in CAUSES {
            stops_at_call(rt, sent, cause, call)?;
        }
    }
    Ok(())
}

#[test]
fn failed_calls_of_the_books(rt: HostRuntime) -> Result<(), Fail> {
    for sent in [&TWICE, &TWICE_WITH_FITS, &CUT] {
        stops_in_turn(&rt, sent)?;
    }
    Ok(())
}

/// The same of files with notes of a lock that was replaced.
#[test]
fn failed_calls_behind_a_refit(rt: HostRuntime) -> Result<(), Fail> {
    stops_in_turn(&rt, &REPLACED_TWICE)?;
    stops_in_turn(&rt, &LATE)
}
