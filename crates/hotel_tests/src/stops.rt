//! Books of which a call fails: which one it is, how it is counted, and where a walk then ends.

use crate::causes::{CAUSES, counts, counts_of};
use hotel_core::{Books, ChainRow, ListBooks, Sink, Stop, WalkFault, Walks};
use hotel_nights::{Day, KindCode};
use hotel_scenarios::desks::{Desk, room};
use hotel_scenarios::scenarios::{CHECKED_IN, OPENED, TWO_ENTRIES};
use keycard_rules::{FitNo, LookFault, RoomNo};
use std::process::Abort;
use std::test::Fail;
use stopping_books::StoppingBooks;

/// Takes rows and counts them.
#[derive(Drop)]
struct Counted {
    rows: u32,
}

impl Sink<ChainRow> for Counted {
    ghost after = { λ _ _ _. Unit {0} };

    ghost after_stop = { λ _ _ _. Unit {0} };

    fn take(&mut self, _row: &ChainRow) -> Result<(), Stop> {
        self.rows = self.rows.saturating_add(1);
        Ok(())
    }
}

/// The day that these books tell.
fn day_of(books: &mut impl Books) -> Result<Option<Day>, LookFault> {
    books.day()
}

/// The second call fails, and no other one.
fn second_fails<A: Abort>(rt: &A, books: &mut StoppingBooks, cause: LookFault) {
    assert!(rt; day_of(books) == Ok(None));
    assert!(rt; day_of(books) == Err(cause));
    assert!(rt; day_of(books) == Ok(None));
    assert!(rt; books.calls() == 3);
    assert!(rt; counts(books) == counts_of(Some(cause)));
}

#[test]
fn one_call_fails(rt: HostRuntime) {
    for cause in CAUSES {
        let mut books = StoppingBooks::new(ListBooks::empty(rt.alloc()), 2, cause);
        second_fails(&rt, &mut books, cause);
    }
}

/// The look-ups that no command makes.
#[derive(Clone, Copy)]
enum LookUp {
    StaysOfKind,
    Inside,
    Fit,
    RoomsOfKind,
}

static LOOK_UPS: [LookUp; 4] = [
    LookUp::StaysOfKind,
    LookUp::Inside,
    LookUp::Fit,
    LookUp::RoomsOfKind,
];

impl LookUp {
    /// How many stays or rooms of this kind there are, or cards inside this room, or locks of it with this number.
    fn count(
        &self,
        books: &mut impl Books,
        kind: &KindCode,
        room: RoomNo,
        fit: FitNo,
    ) -> Result<usize, LookFault> {
        match self {
            LookUp::StaysOfKind => Ok(books.stays_of_kind(kind)?.len()),
            LookUp::Inside => Ok(books.inside(room)?.len()),
            LookUp::Fit => Ok(usize::from(books.fit(room, fit)?.is_some())),
            LookUp::RoomsOfKind => Ok(books.rooms_of_kind(kind)? as usize),
        }
    }
}

/// The look-up fails, and then it finds one.
fn look_up_fails(
    rt: &(impl Abort + AllocGlobal),
    look_up: LookUp,
    cause: LookFault,
) -> Result<(), Fail> {
    let kind = KindCode::read(b"DBL").ok_or("a kind")?;
    let fit = FitNo::new(1).ok_or("a fit")?;
    let room = room(101)?;
    let desk = Desk::behind(
        rt.alloc(),
        &[0xa0, 0xa1],
        &[OPENED, CHECKED_IN, TWO_ENTRIES],
    )?;
    let mut books = StoppingBooks::new(desk.books, 1, cause);
    assert!(rt; look_up.count(&mut books, &kind, room, fit) == Err(cause));
    assert!(rt; look_up.count(&mut books, &kind, room, fit) == Ok(1));
    assert!(rt; books.calls() == 2);
    assert!(rt; counts(&books) == counts_of(Some(cause)));
    Ok(())
}

#[test]
fn look_ups_of_no_command_fail(rt: HostRuntime) -> Result<(), Fail> {
    for look_up in LOOK_UPS {
        for cause in CAUSES {
            look_up_fails(&rt, look_up, cause)?;
        }
    }
    Ok(())
}

/// How a walk over the codes of the room ends, and after how many rows.
fn walk_of(books: &mut impl Walks) -> Result<(Result<(), WalkFault>, u32), Fail> {
    let room = room(101)?;
    let mut counted = Counted { rows: 0 };
    let ended = books.walk_chain(room, &mut counted);
    Ok((ended, counted.rows))
}

/// A walk over the two codes of the room ends so, after so many rows.
fn walk_ends<A: Abort>(
    rt: &A,
    books: &mut StoppingBooks,
    end: Result<(), WalkFault>,
    rows: u32,
) -> Result<(), Fail> {
    let (ended, counted) = walk_of(books)?;
    assert!(rt; ended == end);
    assert!(rt; counted == rows);
    let failed = end.err().map(|_| LookFault::Store);
    assert!(rt; counts(books) == counts_of(failed));
    Ok(())
}

/// A walk over the two codes of the room, of which this call fails: so it ends, after so many rows.
fn walks(
    rt: &(impl Abort + AllocGlobal),
    failing: u64,
    end: Result<(), WalkFault>,
    rows: u32,
) -> Result<(), Fail> {
    let books = Desk::of_one_guest(rt.alloc())?.books;
    let mut books = StoppingBooks::new(books, failing, LookFault::Store);
    walk_ends(rt, &mut books, end, rows)
}

/// The walk fails before its first row, after it, after the last one, or not at all.
#[test]
fn walks_fail(rt: HostRuntime) -> Result<(), Fail> {
    walks(&rt, 1, Err(WalkFault::Store), 0)?;
    walks(&rt, 2, Err(WalkFault::Store), 1)?;
    walks(&rt, 3, Err(WalkFault::Store), 2)?;
    walks(&rt, 4, Ok(()), 2)
}
