//! Tables in memory, and in files that are in memory: made, closed, opened as they were or damaged, and no desk's.
use crate::audit_files::files_are_imported;
use crate::commands::{CODES, desk_behind, two_entries};
use crate::connections::{
    created, database_text, fault_of, files_in_memory, new_tables, opened, opened_or_left,
};
use crate::lists::lists_are_written;
use crate::look_ups::rows_are_found;
use hotel_scenarios::chains::{TWO_CODES, chain_reads, walks_end};
use hotel_scenarios::desks::Desk;
use hotel_scenarios::scenarios::{
    CHECKED_IN, LEFT_BEHIND_RECODED, NEXT_CHECKED_IN, OPENED, Step, TWO_ENTRIES,
};
use hotel_tables::{OpenFault, TableBooks, TableName};
use sqlite::{Alter, Connection, MemStore};
use std::alloc::Global;
use std::process::Abort;
use std::test::Fail;

/// The parts of scenario `two-entries` before its list.
const TWO_ENTRIES_MADE: &[&[Step]] = &[OPENED, CHECKED_IN, TWO_ENTRIES];

/// Moves a code of scenario `two-entries` to a place that isn't the next.
const CODE_MOVED: &str = "UPDATE code SET place = 5 WHERE place = 1";

/// A desk over tables behind these parts.
pub(crate) fn tables_behind(
    alloc: Global,
    parts: &[&[Step]],
) -> Result<TableBooks<MemStore>, Fail> {
    let mut desk = Desk::over(alloc, new_tables(alloc)?, CODES)?;
    desk.goes_through(parts)?;
    Ok(desk.books)
}

/// A new desk over a database that has nothing, behind the commands of scenario `two-entries`.
fn two_entries_on<S: Alter + Drop>(
    alloc: Global,
    conn: Connection<S>,
) -> Result<Desk<TableBooks<S>>, Fail> {
    let commands = two_entries(alloc)?;
    desk_behind(alloc, created(alloc, conn)?, commands.as_slice())
}

/// The same over tables in memory.
pub(crate) fn two_entries_in_tables(alloc: Global) -> Result<Desk<TableBooks<MemStore>>, Fail> {
    two_entries_on(alloc, Connection::open_in_memory(alloc)?)
}

/// The rows of scenario `two-entries` are found, and again once the books were closed and opened.
fn rows_are_kept<S: Alter + Drop>(
    rt: &(impl Abort + AllocGlobal),
    conn: Connection<S>,
) -> Result<(), Fail> {
    let mut desk = two_entries_on(rt.alloc(), conn)?;
    rows_are_found(rt, &mut desk.books)?;
    let mut books = opened(rt.alloc(), desk.books.close())?;
    rows_are_found(rt, &mut books)
}

#[test]
fn rows_in_tables(rt: HostRuntime) -> Result<(), Fail> {
    rows_are_kept(&rt, Connection::open_in_memory(rt.alloc())?)
}

#[test]
fn rows_in_files(rt: HostRuntime) -> Result<(), Fail> {
    rows_are_kept(&rt, files_in_memory(rt.alloc())?)
}

#[test]
fn lists_of_tables(rt: HostRuntime) -> Result<(), Fail> {
    let mut desk = two_entries_in_tables(rt.alloc())?;
    lists_are_written(&rt, &mut desk.books)
}

#[test]
fn files_into_tables(rt: HostRuntime) -> Result<(), Fail> {
    files_are_imported(&rt, new_tables(rt.alloc())?)
}

#[test]
fn no_desks(rt: HostRuntime) -> Result<(), Fail> {
    let bare = Connection::open_in_memory(rt.alloc())?;
    assert!(rt; fault_of(rt.alloc(), bare) == Some(OpenFault::NotADesk));
    let desk = two_entries_in_tables(rt.alloc())?;
    is_made_once(&rt, desk.books.close());
    Ok(())
}

/// A desk of which a statement moved a code.
#[test]
fn a_damaged_desk(rt: HostRuntime) -> Result<(), Fail> {
    let mut conn = two_entries_in_tables(rt.alloc())?.books.close();
    conn.execute(CODE_MOVED, &[])?;
    let fault = fault_of(rt.alloc(), conn);
    assert!(rt; matches!(fault, Some(OpenFault::Damaged(TableName::Code))));
    Ok(())
}

/// An opening of the database is refused so, and leaves it as it is.
fn is_refused<R: Abort + AllocGlobal>(
    rt: &R,
    mut conn: Connection<MemStore>,
    fault: OpenFault,
) -> Result<(), Fail> {
    let before = database_text(rt.alloc(), &mut conn)?;
    match opened_or_left(rt.alloc(), conn) {
        Ok(_) => Err(Fail::from("it is opened")),
        Err((why, mut conn)) => {
            assert!(rt; why == fault);
            assert!(rt; database_text(rt.alloc(), &mut conn)? == before);
            assert!(rt; fault_of(rt.alloc(), conn) == Some(fault));
            Ok(())
        }
    }
}

/// The closed desk is damaged by this statement, and an opening names the table.
fn is_damaged<R: Abort + AllocGlobal>(
    rt: &R,
    mut conn: Connection<MemStore>,
    statement: &str,
    table: TableName,
) -> Result<(), Fail> {
    let changed = conn.execute(statement, &[])?;
    assert!(rt; changed > 0);
    is_refused(rt, conn, OpenFault::Damaged(table))
}

/// Over tables too a walk ends where its sink stops, and the next one is whole.
#[test]
fn a_walk_of_tables_ends_where_its_sink_stops(rt: HostRuntime) -> Result<(), Fail> {
    let parts = [OPENED, CHECKED_IN, NEXT_CHECKED_IN, LEFT_BEHIND_RECODED];
    let mut books = tables_behind(rt.alloc(), &parts)?;
    assert!(rt; walks_end(rt.alloc(), &mut books)?);
    Ok(())
}

/// The connection of books that are closed, opened and closed again: it has the tables and rows that it had.
fn keeps_rows<S: Alter + Drop, R: Abort + AllocGlobal>(
    rt: &R,
    books: TableBooks<S>,
) -> Result<Connection<S>, Fail> {
    let mut conn = books.close();
    let before = database_text(rt.alloc(), &mut conn)?;
    let mut conn = opened(rt.alloc(), conn)?.close();
    assert!(rt; database_text(rt.alloc(), &mut conn)? == before);
    Ok(conn)
}

/// The books are closed and opened again: their rows are as they were, and so is the list of the room's codes.
fn opens_again<R: Abort + AllocGlobal>(
    rt: &R,
    books: TableBooks<MemStore>,
) -> Result<TableBooks<MemStore>, Fail> {
    let mut books = opened(rt.alloc(), keeps_rows(rt, books)?)?;
    assert!(rt; chain_reads(rt.alloc(), &mut books, TWO_CODES)?);
    Ok(books)
}

/// No desk is made where one is.
fn is_made_once<R: Abort + AllocGlobal>(rt: &R, conn: Connection<MemStore>) {
    let again = created(rt.alloc(), conn).err();
    assert!(rt; again == Some(OpenFault::NotADesk));
}

#[test]
fn reopened_tables(rt: HostRuntime) -> Result<(), Fail> {
    let books = opens_again(&rt, tables_behind(rt.alloc(), TWO_ENTRIES_MADE)?)?;
    is_damaged(&rt, books.close(), CODE_MOVED, TableName::Code)?;
    is_made_once(&rt, tables_behind(rt.alloc(), &[OPENED])?.close());
    let bare = Connection::open_in_memory(rt.alloc())?;
    assert!(rt; fault_of(rt.alloc(), bare) == Some(OpenFault::NotADesk));
    Ok(())
}
