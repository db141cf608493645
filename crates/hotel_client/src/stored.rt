//! The tables' rows as plain data, read by queries of the client's own, and the first damaged table among them.
use crate::connections::fault_of;
use crate::tables::two_entries_in_tables;
use hotel_tables::{
    OpenFault, PlainCard, PlainCode, PlainFit, PlainInside, PlainKind, PlainNote, PlainRoom,
    PlainStay, Stored, TableName, first_damaged,
};
use sqlite::{Alter, Connection, Error, Row};
use std::alloc::Global;
use std::process::Abort;
use std::test::Fail;

/// A row of a table as plain data.
trait Plain: Sized {
    fn plain(row: &Row) -> Result<Self, Error>;
}

impl Plain for PlainKind {
    fn plain(row: &Row) -> Result<PlainKind, Error> {
        Ok(PlainKind { kind: row.get(0)? })
    }
}

impl Plain for PlainRoom {
    fn plain(row: &Row) -> Result<PlainRoom, Error> {
        Ok(PlainRoom {
            room: row.get(0)?,
            kind: row.get(1)?,
            lock_place: row.get(2)?,
            codes: row.get(3)?,
            secured: row.get(4)?,
            party: row.get(5)?,
            notes: row.get(6)?,
        })
    }
}

impl Plain for PlainStay {
    fn plain(row: &Row) -> Result<PlainStay, Error> {
        Ok(PlainStay {
            party: row.get(0)?,
            guest: row.get(1)?,
            kind: row.get(2)?,
            arrive: row.get(3)?,
            depart: row.get(4)?,
            state: row.get(5)?,
            room: row.get(6)?,
        })
    }
}

impl Plain for PlainCode {
    fn plain(row: &Row) -> Result<PlainCode, Error> {
        Ok(PlainCode {
            code: row.get(0)?,
            room: row.get(1)?,
            place: row.get(2)?,
        })
    }
}

impl Plain for PlainCard {
    fn plain(row: &Row) -> Result<PlainCard, Error> {
        Ok(PlainCard {
            number: row.get(0)?,
            party: row.get(1)?,
            old_code: row.get(2)?,
            new_code: row.get(3)?,
        })
    }
}

impl Plain for PlainInside {
    fn plain(row: &Row) -> Result<PlainInside, Error> {
        Ok(PlainInside {
            room: row.get(0)?,
            card: row.get(1)?,
        })
    }
}

impl Plain for PlainNote {
    fn plain(row: &Row) -> Result<PlainNote, Error> {
        Ok(PlainNote {
            room: row.get(0)?,
            n: row.get(1)?,
            act: row.get(2)?,
            card: row.get(3)?,
            first_code: row.get(4)?,
            second_code: row.get(5)?,
            day: row.get(6)?,
            second: row.get(7)?,
        })
    }
}

impl Plain for PlainFit {
    fn plain(row: &Row) -> Result<PlainFit, Error> {
        Ok(PlainFit {
            room: row.get(0)?,
            fit: row.get(1)?,
            place: row.get(2)?,
            before: row.get(3)?,
        })
    }
}

/// The rows that a query shows.
fn rows<P: Plain + Drop, S: Alter>(
    alloc: Global,
    conn: &mut Connection<S>,
    query: &str,
) -> Result<Vec<P>, Fail> {
    let mut rows = Vec::new(alloc);
    for row in &conn.query_all(query, &[])? {
        rows.push(P::plain(row)?)?;
    }
    Ok(rows)
}

/// The tables, each in the order of its key.
fn stored<S: Alter>(alloc: Global, conn: &mut Connection<S>) -> Result<Stored, Fail> {
    Ok(Stored {
        day: conn.query_row("SELECT day FROM meta", &[])?.get(0)?,
        kind: rows(alloc, conn, "SELECT * FROM kind ORDER BY kind")?,
        room: rows(alloc, conn, "SELECT * FROM room ORDER BY room")?,
        stay: rows(alloc, conn, "SELECT * FROM stay ORDER BY party")?,
        code: rows(alloc, conn, "SELECT * FROM code ORDER BY code")?,
        card: rows(alloc, conn, "SELECT * FROM card ORDER BY number")?,
        inside: rows(alloc, conn, "SELECT * FROM inside ORDER BY room, card")?,
        note: rows(alloc, conn, "SELECT * FROM note ORDER BY room, n")?,
        fit: Some(rows(alloc, conn, "SELECT * FROM fit ORDER BY room, fit")?),
    })
}

/// Statements of which each damages the rows of scenario `two-entries`, and the table that is then damaged first.
static DAMAGES: [(&str, TableName); 6] = [
    ("UPDATE meta SET day = NULL", TableName::Meta),
    (
        "UPDATE room SET secured = 1, lock_place = 0",
        TableName::Room,
    ),
    ("UPDATE stay SET guest = ' Ann Lee'", TableName::Stay),
    ("UPDATE code SET place = 5 WHERE place = 1", TableName::Code),
    ("DELETE FROM note WHERE n = 2", TableName::Note),
    ("UPDATE fit SET before = 1", TableName::Fit),
];

/// The statement damages this table, and an opening says so.
fn is_damaged(
    rt: &(impl Abort + AllocGlobal),
    statement: &str,
    table: TableName,
) -> Result<(), Fail> {
    let mut conn = two_entries_in_tables(rt.alloc())?.books.close();
    conn.execute(statement, &[])?;
    let stored = stored(rt.alloc(), &mut conn)?;
    assert!(rt; first_damaged(rt.alloc(), &stored) == Ok(Some(table)));
    assert!(rt; fault_of(rt.alloc(), conn) == Some(OpenFault::Damaged(table)));
    Ok(())
}

#[test]
fn damaged_tables(rt: HostRuntime) -> Result<(), Fail> {
    for (statement, table) in &DAMAGES {
        is_damaged(&rt, statement, *table)?;
    }
    Ok(())
}

/// The rows of the scenario are sound; one that is changed as plain data is found too.
#[test]
fn sound_tables(rt: HostRuntime) -> Result<(), Fail> {
    let mut conn = two_entries_in_tables(rt.alloc())?.books.close();
    let mut stored = stored(rt.alloc(), &mut conn)?;
    assert!(rt; first_damaged(rt.alloc(), &stored) == Ok(None));
    for card in stored.card.as_mut_slice() {
        card.number = 2;
    }
    assert!(rt; first_damaged(rt.alloc(), &stored) == Ok(Some(TableName::Card)));
    Ok(())
}

/// A fit of a room that isn't there: the schema refuses it too, so no damaged database shows it.
#[test]
fn a_fit_without_its_room(rt: HostRuntime) -> Result<(), Fail> {
    let mut conn = two_entries_in_tables(rt.alloc())?.books.close();
    let mut stored = stored(rt.alloc(), &mut conn)?;
    let fits = stored.fit.as_mut().ok_or("no table of fits")?;
    fits.push(PlainFit {
        room: 102,
        fit: 1,
        place: 0,
        before: 0,
    })?;
    assert!(rt; first_damaged(rt.alloc(), &stored) == Ok(Some(TableName::Fit)));
    Ok(())
}
