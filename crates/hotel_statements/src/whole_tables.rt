//! The tables, read whole.
ghost use Rattle.std.specs.Prelude.{◌≡◌, ◌≢◌, ◌⊎◌, ◌++◌, [], ◌∷◌, map, IfErr, OnOk};
ghost use Rattle.std.specs.List.{list_all};
ghost use Rattle.sqlite.specs.Held.{state};
ghost use Rattle.hotel_statements.specs.WholeTables.{IsOurs, IsWhole, ReadsPart, ReadsTo, MayRead};
ghost use Rattle.hotel_statements.specs.WholeTables.{AreFirst, AreLast, AreFitRows, AreTablesRead};
ghost use Rattle.hotel_statements.specs.WholeTables.{BeginsAs, TableFails};
ghost use Rattle.hotel_statements.specs.WholeTables.{FirstFail, LastFail, FitRowsFail};
ghost use Rattle.hotel_statements.specs.PlainRows.{AreRowsInOrder};

use crate::from_row::fault_of;
use crate::plain_rows::{NumberedInside, Plain, PlainMeta, PlainRow};
use crate::version::Version;
use crate::walk::MOST_ROWS;
use hotel_rows::{PlainCard, PlainCode, PlainFit, PlainKind, PlainNote, PlainRoom, PlainStay};
use keycard_rules::LookFault;
use sqlite::{Alter, Connection, Row};
use std::alloc::Global;

/// Adds a row that was shown, as plain data.
fn add_plain<L: PlainRow + Drop>(plain_rows: &mut Vec<L>, row: &Row) -> Result<(), LookFault>
    ensures adds { OnOk result (map L.PlainRow.shown plain_rows.new.items
        ≡ map L.PlainRow.shown plain_rows.old.items ++ L.PlainRow.cut row.now ∷ []) }
    ensures unread { IfErr result (λ fault. fault ≢ LookFault.Memory → ¬ BeginsAs L.PlainRow.shown row.now) }
{
    let plain = match L::of_row(row) {
        Ok(plain) => plain,
        Err(error) => return Err(fault_of(error)),
    };
    if plain_rows.push(plain).is_err() {
        return Err(LookFault::Memory);
    }
    Ok(())
}

/// The rows of a table, in the order of its key, of which few are read ahead.
fn read_table<S: Alter, L: PlainRow + Drop>(
    alloc: Global,
    conn: &mut Connection<S>,
    version: Version,
) -> Result<Vec<L>, LookFault>
    requires ours { IsOurs version (state S.Store conn.old) }
    requires whole { IsWhole version L.PlainRow.statement L.PlainRow.tree L.PlainRow.columns L.PlainRow.cut
        L.PlainRow.shown L.PlainRow.order }
    ensures { ReadsPart version (TableFails L.PlainRow.statement L.PlainRow.shown)
        (λ plain_rows db. AreRowsInOrder L.PlainRow.columns L.PlainRow.shown L.PlainRow.order plain_rows.items
        (db L.PlainRow.tree))
        (state S.Store conn.old) (state S.Store conn.new) result }
{
    let mut plain_rows = Vec::new(alloc);
    let mut rows = match conn.query(L::statement(), &[]) {
        Ok(rows) => rows,
        Err(error) => return Err(fault_of(error)),
    };
    'rows: for _i in 0..MOST_ROWS {
        match rows.next() {
            Ok(Some(row)) => add_plain(&mut plain_rows, row)?,
            Ok(None) => return Ok(plain_rows),
            Err(error) => return Err(fault_of(error)),
        }
    }
    // No memory holds so many rows.
    Err(LookFault::Memory)
}

/// The rows of two tables.
fn read_two<S: Alter, A: PlainRow + Drop, B: PlainRow + Drop>(
    alloc: Global,
    conn: &mut Connection<S>,
    version: Version,
) -> Result<(Vec<A>, Vec<B>), LookFault>
    requires ours { IsOurs version (state S.Store conn.old) }
    requires first { IsWhole version A.PlainRow.statement A.PlainRow.tree A.PlainRow.columns A.PlainRow.cut
        A.PlainRow.shown A.PlainRow.order }
    requires second { IsWhole version B.PlainRow.statement B.PlainRow.tree B.PlainRow.columns B.PlainRow.cut
        B.PlainRow.shown B.PlainRow.order }
    ensures { ReadsPart version
        (λ old new. TableFails A.PlainRow.statement A.PlainRow.shown old new
        ⊎ TableFails B.PlainRow.statement B.PlainRow.shown old new)
        (λ two db.
        AreRowsInOrder A.PlainRow.columns A.PlainRow.shown A.PlainRow.order two.0.items (db A.PlainRow.tree)
        × AreRowsInOrder B.PlainRow.columns B.PlainRow.shown B.PlainRow.order two.1.items (db B.PlainRow.tree))
        (state S.Store conn.old) (state S.Store conn.new) result }
{
    let first = read_table(alloc, conn, version)?;
    let second = read_table(alloc, conn, version)?;
    Ok((first, second))
}

/// Whether no number of any row is below 0.
pub fn all_natural<L: Plain>(plain_rows: &[L]) -> bool
    ensures { result ≡ list_all L.Plain.natural plain_rows.now }
{
    for i in 0..plain_rows.len() {
        if !plain_rows[i].is_natural() {
            return false;
        }
    }
    true
}

/// The rows of the tables; those inside with their numbers.
#[derive(Drop)]
pub struct WholeTables {
    pub meta: Vec<PlainMeta>,
    pub kinds: Vec<PlainKind>,
    pub rooms: Vec<PlainRoom>,
    pub stays: Vec<PlainStay>,
    pub codes: Vec<PlainCode>,
    pub cards: Vec<PlainCard>,
    pub inside: Vec<NumberedInside>,
    pub notes: Vec<PlainNote>,
    /// None in the first version.
    pub fits: Option<Vec<PlainFit>>,
}

/// The rows of meta, kinds, rooms and stays.
fn read_first<S: Alter>(
    alloc: Global,
    conn: &mut Connection<S>,
    version: Version,
) -> Result<
    (
        (Vec<PlainMeta>, Vec<PlainKind>),
        (Vec<PlainRoom>, Vec<PlainStay>),
    ),
    LookFault,
>
    requires { IsOurs version (state S.Store conn.old) }
    ensures { ReadsPart version FirstFail AreFirst (state S.Store conn.old) (state S.Store conn.new) result }
{
    let first = read_two(alloc, conn, version)?;
    let second = read_two(alloc, conn, version)?;
    Ok((first, second))
}

/// The rows of codes, cards, those inside and notes.
fn read_last<S: Alter>(
    alloc: Global,
    conn: &mut Connection<S>,
    version: Version,
) -> Result<
    (
        (Vec<PlainCode>, Vec<PlainCard>),
        (Vec<NumberedInside>, Vec<PlainNote>),
    ),
    LookFault,
>
    requires { IsOurs version (state S.Store conn.old) }
    ensures { ReadsPart version LastFail AreLast (state S.Store conn.old) (state S.Store conn.new) result }
{
    let first = read_two(alloc, conn, version)?;
    let second = read_two(alloc, conn, version)?;
    Ok((first, second))
}

/// The rows of the fits, of which the first version has no table.
fn read_fits<S: Alter>(
    alloc: Global,
    conn: &mut Connection<S>,
    version: Version,
) -> Result<Option<Vec<PlainFit>>, LookFault>
    requires { IsOurs version (state S.Store conn.old) }
    ensures { MayRead version (FitRowsFail version) (AreFitRows version)
        (state S.Store conn.old) (state S.Store conn.new) result }
{
    match version {
        Version::First => Ok(None),
        Version::Second => {
            let fits = read_table(alloc, conn, Version::Second)?;
            Ok(Some(fits))
        }
    }
}

/// The rows of all tables of a version.
pub fn read_tables<S: Alter>(
    alloc: Global,
    conn: &mut Connection<S>,
    version: Version,
) -> Result<WholeTables, LookFault>
    requires { IsOurs version (state S.Store conn.old) }
    ensures { ReadsTo version (AreTablesRead version) (state S.Store conn.old) (state S.Store conn.new) result }
{
    let first = read_first(alloc, conn, version)?;
    let last = read_last(alloc, conn, version)?;
    let fits = read_fits(alloc, conn, version)?;
    let ((meta, kinds), (rooms, stays)) = first;
    let ((codes, cards), (inside, notes)) = last;
    Ok(WholeTables {
        meta,
        kinds,
        rooms,
        stays,
        codes,
        cards,
        inside,
        notes,
        fits,
    })
}
