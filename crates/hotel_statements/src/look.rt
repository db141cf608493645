//! One keyed statement, and the row that it finds.
ghost use Rattle.std.specs.Prelude.{◌≡◌, ◌≢◌, IfOk, IfErr, All, map};
ghost use Rattle.sqlite.specs.Held.{state};
ghost use Rattle.sqlite.specs.Query.{Query};
ghost use Rattle.sqlite.specs.Values.{bound};
ghost use Rattle.hotel_statements.specs.Books.{IsBooks};
ghost use Rattle.hotel_statements.specs.LookUps.{Asks, FindsFirst, FindsAll, FailsAt, LooksFor};

use crate::from_row::{FromRow, fault_of};
use keycard_rules::LookFault;
use sqlite::types::ValueRef;
use sqlite::{Alter, Connection, Error, Row};
use std::alloc::Global;

/// What the first row says that a statement shows, or none where it shows none.
pub(crate) fn look<S: Alter, R: FromRow>(
    alloc: Global,
    conn: &mut Connection<S>,
    text: &str,
    params: &[ValueRef<'_>],
) -> Result<Option<R>, LookFault>
    requires books { IsBooks (state S.Store conn.old) }
    requires asks { (q : Query) × Asks text.now q }
    ensures { LooksFor (FailsAt R.FromRow.is_readable text.now (bound params.now))
        (FindsFirst R.FromRow.of text.now (bound params.now) (state S.Store conn.old) result)
        (state S.Store conn.old) (state S.Store conn.new) result }
{
    match conn.query_row(text, params) {
        Ok(row) => Ok(Some(R::from_row(alloc, &row)?)),
        Err(Error::QueryReturnedNoRows) => Ok(None),
        Err(error) => Err(fault_of(error)),
    }
}

/// What each row says.
fn read_all<R: FromRow + Drop>(alloc: Global, rows: &[Row]) -> Result<Vec<R>, LookFault>
    ensures reads { IfOk result (λ all. all.items ≡ map R.FromRow.of rows.now) }
    ensures unread { IfErr result (λ fault. fault ≢ LookFault.Memory → ¬ All R.FromRow.is_readable rows.now) }
{
    let mut all = Vec::new(alloc);
    'rows: for i in 0..rows.len() {
        let value = R::from_row(alloc, &rows[i])?;
        if all.push(value).is_err() {
            return Err(LookFault::Memory);
        }
    }
    Ok(all)
}

/// What all rows say that a statement shows, in its order.
pub(crate) fn look_all<S: Alter, R: FromRow + Drop>(
    alloc: Global,
    conn: &mut Connection<S>,
    text: &str,
    params: &[ValueRef<'_>],
) -> Result<Vec<R>, LookFault>
    requires books { IsBooks (state S.Store conn.old) }
    requires asks { (q : Query) × Asks text.now q }
    ensures { LooksFor (FailsAt R.FromRow.is_readable text.now (bound params.now))
        (FindsAll (λ all. all.items) R.FromRow.of text.now (bound params.now) (state S.Store conn.old) result)
        (state S.Store conn.old) (state S.Store conn.new) result }
{
    match conn.query_all(text, params) {
        Ok(rows) => read_all(alloc, &rows),
        Err(error) => Err(fault_of(error)),
    }
}
