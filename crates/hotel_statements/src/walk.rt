//! One statement whose rows are handed to a sink, one at a time.
ghost use Rattle.std.specs.Prelude.{◌≡◌, List, Err};
ghost use Rattle.sqlite.specs.Held.{state};
ghost use Rattle.sqlite.specs.Query.{Query};
ghost use Rattle.sqlite.specs.Values.{bound};
ghost use Rattle.hotel_statements.specs.Books.{IsBooks};
ghost use Rattle.hotel_statements.specs.LookUps.{Asks};
ghost use Rattle.hotel_statements.specs.Walks.{SaysRows, HandsOne, WalkFails, WalksRows};

use crate::from_row::fault_of;
use crate::from_row::list_rows::RowReader;
use hotel_books::{Sink, WalkFault};
use sqlite::types::ValueRef;
use sqlite::{Alter, Connection, Row};
use std::alloc::Global;

/// Hands over what one row says.
fn hand_over<R: Drop, F: RowReader<R>, K: Sink<R>>(
    alloc: Global,
    reader: &F,
    row: &Row,
    sink: &mut K,
) -> Result<(), WalkFault>
    ensures hands { HandsOne K.Sink.after K.Sink.after_stop (F.RowReader.says reader.now row.now)
        sink.old sink.new result }
    ensures unread { result ≡ Err WalkFault.Store → ¬ F.RowReader.is_readable reader.now row.now }
{
    let value = reader.read(alloc, row)?;
    sink.take(&value)?;
    Ok(())
}

/// The most rows that a walk counts.
pub(crate) const MOST_ROWS: u64 = u64::MAX;

/// Hands over what the rows say that a statement shows, in its order, and keeps none of them.
pub(crate) fn walk<S: Alter, R: Drop, F: RowReader<R>, K: Sink<R>>(
    alloc: Global,
    conn: &mut Connection<S>,
    text: &str,
    params: &[ValueRef<'_>],
    reader: &F,
    sink: &mut K,
) -> Result<(), WalkFault>
    requires books { IsBooks (state S.Store conn.old) }
    requires asks { (q : Query) × Asks text.now q }
    ensures { (rows : List R) → SaysRows (F.RowReader.says reader.now) text.now (bound params.now)
        (state S.Store conn.old) rows
        → WalksRows (WalkFails (F.RowReader.is_readable reader.now) text.now (bound params.now))
        K.Sink.after K.Sink.after_stop rows (state S.Store conn.old) (state S.Store conn.new) sink.old sink.new result }
{
    let mut rows = match conn.query(text, params) {
        Ok(rows) => rows,
        Err(error) => return Err(WalkFault::from(fault_of(error))),
    };
    'rows: for _i in 0..MOST_ROWS {
        match rows.next() {
            Ok(Some(row)) => hand_over(alloc, reader, row, sink)?,
            Ok(None) => return Ok(()),
            Err(error) => return Err(WalkFault::from(fault_of(error))),
        }
    }
    Err(WalkFault::Store)
}
