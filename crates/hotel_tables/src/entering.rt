//! The tables of a desk are read whole and tested, and what it lacks is made.
ghost use Rattle.std.specs.Prelude.{◌≡◌};
ghost use Rattle.sqlite.specs.Held.{state};
ghost use Rattle.hotel_statements.specs.Schema.{schema_of, version_of};
ghost use Rattle.hotel_statements.specs.WholeTables.{IsOurs};
ghost use Rattle.hotel_tables.specs.Opening.{Enters};
ghost use Rattle.hotel_tables.specs.Exits.{CallFails};

use crate::migration::migrate;
use crate::opening::{find_counts, open_fault};
use hotel_rows::{Counts, OpenFault};
use hotel_statements::{Layout, fault_of};
use sqlite::{Alter, Connection};
use std::alloc::Global;

/// Reads the tables of a desk that is laid out so, and makes what it lacks.
///
/// Its rows are tested before anything is written: tables that are damaged stay as they are.
pub(crate) fn enter<S: Alter>(
    alloc: Global,
    conn: &mut Connection<S>,
    layout: Layout,
) -> Result<Counts, OpenFault>
    requires ours { IsOurs (version_of layout) (state S.Store conn.old) }
    requires has { (state S.Store conn.old).now.schema ≡ schema_of layout }
    ensures { Enters (CallFails S.Store conn.old conn.new) (state S.Store conn.old) (state S.Store conn.new) result }
{
    let found = match find_counts(alloc, conn, layout.version()) {
        Ok(found) => found,
        Err(why) => return Err(why),
    };
    if layout.is_whole() {
        return Ok(found.counts);
    }
    match migrate(conn, layout, &found.rooms) {
        Ok(()) => Ok(found.counts),
        Err(error) => Err(open_fault(fault_of(error))),
    }
}
