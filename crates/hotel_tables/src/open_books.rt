//! Books over a connection that has a desk's tables, and the connection of books.
ghost use Rattle.std.specs.Prelude.{◌≡◌, false, IfOk, IfErr};
ghost use Rattle.sqlite.specs.Held.{state};
ghost use Rattle.sqlite.specs.State.{IsLive};
ghost use Rattle.hotel_model.specs.Sound.{IsSound};
ghost use Rattle.hotel_statements.specs.Books.{IsBooks, IsKept};
ghost use Rattle.hotel_statements.specs.Tables.{rows_in};
ghost use Rattle.hotel_tables.specs.Opening.{IsOpened};
ghost use Rattle.hotel_tables.specs.Exits.{LeavesDatabase};

use crate::desk_schema::layout_of;
use crate::entering::enter;
use crate::table_books::TableBooks;
use hotel_rows::OpenFault;
use sqlite::{Alter, Connection};
use std::alloc::Global;

impl<S: Alter + Drop> TableBooks<S> {
    /// Books over the tables of a desk, which are read whole and tested.
    ///
    /// What a desk lacks whose rows are sound, as a desk of the first version, is made in one transaction; its rows
    /// stay. A database with other tables is no desk's. A desk is made in memory to compare them with. On a fault the
    /// connection is given back.
    pub fn open_or_return(
        alloc: Global,
        mut conn: Connection<S>,
    ) -> Result<TableBooks<S>, (OpenFault, Connection<S>)>
        requires alone { (state S.Store conn).in_transaction ≡ false }
        ensures opened { IfOk result (λ b. IsOpened (state S.Store conn) (state S.Store b.conn)) }
        ensures unfailed { IfOk result (λ b. (b.memory ≡ 0) × (b.store ≡ 0)) }
        ensures left { IfErr result (λ e. LeavesDatabase S.Store conn e.1 e.0) }
    {
        // Outside a transaction nothing is uncommitted.
        let _settled = conn.is_autocommit();
        let layout = match layout_of(alloc, &conn) {
            Ok(layout) => layout,
            Err(why) => return Err((why, conn)),
        };
        match enter(alloc, &mut conn, layout) {
            Ok(counts) => Ok(TableBooks {
                alloc,
                conn,
                kinds: counts.kinds,
                nights: counts.nights,
                answers: false,
                memory: 0,
                store: 0,
            }),
            Err(why) => Err((why, conn)),
        }
    }

    /// As `open_or_return`; on a fault the connection is dropped.
    pub fn open(alloc: Global, conn: Connection<S>) -> Result<TableBooks<S>, OpenFault>
        requires alone { (state S.Store conn).in_transaction ≡ false }
        ensures opened { IfOk result (λ b. IsOpened (state S.Store conn) (state S.Store b.conn)) }
        ensures unfailed { IfOk result (λ b. (b.memory ≡ 0) × (b.store ≡ 0)) }
        ensures left { IfErr result (λ why. (last : _) × LeavesDatabase S.Store conn last why) }
    {
        match TableBooks::open_or_return(alloc, conn) {
            Ok(books) => Ok(books),
            Err((why, _conn)) => Err(why),
        }
    }
}

impl<S: Alter> TableBooks<S> {
    /// The connection, which has the rows of the books.
    pub fn close(self) -> Connection<S>
        ensures conn { result ≡ self.conn }
        ensures books { IsBooks (state S.Store result) }
        ensures sound { IsKept (state S.Store result) → IsSound (rows_in (state S.Store result).now.trees) }
        ensures live { IsLive (state S.Store result) }
    {
        let conn = self.conn;
        // What it says of its schema is known where that is looked at.
        let _schema = conn.schema();
        conn
    }
}
