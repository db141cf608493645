//! A new desk: nine tables, three indexes and the one row of meta, in one transaction.
ghost use Rattle.std.specs.Prelude.{◌≡◌, ◌↔◌, IsTrue, OnOk, OnErr, IfOk, IfErr, Err, false};
ghost use Rattle.sqlite.specs.Held.{state};
ghost use Rattle.sqlite.specs.State.{HasCleanDisk, Survives};
ghost use Rattle.hotel_statements.specs.Schema.{no_schema};
ghost use Rattle.hotel_statements.specs.Books.{IsKept, IsBooks};
ghost use Rattle.hotel_statements.specs.NewDesk.{IfOpen, IsBare, IsMade, IsEmptyDesk};
ghost use Rattle.hotel_statements.specs.Statements.{MakesBy};
ghost use Rattle.hotel_rows.specs.declared.open_fault.OpenFault.TheVariants.{NotADesk};
ghost use Rattle.hotel_tables.specs.Causes.{FailsToWrite};
ghost use Rattle.hotel_tables.specs.Exits.{makes_desk, LeavesBare};
ghost use Rattle.hotel_tables.specs.Opening.{IsCreated};

use crate::opening::open_fault;
use crate::table_books::TableBooks;
use hotel_books::{KindRooms, NightIndex};
use hotel_rows::OpenFault;
use hotel_statements::fault_of;
use hotel_statements::new_desk::{enter_meta, make_first, make_last};
use sqlite::{Alter, Connection, Error, Transaction};
use std::alloc::Global;

/// Runs the statements that make a desk, within a transaction.
fn write_desk<S: Alter>(tx: &mut Transaction<'_, S>) -> Result<(), Error>
    ensures same_reference { tx.new.conn.ghost_name ≡ tx.old.conn.ghost_name }
    ensures makes { MakesBy S.Store makes_desk (IfOpen (IsBare no_schema) IsMade)
        tx.old.conn.now tx.new.conn.now result }
{
    make_first(tx)?;
    make_last(tx)?;
    enter_meta(tx)
}

/// Makes an empty desk of a database that has nothing, or leaves it so.
pub(crate) fn make_desk<S: Alter>(conn: &mut Connection<S>) -> Result<(), Error>
    requires alone { (state S.Store conn.old).in_transaction ≡ false }
    requires bare { IsTrue (state S.Store conn.old).is_open → (state S.Store conn.old).now.schema ≡ no_schema }
    ensures books { OnOk result (IsBooks (state S.Store conn.new)) }
    ensures made { IsKept (state S.Store conn.new) → OnOk result (IsEmptyDesk (state S.Store conn.new).now.trees) }
    ensures was { IsKept (state S.Store conn.new) → IsKept (state S.Store conn.old) }
    ensures open_on { HasCleanDisk (state S.Store conn.new) → OnOk result (IsTrue (state S.Store conn.new).is_open) }
    ensures crash { Survives (state S.Store conn.old) (state S.Store conn.new) IsEmptyDesk }
    ensures outside { conn.new.in_transaction ≡ false }
    ensures same { IsKept (state S.Store conn.new) → OnErr result
        ((state S.Store conn.new).now ≡ (state S.Store conn.old).now) }
    ensures failed { IfErr result (FailsToWrite S.Store makes_desk conn.old conn.new) }
{
    // Outside a transaction nothing is uncommitted.
    let _settled = conn.is_autocommit();
    let mut tx = conn.transaction();
    write_desk(&mut tx)?;
    tx.commit()
}

/// Whether the database has no tables, indexes or views: its file is missing or empty, or the making of a desk was cut
/// short.
fn is_bare<S: Alter>(conn: &Connection<S>) -> bool
    ensures { IsTrue result ↔ ((state S.Store conn.now).now.schema ≡ no_schema) }
{
    let schema = conn.schema();
    schema.tables.len() == 0 && schema.indexes.len() == 0 && schema.views.len() == 0
}

impl<S: Alter + Drop> TableBooks<S> {
    /// Makes an empty desk of a database that has nothing, in one transaction.
    ///
    /// On a fault the connection is given back.
    pub fn create_or_return(
        alloc: Global,
        mut conn: Connection<S>,
    ) -> Result<TableBooks<S>, (OpenFault, Connection<S>)>
        requires { (state S.Store conn).in_transaction ≡ false }
        ensures created { IfOk result (λ b. IsCreated (state S.Store conn) (state S.Store b.conn)) }
        ensures unfailed { IfOk result (λ b. (b.memory ≡ 0) × (b.store ≡ 0)) }
        ensures left { (state S.Store conn).now.schema ≡ no_schema
            → IfErr result (λ e. LeavesBare S.Store conn e.1 e.0) }
        ensures taken { ¬ ((state S.Store conn).now.schema ≡ no_schema) → result ≡ Err (NotADesk, conn) }
    {
        if !is_bare(&conn) {
            return Err((OpenFault::NotADesk, conn));
        }
        if let Err(error) = make_desk(&mut conn) {
            return Err((open_fault(fault_of(error)), conn));
        }
        Ok(TableBooks {
            alloc,
            conn,
            kinds: KindRooms::empty(alloc),
            nights: NightIndex::empty(alloc),
            answers: false,
            memory: 0,
            store: 0,
        })
    }

    /// As `create_or_return`; on a fault the connection is dropped.
    pub fn create(alloc: Global, conn: Connection<S>) -> Result<TableBooks<S>, OpenFault>
        requires { (state S.Store conn).in_transaction ≡ false }
        ensures created { IfOk result (λ b. IsCreated (state S.Store conn) (state S.Store b.conn)) }
        ensures unfailed { IfOk result (λ b. (b.memory ≡ 0) × (b.store ≡ 0)) }
        ensures left { (state S.Store conn).now.schema ≡ no_schema
            → IfErr result (λ why. (last : _) × LeavesBare S.Store conn last why) }
        ensures taken { ¬ ((state S.Store conn).now.schema ≡ no_schema) → result ≡ Err NotADesk }
    {
        match TableBooks::create_or_return(alloc, conn) {
            Ok(books) => Ok(books),
            Err((why, _conn)) => Err(why),
        }
    }
}
