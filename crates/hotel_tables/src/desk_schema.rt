//! Whether a database has the tables of a desk, of which version, and how many of our indexes.
ghost use Rattle.std.specs.Prelude.{◌≡◌, ℕ, true, None, IfOk, IfErr, IfSome};
ghost use Rattle.sqlite.specs.Held.{state};
ghost use Rattle.sqlite.specs.Steps.{over_memory};
ghost use Rattle.hotel_statements.specs.Schema.{first_schema, desk_schema, with_indexes, schema_of};
ghost use Rattle.hotel_rows.specs.declared.open_fault.OpenFault.TheVariants as fault;
ghost use Rattle.hotel_tables.specs.Opening.{IsLaidOut, IsNoDesk};

use crate::create::make_desk;
use hotel_rows::OpenFault;
use hotel_statements::same_schema::same_prefix;
use hotel_statements::{INDEXES, Layout};
use keycard_rules::Memory;
use sqlite::{Alter, Connection, MemStore};
use std::alloc::Global;

/// How many tables the first version has, and how many indexes of their keys.
const FIRST_TABLES: usize = 8;

const FIRST_INDEXES: usize = 5;

/// The same of the second version.
const TABLES: usize = 9;

const KEYS: usize = 7;

/// An empty desk in memory.
fn desk_in_memory(alloc: Global) -> Result<Connection<MemStore>, Memory>
    ensures ok { IfOk result (λ conn. (state over_memory conn).now.schema ≡ desk_schema) }
{
    let Ok(mut conn) = Connection::open_in_memory(alloc) else {
        return Err(Memory);
    };
    match make_desk(&mut conn) {
        Ok(()) => Ok(conn),
        // A store in memory fails for lack of memory alone.
        Err(_) => Err(Memory),
    }
}

/// Whether a database has the eight tables of the first version: the first of a desk's, which is in memory.
fn has_first_tables_of<S: Alter>(conn: &Connection<S>, desk: &Connection<MemStore>) -> bool
    requires { (state over_memory desk.now).now.schema ≡ desk_schema }
    ensures sound { result ≡ true → (state S.Store conn.now).now.schema ≡ first_schema }
    ensures full { (state S.Store conn.now).now.schema ≡ first_schema → result ≡ true }
{
    same_prefix(conn.schema(), desk.schema(), FIRST_TABLES, FIRST_INDEXES)
}

/// How many of our indexes a database has, where it has the nine tables of a desk, which is in memory, and no other
/// index.
fn our_indexes<S: Alter>(conn: &Connection<S>, desk: &Connection<MemStore>) -> Option<usize>
    requires { (state over_memory desk.now).now.schema ≡ desk_schema }
    ensures some { IfSome result (λ count. (state S.Store conn.now).now.schema ≡ with_indexes count) }
    ensures none { result ≡ None → (count : ℕ) → ¬ ((state S.Store conn.now).now.schema ≡ with_indexes count) }
{
    let schema = conn.schema();
    let indexes = schema.indexes.len();
    if indexes < KEYS || indexes > KEYS + INDEXES {
        return None;
    }
    if same_prefix(schema, desk.schema(), TABLES, indexes) {
        Some(indexes - KEYS)
    } else {
        None
    }
}

/// What the database of a desk has.
///
/// A desk is made in memory to compare them with.
pub(crate) fn layout_of<S: Alter>(alloc: Global, conn: &Connection<S>) -> Result<Layout, OpenFault>
    ensures ok { IfOk result (λ layout. (state S.Store conn.now).now.schema ≡ schema_of layout) }
    ensures err { IsLaidOut (state S.Store conn.now).now.schema → IfErr result (λ why. why ≡ fault.Memory) }
    ensures foreign { IfErr result IsNoDesk }
{
    let Ok(desk) = desk_in_memory(alloc) else {
        return Err(OpenFault::Memory);
    };
    if has_first_tables_of(conn, &desk) {
        return Ok(Layout::Eight);
    }
    match our_indexes(conn, &desk) {
        Some(count) => Ok(Layout::Nine(count)),
        None => Err(OpenFault::NotADesk),
    }
}
