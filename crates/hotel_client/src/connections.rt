//! Desks that are made and opened on connections, and what their databases have.
use hotel_tables::{OpenFault, TableBooks};
use sqlite::{Alter, Connection, FileStore, Files, MemStore, Options};
use sqlite_disk::Memory;
use std::alloc::Global;
use std::test::Fail;

/// The books that a connection has.
pub(crate) fn opened<S: Alter + Drop>(
    alloc: Global,
    conn: Connection<S>,
) -> Result<TableBooks<S>, OpenFault> {
    if !conn.is_autocommit() {
        return Err(OpenFault::Store);
    }
    TableBooks::open(alloc, conn)
}

/// The same; on a fault the connection is given back.
pub(crate) fn opened_or_left<S: Alter + Drop>(
    alloc: Global,
    conn: Connection<S>,
) -> Result<TableBooks<S>, (OpenFault, Connection<S>)> {
    if !conn.is_autocommit() {
        return Err((OpenFault::Store, conn));
    }
    TableBooks::open_or_return(alloc, conn)
}

/// A new desk on a connection.
pub(crate) fn created<S: Alter + Drop>(
    alloc: Global,
    conn: Connection<S>,
) -> Result<TableBooks<S>, OpenFault> {
    if !conn.is_autocommit() {
        return Err(OpenFault::Store);
    }
    TableBooks::create(alloc, conn)
}

/// A new desk over tables in memory.
pub(crate) fn new_tables(alloc: Global) -> Result<TableBooks<MemStore>, Fail> {
    Ok(created(alloc, Connection::open_in_memory(alloc)?)?)
}

/// A database in two files, which are in memory.
pub(crate) fn files_in_memory(alloc: Global) -> Result<Connection<FileStore<Memory>>, Fail> {
    let files = Files {
        log: Memory::new(alloc),
        db: Memory::new(alloc),
    };
    match Connection::open_files(alloc, files, Options::new(1)) {
        Ok(conn) => Ok(conn),
        Err((error, _)) => Err(Fail::from(error)),
    }
}

/// The fault of an opening.
pub(crate) fn fault_of<S: Alter + Drop>(alloc: Global, conn: Connection<S>) -> Option<OpenFault> {
    opened(alloc, conn).err()
}

/// What a database has, as a text: the statements of its tables and indexes, in their order, and each table's rows.
pub(crate) fn database_text<S: Alter>(
    alloc: Global,
    conn: &mut Connection<S>,
) -> Result<String, Fail> {
    let statements = conn.query_all("SELECT type, name, sql FROM sqlite_schema", &[])?;
    let mut text = format!(in alloc; "{statements:?}")?;
    let tables = conn.query_all("SELECT name FROM sqlite_schema WHERE type = 'table'", &[])?;
    for table in &tables {
        let name: String = table.get(0)?;
        let query = format!(in alloc; "SELECT * FROM {name}")?;
        let rows = conn.query_all(&query, &[])?;
        let rows = format!(in alloc; "{rows:?}")?;
        text.push_str(&rows)?;
    }
    Ok(text)
}
