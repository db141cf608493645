//! The books of a database file, opened and closed.
ghost use Rattle.std.specs.Prelude.{◌≡◌, false, Err, None, IsTrue, IfOk, IfErr};
ghost use Rattle.sqlite.specs.Held.{state};
ghost use Rattle.hotel_tables.specs.Paths.{is_no_path, IsPathError, AreParts};
ghost use Rattle.hotel_tables.specs.Files.{connect_fault, AreBooksOf, IsWhyNone, IsAnswer, AreOfOpening, IsOfOpening};
ghost use Rattle.hotel_tables.specs.Files.{HoldBooks, LeavesLog, FailsToCopy};

use crate::path_disk::PathDisk;
use crate::table_books::TableBooks;
use hotel_rows::{FileFault, OpenFault};
use sqlite::{Alter, Connection, Error, ErrorCode, FileStore, Files, Leftover, Options};
use sqlite_disk::Disk;
use std::alloc::Global;
use std::hash::{BuildHasher, RandomState};

/// How many pages the log has before it is copied into the database's file: 16 MB. Each copying writes a page once,
/// however often the log has it, so that a longer log copies fewer pages for each change.
const CHECKPOINT_FRAMES: usize = 4_000;

/// The log has 4,000 pages before it is copied.
pub fn limits_are()
    ensures { CHECKPOINT_FRAMES ≡ 4000 }
{}

/// The fault of a file that couldn't be opened as a database.
fn connect_fault(error: Error) -> FileFault
    ensures { result ≡ connect_fault error }
{
    match error {
        Error::SqliteFailure(ErrorCode::OutOfMemory) => FileFault::Desk(OpenFault::Memory),
        Error::SqliteFailure(ErrorCode::NotADatabase | ErrorCode::DatabaseCorrupt) =>
            FileFault::Desk(OpenFault::NotADesk),
        Error::SqliteFailure(
            ErrorCode::SystemIoFailure | ErrorCode::DiskFull | ErrorCode::Closed,
        ) => FileFault::Desk(OpenFault::Store),
        _ => FileFault::File,
    }
}

/// The books over a database that was opened: they are made where it has nothing, and else found.
fn books_of<S: Alter + Drop>(
    alloc: Global,
    conn: Connection<S>,
) -> Result<TableBooks<S>, (OpenFault, Connection<S>)>
    requires alone { (state S.Store conn).in_transaction ≡ false }
    ensures books { IfOk result (λ b. AreBooksOf (state S.Store conn) (state S.Store b.conn)) }
    ensures unfailed { IfOk result (λ b. (b.memory ≡ 0) × (b.store ≡ 0)) }
    ensures fault { IfErr result (λ e. IsWhyNone S.Store conn e.1 e.0) }
{
    match TableBooks::create_or_return(alloc, conn) {
        Err((OpenFault::NotADesk, conn)) => TableBooks::open_or_return(alloc, conn),
        made => made,
    }
}

/// The options of a connection, with a salt that is drawn at random for its log.
fn drawn_options(rt: &HostRuntime) -> Result<Options, Error>
    ensures memory { IfOk result (λ options. (options.cache_pages ≡ 2000) × (options.spill_pages ≡ 2000)) }
    ensures log { IfOk result (λ options. options.checkpoint_frames ≡ CHECKPOINT_FRAMES) }
    ensures refused { IfErr result (λ e. e ≡ Error.SqliteFailure ErrorCode.CannotOpen) }
{
    let Ok(state) = RandomState::new(rt) else {
        return Err(Error::SqliteFailure(ErrorCode::CannotOpen));
    };
    let mut options = Options::new(state.hash_one(&0u8));
    options.checkpoint_frames = CHECKPOINT_FRAMES;
    Ok(options)
}

/// What a database is opened with: the files at a path, and options.
fn files_at<D: PathDisk>(rt: &HostRuntime, path: &str) -> Result<(Files<D>, Options), Error>
    ensures refused { IsTrue (is_no_path path.now) → result ≡ Err (Error.SqliteFailure ErrorCode.CannotOpen) }
    ensures kind { IfErr result IsPathError }
    ensures parts { IfOk result (λ opened. AreParts D.PathDisk.is_part opened.0) }
    ensures log { IfOk result (λ opened. IsTrue (D.Disk.is_usable opened.0.log)) }
    ensures db { IfOk result (λ opened. IsTrue (D.Disk.is_usable opened.0.db)) }
    ensures memory { IfOk result (λ opened. (opened.1.cache_pages ≡ 2000) × (opened.1.spill_pages ≡ 2000)) }
    ensures frames { IfOk result (λ opened. opened.1.checkpoint_frames ≡ CHECKPOINT_FRAMES) }
{
    let files = D::open(rt, path)?;
    let options = drawn_options(rt)?;
    Ok((files, options))
}

/// The connection to the database of the files at a path; with an error comes what is left of the files, once they were
/// opened.
fn connect<D: PathDisk>(
    rt: &HostRuntime,
    path: &str,
) -> Result<Connection<FileStore<D>>, (Error, Option<Leftover<D>>)>
    ensures refused { IsTrue (is_no_path path.now) → result ≡ Err (Error.SqliteFailure ErrorCode.CannotOpen, None) }
    ensures answer { IsAnswer D.PathDisk.is_part result }
{
    let (files, options) = match files_at(rt, path) {
        Ok(opened) => opened,
        Err(error) => return Err((error, None)),
    };
    match Connection::open_files(rt.alloc(), files, options) {
        Ok(conn) => Ok(conn),
        Err((error, left)) => Err((error, Some(left))),
    }
}

/// Opens the books of a file, and makes them where it is missing or its database has nothing.
///
/// Its clauses speak of an answer of the opening of some log and some database's file. No clause says that they are the
/// files at the path, as a file of the system carries no name, nor when the system opens a file: `CannotOpen` and
/// `DatabaseBusy`, which are `FileFault::File`, have no cause. So a body that always answers a fault of openings is
/// refused in `connect` and `books_of`, where the answers are given, and by no clause here. Nor does a clause say that
/// the disk of an opened file is clean, which is the premise of what is said of its rows.
pub fn open_file<D: PathDisk>(
    rt: &HostRuntime,
    path: &str,
) -> Result<TableBooks<FileStore<D>>, FileFault>
    ensures books { IfOk result (λ b. AreOfOpening D.PathDisk.is_part b.conn) }
    ensures unfailed { IfOk result (λ b. (b.memory ≡ 0) × (b.store ≡ 0)) }
    ensures fault { IfErr result (IsOfOpening D.Disk D.PathDisk.is_part) }
    ensures refused { IsTrue (is_no_path path.now) → result ≡ Err FileFault.File }
{
    let conn = match connect(rt, path) {
        Ok(conn) => conn,
        Err((error, _left)) => return Err(connect_fault(error)),
    };
    match books_of(rt.alloc(), conn) {
        Ok(books) => Ok(books),
        Err((why, _conn)) => Err(FileFault::Desk(why)),
    }
}

/// Closes books: what their log has is copied into the database's file, and the files are given back, or an error with
/// the store.
fn closed<D: Disk + Drop>(
    books: TableBooks<FileStore<D>>,
) -> Result<Files<D>, (Error, FileStore<D>)>
    ensures copied { IfOk result (HoldBooks books.conn) }
    ensures left { IfErr result (λ e. LeavesLog books.conn e.1 e.0) }
{
    books.close().close_files()
}

/// Closes the books of a file: what its log has is copied into it, and the files are given back.
///
/// Where that goes wrong, an error is given back, and a crash finds nothing but what it could find before: the log
/// keeps what was not copied.
pub fn close_file<D: Disk + Drop>(books: TableBooks<FileStore<D>>) -> Result<Files<D>, Error>
    ensures copied { IfOk result (HoldBooks books.conn) }
    ensures left { IfErr result (FailsToCopy books.conn) }
{
    match closed(books) {
        Ok(files) => Ok(files),
        Err((error, store)) => {
            drop(store.close());
            Err(error)
        }
    }
}
