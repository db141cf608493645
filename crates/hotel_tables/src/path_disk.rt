//! Disks that are opened at a path.
ghost use Rattle.std.specs.Prelude.{◌≡◌, Bool, Err, IsTrue, IfOk, IfErr};
ghost use Rattle.sqlite_std_file.specs.File.{IsFresh};
ghost use Rattle.hotel_tables.specs.Paths.{is_no_path, IsPathError, AreParts};

use crate::system_disk::SystemDisk;
use sqlite::{Error, ErrorCode, Files, Unknown};
use sqlite_disk::Disk;
use sqlite_std_file::OpenError;
use std::io::ErrorKind;

/// A disk that is opened at a path.
pub trait PathDisk: Disk + Drop {
    /// The disk is that of a log, or that of a database's file, as it was opened.
    ghost is_part: { Bool → Self → Type 0 };

    /// The database's file at the path, and its log beside it. Each is made where it is missing, and nobody else may
    /// have them meanwhile.
    ///
    /// It refuses `:memory:` and names that begin with `file:`, which are no paths to SQLite. That the files are those
    /// of the path is in no clause: a file of the system carries no name.
    fn open(rt: &HostRuntime, path: &str) -> Result<Files<Self>, Error>
        ensures refused { IsTrue (is_no_path path.now) → result ≡ Err (Error.SqliteFailure ErrorCode.CannotOpen) }
        ensures kind { IfErr result IsPathError }
        ensures parts { IfOk result (AreParts is_part) }
        ensures log { IfOk result (λ files. IsTrue (Self.Disk.is_usable files.log)) }
        ensures db { IfOk result (λ files. IsTrue (Self.Disk.is_usable files.db)) };
}

/// Whether SQLite takes the name for a database in memory, or for a URI.
fn is_no_path(path: &str) -> bool
    ensures { result ≡ is_no_path path.now }
{
    path == ":memory:" || path.as_bytes().starts_with(b"file:")
}

/// The error of files that could not be opened, by SQLite's name.
fn path_error(error: OpenError) -> Error
    ensures { IsPathError result }
{
    match error {
        OpenError::OutOfMemory => Error::SqliteFailure(ErrorCode::OutOfMemory),
        OpenError::Busy => Error::SqliteFailure(ErrorCode::DatabaseBusy),
        OpenError::Io(error) if error.kind() == ErrorKind::OutOfMemory => Error::SqliteFailure(
            ErrorCode::OutOfMemory,
        ),
        OpenError::Io(_) | OpenError::HotJournal => Error::SqliteFailure(ErrorCode::CannotOpen),
    }
}

impl PathDisk for SystemDisk {
    ghost is_part = { λ is_log d. IsFresh is_log d.file };

    fn open(rt: &HostRuntime, path: &str) -> Result<Files<SystemDisk>, Error> {
        if is_no_path(path) {
            return Err(Error::SqliteFailure(ErrorCode::CannotOpen));
        }
        match sqlite_std_file::open(rt, path, Unknown) {
            Ok(files) => Ok(Files {
                log: SystemDisk::new(files.log),
                db: SystemDisk::new(files.db),
            }),
            Err(error) => Err(path_error(error)),
        }
    }
}
