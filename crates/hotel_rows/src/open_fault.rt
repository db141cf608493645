//! Why a store, or a file, gives no rows of a desk. The names are here, where no store is, so that those who only tell
//! of it need none.

ghost use Rattle.std.specs.Prelude.{Some};
ghost use Rattle.hotel_rows.specs.OpenFault.{file_fault_text, open_fault_text, table_name};

use crate::stored::TableName;
use std::error::Error;
use std::fmt;

/// Why a connection gives no books.
#[derive(Clone, Copy, Debug, PartialEq, Eq)]
pub enum OpenFault {
    /// Memory ran out.
    Memory,
    /// A call of the store failed.
    Store,
    /// The database isn't a desk's; or, for a new desk, it isn't empty.
    NotADesk,
    /// A rule fails of this table, and of none before it.
    Damaged(TableName),
}

/// Why a file gave no books.
#[derive(Clone, Copy, Debug, PartialEq, Eq)]
pub enum FileFault {
    /// It can't be opened: it is no plain file, may not be read or written, or another program has it.
    File,
    /// It was opened, and what it has gave no books.
    Desk(OpenFault),
}

/// The name that the table has in the database.
impl fmt::Display for TableName {
    ghost output = { λ table. Some (table_name table) };

    fn fmt<W: fmt::Write>(&self, f: &mut fmt::Formatter<W>) -> fmt::Result {
        f.write_str(match self {
            TableName::Meta => "meta",
            TableName::Kind => "kind",
            TableName::Room => "room",
            TableName::Stay => "stay",
            TableName::Code => "code",
            TableName::Card => "card",
            TableName::Inside => "inside",
            TableName::Note => "note",
            TableName::Fit => "fit",
        })
    }
}

impl fmt::Display for OpenFault {
    ghost output = { λ why. Some (open_fault_text why) };

    fn fmt<W: fmt::Write>(&self, f: &mut fmt::Formatter<W>) -> fmt::Result {
        match self {
            OpenFault::Memory => f.write_str("memory"),
            OpenFault::Store => f.write_str("store"),
            OpenFault::NotADesk => f.write_str("not a desk"),
            OpenFault::Damaged(table) => write!(f, "damaged {table}"),
        }
    }
}

impl Error for OpenFault {}

impl fmt::Display for FileFault {
    ghost output = { λ why. Some (file_fault_text why) };

    fn fmt<W: fmt::Write>(&self, f: &mut fmt::Formatter<W>) -> fmt::Result {
        match self {
            FileFault::File => f.write_str("file"),
            FileFault::Desk(why) => write!(f, "{why}"),
        }
    }
}

impl Error for FileFault {}
