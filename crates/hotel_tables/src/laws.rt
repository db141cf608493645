//! Laws of the tables, which make no call: what a caller may rest on beside the contracts of the calls.
ghost use Rattle.sqlite.specs.Held.{state};
ghost use Rattle.sqlite.specs.Steps.{over_memory};
ghost use Rattle.hotel_tables.specs.Opening.{IsAlwaysClean};
ghost use Rattle.hotel_tables.specs.ChangesStay.{ChangesStay};
ghost use Rattle.hotel_tables.specs.Reopening.{FilesAreClean, FilesKeepBooks, ReadUndamaged};

use crate::table_books::TableBooks;
use hotel_books::Books;
use keycard_rules::Kept;
use sqlite::Alter;
use sqlite_disk::Disk;

/// What is read of a desk's tables has their rows; where these are sound, no table is damaged.
pub fn read_undamaged()
    ensures { ReadUndamaged }
{}

/// Files that a close gave back and an opening found hold the tables and rows of the books.
pub fn files_keep_books<D: Disk>()
    ensures { FilesKeepBooks D.Disk }
{}

/// What a command, a note, a list or several of them changed in books over tables stays, whatever crash comes after it,
/// where the books are clean.
pub fn changes_stay<S: Alter>()
    ensures { let books = ⟦<TableBooks<S> as Books>⟧ in ChangesStay S.Store ⟦<TableBooks<S> as Kept>⟧ (record {
      rows = books.rows;
      leaves_change = books.leaves_change;
      change_fails = books.change_fails;
    }) }
{}

/// Nothing but its own calls writes a store in memory.
pub fn memory_is_clean()
    ensures { IsAlwaysClean (state over_memory) }
{}

/// Over disks that return what was written, nothing but its own calls writes a store of files.
pub fn files_are_clean<D: Disk>()
    ensures { FilesAreClean D.Disk }
{}
