//! The walks over the lists' rows, each counted where it fails.
ghost use Rattle.std.specs.Prelude.{◌≡◌, None, IsTrue};
ghost use Rattle.sqlite.specs.Held.{state};
ghost use Rattle.sqlite.specs.State.{HasCleanDisk};
ghost use Rattle.hotel_books.specs.Books.Walks.{failure_of};
ghost use Rattle.hotel_tables.specs.TableBooks.{HandsOn};

use crate::table_books::TableBooks;
use hotel_books::{Sink, WalkFault, Walks, WalksOf};
use hotel_statements::walks::{Counts, WalkedOverTables};
use keycard_rules::LookFault;
use sqlite::Alter;

impl<S: Alter> TableBooks<S> {
    /// How a walk ended; a failure is counted by its cause.
    fn counting_walk(&mut self, end: Result<(), WalkFault>) -> Result<(), WalkFault>
        requires answered { HasCleanDisk (state S.Store self.old.conn) → failure_of end ≡ None
            → IsTrue (state S.Store self.old.conn).is_open }
        ensures { HandsOn (failure_of result) end result self.old self.new }
    {
        match end {
            Err(WalkFault::Memory) => self.count(LookFault::Memory),
            Err(WalkFault::Store) => self.count(LookFault::Store),
            Ok(()) | Err(WalkFault::Stopped) => self.answers = true,
        }
        end
    }
}

impl<S: Alter, L: WalkedOverTables> WalksOf<L> for TableBooks<S> {
    fn walk<K: Sink<L::Row>>(&mut self, list: &L, sink: &mut K) -> Result<(), WalkFault> {
        self.ask()?;
        self.answers = false;
        let counts = Counts {
            kinds: &self.kinds,
            nights: &self.nights,
        };
        let end = list.walk_connection(self.alloc, &mut self.conn, counts, sink);
        self.counting_walk(end)
    }
}

impl<S: Alter> Walks for TableBooks<S> {}
