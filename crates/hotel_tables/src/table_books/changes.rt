//! A change of the tables, and of the counts that stand beside them.
ghost use Rattle.std.specs.Prelude.{◌≡◌, IfErr};
ghost use Rattle.keycard_rules.specs.declared.issued.LookFault.TheVariants.{Store};
ghost use Rattle.sqlite.specs.Held.{state};
ghost use Rattle.sqlite.specs.State.{HasCleanDisk};
ghost use Rattle.hotel_model.specs.Refinement.Fits.{Fits};
ghost use Rattle.hotel_statements.specs.Tables.{rows_in};
ghost use Rattle.hotel_statements.specs.Books.{IsKept};
ghost use Rattle.hotel_tables.specs.Applied.{Applies};
ghost use Rattle.hotel_tables.specs.Causes.{ChangingFails};

use crate::apply::apply_change;
use crate::counted::{count_added, count_ended, count_room, ended_by, uncount_added};
use crate::table_books::TableBooks;
use hotel_model::Change;
use keycard_rules::LookFault;
use sqlite::Alter;

impl<S: Alter> TableBooks<S> {
    /// Makes all of a change, or nothing, and keeps the counts in step.
    pub(crate) fn change_tables(&mut self, change: &Change) -> Result<(), LookFault>
        requires { IsKept (state S.Store self.old.conn)
            → Fits change.now (rows_in (state S.Store self.old.conn).now.trees) }
        ensures applies { Applies change.now (state S.Store self.old.conn) (state S.Store self.new.conn) result }
        ensures cause { HasCleanDisk (state S.Store self.new.conn)
            → IfErr result (λ why. why ≡ Store → ChangingFails S.Store change.now self.old.conn self.new.conn) }
        ensures memory { self.new.memory ≡ self.old.memory }
        ensures store { self.new.store ≡ self.old.store }
    {
        self.answers = false;
        let ended = ended_by(self.alloc, &mut self.conn, change)?;
        let Ok(()) = count_added(&mut self.kinds, &mut self.nights, change) else {
            return Err(LookFault::Memory);
        };
        match apply_change(self.alloc, &mut self.conn, change) {
            Ok(()) => {
                count_room(&mut self.kinds, change);
                count_ended(&mut self.nights, ended);
                Ok(())
            }
            Err(why) => {
                uncount_added(&mut self.nights, change);
                Err(why)
            }
        }
    }
}
