//! Books over tables.
ghost use Rattle.std.specs.Prelude.{◌≡◌, OnOk, Some, IsTrue, refl};
ghost use Rattle.std.proofs.Common.{ap, ◌∙◌};
ghost use Rattle.keycard_rules.specs.{Leaves.told_by, Rise.Counts, Rise.NoFewer, Rise.one_of};
ghost use Rattle.hotel_model.specs.Refinement.Lookups.{codes_in};
ghost use Rattle.sqlite.specs.Held.{state};
ghost use Rattle.sqlite.specs.State.{HasCleanDisk};
ghost use Rattle.hotel_statements.specs.Books.{IsKept};
ghost use Rattle.hotel_statements.specs.Tables.{rows_in};
ghost use Rattle.hotel_statements.proofs.Transaction.{none_new};
ghost use Rattle.hotel_tables.specs.{Applied.LeavesNothing, StopLaws.nothing_refl};
ghost use Rattle.hotel_tables.specs.TableBooks.{failed, AsksFirst, HandsOn};
ghost use Rattle.hotel_tables.specs.Causes.{LookFails};

mod books;
mod changes;
mod walks;

use hotel_books::{KindRooms, NightIndex};
use hotel_statements::look_ups;
use keycard_rules::{Code, Issued, Kept, LookFault};
use sqlite::{Alter, Connection};
use std::alloc::Global;
use std::marker::Model;

/// Books over the nine tables of a desk.
///
/// No rows are kept in memory: beside the connection stand only how many rooms each kind has and how many stays take
/// each night.
#[derive(Drop)]
pub struct TableBooks<S: Alter> {
    pub(crate) alloc: Global,
    pub(crate) conn: Connection<S>,
    pub(crate) kinds: KindRooms,
    pub(crate) nights: NightIndex,
    /// Whether the connection answered when it was last asked.
    pub(crate) answers: bool,
    pub(crate) memory: u64,
    pub(crate) store: u64,
}

impl<S: Alter> Model for TableBooks<S> {
    ghost use Rattle.sqlite.specs.Held.{state};
    ghost use Rattle.hotel_tables.specs.TableBooks.{Tabled, tabled_code, IsTabled};

    ghost Value = { Tabled S };

    ghost coded = { tabled_code S.code };

    ghost view = { λ b. record {
      conn = b.conn;
      kinds = b.kinds;
      nights = b.nights;
      memory = b.memory;
      store = b.store;
    } };

    ghost invariant = { λ b. IsTabled (state S.Store b.conn) b.kinds b.nights b.answers };
}

impl<S: Alter> TableBooks<S> {
    /// Counts a failure by its cause; a count stays at its greatest value.
    pub(crate) fn count(&mut self, why: LookFault)
        ensures conn { self.new.conn ≡ self.old.conn }
        ensures no_fewer { NoFewer (failed self.old) (failed self.new) }
        ensures counted { Counts (λ cause. one_of cause (Some why)) (failed self.old) (failed self.new) }
    {
        match why {
            LookFault::Memory => self.memory = self.memory.saturating_add(1),
            LookFault::Store => self.store = self.store.saturating_add(1),
        }
    }

    /// What the connection answered when it was asked; a failure is counted by its cause.
    pub(crate) fn counting<T>(&mut self, found: Result<T, LookFault>) -> Result<T, LookFault>
        requires answered { HasCleanDisk (state S.Store self.old.conn)
            → OnOk found (IsTrue (state S.Store self.old.conn).is_open) }
        ensures { HandsOn (told_by result) found result self.old self.new }
    {
        match &found {
            Ok(_) => self.answers = true,
            Err(why) => self.count(*why),
        }
        found
    }

    /// Asks whether the connection answers, where it did not answer when it was last asked.
    ///
    /// It comes before each call: a connection that a failure shut answers nothing, and no statement is run on it.
    pub(crate) fn ask(&mut self) -> Result<(), LookFault>
        ensures { AsksFirst S.Store self.old self.new result }
    {
        if self.answers {
            return Ok(());
        }
        let ready = look_ups::ready(&mut self.conn);
        self.counting(ready)
    }
}

impl<S: Alter> Kept for TableBooks<S> {
    ghost issued = { λ b. codes_in (rows_in (state S.Store b.conn).now.trees) };

    ghost is_clean = { λ b. IsKept (state S.Store b.conn) };

    ghost is_honest = { λ b. HasCleanDisk (state S.Store b.conn) };

    ghost leaves_no_more = { λ a b. LeavesNothing (state S.Store a.conn) (state S.Store b.conn) };

    ghost look_up_fails = { λ a b. LookFails S.Store a.conn b.conn };

    ghost is_kept = { λ a b. rows_in (state S.Store b.conn).now.trees ≡ rows_in (state S.Store a.conn).now.trees };

    ghost failures = { failed };

    ghost disk_failures = { λ b. (state S.Store b.conn).faults };

    ghost never_fails = { ⊥ };

    ghost never_store = { λ a never. absurd never };

    ghost clean_honest = { λ a kept. kept.0 };

    ghost kept_refl = { λ a. refl };

    ghost kept_trans = { λ a b c h k. k ∙ h };

    ghost no_more_refl = { λ a. nothing_refl (state S.Store a.conn) };

    ghost no_more_trans = { λ a b c first later. none_new first later };

    ghost kept_issued = { λ a b h. ap codes_in h };
}

impl<S: Alter> Issued for TableBooks<S> {
    fn is_issued(&mut self, code: Code) -> Result<bool, LookFault> {
        self.ask()?;
        self.answers = false;
        let issued = look_ups::is_issued(self.alloc, &mut self.conn, code);
        self.counting(issued)
    }
}
