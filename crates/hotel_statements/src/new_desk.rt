//! The statements that make a new desk, within a transaction: its nine tables, three indexes and the one row of meta.
ghost use Rattle.std.specs.Prelude.{◌≡◌, [], ◌∷◌};
ghost use Rattle.hotel_statements.specs.Schema.{no_schema, desk_schema};
ghost use Rattle.hotel_statements.specs.Statements.{MakesBy, adds_meta, makes_table, makes_first, makes_new};
ghost use Rattle.hotel_statements.specs.Statements.{makes_of_locks, makes_last};
ghost use Rattle.hotel_statements.specs.NewDesk.{IfOpen, IfOpenBare, MakesTable, AddsTable, MakesNew, IsBare};
ghost use Rattle.hotel_statements.specs.NewDesk.{IsMade, with_stay, with_card, with_note};

use crate::indexes::add_indexes;
use crate::statement::run;
use crate::texts::{
    CREATE_CARD, CREATE_CODE, CREATE_FIT, CREATE_INSIDE, CREATE_KIND, CREATE_META, CREATE_NOTE,
    CREATE_ROOM, CREATE_STAY, INSERT_META,
};
use sqlite::{Alter, Error, Transaction};

/// Makes a table.
fn make<S: Alter>(tx: &mut Transaction<'_, S>, text: &str) -> Result<(), Error>
    ensures same_reference { tx.new.conn.ghost_name ≡ tx.old.conn.ghost_name }
    ensures makes { MakesBy S.Store (makes_table text.now ∷ [])
        (λ old new. MakesTable text.now old new × AddsTable text.now old new) tx.old.conn.now tx.new.conn.now result }
{
    run(tx, text, &[])
}

/// Makes the tables of the desk, its kinds, rooms and stays.
pub fn make_first<S: Alter>(tx: &mut Transaction<'_, S>) -> Result<(), Error>
    ensures same_reference { tx.new.conn.ghost_name ≡ tx.old.conn.ghost_name }
    ensures makes { MakesBy S.Store makes_first (IfOpenBare no_schema with_stay)
        tx.old.conn.now tx.new.conn.now result }
{
    make(tx, CREATE_META)?;
    make(tx, CREATE_KIND)?;
    make(tx, CREATE_ROOM)?;
    make(tx, CREATE_STAY)
}

/// Makes what a new desk has beside the tables of the first version: the table of fits and the indexes.
pub(crate) fn make_new<S: Alter>(tx: &mut Transaction<'_, S>) -> Result<(), Error>
    ensures same_reference { tx.new.conn.ghost_name ≡ tx.old.conn.ghost_name }
    ensures makes { MakesBy S.Store makes_new
        (λ old new. MakesNew old new × IfOpenBare with_note desk_schema old new)
        tx.old.conn.now tx.new.conn.now result }
{
    make(tx, CREATE_FIT)?;
    add_indexes(tx, 0)
}

/// Makes the tables of insides, notes and fits, and the indexes.
fn make_of_locks<S: Alter>(tx: &mut Transaction<'_, S>) -> Result<(), Error>
    ensures same_reference { tx.new.conn.ghost_name ≡ tx.old.conn.ghost_name }
    ensures makes { MakesBy S.Store makes_of_locks (IfOpenBare with_card desk_schema)
        tx.old.conn.now tx.new.conn.now result }
{
    make(tx, CREATE_INSIDE)?;
    make(tx, CREATE_NOTE)?;
    make_new(tx)
}

/// Makes the tables of codes, cards, insides, notes and fits, and the indexes.
pub fn make_last<S: Alter>(tx: &mut Transaction<'_, S>) -> Result<(), Error>
    ensures same_reference { tx.new.conn.ghost_name ≡ tx.old.conn.ghost_name }
    ensures makes { MakesBy S.Store makes_last (IfOpenBare with_stay desk_schema)
        tx.old.conn.now tx.new.conn.now result }
{
    make(tx, CREATE_CODE)?;
    make(tx, CREATE_CARD)?;
    make_of_locks(tx)
}

/// Adds the row of meta, with no day.
pub fn enter_meta<S: Alter>(tx: &mut Transaction<'_, S>) -> Result<(), Error>
    ensures same_reference { tx.new.conn.ghost_name ≡ tx.old.conn.ghost_name }
    ensures makes { MakesBy S.Store (adds_meta ∷ []) (IfOpen (IsBare desk_schema) IsMade)
        tx.old.conn.now tx.new.conn.now result }
{
    run(tx, INSERT_META, &[])
}
