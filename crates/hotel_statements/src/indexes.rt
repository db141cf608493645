//! The indexes of ours, made within a transaction. They forbid no row, and the rows stay.
ghost use Rattle.std.specs.Prelude.{◌≡◌, ◌+◌, ◌<◌, [], ◌∷◌};
ghost use Rattle.hotel_statements.specs.Statements.{MakesBy, index_text, makes_table, makes_index, makes_indexes};
ghost use Rattle.hotel_statements.specs.NewDesk.{AddsIndex, AddsIndexes};

use crate::statement::run;
use crate::texts::{CREATE_CARD_PARTY, CREATE_STAY_ARRIVE, CREATE_STAY_ROOM};
use crate::version::INDEXES;
use sqlite::{Alter, Error, Transaction};

/// The text that makes an index of ours, by its place among them.
fn index_text(at: usize) -> &'static str
    ensures { result.now ≡ index_text at }
{
    match at {
        0 => CREATE_STAY_ROOM,
        1 => CREATE_CARD_PARTY,
        _ => CREATE_STAY_ARRIVE,
    }
}

/// Makes an index.
fn make_index<S: Alter>(tx: &mut Transaction<'_, S>, text: &str) -> Result<(), Error>
    ensures same_reference { tx.new.conn.ghost_name ≡ tx.old.conn.ghost_name }
    ensures makes { MakesBy S.Store (makes_table text.now ∷ []) (AddsIndex text.now)
        tx.old.conn.now tx.new.conn.now result }
{
    run(tx, text, &[])
}

/// Makes an index of ours, where those before it are there.
fn add_index<S: Alter>(tx: &mut Transaction<'_, S>, at: usize) -> Result<(), Error>
    requires { at < INDEXES }
    ensures same_reference { tx.new.conn.ghost_name ≡ tx.old.conn.ghost_name }
    ensures makes { MakesBy S.Store (makes_index at ∷ []) (AddsIndexes at (at + 1))
        tx.old.conn.now tx.new.conn.now result }
{
    make_index(tx, index_text(at))
}

/// Makes our indexes from the one at a place on, where those before it are there.
pub(crate) fn add_indexes<S: Alter>(tx: &mut Transaction<'_, S>, first: usize) -> Result<(), Error>
    requires { first < INDEXES }
    ensures same_reference { tx.new.conn.ghost_name ≡ tx.old.conn.ghost_name }
    ensures makes { MakesBy S.Store (makes_indexes first INDEXES) (AddsIndexes first INDEXES)
        tx.old.conn.now tx.new.conn.now result }
{
    'indexes: for at in first..INDEXES {
        add_index(tx, at)?;
    }
    Ok(())
}
