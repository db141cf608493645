//! One statement of a transaction.
ghost use Rattle.std.specs.Prelude.{◌≡◌, [], ◌∷◌};
ghost use Rattle.sqlite.specs.Held.{state};
ghost use Rattle.sqlite.specs.Values.{bound};
ghost use Rattle.hotel_statements.specs.Statements.{RunsStatements};
ghost use Rattle.hotel_statements.specs.Steps.{RunsStatement};

use sqlite::types::ValueRef;
use sqlite::{Alter, Error, Transaction};

/// Runs a statement that writes.
pub(crate) fn run<S: Alter>(
    tx: &mut Transaction<'_, S>,
    text: &str,
    params: &[ValueRef<'_>],
) -> Result<(), Error>
    ensures same_reference { tx.new.conn.ghost_name ≡ tx.old.conn.ghost_name }
    ensures runs { RunsStatement text.now (bound params.now) (state S.Store tx.old.conn.now)
        (state S.Store tx.new.conn.now) result }
    ensures answers { RunsStatements S.Store ((text.now, bound params.now)
        ∷ []) tx.old.conn.now tx.new.conn.now result }
{
    tx.execute(text, params)?;
    Ok(())
}
