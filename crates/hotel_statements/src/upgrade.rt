//! The statements that make what is missing of a desk, within a transaction: its indexes, or a desk of the second
//! version of one of the first.
ghost use Rattle.std.specs.Prelude.{◌≡◌, [], ◌∷◌, false};
ghost use Rattle.sqlite.specs.Held.{state};
ghost use Rattle.hotel_statements.specs.declared.version.Layout.TheVariants.{Eight};
ghost use Rattle.hotel_statements.specs.Schema.{is_whole};
ghost use Rattle.hotel_statements.specs.Statements.{MakesBy, adds_first_fit, makes_new, makes_second, sets_version};
ghost use Rattle.hotel_statements.specs.Statements.{completes};
ghost use Rattle.hotel_statements.specs.Tables.{fits_in};
ghost use Rattle.hotel_statements.specs.Steps.{IsMidOf};
ghost use Rattle.hotel_statements.specs.Upgrade.{Completes, GivesFits, IsOutdated, IsFilling, with_first_fit};

use crate::indexes::add_indexes;
use crate::new_desk::make_new;
use crate::number::{numbered, small};
use crate::statement::run;
use crate::texts::{INSERT_FIT, UPDATE_VERSION};
use crate::version::Layout;
use keycard_rules::RoomNo;
use sqlite::{Alter, Error, Transaction};

/// The version of the tables, which meta tells.
const VERSION: u32 = 2;

/// Has meta tell the second version.
fn set_version<S: Alter>(tx: &mut Transaction<'_, S>) -> Result<(), Error>
    ensures same_reference { tx.new.conn.ghost_name ≡ tx.old.conn.ghost_name }
    ensures makes { MakesBy S.Store (sets_version ∷ []) (GivesFits IsOutdated [])
        tx.old.conn.now tx.new.conn.now result }
{
    run(tx, UPDATE_VERSION, &[small(1), small(VERSION)])
}

/// Adds the fit that a room began with.
fn insert_first_fit<S: Alter>(tx: &mut Transaction<'_, S>, room: RoomNo) -> Result<(), Error>
    ensures same_reference { tx.new.conn.ghost_name ≡ tx.old.conn.ghost_name }
    ensures makes { MakesBy S.Store (adds_first_fit room ∷ [])
        (GivesFits IsFilling (with_first_fit (fits_in (state S.Store tx.old.conn.now).now.trees) room))
        tx.old.conn.now tx.new.conn.now result }
{
    run(
        tx,
        INSERT_FIT,
        &[numbered(room), small(1), small(0), small(0)],
    )
}

/// Makes the table of fits and the indexes, and has meta tell the second version.
fn upgrade_tables<S: Alter>(tx: &mut Transaction<'_, S>) -> Result<(), Error>
    ensures same_reference { tx.new.conn.ghost_name ≡ tx.old.conn.ghost_name }
    ensures makes { MakesBy S.Store (makes_second []) (GivesFits (IsMidOf Eight) [])
        tx.old.conn.now tx.new.conn.now result }
{
    make_new(tx)?;
    set_version(tx)
}

/// Makes a desk of the second version of one of the first: its tables, and then the fit of each of its rooms.
fn upgrade<S: Alter>(tx: &mut Transaction<'_, S>, rooms: &[RoomNo]) -> Result<(), Error>
    ensures same_reference { tx.new.conn.ghost_name ≡ tx.old.conn.ghost_name }
    ensures makes { MakesBy S.Store (makes_second rooms.now) (Completes Eight rooms.now)
        tx.old.conn.now tx.new.conn.now result }
{
    upgrade_tables(tx)?;
    'rooms: for i in 0..rooms.len() {
        insert_first_fit(tx, rooms[i])?;
    }
    Ok(())
}

/// Makes what is missing of a desk that is laid out so; the rooms of one of the first version are given.
pub fn complete<S: Alter>(
    tx: &mut Transaction<'_, S>,
    layout: Layout,
    rooms: &[RoomNo],
) -> Result<(), Error>
    requires { is_whole layout ≡ false }
    ensures same_reference { tx.new.conn.ghost_name ≡ tx.old.conn.ghost_name }
    ensures makes { MakesBy S.Store (completes layout rooms.now) (Completes layout rooms.now)
        tx.old.conn.now tx.new.conn.now result }
{
    match layout {
        Layout::Eight => upgrade(tx, rooms),
        Layout::Nine(count) => add_indexes(tx, count),
    }
}
