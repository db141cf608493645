//! What a desk lacks is made, in one transaction.
ghost use Rattle.std.specs.Prelude.{◌≡◌, false, IsTrue, IfErr, OnOk, OnErr};
ghost use Rattle.sqlite.specs.Held.{state};
ghost use Rattle.sqlite.specs.State.{HasCleanDisk, Survives};
ghost use Rattle.hotel_statements.specs.Schema.{version_of, is_whole};
ghost use Rattle.hotel_statements.specs.Statements.{completes};
ghost use Rattle.hotel_statements.specs.Tables.{rows_in, rows_of_version};
ghost use Rattle.hotel_statements.specs.Books.{IsKept, IsBooks, IsBooksOf};
ghost use Rattle.hotel_statements.specs.Upgrade.{AreRoomsFor, IsWholeOf};
ghost use Rattle.hotel_tables.specs.Applied.{LeavesAll};
ghost use Rattle.hotel_tables.specs.Causes.{FailsToWrite};

use hotel_statements::Layout;
use hotel_statements::upgrade::complete;
use keycard_rules::RoomNo;
use sqlite::{Alter, Connection, Error};

/// Makes what a desk lacks that is laid out so, all of it or nothing; its rows stay.
///
/// The rooms are given of a desk of the first version; of the second none are needed.
pub(crate) fn migrate<S: Alter>(
    conn: &mut Connection<S>,
    layout: Layout,
    rooms: &[RoomNo],
) -> Result<(), Error>
    requires lacks { is_whole layout ≡ false }
    requires books { IsBooksOf layout (state S.Store conn.old) }
    requires rooms { IsKept (state S.Store conn.old)
        → AreRoomsFor (version_of layout) rooms.now (state S.Store conn.old).now.trees }
    ensures books { OnOk result (IsBooks (state S.Store conn.new)) }
    ensures left { OnErr result (IsBooksOf layout (state S.Store conn.new)) }
    ensures was { IsKept (state S.Store conn.new) → IsKept (state S.Store conn.old) }
    ensures made { IsKept (state S.Store conn.new) → OnOk result
        (rows_in (state S.Store conn.new).now.trees
        ≡ rows_of_version (version_of layout) (state S.Store conn.old).now.trees) }
    ensures whole { IsKept (state S.Store conn.new) → OnOk result (LeavesAll (state S.Store conn.new)) }
    ensures same { IsKept (state S.Store conn.new) → OnErr result
        ((state S.Store conn.new).now ≡ (state S.Store conn.old).now) }
    ensures open_on { HasCleanDisk (state S.Store conn.new) → OnOk result (IsTrue (state S.Store conn.new).is_open) }
    ensures failed { IfErr result (FailsToWrite S.Store (completes layout rooms.now) conn.old conn.new) }
    ensures crash { Survives (state S.Store conn.old) (state S.Store conn.new)
        (IsWholeOf (version_of layout) (state S.Store conn.old).now.trees) }
{
    let mut tx = conn.transaction();
    complete(&mut tx, layout, rooms)?;
    tx.commit()
}
