//! Books over tables that are there: the tables are read whole and tested, and what books keep in memory is counted.
ghost use Rattle.std.specs.Prelude.{◌≡◌, ◌↔◌, pos, None, true, map, IfOk, IfErr};
ghost use Rattle.std.specs.List.{list_all};
ghost use Rattle.std.specs.Ordering.{int_cmp, is_lt};
ghost use Rattle.sqlite.specs.Held.{state};
ghost use Rattle.sqlite.specs.Tree.{Trees};
ghost use Rattle.keycard_rules.specs.declared.issued.LookFault.TheVariants as look;
ghost use Rattle.hotel_model.specs.SoundRooms.{are_in_order};
ghost use Rattle.hotel_rows.specs.Counts.{IsCountedOf};
ghost use Rattle.hotel_rows.specs.Damage.{first_damaged_of};
ghost use Rattle.hotel_rows.specs.RowTests.{is_room_number};
ghost use Rattle.hotel_statements.specs.declared.version.Version.{Version};
ghost use Rattle.hotel_statements.specs.Tables.{AreApart, number_of_version};
ghost use Rattle.hotel_statements.specs.WholeTables.{IsOurs, AreTablesRead};
ghost use Rattle.hotel_rows.specs.declared.open_fault.OpenFault.TheVariants.{NotADesk};
ghost use Rattle.hotel_tables.specs.Opening.{AreStored, AreApartInside, IsMetaRow, IsFound, FaultFits, Opens, LacksRow};
ghost use Rattle.hotel_tables.specs.Opening.{fits_natural, all_natural, plain_inside, id_inside};
ghost use Rattle.hotel_tables.specs.Opening.{fault_for, rooms_for};

use hotel_rows::{
    Counts, OpenFault, PlainFit, PlainInside, PlainRoom, Stored, counts_if_sound, rooms_of,
};
use hotel_statements::Version;
use hotel_statements::plain_rows::{self, NumberedInside, PlainMeta};
use hotel_statements::whole_tables::{self, WholeTables, read_tables};
use keycard_rules::{LookFault, Memory, RoomNo};
use sqlite::{Alter, Connection};
use std::alloc::Global;

/// The number of a version, which meta tells.
fn number_of(version: Version) -> i64
    ensures { result ≡ pos (number_of_version version) }
{
    match version {
        Version::First => 1,
        Version::Second => 2,
    }
}

/// The one row of meta, of a version.
fn meta_row(meta: &[PlainMeta], version: Version) -> Result<PlainMeta, OpenFault>
    ensures ok { IfOk result (IsMetaRow version meta.now) }
    ensures err { IfErr result (λ why. (why ≡ NotADesk) × LacksRow version meta.now) }
{
    let [plain] = meta else {
        return Err(OpenFault::NotADesk);
    };
    if plain.id != 1 || plain.version != number_of(version) {
        return Err(OpenFault::NotADesk);
    }
    Ok(*plain)
}

/// The one row of meta; without it the tables are no desk's.
fn meta_of(tables: &WholeTables, version: Version) -> Result<PlainMeta, OpenFault>
    ensures ok { IfOk result (IsMetaRow version tables.now.meta.items) }
    ensures err { (db : Trees) → AreTablesRead version tables.now db → IfErr result (FaultFits ⊥ version db) }
{
    meta_row(&tables.meta, version)
}

/// The numbers of the rows.
fn ids_of(alloc: Global, inside: &[NumberedInside]) -> Result<Vec<i64>, Memory>
    ensures { IfOk result (λ ids. ids.items ≡ map id_inside inside.now) }
{
    match inside.iter().map(|row| row.id).collect(alloc) {
        Ok(ids) => Ok(ids),
        Err(_) => Err(Memory),
    }
}

fn is_below(a: i64, b: i64) -> bool
    ensures { result ≡ is_lt (int_cmp a b) }
{
    a.cmp(&b).is_lt()
}

fn numbers_rise(ids: &[i64]) -> bool
    ensures { result ≡ are_in_order int_cmp ids.now }
{
    for i in 1..ids.len() {
        if !is_below(ids[i - 1], ids[i]) {
            return false;
        }
    }
    true
}

/// Whether no two rows have the same number.
fn are_apart(alloc: Global, inside: &[NumberedInside]) -> Result<bool, Memory>
    ensures { IfOk result (λ apart. (apart ≡ true) ↔ AreApart int_cmp (map id_inside inside.now)) }
{
    let mut ids = ids_of(alloc, inside)?;
    let Ok(()) = ids.sort() else {
        return Err(Memory);
    };
    Ok(numbers_rise(&ids))
}

/// The rows without their numbers.
fn plain_rows_inside(alloc: Global, inside: &[NumberedInside]) -> Result<Vec<PlainInside>, Memory>
    ensures { IfOk result (λ plain_rows. plain_rows.items ≡ map plain_inside inside.now) }
{
    match inside.iter().map(|row| row.plain).collect(alloc) {
        Ok(plain_rows) => Ok(plain_rows),
        Err(_) => Err(Memory),
    }
}

fn fits_natural(fits: &Option<Vec<PlainFit>>) -> bool
    ensures { result ≡ fits_natural fits.now }
{
    match fits {
        None => true,
        Some(fits) => whole_tables::all_natural(fits),
    }
}

/// Whether no number is below 0.
fn all_natural(stored: &Stored) -> bool
    ensures { result ≡ all_natural stored.now }
{
    plain_rows::may_be_natural(stored.day)
        && whole_tables::all_natural(&stored.room)
        && whole_tables::all_natural(&stored.stay)
        && whole_tables::all_natural(&stored.code)
        && whole_tables::all_natural(&stored.card)
        && whole_tables::all_natural(&stored.inside)
        && whole_tables::all_natural(&stored.note)
        && fits_natural(&stored.fit)
}

/// The rows of the tables, where meta has its one row.
///
/// Two rows inside of one number, which no query shows, are a failure of the store.
fn stored_of(alloc: Global, tables: WholeTables, version: Version) -> Result<Stored, OpenFault>
    ensures ok { (db : Trees) → AreTablesRead version tables db
        → IfOk result (λ s. AreStored version s db × AreApartInside db) }
    ensures err { (db : Trees) → AreTablesRead version tables db → IfErr result (FaultFits ⊥ version db) }
{
    let meta = meta_of(&tables, version)?;
    match are_apart(alloc, &tables.inside) {
        Ok(true) => {}
        Ok(false) => return Err(OpenFault::Store),
        Err(Memory) => return Err(OpenFault::Memory),
    }
    let Ok(inside) = plain_rows_inside(alloc, &tables.inside) else {
        return Err(OpenFault::Memory);
    };
    Ok(Stored {
        day: meta.day,
        kind: tables.kinds,
        room: tables.rooms,
        stay: tables.stays,
        code: tables.codes,
        card: tables.cards,
        inside,
        note: tables.notes,
        fit: tables.fits,
    })
}

pub(crate) fn open_fault(why: LookFault) -> OpenFault
    ensures { result ≡ fault_for why }
{
    match why {
        LookFault::Memory => OpenFault::Memory,
        LookFault::Store => OpenFault::Store,
    }
}

/// What is counted of the rows, where no table is damaged.
///
/// Sound rows have no number below 0, so the last test never fails.
fn sound_counts(alloc: Global, stored: &Stored) -> Result<Counts, OpenFault>
    ensures ok { IfOk result (λ counts. IsCountedOf stored.now counts × (first_damaged_of stored.now ≡ None)
        × (all_natural stored.now ≡ true)) }
    ensures err { (version : Version) (db : Trees) → AreStored version stored.now db
        → IfErr result (FaultFits ⊥ version db) }
{
    let counts = match counts_if_sound(alloc, stored) {
        Ok(Ok(counts)) => counts,
        Ok(Err(table)) => return Err(OpenFault::Damaged(table)),
        Err(Memory) => return Err(OpenFault::Memory),
    };
    if !all_natural(stored) {
        return Err(OpenFault::Store);
    }
    Ok(counts)
}

/// The rooms whose first fits an upgrade adds: those of a desk of the first version, in order.
fn rooms_for(alloc: Global, rooms: &[PlainRoom], version: Version) -> Result<Vec<RoomNo>, LookFault>
    ensures ok { IfOk result (λ numbers. numbers.items ≡ rooms_for version rooms.now) }
    ensures err { list_all is_room_number rooms.now ≡ true → IfErr result (λ why. why ≡ look.Memory) }
{
    match version {
        Version::First => rooms_of(alloc, rooms),
        Version::Second => Ok(Vec::new(alloc)),
    }
}

/// What a desk is opened with.
#[derive(Drop)]
pub(crate) struct Found {
    /// What books count of the rows.
    pub counts: Counts,
    /// The rooms of a desk of the first version, in order; none of the second, whose rooms have their fits.
    pub rooms: Vec<RoomNo>,
}

/// What is found in tables that a desk of a version may have, where none is damaged.
fn found_in(alloc: Global, tables: WholeTables, version: Version) -> Result<Found, OpenFault>
    ensures ok { (db : Trees) → AreTablesRead version tables db → IfOk result (λ found. IsFound version found db) }
    ensures err { (db : Trees) → AreTablesRead version tables db → IfErr result (FaultFits ⊥ version db) }
{
    let stored = stored_of(alloc, tables, version)?;
    let counts = sound_counts(alloc, &stored)?;
    match rooms_for(alloc, &stored.room, version) {
        Ok(rooms) => Ok(Found { counts, rooms }),
        Err(why) => Err(open_fault(why)),
    }
}

/// Reads the tables of a desk of a version and tests them.
pub(crate) fn find_counts<S: Alter>(
    alloc: Global,
    conn: &mut Connection<S>,
    version: Version,
) -> Result<Found, OpenFault>
    requires { IsOurs version (state S.Store conn.old) }
    ensures { Opens version (state S.Store conn.old) (state S.Store conn.new) result }
{
    match read_tables(alloc, conn, version) {
        Ok(tables) => found_in(alloc, tables, version),
        Err(why) => Err(open_fault(why)),
    }
}
