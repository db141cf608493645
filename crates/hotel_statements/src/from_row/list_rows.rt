//! The rows of lists, from the columns that the walks' statements show.
ghost use Rattle.std.specs.Prelude.{◌≡◌, ◌≢◌, ◌≤◌, ◌-◌, length, IfOk, IfErr};
ghost use Rattle.sqlite.specs.Order.{Row as SqlRow, column};
ghost use Rattle.hotel_statements.specs.Values.{number_of};
ghost use Rattle.hotel_statements.specs.Readable.{IsCount, IsOfChain, IsInHouse, IsBehind, IsOfStatus, IsOfInside};
ghost use Rattle.hotel_statements.specs.Readable.{FirstColumnIs, IsKind, IsMoment, IsOfLocks};
ghost use Rattle.hotel_statements.specs.Walks.{house_row_of, chain_row_of, behind_row_of, status_row_of};
ghost use Rattle.hotel_statements.specs.Walks.{inside_row_of, free_row_of, lock_row_of, moment_in};

use super::{
    FromRow, bit, code, counted, day, guest, kind_code, maybe_counted, maybe_integer, small_integer,
};
use crate::walks::Counts;
use hotel_books::free_row;
use hotel_model::{
    BehindRow, ChainRow, CodeState, FreeRow, HouseRow, InsideRow, LockRow, StatusRow,
};
use hotel_nights::{Day, Moment, Nights};
use hotel_rows::values;
use keycard_rules::{Count, LookFault};
use sqlite::Row;
use std::alloc::Global;

/// What is read from the columns of a row, and from what the reader has.
pub(crate) trait RowReader<R> {
    /// What a row with these columns says.
    ghost says: { Self → SqlRow → R };

    /// It says one.
    ghost is_readable: { Self → SqlRow → Type 0 };

    fn read(&self, alloc: Global, row: &Row) -> Result<R, LookFault>
        ensures reads { IfOk result (λ value. value ≡ says self.now row.now) }
        ensures unread { IfErr result (λ why. why ≢ LookFault.Memory → ¬ is_readable self.now row.now) };
}

/// Reads what the columns say by themselves.
#[derive(Drop)]
pub(crate) struct Alone;

impl<R: FromRow> RowReader<R> for Alone {
    ghost says = { λ _. R.FromRow.of };

    ghost is_readable = { λ _. R.FromRow.is_readable };

    fn read(&self, alloc: Global, row: &Row) -> Result<R, LookFault> {
        R::from_row(alloc, row)
    }
}

/// Reads the codes of a room whose lock stands at a place.
#[derive(Drop)]
pub(crate) struct AtLock {
    pub(crate) place: u32,
}

impl RowReader<ChainRow> for AtLock {
    ghost says = { λ lock. chain_row_of lock.place };

    ghost is_readable = { λ _. IsOfChain };

    fn read(&self, _: Global, row: &Row) -> Result<ChainRow, LookFault> {
        let place = small_integer(row, 0)?;
        let code = code(row, 1)?;
        let state = CodeState::at(self.place, place);
        Ok(ChainRow { place, code, state })
    }
}

/// Reads kinds, each with what is free of it on a business day, for so many nights from a day on.
#[derive(Drop)]
pub(crate) struct FreeOn<'a> {
    pub(crate) counts: Counts<'a>,
    pub(crate) today: Option<Day>,
    pub(crate) arrive: Day,
    pub(crate) nights: Nights,
}

impl RowReader<FreeRow> for FreeOn<'_> {
    ghost says = { λ free. free_row_of free.counts.kinds.now free.counts.nights.now free.today free.arrive
        free.nights };

    ghost is_readable = { λ _. FirstColumnIs IsKind };

    fn read(&self, _: Global, row: &Row) -> Result<FreeRow, LookFault> {
        let kind = kind_code(row, 0)?;
        Ok(free_row(
            self.counts.kinds,
            self.counts.nights,
            self.today,
            &kind,
            self.arrive,
            self.nights,
        ))
    }
}

impl FromRow for HouseRow {
    ghost of = { house_row_of };

    ghost is_readable = { IsInHouse };

    fn from_row(alloc: Global, row: &Row) -> Result<HouseRow, LookFault> {
        Ok(HouseRow {
            room: counted(row, 0)?,
            party: counted(row, 1)?,
            guest: guest(alloc, row, 2)?,
            kind: kind_code(row, 3)?,
            depart: day(row, 4)?,
            secured: bit(row, 5)?,
        })
    }
}

/// How many codes come after the one that the lock holds.
fn awaited(row: &Row) -> Result<u32, LookFault>
    ensures reads { IfOk result (λ n. n ≡ number_of (column row.now 4) - number_of (column row.now 3) - 1) }
    ensures unread { IfErr result (λ why. why ≢ LookFault.Memory → 5 ≤ length row.now
        → ¬ (IsCount (column row.now 3) × IsCount (column row.now 4))) }
{
    let lock_place = small_integer(row, 3)?;
    let codes = small_integer(row, 4)?;
    Ok(codes.saturating_sub(lock_place).saturating_sub(1))
}

impl FromRow for BehindRow {
    ghost of = { behind_row_of };

    ghost is_readable = { IsBehind };

    fn from_row(_: Global, row: &Row) -> Result<BehindRow, LookFault> {
        Ok(BehindRow {
            room: counted(row, 0)?,
            held: code(row, 1)?,
            current: code(row, 2)?,
            awaited: awaited(row)?,
        })
    }
}

impl FromRow for StatusRow {
    ghost of = { status_row_of };

    ghost is_readable = { IsOfStatus };

    fn from_row(_: Global, row: &Row) -> Result<StatusRow, LookFault> {
        Ok(StatusRow {
            room: counted(row, 0)?,
            kind: kind_code(row, 1)?,
            party: maybe_counted(row, 2)?,
            secured: bit(row, 5)?,
            awaited: awaited(row)?,
        })
    }
}

impl FromRow for InsideRow {
    ghost of = { inside_row_of };

    ghost is_readable = { IsOfInside };

    fn from_row(_: Global, row: &Row) -> Result<InsideRow, LookFault> {
        Ok(InsideRow {
            room: counted(row, 0)?,
            card: counted(row, 1)?,
            party: counted(row, 2)?,
        })
    }
}

/// When the last note of a room was taken, where it has one.
fn moment(row: &Row) -> Result<Option<Moment>, LookFault>
    ensures reads { IfOk result (λ at. at ≡ moment_in row.now) }
    ensures unread { IfErr result (λ why. why ≢ LookFault.Memory → 6 ≤ length row.now
        → ¬ IsMoment (column row.now 4) (column row.now 5)) }
{
    let Some(n) = maybe_integer(row, 4)? else {
        return Ok(None);
    };
    let day = values::day(n)?;
    let second = small_integer(row, 5)?;
    match Moment::new(day, second) {
        Some(moment) => Ok(Some(moment)),
        None => Err(LookFault::Store),
    }
}

impl FromRow for LockRow {
    ghost of = { lock_row_of };

    ghost is_readable = { IsOfLocks };

    fn from_row(_: Global, row: &Row) -> Result<LockRow, LookFault> {
        let room = counted(row, 0)?;
        let fit = counted(row, 1)?;
        let notes = small_integer(row, 2)?;
        let before = small_integer(row, 3)?;
        let noted = moment(row)?;
        let count = notes.saturating_sub(before);
        let at = match Count::new(count) {
            Some(_) => noted,
            None => None,
        };
        Ok(LockRow {
            room,
            fit,
            count,
            at,
        })
    }
}
