//! What is read from the columns that a statement shows.
ghost use Rattle.std.specs.Prelude.{◌≡◌, ◌≢◌, ◌<◌, ◌≤◌, ◌+◌, ◌==◌, length, IfOk, IfErr, string_bytes};
ghost use Rattle.sqlite.specs.Order.{Row as SqlRow, column};
ghost use Rattle.hotel_statements.specs.LookUps.{fault_of};
ghost use Rattle.hotel_statements.specs.Values.{number_of, option_of, text_of};
ghost use Rattle.hotel_statements.specs.Readable.{IsNatural, IsCount, IsText, IsNumber, IsCode, IsDay};
ghost use Rattle.hotel_statements.specs.Readable.{IsBit, IsKind, IsGuest, OrNull};
ghost use Rattle.hotel_statements.specs.Readable.{IsUnreadAt, IsState, IsAct};
ghost use Rattle.hotel_statements.specs.Readable.{IsStay, IsCodeRow, IsCard, IsFit, FirstColumnIs};
ghost use Rattle.hotel_statements.specs.Columns.{stay_row_of, code_row_of, card_row_of, fit_row_of};
ghost use Rattle.hotel_rows.specs.Stored.{state_of, act_of};

pub(crate) mod bare_rows;
pub(crate) mod list_rows;

use hotel_model::{CodeRow, FitRow};
use hotel_nights::{Day, Guest, KindCode, Stay, StayState};
use hotel_rows::values;
use keycard_rules::{Act, Card, Code, Link, LookFault, Number};
use sqlite::{Error, ErrorCode, Row};
use std::alloc::Global;

/// Why a look-up has no answer, where the store answered this.
pub fn fault_of(error: Error) -> LookFault
    ensures { result ≡ fault_of error }
{
    match error {
        Error::SqliteFailure(ErrorCode::OutOfMemory) => LookFault::Memory,
        _ => LookFault::Store,
    }
}

/// A value that a row of columns says.
///
/// A row that is not read is a failure of the store, but where memory for a text ran out.
pub(crate) trait FromRow: Sized {
    /// What a row with these columns says.
    ghost of: { SqlRow → Self };

    /// It says one.
    ghost is_readable: { SqlRow → Type 0 };

    fn from_row(alloc: Global, row: &Row) -> Result<Self, LookFault>
        ensures reads { IfOk result (λ value. value ≡ of row.now) }
        ensures unread { IfErr result (λ why. why ≢ LookFault.Memory → ¬ is_readable row.now) };
}

/// The number of a column.
fn integer(row: &Row, at: usize) -> Result<u64, LookFault>
    ensures reads { IfOk result (λ n. number_of (column row.now at) ≡ n) }
    ensures unread { IfErr result (IsUnreadAt IsNatural row.now at) }
{
    match row.get::<u64>(at) {
        Ok(n) => Ok(n),
        Err(error) => Err(fault_of(error)),
    }
}

/// The number of a column, at most the greatest `u32`.
fn small_integer(row: &Row, at: usize) -> Result<u32, LookFault>
    ensures reads { IfOk result (λ n. number_of (column row.now at) ≡ n) }
    ensures unread { IfErr result (IsUnreadAt IsCount row.now at) }
{
    match row.get::<u32>(at) {
        Ok(n) => Ok(n),
        Err(error) => Err(fault_of(error)),
    }
}

/// The number of a column that may be null.
fn maybe_integer(row: &Row, at: usize) -> Result<Option<u64>, LookFault>
    ensures reads { IfOk result (λ n. option_of (column row.now at) ≡ n) }
    ensures unread { IfErr result (IsUnreadAt (OrNull IsNatural) row.now at) }
{
    match row.get::<Option<u64>>(at) {
        Ok(n) => Ok(n),
        Err(error) => Err(fault_of(error)),
    }
}

/// The text of a column.
fn text(row: &Row, at: usize) -> Result<String, LookFault>
    ensures reads { IfOk result (λ text. text_of (column row.now at) ≡ string_bytes text) }
    ensures unread { IfErr result (IsUnreadAt IsText row.now at) }
{
    match row.get::<String>(at) {
        Ok(text) => Ok(text),
        Err(error) => Err(fault_of(error)),
    }
}

/// A number from 1 up to a greatest one.
fn counted<K, const MOST: u32>(row: &Row, at: usize) -> Result<Number<K, MOST>, LookFault>
    ensures reads { IfOk result (λ n. n ≡ number_of (column row.now at)) }
    ensures unread { IfErr result (IsUnreadAt (IsNumber MOST) row.now at) }
{
    let n = integer(row, at)?;
    values::counted(n)
}

/// A number from 1 up to a greatest one, or none where the column is null.
fn maybe_counted<K, const MOST: u32>(
    row: &Row,
    at: usize,
) -> Result<Option<Number<K, MOST>>, LookFault>
    ensures reads { IfOk result (λ n. n ≡ option_of (column row.now at)) }
    ensures unread { IfErr result (IsUnreadAt (OrNull (IsNumber MOST)) row.now at) }
{
    let Some(n) = maybe_integer(row, at)? else {
        return Ok(None);
    };
    Ok(Some(values::counted(n)?))
}

fn code(row: &Row, at: usize) -> Result<Code, LookFault>
    ensures reads { IfOk result (λ c. c ≡ number_of (column row.now at)) }
    ensures unread { IfErr result (IsUnreadAt IsCode row.now at) }
{
    let n = integer(row, at)?;
    match Code::new(n) {
        Some(code) => Ok(code),
        None => Err(LookFault::Store),
    }
}

fn link(row: &Row, at: usize) -> Result<Link, LookFault>
    requires { at < 100 }
    ensures reads { IfOk result (λ l. l ≡ record {
      old_code = number_of (column row.now at);
      new_code = number_of (column row.now (at + 1));
    }) }
    ensures unread { IfErr result (λ why. why ≢ LookFault.Memory → at + 1 < length row.now
        → ¬ (IsCode (column row.now at) × IsCode (column row.now (at + 1)))) }
{
    Ok(Link {
        old_code: code(row, at)?,
        new_code: code(row, at + 1)?,
    })
}

fn day(row: &Row, at: usize) -> Result<Day, LookFault>
    ensures reads { IfOk result (λ d. d ≡ number_of (column row.now at)) }
    ensures unread { IfErr result (IsUnreadAt IsDay row.now at) }
{
    let n = integer(row, at)?;
    values::day(n)
}

fn kind_code(row: &Row, at: usize) -> Result<KindCode, LookFault>
    ensures reads { IfOk result (λ k. k ≡ text_of (column row.now at)) }
    ensures unread { IfErr result (IsUnreadAt IsKind row.now at) }
{
    let text = text(row, at)?;
    values::kind_code(text.as_str())
}

fn guest(alloc: Global, row: &Row, at: usize) -> Result<Guest, LookFault>
    ensures reads { IfOk result (λ g. g ≡ text_of (column row.now at)) }
    ensures unread { IfErr result (IsUnreadAt IsGuest row.now at) }
{
    let text = text(row, at)?;
    values::guest(alloc, text.as_str())
}

/// Whether the column is 1 and not 0.
fn bit(row: &Row, at: usize) -> Result<bool, LookFault>
    ensures reads { IfOk result (λ b. b ≡ (number_of (column row.now at) == 1)) }
    ensures unread { IfErr result (IsUnreadAt IsBit row.now at) }
{
    match small_integer(row, at)? {
        0 => Ok(false),
        1 => Ok(true),
        _ => Err(LookFault::Store),
    }
}

/// How a stay stands, from its number and its room, which is set exactly where it is in house.
fn stay_state(row: &Row) -> Result<StayState, LookFault>
    ensures reads { IfOk result
        (λ state. state ≡ state_of (number_of (column row.now 5)) (option_of (column row.now 6))) }
    ensures unread { IfErr result (λ why. why ≢ LookFault.Memory → 7 ≤ length row.now
        → ¬ IsState (column row.now 5) (column row.now 6)) }
{
    let number = integer(row, 5)?;
    let room = maybe_integer(row, 6)?;
    values::stay_state(number, room)
}

/// What happened, from the number of the act, the card and the codes.
fn act(row: &Row) -> Result<Act, LookFault>
    ensures reads { IfOk result
        (λ act. act ≡ act_of (number_of (column row.now 2)) (option_of (column row.now 3))
        (number_of (column row.now 4)) (number_of (column row.now 5))) }
    ensures unread { IfErr result (λ why. why ≢ LookFault.Memory → 6 ≤ length row.now
        → ¬ (IsAct (column row.now 2) (column row.now 3) × IsCode (column row.now 4) × IsCode (column row.now 5))) }
{
    let number = small_integer(row, 2)?;
    let card = maybe_counted(row, 3)?;
    let link = link(row, 4)?;
    match (number, card) {
        (0, Some(card)) => Ok(Act::Entered { card, link }),
        (1, Some(card)) => Ok(Act::Left { card, link }),
        (2, None) => Ok(Act::Recoded {
            from: link.old_code,
            to: link.new_code,
        }),
        _ => Err(LookFault::Store),
    }
}

impl FromRow for Stay {
    ghost of = { stay_row_of };

    ghost is_readable = { IsStay };

    fn from_row(alloc: Global, row: &Row) -> Result<Stay, LookFault> {
        Ok(Stay {
            party: counted(row, 0)?,
            guest: guest(alloc, row, 1)?,
            kind: kind_code(row, 2)?,
            arrive: day(row, 3)?,
            depart: day(row, 4)?,
            state: stay_state(row)?,
        })
    }
}

impl FromRow for CodeRow {
    ghost of = { code_row_of };

    ghost is_readable = { IsCodeRow };

    fn from_row(_: Global, row: &Row) -> Result<CodeRow, LookFault> {
        Ok(CodeRow {
            room: counted(row, 1)?,
            place: small_integer(row, 2)?,
        })
    }
}

impl FromRow for Card {
    ghost of = { card_row_of };

    ghost is_readable = { IsCard };

    fn from_row(_: Global, row: &Row) -> Result<Card, LookFault> {
        Ok(Card {
            number: counted(row, 0)?,
            party: counted(row, 1)?,
            link: link(row, 2)?,
        })
    }
}

impl FromRow for FitRow {
    ghost of = { fit_row_of };

    ghost is_readable = { IsFit };

    fn from_row(_: Global, row: &Row) -> Result<FitRow, LookFault> {
        Ok(FitRow {
            room: counted(row, 0)?,
            fit: counted(row, 1)?,
            place: small_integer(row, 2)?,
            before: small_integer(row, 3)?,
        })
    }
}

/// A code alone.
impl FromRow for Code {
    ghost of = { λ v. number_of (column v 0) };

    ghost is_readable = { FirstColumnIs IsCode };

    fn from_row(_: Global, row: &Row) -> Result<Code, LookFault> {
        code(row, 0)
    }
}

/// A number alone.
impl<K, const MOST: u32> FromRow for Number<K, MOST> {
    ghost of = { λ v. number_of (column v 0) };

    ghost is_readable = { FirstColumnIs (IsNumber MOST) };

    fn from_row(_: Global, row: &Row) -> Result<Number<K, MOST>, LookFault> {
        counted(row, 0)
    }
}

/// A kind alone.
impl FromRow for KindCode {
    ghost of = { λ v. text_of (column v 0) };

    ghost is_readable = { FirstColumnIs IsKind };

    fn from_row(_: Global, row: &Row) -> Result<KindCode, LookFault> {
        kind_code(row, 0)
    }
}

/// A day that may be null.
impl FromRow for Option<Day> {
    ghost of = { λ v. option_of (column v 0) };

    ghost is_readable = { FirstColumnIs (OrNull IsDay) };

    fn from_row(_: Global, row: &Row) -> Result<Option<Day>, LookFault> {
        let Some(n) = maybe_integer(row, 0)? else {
            return Ok(None);
        };
        Ok(Some(values::day(n)?))
    }
}
