//! Numbers and texts as the parameters of statements.
ghost use Rattle.std.specs.Prelude.{◌≡◌, ◌<◌, ◌^◌};
ghost use Rattle.sqlite.specs.Value.{owned};
ghost use Rattle.sqlite_value.specs.declared.value.Value.TheVariants.{Text};
ghost use Rattle.hotel_statements.specs.Values.{int, maybe_int};
ghost use Rattle.hotel_statements.specs.Columns.{bit_of, state_number};
ghost use Rattle.hotel_statements.specs.Columns as columns;
ghost use Rattle.hotel_model.specs.Stays.{room_of_state};

use hotel_nights::{Day, StayState};
use keycard_rules::{Act, Code, Number};
use sqlite::types::ValueRef;

/// A number as a parameter.
pub(crate) fn number<'a>(n: u64) -> ValueRef<'a>
    requires { n < 2 ^ 63 }
    ensures { owned result ≡ int n }
{
    ValueRef::Int(n as i64)
}

/// A smaller number as a parameter.
pub(crate) fn small<'a>(n: u32) -> ValueRef<'a>
    ensures { owned result ≡ int n }
{
    ValueRef::Int(i64::from(n))
}

/// A number of its kind as a parameter, or null where there is none.
pub(crate) fn maybe<'a, K, const MOST: u32>(n: Option<Number<K, MOST>>) -> ValueRef<'a>
    ensures { owned result ≡ maybe_int n }
{
    match n {
        Some(n) => small(n.value()),
        None => ValueRef::Null,
    }
}

/// 1 for true and 0 for false, as a parameter.
pub(crate) fn bit<'a>(b: bool) -> ValueRef<'a>
    ensures { owned result ≡ int (bit_of b) }
{
    if b { small(1) } else { small(0) }
}

/// A number of its kind as a parameter.
pub(crate) fn numbered<'a, K, const MOST: u32>(n: Number<K, MOST>) -> ValueRef<'a>
    ensures { owned result ≡ int n }
{
    small(n.value())
}

/// A code as a parameter.
pub(crate) fn coded<'a>(code: Code) -> ValueRef<'a>
    ensures { owned result ≡ int code }
{
    number(code.value())
}

/// A day as a parameter.
pub(crate) fn dated<'a>(day: Day) -> ValueRef<'a>
    ensures { owned result ≡ int day }
{
    small(u32::from(day.number()))
}

/// The number of how a stay stands, as a parameter.
pub(crate) fn standing<'a>(state: &StayState) -> ValueRef<'a>
    ensures { owned result ≡ int (state_number state.now) }
{
    match *state {
        StayState::Booked => small(0),
        StayState::InHouse(_) => small(1),
        StayState::Done => small(2),
        StayState::Cancelled => small(3),
    }
}

/// The room of a stay in house as a parameter, or null.
pub(crate) fn room_of<'a>(state: &StayState) -> ValueRef<'a>
    ensures { owned result ≡ maybe_int (room_of_state state.now) }
{
    match *state {
        StayState::InHouse(room) => numbered(room),
        _ => ValueRef::Null,
    }
}

/// The number of what happened, as a parameter.
pub(crate) fn act_number<'a>(act: &Act) -> ValueRef<'a>
    ensures { owned result ≡ int (columns.act_number act.now) }
{
    match *act {
        Act::Entered { .. } => small(0),
        Act::Left { .. } => small(1),
        Act::Recoded { .. } => small(2),
    }
}

/// The card of what happened as a parameter, or null where staff recoded the lock.
pub(crate) fn act_card<'a>(act: &Act) -> ValueRef<'a>
    ensures { owned result ≡ maybe_int (columns.act_card act.now) }
{
    match *act {
        Act::Entered { card, .. } => numbered(card),
        Act::Left { card, .. } => numbered(card),
        Act::Recoded { .. } => ValueRef::Null,
    }
}

/// The first code of what happened, as a parameter.
pub(crate) fn act_first<'a>(act: &Act) -> ValueRef<'a>
    ensures { owned result ≡ int (columns.act_first act.now) }
{
    match *act {
        Act::Entered { link, .. } => coded(link.old_code),
        Act::Left { link, .. } => coded(link.old_code),
        Act::Recoded { from, .. } => coded(from),
    }
}

/// The second code of what happened, as a parameter.
pub(crate) fn act_second<'a>(act: &Act) -> ValueRef<'a>
    ensures { owned result ≡ int (columns.act_second act.now) }
{
    match *act {
        Act::Entered { link, .. } => coded(link.new_code),
        Act::Left { link, .. } => coded(link.new_code),
        Act::Recoded { to, .. } => coded(to),
    }
}

/// A text as a parameter.
pub(crate) fn text(bytes: &[u8]) -> ValueRef<'_>
    ensures { owned result ≡ Text bytes.now }
{
    ValueRef::Text(bytes)
}
