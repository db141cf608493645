//! The rules of meta and of the table of kinds.
ghost use Rattle.std.specs.Prelude.{◌≡◌, ℕ, List, map, true, false, IfOk, MatchOption, bytes_eq};
ghost use Rattle.std.specs.List.{list_all, list_any};
ghost use Rattle.std.specs.Ordering.{nat_cmp, is_lt};
ghost use Rattle.std.specs.Cmp.Lexicographic.{slice_cmp};
ghost use Rattle.hotel_nights.specs.Kinds.{is_kind};
ghost use Rattle.hotel_model.specs.SoundRooms.{are_in_order};
ghost use Rattle.hotel_rows.specs.Stored.{kind_text};
ghost use Rattle.hotel_rows.specs.Damage.{kind_holds, meta_holds};
ghost use Rattle.hotel_rows.specs.Known.{KindsOf};
ghost use Rattle.hotel_rows.specs.RowTests.{HasKinds};

use crate::damage::numbers::number_if;
use crate::stored::{PlainKind, Stored};
use hotel_nights::KindCode;
use keycard_rules::{LAST_DAY, Memory};
use std::alloc::Global;
use std::collections::BTreeMap;

/// The kinds of the rows.
pub(crate) type Kinds = BTreeMap<KindCode, u32>;

/// Whether the rules of meta hold.
pub(crate) fn meta_holds(stored: &Stored) -> bool
    ensures { result ≡ meta_holds stored.now }
{
    let Some(day) = number_if(stored.day) else {
        return stored.kind.is_empty();
    };
    day <= u64::from(LAST_DAY)
}

fn is_before(a: &PlainKind, b: &PlainKind) -> bool
    ensures { result ≡ is_lt (slice_cmp nat_cmp (kind_text a.now) (kind_text b.now)) }
{
    a.kind.as_bytes().cmp(b.kind.as_bytes()).is_lt()
}

/// Whether each kind comes before the next.
pub(crate) fn kinds_rise(kinds: &[PlainKind]) -> bool
    ensures { result ≡ are_in_order (slice_cmp nat_cmp) (map kind_text kinds.now) }
{
    for i in 1..kinds.len() {
        if !is_before(&kinds[i - 1], &kinds[i]) {
            return false;
        }
    }
    true
}

/// The kinds, where each reads as one.
pub(crate) fn read_kinds(alloc: Global, kinds: &[PlainKind]) -> Result<Option<Kinds>, Memory>
    ensures { IfOk result (λ read. MatchOption read (list_all is_kind (map kind_text kinds.now) ≡ false)
        (λ known. (list_all is_kind (map kind_text kinds.now) ≡ true)
        × HasKinds known.entries (map kind_text kinds.now))) }
{
    let mut known = BTreeMap::new(alloc);
    for i in 0..kinds.len() {
        let Some(kind) = KindCode::read(kinds[i].kind.as_bytes()) else {
            return Ok(None);
        };
        let Ok(_) = known.insert(kind, 0) else {
            return Err(Memory);
        };
    }
    Ok(Some(known))
}

/// Whether a text is one of the kinds.
pub(crate) fn has_kind(known: &Kinds, text: &str) -> bool
    ensures { (kinds : List (List ℕ)) → list_all is_kind kinds ≡ true → HasKinds known.now.entries kinds
        → result ≡ list_any (λ k. bytes_eq k text.now) kinds }
{
    let Some(kind) = KindCode::read(text.as_bytes()) else {
        return false;
    };
    known.contains_key(&kind)
}

/// The kinds, where the rules of their table hold.
pub(crate) fn kinds_hold(alloc: Global, stored: &Stored) -> Result<Option<Kinds>, Memory>
    ensures { IfOk result (λ read. MatchOption read (kind_holds stored.now ≡ false)
        (λ known. (kind_holds stored.now ≡ true) × KindsOf known.entries stored.now)) }
{
    if !kinds_rise(&stored.kind) {
        return Ok(None);
    }
    read_kinds(alloc, &stored.kind)
}
