//! The rooms of each kind and the nights of the stays, counted from the rows of the tables.
ghost use Rattle.std.specs.Prelude.{◌≡◌, ◌+◌, ◌-◌, ◌^◌, ◌<◌, ◌≤◌, List, ℕ, None, true, false, map, string_bytes};
ghost use Rattle.std.specs.Prelude.{IfOk, OnOk};
ghost use Rattle.std.specs.Result.{IfErr};
ghost use Rattle.std.specs.List.{list_all, count_by};
ghost use Rattle.std.specs.Map.{keys_of, values_of};
ghost use Rattle.keycard_rules.specs.declared.issued.LookFault.TheVariants.{Store};
ghost use Rattle.hotel_nights.specs.{Block.one_if, FullNight.takes};
ghost use Rattle.hotel_nights.specs.Kinds.{is_kind};
ghost use Rattle.hotel_books.specs.KindRooms.{is_there, rooms_in};
ghost use Rattle.hotel_books.specs.NightIndex.{CountsNights, counted};
ghost use Rattle.hotel_rows.specs.Stored.{kind_text, stay_row, stay_entry};
ghost use Rattle.hotel_rows.specs.RowTests.{is_room_of_kind};
ghost use Rattle.hotel_rows.specs.Counts.{IsCountedOf, KnowsKinds, are_rooms_of, tells_stay};

use crate::damage::numbers::{number, number_if};
use crate::stored::{PlainKind, PlainRoom, PlainStay, Stored};
use crate::values::{day, kind_code, stay_state};
use hotel_books::{KindRooms, NightIndex};
use keycard_rules::{LookFault, Memory};
use std::alloc::Global;

/// What books keep in memory of their rows.
#[derive(Drop)]
pub struct Counts {
    pub kinds: KindRooms,
    pub nights: NightIndex,
}

/// One more row of the table of stays is counted at the nights that it takes.
fn count_stay(nights: &mut NightIndex, plain: &PlainStay) -> Result<(), LookFault>
    ensures ok { OnOk result ((kind : List ℕ) (d : ℕ) → counted nights.old kind d < 2 ^ 63
        → counted nights.new kind d ≡ counted nights.old kind d + one_if (takes kind d (stay_row plain.now))) }
    ensures err { IfErr result (λ why. why ≡ Store → tells_stay plain.now ≡ false) }
{
    let state = stay_state(number(plain.state), number_if(plain.room))?;
    if !state.is_standing() {
        return Ok(());
    }
    let kind = kind_code(plain.kind.as_str())?;
    let arrive = day(number(plain.arrive))?;
    let depart = day(number(plain.depart))?;
    match nights.add_span(&kind, arrive, depart) {
        Ok(()) => Ok(()),
        Err(_) => Err(LookFault::Memory),
    }
}

/// The kinds, with no rooms.
fn name_kinds(alloc: Global, kinds: &[PlainKind]) -> Result<KindRooms, LookFault>
    ensures none { IfOk result (λ counts. (kind : List ℕ) → rooms_in counts kind ≡ 0) }
    ensures known { IfOk result (λ counts. KnowsKinds counts kinds.now) }
    ensures err { IfErr result (λ why. why ≡ Store → list_all (λ kind. is_kind (kind_text kind)) kinds.now ≡ false) }
{
    let mut counts = KindRooms::empty(alloc);
    for i in 0..kinds.len() {
        let kind = kind_code(kinds[i].kind.as_str())?;
        let Ok(()) = counts.know_kind(kind) else {
            return Err(LookFault::Memory);
        };
    }
    Ok(counts)
}

/// One more room of its kind, where the kind is there and has fewer rooms than the greatest count.
fn add_room(counts: &mut KindRooms, room: &PlainRoom) -> Result<(), LookFault>
    ensures rooms { OnOk result ((kind : List ℕ) → rooms_in counts.new kind ≡ rooms_in counts.old kind + one_if
        (is_room_of_kind kind room.now)) }
    ensures kinds { OnOk result (keys_of counts.new ≡ keys_of counts.old) }
    ensures err { IfErr result (λ why. why ≡ Store × (is_kind (string_bytes room.now.kind) ≡ true
        → is_there counts.old (string_bytes room.now.kind) ≡ true
        → 2 ^ 32 - 1 ≤ rooms_in counts.old (string_bytes room.now.kind))) }
{
    let kind = kind_code(room.kind.as_str())?;
    if !counts.has(&kind) {
        return Err(LookFault::Store);
    }
    if counts.rooms(&kind) == u32::MAX {
        return Err(LookFault::Store);
    }
    counts.add_room(&kind);
    Ok(())
}

/// How many rooms each kind has.
fn count_rooms(
    alloc: Global,
    kinds: &[PlainKind],
    rooms: &[PlainRoom],
) -> Result<KindRooms, LookFault>
    ensures rooms { IfOk result (λ counts. (kind : List ℕ)
        → rooms_in counts kind ≡ count_by (is_room_of_kind kind) rooms.now) }
    ensures known { IfOk result (λ counts. KnowsKinds counts kinds.now) }
    ensures err { IfErr result (λ why. why ≡ Store → are_rooms_of kinds.now rooms.now ≡ false) }
{
    let mut counts = name_kinds(alloc, kinds)?;
    for i in 0..rooms.len() {
        add_room(&mut counts, &rooms[i])?;
    }
    Ok(counts)
}

/// How many standing stays take each night.
fn count_nights(alloc: Global, stored: &Stored) -> Result<NightIndex, LookFault>
    ensures ok { IfOk result (λ nights. CountsNights nights (values_of (map stay_entry stored.now.stay.items))) }
    ensures err { IfErr result (λ why. why ≡ Store → list_all tells_stay stored.now.stay.items ≡ false) }
{
    let mut nights = NightIndex::empty(alloc);
    for i in 0..stored.stay.len() {
        count_stay(&mut nights, &stored.stay[i])?;
    }
    Ok(nights)
}

/// What is counted of the rows, which can be counted.
pub(crate) fn counts_of(alloc: Global, stored: &Stored) -> Result<Counts, Memory>
    requires rooms { are_rooms_of stored.now.kind.items stored.now.room.items ≡ true }
    requires stays { list_all tells_stay stored.now.stay.items ≡ true }
    ensures { IfOk result (IsCountedOf stored.now) }
{
    let kinds = match count_rooms(alloc, &stored.kind, &stored.room) {
        Ok(kinds) => kinds,
        Err(LookFault::Memory) => return Err(Memory),
        Err(LookFault::Store) => unreachable!(),
    };
    match count_nights(alloc, stored) {
        Ok(nights) => Ok(Counts { kinds, nights }),
        Err(LookFault::Memory) => Err(Memory),
        Err(LookFault::Store) => unreachable!(),
    }
}
