//! The look-ups of the books, each over the connection: one keyed statement, but two for a room, a note and the next
//! numbers, and for the stays of a kind one that reads all stays.
ghost use Rattle.std.specs.Prelude.{◌≡◌, ◌<◌, ◌^◌, not, length, true, option_map, unwrap_or};
ghost use Rattle.std.specs.Map.{keys_of, lookup};
ghost use Rattle.std.specs.BTreeMap.{is_at};
ghost use Rattle.hotel_model.specs.SoundRooms.{count_up};
ghost use Rattle.hotel_statements.specs.Tables.{rows_in, bare_rooms_in, bare_notes_in};
ghost use Rattle.sqlite.specs.Held.{state};
ghost use Rattle.hotel_model.specs.Rows.{has_kind, at_number, fit_at, fits_at};
ghost use Rattle.hotel_model.specs.Words.{is_one_of, pair_cmp};
ghost use Rattle.hotel_model.specs.Guests.{are_none};
ghost use Rattle.hotel_model.specs.Refinement.Lookups.{room_at, codes_in, code_place, code_at, stay_at, stays_of_kind};
ghost use Rattle.hotel_model.specs.Refinement.Lookups.{card_at, inside_at, note_at, number_after};
ghost use Rattle.hotel_books.specs.Books.Reads.{placed_row};
ghost use Rattle.hotel_statements.specs.Books.{IsBooks, IsKept};
ghost use Rattle.hotel_statements.specs.Failures.{BareNoteFails, BareRoomFails, CardFails, CodeAtFails, CodeFails};
ghost use Rattle.hotel_statements.specs.Failures.{DayFails, FitFails, FitsFail, HasInsideFails};
ghost use Rattle.hotel_statements.specs.Failures.{InsideFails, IsInsideFails, KindFails, LastCardFails, LastPartyFails};
ghost use Rattle.hotel_statements.specs.Failures.{NoteFails, NumbersFail, RoomFails, StayFails, StaysFail};
ghost use Rattle.hotel_statements.specs.LookUps.{Selects, SelectsIn, known_by_room, numbered_fit, next_numbers_of};
ghost use Rattle.hotel_statements.specs.Ready.{IsReady};

use crate::from_row::bare_rows::{BareNote, BareRoom, note_with, room_with};
use crate::from_row::fault_of;
use crate::look::{look, look_all};
use crate::number::{number, small, text};
use crate::texts::{
    SELECT_ANY_INSIDE, SELECT_CARD, SELECT_CARDS_INSIDE, SELECT_CODE, SELECT_CODE_AT, SELECT_DAY,
    SELECT_FIT, SELECT_FITS, SELECT_INSIDE, SELECT_KIND, SELECT_LAST_CARD, SELECT_LAST_PARTY,
    SELECT_NOTE, SELECT_ROOM, SELECT_STAY, SELECT_STAYS_OF_KIND,
};
use hotel_model::{CodeRow, FitRow, NextNumbers, RoomRow};
use hotel_nights::{Day, KindCode, Stay};
use keycard_rules::{
    Card, CardNo, Code, Count, FitNo, LAST_NUMBER, LockNote, LookFault, Number, PartyNo, RoomNo,
};
use sqlite::{Alter, Connection};
use std::alloc::Global;

/// What the statements of a change are told of its room; 0 is what they don't need.
#[derive(Clone, Copy, Debug, PartialEq, Eq)]
pub struct RoomCounts {
    /// How many codes stand there, of a change that adds one.
    pub codes: u32,
    /// How many notes were taken there, of a change that adds a code.
    pub notes: u32,
    /// How many notes were taken there before the fit of the note that a change adds.
    pub before: u32,
}

/// Asks whether a connection answers: a statement is compiled, and none is run.
///
/// A connection that a failure shut answers an error, and nothing is left by that.
pub fn ready<S: Alter>(conn: &mut Connection<S>) -> Result<(), LookFault>
    requires { IsBooks (state S.Store conn.old) }
    ensures { IsReady (state S.Store conn.old) (state S.Store conn.new) result }
{
    if let Err(error) = conn.prepare(SELECT_DAY) {
        return Err(fault_of(error));
    }
    Ok(())
}

/// The day of the desk, where one was set.
pub fn day<S: Alter>(alloc: Global, conn: &mut Connection<S>) -> Result<Option<Day>, LookFault>
    requires { IsBooks (state S.Store conn.old) }
    ensures { Selects DayFails (λ a. a) (λ rows. rows.day) (state S.Store conn.old) (state S.Store conn.new) result }
{
    let day: Option<Option<Day>> = look(alloc, conn, SELECT_DAY, &[small(1)])?;
    Ok(day.unwrap_or(None))
}

/// Whether a kind is there.
pub fn kind<S: Alter>(
    alloc: Global,
    conn: &mut Connection<S>,
    kind: &KindCode,
) -> Result<bool, LookFault>
    requires { IsBooks (state S.Store conn.old) }
    ensures { Selects (KindFails kind.now) (λ a. a) (λ rows. has_kind rows kind.now)
        (state S.Store conn.old) (state S.Store conn.new) result }
{
    let kind: Option<KindCode> = look(alloc, conn, SELECT_KIND, &[text(kind.as_bytes())])?;
    Ok(kind.is_some())
}

/// The fits of a room, in order.
pub fn fits_of_room<S: Alter>(
    alloc: Global,
    conn: &mut Connection<S>,
    room: RoomNo,
) -> Result<Vec<FitRow>, LookFault>
    requires { IsBooks (state S.Store conn.old) }
    ensures { Selects (FitsFail room) (λ v. v.items) (λ rows. fits_at rows.fits room)
        (state S.Store conn.old) (state S.Store conn.new) result }
{
    look_all(alloc, conn, SELECT_FITS, &[small(room.value())])
}

/// A fit of a room by its number.
pub fn fit<S: Alter>(
    alloc: Global,
    conn: &mut Connection<S>,
    room: RoomNo,
    number: FitNo,
) -> Result<Option<FitRow>, LookFault>
    requires { IsBooks (state S.Store conn.old) }
    ensures { Selects (FitFails room number) (λ a. a) (λ rows. fit_at rows room number)
        (state S.Store conn.old) (state S.Store conn.new) result }
{
    look(
        alloc,
        conn,
        SELECT_FIT,
        &[small(room.value()), small(number.value())],
    )
}

/// A room by its number, as its table has it.
pub(crate) fn bare_room<S: Alter>(
    alloc: Global,
    conn: &mut Connection<S>,
    room: RoomNo,
) -> Result<Option<BareRoom>, LookFault>
    requires { IsBooks (state S.Store conn.old) }
    ensures { SelectsIn (BareRoomFails room) (λ db. at_number (bare_rooms_in db) room)
        (state S.Store conn.old) (state S.Store conn.new) result }
{
    look(alloc, conn, SELECT_ROOM, &[small(room.value())])
}

/// A room by its number, with the last of its fits.
pub fn room<S: Alter>(
    alloc: Global,
    conn: &mut Connection<S>,
    room: RoomNo,
) -> Result<Option<RoomRow>, LookFault>
    requires { IsBooks (state S.Store conn.old) }
    ensures { Selects (RoomFails room) (λ a. a) (λ rows. room_at rows room)
        (state S.Store conn.old) (state S.Store conn.new) result }
{
    let fits = fits_of_room(alloc, conn, room)?;
    let Some(bare) = bare_room(alloc, conn, room)? else {
        return Ok(None);
    };
    Ok(Some(room_with(&bare, &fits)?))
}

/// What the row of a room tells the statements of a change; no fit is read.
pub fn known_by_room<S: Alter>(
    alloc: Global,
    conn: &mut Connection<S>,
    room: RoomNo,
) -> Result<Option<RoomCounts>, LookFault>
    requires { IsBooks (state S.Store conn.old) }
    ensures { Selects (BareRoomFails room) (λ a. a) (λ rows. option_map known_by_room (room_at rows room))
        (state S.Store conn.old) (state S.Store conn.new) result }
{
    let Some(bare) = bare_room(alloc, conn, room)? else {
        return Ok(None);
    };
    Ok(Some(bare.known()))
}

/// The stay of a party.
pub fn stay<S: Alter>(
    alloc: Global,
    conn: &mut Connection<S>,
    party: PartyNo,
) -> Result<Option<Stay>, LookFault>
    requires { IsBooks (state S.Store conn.old) }
    ensures { Selects (StayFails party) (λ a. a) (λ rows. stay_at rows party)
        (state S.Store conn.old) (state S.Store conn.new) result }
{
    look(alloc, conn, SELECT_STAY, &[small(party.value())])
}

/// The row of a code.
fn row_of_code<S: Alter>(
    alloc: Global,
    conn: &mut Connection<S>,
    code: Code,
) -> Result<Option<CodeRow>, LookFault>
    requires { IsBooks (state S.Store conn.old) }
    ensures { Selects (CodeFails code) (λ a. a) (λ rows. code_place rows code)
        (state S.Store conn.old) (state S.Store conn.new) result }
{
    look(alloc, conn, SELECT_CODE, &[number(code.value())])
}

/// The room and the place at which a code stands.
pub fn code_place<S: Alter>(
    alloc: Global,
    conn: &mut Connection<S>,
    code: Code,
) -> Result<Option<(RoomNo, u32)>, LookFault>
    requires { IsBooks (state S.Store conn.old) }
    ensures { Selects (CodeFails code) (option_map placed_row) (λ rows. code_place rows code)
        (state S.Store conn.old) (state S.Store conn.new) result }
{
    let Some(row) = row_of_code(alloc, conn, code)? else {
        return Ok(None);
    };
    Ok(Some((row.room, row.place)))
}

/// A card by its number.
pub fn card<S: Alter>(
    alloc: Global,
    conn: &mut Connection<S>,
    number: CardNo,
) -> Result<Option<Card>, LookFault>
    requires { IsBooks (state S.Store conn.old) }
    ensures { Selects (CardFails number) (λ a. a) (λ rows. card_at rows number)
        (state S.Store conn.old) (state S.Store conn.new) result }
{
    look(alloc, conn, SELECT_CARD, &[small(number.value())])
}

/// A note of a room by its number among all of the room, as its table has it.
fn bare_note<S: Alter>(
    alloc: Global,
    conn: &mut Connection<S>,
    room: RoomNo,
    at: u64,
) -> Result<Option<BareNote>, LookFault>
    requires books { IsBooks (state S.Store conn.old) }
    requires low { at < 2 ^ 63 }
    ensures { SelectsIn (BareNoteFails room at) (λ db. lookup (is_at (pair_cmp (room, at))) (bare_notes_in db))
        (state S.Store conn.old) (state S.Store conn.new) result }
{
    look(alloc, conn, SELECT_NOTE, &[small(room.value()), number(at)])
}

/// The first of some fits that has this number.
fn numbered(fits: &[FitRow], number: FitNo) -> Option<FitRow>
    ensures { result ≡ numbered_fit fits.now number }
{
    for i in 0..fits.len() {
        let fit = fits[i];
        if fit.fit == number {
            return Some(fit);
        }
    }
    None
}

/// The note of a count of a room's fit.
pub fn note<S: Alter>(
    alloc: Global,
    conn: &mut Connection<S>,
    room: RoomNo,
    fit: FitNo,
    count: Count,
) -> Result<Option<LockNote>, LookFault>
    requires { IsBooks (state S.Store conn.old) }
    ensures { Selects (NoteFails room) (λ a. a) (λ rows. note_at rows room fit count)
        (state S.Store conn.old) (state S.Store conn.new) result }
{
    let fits = fits_of_room(alloc, conn, room)?;
    let Some(of) = numbered(&fits, fit) else {
        return Ok(None);
    };
    let number = u64::from(of.before) + u64::from(count.value());
    let Some(bare) = bare_note(alloc, conn, room, number)? else {
        return Ok(None);
    };
    let note = note_with(&bare, &fits)?;
    if note.fit == fit {
        Ok(Some(note))
    } else {
        Ok(None)
    }
}

/// Whether a card is inside a room.
pub fn is_inside<S: Alter>(
    alloc: Global,
    conn: &mut Connection<S>,
    room: RoomNo,
    number: CardNo,
) -> Result<bool, LookFault>
    requires { IsBooks (state S.Store conn.old) }
    ensures { Selects (IsInsideFails room number) (λ a. a) (λ rows. is_one_of number (inside_at rows room))
        (state S.Store conn.old) (state S.Store conn.new) result }
{
    let card: Option<CardNo> = look(
        alloc,
        conn,
        SELECT_INSIDE,
        &[small(room.value()), small(number.value())],
    )?;
    Ok(card.is_some())
}

/// Whether any card is inside a room.
pub fn has_inside<S: Alter>(
    alloc: Global,
    conn: &mut Connection<S>,
    room: RoomNo,
) -> Result<bool, LookFault>
    requires { IsBooks (state S.Store conn.old) }
    ensures { Selects (HasInsideFails room) (λ a. a) (λ rows. not (are_none (inside_at rows room)))
        (state S.Store conn.old) (state S.Store conn.new) result }
{
    let card: Option<CardNo> = look(alloc, conn, SELECT_ANY_INSIDE, &[small(room.value())])?;
    Ok(card.is_some())
}

/// The code at a place of a room.
pub fn code_at<S: Alter>(
    alloc: Global,
    conn: &mut Connection<S>,
    room: RoomNo,
    place: u32,
) -> Result<Option<Code>, LookFault>
    requires { IsBooks (state S.Store conn.old) }
    ensures { Selects (CodeAtFails room place) (λ a. a) (λ rows. code_at rows room place)
        (state S.Store conn.old) (state S.Store conn.new) result }
{
    look(
        alloc,
        conn,
        SELECT_CODE_AT,
        &[small(room.value()), small(place)],
    )
}

/// The stays of a kind, by the party's number.
pub fn stays_of_kind<S: Alter>(
    alloc: Global,
    conn: &mut Connection<S>,
    kind: &KindCode,
) -> Result<Vec<Stay>, LookFault>
    requires { IsBooks (state S.Store conn.old) }
    ensures { Selects (StaysFail kind.now) (λ v. v.items) (λ rows. stays_of_kind rows kind.now)
        (state S.Store conn.old) (state S.Store conn.new) result }
{
    look_all(alloc, conn, SELECT_STAYS_OF_KIND, &[text(kind.as_bytes())])
}

/// The numbers of the cards inside a room, in order.
pub fn inside<S: Alter>(
    alloc: Global,
    conn: &mut Connection<S>,
    room: RoomNo,
) -> Result<Vec<CardNo>, LookFault>
    requires { IsBooks (state S.Store conn.old) }
    ensures { Selects (InsideFails room) (λ v. v.items) (λ rows. inside_at rows room)
        (state S.Store conn.old) (state S.Store conn.new) result }
{
    look_all(alloc, conn, SELECT_CARDS_INSIDE, &[small(room.value())])
}

/// Whether a code was issued.
pub fn is_issued<S: Alter>(
    alloc: Global,
    conn: &mut Connection<S>,
    number: Code,
) -> Result<bool, LookFault>
    requires { IsBooks (state S.Store conn.old) }
    ensures { Selects (CodeFails number) (λ a. a) (λ rows. is_one_of number (codes_in rows))
        (state S.Store conn.old) (state S.Store conn.new) result }
{
    let place = row_of_code(alloc, conn, number)?;
    Ok(place.is_some())
}

/// The number of the last party, where there is one.
fn last_party<S: Alter>(
    alloc: Global,
    conn: &mut Connection<S>,
) -> Result<Option<PartyNo>, LookFault>
    requires books { IsBooks (state S.Store conn.old) }
    requires numbered { IsKept (state S.Store conn.old)
        → count_up 1 (keys_of (rows_in (state S.Store conn.old).now.trees).stays) ≡ true }
    ensures { Selects LastPartyFails (λ o. unwrap_or o 0) (λ rows. length rows.stays)
        (state S.Store conn.old) (state S.Store conn.new) result }
{
    look(alloc, conn, SELECT_LAST_PARTY, &[])
}

/// The number of the last card, where there is one.
fn last_card<S: Alter>(alloc: Global, conn: &mut Connection<S>) -> Result<Option<CardNo>, LookFault>
    requires books { IsBooks (state S.Store conn.old) }
    requires numbered { IsKept (state S.Store conn.old)
        → count_up 1 (keys_of (rows_in (state S.Store conn.old).now.trees).cards) ≡ true }
    ensures { Selects LastCardFails (λ o. unwrap_or o 0) (λ rows. length rows.cards)
        (state S.Store conn.old) (state S.Store conn.new) result }
{
    look(alloc, conn, SELECT_LAST_CARD, &[])
}

/// The number after the last one, up to the last number.
fn number_after<K>(last: Option<Number<K, LAST_NUMBER>>) -> Option<Number<K, LAST_NUMBER>>
    ensures { result ≡ number_after (unwrap_or last 0) }
{
    match last {
        Some(number) => number.next(),
        None => Number::new(1),
    }
}

/// The numbers that the next party and the next card are given.
pub fn next_numbers<S: Alter>(
    alloc: Global,
    conn: &mut Connection<S>,
) -> Result<NextNumbers, LookFault>
    requires books { IsBooks (state S.Store conn.old) }
    requires parties { IsKept (state S.Store conn.old) → count_up 1
        (keys_of (rows_in (state S.Store conn.old).now.trees).stays) ≡ true }
    requires cards { IsKept (state S.Store conn.old) → count_up 1
        (keys_of (rows_in (state S.Store conn.old).now.trees).cards) ≡ true }
    ensures { Selects NumbersFail (λ a. a) next_numbers_of (state S.Store conn.old) (state S.Store conn.new) result }
{
    let party = last_party(alloc, conn)?;
    let card = last_card(alloc, conn)?;
    Ok(NextNumbers {
        party: number_after(party),
        card: number_after(card),
    })
}
