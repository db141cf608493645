//! Rooms and notes as their tables have them, and what they are with the fits of their rooms.
ghost use Rattle.std.specs.Prelude.{◌≡◌, None, IfOk, IfErr};
ghost use Rattle.hotel_model.specs.Rows.{last_fit};
ghost use Rattle.hotel_rows.specs.Joined.{with_last, with_count, fit_of_number};
ghost use Rattle.hotel_statements.specs.Columns.{room_row_of, note_row_of};
ghost use Rattle.hotel_statements.specs.LookUps.{known_by_room};
ghost use Rattle.hotel_statements.specs.Readable.{IsRoom, IsNote, IsUnderFits};
ghost use Rattle.hotel_statements.specs.Failures.{IsNoteUnder};
ghost use Rattle.hotel_statements.specs.Walks.{note_under};

use super::list_rows::RowReader;
use super::{FromRow, act, bit, counted, day, kind_code, maybe_counted, small_integer};
use crate::look_ups::RoomCounts;
use hotel_model::{FitRow, RoomRow};
use hotel_nights::KindCode;
use keycard_rules::{Act, Count, LockNote, LookFault, PartyNo, RoomNo};
use sqlite::Row;
use std::alloc::Global;
use std::marker::Model;

/// A room, without its fit.
#[derive(Drop)]
pub(crate) struct BareRoom {
    room: RoomNo,
    kind: KindCode,
    lock_place: u32,
    codes: u32,
    secured: bool,
    party: Option<PartyNo>,
    notes: u32,
}

impl Model for BareRoom {
    ghost use Rattle.hotel_model.specs.declared.rows.RoomRow.{RoomRow};

    ghost Value = { RoomRow };

    ghost view = { λ r. record {
      room = r.room;
      kind = r.kind;
      lock_place = r.lock_place;
      codes = r.codes;
      secured = r.secured;
      party = r.party;
      notes = r.notes;
      fit = 0;
      before = 0;
    } };
}

impl BareRoom {
    /// The place of the code that the lock holds.
    pub(crate) fn lock_place(&self) -> u32
        ensures { result ≡ self.now.lock_place }
    {
        self.lock_place
    }

    /// What it tells the statements of a change.
    pub(crate) fn known(&self) -> RoomCounts
        ensures { result ≡ known_by_room self.now }
    {
        RoomCounts {
            codes: self.codes,
            notes: self.notes,
            before: 0,
        }
    }
}

/// A note under its number among all of its room, without its fit and count.
#[derive(Drop)]
pub(crate) struct BareNote {
    room: RoomNo,
    number: u32,
    act: Act,
    day: u16,
    second: u32,
}

impl Model for BareNote {
    ghost use Rattle.keycard_rules.specs.Note.{Note};

    ghost Value = { Note };

    ghost view = { λ n. record {
      room = n.room;
      fit = 0;
      count = n.number;
      act = n.act;
      day = n.day;
      second = n.second;
    } };
}

impl FromRow for BareRoom {
    ghost of = { room_row_of };

    ghost is_readable = { IsRoom };

    fn from_row(_: Global, row: &Row) -> Result<BareRoom, LookFault> {
        Ok(BareRoom {
            room: counted(row, 0)?,
            kind: kind_code(row, 1)?,
            lock_place: small_integer(row, 2)?,
            codes: small_integer(row, 3)?,
            secured: bit(row, 4)?,
            party: maybe_counted(row, 5)?,
            notes: small_integer(row, 6)?,
        })
    }
}

impl FromRow for BareNote {
    ghost of = { note_row_of };

    ghost is_readable = { IsNote };

    fn from_row(_: Global, row: &Row) -> Result<BareNote, LookFault> {
        Ok(BareNote {
            room: counted(row, 0)?,
            number: small_integer(row, 1)?,
            act: act(row)?,
            day: day(row, 6)?.number(),
            second: small_integer(row, 7)?,
        })
    }
}

/// The last of some fits.
fn last_of(fits: &[FitRow]) -> Option<FitRow>
    ensures { result ≡ last_fit fits.now }
{
    let mut last = None;
    'fits: for i in 0..fits.len() {
        last = Some(fits[i]);
    }
    last
}

/// The last of some fits that has fewer notes before it than this number.
fn fit_of(fits: &[FitRow], number: u32) -> Option<FitRow>
    ensures { result ≡ fit_of_number fits.now number }
{
    let mut last = None;
    'fits: for i in 0..fits.len() {
        let fit = fits[i];
        if fit.before < number {
            last = Some(fit);
        }
    }
    last
}

/// A room with the last of its fits.
///
/// One that has none is not read.
pub(crate) fn room_with(room: &BareRoom, fits: &[FitRow]) -> Result<RoomRow, LookFault>
    ensures reads { IfOk result (λ row. row ≡ with_last (last_fit fits.now) room.now) }
    ensures unread { IfErr result (λ why. last_fit fits.now ≡ None) }
{
    let Some(last) = last_of(fits) else {
        return Err(LookFault::Store);
    };
    Ok(RoomRow {
        room: room.room,
        kind: room.kind,
        lock_place: room.lock_place,
        codes: room.codes,
        secured: room.secured,
        party: room.party,
        notes: room.notes,
        fit: last.fit,
        before: last.before,
    })
}

/// A note with its fit and its count, by the fits of its room.
///
/// One that has none is not read.
pub(crate) fn note_with(note: &BareNote, fits: &[FitRow]) -> Result<LockNote, LookFault>
    ensures unread { IfErr result (λ why. ¬ IsUnderFits fits.now note.now) }
    ensures reads { IfOk result
        (λ with. with ≡ with_count (fit_of_number fits.now note.now.count) note.now.count note.now) }
{
    let Some(fit) = fit_of(fits, note.number) else {
        return Err(LookFault::Store);
    };
    let Some(count) = Count::new(note.number.saturating_sub(fit.before)) else {
        return Err(LookFault::Store);
    };
    match LockNote::new(note.room, fit.fit, count, note.act, note.day, note.second) {
        Some(note) => Ok(note),
        None => Err(LookFault::Store),
    }
}

/// Reads the notes of a room that has these fits.
#[derive(Drop)]
pub(crate) struct UnderFits {
    pub(crate) fits: Vec<FitRow>,
}

impl RowReader<LockNote> for UnderFits {
    ghost says = { λ reader. note_under reader.fits.items };

    ghost is_readable = { λ reader. IsNoteUnder reader.fits.items };

    fn read(&self, alloc: Global, row: &Row) -> Result<LockNote, LookFault> {
        let note = BareNote::from_row(alloc, row)?;
        note_with(&note, &self.fits)
    }
}
