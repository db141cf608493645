//! One line of an audit file: a note, or why it can't be read.

ghost use Rattle.std.specs.Prelude.{◌≡◌};
ghost use Rattle.csv.specs.Records.{fields_of};
ghost use Rattle.hotel_lock.specs.{Fields.field_texts, Line.act_of, Line.card_in, Line.happening, Line.note_of};
ghost use Rattle.hotel_lock.specs.{Line.read_line};

use crate::fields::{Fields, fields_of_record};
use crate::header::Columns;
use csv::ByteRecord;
use hotel_nights::Moment;
use keycard_rules::{Act, CardNo, Code, Count, FitNo, Link, LockNote, RoomNo};

/// Why a line can't be read: the first of these that is so.
#[derive(Clone, Copy, Debug, PartialEq, Eq)]
pub enum Cause {
    /// It hasn't as many fields as the header.
    FieldCount,
    /// The room isn't a room's number.
    BadRoom,
    /// The fit isn't a number of a room's locks.
    BadFit,
    /// The count isn't one that a lock gives its notes.
    BadCount,
    /// The kind isn't `in`, `out` or `recode`.
    BadKind,
    /// The card isn't a card's number, or not empty where the kind is `recode`.
    BadCard,
    /// The old code isn't one to twelve hexadecimal digits.
    BadOld,
    /// The new code isn't one to twelve hexadecimal digits.
    BadNew,
    /// The moment isn't a date and a time of the years 2000 to 2099.
    BadMoment,
}

/// One line after the header.
#[derive(Clone, Copy, Debug, PartialEq, Eq)]
pub enum Line {
    Note(LockNote),
    Unread(Cause),
}

/// What a line's kind and card say.
#[derive(Clone, Copy)]
pub(crate) enum Happening {
    In(CardNo),
    Out(CardNo),
    Recode,
}

fn read_card(text: &[u8]) -> Result<CardNo, Cause>
    ensures { result ≡ card_in text.now }
{
    CardNo::read(text).ok_or(Cause::BadCard)
}

fn read_happening(kind: &[u8], card: &[u8]) -> Result<Happening, Cause>
    ensures { result ≡ happening kind.now card.now }
{
    if kind == b"in".as_slice() {
        return Ok(Happening::In(read_card(card)?));
    }
    if kind == b"out".as_slice() {
        return Ok(Happening::Out(read_card(card)?));
    }
    if kind != b"recode".as_slice() {
        return Err(Cause::BadKind);
    }
    if !card.is_empty() {
        return Err(Cause::BadCard);
    }
    Ok(Happening::Recode)
}

fn act_of(happening: Happening, link: Link) -> Act
    ensures { result ≡ act_of happening link }
{
    match happening {
        Happening::In(card) => Act::Entered { card, link },
        Happening::Out(card) => Act::Left { card, link },
        Happening::Recode => Act::Recoded {
            from: link.old_code,
            to: link.new_code,
        },
    }
}

fn read_note(fields: &Fields) -> Result<LockNote, Cause>
    ensures { result ≡ note_of (field_texts fields.now) }
{
    let room = RoomNo::read(fields.room).ok_or(Cause::BadRoom)?;
    let fit = FitNo::read(fields.fit).ok_or(Cause::BadFit)?;
    let count = Count::read(fields.count).ok_or(Cause::BadCount)?;
    let happening = read_happening(fields.kind, fields.card)?;
    let old_code = Code::read(fields.old_code).ok_or(Cause::BadOld)?;
    let new_code = Code::read(fields.new_code).ok_or(Cause::BadNew)?;
    let moment = Moment::read(fields.moment).ok_or(Cause::BadMoment)?;
    let act = act_of(happening, Link { old_code, new_code });
    Ok(moment.note(room, fit, count, act))
}

/// Reads one record after the header.
pub(crate) fn read_line(row: &ByteRecord, columns: Columns) -> Line
    ensures { result ≡ read_line columns (fields_of row.now) }
{
    let Some(fields) = fields_of_record(row, columns) else {
        return Line::Unread(Cause::FieldCount);
    };
    match read_note(&fields) {
        Ok(note) => Line::Note(note),
        Err(cause) => Line::Unread(cause),
    }
}
