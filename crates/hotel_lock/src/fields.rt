//! The fields of an audit file's record.

ghost use Rattle.std.specs.Prelude.{◌≡◌, drop, option_map};
ghost use Rattle.csv.specs.Records.{fields_of};
ghost use Rattle.hotel_lock.specs.Fields.{field_texts, fields_behind, fields_under};

use crate::header::Columns;
use csv::{ByteRecord, ByteRecordIter};

/// The fields of a record, each as its bytes.
#[derive(Clone, Copy)]
pub(crate) struct Fields<'a> {
    pub room: &'a [u8],
    pub fit: &'a [u8],
    pub count: &'a [u8],
    pub kind: &'a [u8],
    pub card: &'a [u8],
    pub old_code: &'a [u8],
    pub new_code: &'a [u8],
    pub moment: &'a [u8],
}

/// The fields of a record of this room and fit, of which these are left; None where they aren't six.
fn fields_behind<'a>(
    room: &'a [u8],
    fit: &'a [u8],
    mut left: ByteRecordIter<'a>,
) -> Option<Fields<'a>>
    ensures { option_map field_texts result
        ≡ fields_behind room.now fit.now (drop left.entry.at (fields_of left.entry.row.now)) }
{
    let fields = Fields {
        room,
        fit,
        count: left.next()?,
        kind: left.next()?,
        card: left.next()?,
        old_code: left.next()?,
        new_code: left.next()?,
        moment: left.next()?,
    };
    match left.next() {
        None => Some(fields),
        Some(_) => None,
    }
}

/// The fields of a record; None where they aren't as many as the columns. Without a column of fits it is of the room's
/// first lock.
pub(crate) fn fields_of_record(row: &ByteRecord, columns: Columns) -> Option<Fields<'_>>
    ensures { option_map field_texts result ≡ fields_under columns (fields_of row.now) }
{
    let mut left = row.iter();
    let room = left.next()?;
    match columns {
        Columns::WithFit => {
            let fit = left.next()?;
            fields_behind(room, fit, left)
        }
        Columns::WithoutFit => fields_behind(room, b"1", left),
    }
}
