//! The header of an audit file.

ghost use Rattle.std.specs.Prelude.{◌≡◌, map};
ghost use Rattle.csv.specs.Records.{fields_of};
ghost use Rattle.hotel_lock.specs.Header.{are_same_texts, columns_of};

use csv::ByteRecord;

/// Which columns the lines of an audit file have.
#[derive(Clone, Copy, Debug, PartialEq, Eq)]
pub(crate) enum Columns {
    /// `room,fit,count,kind,card,old,new,at`.
    WithFit,
    /// `room,count,kind,card,old,new,at`: each note is of the room's first lock.
    WithoutFit,
}

/// The names of the columns with that of the room's lock, in their order.
static WITH_FIT: [&str; 8] = ["room", "fit", "count", "kind", "card", "old", "new", "at"];

/// The names of the columns without that of the room's lock.
static WITHOUT_FIT: [&str; 7] = ["room", "count", "kind", "card", "old", "new", "at"];

/// Whether the fields of the record are these texts and no more.
fn has_texts(row: &ByteRecord, texts: &[&str]) -> bool
    ensures { result ≡ are_same_texts (fields_of row.now) (map (λ text. text.now) texts.now) }
{
    if row.len() != texts.len() {
        return false;
    }
    for (index, text) in texts.iter().enumerate() {
        let Some(field) = row.get(index) else {
            return false;
        };
        if field != text.as_bytes() {
            return false;
        }
    }
    true
}

/// The columns that the record names, where it is a header.
pub(crate) fn columns_of(row: &ByteRecord) -> Option<Columns>
    ensures { result ≡ columns_of (fields_of row.now) }
{
    if has_texts(row, &WITH_FIT) {
        return Some(Columns::WithFit);
    }
    if has_texts(row, &WITHOUT_FIT) {
        return Some(Columns::WithoutFit);
    }
    None
}
