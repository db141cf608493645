//! Rows of whole tables as plain data.
ghost use Rattle.std.specs.Prelude.{◌≡◌, ◌≢◌, ◌++◌, ℕ, Bool, List, IfOk, IfErr};
ghost use Rattle.std.specs.declared.cmp.Ordering.{Ordering as Order};
ghost use Rattle.sqlite.specs.Order.{Row as SqlRow};
ghost use Rattle.hotel_statements.specs.PlainRows as plain;
ghost use Rattle.hotel_statements.specs.Columns as columns;
ghost use Rattle.hotel_statements.specs.Texts as texts;
ghost use Rattle.hotel_statements.specs.Trees as trees;

use crate::texts::{
    READ_CARD, READ_CODE, READ_FIT, READ_INSIDE, READ_KIND, READ_META, READ_NOTE, READ_ROOM,
    READ_STAY,
};
use hotel_rows::{
    PlainCard, PlainCode, PlainFit, PlainInside, PlainKind, PlainNote, PlainRoom, PlainStay,
};
use sqlite::{Error, ErrorCode, Row};

/// A row of a table as plain data.
pub(crate) trait PlainRow: Sized {
    /// The statement that reads the whole table.
    ghost statement: { List ℕ };

    /// The number of the table's tree, and the columns of a row of it.
    ghost tree: { ℕ };

    ghost columns: { SqlRow → SqlRow };

    /// The columns of the plain row, and as many of a row that a statement shows.
    ghost shown: { Self → SqlRow };

    ghost cut: { SqlRow → SqlRow };

    /// The order of the keys, in which the statement shows the rows.
    ghost order: { Self → Self → Order };

    fn statement() -> &'static str
        ensures { result.now ≡ statement };

    fn of_row(row: &Row) -> Result<Self, Error>
        ensures shows { IfOk result (λ plain. shown plain ≡ cut row.now) }
        ensures unread { IfErr result (λ e. e ≢ Error.SqliteFailure ErrorCode.OutOfMemory → (l : Self) (more : SqlRow)
            → shown l ++ more ≢ row.now) };
}

/// Whether a row's numbers are such as the books write.
pub trait Plain: Sized {
    /// No number of it is below 0.
    ghost natural: { Self → Bool };

    fn is_natural(&self) -> bool
        ensures { result ≡ natural self.now };
}

/// The row of meta.
#[derive(Clone, Copy, Debug)]
pub struct PlainMeta {
    pub id: i64,
    pub version: i64,
    pub day: Option<i64>,
}

/// A row of the table of cards that are inside, with the number of the row.
#[derive(Clone, Copy, Debug)]
pub struct NumberedInside {
    pub id: i64,
    pub plain: PlainInside,
}

fn is_natural(n: i64) -> bool
    ensures { result ≡ plain.is_natural n }
{
    n >= 0
}

/// Whether a number that may be null is not below 0.
pub fn may_be_natural(n: Option<i64>) -> bool
    ensures { result ≡ plain.may_be_natural n }
{
    match n {
        Some(n) => is_natural(n),
        None => true,
    }
}

impl PlainRow for PlainMeta {
    ghost statement = { texts.read_meta };

    ghost tree = { trees.meta_tree };

    ghost columns = { columns.meta_columns };

    ghost shown = { plain.meta_shown };

    ghost cut = { plain.first_three };

    ghost order = { plain.meta_order };

    fn statement() -> &'static str {
        READ_META
    }

    fn of_row(row: &Row) -> Result<PlainMeta, Error> {
        Ok(PlainMeta {
            id: row.get(0)?,
            version: row.get(1)?,
            day: row.get(2)?,
        })
    }
}

impl PlainRow for PlainKind {
    ghost statement = { texts.read_kind };

    ghost tree = { trees.kind_tree };

    ghost columns = { columns.kind_columns };

    ghost shown = { plain.kind_shown };

    ghost cut = { plain.first_one };

    ghost order = { plain.kind_order };

    fn statement() -> &'static str {
        READ_KIND
    }

    fn of_row(row: &Row) -> Result<PlainKind, Error> {
        Ok(PlainKind { kind: row.get(0)? })
    }
}

impl PlainRow for PlainRoom {
    ghost statement = { texts.read_room };

    ghost tree = { trees.room_tree };

    ghost columns = { columns.room_columns };

    ghost shown = { plain.room_shown };

    ghost cut = { plain.first_seven };

    ghost order = { plain.room_order };

    fn statement() -> &'static str {
        READ_ROOM
    }

    fn of_row(row: &Row) -> Result<PlainRoom, Error> {
        Ok(PlainRoom {
            room: row.get(0)?,
            kind: row.get(1)?,
            lock_place: row.get(2)?,
            codes: row.get(3)?,
            secured: row.get(4)?,
            party: row.get(5)?,
            notes: row.get(6)?,
        })
    }
}

impl PlainRow for PlainStay {
    ghost statement = { texts.read_stay };

    ghost tree = { trees.stay_tree };

    ghost columns = { columns.stay_columns };

    ghost shown = { plain.stay_shown };

    ghost cut = { plain.first_seven };

    ghost order = { plain.stay_order };

    fn statement() -> &'static str {
        READ_STAY
    }

    fn of_row(row: &Row) -> Result<PlainStay, Error> {
        Ok(PlainStay {
            party: row.get(0)?,
            guest: row.get(1)?,
            kind: row.get(2)?,
            arrive: row.get(3)?,
            depart: row.get(4)?,
            state: row.get(5)?,
            room: row.get(6)?,
        })
    }
}

impl PlainRow for PlainCode {
    ghost statement = { texts.read_code };

    ghost tree = { trees.code_tree };

    ghost columns = { columns.code_columns };

    ghost shown = { plain.code_shown };

    ghost cut = { plain.first_three };

    ghost order = { plain.code_order };

    fn statement() -> &'static str {
        READ_CODE
    }

    fn of_row(row: &Row) -> Result<PlainCode, Error> {
        Ok(PlainCode {
            code: row.get(0)?,
            room: row.get(1)?,
            place: row.get(2)?,
        })
    }
}

impl PlainRow for PlainCard {
    ghost statement = { texts.read_card };

    ghost tree = { trees.card_tree };

    ghost columns = { columns.card_columns };

    ghost shown = { plain.card_shown };

    ghost cut = { plain.first_four };

    ghost order = { plain.card_order };

    fn statement() -> &'static str {
        READ_CARD
    }

    fn of_row(row: &Row) -> Result<PlainCard, Error> {
        Ok(PlainCard {
            number: row.get(0)?,
            party: row.get(1)?,
            old_code: row.get(2)?,
            new_code: row.get(3)?,
        })
    }
}

impl PlainRow for NumberedInside {
    ghost statement = { texts.read_inside };

    ghost tree = { trees.inside_tree };

    ghost columns = { plain.numbered_columns };

    ghost shown = { plain.numbered_shown };

    ghost cut = { plain.first_three };

    ghost order = { plain.numbered_order };

    fn statement() -> &'static str {
        READ_INSIDE
    }

    fn of_row(row: &Row) -> Result<NumberedInside, Error> {
        Ok(NumberedInside {
            id: row.get(0)?,
            plain: PlainInside {
                room: row.get(1)?,
                card: row.get(2)?,
            },
        })
    }
}

impl PlainRow for PlainNote {
    ghost statement = { texts.read_note };

    ghost tree = { trees.note_tree };

    ghost columns = { columns.note_columns };

    ghost shown = { plain.note_shown };

    ghost cut = { plain.first_eight };

    ghost order = { plain.note_order };

    fn statement() -> &'static str {
        READ_NOTE
    }

    fn of_row(row: &Row) -> Result<PlainNote, Error> {
        Ok(PlainNote {
            room: row.get(0)?,
            n: row.get(1)?,
            act: row.get(2)?,
            card: row.get(3)?,
            first_code: row.get(4)?,
            second_code: row.get(5)?,
            day: row.get(6)?,
            second: row.get(7)?,
        })
    }
}

impl PlainRow for PlainFit {
    ghost statement = { texts.read_fit };

    ghost tree = { trees.fit_tree };

    ghost columns = { columns.fit_columns };

    ghost shown = { plain.fit_shown };

    ghost cut = { plain.first_four };

    ghost order = { plain.fit_order };

    fn statement() -> &'static str {
        READ_FIT
    }

    fn of_row(row: &Row) -> Result<PlainFit, Error> {
        Ok(PlainFit {
            room: row.get(0)?,
            fit: row.get(1)?,
            place: row.get(2)?,
            before: row.get(3)?,
        })
    }
}

impl Plain for PlainKind {
    ghost natural = { plain.kind_natural };

    fn is_natural(&self) -> bool {
        true
    }
}

impl Plain for PlainRoom {
    ghost natural = { plain.room_natural };

    fn is_natural(&self) -> bool {
        is_natural(self.room)
            && is_natural(self.lock_place)
            && is_natural(self.codes)
            && is_natural(self.secured)
            && may_be_natural(self.party)
            && is_natural(self.notes)
    }
}

impl Plain for PlainStay {
    ghost natural = { plain.stay_natural };

    fn is_natural(&self) -> bool {
        is_natural(self.party)
            && is_natural(self.arrive)
            && is_natural(self.depart)
            && is_natural(self.state)
            && may_be_natural(self.room)
    }
}

impl Plain for PlainCode {
    ghost natural = { plain.code_natural };

    fn is_natural(&self) -> bool {
        is_natural(self.code) && is_natural(self.room) && is_natural(self.place)
    }
}

impl Plain for PlainCard {
    ghost natural = { plain.card_natural };

    fn is_natural(&self) -> bool {
        is_natural(self.number)
            && is_natural(self.party)
            && is_natural(self.old_code)
            && is_natural(self.new_code)
    }
}

impl Plain for PlainInside {
    ghost natural = { plain.inside_natural };

    fn is_natural(&self) -> bool {
        is_natural(self.room) && is_natural(self.card)
    }
}

impl Plain for PlainNote {
    ghost natural = { plain.note_natural };

    fn is_natural(&self) -> bool {
        is_natural(self.room)
            && is_natural(self.n)
            && is_natural(self.act)
            && may_be_natural(self.card)
            && is_natural(self.first_code)
            && is_natural(self.second_code)
            && is_natural(self.day)
            && is_natural(self.second)
    }
}

impl Plain for PlainFit {
    ghost natural = { plain.fit_natural };

    fn is_natural(&self) -> bool {
        is_natural(self.room)
            && is_natural(self.fit)
            && is_natural(self.place)
            && is_natural(self.before)
    }
}
