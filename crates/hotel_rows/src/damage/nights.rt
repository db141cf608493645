//! The nights that the stays take, against the rooms that there are.
ghost use Rattle.std.specs.Prelude.{◌≡◌, true};
ghost use Rattle.std.specs.List.{list_all};
ghost use Rattle.hotel_rows.specs.declared.stored.Stored.{Stored as Rows};
ghost use Rattle.hotel_rows.specs.RowTests.{has_night};
ghost use Rattle.hotel_rows.specs.Counts.{IsCountedOf, tells_night};

use crate::counts::Counts;
use crate::damage::numbers::number;
use crate::stored::{PlainStay, Stored};
use crate::values::{day, kind_code};

/// Whether a stay's kind has a room for it on its first night.
fn has_night(counts: &Counts, stay: &PlainStay) -> bool
    requires { tells_night counts.now stay.now ≡ true }
    ensures { (s : Rows) → IsCountedOf s counts.now → result ≡ has_night s stay.now }
{
    let Ok(kind) = kind_code(stay.kind.as_str()) else {
        unreachable!();
    };
    let arrive = number(stay.arrive);
    let Ok(first) = day(arrive) else {
        unreachable!();
    };
    let Ok(next) = day(arrive + 1) else {
        unreachable!();
    };
    let more = counts.kinds.rooms(&kind) + 1;
    let full = counts.nights.full_night(&kind, more, first, next);
    full.is_none()
}

/// Whether on the first night of each stay its kind isn't taken by more stays than it has rooms.
pub(crate) fn nights_fit(counts: &Counts, stored: &Stored) -> bool
    requires counted { IsCountedOf stored.now counts.now }
    requires told { list_all (tells_night counts.now) stored.now.stay.items ≡ true }
    ensures { result ≡ list_all (has_night stored.now) stored.now.stay.items }
{
    for i in 0..stored.stay.len() {
        if !has_night(counts, &stored.stay[i]) {
            return false;
        }
    }
    true
}
