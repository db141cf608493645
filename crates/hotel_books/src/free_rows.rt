//! What is free of a kind, by the counts that books keep.
ghost use Rattle.std.specs.Prelude.{◌≡◌, ◌+◌, ◌-◌, Some, None, if◌then◌else◌};
ghost use Rattle.hotel_model.specs.{Lists.are_ahead, Words.greatest};
ghost use Rattle.hotel_books.specs.{NightIndex.counted, FreeRows.free_row_by};

use crate::kind_rooms::KindRooms;
use crate::night_index::NightIndex;
use hotel_model::FreeRow;
use hotel_nights::{Day, KindCode, Nights};

/// The departure after so many nights from a day on, where the nights can be booked.
fn departure(today: Option<Day>, arrive: Day, nights: Nights) -> Option<Day>
    ensures { result ≡ if are_ahead today arrive nights then Some (arrive + nights) else None }
{
    let today = today?;
    if arrive < today {
        return None;
    }
    arrive.plus(u16::from(nights.value()))
}

/// How many more stays of a kind with so many rooms the nights hold, where they can be booked.
fn free(
    index: &NightIndex,
    rooms: u32,
    today: Option<Day>,
    kind: &KindCode,
    arrive: Day,
    nights: Nights,
) -> u32
    ensures { result ≡ (if are_ahead today arrive nights
        then rooms - greatest (counted index.now kind.now) arrive nights else 0) }
{
    let Some(depart) = departure(today, arrive, nights) else {
        return 0;
    };
    let most = index.most_counted(kind, arrive, depart);
    (rooms as usize).saturating_sub(most) as u32
}

/// A kind with its rooms and what is free of it, on the business day `today`, for so many nights from `arrive` on.
///
/// Books of any form can have it for their rows, where they keep the counts of these beside them. It takes no memory.
pub fn free_row(
    kinds: &KindRooms,
    index: &NightIndex,
    today: Option<Day>,
    kind: &KindCode,
    arrive: Day,
    nights: Nights,
) -> FreeRow
    ensures { result ≡ free_row_by kinds.now index.now today arrive nights kind.now }
{
    let rooms = kinds.rooms(kind);
    FreeRow {
        kind: *kind,
        rooms,
        free: free(index, rooms, today, kind, arrive, nights),
    }
}
