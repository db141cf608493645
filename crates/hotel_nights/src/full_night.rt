//! The first full night.

ghost use Rattle.std.specs.Prelude.{◌≡◌, ◌-◌};
ghost use Rattle.hotel_nights.specs.FullNight.{is_full, first_day, IsFirst};

use crate::block::{BLOCK, first_in_block};
use crate::day::Day;
use crate::kind::KindCode;
use crate::stay::Stay;

/// The first full night, found block by block.
fn first_of_blocks(
    stays: &[Stay],
    kind: &KindCode,
    rooms: u32,
    arrive: Day,
    depart: Day,
) -> Option<Day>
    ensures { result ≡ first_day (is_full stays.now kind.now rooms) arrive (depart - arrive) }
{
    let last = depart.number();
    let mut first = arrive.number();
    while first < last {
        let after = last.min(first + BLOCK);
        if let Some(night) = first_in_block(stays, kind, rooms, first, after) {
            return Day::new(night);
        }
        first = after;
    }
    None
}

/// The first full night `d` with `arrive <= d < depart`: one that at least `rooms` booked or in-house stays of the kind
/// take.
///
/// `None` where no night of these is full, and where `depart` isn't after `arrive`. With no rooms each night is full.
/// It takes no memory, and goes over the stays once for each 90 nights. No command calls it: a client shows by it which
/// night keeps a stay out.
pub fn first_full_night(
    stays: &[Stay],
    kind: &KindCode,
    rooms: u32,
    arrive: Day,
    depart: Day,
) -> Option<Day>
    // What is computed, for definitions to cite.
    ensures value { result ≡ first_day (is_full stays.now kind.now rooms) arrive (depart - arrive) }

    // What that is: a full night after nights that aren't, or none is full.
    ensures first { IsFirst (is_full stays.now kind.now rooms) arrive depart result }
{
    first_of_blocks(stays, kind, rooms, arrive, depart)
}
