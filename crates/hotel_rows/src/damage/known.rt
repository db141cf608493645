//! What is known of stored rows, beside them.
ghost use Rattle.std.specs.Prelude.{◌≡◌, IfOk};
ghost use Rattle.hotel_rows.specs.Stored.{plain_fits};
ghost use Rattle.hotel_rows.specs.FitRuns.{FitsOf};
ghost use Rattle.hotel_rows.specs.Known.{IsOfRows};
ghost use Rattle.hotel_rows.specs.Places.{AreOf};

use crate::damage::by_key::Places;
use crate::damage::code_places::{Placed, place_codes};
use crate::damage::fit_runs::RoomFits;
use crate::stored::Stored;
use keycard_rules::Memory;
use std::alloc::Global;
use std::collections::BTreeMap;

/// Where the rows stand, the fits of each room, and the codes of each by their places.
#[derive(Drop)]
pub(crate) struct Known {
    pub(crate) places: Places,
    pub(crate) fits: RoomFits,
    pub(crate) placed: BTreeMap<u64, Placed>,
}

/// What is known of rows that stand at these places, with these fits.
pub(crate) fn known_of(
    alloc: Global,
    stored: &Stored,
    places: Places,
    fits: RoomFits,
) -> Result<Known, Memory>
    requires places { AreOf places stored.now }
    requires fits { FitsOf fits (plain_fits stored.now) }
    ensures { IfOk result (λ known. IsOfRows known stored.now) }
{
    let placed = place_codes(alloc, &stored.code)?;
    Ok(Known {
        places,
        fits,
        placed,
    })
}
