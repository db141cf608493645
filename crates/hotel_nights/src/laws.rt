//! The limits of stays and of their texts.
ghost use Rattle.std.specs.Prelude.{◌≡◌};
ghost use Rattle.hotel_nights.specs.declared.guest.TheConstants.{GUEST_BYTES};
ghost use Rattle.hotel_nights.specs.declared.kind.TheConstants.{KIND_BYTES};
ghost use Rattle.hotel_nights.specs.declared.nights.TheConstants.{MOST_NIGHTS};

/// A stay has at most 90 nights, a kind's code 8 bytes and a guest's name 60.
pub fn limits_are()
    ensures nights { MOST_NIGHTS ≡ 90 }
    ensures kind { KIND_BYTES ≡ 8 }
    ensures guest { GUEST_BYTES ≡ 60 }
{}
