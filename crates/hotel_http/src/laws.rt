//! The limits of a request.
ghost use Rattle.std.specs.Prelude.{◌≡◌};
ghost use Rattle.hotel_http.specs.declared.head.TheConstants.{HEAD_BYTES, HEAD_FIELDS};

/// A head has at most 16,384 bytes and 64 fields.
pub fn limits_are()
    ensures bytes { HEAD_BYTES ≡ 16384 }
    ensures fields { HEAD_FIELDS ≡ 64 }
{}
