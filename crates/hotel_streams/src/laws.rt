//! The limits of reads and writes.
ghost use Rattle.std.specs.Prelude.{◌≡◌};
ghost use Rattle.hotel_streams.specs.declared.bytes.TheConstants.{READ_BYTES};
ghost use Rattle.hotel_streams.specs.declared.calls.TheConstants.{LAST_INTERRUPTION};

/// A call's record takes its 1,000th interruption for a failure, and a read asks for 4,096 bytes.
pub fn limits_are()
    ensures interruptions { LAST_INTERRUPTION ≡ 1000 }
    ensures read { READ_BYTES ≡ 4096 }
{}
