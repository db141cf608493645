//! Laws of logs and their text, which make no call.
ghost use Rattle.std.specs.Prelude.{◌≡◌};
ghost use Rattle.hotel_lock.specs.declared.audit_file.TheConstants.{AUDIT_BYTES};
ghost use Rattle.hotel_lock.specs.{ReadBack.NotesReadBack, Readings.GivesFileRecords, Readings.HasOneReading};

/// An audit file has at most 262,144 bytes.
pub fn limits_are()
    ensures { AUDIT_BYTES ≡ 262144 }
{}

/// A reading of bytes as CSV gives the file's records, so that two readings of the same bytes are the same.
pub fn records_of_bytes()
    ensures gives { GivesFileRecords }
    ensures one { HasOneReading }
{}

/// The text of a log is an audit file of its notes, unless it is longer than `AUDIT_BYTES`.
pub fn log_reads_back()
    ensures { NotesReadBack }
{}
