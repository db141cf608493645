//! What an import answers to a line.

ghost use Rattle.std.specs.Prelude.{◌≡◌};
ghost use Rattle.hotel_audit.specs.Import.{has_taken};

use hotel_core::Refusal;
use hotel_lock::Cause;

/// The answer to one line of an audit file.
#[derive(Clone, Copy, Debug, PartialEq, Eq)]
pub enum LineAnswer {
    /// The line's note was taken.
    Taken,
    /// The note was taken before; nothing changed.
    Seen,
    /// The line is no note; nothing changed.
    Unread(Cause),
    /// The note was refused; nothing changed.
    Refused(Refusal),
}

/// Whether a line was taken.
pub fn has_taken(answers: &[LineAnswer]) -> bool
    ensures { result ≡ has_taken answers.now }
{
    for answer in answers {
        if matches!(answer, LineAnswer::Taken) {
            return true;
        }
    }
    false
}
