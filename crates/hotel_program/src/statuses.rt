//! The exit statuses, and that of a reply.

ghost use Rattle.std.specs.Prelude.{◌≡◌};
ghost use Rattle.hotel_program.specs.Statuses.{exit_of_reply};

use hotel_core::{Refusal, Reply};

/// What was asked is done.
pub(crate) const DONE: u8 = 0;

/// The program was given words that it doesn't take.
pub(crate) const USAGE: u8 = 2;

/// The answer is a refusal, or an audit file has a line that is unread or refused.
pub(crate) const REFUSED: u8 = 3;

/// Memory was refused, or a call of the store failed.
pub(crate) const FAILED: u8 = 4;

/// Input or output went wrong.
pub(crate) const BROKEN: u8 = 5;

/// The exit status of a reply.
pub fn status_of(reply: &Reply) -> u8
    ensures status { result ≡ exit_of_reply reply.now }
{
    match reply {
        Reply::Refused(Refusal::Memory | Refusal::Store) => FAILED,
        Reply::Refused(_) => REFUSED,
        _ => DONE,
    }
}
