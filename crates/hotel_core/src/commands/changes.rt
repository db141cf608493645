//! The end of a command: its change is made.
ghost use Rattle.std.specs.Prelude.{◌≡◌, false};
ghost use Rattle.hotel_model.specs.{Refinement.Answered.IsAnswered, Refinement.Fits.takes_memory, Outcome.accepted};
ghost use Rattle.hotel_model.specs.{Run.is_failed};
ghost use Rattle.hotel_books.specs.Refinement.Finds.{reply_of};
ghost use Rattle.hotel_core.specs.Refinement.StepOnRows.{StepsWithoutWords};

use crate::commands::look_ups::refusal_of;
use crate::commands::ranges::known_reply;
use hotel_books::Books;
use hotel_model::{Change, Refusal, Reply};

/// Makes the change that comes of a command, and answers so where it was made.
pub(crate) fn make<B: Books>(books: &mut B, change: Change, reply: Reply) -> Result<Reply, Refusal>
    requires answered { B.is_clean books.old → IsAnswered (B.rows books.old) change reply }
    requires is_answer { is_failed reply ≡ false }
    ensures steps { StepsWithoutWords B.Kept B.Books.own (λ _. accepted reply change) books.old books.new
        (reply_of result) }
    ensures sure { B.never_fails → takes_memory change ≡ false → is_failed (reply_of result) ≡ false }
{
    books.known_sound();
    known_reply(&reply);
    match books.apply(change) {
        Ok(()) => Ok(reply),
        Err(fault) => Err(refusal_of(fault)),
    }
}
