//! Laws of books, which make no call: what a caller may rest on beside the contracts of the calls.
ghost use Rattle.hotel_core.specs.Books.Stepped.{RefusalsKeepRows, RunsFollow, StepsLead};

use hotel_books::Books;

/// What follows of a command's clause over books that are clean as it ends, and of commands that were carried out one
/// after the other: they are a run of the model, and leave together what one of them does.
pub fn commands_follow<B: Books>()
    ensures step { StepsLead B.Kept B.Books.own }
    ensures refused { RefusalsKeepRows B.Kept B.Books.own }
    ensures run { RunsFollow B.Kept B.Books.own }
{}
