//! Fresh codes over the books.
ghost use Rattle.std.specs.Prelude.{◌≡◌};
ghost use Rattle.hotel_books.specs.Refinement.Finds.{DrawsCode, drawn_or};

use hotel_books::Books;
use hotel_model::Refusal;
use keycard_rules::{Code, DrawFault, draw_fresh};
use rand_core::Rng;

fn drawn_or(drawn: Result<Code, DrawFault>) -> Result<Code, Refusal>
    ensures { result ≡ drawn_or drawn }
{
    match drawn {
        Ok(code) => Ok(code),
        Err(DrawFault::NoFreshCode) => Err(Refusal::NoFreshCode),
        Err(DrawFault::Memory) => Err(Refusal::Memory),
        Err(DrawFault::Store) => Err(Refusal::Store),
    }
}

/// The first code of the source's next words that wasn't issued.
pub(crate) fn fresh<B: Books, R: Rng>(books: &mut B, source: &mut R) -> Result<Code, Refusal>
    ensures { DrawsCode B.Kept B.Books.own books.old books.new (R.stream source.old) (R.stream source.new) result }
{
    let drawn = draw_fresh(source, books);
    drawn_or(drawn)
}
