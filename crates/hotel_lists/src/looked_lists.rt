//! The lists whose rows are looked up, before their text is written: the business day and a card.
ghost use Rattle.hotel_lists.specs.LookedLists.{FindsRows, one_or_none};
ghost use Rattle.hotel_model.specs.Refinement.ListsOnRows.{business_day_on, card_rows_on};

use crate::fault::ListFault;
use hotel_books::Books;
use hotel_model::CardRow;
use hotel_nights::Day;
use keycard_rules::CardNo;
use std::alloc::Global;

/// The business day, once it is set.
pub(crate) fn find_day<B: Books>(books: &mut B) -> Result<Option<Day>, ListFault>
    ensures { FindsRows B.Kept one_or_none (business_day_on (B.rows books.old)) books.old books.new result }
{
    let day = books.day()?;
    Ok(day)
}

/// The card of a number, with its party's guest.
pub(crate) fn find_card<B: Books>(
    alloc: Global,
    books: &mut B,
    number: CardNo,
) -> Result<Vec<CardRow>, ListFault>
    ensures { FindsRows B.Kept (λ cards. cards.items) (card_rows_on (B.rows books.old) number) books.old books.new
        result }
{
    let mut cards = Vec::new(alloc);
    let Some(card) = books.card(number)? else {
        return Ok(cards);
    };
    let Some(stay) = books.stay(card.party)? else {
        return Ok(cards);
    };
    let guest = stay.guest;
    match cards.push(CardRow { card, guest }) {
        Ok(()) => Ok(cards),
        Err(_) => Err(ListFault::Memory),
    }
}
