//! Cards of new codes.
ghost use Rattle.std.specs.Prelude.{◌≡◌, ◌<◌, ◌-◌, ◌^◌, Option, Some, IsSome, OnOk};
ghost use Rattle.keycard_rules.specs.Draw.{words};
ghost use Rattle.keycard_rules.specs.declared.draw.TheConstants.{MOST_WORDS};
ghost use Rattle.hotel_model.specs.Refinement.Answered.{IsOutcome};
ghost use Rattle.hotel_books.specs.Refinement.Finds.{Finds, reply_of};
ghost use Rattle.hotel_core.specs.Refinement.StepOnRows.{StepsAs};
ghost use Rattle.hotel_model.specs.Refinement.CardsOnRows.{issued_on, HasCurrent, HasLink};
ghost use Rattle.hotel_model.specs.{Refinement.Lookups.room_at, Refinement.Lookups.code_at};
ghost use Rattle.hotel_model.specs.{Refinement.OnRows.last_link_on, declared.reply.Refusal.TheVariants.Store};

use crate::commands::changes::make;
use crate::commands::fresh_codes::fresh;
use crate::commands::look_ups::{next_card, row_of, there_or};
use hotel_books::Books;
use hotel_model::{Change, Refusal, Reply, RoomRow};
use keycard_rules::{Card, Code, Link, PartyNo, RoomNo};
use rand_core::Rng;

/// The code at a place of a room, which sound books have.
pub(crate) fn code_in<B: Books>(books: &mut B, room: RoomNo, place: u32) -> Result<Code, Refusal>
    ensures { Finds B.Kept B.Books.own (λ rows. IsSome (code_at rows room place)) Store
        (λ rows. code_at rows room place) books.old books.new result }
{
    let code = books.code_at(room, place);
    there_or(code, Refusal::Store)
}

/// A room's current code, where the room can have one more.
fn current_code<B: Books>(books: &mut B, room: RoomNo, row: &RoomRow) -> Result<Code, Refusal>
    requires vouched { B.is_honest books.old → B.is_clean books.old }
    ensures finds { Finds B.Kept B.Books.own (HasCurrent room row.now) Store
        (λ rows. code_at rows room (row.now.codes - 1)) books.old books.new result }
    ensures few { OnOk result (row.now.codes < 2 ^ 32 - 1) }
{
    if row.codes == u32::MAX {
        return Err(Refusal::Store);
    }
    code_in(books, room, row.codes.saturating_sub(1))
}

/// The link of the last two codes of a room in which a party is in house.
pub(crate) fn last_link<B: Books>(books: &mut B, room: RoomNo) -> Result<Link, Refusal>
    ensures { Finds B.Kept B.Books.own (HasLink room) Store
        (λ rows. Some (last_link_on rows room)) books.old books.new result }
{
    let row = row_of(books, room)?;
    let old_code = code_in(books, room, row.codes.saturating_sub(2))?;
    let new_code = code_in(books, room, row.codes.saturating_sub(1))?;
    Ok(Link { old_code, new_code })
}

/// Gives a party a card of a fresh code for a room.
pub(crate) fn issue<B: Books, R: Rng>(
    books: &mut B,
    source: &mut R,
    party: PartyNo,
    row: &RoomRow,
    room: RoomNo,
    leaves: Option<RoomNo>,
) -> Result<Reply, Refusal>
    requires there { B.is_clean books.old → room_at (B.rows books.old) room ≡ Some row.now }
    requires outcome { B.is_clean books.old → IsOutcome (B.rows books.old)
        (issued_on (B.rows books.old) (words MOST_WORDS (R.stream source.old)) party room leaves) }
    ensures { StepsAs B.Kept B.Books.own
        (λ rows. issued_on rows (words MOST_WORDS (R.stream source.old)) party room leaves)
        books.old books.new (R.stream source.old) (R.stream source.new) (reply_of result) }
{
    let number = next_card(books)?;
    let old_code = current_code(books, room, row)?;
    let new_code = fresh(books, source)?;
    let link = Link { old_code, new_code };
    let card = &Card {
        number,
        party,
        link,
    };
    let change = Change::Issue {
        card: *card,
        room,
        leaves,
    };
    make(books, change, Reply::Issued(*card))
}
