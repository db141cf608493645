//! The issue of a card of a new code, within a transaction.
ghost use Rattle.std.specs.Prelude.{◌≡◌, ◌<◌, ◌-◌, ◌^◌};
ghost use Rattle.hotel_model.specs.Refinement.Change.{made, codes_of};
ghost use Rattle.hotel_model.specs.declared.change.Change.TheVariants as change;
ghost use Rattle.hotel_statements.specs.Statements.{WritesBy, gives_code, gives_card, issues_card};
ghost use Rattle.hotel_books.specs.Refinement.Finds.{AnyRows};
ghost use Rattle.hotel_statements.specs.Steps.{code_given, card_given};

use crate::steps::{free_room, insert_card, insert_code, set_issued, set_state};
use hotel_model::CodeRow;
use hotel_nights::StayState;
use keycard_rules::{Card, Code, RoomNo};
use sqlite::{Alter, Error, Transaction};

/// The room that is left has no party, and a code is added.
fn give_code<S: Alter>(
    tx: &mut Transaction<'_, S>,
    leaves: Option<RoomNo>,
    code: Code,
    at: CodeRow,
) -> Result<(), Error>
    ensures same_reference { tx.new.conn.ghost_name ≡ tx.old.conn.ghost_name }
    ensures makes { WritesBy S.Store (gives_code leaves code at) AnyRows (code_given leaves code at) tx.old.conn.now
        tx.new.conn.now result }
{
    match leaves {
        Some(left) => {
            free_room(tx, left)?;
            insert_code(tx, code, at)
        }
        None => insert_code(tx, code, at),
    }
}

/// The room has its new code and party, the card is added, and the party's stay is in the room.
fn give_card<S: Alter>(
    tx: &mut Transaction<'_, S>,
    card: Card,
    room: RoomNo,
    codes: u32,
) -> Result<(), Error>
    ensures same_reference { tx.new.conn.ghost_name ≡ tx.old.conn.ghost_name }
    ensures makes { WritesBy S.Store (gives_card card room codes) AnyRows (card_given card room codes) tx.old.conn.now
        tx.new.conn.now result }
{
    let party = card.party;
    set_issued(tx, room, codes, party)?;
    insert_card(tx, card)?;
    set_state(tx, party, StayState::InHouse(room))
}

/// Issues a card of a new code at a room that had so many codes.
pub fn issue<S: Alter>(
    tx: &mut Transaction<'_, S>,
    card: &Card,
    room: RoomNo,
    leaves: Option<RoomNo>,
    codes: u32,
) -> Result<(), Error>
    requires { codes < 2 ^ 32 - 1 }
    ensures same_reference { tx.new.conn.ghost_name ≡ tx.old.conn.ghost_name }
    ensures makes { WritesBy S.Store (issues_card card.now room leaves codes)
        (λ rows. codes_of rows room ≡ codes) (made (change.Issue card.now room leaves))
        tx.old.conn.now tx.new.conn.now result }
{
    let at = CodeRow { room, place: codes };
    let code = card.link.new_code;
    give_code(tx, leaves, code, at)?;
    give_card(tx, *card, room, codes + 1)
}
