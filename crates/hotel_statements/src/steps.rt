//! The statements of a transaction: each adds or changes one row, but for the one that takes all cards out of a room.
ghost use Rattle.std.specs.Prelude.{◌≡◌, false, [], ◌∷◌};
ghost use Rattle.hotel_model.specs.Rows.{has_kind};
ghost use Rattle.hotel_statements.specs.Statements.{WritesBy, sets_day, adds_kind, adds_room, adds_code, adds_stay};
ghost use Rattle.hotel_statements.specs.Statements.{adds_card, adds_note, adds_fit, adds_inside, removes_inside};
ghost use Rattle.hotel_statements.specs.Statements.{removes_insides, sets_issued, frees_room, sets_noted};
ghost use Rattle.hotel_statements.specs.Statements.{sets_refitted, sets_state};
ghost use Rattle.hotel_books.specs.Refinement.Finds.{AnyRows};
ghost use Rattle.hotel_statements.specs.Steps.{IsNewNote, IsNextFit, IsWithoutFit, day_set, kind_added};
ghost use Rattle.hotel_statements.specs.Steps.{room_added, code_added, stay_added, card_added, note_added, fit_added};
ghost use Rattle.hotel_statements.specs.Steps.{inside_added, inside_gone, insides_gone, room_issued, room_freed};
ghost use Rattle.hotel_statements.specs.Steps.{room_noted, room_refitted, stay_set};

use crate::number::{
    act_card, act_first, act_number, act_second, bit, coded, dated, maybe, numbered, room_of,
    small, standing, text,
};
use crate::statement::run;
use crate::texts::{
    DELETE_INSIDE, DELETE_INSIDES, INSERT_CARD, INSERT_CODE, INSERT_FIT, INSERT_INSIDE,
    INSERT_KIND, INSERT_NOTE, INSERT_ROOM, INSERT_STAY, UPDATE_DAY, UPDATE_ISSUED, UPDATE_NOTED,
    UPDATE_PARTY, UPDATE_REFITTED, UPDATE_STATE,
};
use hotel_model::{CodeRow, FitRow, RoomRow};
use hotel_nights::{Day, KindCode, Stay, StayState};
use keycard_rules::{Card, CardNo, Code, LockNote, PartyNo, RoomNo};
use sqlite::{Alter, Error, Transaction};

/// Sets the day.
pub fn set_day<S: Alter>(tx: &mut Transaction<'_, S>, day: Day) -> Result<(), Error>
    ensures same_reference { tx.new.conn.ghost_name ≡ tx.old.conn.ghost_name }
    ensures makes { WritesBy S.Store (sets_day day ∷ []) AnyRows (day_set day) tx.old.conn.now tx.new.conn.now result }
{
    run(tx, UPDATE_DAY, &[small(1), dated(day)])
}

/// Adds a kind that isn't there.
pub fn insert_kind<S: Alter>(tx: &mut Transaction<'_, S>, kind: &KindCode) -> Result<(), Error>
    ensures same_reference { tx.new.conn.ghost_name ≡ tx.old.conn.ghost_name }
    ensures makes { WritesBy S.Store (adds_kind kind.now ∷ [])
        (λ rows. has_kind rows kind.now ≡ false) (kind_added kind.now) tx.old.conn.now tx.new.conn.now result }
{
    run(tx, INSERT_KIND, &[text(kind.as_bytes())])
}

/// Adds a room that has no fit yet: its table has no columns for the fit and the notes before it.
pub(crate) fn insert_room<S: Alter>(tx: &mut Transaction<'_, S>, row: RoomRow) -> Result<(), Error>
    ensures same_reference { tx.new.conn.ghost_name ≡ tx.old.conn.ghost_name }
    ensures makes { WritesBy S.Store (adds_room row ∷ []) (IsWithoutFit row.room)
        (room_added row) tx.old.conn.now tx.new.conn.now result }
{
    let party = row.party;
    run(
        tx,
        INSERT_ROOM,
        &[
            numbered(row.room),
            text(row.kind.as_bytes()),
            small(row.lock_place),
            small(row.codes),
            bit(row.secured),
            maybe(party),
            small(row.notes),
        ],
    )
}

/// Adds a code.
pub(crate) fn insert_code<S: Alter>(
    tx: &mut Transaction<'_, S>,
    code: Code,
    at: CodeRow,
) -> Result<(), Error>
    ensures same_reference { tx.new.conn.ghost_name ≡ tx.old.conn.ghost_name }
    ensures makes { WritesBy S.Store (adds_code code at ∷ []) AnyRows (code_added code at) tx.old.conn.now
        tx.new.conn.now result }
{
    run(
        tx,
        INSERT_CODE,
        &[coded(code), numbered(at.room), small(at.place)],
    )
}

/// Adds a stay.
pub fn insert_stay<S: Alter>(tx: &mut Transaction<'_, S>, stay: &Stay) -> Result<(), Error>
    ensures same_reference { tx.new.conn.ghost_name ≡ tx.old.conn.ghost_name }
    ensures makes { WritesBy S.Store (adds_stay stay.now ∷ []) AnyRows (stay_added stay.now) tx.old.conn.now
        tx.new.conn.now result }
{
    run(
        tx,
        INSERT_STAY,
        &[
            numbered(stay.party),
            text(stay.guest.text().as_bytes()),
            text(stay.kind.as_bytes()),
            dated(stay.arrive),
            dated(stay.depart),
            standing(&stay.state),
            room_of(&stay.state),
        ],
    )
}

/// Adds a card.
pub fn insert_card<S: Alter>(tx: &mut Transaction<'_, S>, card: Card) -> Result<(), Error>
    ensures same_reference { tx.new.conn.ghost_name ≡ tx.old.conn.ghost_name }
    ensures makes { WritesBy S.Store (adds_card card ∷ []) AnyRows (card_added card) tx.old.conn.now tx.new.conn.now
        result }
{
    run(
        tx,
        INSERT_CARD,
        &[
            numbered(card.number),
            numbered(card.party),
            coded(card.link.old_code),
            coded(card.link.new_code),
        ],
    )
}

/// Adds a note under its number among all of its room, which isn't there and is that of its fit and count.
pub(crate) fn insert_note<S: Alter>(
    tx: &mut Transaction<'_, S>,
    note: &LockNote,
    number: u32,
) -> Result<(), Error>
    ensures same_reference { tx.new.conn.ghost_name ≡ tx.old.conn.ghost_name }
    ensures makes { WritesBy S.Store (adds_note note.now number ∷ []) (IsNewNote note.now number)
        (note_added note.now number) tx.old.conn.now tx.new.conn.now result }
{
    let act = note.act;
    run(
        tx,
        INSERT_NOTE,
        &[
            numbered(note.room),
            small(number),
            act_number(&act),
            act_card(&act),
            act_first(&act),
            act_second(&act),
            small(u32::from(note.day)),
            small(note.second),
        ],
    )
}

/// Adds the next fit of a room.
pub(crate) fn insert_fit<S: Alter>(tx: &mut Transaction<'_, S>, fit: FitRow) -> Result<(), Error>
    ensures same_reference { tx.new.conn.ghost_name ≡ tx.old.conn.ghost_name }
    ensures makes { WritesBy S.Store (adds_fit fit ∷ []) (IsNextFit fit) (fit_added fit)
        tx.old.conn.now tx.new.conn.now result }
{
    run(
        tx,
        INSERT_FIT,
        &[
            numbered(fit.room),
            numbered(fit.fit),
            small(fit.place),
            small(fit.before),
        ],
    )
}

/// Adds a card inside a room; one that is there already is refused.
pub(crate) fn insert_inside<S: Alter>(
    tx: &mut Transaction<'_, S>,
    room: RoomNo,
    card: CardNo,
) -> Result<(), Error>
    ensures same_reference { tx.new.conn.ghost_name ≡ tx.old.conn.ghost_name }
    ensures makes { WritesBy S.Store (adds_inside room card ∷ []) AnyRows (inside_added room card) tx.old.conn.now
        tx.new.conn.now result }
{
    run(tx, INSERT_INSIDE, &[numbered(room), numbered(card)])
}

/// Takes a card out of those inside the room.
pub(crate) fn delete_inside<S: Alter>(
    tx: &mut Transaction<'_, S>,
    room: RoomNo,
    card: CardNo,
) -> Result<(), Error>
    ensures same_reference { tx.new.conn.ghost_name ≡ tx.old.conn.ghost_name }
    ensures makes { WritesBy S.Store (removes_inside room card ∷ []) AnyRows (inside_gone room card) tx.old.conn.now
        tx.new.conn.now result }
{
    run(tx, DELETE_INSIDE, &[numbered(room), numbered(card)])
}

/// Takes all cards out of those inside the room.
pub(crate) fn delete_insides<S: Alter>(
    tx: &mut Transaction<'_, S>,
    room: RoomNo,
) -> Result<(), Error>
    ensures same_reference { tx.new.conn.ghost_name ≡ tx.old.conn.ghost_name }
    ensures makes { WritesBy S.Store (removes_insides room ∷ []) AnyRows (insides_gone room)
        tx.old.conn.now tx.new.conn.now result }
{
    run(tx, DELETE_INSIDES, &[numbered(room)])
}

/// Sets how many codes a room has, and its party; it is not secured.
pub(crate) fn set_issued<S: Alter>(
    tx: &mut Transaction<'_, S>,
    room: RoomNo,
    codes: u32,
    party: PartyNo,
) -> Result<(), Error>
    ensures same_reference { tx.new.conn.ghost_name ≡ tx.old.conn.ghost_name }
    ensures makes { WritesBy S.Store (sets_issued room codes party ∷ []) AnyRows (room_issued room codes party)
        tx.old.conn.now tx.new.conn.now result }
{
    run(
        tx,
        UPDATE_ISSUED,
        &[numbered(room), small(codes), numbered(party)],
    )
}

/// Leaves a room without a party.
pub fn free_room<S: Alter>(tx: &mut Transaction<'_, S>, room: RoomNo) -> Result<(), Error>
    ensures same_reference { tx.new.conn.ghost_name ≡ tx.old.conn.ghost_name }
    ensures makes { WritesBy S.Store (frees_room room ∷ []) AnyRows (room_freed room) tx.old.conn.now tx.new.conn.now
        result }
{
    run(tx, UPDATE_PARTY, &[numbered(room)])
}

/// Sets the place of a room's lock, whether it is secured, and how many notes were taken.
pub(crate) fn set_noted<S: Alter>(
    tx: &mut Transaction<'_, S>,
    room: RoomNo,
    lock_place: u32,
    secured: bool,
    notes: u32,
) -> Result<(), Error>
    ensures same_reference { tx.new.conn.ghost_name ≡ tx.old.conn.ghost_name }
    ensures makes { WritesBy S.Store (sets_noted room lock_place secured notes ∷ [])
        AnyRows (room_noted room lock_place secured notes) tx.old.conn.now tx.new.conn.now result }
{
    run(
        tx,
        UPDATE_NOTED,
        &[
            numbered(room),
            small(lock_place),
            bit(secured),
            small(notes),
        ],
    )
}

/// Sets the place of a room's new lock, and how many codes the room has; it is not secured.
pub(crate) fn set_refitted<S: Alter>(
    tx: &mut Transaction<'_, S>,
    room: RoomNo,
    lock_place: u32,
    codes: u32,
) -> Result<(), Error>
    ensures same_reference { tx.new.conn.ghost_name ≡ tx.old.conn.ghost_name }
    ensures makes { WritesBy S.Store (sets_refitted room lock_place codes ∷ []) AnyRows
        (room_refitted room lock_place codes) tx.old.conn.now tx.new.conn.now result }
{
    run(
        tx,
        UPDATE_REFITTED,
        &[numbered(room), small(lock_place), small(codes)],
    )
}

/// Sets how a stay stands.
pub fn set_state<S: Alter>(
    tx: &mut Transaction<'_, S>,
    party: PartyNo,
    state_now: StayState,
) -> Result<(), Error>
    ensures same_reference { tx.new.conn.ghost_name ≡ tx.old.conn.ghost_name }
    ensures makes { WritesBy S.Store (sets_state party state_now ∷ []) AnyRows (stay_set party state_now)
        tx.old.conn.now tx.new.conn.now result }
{
    run(
        tx,
        UPDATE_STATE,
        &[numbered(party), standing(&state_now), room_of(&state_now)],
    )
}
