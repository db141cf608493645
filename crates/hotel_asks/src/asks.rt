//! What a verb and the texts of its values ask for.

ghost use Rattle.std.specs.Prelude.{◌≡◌, true, Err, length, map, [], ◌∷◌, IfOk, OnErr, IsSomeAnd};
ghost use Rattle.hotel_asks.specs.{Values.IsReading, Names.names_of, declared.values.AskFault.TheVariants.Values};
ghost use Rattle.hotel_asks.specs.{declared.values.ValueFault.TheVariants.Number};
ghost use Rattle.hotel_asks.specs.declared.verbs.Verb.TheVariants.{Reserve, Availability};
ghost use Rattle.hotel_asks.specs.Asks.{copies, ask_copies, command_of, list_of, ask_of, accepted};

use crate::asked::{Ask, ListAsk};
use crate::notes::{read_card_report, read_recoding};
use crate::texts::ValueTexts;
use crate::values::{
    AskFault, ValueFault, ValueName, read_card, read_day, read_guest, read_kind, read_nights,
    read_party, read_room,
};
use crate::verbs::Verb;
use hotel_core::Command;
use std::alloc::{AllocError, Global};

/// Reads a reservation.
fn read_reservation(
    alloc: Global,
    kind: &[u8],
    arrive: &[u8],
    nights: &[u8],
    guest: &[u8],
) -> Result<Command, AskFault>
    ensures { IsReading copies (command_of Reserve (kind.now ∷ arrive.now ∷ nights.now ∷ guest.now ∷ [])) result }
{
    let kind = read_kind(kind)?;
    let arrive = read_day(ValueName::Arrive, arrive)?;
    let nights = read_nights(nights)?;
    let guest = read_guest(alloc, guest)?;
    Ok(Command::Reserve {
        guest,
        kind,
        arrive,
        nights,
    })
}

/// Reads what the verb of a command and the texts of its values ask for.
fn read_command(alloc: Global, verb: Verb, values: &[&[u8]]) -> Result<Command, AskFault>
    ensures { IsReading copies (command_of verb (map (λ v. v.now) values.now)) result }
{
    match (verb, values) {
        (Verb::Begin, [day]) => Ok(Command::Begin(read_day(ValueName::Day, day)?)),
        (Verb::AddKind, [kind]) => Ok(Command::AddKind(read_kind(kind)?)),
        (Verb::AddRoom, [room, kind]) => Ok(Command::AddRoom {
            room: read_room(room)?,
            kind: read_kind(kind)?,
        }),
        (Verb::Reserve, [kind, arrive, nights, guest]) => {
            read_reservation(alloc, kind, arrive, nights, guest)
        }
        (Verb::Cancel, [party]) => Ok(Command::Cancel(read_party(party)?)),
        (Verb::CheckIn, [party, room]) => Ok(Command::CheckIn {
            party: read_party(party)?,
            room: read_room(room)?,
        }),
        (Verb::Spare, [party]) => Ok(Command::Spare(read_party(party)?)),
        (Verb::Reissue, [party]) => Ok(Command::Reissue(read_party(party)?)),
        (Verb::Transfer, [party, room]) => Ok(Command::Transfer {
            party: read_party(party)?,
            room: read_room(room)?,
        }),
        (Verb::CheckOut, [party]) => Ok(Command::CheckOut(read_party(party)?)),
        (Verb::Refit, [room]) => Ok(Command::Refit(read_room(room)?)),
        (Verb::NextDay, []) => Ok(Command::NextDay),
        (Verb::Entered, [lock, count, card, old, new, moment]) => {
            Ok(read_card_report(verb, lock, count, card, old, new, moment)?)
        }
        (Verb::Left, [lock, count, card, old, new, moment]) => {
            Ok(read_card_report(verb, lock, count, card, old, new, moment)?)
        }
        (Verb::Recoded, [lock, count, from, to, moment]) => {
            Ok(read_recoding(lock, count, from, to, moment)?)
        }
        _ => Err(AskFault::Values(ValueFault::Number)),
    }
}

/// Reads for which nights it is asked what can be booked.
fn read_availability(day: &[u8], nights: &[u8]) -> Result<ListAsk, ValueFault>
    ensures { result ≡ list_of Availability (day.now ∷ nights.now ∷ []) }
{
    let day = read_day(ValueName::Day, day)?;
    let nights = read_nights(nights)?;
    Ok(ListAsk::Availability(day, nights))
}

/// Reads what the verb of a list and the texts of its values ask for.
fn read_list(verb: Verb, values: &[&[u8]]) -> Result<ListAsk, ValueFault>
    ensures { result ≡ list_of verb (map (λ v. v.now) values.now) }
{
    match (verb, values) {
        (Verb::Arrivals, [day]) => Ok(ListAsk::Arrivals(read_day(ValueName::Day, day)?)),
        (Verb::InHouse, []) => Ok(ListAsk::InHouse),
        (Verb::ChainOf, [room]) => Ok(ListAsk::ChainOf(read_room(room)?)),
        (Verb::LeftBehind, []) => Ok(ListAsk::LeftBehind),
        (Verb::AuditOf, [room]) => Ok(ListAsk::AuditOf(read_room(room)?)),
        (Verb::BusinessDay, []) => Ok(ListAsk::BusinessDay),
        (Verb::RoomStatus, []) => Ok(ListAsk::RoomStatus),
        (Verb::Inside, []) => Ok(ListAsk::Inside),
        (Verb::Bookings, []) => Ok(ListAsk::Bookings),
        (Verb::Availability, [day, nights]) => read_availability(day, nights),
        (Verb::CardsGiven, [party]) => Ok(ListAsk::CardsGiven(read_party(party)?)),
        (Verb::CardOf, [card]) => Ok(ListAsk::CardOf(read_card(card)?)),
        (Verb::Locks, []) => Ok(ListAsk::Locks),
        _ => Err(ValueFault::Number),
    }
}

/// Reads what the verb and the texts of its values ask for, the values from left to right. Each value
/// is one text, also the guest. `Memory` where there was none to copy the guest's name.
pub fn read_ask(alloc: Global, verb: Verb, values: &ValueTexts) -> Result<Ask, AskFault>
    ensures reading { IsReading ask_copies (ask_of verb values.now) result }
    ensures number { result ≡ Err (Values Number) → length values.now ≡ length (names_of verb) → ⊥ }
{
    if verb.is_list() {
        Ok(Ask::List(read_list(verb, values.as_slice())?))
    } else {
        Ok(Ask::Command(read_command(alloc, verb, values.as_slice())?))
    }
}

/// What the verb and the texts of its values ask for. None where a value is refused, or there are too few or too many.
pub fn accept_ask(alloc: Global, verb: Verb, values: &ValueTexts) -> Result<Option<Ask>, AllocError>
    ensures read { IfOk result (λ asked. asked ≡ accepted verb values.now) }
    ensures memory { OnErr result (IsSomeAnd (accepted verb values.now) (λ asked. ask_copies asked ≡ true)) }
{
    match read_ask(alloc, verb, values) {
        Ok(asked) => Ok(Some(asked)),
        Err(AskFault::Values(_)) => Ok(None),
        Err(AskFault::Memory) => Err(AllocError),
    }
}
