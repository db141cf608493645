//! Books in memory: commands by `run`, by `step` and by `report`, and the values of their replies.
use crate::commands::{CODES, desk_behind, reply_to, two_entries, two_entries_answered};
use crate::look_ups::rows_are_found;
use crate::values::{card_number, code, entered, fit, link, note, party, room};
use hotel_core::{Command, ListBooks, Refusal, Reply, report, run};
use hotel_scenarios::desks::Desk;
use keycard_rules::Act;
use std::alloc::Global;
use std::test::Fail;

/// A desk over books in memory, behind scenario `two-entries`.
pub(crate) fn two_entries_in_memory(alloc: Global) -> Result<Desk, Fail> {
    let commands = two_entries(alloc)?;
    desk_behind(alloc, ListBooks::empty(alloc), commands.as_slice())
}

#[test]
fn replies_of_a_run(rt: HostRuntime) -> Result<(), Fail> {
    let alloc = rt.alloc();
    let mut desk = Desk::over(alloc, ListBooks::empty(alloc), CODES)?;
    let commands = two_entries(alloc)?;
    let wanted = two_entries_answered()?;
    let replies = run(
        alloc,
        &mut desk.books,
        &mut desk.source,
        commands.as_slice(),
    )?;
    assert!(rt; replies.as_slice() == wanted.as_slice());
    Ok(())
}

#[test]
fn rows_in_memory(rt: HostRuntime) -> Result<(), Fail> {
    let mut desk = two_entries_in_memory(rt.alloc())?;
    rows_are_found(&rt, &mut desk.books)
}

/// An entry or an exit, its count, its card and the card's later code, and the reply.
type Noted = (bool, u32, u32, u64, Reply);

/// Scenario `note-refusals`, after a note that is known and one that comes too early.
const NOTES: [Noted; 7] = [
    (true, 2, 1, 0xa1, Reply::Seen),
    (true, 5, 1, 0xa1, Reply::Refused(Refusal::Gap(3))),
    (true, 1, 9, 0xa1, Reply::Refused(Refusal::Conflict)),
    (true, 3, 9, 0xa1, Reply::Refused(Refusal::NoCard)),
    (true, 3, 1, 0xa2, Reply::Refused(Refusal::CardDiffers)),
    (false, 3, 1, 0xa1, Reply::Taken),
    (false, 4, 1, 0xa1, Reply::Refused(Refusal::NotInside)),
];

/// What the lock noted: an entry or an exit of the card.
fn act_of(enters: bool, number: u32, new_code: u64) -> Result<Act, Fail> {
    let card = card_number(number)?;
    let link = link(0xa0, new_code)?;
    Ok(if enters {
        Act::Entered { card, link }
    } else {
        Act::Left { card, link }
    })
}

#[test]
fn replies_of_reports(rt: HostRuntime) -> Result<(), Fail> {
    let mut desk = two_entries_in_memory(rt.alloc())?;
    for (enters, count, card, new_code, reply) in &NOTES {
        let note = note(*count, act_of(*enters, *card, *new_code)?)?;
        assert!(rt; report(&mut desk.books, &note) == *reply);
    }
    Ok(())
}

/// The lock of a room is replaced once no party has it; a note of the earlier lock that isn't known comes too late.
#[test]
fn replies_of_a_refit(rt: HostRuntime) -> Result<(), Fail> {
    let mut desk = two_entries_in_memory(rt.alloc())?;
    let refit = Command::Refit(room(101)?);
    assert!(rt; reply_to(&mut desk, &refit) == Reply::Refused(Refusal::RoomTaken));
    assert!(rt; reply_to(&mut desk, &Command::CheckOut(party(1)?)) == Reply::CheckedOut);
    let refitted = Reply::Refitted {
        code: code(0xa2)?,
        fit: fit(2)?,
    };
    assert!(rt; reply_to(&mut desk, &refit) == refitted);
    assert!(rt; report(&mut desk.books, &entered(3)?) == Reply::Refused(Refusal::OldFit));
    Ok(())
}
