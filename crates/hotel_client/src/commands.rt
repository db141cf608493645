//! The commands of scenario `two-entries`, and their replies.
use crate::values::{code, day, entered, first_card, guest, kind, nights, party, room};
use hotel_core::{Books, Command, Reply, step};
use hotel_scenarios::desks::Desk;
use std::alloc::Global;
use std::test::Fail;

/// The codes that a desk's source gives.
pub(crate) const CODES: &[u64] = &[0xa0, 0xa1, 0xa2, 0xa3, 0xa4];

fn begin() -> Result<Command, Fail> {
    Ok(Command::Begin(day(b"2031-05-01")?))
}

fn add_kind() -> Result<Command, Fail> {
    Ok(Command::AddKind(kind(b"DBL")?))
}

fn add_room() -> Result<Command, Fail> {
    Ok(Command::AddRoom {
        room: room(101)?,
        kind: kind(b"DBL")?,
    })
}

/// Two nights of the guest from the first day on.
pub(crate) fn reserve(alloc: Global, text: &str) -> Result<Command, Fail> {
    Ok(Command::Reserve {
        guest: guest(alloc, text)?,
        kind: kind(b"DBL")?,
        arrive: day(b"2031-05-01")?,
        nights: nights(2)?,
    })
}

pub(crate) fn check_in(number: u32) -> Result<Command, Fail> {
    Ok(Command::CheckIn {
        party: party(number)?,
        room: room(101)?,
    })
}

/// One room of the kind DBL, and a booking of the guest.
pub(crate) fn first_booking(alloc: Global, guest: &str) -> Result<Vec<Command>, Fail> {
    let mut commands = Vec::new(alloc);
    commands.push(begin()?)?;
    commands.push(add_kind()?)?;
    commands.push(add_room()?)?;
    commands.push(reserve(alloc, guest)?)?;
    Ok(commands)
}

/// The same, the guest's check-in, and two entries of her card.
pub(crate) fn two_entries(alloc: Global) -> Result<Vec<Command>, Fail> {
    let mut commands = first_booking(alloc, "Ann Lee")?;
    commands.push(check_in(1)?)?;
    commands.push(Command::Reported(entered(1)?))?;
    commands.push(Command::Reported(entered(2)?))?;
    Ok(commands)
}

/// The seven replies to them.
pub(crate) fn two_entries_answered() -> Result<[Reply; 7], Fail> {
    let code = code(0xa0)?;
    let party = party(1)?;
    let card = first_card()?;
    Ok([
        Reply::Begun,
        Reply::KindAdded,
        Reply::RoomAdded { code },
        Reply::Reserved { party },
        Reply::Issued(card),
        Reply::Taken,
        Reply::Taken,
    ])
}

/// The reply of the desk to a command.
pub(crate) fn reply_to<B: Books>(desk: &mut Desk<B>, command: &Command) -> Reply {
    step(&mut desk.books, &mut desk.source, command)
}

/// A desk over these empty books that carried out these commands.
pub(crate) fn desk_behind<B: Books + Drop>(
    alloc: Global,
    books: B,
    commands: &[Command],
) -> Result<Desk<B>, Fail> {
    let mut desk = Desk::over(alloc, books, CODES)?;
    for command in commands {
        reply_to(&mut desk, command);
    }
    Ok(desk)
}

/// A desk over these empty books where the first party is checked in.
pub(crate) fn checked_in<B: Books + Drop>(alloc: Global, books: B) -> Result<Desk<B>, Fail> {
    let mut commands = first_booking(alloc, "Ann Lee")?;
    commands.push(check_in(1)?)?;
    desk_behind(alloc, books, commands.as_slice())
}
