//! The lists, by their own calls over books of any kind.
use crate::books_in_memory::two_entries_in_memory;
use crate::commands::{check_in, desk_behind, first_booking, reserve};
use crate::values::{card_number, day, nights, party, room};
use hotel_core::lists::CardsGiven;
use hotel_core::{Command, ListBooks, Walks};
use hotel_lists::{
    arrivals, audit_of, availability, bookings, business_day, card_of, chain_of, in_house, inside,
    left_behind, locks, room_status, write_rows,
};
use hotel_streams::IoCalls;
use std::alloc::Global;
use std::process::Abort;
use std::test::Fail;

/// The lists, those of the first day, of room 101, of party 1 and of card 1, one after the other.
fn lists_of<B: Walks>(alloc: Global, books: &mut B) -> Result<Vec<u8>, Fail> {
    let mut writer = Vec::new(alloc);
    let room = room(101)?;
    arrivals(alloc, books, day(b"2031-05-01")?, &mut writer)?;
    in_house(alloc, books, &mut writer)?;
    chain_of(alloc, books, room, &mut writer)?;
    left_behind(alloc, books, &mut writer)?;
    audit_of(alloc, books, room, &mut writer)?;
    business_day(alloc, books, &mut writer)?;
    room_status(alloc, books, &mut writer)?;
    inside(alloc, books, &mut writer)?;
    bookings(alloc, books, &mut writer)?;
    availability(alloc, books, day(b"2031-05-01")?, nights(2)?, &mut writer)?;
    write_rows(
        alloc,
        books,
        &CardsGiven(party(1)?),
        &mut writer,
        &mut IoCalls::none(),
    )?;
    card_of(alloc, books, card_number(1)?, &mut writer)?;
    locks(alloc, books, &mut writer)?;
    Ok(writer)
}

/// Of scenario `two-entries`.
const TWO_ENTRIES: &[u8] = b"party,guest,kind,arrive,depart
room,party,guest,kind,depart,secured
101,1,Ann Lee,DBL,2031-05-03,yes
place,code,state
0,0000000000a0,passed
1,0000000000a1,held
room,held,current,awaited
room,fit,count,kind,card,old,new,at
101,1,1,in,1,0000000000a0,0000000000a1,2031-05-01T15:00:00
101,1,2,in,1,0000000000a0,0000000000a1,2031-05-01T15:00:00
day
2031-05-01
room,kind,party,secured,awaited
101,DBL,1,yes,0
room,card,party
101,1,1
party,guest,kind,arrive,depart
kind,rooms,free
DBL,1,0
card,old,new
1,0000000000a0,0000000000a1
card,party,guest,old,new
1,1,Ann Lee,0000000000a0,0000000000a1
room,fit,count,at
101,1,2,2031-05-01T15:00:00
";

pub(crate) fn lists_are_written<B: Walks>(
    rt: &(impl Abort + AllocGlobal),
    books: &mut B,
) -> Result<(), Fail> {
    let lists = lists_of(rt.alloc(), books)?;
    assert!(rt; lists.as_slice() == TWO_ENTRIES);
    Ok(())
}

#[test]
fn lists_of_memory(rt: HostRuntime) -> Result<(), Fail> {
    let mut desk = two_entries_in_memory(rt.alloc())?;
    lists_are_written(&rt, &mut desk.books)
}

/// Of scenario `quoted-guest`.
const QUOTED: &[u8] = b"party,guest,kind,arrive,depart
1,\"Lee, Ann\",DBL,2031-05-01,2031-05-03
room,party,guest,kind,depart,secured
place,code,state
0,0000000000a0,held
room,held,current,awaited
room,fit,count,kind,card,old,new,at
day
2031-05-01
room,kind,party,secured,awaited
101,DBL,,no,0
room,card,party
party,guest,kind,arrive,depart
1,\"Lee, Ann\",DBL,2031-05-01,2031-05-03
kind,rooms,free
DBL,1,0
card,old,new
card,party,guest,old,new
room,fit,count,at
101,1,0,
";

/// Of scenario `left-behind-recoded` before its notes.
const LEFT_BEHIND: &[u8] = b"party,guest,kind,arrive,depart
room,party,guest,kind,depart,secured
101,2,Bo,DBL,2031-05-03,no
place,code,state
0,0000000000a0,held
1,0000000000a1,awaited
2,0000000000a2,awaited
room,held,current,awaited
101,0000000000a0,0000000000a2,2
room,fit,count,kind,card,old,new,at
day
2031-05-01
room,kind,party,secured,awaited
101,DBL,2,no,2
room,card,party
party,guest,kind,arrive,depart
kind,rooms,free
DBL,1,0
card,old,new
1,0000000000a0,0000000000a1
card,party,guest,old,new
1,1,Ann Lee,0000000000a0,0000000000a1
room,fit,count,at
101,1,0,
";

/// After the commands these are the lists.
fn lists_behind(
    rt: &(impl Abort + AllocGlobal),
    commands: &[Command],
    text: &[u8],
) -> Result<(), Fail> {
    let mut desk = desk_behind(rt.alloc(), ListBooks::empty(rt.alloc()), commands)?;
    let lists = lists_of(rt.alloc(), &mut desk.books)?;
    assert!(rt; lists.as_slice() == text);
    Ok(())
}

#[test]
fn lists_without_notes(rt: HostRuntime) -> Result<(), Fail> {
    lists_behind(
        &rt,
        first_booking(rt.alloc(), "Lee, Ann")?.as_slice(),
        QUOTED,
    )?;
    let mut commands = first_booking(rt.alloc(), "Ann Lee")?;
    commands.push(check_in(1)?)?;
    commands.push(Command::CheckOut(party(1)?))?;
    commands.push(reserve(rt.alloc(), "Bo")?)?;
    commands.push(check_in(2)?)?;
    lists_behind(&rt, commands.as_slice(), LEFT_BEHIND)
}
