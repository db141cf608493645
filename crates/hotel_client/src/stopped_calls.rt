//! Books of somebody else's, whose next call fails: what each call over them answers, and that a second one is carried
//! out.
use crate::audit_files::TWO_NOTES;
use crate::commands::{check_in, reply_to};
use crate::faults::{Name, of_import, of_list, of_look_up};
use crate::requests::booked;
use crate::values::first_card;
use hotel_audit::{LineAnswer, import};
use hotel_core::{Books, Refusal, Reply};
use hotel_lists::in_house;
use hotel_scenarios::desks::Desk;
use keycard_rules::LookFault;
use std::alloc::Global;
use std::test::Fail;
use stopping_books::StoppingBooks;

/// Why the call fails, as what a command is refused then, and by what name.
const CAUSES: [(LookFault, Refusal, Name); 2] = [
    (LookFault::Memory, Refusal::Memory, "memory"),
    (LookFault::Store, Refusal::Store, "store"),
];

/// The desk over its books, of which the first call fails.
fn stopped(desk: Desk, cause: LookFault) -> Desk<StoppingBooks> {
    Desk {
        alloc: desk.alloc,
        books: StoppingBooks::new(desk.books, 1, cause),
        source: desk.source,
    }
}

/// A booking of Ann Lee, over such books.
fn stopped_booking(alloc: Global, cause: LookFault) -> Result<Desk<StoppingBooks>, Fail> {
    Ok(stopped(booked(alloc)?, cause))
}

/// Ann Lee's party is in house, over such books.
fn stopped_stay(alloc: Global, cause: LookFault) -> Result<Desk<StoppingBooks>, Fail> {
    let mut desk = booked(alloc)?;
    reply_to(&mut desk, &check_in(1)?);
    Ok(stopped(desk, cause))
}

#[test]
fn look_ups(rt: HostRuntime) -> Result<(), Fail> {
    for (cause, _, name) in &CAUSES {
        let mut books = stopped_booking(rt.alloc(), *cause)?.books;
        assert!(rt; books.day().err().map(of_look_up) == Some(*name));
        assert!(rt; books.day().is_ok());
        assert!(rt; books.failures(*cause) == 1);
    }
    Ok(())
}

#[test]
fn steps(rt: HostRuntime) -> Result<(), Fail> {
    for (cause, refusal, _) in &CAUSES {
        let mut desk = stopped_booking(rt.alloc(), *cause)?;
        let command = check_in(1)?;
        assert!(rt; reply_to(&mut desk, &command) == Reply::Refused(*refusal));
        assert!(rt; reply_to(&mut desk, &command) == Reply::Issued(first_card()?));
    }
    Ok(())
}

#[test]
fn imports(rt: HostRuntime) -> Result<(), Fail> {
    for (cause, _, name) in &CAUSES {
        let mut desk = stopped_stay(rt.alloc(), *cause)?;
        let fault = import(rt.alloc(), &mut desk.books, TWO_NOTES).err();
        assert!(rt; fault.map(of_import) == Some((*name, 0, false)));
        let answers = import(rt.alloc(), &mut desk.books, TWO_NOTES)?;
        assert!(rt; answers.as_slice() == [LineAnswer::Taken, LineAnswer::Taken].as_slice());
    }
    Ok(())
}

#[test]
fn lists(rt: HostRuntime) -> Result<(), Fail> {
    for (cause, _, name) in &CAUSES {
        let mut books = stopped_stay(rt.alloc(), *cause)?.books;
        let mut writer = Vec::new(rt.alloc());
        let fault = in_house(rt.alloc(), &mut books, &mut writer).err();
        assert!(rt; fault.map(of_list) == Some(*name));
        assert!(rt; in_house(rt.alloc(), &mut books, &mut writer) == Ok(()));
        assert!(rt;
            writer
                .as_slice()
                .ends_with(b"101,1,Ann Lee,DBL,2031-05-03,no\n")
        );
    }
    Ok(())
}
