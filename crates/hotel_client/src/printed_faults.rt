//! Faults print what the desk prints of them, without a line feed, so that a client can hand them on by `?`.
use crate::values::day;
use hotel_audit::ImportFault;
use hotel_core::{Refusal, RunFault, WalkFault};
use hotel_http::ServeFault;
use hotel_lists::ListFault;
use hotel_lock::{AuditFault, LogFault};
use hotel_nights::GuestFault;
use hotel_program::{Fault, FileFault, ScriptFault, parse_words};
use hotel_streams::{ReadFault, WholeFault};
use hotel_tables::{OpenFault, TableName};
use keycard_rules::{DrawFault, LookFault, Memory, RecodeFault};
use std::alloc::Global;
use std::error::Error;
use std::test::Fail;

fn prints<E: Error>(alloc: Global, fault: &E, text: &str) -> Result<bool, Fail> {
    Ok(fault.to_string(alloc)?.as_str() == text)
}

#[test]
fn refusals_printed(rt: HostRuntime) -> Result<(), Fail> {
    let rows = [
        (Refusal::NotBegun, "refused 1 NotBegun"),
        (
            Refusal::KindFull(day(b"2026-12-24")?),
            "refused 17 KindFull 2026-12-24",
        ),
        (Refusal::Gap(3), "refused 22 Gap 3"),
        (Refusal::Store, "refused 30 Store"),
        (Refusal::FitsUsedUp, "refused 33 FitsUsedUp"),
    ];
    for row in &rows {
        assert!(rt; prints(rt.alloc(), &row.0, row.1)?);
    }
    Ok(())
}

#[test]
fn faults_of_books_printed(rt: HostRuntime) -> Result<(), Fail> {
    let alloc = rt.alloc();
    assert!(rt; prints(alloc, &Memory, "memory")?);
    assert!(rt; prints(alloc, &RecodeFault::HeldDiffers, "HeldDiffers")?);
    assert!(rt; prints(alloc, &DrawFault::NoFreshCode, "NoFreshCode")?);
    assert!(rt; prints(alloc, &GuestFault::Unread, "unread")?);
    assert!(rt; prints(alloc, &LookFault::Store, "store")?);
    assert!(rt; prints(alloc, &WalkFault::Stopped, "stopped")?);
    assert!(rt; prints(alloc, &RunFault { answered: 0 }, "memory")?);
    assert!(rt; prints(alloc, &OpenFault::NotADesk, "not a desk")?);
    assert!(rt;
        prints(
            alloc,
            &OpenFault::Damaged(TableName::Inside),
            "damaged inside"
        )?
    );
    Ok(())
}

#[test]
fn faults_of_calls_printed(rt: HostRuntime) -> Result<(), Fail> {
    let alloc = rt.alloc();
    let stopped = ImportFault::Store {
        answered: 12,
        taken: true,
    };
    assert!(rt; prints(alloc, &ListFault::NoRoom, "refused 6 NoRoom")?);
    assert!(rt; prints(alloc, &AuditFault::WrongHeader, "wrong header")?);
    assert!(rt; prints(alloc, &LogFault::Write, "write")?);
    assert!(rt; prints(alloc, &ImportFault::File(AuditFault::TooLarge), "too large")?);
    assert!(rt; prints(alloc, &stopped, "stopped after 12: Store")?);
    assert!(rt; prints(alloc, &ServeFault::Closed, "closed")?);
    assert!(rt; prints(alloc, &ScriptFault::TooLarge, "too large")?);
    let words = [
        String::from_str(alloc, "cancel")?,
        String::from_str(alloc, "x")?,
    ];
    let unread = parse_words(alloc, &words).err().ok_or("a fault")?;
    assert!(rt; prints(alloc, &unread, "unread PARTY")?);
    Ok(())
}

#[test]
fn faults_of_the_program_printed(rt: HostRuntime) -> Result<(), Fail> {
    let alloc = rt.alloc();
    let stopped = Fault::Stopped {
        answered: 12,
        by: LookFault::Memory,
    };
    let damaged = FileFault::Desk(OpenFault::Damaged(TableName::Stay));
    assert!(rt; prints(alloc, &ReadFault::Read, "read")?);
    assert!(rt; prints(alloc, &WholeFault::TooLarge, "too large")?);
    assert!(rt; prints(alloc, &Fault::WrongHeader, "wrong header")?);
    assert!(rt; prints(alloc, &stopped, "stopped after 12: Memory")?);
    assert!(rt; prints(alloc, &Fault::Books(damaged), "damaged stay")?);
    assert!(rt; prints(alloc, &Fault::Books(FileFault::File), "file")?);
    Ok(())
}
