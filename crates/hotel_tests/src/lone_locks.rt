//! Locks that stand alone, by their own calls.
use hotel_lock::{Line, Lock, LogFault, LoggedLock, read_notes, write_notes};
use hotel_nights::Moment;
use hotel_streams::{FailingWriter, IoCalls};
use keycard_rules::{Act, CardNo, Code, FitNo, Link, LockNote, RoomNo};
use std::alloc::Global;
use std::process::Abort;
use std::test::Fail;

fn code(value: u64) -> Result<Code, Fail> {
    Ok(Code::new(value).ok_or("a code")?)
}

fn link(old_code: u64, new_code: u64) -> Result<Link, Fail> {
    Ok(Link {
        old_code: code(old_code)?,
        new_code: code(new_code)?,
    })
}

fn card(number: u32) -> Result<CardNo, Fail> {
    Ok(CardNo::new(number).ok_or("a card")?)
}

fn three_o_clock() -> Result<Moment, Fail> {
    Ok(Moment::read(b"2031-05-01T15:00:00").ok_or("a moment")?)
}

/// A new lock of room 101, set to a0.
fn fitted(alloc: Global) -> Result<LoggedLock, Fail> {
    let room = RoomNo::new(101).ok_or("a room")?;
    let fit = FitNo::new(1).ok_or("a fit")?;
    Ok(LoggedLock::fitted(alloc, room, fit, code(0xa0)?))
}

/// The lock holds this code, and its last note has this count and act.
fn stands<A: Abort>(
    rt: &A,
    logged: &LoggedLock,
    held: u64,
    made: u32,
    act: Act,
) -> Result<(), Fail> {
    assert!(rt; logged.lock().held() == code(held)?);
    assert!(rt; logged.lock().made() == made);
    let last = logged.notes().last().ok_or("a note")?;
    assert!(rt; last.count.value() == made);
    assert!(rt; last.act == act);
    Ok(())
}

/// Ann's card opens, twice, and then Bo's, behind which hers opens no more.
#[test]
fn two_guests_in_turn(rt: HostRuntime) -> Result<(), Fail> {
    let mut logged = fitted(rt.alloc())?;
    let at = three_o_clock()?;
    let (ann, bo) = (link(0xa0, 0xa1)?, link(0xa1, 0xa2)?);
    let (anns, bos) = (card(1)?, card(2)?);
    assert!(rt; logged.enter(bos, &link(0xb0, 0xb1)?, at)? == false);
    assert!(rt; logged.lock().made() == 0);
    for made in [1u32, 2] {
        assert!(rt; logged.enter(anns, &ann, at)?);
        stands(
            &rt,
            &logged,
            0xa1,
            made,
            Act::Entered {
                card: anns,
                link: ann,
            },
        )?;
    }
    assert!(rt; logged.enter(bos, &bo, at)?);
    stands(
        &rt,
        &logged,
        0xa2,
        3,
        Act::Entered {
            card: bos,
            link: bo,
        },
    )?;
    assert!(rt; logged.enter(anns, &ann, at)? == false);
    stands(
        &rt,
        &logged,
        0xa2,
        3,
        Act::Entered {
            card: bos,
            link: bo,
        },
    )
}

/// A card goes out once for each time it came in, and no card goes out that has other codes.
#[test]
fn exits_of_cards_inside(rt: HostRuntime) -> Result<(), Fail> {
    let mut logged = fitted(rt.alloc())?;
    let at = three_o_clock()?;
    let ann = link(0xa0, 0xa1)?;
    let anns = card(1)?;
    assert!(rt; logged.leave(anns, &ann, at)? == false);
    assert!(rt; logged.enter(anns, &ann, at)?);
    assert!(rt; logged.leave(anns, &link(0xa0, 0xa2)?, at)? == false);
    assert!(rt; logged.leave(card(2)?, &ann, at)? == false);
    assert!(rt; logged.leave(anns, &ann, at)?);
    stands(
        &rt,
        &logged,
        0xa1,
        2,
        Act::Left {
            card: anns,
            link: ann,
        },
    )?;
    assert!(rt; logged.leave(anns, &ann, at)? == false);
    assert!(rt; logged.lock().made() == 2);
    Ok(())
}

/// Staff set a lock to a code that it holds already: it makes no note of this.
#[test]
fn set_twice(rt: HostRuntime) -> Result<(), Fail> {
    let mut logged = fitted(rt.alloc())?;
    let at = three_o_clock()?;
    let (from, to) = (code(0xa0)?, code(0xa1)?);
    assert!(rt; logged.set(from, at)?);
    assert!(rt; logged.notes().is_empty());
    assert!(rt; logged.set(to, at)?);
    assert!(rt; logged.set(to, at)?);
    stands(&rt, &logged, 0xa1, 1, Act::Recoded { from, to })?;
    let first = logged.notes().first().ok_or("a note")?;
    let mut idle = *first;
    idle.act = Act::Recoded { from, to: from };
    assert!(rt; !is_replayed(rt.alloc(), &logged, from, &[idle])?);
    Ok(())
}

/// Staff set a lock; its notes are those of a lock alone, from its first code on and in their order.
#[test]
fn logs_replayed(rt: HostRuntime) -> Result<(), Fail> {
    let mut logged = fitted(rt.alloc())?;
    let at = three_o_clock()?;
    let (from, to) = (code(0xa0)?, code(0xa1)?);
    assert!(rt; logged.set(to, at)?);
    stands(&rt, &logged, 0xa1, 1, Act::Recoded { from, to })?;
    assert!(rt; logged.enter(card(2)?, &link(0xa1, 0xa2)?, at)?);
    assert!(rt; is_replayed(rt.alloc(), &logged, from, logged.notes())?);
    assert!(rt; !is_replayed(rt.alloc(), &logged, to, logged.notes())?);
    let (first, later) = logged.notes().split_first().ok_or("a note")?;
    assert!(rt; !is_replayed(rt.alloc(), &logged, from, later)?);
    assert!(rt; !is_replayed(rt.alloc(), &logged, from, &[*first, *first])?);
    Ok(())
}

/// The text of a log is a header and a line for each note, and is read as these notes. A failed write is a fault.
#[test]
fn logs_written_and_read(rt: HostRuntime) -> Result<(), Fail> {
    let alloc = rt.alloc();
    let mut logged = fitted(alloc)?;
    assert!(rt; logged.set(code(0xa1)?, three_o_clock()?)?);
    let mut text = Vec::new(alloc);
    assert!(rt; write_notes(alloc, logged.notes(), &mut text, &mut IoCalls::none()).is_ok());
    let header = "room,fit,count,kind,card,old,new,at\n";
    let line = "101,1,1,recode,,0000000000a0,0000000000a1,2031-05-01T15:00:00\n";
    assert!(rt; text.as_slice() == format!(in alloc; "{header}{line}")?.as_bytes());
    let lines = read_notes(alloc, &text).map_err(|_| "an audit file")?;
    assert!(rt; lines.len() == 1);
    let first = logged.notes().first().ok_or("a note")?;
    assert!(rt; lines.first() == Some(&Line::Note(*first)));
    let mut writer = FailingWriter {
        writer: Vec::new(alloc),
        good: 1,
    };
    let failed = write_notes(alloc, logged.notes(), &mut writer, &mut IoCalls::none());
    assert!(rt; failed == Err(LogFault::Write));
    assert!(rt; writer.writer.as_slice() == header.as_bytes());
    Ok(())
}

/// Whether notes are replayed to a lock that holds what this one does.
fn is_replayed(
    alloc: Global,
    logged: &LoggedLock,
    first: Code,
    notes: &[LockNote],
) -> Result<bool, Fail> {
    let lock: &Lock = logged.lock();
    let found = LoggedLock::replayed(alloc, lock.room(), lock.fit(), first, notes)?;
    Ok(match found {
        Some(again) => again.lock() == lock,
        None => false,
    })
}
