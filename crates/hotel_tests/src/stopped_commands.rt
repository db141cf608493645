//! Commands of which each call of the books fails in turn, for each cause, and which are then asked for again.
use crate::asked_commands::{Asked, COMMANDS, NOTES, REFUSALS};
use crate::causes::{CAUSES, counts, counts_of, refusal_of, stopping};
use hotel_scenarios::desks::Desk;
use hotel_scenarios::rooms_now::RoomNow;
use keycard_rules::LookFault;
use std::alloc::Global;
use std::process::Abort;
use std::test::Fail;
use stopping_books::StoppingBooks;

impl Asked {
    /// The desk without so many of the words that the command examines, and the answer there.
    fn desk(&self, alloc: Global, gone: usize) -> Result<(Desk, &'static [u8]), Fail> {
        let (codes, answer) = *self.answers.get(gone).ok_or("an answer")?;
        let desk = Desk::behind(alloc, codes, self.parts)?;
        Ok((desk, answer))
    }
}

/// The command is asked for, and is answered so, by so many calls of the books.
fn is_answered<A: Abort>(
    rt: &A,
    desk: &mut Desk<StoppingBooks>,
    line: &[u8],
    answer: &[u8],
    calls: u64,
) -> Result<(), Fail> {
    let before = desk.books.calls();
    assert!(rt; desk.answers(line, answer)?);
    assert!(rt; desk.books.calls() == before.saturating_add(calls));
    Ok(())
}

/// The command is answered, and changes the rows, as on a desk that lacks so many words and on which nothing failed.
fn goes_on(
    rt: &(impl Abort + AllocGlobal),
    asked: &Asked,
    desk: &mut Desk<StoppingBooks>,
    gone: usize,
) -> Result<(), Fail> {
    let (mut other, answer) = asked.desk(rt.alloc(), gone)?;
    let calls = asked.calls.len() as u64;
    is_answered(rt, desk, asked.line, answer, calls)?;
    assert!(rt; other.answers(asked.line, answer)?);
    let wanted = RoomNow::of(rt.alloc(), &mut other.books)?;
    assert!(rt; RoomNow::of(rt.alloc(), &mut desk.books)? == wanted);
    Ok(())
}

/// The call of this number fails for this cause: the command is refused so, changes nothing, and makes no further call.
/// The failure is counted once, and the command that is asked for again goes on as if nothing had been.
fn fails_at(
    rt: &(impl Abort + AllocGlobal),
    asked: &Asked,
    call: u64,
    gone: usize,
    cause: LookFault,
) -> Result<(), Fail> {
    let (mut desk, _) = asked.desk(rt.alloc(), 0)?;
    let before = RoomNow::of(rt.alloc(), &mut desk.books)?;
    let mut desk = stopping(desk, call, cause);
    is_answered(rt, &mut desk, asked.line, refusal_of(cause), call)?;
    assert!(rt; RoomNow::of(rt.alloc(), &mut desk.books)? == before);
    goes_on(rt, asked, &mut desk, gone)?;
    assert!(rt; counts(&desk.books) == counts_of(Some(cause)));
    Ok(())
}

/// Each call of the command fails in turn, for each cause.
fn fails_in_turn(rt: &(impl Abort + AllocGlobal), asked: &Asked) -> Result<(), Fail> {
    let mut call = 0u64;
    for (_, gone) in asked.calls {
        call = call.saturating_add(1);
        for cause in CAUSES {
            fails_at(rt, asked, call, *gone, cause)?;
        }
    }
    Ok(())
}

#[test]
fn each_call_of_a_command_fails(rt: HostRuntime) -> Result<(), Fail> {
    for asked in COMMANDS {
        fails_in_turn(&rt, asked)?;
    }
    Ok(())
}

#[test]
fn each_call_of_a_note_fails(rt: HostRuntime) -> Result<(), Fail> {
    for asked in NOTES {
        fails_in_turn(&rt, asked)?;
    }
    Ok(())
}

#[test]
fn each_call_of_a_refusal_fails(rt: HostRuntime) -> Result<(), Fail> {
    for asked in REFUSALS {
        fails_in_turn(&rt, asked)?;
    }
    Ok(())
}
