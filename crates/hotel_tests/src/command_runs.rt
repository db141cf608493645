//! Runs of commands in one call.
use hotel_asks::Ask;
use hotel_core::{Command, Reply, Walks, reply_text, run};
use hotel_scenarios::desks::Desk;
use hotel_scenarios::line_asks::ask_of;
use hotel_scenarios::scenarios::{CHECKED_IN, OPENED, Step, TWO_ENTRIES};
use std::alloc::Global;
use std::process::Abort;
use std::test::Fail;

/// Appends the command of each line of a part, and its answer.
fn push_part(
    alloc: Global,
    part: &[Step],
    commands: &mut Vec<Command>,
    answers: &mut Vec<u8>,
) -> Result<(), Fail> {
    for step in part {
        if let Step::Line(line, answer) = step
            && let Ask::Command(command) = ask_of(alloc, line)?
        {
            commands.push(command)?;
            answers.extend_from_slice(answer)?;
        }
    }
    Ok(())
}

/// The texts of replies, one after the other.
fn reply_texts(alloc: Global, replies: &[Reply]) -> Result<Vec<u8>, Fail> {
    let mut texts = Vec::new(alloc);
    for reply in replies {
        texts.extend_from_slice(reply_text(reply).as_bytes())?;
    }
    Ok(texts)
}

/// A run of these commands has so many replies, whose texts are the answers.
fn run_is_answered(
    rt: &(impl Abort + AllocGlobal),
    desk: &mut Desk<impl Walks>,
    commands: &[Command],
    count: usize,
    answers: &[u8],
) -> Result<(), Fail> {
    let replies = run(rt.alloc(), &mut desk.books, &mut desk.source, commands)?;
    assert!(rt; replies.len() == count);
    let texts = reply_texts(rt.alloc(), replies.as_slice())?;
    assert!(rt; texts.as_slice() == answers);
    Ok(())
}

/// The commands of the scenario "two-entries", and their answers.
fn push_two_entries(
    alloc: Global,
    commands: &mut Vec<Command>,
    answers: &mut Vec<u8>,
) -> Result<(), Fail> {
    push_part(alloc, OPENED, commands, answers)?;
    push_part(alloc, CHECKED_IN, commands, answers)?;
    push_part(alloc, TWO_ENTRIES, commands, answers)
}

/// The commands of the scenario "two-entries" have their seven replies in one run, after a run of no command.
fn runs_at_once(rt: &(impl Abort + AllocGlobal), desk: &mut Desk<impl Walks>) -> Result<(), Fail> {
    let mut commands = Vec::new(rt.alloc());
    let mut answers = Vec::new(rt.alloc());
    push_two_entries(rt.alloc(), &mut commands, &mut answers)?;
    run_is_answered(rt, desk, &[], 0, b"")?;
    run_is_answered(rt, desk, commands.as_slice(), 7, answers.as_slice())
}

#[test]
fn words_and_empties(rt: HostRuntime) -> Result<(), Fail> {
    let mut desk = Desk::of_codes(rt.alloc(), &[0xa0, 0xa1, 0xa2])?;
    runs_at_once(&rt, &mut desk)
}
