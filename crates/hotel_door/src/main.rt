//! A lock in a file: the lock of one door, with which a hotel can try the desk, and train.
#![tactic(auto)]

mod acts;
mod faults;
mod host;
mod lock_file;
mod words;

use crate::acts::Doing;
use crate::faults::{DONE, Fault, REFUSED, USAGE};
use crate::host::{create_file, now, read_file, replace_file};
use crate::lock_file::{happen, lock_text, read_lock};
use crate::words::{Asked, UsageFault, Words, parse_words};
use hotel_lock::{LogFault, LoggedLock, write_notes};
use hotel_nights::Moment;
use hotel_streams::{IoCalls, write_bytes};
use keycard_rules::{Code, FitNo, RoomNo};
use std::process::ExitCode;
use std::{env, io};

/// Prints bytes.
fn print(rt: &HostRuntime, bytes: &[u8]) -> Result<(), Fault> {
    let mut writer = rt.stdout().lock();
    write_bytes(&mut writer, bytes, &mut IoCalls::none()).map_err(|_| Fault::Write)
}

/// Says what is wrong. Where that goes wrong, nobody hears of it.
fn say(rt: &HostRuntime, text: &[u8]) {
    let mut writer = rt.stderr().lock();
    let _ = write_bytes(&mut writer, text, &mut IoCalls::none());
}

/// The lock of a file.
fn open_lock(rt: &HostRuntime, file: &str) -> Result<LoggedLock, Fault> {
    let bytes = read_file(rt, file)?;
    read_lock(rt.alloc(), &bytes)
}

/// A new lock in a new file.
fn fit(rt: &HostRuntime, file: &str, room: RoomNo, fit: FitNo, code: Code) -> Result<u8, Fault> {
    let logged = LoggedLock::fitted(rt.alloc(), room, fit, code);
    let text = lock_text(rt.alloc(), &logged)?;
    create_file(rt, file, &text)?;
    print(rt, b"fitted\n")?;
    Ok(DONE)
}

/// Something happens at the door. The file is replaced before the answer is printed.
fn act(rt: &HostRuntime, file: &str, doing: &Doing, at: Option<Moment>) -> Result<u8, Fault> {
    let bytes = read_file(rt, file)?;
    let at = match at {
        Some(at) => at,
        None => now(rt)?,
    };
    match happen(rt.alloc(), &bytes, doing, at)? {
        Some(text) => {
            replace_file(rt, file, &text)?;
            print(rt, doing.text(true))?;
            Ok(DONE)
        }
        None => {
            print(rt, doing.text(false))?;
            Ok(REFUSED)
        }
    }
}

/// Prints the log behind so many notes.
fn log(rt: &HostRuntime, file: &str, after: usize) -> Result<u8, Fault> {
    let logged = open_lock(rt, file)?;
    let later = logged.notes().get(after..).unwrap_or(&[]);
    let mut writer = rt.stdout().lock();
    match write_notes(rt.alloc(), later, &mut writer, &mut IoCalls::none()) {
        Ok(()) => Ok(DONE),
        Err(LogFault::Write) => Err(Fault::Write),
        Err(LogFault::Memory) => Err(Fault::Memory),
    }
}

/// Prints how the lock stands.
fn state(rt: &HostRuntime, file: &str) -> Result<u8, Fault> {
    let logged = open_lock(rt, file)?;
    let text = lock_text(rt.alloc(), &logged)?;
    let head = text.split(|byte| *byte == b'\n').next().unwrap_or(b"");
    print(rt, head)?;
    print(rt, b"\n")?;
    Ok(DONE)
}

/// Carries out what is asked for.
fn answer(rt: &HostRuntime, words: &Words) -> Result<u8, Fault> {
    match &words.asked {
        Asked::Fit {
            room,
            fit: number,
            code,
        } => fit(rt, words.file, *room, *number, *code),
        Asked::Do { doing, at } => act(rt, words.file, doing, *at),
        Asked::Log { after } => log(rt, words.file, *after),
        Asked::State => state(rt, words.file),
    }
}

/// Shows help, or says what is wrong with the words.
fn say_usage(rt: &HostRuntime, why: &UsageFault) -> Result<u8, Fault> {
    match why {
        UsageFault::Shown(text) => {
            print(rt, text.as_bytes())?;
            return Ok(DONE);
        }
        UsageFault::Usage(text) => say(rt, text.as_bytes()),
        UsageFault::Value(name) => {
            say(rt, b"unread ");
            say(rt, name.as_bytes());
            say(rt, b"\n");
        }
        UsageFault::Memory => return Err(Fault::Memory),
    }
    Ok(USAGE)
}

/// The program. It answers the exit status.
fn run(rt: &HostRuntime, words: &[String]) -> Result<u8, Fault> {
    match parse_words(rt.alloc(), words) {
        Ok(words) => answer(rt, &words),
        Err(why) => say_usage(rt, &why),
    }
}

/// The words after the program's name.
fn given_words(rt: &HostRuntime) -> io::Result<Vec<String>> {
    let mut words = env::args(rt)?;
    words.next();
    Ok(words.collect(rt.alloc())?)
}

fn main(rt: HostRuntime) -> ExitCode {
    let end = match given_words(&rt) {
        Ok(words) => run(&rt, &words),
        Err(_) => Err(Fault::Memory),
    };
    ExitCode::from(match end {
        Ok(status) => status,
        Err(fault) => {
            say(&rt, fault.text());
            fault.status()
        }
    })
}
