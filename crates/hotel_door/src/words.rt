//! The command line.

use crate::acts::Doing;
use clap::error::ErrorKind;
use clap::{Arg, ArgMatches, Command, Error};
use hotel_nights::Moment;
use keycard_rules::{CardNo, Code, Count, FitNo, Link, RoomNo};
use std::alloc::{AllocError, Global};

/// What is asked for.
#[derive(Clone, Copy)]
pub(crate) enum Asked {
    /// A new lock in a new file.
    Fit {
        room: RoomNo,
        fit: FitNo,
        code: Code,
    },
    /// Something happens at the door, at this moment or else now.
    Do {
        doing: Doing,
        at: Option<Moment>,
    },
    /// The log behind so many notes, as an audit file.
    Log {
        after: usize,
    },
    /// How the lock stands.
    State,
}

/// What the words say.
#[derive(Clone, Copy)]
pub(crate) struct Words<'a> {
    /// The name of the lock's file.
    pub file: &'a str,
    pub asked: Asked,
}

/// Why the words say nothing.
#[derive(Debug, Drop)]
pub(crate) enum UsageFault {
    /// Help or the version was asked for.
    Shown(String),
    /// They aren't those of the command line.
    Usage(String),
    /// The value of this name isn't one.
    Value(&'static str),
    /// A growth of memory was refused.
    Memory,
}

/// A word of the command line.
struct Word {
    name: &'static str,
    about: &'static str,
    /// Its values, which are all required, with what each is.
    values: &'static [(&'static str, &'static str)],
    /// Its option, with the name of the option's value and what it is.
    option: Option<(&'static str, &'static str, &'static str)>,
}

const ABOUT_AT: &str = "the time, YYYY-MM-DDTHH:MM:SS; without it the computer's, in UTC";

static WORDS: [Word; 6] = [
    Word {
        name: "fit",
        about: "Fit a new lock, in a new file: fit 101 1 CODE",
        values: &[
            ("ROOM", "a room's number, 1 to 9999"),
            ("FIT", "the number of the room's lock, 1 to 99"),
            ("CODE", "a code: 1 to 12 hexadecimal digits"),
        ],
        option: None,
    },
    Word {
        name: "show",
        about: "Show a card to the lock from outside: show 1 OLD NEW",
        values: &[
            ("CARD", "a card's number, 1 to 9999999"),
            ("OLD", "the card's old code: 1 to 12 hexadecimal digits"),
            ("NEW", "the card's new code: 1 to 12 hexadecimal digits"),
        ],
        option: Some(("at", "MOMENT", ABOUT_AT)),
    },
    Word {
        name: "leave",
        about: "Show a card on the way out: leave 1 OLD NEW",
        values: &[
            ("CARD", "a card's number, 1 to 9999999"),
            ("OLD", "the card's old code: 1 to 12 hexadecimal digits"),
            ("NEW", "the card's new code: 1 to 12 hexadecimal digits"),
        ],
        option: Some(("at", "MOMENT", ABOUT_AT)),
    },
    Word {
        name: "set",
        about: "Set the lock to a code, as staff do: set CODE",
        values: &[("CODE", "a code: 1 to 12 hexadecimal digits")],
        option: Some(("at", "MOMENT", ABOUT_AT)),
    },
    Word {
        name: "log",
        about: "Print the lock's log, for hotel_desk audit: log --after 7",
        values: &[],
        option: Some((
            "after",
            "COUNT",
            "the count of the last note that the desk has",
        )),
    },
    Word {
        name: "state",
        about: "Print how the lock stands",
        values: &[],
        option: None,
    },
];

/// A word's command, with its values and its option.
fn word_command<'a>(alloc: Global, word: &Word) -> Result<Command<'a>, AllocError> {
    let mut command = Command::new(alloc, word.name).about(word.about);
    for value in word.values {
        let arg = Arg::new(alloc, value.0).help(value.1).required(true);
        command = command.arg(arg)?;
    }
    if let Some(option) = word.option {
        let arg = Arg::new(alloc, option.0)
            .long(option.0)
            .value_name(option.1)
            .help(option.2);
        command = command.arg(arg)?;
    }
    Ok(command)
}

/// The program's own option: the lock's file.
fn with_file<'a>(alloc: Global) -> Result<Command<'a>, AllocError> {
    let file = Arg::new(alloc, "lock")
        .long("lock")
        .value_name("FILE")
        .required(true)
        .help("the lock's file");
    Command::new(alloc, "hotel_door")
        .bin_name("hotel_door")?
        .version("1")
        .about("A lock in a file: the lock of one door, for trying the desk and for training.")
        .no_binary_name(true)
        .subcommand_required(true)
        .arg(file)
}

/// The command line with all its words.
fn door_command<'a>(alloc: Global) -> Result<Command<'a>, AllocError> {
    let mut command = with_file(alloc)?;
    for word in &WORDS {
        command = command.subcommand(word_command(alloc, word)?)?;
    }
    Ok(command)
}

/// The text of a value, which the command line requires.
fn text<'a>(matches: &ArgMatches<'a>, name: &'static str) -> Result<&'a [u8], UsageFault> {
    match matches.get_str(name) {
        Some(text) => Ok(text.as_bytes()),
        None => Err(UsageFault::Value(name)),
    }
}

fn code(matches: &ArgMatches, name: &'static str) -> Result<Code, UsageFault> {
    Code::read(text(matches, name)?).ok_or(UsageFault::Value(name))
}

fn card(matches: &ArgMatches) -> Result<CardNo, UsageFault> {
    CardNo::read(text(matches, "CARD")?).ok_or(UsageFault::Value("CARD"))
}

/// The codes of a card.
fn link(matches: &ArgMatches) -> Result<Link, UsageFault> {
    Ok(Link {
        old_code: code(matches, "OLD")?,
        new_code: code(matches, "NEW")?,
    })
}

/// The moment, where one is given.
fn at(matches: &ArgMatches) -> Result<Option<Moment>, UsageFault> {
    match matches.get_str("at") {
        None => Ok(None),
        Some(text) => match Moment::read(text.as_bytes()) {
            Some(moment) => Ok(Some(moment)),
            None => Err(UsageFault::Value("MOMENT")),
        },
    }
}

/// How many notes are left out of a log: none, where nothing is said.
fn after(matches: &ArgMatches) -> Result<usize, UsageFault> {
    match matches.get_str("after") {
        None => Ok(0),
        Some("0") => Ok(0),
        Some(text) => match Count::read(text.as_bytes()) {
            Some(count) => Ok(count.value() as usize),
            None => Err(UsageFault::Value("COUNT")),
        },
    }
}

/// What happens at the door, and when.
fn doing_in(name: &str, matches: &ArgMatches) -> Result<Asked, UsageFault> {
    let doing = match name {
        "show" => Doing::Show {
            card: card(matches)?,
            link: link(matches)?,
        },
        "leave" => Doing::Leave {
            card: card(matches)?,
            link: link(matches)?,
        },
        _ => Doing::Set {
            code: code(matches, "CODE")?,
        },
    };
    let at = at(matches)?;
    Ok(Asked::Do { doing, at })
}

/// What a word asks for.
fn ask_in(name: &str, matches: &ArgMatches) -> Result<Asked, UsageFault> {
    match name {
        "fit" => Ok(Asked::Fit {
            room: RoomNo::read(text(matches, "ROOM")?).ok_or(UsageFault::Value("ROOM"))?,
            fit: FitNo::read(text(matches, "FIT")?).ok_or(UsageFault::Value("FIT"))?,
            code: code(matches, "CODE")?,
        }),
        "log" => Ok(Asked::Log {
            after: after(matches)?,
        }),
        "state" => Ok(Asked::State),
        _ => doing_in(name, matches),
    }
}

/// What `clap` says of words.
fn usage_fault(alloc: Global, error: &Error) -> UsageFault {
    let Ok(text) = error.to_string(alloc) else {
        return UsageFault::Memory;
    };
    match error.kind() {
        ErrorKind::OutOfMemory => UsageFault::Memory,
        ErrorKind::DisplayHelp | ErrorKind::DisplayVersion => UsageFault::Shown(text),
        _ => UsageFault::Usage(text),
    }
}

/// What the words after the program's name say.
pub(crate) fn parse_words<'a>(alloc: Global, words: &'a [String]) -> Result<Words<'a>, UsageFault> {
    let Ok(command) = door_command(alloc) else {
        return Err(UsageFault::Memory);
    };
    let matches = match command.try_get_matches_from(words) {
        Ok(matches) => matches,
        Err(error) => return Err(usage_fault(alloc, &error)),
    };
    let Some(file) = matches.get_str("lock") else {
        return Err(UsageFault::Value("FILE"));
    };
    let Some((name, inner)) = matches.subcommand() else {
        return Err(UsageFault::Value("WORD"));
    };
    let asked = ask_in(name, inner)?;
    Ok(Words { file, asked })
}
