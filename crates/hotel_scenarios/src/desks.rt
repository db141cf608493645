//! A desk over books, for the tests of books, lists, imports and tables.
use crate::line_asks::ask_of;
use crate::scenarios::{CHECKED_IN, OPENED, Step};
use hotel_asks::Ask;
use hotel_core::{Books, Command, ListBooks, Reply, step};
use keycard_rules::{ListedWords, RoomNo};
use std::alloc::Global;
use std::test::Fail;

/// A desk over books, which are in memory where nothing else is said.
#[derive(Drop)]
pub struct Desk<B = ListBooks> {
    pub alloc: Global,
    pub books: B,
    pub source: ListedWords,
}

pub fn room(number: u32) -> Result<RoomNo, Fail> {
    Ok(RoomNo::new(number).ok_or("a room")?)
}

/// Words by which a source gives these codes.
pub fn words_of(alloc: Global, codes: &[u64]) -> Result<Vec<u64>, Fail> {
    let mut words = Vec::new(alloc);
    for code in codes {
        words.push(code.wrapping_mul(65_536))?;
    }
    Ok(words)
}

impl Desk {
    /// A desk whose source gives these codes.
    pub fn of_codes(alloc: Global, codes: &[u64]) -> Result<Desk, Fail> {
        Desk::over(alloc, ListBooks::empty(alloc), codes)
    }

    /// A desk whose source gives these codes, behind these parts of scenarios.
    pub fn behind(alloc: Global, codes: &[u64], parts: &[&[Step]]) -> Result<Desk, Fail> {
        let mut desk = Desk::of_codes(alloc, codes)?;
        desk.goes_through(parts)?;
        Ok(desk)
    }

    /// Room 101, where party 1 checked in: code a0, then a1. The source gives a2 and b0 next.
    pub fn of_one_guest(alloc: Global) -> Result<Desk, Fail> {
        Desk::behind(alloc, &[0xa0, 0xa1, 0xa2, 0xb0], &[OPENED, CHECKED_IN])
    }
}

impl<B: Books> Desk<B> {
    /// A desk over empty books, whose source gives these codes.
    pub fn over(alloc: Global, books: B, codes: &[u64]) -> Result<Desk<B>, Fail>
    where
        B: Drop,
    {
        let words = words_of(alloc, codes)?;
        if words.is_empty() {
            return Err(Fail::from("no words"));
        }
        let source = ListedWords::new(words);
        Ok(Desk {
            alloc,
            books,
            source,
        })
    }

    /// A command that is accepted.
    fn does(&mut self, command: &Command) -> Result<(), Fail> {
        match step(&mut self.books, &mut self.source, command) {
            Reply::Refused(_) => Err(Fail::from("refused")),
            _ => Ok(()),
        }
    }

    /// What the line asks for is done: a command that is accepted.
    pub fn do_line(&mut self, line: &[u8]) -> Result<(), Fail> {
        match &ask_of(self.alloc, line)? {
            Ask::Command(command) => self.does(command),
            Ask::List(_) => Err(Fail::from("a list")),
        }
    }

    /// The same of each line.
    pub fn do_lines(&mut self, lines: &[&[u8]]) -> Result<(), Fail> {
        for line in lines {
            self.do_line(line)?;
        }
        Ok(())
    }

    /// What a step of a scenario accepts is done; a list, a file and a refused command are passed over.
    fn goes_on(&mut self, step: &Step) -> Result<(), Fail> {
        if let Step::Line(line, answer) = step
            && !answer.starts_with(b"refused")
            && let Ask::Command(command) = &ask_of(self.alloc, line)?
        {
            self.does(command)?;
        }
        Ok(())
    }

    /// The same of each step of a part.
    fn goes_through_part(&mut self, part: &[Step]) -> Result<(), Fail> {
        for step in part {
            self.goes_on(step)?;
        }
        Ok(())
    }

    /// The same of each part.
    pub fn goes_through(&mut self, parts: &[&[Step]]) -> Result<(), Fail> {
        for part in parts {
            self.goes_through_part(part)?;
        }
        Ok(())
    }
}
