//! The worked scenarios over books, from bytes to bytes and exit status.
use crate::desks::{Desk, words_of};
use crate::line_asks::ask_of;
use crate::scenarios::{Scenario, Step};
use hotel_asks::Ask;
use hotel_core::Walks;
use hotel_program::{ScriptEnd, run_audit, run_list, run_script};
use keycard_rules::ListedWords;
use std::alloc::Global;
use std::test::Fail;

/// A desk over these books, and a source of words that give these codes, and then the last one for ever.
pub fn desk_of<B: Walks + Drop>(
    alloc: Global,
    books: B,
    codes: &[u64],
    last: u64,
) -> Result<Desk<B>, Fail> {
    let mut words = words_of(alloc, codes)?;
    words.push(last.wrapping_mul(65_536))?;
    let source = ListedWords::new(words);
    Ok(Desk {
        alloc,
        books,
        source,
    })
}

impl<B: Walks> Desk<B> {
    /// Answers a line of a script.
    fn line(&mut self, line: &[u8], writer: &mut Vec<u8>) -> Result<(), Fail> {
        let mut reader = line;
        match run_script(
            self.alloc,
            &mut reader,
            writer,
            &mut self.books,
            &mut self.source,
        ) {
            Ok(ScriptEnd { lines: 1 }) => Ok(()),
            _ => Err(Fail::from("no line")),
        }
    }

    /// Whether a line of a script is answered so.
    pub fn answers(&mut self, line: &[u8], answer: &[u8]) -> Result<bool, Fail> {
        let mut writer = Vec::new(self.alloc);
        self.line(line, &mut writer)?;
        Ok(writer.as_slice() == answer)
    }

    /// Answers a list, as a script's line says it.
    pub fn list(
        &mut self,
        line: &[u8],
        writer: &mut Vec<u8>,
        faults: &mut Vec<u8>,
    ) -> Result<u8, Fail> {
        let list = match &ask_of(self.alloc, line)? {
            Ask::List(list) => *list,
            Ask::Command(_) => return Err(Fail::from("no list")),
        };
        Ok(run_list(self.alloc, &list, &mut self.books, writer, faults))
    }

    /// Answers an audit file.
    pub fn audit(&mut self, file: &[u8], writer: &mut Vec<u8>, faults: &mut Vec<u8>) -> u8 {
        run_audit(self.alloc, file, &mut self.books, writer, faults)
    }

    /// Carries out a step with these writers, and answers its status.
    pub fn carry_out(
        &mut self,
        step: &Step,
        writer: &mut Vec<u8>,
        faults: &mut Vec<u8>,
    ) -> Result<u8, Fail> {
        match step {
            Step::Line(line, _) => {
                self.line(line, writer)?;
                Ok(0)
            }
            Step::Audit(file, _, _) | Step::NoAudit(file, _) => {
                Ok(self.audit(file, writer, faults))
            }
            Step::List(line, _, _) => self.list(line, writer, faults),
        }
    }
}

/// What the step says that it writes on the two writers, and its status.
pub fn expected(step: &Step) -> (&'static [u8], &'static [u8], u8) {
    match step {
        Step::Line(_, answer) => (*answer, b"", 0),
        Step::Audit(_, answers, status) => (*answers, b"", *status),
        Step::NoAudit(_, fault) => (b"", *fault, 5),
        Step::List(_, answer, status) => (*answer, b"", *status),
    }
}

/// Whether the step comes to what it says.
pub fn step_holds<B: Walks>(desk: &mut Desk<B>, step: &Step) -> Result<bool, Fail> {
    let mut writer = Vec::new(desk.alloc);
    let mut faults = Vec::new(desk.alloc);
    let status = desk.carry_out(step, &mut writer, &mut faults)?;
    let (output, fault, wanted) = expected(step);
    Ok(writer.as_slice() == output && faults.as_slice() == fault && status == wanted)
}

/// The steps of a part of this scenario hold in turn, or the test fails by its name.
fn part_holds<B: Walks>(desk: &mut Desk<B>, part: &[Step], name: &'static str) -> Result<(), Fail> {
    for step in part {
        if !step_holds(desk, step)? {
            return Err(Fail::from(name));
        }
    }
    Ok(())
}

/// The scenario holds over these empty books, or the test fails by its name.
pub fn scenario_holds<B: Walks + Drop>(
    alloc: Global,
    books: B,
    scenario: &Scenario,
) -> Result<(), Fail> {
    let mut desk = desk_of(alloc, books, scenario.codes, scenario.last)?;
    for part in scenario.parts {
        part_holds(&mut desk, part, scenario.name)?;
    }
    Ok(())
}
