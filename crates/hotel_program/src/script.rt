//! Scripts: lines of commands and lists, each answered before the next.

ghost use Rattle.std.specs.Prelude.{◌≡◌, ◌≤◌, length, take, Some, IfOk, OnOk, OnErr};
ghost use Rattle.hotel_streams.specs.{Calls.CountsCalls, Calls.CountsWrites, Calls.OnErrOf, Reads.ReadsWhile};
ghost use Rattle.hotel_program.specs.declared.script.ScriptFault.TheVariants.{Read};
ghost use Rattle.hotel_program.specs.Script.Lines.{answered_lines};
ghost use Rattle.hotel_program.specs.Script.WholeScript.{IfCut, IfUnbegun, LinesAnswered, LinesCut, ScriptRan};
ghost use Rattle.hotel_program.specs.Script.WholeScript.{fault_of_script, script_fault_text};

mod asks;
mod line_answers;
mod lines;
mod list_answers;
mod script_run;
mod words;

use crate::script::line_answers::answer_line;
use crate::script::lines::{first_line, is_silent, without_return};
use hotel_core::Walks;
use hotel_streams::{IoCalls, WholeFault, read_whole};
use rand_core::Rng;
use std::alloc::Global;
use std::error::Error;
use std::fmt;
use std::io::{Read, Write};

/// The most bytes of a script.
pub(crate) const SCRIPT_LIMIT: usize = 1_048_576;

/// A script whose lines were all answered.
#[derive(Clone, Copy, Debug, PartialEq, Eq)]
pub struct ScriptEnd {
    /// How many lines were answered.
    pub lines: u32,
}

/// Why a script was not answered to its end.
#[derive(Clone, Copy, Debug, PartialEq, Eq)]
pub enum ScriptFault {
    /// A read failed; no line was begun.
    Read,
    /// It has more than `SCRIPT_LIMIT` bytes; no line was begun.
    TooLarge,
    /// A growth of memory for its bytes was refused; no line was begun.
    Memory,
    /// A write failed.
    Write {
        /// How many lines were carried out, at least one. The answers of those before the last one were
        /// written whole; of the last one's answer a prefix was.
        done: u32,
    },
}

impl fmt::Display for ScriptFault {
    ghost output = { λ why. Some (script_fault_text why) };

    fn fmt<W: fmt::Write>(&self, f: &mut fmt::Formatter<W>) -> fmt::Result {
        f.write_str(match self {
            ScriptFault::Read => "read",
            ScriptFault::TooLarge => "too large",
            ScriptFault::Memory => "memory",
            ScriptFault::Write { .. } => "write",
        })
    }
}

impl Error for ScriptFault {}

impl From<WholeFault> for ScriptFault {
    ghost from_gives = { λ fault e. e ≡ fault_of_script fault };

    fn from(fault: WholeFault) -> ScriptFault {
        match fault {
            WholeFault::Read => ScriptFault::Read,
            WholeFault::TooLarge => ScriptFault::TooLarge,
            WholeFault::Memory => ScriptFault::Memory,
        }
    }
}

/// Answers the lines of a script. Each answer is written before the next line is begun.
fn answer_lines<W: Write, B: Walks, R: Rng>(
    alloc: Global,
    script: &[u8],
    writer: &mut W,
    books: &mut B,
    source: &mut R,
    calls: &mut IoCalls,
) -> Result<ScriptEnd, ScriptFault>
    requires { length script.now ≤ SCRIPT_LIMIT }
    ensures count { IfOk result (λ script_end. script_end.lines ≡ length (answered_lines script.now)) }
    ensures ok { OnOk result (LinesAnswered B.Kept B.Books.own R.stream W.contents
        (books.old, source.old, writer.old) (answered_lines script.now) (books.new, source.new, writer.new)) }
    ensures cut { IfCut result (λ done. (1 ≤ done) × (done ≤ length (answered_lines script.now))
        × LinesCut B.Kept B.Books.own R.stream W.contents (books.old, source.old, writer.old)
        (take done (answered_lines script.now)) (books.new, source.new, writer.new)) }
    ensures sure { IfUnbegun result ⊥ }
    ensures calls { CountsWrites calls.old calls.new (OnErr result) }
{
    let mut rest = script;
    let mut done = 0;
    while let Some((line, later)) = first_line(rest) {
        rest = later;
        let line = without_return(line);
        if !is_silent(line) {
            let answered = answer_line(alloc, line, writer, books, source, calls);
            done += 1;
            let Ok(()) = answered else {
                return Err(ScriptFault::Write { done });
            };
        }
    }
    Ok(ScriptEnd { lines: done })
}

/// Answers the lines of a script: all the bytes that the reader has. The whole script is read first; then each line is
/// carried out and its answer written before the next line is begun. The reads and writes, those of its lists among
/// them, are added to the caller's; the thousandth interrupted one is a fault. The writer is not flushed.
pub fn run_script_by<I: Read, W: Write, B: Walks, R: Rng>(
    alloc: Global,
    reader: &mut I,
    writer: &mut W,
    books: &mut B,
    source: &mut R,
    calls: &mut IoCalls,
) -> Result<ScriptEnd, ScriptFault>
    ensures ends { ScriptRan B.Kept B.Books.own R.stream W.contents (I.remaining reader.old)
        (books.old, source.old, writer.old) result (books.new, source.new, writer.new) }
    ensures wanted { ReadsWhile (λ came. length came ≤ SCRIPT_LIMIT) (I.remaining reader.old) (I.remaining reader.new) }
    ensures calls { CountsCalls calls.old calls.new (OnErrOf result Read) (λ fact. IfCut result (λ _. fact)) }
{
    let script = read_whole(alloc, reader, SCRIPT_LIMIT, calls)?;
    answer_lines(alloc, &script, writer, books, source, calls)
}

/// `run_script_by`, of whose reads and writes the caller keeps no record.
pub fn run_script<I: Read, W: Write, B: Walks, R: Rng>(
    alloc: Global,
    reader: &mut I,
    writer: &mut W,
    books: &mut B,
    source: &mut R,
) -> Result<ScriptEnd, ScriptFault>
    ensures ends { ScriptRan B.Kept B.Books.own R.stream W.contents (I.remaining reader.old)
        (books.old, source.old, writer.old) result (books.new, source.new, writer.new) }
    ensures wanted { ReadsWhile (λ came. length came ≤ SCRIPT_LIMIT) (I.remaining reader.old) (I.remaining reader.new) }
{
    run_script_by(alloc, reader, writer, books, source, &mut IoCalls::none())
}
