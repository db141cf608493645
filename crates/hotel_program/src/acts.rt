//! What the program is asked for, carried out over any books.

ghost use Rattle.std.specs.Prelude.{◌≡◌};
ghost use Rattle.hotel_program.specs.Acts.{ActEnds};
ghost use Rattle.hotel_program.specs.Connections.{sockets};
ghost use Rattle.hotel_program.specs.Program.{script_end};

use crate::alone::{run_audit, run_list, run_one};
use crate::command_line::DeskAct;
use crate::faults::{Fault, FaultSink, finish};
use crate::script::{ScriptEnd, ScriptFault, run_script_by};
use crate::server::run_serve;
use crate::statuses::DONE;
use crate::surroundings::Surroundings;
use hotel_core::Walks;
use hotel_streams::IoCalls;
use rand_core::Rng;
use std::alloc::Global;
use std::io::{Read, Write};

/// The exit status of a script that ended so, or the fault that is reported.
pub(crate) fn end_of_script(end: Result<ScriptEnd, ScriptFault>) -> Result<u8, Fault>
    ensures end { result ≡ script_end end }
{
    match end {
        Ok(_) => Ok(DONE),
        Err(ScriptFault::Read) => Err(Fault::Read),
        Err(ScriptFault::TooLarge) => Err(Fault::TooLarge),
        Err(ScriptFault::Memory) => Err(Fault::Memory),
        Err(ScriptFault::Write { .. }) => Err(Fault::Write),
    }
}

/// Carries out an act over books, and reports the fault that came instead. `file` has the bytes of an audit file where
/// that is what is asked for. It answers the exit status.
pub(crate) fn run_act<B: Walks, R: Rng, I: Read, W: Write, F: FaultSink, E: Surroundings>(
    alloc: Global,
    act: &DeskAct,
    file: &[u8],
    books: &mut B,
    source: &mut R,
    reader: &mut I,
    writer: &mut W,
    faults: &mut F,
    around: &mut E,
) -> u8
    ensures ends { ActEnds B.Kept B.Books.own R.stream W.contents F.told (sockets E.Port.Listener E.Port.Caller.Caller)
        E.port_bound I.remaining file.now act.now result
        (books.old, source.old)
        (record { reader = reader.old; writer = writer.old; faults = faults.old; around = around.old })
        (books.new, source.new)
        (record { reader = reader.new; writer = writer.new; faults = faults.new; around = around.new }) }
{
    match act {
        DeskAct::One(command) => run_one(command, books, source, writer, faults),
        DeskAct::List(list) => run_list(alloc, list, books, writer, faults),
        DeskAct::Audit(_) => run_audit(alloc, file, books, writer, faults),
        DeskAct::Script => {
            let mut calls = IoCalls::none();
            let end = run_script_by(alloc, reader, writer, books, source, &mut calls);
            finish(end_of_script(end), faults, &mut calls)
        }
        DeskAct::Serve { port, count } => {
            run_serve(alloc, *port, *count, books, source, writer, faults, around)
        }
    }
}
