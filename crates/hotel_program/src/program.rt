//! What the program does, and its exit status.

ghost use Rattle.std.specs.Prelude.{◌≡◌, ◌≢◌, Result, codes, map, string_bytes};
ghost use Rattle.std.specs.IoError.{error_kind};
ghost use Rattle.std.specs.Result.{result_map_both};
ghost use Rattle.hotel_streams.specs.Calls.{CountsCalls, OnErrOf};
ghost use Rattle.hotel_program.specs.declared.faults.Fault.TheVariants.{Memory, Read, Write};
ghost use Rattle.hotel_program.specs.declared.script.ScriptEnd.{ScriptEnd};
ghost use Rattle.hotel_program.specs.declared.script.ScriptFault.{ScriptFault};
ghost use Rattle.hotel_program.specs.Connections.{sockets};
ghost use Rattle.hotel_program.specs.Faults.{end_status, Reports};
ghost use Rattle.hotel_program.specs.Plan.{FileIsRead, OverBooks, PlanEnds, UsageSaid, WordsEnd};
ghost use Rattle.hotel_program.specs.Program.{HasNoWords, IfWords, IsNoText, LacksMemory, EndsOverNewDesk, script_end};

use crate::acts::{end_of_script, run_act};
use crate::command_line::{DeskAct, Plan, UsageFault, parse_words};
use crate::faults::{Fault, FaultSink, finish, refused_text};
use crate::files::SEED_BYTES;
use crate::script::run_script_by;
use crate::statuses::{DONE, USAGE};
use crate::surroundings::{Databases, Surroundings};
use hotel_core::{Books, ListBooks, Walks};
use hotel_streams::{IoCalls, WriteFailed, write_bytes};
use keycard_rules::Kept;
use rand_chacha::ChaCha20Rng;
use rand_core::SeedableRng;
use std::alloc::Global;
use std::io::{self, ErrorKind, Read, Write};

/// Answers a script over empty books in memory, with codes from a seed of 32 zero bytes.
fn answer_script<I: Read, W: Write>(
    alloc: Global,
    reader: &mut I,
    writer: &mut W,
    calls: &mut IoCalls,
) -> Result<u8, Fault>
    ensures ends { (end : Result ScriptEnd ScriptFault) × (result ≡ script_end end)
        × EndsOverNewDesk W.contents (I.remaining reader.old) writer.old writer.new end }
    ensures calls { CountsCalls calls.old calls.new (OnErrOf result Read) (OnErrOf result Write) }
{
    let mut books = ListBooks::empty(alloc);
    books.known_sound();
    let mut source = ChaCha20Rng::from_seed([0; SEED_BYTES]);
    let end = run_script_by(alloc, reader, writer, &mut books, &mut source, calls);
    end_of_script(end)
}

/// Carries out an act over the books that are asked for: those of a database, or empty ones in memory.
fn run_over_books<I: Read, W: Write, F: FaultSink, B: Walks + Drop, E: Databases<B>>(
    alloc: Global,
    plan: &Plan,
    file: &[u8],
    source: &mut ChaCha20Rng,
    reader: &mut I,
    writer: &mut W,
    faults: &mut F,
    around: &mut E,
) -> u8
    ensures { OverBooks I.remaining W.contents F.FaultSink (sockets E.Port.Listener E.Port.Caller.Caller) E.Surroundings
        E.Databases.own ⟦<ListBooks as Kept>⟧ B.Kept B.Books.own
        plan.now.act file.now source.old plan.now.db result
        (record { reader = reader.old; writer = writer.old; faults = faults.old; around = around.old })
        (record { reader = reader.new; writer = writer.new; faults = faults.new; around = around.new }) }
{
    let act = &plan.act;
    let Some(name) = &plan.db else {
        let mut books = ListBooks::empty(alloc);
        return run_act(
            alloc, act, file, &mut books, source, reader, writer, faults, around,
        );
    };
    let mut books = match around.open_books(alloc, name) {
        Ok(books) => books,
        Err(why) => return finish(Err(Fault::Books(why)), faults, &mut IoCalls::none()),
    };
    let status = run_act(
        alloc, act, file, &mut books, source, reader, writer, faults, around,
    );
    around.close_books(books);
    status
}

/// The bytes of the audit file, where one is asked for.
fn audit_file<E: Surroundings>(
    alloc: Global,
    act: &DeskAct,
    around: &mut E,
) -> Result<Vec<u8>, Fault>
    ensures read { FileIsRead E.file_read act.now around.old
        (result_map_both (λ bytes. bytes.items) (λ why. why) result) around.new }
{
    match act {
        DeskAct::Audit(name) => around.read_file(alloc, name),
        _ => Ok(Vec::new(alloc)),
    }
}

/// Carries out a plan. The seed is read first, then an audit file, then the books are opened, and then a port is
/// listened on; the first fault is reported and ends it.
fn run_plan<I: Read, W: Write, F: FaultSink, B: Walks + Drop, E: Databases<B>>(
    alloc: Global,
    plan: &Plan,
    reader: &mut I,
    writer: &mut W,
    faults: &mut F,
    around: &mut E,
) -> u8
    ensures { PlanEnds I.remaining W.contents F.FaultSink (sockets E.Port.Listener E.Port.Caller.Caller) E.Surroundings
        E.Databases.own ⟦<ListBooks as Kept>⟧ B.Kept B.Books.own plan.now result
        (record { reader = reader.old; writer = writer.old; faults = faults.old; around = around.old })
        (record { reader = reader.new; writer = writer.new; faults = faults.new; around = around.new }) }
{
    let seed = match around.read_seed(alloc, plan.seed_file.as_ref()) {
        Ok(seed) => seed,
        Err(why) => return finish(Err(why), faults, &mut IoCalls::none()),
    };
    let file = match audit_file(alloc, &plan.act, around) {
        Ok(file) => file,
        Err(why) => return finish(Err(why), faults, &mut IoCalls::none()),
    };
    let mut source = ChaCha20Rng::from_seed(seed);
    run_over_books(
        alloc,
        plan,
        &file,
        &mut source,
        reader,
        writer,
        faults,
        around,
    )
}

/// Shows the help that was asked for, or says what is wrong with the words. It answers the exit status.
fn say_usage<W: Write, F: FaultSink>(why: &UsageFault, writer: &mut W, faults: &mut F) -> u8
    ensures { UsageSaid W.contents F.told F.shown why.now result writer.old writer.new faults.old faults.new }
{
    let mut calls = IoCalls::none();
    match why {
        UsageFault::Shown(text) => match write_bytes(writer, text.as_bytes(), &mut calls) {
            Ok(()) => DONE,
            Err(WriteFailed) => finish(Err(Fault::Write), faults, &mut calls),
        },
        UsageFault::Usage(text) => {
            faults.show(text.as_bytes(), &mut calls);
            USAGE
        }
        UsageFault::Value(name) => {
            faults.show(refused_text(*name).as_bytes(), &mut calls);
            USAGE
        }
        UsageFault::Memory => finish(Err(Fault::Memory), faults, &mut calls),
    }
}

/// Carries out what the words ask for.
fn run_words<I: Read, W: Write, F: FaultSink, B: Walks + Drop, E: Databases<B>>(
    alloc: Global,
    words: &[String],
    reader: &mut I,
    writer: &mut W,
    faults: &mut F,
    around: &mut E,
) -> u8
    ensures { WordsEnd I.remaining W.contents F.FaultSink (sockets E.Port.Listener E.Port.Caller.Caller) E.Surroundings
        E.Databases.own ⟦<ListBooks as Kept>⟧ B.Kept B.Books.own
        (map string_bytes words.now) result
        (record { reader = reader.old; writer = writer.old; faults = faults.old; around = around.old })
        (record { reader = reader.new; writer = writer.new; faults = faults.new; around = around.new }) }
{
    match parse_words(alloc, words) {
        Ok(plan) => run_plan(alloc, &plan, reader, writer, faults, around),
        Err(why) => say_usage(&why, writer, faults),
    }
}

/// Says why words couldn't be read. It answers the exit status.
fn say_unread<F: FaultSink>(why: &io::Error, faults: &mut F) -> u8
    ensures memory { error_kind why.now ≡ ErrorKind.OutOfMemory → (result ≡ 4) × F.told faults.old Memory faults.new }
    ensures no_text { error_kind why.now ≢ ErrorKind.OutOfMemory
        → (result ≡ 2) × F.shown faults.old (codes "usage\n") faults.new }
{
    let mut calls = IoCalls::none();
    match why.kind() {
        ErrorKind::OutOfMemory => finish(Err(Fault::Memory), faults, &mut calls),
        _ => {
            faults.show(b"usage\n", &mut calls);
            USAGE
        }
    }
}

/// The program, whose exit status it answers. `words` are those after its name, or why one of them could not be read.
/// Without words it answers the script that the reader has, over empty books in memory, with codes from a seed of 32
/// zero bytes. With words it carries out what they ask for, over the surroundings `around`. A fault is reported to
/// `faults`; where that goes wrong, nobody hears of it.
pub fn run_program<I: Read, W: Write, F: FaultSink, B: Walks + Drop, E: Databases<B>>(
    alloc: Global,
    words: io::Result<Vec<String>>,
    reader: &mut I,
    writer: &mut W,
    faults: &mut F,
    around: &mut E,
) -> u8
    ensures no_text { IsNoText words → (result ≡ 2) × F.shown faults.old (codes "usage\n") faults.new
        × (reader.new ≡ reader.old) × (writer.new ≡ writer.old) × (around.new ≡ around.old) }
    ensures memory { LacksMemory words → (result ≡ 4) × F.told faults.old Memory faults.new × (reader.new ≡ reader.old)
        × (writer.new ≡ writer.old) × (around.new ≡ around.old) }
    ensures script { HasNoWords words → (end : Result ScriptEnd ScriptFault) × (result ≡ end_status (script_end end))
        × Reports F.told faults.old (script_end end) faults.new
        × EndsOverNewDesk W.contents (I.remaining reader.old) writer.old writer.new end × (around.new ≡ around.old) }
    ensures words { IfWords words (λ texts. WordsEnd I.remaining W.contents F.FaultSink
        (sockets E.Port.Listener E.Port.Caller.Caller) E.Surroundings
        E.Databases.own ⟦<ListBooks as Kept>⟧ B.Kept B.Books.own texts result
        (record { reader = reader.old; writer = writer.old; faults = faults.old; around = around.old })
        (record { reader = reader.new; writer = writer.new; faults = faults.new; around = around.new })) }
{
    let words = match words {
        Ok(words) => words,
        Err(why) => return say_unread(&why, faults),
    };
    if words.is_empty() {
        let mut calls = IoCalls::none();
        let end = answer_script(alloc, reader, writer, &mut calls);
        return finish(end, faults, &mut calls);
    }
    run_words(alloc, &words, reader, writer, faults, around)
}
