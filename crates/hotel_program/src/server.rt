//! Connections on a port of the loopback address.

ghost use Rattle.std.specs.Prelude.{◌++◌, codes};
ghost use Rattle.hotel_streams.specs.Bytes.{Writes};
ghost use Rattle.hotel_program.specs.Acts.{ServeEnds, listening_text};
ghost use Rattle.hotel_program.specs.Connections.{sockets};

use crate::connections::serve_connections;
use crate::faults::{Fault, FaultSink, finish};
use crate::surroundings::Surroundings;
use hotel_core::Walks;
use hotel_streams::{IoCalls, WriteFailed, write_parts};
use rand_core::Rng;
use std::alloc::Global;
use std::io::Write;

/// Writes a line of a text and a name.
fn write_named<W: Write>(
    writer: &mut W,
    text: &[u8],
    name: &[u8],
    calls: &mut IoCalls,
) -> Result<(), WriteFailed>
    ensures writes { Writes (W.contents writer.old) (W.contents writer.new) (text.now ++ name.now ++ codes "\n")
        calls.old calls.new result }
{
    let parts = [text, name, b"\n".as_slice()];
    write_parts(writer, &parts, calls)
}

/// Writes the line that says where connections are taken.
fn write_listening<W: Write>(
    writer: &mut W,
    port: u16,
    calls: &mut IoCalls,
) -> Result<(), WriteFailed>
    ensures writes { Writes (W.contents writer.old) (W.contents writer.new) (listening_text port)
        calls.old calls.new result }
{
    let mut buffer = itoa::Buffer::new();
    let number = buffer.format(port).as_bytes();
    write_named(writer, b"listening on 127.0.0.1:", number, calls)
}

/// Listens on a port of the loopback address, says so, and answers so many connections, one after the other. It answers
/// the exit status: 0, or 5 where the port couldn't be had or the line couldn't be written; then none is answered.
pub(crate) fn run_serve<B: Walks, R: Rng, W: Write, F: FaultSink, E: Surroundings>(
    alloc: Global,
    port: u16,
    count: u32,
    books: &mut B,
    source: &mut R,
    writer: &mut W,
    faults: &mut F,
    around: &mut E,
) -> u8
    ensures ends { ServeEnds B.Kept B.Books.own R.stream W.contents F.told
        (sockets E.Port.Listener E.Port.Caller.Caller) E.port_bound port count result
        (books.old, source.old) (writer.old, faults.old) around.old
        (books.new, source.new) (writer.new, faults.new) around.new }
{
    let mut calls = IoCalls::none();
    let listener = match around.listen(port) {
        Ok(listener) => listener,
        Err(why) => return finish(Err(why), faults, &mut calls),
    };
    match write_listening(writer, port, &mut calls) {
        Ok(()) => serve_connections(alloc, listener, count, books, source, faults),
        Err(WriteFailed) => finish(Err(Fault::Write), faults, &mut calls),
    }
}
