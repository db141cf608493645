//! Connections that are answered one after the other.

ghost use Rattle.std.specs.Prelude.{◌≡◌, ◌∷◌, [], Some, IfOk, IfSome};
ghost use Rattle.std.specs.Duration.{as_nanos};
ghost use Rattle.keycard_rules.specs.Calls.{Passes};
ghost use Rattle.hotel_streams.specs.Calls.{CountsCalls, NoneForgotten, OnErrOf};
ghost use Rattle.hotel_streams.specs.Reads.{ReadsWhile};
ghost use Rattle.hotel_http.specs.{Request.MayFollow, Request.WantsMore};
ghost use Rattle.hotel_http.specs.Serve.{IfUnwritten, ServesOver, served_in};
ghost use Rattle.hotel_http.specs.declared.origins.Origins.TheVariants.{Local};
ghost use Rattle.hotel_http.specs.declared.serve.ServeFault.TheVariants as serve;
ghost use Rattle.hotel_program.specs.declared.faults.Fault.TheVariants.{Read, Write};
ghost use Rattle.hotel_program.specs.Connections.{ConnectionEnd, Connects, ConnectsAndTells, ServesInTime, ServesEach};
ghost use Rattle.hotel_program.specs.Connections.{TakenEnds, connection_end, connection_fault, follows_in, sockets};

use crate::faults::{Fault, FaultSink};
use crate::listener::{Caller, Listener};
use crate::statuses::DONE;
use crate::timed::{Begun, TimedReader, TimedWriter, set_limits};
use hotel_core::Walks;
use hotel_http::{Exchange, Origins, Routes, ServeFault, Service, make_routes, serve_by};
use hotel_streams::IoCalls;
use rand_core::Rng;
use std::alloc::Global;
use std::io::{Read, Write};
use std::marker::Brand;
use std::time::Duration;

/// How many nanoseconds pass before the next connection is asked for where one couldn't be taken: a tenth of a second.
/// What it lacks, descriptors or memory, is others' to give back.
pub(crate) const PAUSE: u64 = 100_000_000;

/// The fault of a request that wasn't served.
fn fault_of(why: ServeFault) -> Fault
    ensures { result ≡ connection_fault why }
{
    match why {
        ServeFault::Closed => Fault::Closed,
        ServeFault::Read => Fault::Read,
        ServeFault::Memory => Fault::Memory,
        ServeFault::Write { .. } => Fault::Write,
    }
}

/// What the program's server answers: what doesn't show a web page.
fn local(routes: &Routes) -> Service<'_>
    ensures { result.origins ≡ Local }
{
    Service {
        origins: Origins::Local,
        routes,
    }
}

/// What all connections share: where their memory comes from, and the table of routes, if it was made.
#[derive(Clone, Copy)]
struct Server<'r> {
    alloc: Global,
    routes: Option<&'r Routes>,
}

/// Answers the request of a connection, if it doesn't show a web page, by the table of routes that was made for all
/// connections. Where it wasn't made, the request makes its own. The reads and writes are added to the connection's.
fn serve_stream<I: Read, W: Write, B: Walks, R: Rng>(
    server: &Server<'_>,
    reader: &mut I,
    writer: &mut W,
    books: &mut B,
    source: &mut R,
    calls: &mut IoCalls,
) -> Result<Exchange, ServeFault>
    ensures serves { ServesOver Local B.Kept B.Books.own R.stream (I.remaining reader.old) (I.remaining reader.new)
        (W.contents writer.old) (W.contents writer.new)
        (books.old, source.old) (books.new, source.new) (served_in result) }
    ensures follows { IfOk result
        (λ done. IfSome (I.remaining reader.old) (λ input. MayFollow Local input done.follows)) }
    ensures wanted { ReadsWhile (WantsMore Local) (I.remaining reader.old) (I.remaining reader.new) }
    ensures calls { CountsCalls calls.old calls.new (OnErrOf result serve.Read) (IfUnwritten (served_in result)) }
{
    let alloc = server.alloc;
    match server.routes {
        Some(routes) => {
            let service = local(routes);
            serve_by(alloc, service, reader, writer, books, source, calls)
        }
        None => match make_routes(alloc) {
            Ok(routes) => {
                let service = local(&routes);
                serve_by(alloc, service, reader, writer, books, source, calls)
            }
            Err(_) => Err(ServeFault::Memory),
        },
    }
}

/// A connection whose request was served, or not, and its callers.
#[derive(Drop)]
struct Finished<L> {
    end: Result<Exchange, ServeFault>,
    reads: L,
    writes: L,
}

/// Answers the request of a connection whose limits are set. Where more of the request may follow its answer, what
/// comes is thrown away for a while, so that the answer isn't lost.
fn serve_limited<S, L: Caller<S>, K: Begun<S, L>, B: Walks, R: Rng>(
    server: &Server<'_>,
    stream: &S,
    reads: L,
    writes: L,
    books: &mut B,
    source: &mut R,
    calls: &mut IoCalls,
) -> Finished<L>
    requires stream { K.stream ≡ Some stream.now }
    requires reads { K.reads ≡ Some reads }
    requires writes { K.writes ≡ Some writes }
    ensures served { ServesInTime L.Caller B.Kept B.Books.own R.stream stream.now reads writes (books.old, source.old)
        result.end result.reads result.writes (books.new, source.new) }
    ensures calls { CountsCalls calls.old calls.new (OnErrOf result.end serve.Read)
        (IfUnwritten (served_in result.end)) }
{
    let mut reader: TimedReader<'_, S, L, K> = TimedReader::new(stream, reads);
    let mut writer: TimedWriter<'_, S, L, K> = TimedWriter::new(stream, writes);
    let end = serve_stream(server, &mut reader, &mut writer, books, source, calls);
    let reads = if follows_in(&end) {
        reader.linger()
    } else {
        reader.into_caller()
    };
    let writes = writer.into_caller();
    Finished { end, reads, writes }
}
/// Whether more of a request may follow what was read.
fn follows_in(end: &Result<Exchange, ServeFault>) -> bool
    ensures { result ≡ follows_in end.now }
{
    match end {
        Ok(done) => done.follows,
        Err(_) => false,
    }
}

/// Answers the request of a connection that was taken, where its limits could be set, and closes it.
fn serve_taken<L: Listener, B: Walks, R: Rng>(
    server: &Server<'_>,
    listener: &mut L,
    stream: L::Stream,
    books: &mut B,
    source: &mut R,
    calls: &mut IoCalls,
) -> Result<(), Fault>
    ensures ends { (end : ConnectionEnd) × (result ≡ connection_end end)
        × TakenEnds (sockets L.Listener L.Caller.Caller) B.Kept B.Books.own R.stream stream listener.old
        (books.old, source.old) end listener.new (books.new, source.new) }
    ensures calls { CountsCalls calls.old calls.new (OnErrOf result Read) (OnErrOf result Write) }
{
    let mut reads = listener.caller();
    let mut writes = listener.caller();
    if !set_limits(&stream, &mut reads, &mut writes) {
        listener.close(stream, reads, writes);
        return Err(Fault::Closed);
    }
    let Finished { end, reads, writes } = serve_limited::<L::Stream, L::Caller, Brand, B, R>(
        server, &stream, reads, writes, books, source, calls,
    );
    listener.close(stream, reads, writes);
    match end {
        Ok(_) => Ok(()),
        Err(why) => Err(fault_of(why)),
    }
}

/// Takes a connection and answers its request. Its reads and writes are added to the calls. Where it couldn't be taken,
/// it waits.
fn serve_connection<L: Listener, B: Walks, R: Rng>(
    server: &Server<'_>,
    listener: &mut L,
    books: &mut B,
    source: &mut R,
    calls: &mut IoCalls,
) -> Result<(), Fault>
    ensures ends { (end : ConnectionEnd) × (result ≡ connection_end end)
        × Connects (sockets L.Listener L.Caller.Caller) B.Kept B.Books.own R.stream
        (listener.old, (books.old, source.old)) end (listener.new, (books.new, source.new)) }
    ensures calls { CountsCalls calls.old calls.new (OnErrOf result Read) (OnErrOf result Write) }
{
    match listener.accept() {
        Ok(stream) => serve_taken(server, listener, stream, books, source, calls),
        Err(_) => {
            listener.wait(Duration::from_nanos(PAUSE));
            Err(Fault::Closed)
        }
    }
}

/// Takes a connection, answers its request, and reports the fault that came instead.
fn serve_and_tell<L: Listener, B: Walks, R: Rng, F: FaultSink>(
    server: &Server<'_>,
    listener: &mut L,
    books: &mut B,
    source: &mut R,
    faults: &mut F,
    calls: &mut IoCalls,
)
    ensures ends { (end : ConnectionEnd) × ConnectsAndTells (sockets L.Listener L.Caller.Caller) B.Kept B.Books.own
        R.stream F.told ((listener.old, (books.old, source.old)), faults.old) end
        ((listener.new, (books.new, source.new)), faults.new) }
    ensures calls { NoneForgotten calls.old calls.new }
{
    let mut its_calls = IoCalls::none();
    let served = serve_connection(server, listener, books, source, &mut its_calls);
    if let Err(fault) = served {
        faults.tell(&fault, calls);
    }
}

/// Takes so many connections, one after the other, and answers the request of each; what shows a web page is refused
/// (`Origins::Local`). A connection that fails is reported as a fault, and then the next one is taken; behind one that
/// couldn't be taken, after a tenth of a second. A connection has a second for its first byte, ten in all for its
/// request's other bytes and ten for its answer's, whatever pieces come in; then its peer is given up. The table of
/// routes is made once, before the first connection; where memory for it ran out, each request makes its own. It
/// answers 0.
pub fn serve_connections<L: Listener + Drop, B: Walks, R: Rng, F: FaultSink>(
    alloc: Global,
    listener: L,
    count: u32,
    books: &mut B,
    source: &mut R,
    faults: &mut F,
) -> u8
    ensures status { result ≡ 0 }
    ensures ends { ServesEach (sockets L.Listener L.Caller.Caller) B.Kept B.Books.own R.stream F.told count listener
        (books.old, source.old) faults.old (books.new, source.new) faults.new }
{
    let mut listener = listener;
    let made = make_routes(alloc).ok();
    let server = Server {
        alloc,
        routes: made.as_ref(),
    };
    let mut calls = IoCalls::none();
    for _ in 0..count {
        serve_and_tell(&server, &mut listener, books, source, faults, &mut calls);
    }
    DONE
}
