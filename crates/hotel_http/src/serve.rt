//! One request, one answer.

ghost use Rattle.std.specs.Prelude.{◌≡◌, [], true, Some, IfOk, IfSome, OnErr};
ghost use Rattle.rand_core.specs.Stream.{Stream};
ghost use Rattle.hotel_streams.specs.Calls.{CountsCalls, CountsWrites, OnErrOf};
ghost use Rattle.hotel_asks.specs.Listings.{listing_on};
ghost use Rattle.hotel_streams.specs.Reads.{ReadsWhile};
ghost use Rattle.hotel_http.specs.Request.{MayFollow, WantsMore};
ghost use Rattle.hotel_http.specs.declared.origins.Origins.TheVariants.{Any};
ghost use Rattle.hotel_asks.specs.declared.asked.Ask.TheVariants as ask;
ghost use Rattle.hotel_http.specs.declared.serve.ServeFault.TheVariants.{Read, Write};
ghost use Rattle.hotel_http.specs.Serve.{rejected, replied, is_accepted, taken_before_fault, AskComes};
ghost use Rattle.hotel_core.specs.Books.Happens.{HappensBy};
ghost use Rattle.hotel_lists.specs.RowLines.{LooksAt};
ghost use Rattle.hotel_http.specs.Serve.{FileComes, TaskComes, EndsAs, Answered, ended, end_of, IsListText};
ghost use Rattle.hotel_http.specs.Serve.{list_refusal, text_in, ServesOver, IfUnwritten, serve_fault_of, served_in};
ghost use Rattle.hotel_http.specs.Serve.{serve_fault_text};

use crate::answer::{rejection_status, reply_status, write_csv, write_rejection, write_reply};
use crate::audit_answer::{fault_status, write_audit, write_fault};
use crate::origins::Origins;
use crate::rejection::Rejection;
use crate::requests::{Received, Request, RequestFault, read_request};
use crate::routes::make_routes;
use crate::service::Service;
use crate::status::Status;
use crate::tasks::Task;
use hotel_asks::{Ask, ListAsk, write_list};
use hotel_audit::{ImportFault, has_taken, import};
use hotel_core::{Books, Command, Refusal, Reply, Walks, step};
use hotel_lists::ListFault;
use hotel_streams::{IoCalls, WriteFailed};
use rand_core::Rng;
use std::alloc::Global;
use std::error::Error;
use std::fmt;
use std::io::{Read, Write};

/// A request that was answered.
#[derive(Clone, Copy, Debug, PartialEq, Eq)]
pub struct Served {
    /// The number of the answer's status.
    pub status: u16,
    /// Its command was accepted, or its audit file had a line that was Taken.
    pub acted: bool,
}

/// A request that was answered, and whether more of it may come.
#[derive(Clone, Copy, Debug, PartialEq, Eq)]
pub struct Exchange {
    pub served: Served,
    /// A body that the request announces wasn't read, or it isn't known what it announces.
    pub follows: bool,
}

/// Why a request was not answered.
#[derive(Clone, Copy, Debug, PartialEq, Eq)]
pub enum ServeFault {
    /// The input ended before its first byte; nothing was begun or written.
    Closed,
    /// A read failed; nothing was begun, and nothing but an interim answer was written.
    Read,
    /// A growth of memory was refused; nothing was begun, and nothing but an interim answer was written.
    Memory,
    /// A write failed. The writer took a prefix of the answer, or of the interim answer, after which nothing was begun.
    Write {
        /// What the request asked for stands: its command was accepted, or its audit file had a line that was Taken.
        acted: bool,
    },
}

impl fmt::Display for ServeFault {
    ghost output = { λ why. Some (serve_fault_text why) };

    fn fmt<W: fmt::Write>(&self, f: &mut fmt::Formatter<W>) -> fmt::Result {
        f.write_str(match self {
            ServeFault::Closed => "closed",
            ServeFault::Read => "read",
            ServeFault::Memory => "memory",
            ServeFault::Write { .. } => "write",
        })
    }
}

impl Error for ServeFault {}

/// An answer that was not written whole.
#[derive(Clone, Copy, Debug)]
struct Cut {
    acted: bool,
}

impl From<Cut> for ServeFault {
    ghost from_gives = { λ cut e. e ≡ Write cut.acted };

    ghost use Rattle.hotel_http.specs.declared.serve.ServeFault.TheVariants.{Write};

    fn from(cut: Cut) -> ServeFault {
        ServeFault::Write { acted: cut.acted }
    }
}

impl From<RequestFault> for ServeFault {
    ghost from_gives = { λ fault e. e ≡ serve_fault_of fault };

    fn from(fault: RequestFault) -> ServeFault {
        match fault {
            RequestFault::Closed => ServeFault::Closed,
            RequestFault::Read => ServeFault::Read,
            RequestFault::Memory => ServeFault::Memory,
            RequestFault::Write => ServeFault::Write { acted: false },
        }
    }
}

/// How an answer ends that was written or not.
fn ended(written: Result<(), WriteFailed>, status: Status, acted: bool) -> Result<Served, Cut>
    ensures { result ≡ ended written status acted }
{
    match written {
        Ok(()) => Ok(Served {
            status: status.number(),
            acted,
        }),
        Err(WriteFailed) => Err(Cut { acted }),
    }
}

fn answer_rejection<W: Write>(
    why: Rejection,
    writer: &mut W,
    calls: &mut IoCalls,
) -> Result<Served, Cut>
    ensures ends { EndsAs (rejected why) [] (W.contents writer.old) (W.contents writer.new) result }
    ensures calls { CountsWrites calls.old calls.new (OnErr result) }
{
    let written = write_rejection(writer, why, calls);
    ended(written, rejection_status(why), false)
}

/// Whether a command with this reply was accepted.
fn is_accepted(reply: &Reply) -> bool
    ensures { result ≡ is_accepted reply.now }
{
    !matches!(reply, Reply::Refused(_))
}

fn answer_reply<W: Write>(reply: &Reply, writer: &mut W, calls: &mut IoCalls) -> Result<Served, Cut>
    ensures ends { EndsAs (replied reply.now) [] (W.contents writer.old) (W.contents writer.new) result }
    ensures calls { CountsWrites calls.old calls.new (OnErr result) }
{
    let written = write_reply(writer, reply, calls);
    ended(written, reply_status(reply), is_accepted(reply))
}

/// Carries out a command and answers its reply. No memory but the command's own is taken.
fn answer_command<W: Write, B: Books, R: Rng>(
    command: &Command,
    writer: &mut W,
    books: &mut B,
    source: &mut R,
    calls: &mut IoCalls,
) -> Result<Served, Cut>
    ensures went { HappensBy B.Kept B.Books.own books.old (Answered (AskComes (ask.Command command.now))
        (R.stream source.old) (R.stream source.new) []
        (W.contents writer.old) (W.contents writer.new) result) books.new }
    ensures calls { CountsWrites calls.old calls.new (OnErr result) }
{
    let reply = step(books, source, command);
    answer_reply(&reply, writer, calls)
}

/// The refusal that a list's fault is answered by. Its text is written in memory, where a write fails for want of
/// memory alone.
fn list_refusal(fault: ListFault) -> Refusal
    ensures { result ≡ list_refusal fault }
{
    fault.told_refusal().unwrap_or(Refusal::Memory)
}

/// The text of a list, made whole in memory; or why there is none.
fn list_text<B: Walks>(alloc: Global, list: &ListAsk, books: &mut B) -> Result<Vec<u8>, ListFault>
    ensures text { B.is_honest books.new → IsListText (listing_on (B.rows books.old) list.now)
        (text_in (λ t. t.items) result) }
    ensures books { LooksAt B.Kept books.old books.new (end_of result) }
{
    let mut text = Vec::new(alloc);
    match write_list(alloc, list, &mut text, books, &mut IoCalls::none()) {
        Ok(()) => Ok(text),
        Err(fault) => Err(fault),
    }
}

fn answer_list<W: Write, B: Walks>(
    alloc: Global,
    list: &ListAsk,
    writer: &mut W,
    books: &mut B,
    calls: &mut IoCalls,
) -> Result<Served, Cut>
    ensures went { (s : Stream) → HappensBy B.Kept B.Books.own books.old (Answered (AskComes (ask.List list.now)) s s []
        (W.contents writer.old) (W.contents writer.new) result) books.new }
    ensures calls { CountsWrites calls.old calls.new (OnErr result) }
{
    match list_text(alloc, list, books) {
        Ok(text) => {
            let written = write_csv(writer, &text, calls);
            ended(written, Status::Success, false)
        }
        Err(fault) => answer_reply(&Reply::Refused(list_refusal(fault)), writer, calls),
    }
}

/// Whether a line was taken before an import ended without answers.
fn taken_by(why: &ImportFault) -> bool
    ensures { result ≡ taken_before_fault why.now }
{
    match why {
        ImportFault::File(_) => false,
        ImportFault::Memory { taken, .. } | ImportFault::Store { taken, .. } => *taken,
    }
}

/// Imports an audit file and answers. No memory but the import's own is taken.
fn answer_audit<W: Write, B: Books>(
    alloc: Global,
    file: &[u8],
    writer: &mut W,
    books: &mut B,
    calls: &mut IoCalls,
) -> Result<Served, Cut>
    ensures went { (s : Stream) → HappensBy B.Kept B.Books.own books.old (Answered (FileComes file.now) s s []
        (W.contents writer.old) (W.contents writer.new) result) books.new }
    ensures calls { CountsWrites calls.old calls.new (OnErr result) }
{
    match import(alloc, books, file) {
        Ok(answers) => {
            let answers = answers.as_slice();
            let written = write_audit(writer, answers, calls);
            ended(written, Status::Success, has_taken(answers))
        }
        Err(why) => {
            let written = write_fault(writer, &why, calls);
            ended(written, fault_status(&why), taken_by(&why))
        }
    }
}

/// Carries out a command, or makes a list, and answers.
fn answer_ask<W: Write, B: Walks, R: Rng>(
    alloc: Global,
    asked: &Ask,
    writer: &mut W,
    books: &mut B,
    source: &mut R,
    calls: &mut IoCalls,
) -> Result<Served, Cut>
    ensures went { HappensBy B.Kept B.Books.own books.old (Answered (AskComes asked.now) (R.stream source.old)
        (R.stream source.new) []
        (W.contents writer.old) (W.contents writer.new) result) books.new }
    ensures calls { CountsWrites calls.old calls.new (OnErr result) }
{
    match asked {
        Ask::Command(command) => answer_command(command, writer, books, source, calls),
        Ask::List(list) => answer_list(alloc, list, writer, books, calls),
    }
}

/// Carries out what a request asks for, and answers.
fn answer_request<W: Write, B: Walks, R: Rng>(
    alloc: Global,
    request: &Request,
    writer: &mut W,
    books: &mut B,
    source: &mut R,
    calls: &mut IoCalls,
) -> Result<Served, Cut>
    ensures went { HappensBy B.Kept B.Books.own books.old (Answered (TaskComes request.now.task request.now.body.items)
        (R.stream source.old) (R.stream source.new) []
        (W.contents writer.old) (W.contents writer.new) result) books.new }
    ensures calls { CountsWrites calls.old calls.new (OnErr result) }
{
    match &request.task {
        Task::Asks(asked) => answer_ask(alloc, asked, writer, books, source, calls),
        Task::Audit => answer_audit(alloc, &request.body, writer, books, calls),
    }
}

/// Reads one request, carries out what it asks for, and answers, as `serve_one` does. Where it doesn't come from these
/// origins, the answer is 403. The caller made the table of routes, once for all its requests, and no memory is taken
/// for it here. The reads and writes are added to the calls. It says too whether more of the request may come, so that
/// who closes a connection knows what its peer may send.
pub fn serve_by<I: Read, W: Write, B: Walks, R: Rng>(
    alloc: Global,
    service: Service<'_>,
    reader: &mut I,
    writer: &mut W,
    books: &mut B,
    source: &mut R,
    calls: &mut IoCalls,
) -> Result<Exchange, ServeFault>
    ensures serves { ServesOver service.entry.origins B.Kept B.Books.own R.stream
        (I.remaining reader.old) (I.remaining reader.new) (W.contents writer.old) (W.contents writer.new)
        (books.old, source.old) (books.new, source.new) (served_in result) }
    ensures follows { IfOk result
        (λ done. IfSome (I.remaining reader.old) (λ input. MayFollow service.entry.origins input done.follows)) }
    ensures wanted { ReadsWhile (WantsMore service.entry.origins) (I.remaining reader.old) (I.remaining reader.new) }
    ensures calls { CountsCalls calls.old calls.new (OnErrOf result Read) (IfUnwritten (served_in result)) }
{
    let Received { asks, follows } = read_request(alloc, service, reader, writer, calls)?;
    match asks {
        Ok(request) => {
            let served = answer_request(alloc, &request, writer, books, source, calls)?;
            Ok(Exchange { served, follows })
        }
        Err(why) => {
            let served = answer_rejection(why, writer, calls)?;
            Ok(Exchange { served, follows })
        }
    }
}

/// Makes the table of routes, reads one request, carries out what it asks for, and answers. A server makes the table
/// once, and calls `serve_by` with it.
///
/// The body is read whole before a command or an import begins. All memory but theirs is taken before it; their answers
/// are written from buffers of fixed size, and a list's text is made whole before its answer begins. The interrupted
/// reads and writes of the call are counted together; the thousandth is a fault. The writer is not flushed. Wherever a
/// request comes from, it is answered as it asks.
#[tactic(auto, using(crate::proofs::RequestLemmas::none_read))]
pub fn serve_one<I: Read, W: Write, B: Walks, R: Rng>(
    alloc: Global,
    reader: &mut I,
    writer: &mut W,
    books: &mut B,
    source: &mut R,
) -> Result<Served, ServeFault>
    ensures serves { ServesOver Any B.Kept B.Books.own R.stream (I.remaining reader.old) (I.remaining reader.new)
        (W.contents writer.old) (W.contents writer.new) (books.old, source.old) (books.new, source.new) result }
    ensures wanted { ReadsWhile (WantsMore Any) (I.remaining reader.old) (I.remaining reader.new) }
{
    let Ok(routes) = make_routes(alloc) else {
        return Err(ServeFault::Memory);
    };
    let service = Service {
        origins: Origins::Any,
        routes: &routes,
    };
    let mut calls = IoCalls::none();
    match serve_by(alloc, service, reader, writer, books, source, &mut calls) {
        Ok(done) => Ok(done.served),
        Err(why) => Err(why),
    }
}
