//! What a request asks for: its head, then its body, each checked in turn.

ghost use Rattle.std.specs.Prelude.{◌≡◌, ◌++◌, ◌≤◌, true, length, map, take, drop, IfOk, IfSome, Err, IsUtf8};
ghost use Rattle.std.specs.Io.KnownBytes.{Keeps};
ghost use Rattle.httparse.specs.{Grammar.RequestHead, Spans.IsRequestWithin, Spans.IsRequestAt, Spans.name_and_value};
ghost use Rattle.httparse.specs.Spans.{span_bytes};
ghost use Rattle.hotel_streams.specs.Calls.{CountsCalls, OnErrOf};
ghost use Rattle.hotel_streams.specs.Reads.{ReadsWhile};
ghost use Rattle.hotel_http.specs.{Body.ReadsBody, Plan.plan_in, Request.request_fault_of, Request.IsMeant};
ghost use Rattle.hotel_http.specs.{Request.EndsBody, Request.wanted_of, Request.EndsHead, Request.EndsRequest};
ghost use Rattle.hotel_http.specs.{Fields.framing, Head.WantsHead, Request.is_some_body};
ghost use Rattle.hotel_http.specs.Request.{MayFollow, ReadsBehind, WantsMore, may_follow};
ghost use Rattle.hotel_http.specs.declared.head.TheConstants.{HEAD_BYTES};
ghost use Rattle.hotel_http.specs.declared.requests.RequestFault.TheVariants.{Write, Read};

use crate::body::{read_body, write_interim};
use crate::fields::read_framing;
use crate::head::{HEAD_FIELDS, Judged, head_part, read_head};
use crate::origins::admit;
use crate::plan::{Plan, make_plan, path_part};
use crate::rejection::Rejection;
use crate::service::Service;
use crate::tasks::{Task, read_task};
use hotel_streams::{IoCalls, ReadFault, WriteFailed};
use httparse::spans::{EMPTY_HEADER_SPAN, HeaderSpan, RequestSpans};
use std::alloc::{AllocError, Global};
use std::io::{Read, Write};

/// A request that was read whole, and no check rejected it.
#[derive(Drop)]
pub(crate) struct Request {
    pub task: Task,
    /// The bytes behind the head, as many as the head says; none of a list.
    pub body: Vec<u8>,
}

/// What was read of a request.
#[derive(Drop)]
pub(crate) struct Received {
    /// What it asks for, or the first rejection.
    pub asks: Result<Request, Rejection>,
    /// More of it may follow: a body that it announces isn't read, or it isn't known what it announces.
    pub follows: bool,
}

/// Why no request was read.
#[derive(Debug, Drop)]
pub(crate) enum RequestFault {
    /// The input had no byte.
    Closed,
    /// A read failed.
    Read,
    /// A growth of memory was refused.
    Memory,
    /// The interim answer could not be written.
    Write,
}

impl From<ReadFault> for RequestFault {
    ghost from_gives = { λ fault e. e ≡ request_fault_of fault };

    fn from(fault: ReadFault) -> RequestFault {
        match fault {
            ReadFault::Read => RequestFault::Read,
            ReadFault::Memory => RequestFault::Memory,
        }
    }
}

impl From<WriteFailed> for RequestFault {
    ghost from_gives = { λ _ e. e ≡ Write };

    fn from(_: WriteFailed) -> RequestFault {
        RequestFault::Write
    }
}

/// What was read of a request whose head is refused.
fn refused(why: Rejection, follows: bool) -> Received
    ensures asks { result.asks ≡ Err why }
    ensures follows { result.follows ≡ follows }
{
    Received {
        asks: Err(why),
        follows,
    }
}

/// Whether a head announces a body, or it isn't known whether it does.
fn announces_body(prefix: &[u8], headers: &[HeaderSpan], spans: &RequestSpans) -> bool
    requires { IsRequestWithin prefix.now headers.now spans.now }
    ensures { (head : RequestHead) → IsRequestAt prefix.now headers.now spans.now head
        → result ≡ is_some_body (framing (map name_and_value head.fields)) }
{
    match read_framing(prefix, &headers[..spans.headers]) {
        Ok(announced) => announced > 0,
        Err(_) => true,
    }
}

/// The target of a head; no text where it isn't UTF-8, as no head's is.
fn target_text<'b>(prefix: &'b [u8], spans: &RequestSpans) -> &'b str
    requires ordered { spans.now.path.start ≤ spans.now.path.end }
    requires within { spans.now.path.end ≤ length prefix.now }
    ensures { IsUtf8 (span_bytes prefix.now spans.now.path) → result.now ≡ span_bytes prefix.now spans.now.path }
{
    match std::str::from_utf8(spans.path.of(prefix)) {
        Ok(text) => text,
        Err(_) => "",
    }
}

/// What a head asks for, or the first rejection.
#[tactic(auto, unfolding(crate::specs::Plan::plan_in))]
fn plan_head(
    service: Service<'_>,
    prefix: &[u8],
    headers: &[HeaderSpan],
    spans: &RequestSpans,
) -> Result<Plan, Rejection>
    requires { IsRequestWithin prefix.now headers.now spans.now }
    ensures { (head : RequestHead) → IsRequestAt prefix.now headers.now spans.now head
        → result ≡ plan_in service.entry.origins head }
{
    let fields = &headers[..spans.headers];
    admit(service.origins, spans.version, prefix, fields)?;
    let method = spans.method.of(prefix);
    let target = target_text(prefix, spans);
    make_plan(
        service.routes,
        spans.version,
        method,
        target,
        prefix,
        fields,
    )
}

/// What a plan asks for with the body that was read, which may be too short.
fn read_meaning(alloc: Global, plan: Plan, path: &str, body: Vec<u8>) -> Result<Request, Rejection>
    ensures { IsMeant plan path.now body.items (wanted_of result) }
{
    if body.len() < plan.size {
        return Err(Rejection::BadRequest);
    }
    let mut body = body;
    body.truncate(plan.size);
    match read_task(alloc, plan.target, path, &body) {
        Ok(Some(task)) => Ok(Request { task, body }),
        Ok(None) => Err(Rejection::Unread),
        Err(AllocError) => Err(Rejection::Memory),
    }
}

/// Reads the body of a plan, after the interim answer where the client awaits it. The bytes that are begun came with
/// the head.
fn read_planned<R: Read, W: Write>(
    alloc: Global,
    reader: &mut R,
    writer: &mut W,
    begun: &[u8],
    plan: Plan,
    path: &str,
    calls: &mut IoCalls,
) -> Result<Received, RequestFault>
    ensures ends { EndsBody plan path.now begun.now (R.remaining reader.old) (W.contents writer.old)
        (W.contents writer.new) result }
    ensures follows { IfOk result (λ got. got.follows ≡ plan.ignored) }
    ensures wanted { ReadsBody begun.now plan.size (R.remaining reader.old) (R.remaining reader.new) }
    ensures before { OnErrOf result Write (Keeps (R.remaining reader.old) (R.remaining reader.new)) }
    ensures calls { CountsCalls calls.old calls.new (OnErrOf result Read) (OnErrOf result Write) }
{
    write_interim(writer, plan.awaited, calls)?;
    let body = read_body(alloc, reader, begun, plan.size, calls)?;
    Ok(Received {
        asks: read_meaning(alloc, plan, path, body),
        follows: plan.ignored,
    })
}

/// What stands behind the head.
fn behind(bytes: &[u8], len: usize) -> &[u8]
    requires { len ≤ length bytes.now }
    ensures { result.now ≡ drop len bytes.now }
{
    &bytes[len..]
}

/// Reads what a head and the bytes behind it ask for. The bytes begin with the head.
fn read_behind_head<R: Read, W: Write>(
    alloc: Global,
    service: Service<'_>,
    reader: &mut R,
    writer: &mut W,
    bytes: &[u8],
    headers: &[HeaderSpan],
    spans: &RequestSpans,
    calls: &mut IoCalls,
) -> Result<Received, RequestFault>
    requires { IsRequestWithin (take HEAD_BYTES bytes.now) headers.now spans.now }
    ensures ends { (head : RequestHead) → IsRequestAt (take HEAD_BYTES bytes.now) headers.now spans.now head
        → EndsHead service.entry.origins head (λ left. drop spans.now.len (bytes.now ++ left))
        (R.remaining reader.old) (W.contents writer.old) (W.contents writer.new) result }
    ensures follows { (head : RequestHead) → IsRequestAt (take HEAD_BYTES bytes.now) headers.now spans.now head
        → IfOk result (λ got. got.follows ≡ may_follow service.entry.origins head) }
    ensures wanted { (head : RequestHead) → IsRequestAt (take HEAD_BYTES bytes.now) headers.now spans.now head
        → ReadsBehind service.entry.origins head spans.now.len bytes.now (R.remaining reader.old)
        (R.remaining reader.new) }
    ensures before { OnErrOf result Write (Keeps (R.remaining reader.old) (R.remaining reader.new)) }
    ensures calls { CountsCalls calls.old calls.new (OnErrOf result Read) (OnErrOf result Write) }
{
    let prefix = head_part(bytes);
    match plan_head(service, prefix, headers, spans) {
        Err(why) => Ok(refused(why, announces_body(prefix, headers, spans))),
        Ok(plan) => {
            let path = path_part(target_text(prefix, spans));
            let begun = behind(bytes, spans.len);
            read_planned(alloc, reader, writer, begun, plan, path, calls)
        }
    }
}

/// Reads a request, and writes the interim answer where the client awaits it before it sends the body.
#[tactic(auto, using(crate::proofs::RequestLemmas::head_read))]
pub(crate) fn read_request<R: Read, W: Write>(
    alloc: Global,
    service: Service<'_>,
    reader: &mut R,
    writer: &mut W,
    calls: &mut IoCalls,
) -> Result<Received, RequestFault>
    ensures ends { EndsRequest service.entry.origins (R.remaining reader.old) (R.remaining reader.new)
        (W.contents writer.old) (W.contents writer.new) result }
    ensures follows { IfOk result
        (λ got. IfSome (R.remaining reader.old) (λ input. MayFollow service.entry.origins input got.follows)) }
    ensures wanted { ReadsWhile (WantsMore service.entry.origins) (R.remaining reader.old) (R.remaining reader.new) }
    ensures before { OnErrOf result Write (ReadsWhile WantsHead (R.remaining reader.old) (R.remaining reader.new)) }
    ensures calls { CountsCalls calls.old calls.new (OnErrOf result Read) (OnErrOf result Write) }
{
    let mut bytes = Vec::new(alloc);
    let mut headers = [EMPTY_HEADER_SPAN; HEAD_FIELDS];
    match read_head(reader, &mut bytes, &mut headers, calls)? {
        Judged::More => unreachable!(),
        Judged::Closed => Err(RequestFault::Closed),
        Judged::Malformed => Ok(refused(Rejection::BadRequest, true)),
        Judged::TooLarge => Ok(refused(Rejection::HeadTooLarge, true)),
        Judged::Whole(spans) => read_behind_head(
            alloc, service, reader, writer, &bytes, &headers, &spans, calls,
        ),
    }
}
