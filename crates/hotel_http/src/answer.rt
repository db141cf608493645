//! The bytes of answers, from buffers of fixed size.

ghost use Rattle.std.specs.Prelude.{◌≡◌, ◌≤◌, length};
ghost use Rattle.hotel_streams.specs.Bytes.{Writes};
ghost use Rattle.hotel_core.specs.declared.reply_texts.TheConstants.{REPLY_BYTES};
ghost use Rattle.hotel_http.specs.declared.answer.Media.TheVariants.{Plain};
ghost use Rattle.hotel_http.specs.Answer.{media_type, allow_field, status_line, head_text, answer_text};
ghost use Rattle.hotel_http.specs.Answer.{rejection_status, rejection_body, allowed_by, rejection_answer, reply_status};
ghost use Rattle.hotel_http.specs.Answer.{reply_answer, list_answer, memory_text};

use crate::buffer::HeadText;
use crate::rejection::{Method, Rejection};
use crate::status::Status;
use hotel_core::{Refusal, Reply, reply_text};
use hotel_streams::{IoCalls, WriteFailed, write_bytes, write_parts};
use std::io::Write;

/// What the body of an answer is.
#[derive(Clone, Copy, Debug, PartialEq, Eq)]
pub(crate) enum Media {
    Plain,
    Csv,
}

fn media_type(media: Media) -> &'static [u8]
    ensures same { result.now ≡ media_type media }
    ensures short { length result.now ≤ 25 }
{
    match media {
        Media::Plain => b"text/plain; charset=utf-8",
        Media::Csv => b"text/csv; charset=utf-8",
    }
}

fn allow_field(allow: Option<Method>) -> &'static [u8]
    ensures same { result.now ≡ allow_field allow }
    ensures short { length result.now ≤ 13 }
{
    match allow {
        None => b"",
        Some(Method::Get) => b"Allow: GET\r\n",
        Some(Method::Post) => b"Allow: POST\r\n",
    }
}

fn status_line(status: Status) -> HeadText
    ensures same { result ≡ status_line status }
    ensures short { length result ≤ 83 }
{
    let mut text = HeadText::new();
    text.push(b"HTTP/1.1 ");
    text.push_number::<40>(u128::from(status.number()));
    text.push(b" ");
    text.push(status.phrase());
    text.push(b"\r\n");
    text
}

/// The head of an answer whose body has so many bytes.
#[tactic(auto, unfolding(crate::specs::Answer::head_text))]
pub(crate) fn head_text(status: Status, media: Media, allow: Option<Method>, size: u128) -> HeadText
    ensures same { result ≡ head_text status media allow size }
    ensures short { length result ≤ 220 }
{
    let mut text = status_line(status);
    text.push(b"Content-Type: ");
    text.push(media_type(media));
    text.push(b"\r\n");
    text.push(b"Content-Length: ");
    text.push_number::<40>(size);
    text.push(b"\r\n");
    text.push(allow_field(allow));
    text.push(b"Connection: close\r\n\r\n");
    text
}

/// Writes an answer of few bytes by one write, if the writer takes them all.
#[tactic(auto, unfolding(crate::specs::Answer::answer_text))]
pub(crate) fn write_short<W: Write>(
    writer: &mut W,
    status: Status,
    allow: Option<Method>,
    body: &[u8],
    calls: &mut IoCalls,
) -> Result<(), WriteFailed>
    requires { length body.now ≤ REPLY_BYTES }
    ensures writes { Writes (W.contents writer.old) (W.contents writer.new) (answer_text status Plain allow body.now)
        calls.old calls.new result }
{
    let mut text = head_text(status, Media::Plain, allow, body.len() as u128);
    text.push(body);
    write_bytes(writer, text.as_bytes(), calls)
}

/// The text of the reply that there was no memory.
pub(crate) fn memory_text() -> &'static [u8]
    ensures same { result.now ≡ memory_text }
    ensures short { length result.now ≤ REPLY_BYTES }
{
    b"refused 29 Memory\n"
}

/// The status of a rejection.
pub(crate) fn rejection_status(why: Rejection) -> Status
    ensures { result ≡ rejection_status why }
{
    match why {
        Rejection::BadRequest | Rejection::Unread => Status::BadRequest,
        Rejection::HeadTooLarge => Status::HeadTooLarge,
        Rejection::Foreign => Status::Forbidden,
        Rejection::NotImplemented => Status::NotImplemented,
        Rejection::BodyTooLarge => Status::ContentTooLarge,
        Rejection::NotFound => Status::NotFound,
        Rejection::WrongMethod(_) => Status::MethodNotAllowed,
        Rejection::Memory => Status::Unavailable,
    }
}

fn rejection_body(why: Rejection) -> &'static [u8]
    ensures same { result.now ≡ rejection_body why }
    ensures short { length result.now ≤ REPLY_BYTES }
{
    match why {
        Rejection::BadRequest => b"bad request\n",
        Rejection::HeadTooLarge => b"head too large\n",
        Rejection::Foreign => b"foreign\n",
        Rejection::NotImplemented => b"not implemented\n",
        Rejection::BodyTooLarge => b"too large\n",
        Rejection::NotFound => b"not found\n",
        Rejection::WrongMethod(_) => b"method not allowed\n",
        Rejection::Unread => b"unread\n",
        Rejection::Memory => memory_text(),
    }
}

fn allowed_by(why: Rejection) -> Option<Method>
    ensures { result ≡ allowed_by why }
{
    match why {
        Rejection::WrongMethod(allowed) => Some(allowed),
        _ => None,
    }
}

/// Writes the answer to a request that is rejected. After a fault the writer took a prefix of it.
pub(crate) fn write_rejection<W: Write>(
    writer: &mut W,
    why: Rejection,
    calls: &mut IoCalls,
) -> Result<(), WriteFailed>
    ensures writes { Writes (W.contents writer.old) (W.contents writer.new) (rejection_answer why)
        calls.old calls.new result }
{
    write_short(
        writer,
        rejection_status(why),
        allowed_by(why),
        rejection_body(why),
        calls,
    )
}

/// The status of the answer to a command with this reply.
pub(crate) fn reply_status(reply: &Reply) -> Status
    ensures { result ≡ reply_status reply.now }
{
    match reply {
        Reply::Refused(Refusal::Memory | Refusal::Store) => Status::Unavailable,
        Reply::Refused(_) => Status::Conflict,
        _ => Status::Success,
    }
}

/// Writes the answer to a command with this reply. After a fault the writer took a prefix of it.
pub(crate) fn write_reply<W: Write>(
    writer: &mut W,
    reply: &Reply,
    calls: &mut IoCalls,
) -> Result<(), WriteFailed>
    ensures writes { Writes (W.contents writer.old) (W.contents writer.new) (reply_answer reply.now)
        calls.old calls.new result }
{
    let text = reply_text(reply);
    write_short(writer, reply_status(reply), None, text.as_bytes(), calls)
}

/// Writes a list. After a fault the writer took a prefix of the answer.
#[tactic(auto, unfolding(crate::specs::Answer::answer_text))]
pub(crate) fn write_csv<W: Write>(
    writer: &mut W,
    list: &[u8],
    calls: &mut IoCalls,
) -> Result<(), WriteFailed>
    ensures writes { Writes (W.contents writer.old) (W.contents writer.new) (list_answer list.now)
        calls.old calls.new result }
{
    let head = head_text(Status::Success, Media::Csv, None, list.len() as u128);
    write_parts(writer, &[head.as_bytes(), list], calls)
}
