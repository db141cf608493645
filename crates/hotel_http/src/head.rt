//! The head of a request.

ghost use Rattle.std.specs.Prelude.{◌≡◌, ◌≢◌, ◌≤◌, ℕ, List, [], ◌++◌, take, length, IfOk, OnOk, IfSome};
ghost use Rattle.std.specs.Prelude.{true};
ghost use Rattle.std.specs.Io.KnownBytes.{Consumes};
ghost use Rattle.hotel_streams.specs.Reads.{ReadsWhile};
ghost use Rattle.hotel_streams.specs.Calls.{CountsReads, OnErrOf};
ghost use Rattle.hotel_streams.specs.declared.bytes.ReadFault.TheVariants.{Read};
ghost use Rattle.httparse.specs.{Grammar.HasNoRequest, declared.spans.HeaderSpan.HeaderSpan};
ghost use Rattle.hotel_http.specs.Head.{IsParsed, IsJudged, IsUnended, LiesWithin, IsOpen, WantsHead};

use hotel_streams::{IoCalls, ReadFault, read_more};
use httparse::spans::{HeaderSpan, RequestSpans, parse_request};
use httparse::{Error, Status};
use std::io::Read;

/// The most bytes of a head.
pub(crate) const HEAD_BYTES: usize = 16_384;

/// The most field lines of a head.
pub(crate) const HEAD_FIELDS: usize = 64;

/// What is known of the head of an input.
#[derive(Clone, Copy, Debug)]
pub(crate) enum Judged {
    /// It goes on.
    More,
    /// The input has no byte.
    Closed,
    /// It is there.
    Whole(RequestSpans),
    /// It is no head, or the input ends inside it.
    Malformed,
    /// It has too many bytes or fields.
    TooLarge,
}

/// The bytes that may be those of a head: the first `HEAD_BYTES`.
pub(crate) fn head_part(bytes: &[u8]) -> &[u8]
    ensures { result.now ≡ take HEAD_BYTES bytes.now }
{
    if bytes.len() <= HEAD_BYTES {
        bytes
    } else {
        &bytes[..HEAD_BYTES]
    }
}

/// What the parser answers of some bytes.
enum Parsed {
    Whole(RequestSpans),
    Part,
    TooMany,
    Bad,
}

fn parse(bytes: &[u8], headers: &mut [HeaderSpan]) -> Parsed
    requires { length headers.old ≡ HEAD_FIELDS }
    ensures { IsParsed bytes.now headers.new result }
{
    match parse_request(bytes, headers) {
        Ok(Status::Complete(spans)) => Parsed::Whole(spans),
        Ok(Status::Partial) => Parsed::Part,
        Err(Error::TooManyHeaders) => Parsed::TooMany,
        Err(_) => Parsed::Bad,
    }
}

/// Judges a head that the parser answers is not whole.
fn judge_part(bytes: &[u8], at_end: bool) -> Judged
    ensures open { IsOpen result → (length bytes.now ≤ HEAD_BYTES) × (at_end ≢ true) }
    ensures within { (headers : List HeaderSpan) → LiesWithin (take HEAD_BYTES bytes.now) headers result }
    ensures judged { (more : List ℕ) (headers : List HeaderSpan) → (at_end ≡ true → more ≡ [])
        → HasNoRequest (take HEAD_BYTES bytes.now)
        → IsJudged (bytes.now ++ more) (take HEAD_BYTES bytes.now) headers result }
{
    if bytes.len() > HEAD_BYTES {
        Judged::TooLarge
    } else if !at_end {
        Judged::More
    } else if bytes.is_empty() {
        Judged::Closed
    } else {
        Judged::Malformed
    }
}

/// Judges the head by the bytes so far, which are all where the input is at its end.
fn judge(bytes: &[u8], at_end: bool, headers: &mut [HeaderSpan]) -> Judged
    requires { length headers.old ≡ HEAD_FIELDS }
    ensures open { IsOpen result → IsUnended bytes.now × (at_end ≢ true) }
    ensures within { LiesWithin (take HEAD_BYTES bytes.now) headers.new result }
    ensures judged { (more : List ℕ) → (at_end ≡ true → more ≡ [])
        → IsJudged (bytes.now ++ more) (take HEAD_BYTES bytes.now) headers.new result }
{
    match parse(head_part(bytes), headers) {
        Parsed::Whole(spans) => Judged::Whole(spans),
        Parsed::Part => judge_part(bytes, at_end),
        Parsed::TooMany => Judged::TooLarge,
        Parsed::Bad => Judged::Malformed,
    }
}

/// Reads until the head is judged. Bytes after the head may be read with it.
pub(crate) fn read_head<R: Read>(
    reader: &mut R,
    bytes: &mut Vec<u8>,
    headers: &mut [HeaderSpan],
    calls: &mut IoCalls,
) -> Result<Judged, ReadFault>
    requires room { length headers.old ≡ HEAD_FIELDS }
    requires empty { bytes.old.items ≡ [] }
    ensures taken { OnOk result (Consumes (R.remaining reader.old) (R.remaining reader.new) bytes.new.items) }
    ensures wanted { ReadsWhile WantsHead (R.remaining reader.old) (R.remaining reader.new) }
    ensures judged { IfOk result (λ judged. IfSome (R.remaining reader.old)
        (λ input. IsJudged input (take HEAD_BYTES bytes.new.items) headers.new judged)) }
    ensures within { IfOk result (LiesWithin (take HEAD_BYTES bytes.new.items) headers.new) }
    ensures done { IfOk result (λ judged. ¬ (IsOpen judged)) }
    ensures calls { CountsReads calls.old calls.new (OnErrOf result Read) }
{
    'pieces: loop {
        let got = read_more(reader, bytes, calls)?;
        match judge(bytes, got == 0, headers) {
            Judged::More => {}
            judged => return Ok(judged),
        }
    }
}
