//! The field lines of a head: which body follows it.

ghost use Rattle.std.specs.Prelude.{◌≡◌, List, ℕ, ◌∷◌, [], ◌++◌, length, map, All};
ghost use Rattle.std.specs.Str.{str_eq_ignore_ascii_case};
ghost use Rattle.httparse.specs.Spans.{IsHeaderWithin, header_bytes};
ghost use Rattle.hotel_http.specs.Fields as spec;
ghost use Rattle.hotel_http.specs.Fields.{IsFoundIn, values_named, length_said, framing, expects_continue};

use crate::rejection::Rejection;
use hotel_lock::AUDIT_BYTES;
use httparse::spans::HeaderSpan;

/// How often a field stands, and its value where it stands once.
#[derive(Clone, Copy, Debug)]
pub(crate) enum Named<'b> {
    Absent,
    Once(&'b [u8]),
    Often,
}

/// Whether two texts are the same but for the case of their letters.
pub(crate) fn is_same_text(a: &[u8], b: &[u8]) -> bool
    ensures { result ≡ str_eq_ignore_ascii_case a.now b.now }
{
    a.eq_ignore_ascii_case(b)
}

/// What is found with one more value.
fn once_more<'b>(found: Named<'b>, value: &'b [u8]) -> Named<'b>
    ensures { (values : List (List ℕ)) → IsFoundIn values found.entry → IsFoundIn (values ++ value.now ∷ []) result }
{
    match found {
        Named::Absent => Named::Once(value),
        _ => Named::Often,
    }
}

/// Looks for the fields of a name, in any case of its letters.
pub(crate) fn find_named<'b>(bytes: &'b [u8], headers: &[HeaderSpan], name: &[u8]) -> Named<'b>
    requires { All (IsHeaderWithin (length bytes.now)) headers.now }
    ensures { IsFoundIn (values_named name.now (map (header_bytes bytes.now) headers.now)) result }
{
    let mut found = Named::Absent;
    for header in headers {
        if is_same_text(header.name.of(bytes), name) {
            found = once_more(found, header.value.of(bytes));
        }
    }
    found
}

/// The length that a value of Content-Length says. A body is no longer than an audit file may be.
fn read_length(text: &[u8]) -> Result<usize, Rejection>
    ensures { result ≡ length_said text.now }
{
    if text.is_empty() {
        return Err(Rejection::BadRequest);
    }
    let mut number = 0;
    for digit in text {
        if !digit.is_ascii_digit() {
            return Err(Rejection::BadRequest);
        }
        number = (number * 10 + (*digit - b'0') as usize).min(AUDIT_BYTES + 1);
    }
    if number > AUDIT_BYTES {
        return Err(Rejection::BodyTooLarge);
    }
    Ok(number)
}

/// The length of the body by the Content-Length fields.
fn body_length(lengths: Named<'_>) -> Result<usize, Rejection>
    ensures { (values : List (List ℕ)) → IsFoundIn values lengths.entry → result ≡ spec.body_length values }
{
    match lengths {
        Named::Absent => Ok(0),
        Named::Once(value) => read_length(value),
        Named::Often => Err(Rejection::BadRequest),
    }
}

/// The length of a body that is not coded for its transfer.
fn plain_length(codings: Named<'_>, lengths: Named<'_>) -> Result<usize, Rejection>
    ensures { (coded values : List (List ℕ)) → IsFoundIn coded codings.entry → IsFoundIn values lengths.entry
        → result ≡ spec.plain_length coded values }
{
    match codings {
        Named::Absent => body_length(lengths),
        Named::Once(_) => Err(Rejection::NotImplemented),
        Named::Often => Err(Rejection::NotImplemented),
    }
}

/// The length of the body that follows a head, or the first rejection.
#[tactic(auto, unfolding(crate::specs::Fields::framing))]
pub(crate) fn read_framing(bytes: &[u8], headers: &[HeaderSpan]) -> Result<usize, Rejection>
    requires { All (IsHeaderWithin (length bytes.now)) headers.now }
    ensures { result ≡ framing (map (header_bytes bytes.now) headers.now) }
{
    let codings = find_named(bytes, headers, b"transfer-encoding");
    plain_length(codings, find_named(bytes, headers, b"content-length"))
}

/// Whether a field says that the client waits for a 100.
fn is_expectation(bytes: &[u8], header: &HeaderSpan) -> bool
    requires { IsHeaderWithin (length bytes.now) header.now }
    ensures { result ≡ spec.is_expectation (header_bytes bytes.now header.now) }
{
    is_same_text(header.name.of(bytes), b"expect")
        && is_same_text(header.value.of(bytes), b"100-continue")
}

/// Whether the client waits for a 100 before it sends the body.
pub(crate) fn expects_continue(bytes: &[u8], headers: &[HeaderSpan]) -> bool
    requires { All (IsHeaderWithin (length bytes.now)) headers.now }
    ensures { result ≡ expects_continue (map (header_bytes bytes.now) headers.now) }
{
    for header in headers {
        if is_expectation(bytes, header) {
            return true;
        }
    }
    false
}
