//! What the head of a request asks for.

ghost use Rattle.std.specs.Prelude.{◌≡◌, length, map, All};
ghost use Rattle.httparse.specs.Spans.{IsHeaderWithin, header_bytes};
ghost use Rattle.hotel_http.specs.{Plan.path_of, Plan.method_name, Plan.planned, Plan.routed, Plan.allowed};
ghost use Rattle.hotel_http.specs.{Plan.size_read, Plan.is_awaited};

use crate::fields::{expects_continue, read_framing};
use crate::rejection::{Method, Rejection};
use crate::routes::{Routes, Target, find_target, method_of};
use httparse::spans::HeaderSpan;

/// What the head of a request asks for.
#[derive(Clone, Copy, Debug)]
pub(crate) struct Plan {
    pub target: Target,
    /// How many bytes of the body are read.
    pub size: usize,
    /// The client waits for a 100 before it sends the body.
    pub awaited: bool,
    /// A body is announced that isn't read: that of a list.
    pub ignored: bool,
}

/// The path of a target: what stands before the first question mark.
pub(crate) fn path_part(target: &str) -> &str
    ensures { result.now ≡ path_of target.now }
{
    match target.split_once('?') {
        Some((path, _)) => path,
        None => target,
    }
}

/// What the path asks for, where it begins with a slash and has a route.
fn find_route(routes: &Routes, path: &str) -> Result<Target, Rejection>
    ensures { result ≡ routed path.now }
{
    if !path.as_bytes().starts_with(b"/") {
        return Err(Rejection::BadRequest);
    }
    match find_target(routes, path) {
        Some(target) => Ok(target),
        None => Err(Rejection::NotFound),
    }
}

fn method_name(method: Method) -> &'static [u8]
    ensures { result.now ≡ method_name method }
{
    match method {
        Method::Get => b"GET",
        Method::Post => b"POST",
    }
}

/// What is asked for by its own method.
fn allow(method: &[u8], target: Target) -> Result<Target, Rejection>
    ensures { result ≡ allowed method.now target }
{
    if method != method_name(method_of(target)) {
        return Err(Rejection::WrongMethod(method_of(target)));
    }
    Ok(target)
}

/// How many bytes of the body are read: none after a GET.
fn size_read(method: Method, size: usize) -> usize
    ensures { result ≡ size_read method size }
{
    match method {
        Method::Get => 0,
        Method::Post => size,
    }
}

/// Whether the client of HTTP/1.1 waits for a 100 before it sends a body that is read.
fn is_awaited(minor: u8, size: usize, bytes: &[u8], headers: &[HeaderSpan]) -> bool
    requires { All (IsHeaderWithin (length bytes.now)) headers.now }
    ensures { result ≡ is_awaited minor size (map (header_bytes bytes.now) headers.now) }
{
    minor == 1 && size > 0 && expects_continue(bytes, headers)
}

/// What is asked for, or the first rejection. The headers are those of the head that the bytes begin with, `minor` is
/// its minor version of HTTP/1.
#[tactic(auto, unfolding(crate::specs::Plan::planned))]
pub(crate) fn make_plan(
    routes: &Routes,
    minor: u8,
    method: &[u8],
    target: &str,
    bytes: &[u8],
    headers: &[HeaderSpan],
) -> Result<Plan, Rejection>
    requires { All (IsHeaderWithin (length bytes.now)) headers.now }
    ensures { result ≡ planned minor method.now target.now (map (header_bytes bytes.now) headers.now) }
{
    let announced = read_framing(bytes, headers)?;
    let found = find_route(routes, path_part(target))?;
    let target = allow(method, found)?;
    let size = size_read(method_of(target), announced);
    let awaited = is_awaited(minor, size, bytes, headers);
    Ok(Plan {
        target,
        size,
        awaited,
        ignored: size < announced,
    })
}
