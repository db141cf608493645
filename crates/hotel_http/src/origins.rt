//! Where a request comes from: its Host, Origin and Sec-Fetch-Site fields.

ghost use Rattle.std.specs.Prelude.{◌≡◌, List, ℕ, length, map, All};
ghost use Rattle.std.specs.{Char.is_ascii_digit, List.list_all, List.list_any};
ghost use Rattle.httparse.specs.Spans.{IsHeaderWithin, header_bytes};
ghost use Rattle.hotel_http.specs.Fields.{IsFoundIn};
ghost use Rattle.hotel_http.specs.Origins as spec;

use crate::fields::{Named, find_named, is_same_text};
use crate::rejection::Rejection;
use httparse::spans::HeaderSpan;

/// Which requests are answered as they ask, by where they come from.
#[derive(Clone, Copy, Debug, PartialEq, Eq)]
pub enum Origins {
    /// All.
    Any,
    /// Those that don't show a web page: without an `Origin`, which browsers add to a page's POST (Fetch, "append a
    /// request `Origin` header"), to no `Host` but `localhost` and `127.0.0.1`, with a port or without, and with no
    /// `Sec-Fetch-Site` but `same-origin` and `none` (Fetch Metadata), in just these letters. So the GET of a page in a
    /// browser that sends no `Sec-Fetch-Site` is among them.
    Local,
}

/// Whether the Host fields are wrong for the minor version of HTTP/1.
fn is_host_wrong(found: Named<'_>, minor: u8) -> bool
    ensures { (values : List (List ℕ)) → IsFoundIn values found.entry → result ≡ spec.is_host_wrong minor values }
{
    match found {
        Named::Absent => minor == 1,
        Named::Once(_) => false,
        Named::Often => true,
    }
}

/// Whether each byte is a decimal digit.
fn are_digits(text: &[u8]) -> bool
    ensures { result ≡ list_all is_ascii_digit text.now }
{
    text.iter().all(|byte| byte.is_ascii_digit())
}

/// Whether a text is a colon and the digits of a port, or nothing.
fn is_port(text: &[u8]) -> bool
    ensures { result ≡ spec.is_port text.now }
{
    text.is_empty() || text[0] == b':' && are_digits(&text[1..])
}

/// Whether a host has a name, in any case of its letters, with a port or without.
fn has_name(name: &[u8], host: &[u8]) -> bool
    ensures { result ≡ spec.has_name name.now host.now }
{
    let end = name.len().min(host.len());
    is_same_text(&host[..end], name) && is_port(&host[end..])
}

/// Whether a host is this computer.
fn is_local(host: &[u8]) -> bool
    ensures { result ≡ spec.is_local host.now }
{
    has_name(b"localhost", host) || has_name(b"127.0.0.1", host)
}

/// Whether a browser says of a request that no page of another site sends it: the desk's own does, or the user.
fn is_own_fetch(site: &[u8]) -> bool
    ensures { result ≡ spec.is_own_fetch site.now }
{
    site == b"same-origin".as_slice() || site == b"none".as_slice()
}

/// Whether a field shows that the request comes from a web page.
fn is_foreign(bytes: &[u8], header: &HeaderSpan) -> bool
    requires { IsHeaderWithin (length bytes.now) header.now }
    ensures { result ≡ spec.is_foreign (header_bytes bytes.now header.now) }
{
    let name = header.name.of(bytes);
    let value = header.value.of(bytes);
    is_same_text(name, b"origin")
        || is_same_text(name, b"host") && !is_local(value)
        || is_same_text(name, b"sec-fetch-site") && !is_own_fetch(value)
}

/// Whether a request is refused for where it comes from.
#[tactic(auto, unfolding(crate::specs::Origins::is_refused))]
fn is_refused(origins: Origins, bytes: &[u8], headers: &[HeaderSpan]) -> bool
    requires { All (IsHeaderWithin (length bytes.now)) headers.now }
    ensures { result ≡ spec.is_refused origins (map (header_bytes bytes.now) headers.now) }
{
    match origins {
        Origins::Any => false,
        Origins::Local => has_foreign(bytes, headers),
    }
}

/// Whether a field shows that the request comes from a web page.
fn has_foreign(bytes: &[u8], headers: &[HeaderSpan]) -> bool
    requires { All (IsHeaderWithin (length bytes.now)) headers.now }
    ensures { result ≡ list_any spec.is_foreign (map (header_bytes bytes.now) headers.now) }
{
    for header in headers {
        if is_foreign(bytes, header) {
            return true;
        }
    }
    false
}

/// Lets a request in, or rejects it by its sender. `minor` is the minor version of HTTP/1.
#[tactic(auto, unfolding(crate::specs::Origins::admitted))]
pub(crate) fn admit(
    origins: Origins,
    minor: u8,
    bytes: &[u8],
    headers: &[HeaderSpan],
) -> Result<(), Rejection>
    requires { All (IsHeaderWithin (length bytes.now)) headers.now }
    ensures { result ≡ spec.admitted origins minor (map (header_bytes bytes.now) headers.now) }
{
    if is_host_wrong(find_named(bytes, headers, b"host"), minor) {
        return Err(Rejection::BadRequest);
    }
    if is_refused(origins, bytes, headers) {
        return Err(Rejection::Foreign);
    }
    Ok(())
}
