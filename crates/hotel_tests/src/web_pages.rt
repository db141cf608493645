//! Requests of web pages, and of programs on this computer: the former are refused from `Origins::Local`, and neither
//! from `Origins::Any`, as `serve_one` has it. `.ci/bytes` sends more of both to the built program.
use hotel_core::Walks;
use hotel_http::{Origins, Service, make_routes, serve_by, serve_one};
use hotel_scenarios::desks::Desk;
use hotel_streams::IoCalls;
use std::alloc::Global;
use std::process::Abort;
use std::test::Fail;

/// The lines of a head behind its first one, and whether a page in a browser has it sent. The programs are curl,
/// Python's http.client, Go's net/http and wrk.
static HEADS: [(&[u8], bool); 20] = [
    (
        b"Host: 127.0.0.1:18080\r\nUser-Agent: curl/8.5.0\r\nAccept: */*\r\n",
        false,
    ),
    (
        b"Host: localhost:18080\r\nAccept-Encoding: identity\r\n",
        false,
    ),
    (
        b"Host: 127.0.0.1:18080\r\nUser-Agent: Go-http-client/1.1\r\nAccept-Encoding: gzip\r\n",
        false,
    ),
    (b"Host: 127.0.0.1:18080\r\n", false),
    (b"hOST:\t LocalHost: \t\r\n", false),
    (
        b"Host: localhost:18080\r\nOrigin: https://page.example\r\n",
        true,
    ),
    (b"oRIGIN:\r\nHost: localhost\r\n", true),
    (b"Host: page.example:18080\r\n", true),
    (b"Host:\r\n", true),
    (b"Host: localhost.page.example\r\n", true),
    (b"Host: 127.0.0.12\r\n", true),
    (b"Host: localhos\r\n", true),
    (b"Host: localhost:80x\r\n", true),
    (b"Host: localhost :80\r\n", true),
    (b"Host: localhost\r\nSec-Fetch-Site: none\r\n", false),
    (b"Host: localhost\r\nsec-FETCH-site:same-origin \r\n", false),
    (b"Host: localhost\r\nSec-Fetch-Site: cross-site\r\n", true),
    (b"Sec-Fetch-Site: same-site\r\nHost: localhost\r\n", true),
    (b"Host: localhost\r\nSec-Fetch-Site:\r\n", true),
    (b"Host: localhost\r\nSec-Fetch-Site: None\r\n", true),
];

/// A request of these parts.
fn joined(alloc: Global, parts: &[&[u8]]) -> Result<Vec<u8>, Fail> {
    let mut request = Vec::new(alloc);
    for part in parts {
        request.extend_from_slice(part)?;
    }
    Ok(request)
}

/// The status of the answer where only requests from these origins are answered.
fn status_from(desk: &mut Desk<impl Walks>, origins: Origins, request: &[u8]) -> Result<u16, Fail> {
    let Ok(routes) = make_routes(desk.alloc) else {
        return Err(Fail::from("no routes"));
    };
    let service = Service {
        origins,
        routes: &routes,
    };
    let mut reader = request;
    let mut writer = Vec::new(desk.alloc);
    let done = serve_by(
        desk.alloc,
        service,
        &mut reader,
        &mut writer,
        &mut desk.books,
        &mut desk.source,
        &mut IoCalls::none(),
    )?;
    Ok(done.served.status)
}

/// The status by `serve_one`.
fn status_of_one(desk: &mut Desk<impl Walks>, request: &[u8]) -> Result<u16, Fail> {
    let mut reader = request;
    let mut writer = Vec::new(desk.alloc);
    let served = serve_one(
        desk.alloc,
        &mut reader,
        &mut writer,
        &mut desk.books,
        &mut desk.source,
    )?;
    Ok(served.status)
}

#[test]
fn pages_are_refused(rt: HostRuntime) -> Result<(), Fail> {
    let mut desk = Desk::of_codes(rt.alloc(), &[0xa0])?;
    for (lines, is_of_page) in &HEADS {
        let request = joined(rt.alloc(), &[b"GET /in-house HTTP/1.1\r\n", lines, b"\r\n"])?;
        let status = if *is_of_page { 403 } else { 200 };
        assert!(rt; status_from(&mut desk, Origins::Local, &request)? == status);
        assert!(rt; status_from(&mut desk, Origins::Any, &request)? == 200);
        assert!(rt; status_of_one(&mut desk, &request)? == 200);
    }
    Ok(())
}

/// What begins a desk, by a page's form and by a program.
static BEGIN: [&[u8]; 2] = [
    b"POST /begin HTTP/1.1\r\nHost: localhost\r\nOrigin: null\r\nContent-Length: 14\r\n\r\nday=2031-05-01",
    b"POST /begin HTTP/1.1\r\nHost: localhost\r\nContent-Length: 14\r\n\r\nday=2031-05-01",
];

#[test]
fn pages_begin_nothing(rt: HostRuntime) -> Result<(), Fail> {
    let mut desk = Desk::of_codes(rt.alloc(), &[0xa0])?;
    let [of_page, of_program] = BEGIN;
    assert!(rt; status_from(&mut desk, Origins::Local, of_page)? == 403);
    assert!(rt; status_from(&mut desk, Origins::Local, of_program)? == 200);
    assert!(rt; status_of_one(&mut desk, of_page)? == 409);
    Ok(())
}
