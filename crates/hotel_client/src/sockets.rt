//! Connections over a bare listener of the system. The system takes them, and what their peers send, before the
//! listener is asked: so the test is peer and server, one after the other.
use crate::requests::{CHECK_IN, CHECKED_IN, NOT_BOOKED, booked};
use hotel_program::serve_connections;
use std::alloc::Global;
use std::io::{Read, Write};
use std::net::{Ipv4Addr, TcpListener, TcpStream};
use std::test::Fail;
use std::time::Duration;

/// How many nanoseconds a peer waits for its answer: ten seconds.
const PATIENCE: u64 = 10_000_000_000;

/// A peer of the listener that has sent this.
fn sent(rt: &HostRuntime, listener: &TcpListener, request: &[u8]) -> Result<TcpStream, Fail> {
    let mut peer = TcpStream::connect(rt, listener.local_addr()?)?;
    peer.set_read_timeout(Some(Duration::from_nanos(PATIENCE)))?;
    peer.write_all(request)?;
    Ok(peer)
}

/// All that the peer is sent.
fn answer_to(alloc: Global, peer: &mut TcpStream) -> Result<Vec<u8>, Fail> {
    let mut answer = Vec::new(alloc);
    peer.read_to_end(&mut answer)?;
    Ok(answer)
}

/// Two peers are served in the order in which they came, and a third one, who sends nothing, is not waited for.
#[test]
fn a_bare_listener(rt: HostRuntime) -> Result<(), Fail> {
    let mut desk = booked(rt.alloc())?;
    let mut faults: Vec<u8> = Vec::new(rt.alloc());
    let listener = TcpListener::bind(&rt, (Ipv4Addr::LOCALHOST, 0))?;
    let mut first = sent(&rt, &listener, CHECK_IN)?;
    let mut second = sent(&rt, &listener, CHECK_IN)?;
    let _silent = sent(&rt, &listener, b"")?;
    let status = serve_connections(
        rt.alloc(),
        &listener,
        2,
        &mut desk.books,
        &mut desk.source,
        &mut faults,
    );
    assert!(rt; status == 0 && faults.is_empty());
    assert!(rt; answer_to(rt.alloc(), &mut first)?.as_slice() == CHECKED_IN);
    assert!(rt; answer_to(rt.alloc(), &mut second)?.as_slice() == NOT_BOOKED);
    Ok(())
}
