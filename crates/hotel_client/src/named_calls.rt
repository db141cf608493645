//! Calls that somebody else's program makes by name, with ample memory: notes that are read and reported, words,
//! commands alone, and connections over a listener of its own.
ghost use Rattle.std.specs.Prelude.{◌≡◌, Some, OnOk};
ghost use Rattle.std.specs.Duration.{as_nanos};

use crate::commands::checked_in;
use crate::values::{count, kind, party};
use hotel_core::{Command, ListBooks, Refusal, Reply, reply_text, report};
use hotel_lock::{AuditFault, Line, read_notes};
use hotel_nights::Moment;
use hotel_program::{
    Caller, DeskAct, ListAsk, Listener, NoClock, UsageFault, ValueName, parse_words, run_one,
    serve_connections, status_of,
};
use hotel_scenarios::desks::Desk;
use keycard_rules::LockNote;
use std::alloc::Global;
use std::io::{self, ErrorKind, Read, Write};
use std::test::Fail;
use std::time::{Duration, Instant};

/// The first entry of the party's card, and a line whose count is no number.
const FILE: &[u8] = b"room,fit,count,kind,card,old,new,at\n\
    101,1,1,in,1,0000000000a0,0000000000a1,2031-05-01T15:00:00\n\
    101,1,x,in,1,0000000000a0,0000000000a1,2031-05-01T15:00:00\n";

/// A desk over books in memory, where the first party is checked in.
fn one_guest(alloc: Global) -> Result<Desk, Fail> {
    checked_in(alloc, ListBooks::empty(alloc))
}

/// The note's moment is this one.
fn is_noted_at(note: &LockNote, at: &Moment) -> bool {
    note.day == at.day.number() && note.second == at.second
}

#[test]
fn notes_reported(rt: HostRuntime) -> Result<(), Fail> {
    let mut desk = one_guest(rt.alloc())?;
    let lines = read_notes(rt.alloc(), FILE)?;
    let at = Moment::read(b"2031-05-01T15:00:00").ok_or("a moment")?;
    let mut told = Vec::new(rt.alloc());
    for line in lines.as_slice() {
        match line {
            Line::Note(note) => {
                assert!(rt; note.count == count(1)? && is_noted_at(note, &at));
                told.extend_from_slice(reply_text(&report(&mut desk.books, note)).as_bytes())?;
                told.extend_from_slice(reply_text(&report(&mut desk.books, note)).as_bytes())?;
            }
            Line::Unread(_) => told.extend_from_slice(b"unread\n")?,
        }
    }
    assert!(rt; told.as_slice() == b"taken\nseen\nunread\n".as_slice());
    assert!(rt; matches!(read_notes(rt.alloc(), b""), Err(AuditFault::NoHeader)));
    assert!(rt;
        matches!(
            read_notes(rt.alloc(), b"room\n"),
            Err(AuditFault::WrongHeader)
        )
    );
    Ok(())
}

/// The words of a command line.
fn words_of(alloc: Global, line: &str) -> Result<Vec<String>, Fail> {
    let mut words = Vec::new(alloc);
    for word in line.split(' ') {
        words.push(String::from_str(alloc, word)?)?;
    }
    Ok(words)
}

/// The fault of a command line, if there is one.
fn fault_of(alloc: Global, line: &str) -> Result<Option<UsageFault>, Fail> {
    Ok(parse_words(alloc, words_of(alloc, line)?.as_slice()).err())
}

/// The words ask for the list of who is in house.
fn is_list_in_house(alloc: Global, line: &str) -> Result<bool, Fail> {
    match parse_words(alloc, words_of(alloc, line)?.as_slice()) {
        Ok(plan) => Ok(matches!(plan.act, DeskAct::List(ListAsk::InHouse))),
        Err(_) => Ok(false),
    }
}

#[test]
fn words_parsed(rt: HostRuntime) -> Result<(), Fail> {
    let alloc = rt.alloc();
    let words = words_of(alloc, "--db desk.db check-in 1 101")?;
    let Ok(plan) = parse_words(alloc, words.as_slice()) else {
        return Err(Fail::from("no plan"));
    };
    assert!(rt; plan.db.is_some() && plan.seed_file.is_none());
    assert!(rt; matches!(plan.act, DeskAct::One(Command::CheckIn { .. })));
    assert!(rt; is_list_in_house(alloc, "in-house")?);
    assert!(rt;
        matches!(
            fault_of(alloc, "check-in x 101")?,
            Some(UsageFault::Value(ValueName::Party))
        )
    );
    assert!(rt;
        matches!(
            fault_of(alloc, "check-in --help")?,
            Some(UsageFault::Shown(_))
        )
    );
    assert!(rt;
        matches!(
            fault_of(alloc, "check-in 1 101 102")?,
            Some(UsageFault::Usage(_))
        )
    );
    Ok(())
}

/// The command alone is answered so, with this status, and no fault is reported.
fn is_answered(desk: &mut Desk, command: &Command, answer: &[u8], status: u8) -> bool {
    let mut writer = Vec::new(desk.alloc);
    let mut faults: Vec<u8> = Vec::new(desk.alloc);
    let got = run_one(
        command,
        &mut desk.books,
        &mut desk.source,
        &mut writer,
        &mut faults,
    );
    got == status && writer.as_slice() == answer && faults.is_empty()
}

#[test]
fn commands_alone(rt: HostRuntime) -> Result<(), Fail> {
    let mut desk = one_guest(rt.alloc())?;
    let spare = b"card 2 party 1 old 0000000000a0 new 0000000000a1\n";
    assert!(rt; is_answered(&mut desk, &Command::Spare(party(1)?), spare, 0));
    let add_kind = Command::AddKind(kind(b"DBL")?);
    assert!(rt; is_answered(&mut desk, &add_kind, b"refused 3 KindExists\n", 3));
    assert!(rt; status_of(&Reply::Refused(Refusal::Store)) == 4);
    Ok(())
}

/// A connection; what its peer sends is known to who calls it.
#[derive(Drop)]
struct Peer;

/// Calls a peer, of which it knows each byte.
#[derive(Drop)]
struct Call {
    /// What the peer still sends.
    sends: &'static [u8],
    /// What it was given.
    given: Vec<u8>,
}

/// A limit that is some time is needs_time.
fn needs_time(limit: Duration) -> io::Result<()>
    ensures { as_nanos limit ≡ 0 → OnOk result ⊥ }
{
    if limit.is_zero() {
        return Err(io::Error::from(ErrorKind::InvalidInput));
    }
    Ok(())
}

impl Caller<Peer> for Call {
    ghost remaining = { λ _ call. Some call.sends.now };

    ghost contents = { λ _ call. Some call.given.items };

    ghost clock_read = { λ _ _ _. Unit {0} };

    ghost reads_limited = { λ _ _ _ _ _. Unit {0} };

    ghost writes_limited = { λ _ _ _ _ _. Unit {0} };

    ghost was_read = { λ _ _ _ _ _. Unit {0} };

    ghost was_written = { λ _ _ _ _ _. Unit {0} };

    ghost writes_shut = { λ _ _ _ _. Unit {0} };

    fn now(&mut self) -> io::Result<Instant> {
        Instant::now(&NoClock)
    }

    fn limit_reads(&mut self, _peer: &Peer, limit: Duration) -> io::Result<()> {
        needs_time(limit)
    }

    fn limit_writes(&mut self, _peer: &Peer, limit: Duration) -> io::Result<()> {
        needs_time(limit)
    }

    fn read_some(&mut self, _peer: &Peer, room: &mut [u8]) -> io::Result<usize> {
        self.sends.read(room)
    }

    fn write_some(&mut self, _peer: &Peer, bytes: &[u8]) -> io::Result<usize> {
        self.given.write(bytes)
    }

    fn shut_writes(&mut self, _peer: &Peer) -> io::Result<()> {
        Ok(())
    }
}

/// Peers that come one after the other; where one is missing, none can be taken.
#[derive(Drop)]
struct Peers<'a> {
    alloc: Global,
    peers: &'static [Option<&'static [u8]>],
    count: usize,
    /// What the last one sends that was taken.
    sends: &'static [u8],
    /// What all were given.
    answers: &'a mut Vec<u8>,
}

impl<'a> Listener for Peers<'a> {
    type Stream = Peer;

    type Caller = Call;

    ghost taken = { λ _ _ _. Unit {0} };

    ghost caller_made = { λ _ _ _. Unit {0} };

    ghost closed = { λ _ _ _ _ _. Unit {0} };

    ghost waited = { λ _ _ _. Unit {0} };

    fn accept(&mut self) -> io::Result<Peer> {
        let next = self.peers.get(self.count);
        self.count = self.count.saturating_add(1);
        match next {
            Some(Some(sends)) => {
                self.sends = sends;
                Ok(Peer)
            }
            _ => Err(io::Error::from(ErrorKind::Other)),
        }
    }

    fn caller(&mut self) -> Call {
        Call {
            sends: self.sends,
            given: Vec::new(self.alloc),
        }
    }

    fn close(&mut self, _peer: Peer, _reads: Call, writes: Call) {
        // (the test misses what found no room)
        let _ = self.answers.extend_from_slice(&writes.given);
    }

    fn wait(&mut self, _time: Duration) {}
}

/// A check-out, none that can be taken, one that sends nothing, one that isn't there with a body, and a check-in.
static PEERS: [Option<&[u8]>; 5] = [
    Some(b"POST /reservations/1/check-out HTTP/1.1\r\nHost: localhost\r\n\r\n"),
    None,
    Some(b""),
    Some(b"POST /nowhere HTTP/1.1\r\nHost: localhost\r\nContent-Length: 4\r\n\r\nroom"),
    Some(b"POST /kinds HTTP/1.1\r\nHost: localhost\r\nContent-Length: 8\r\n\r\nkind=SGL"),
];

/// What those are given that can be taken: of the one that sends nothing, no byte.
const ANSWERS: &[u8] =
    b"HTTP/1.1 200 OK\r\nContent-Type: text/plain; charset=utf-8\r\nContent-Length: 12\r\n\
    Connection: close\r\n\r\nchecked out\n\
    HTTP/1.1 404 Not Found\r\nContent-Type: text/plain; charset=utf-8\r\nContent-Length: 10\r\n\
    Connection: close\r\n\r\nnot found\n\
    HTTP/1.1 200 OK\r\nContent-Type: text/plain; charset=utf-8\r\nContent-Length: 11\r\n\
    Connection: close\r\n\r\nkind added\n";

#[test]
fn connections_served(rt: HostRuntime) -> Result<(), Fail> {
    let mut desk = one_guest(rt.alloc())?;
    let mut answers = Vec::new(rt.alloc());
    let mut faults = Vec::new(rt.alloc());
    let peers = Peers {
        alloc: rt.alloc(),
        peers: &PEERS,
        count: 0,
        sends: b"",
        answers: &mut answers,
    };
    let status = serve_connections(
        rt.alloc(),
        peers,
        5,
        &mut desk.books,
        &mut desk.source,
        &mut faults,
    );
    assert!(rt; status == 0);
    assert!(rt; faults.as_slice() == b"closed\nclosed\n".as_slice());
    assert!(rt; answers.as_slice() == ANSWERS);
    let check_out = Command::CheckOut(party(1)?);
    assert!(rt; is_answered(&mut desk, &check_out, b"refused 9 NotInHouse\n", 3));
    let add_kind = Command::AddKind(kind(b"SGL")?);
    assert!(rt; is_answered(&mut desk, &add_kind, b"refused 3 KindExists\n", 3));
    Ok(())
}
