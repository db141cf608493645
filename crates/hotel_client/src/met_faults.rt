//! Faults that a client meets with ample memory, each by the call that answers it.
use crate::books_in_memory::two_entries_in_memory;
use crate::commands::{first_booking, reply_to};
use crate::connections::fault_of;
use crate::faults::{
    Name, of_audit_file, of_draw, of_guest, of_import, of_list, of_opening, of_recoding,
    of_request, of_script, of_words,
};
use crate::requests::{CHECK_IN, booked, serve};
use crate::tables::two_entries_in_tables;
use crate::values::{code, room};
use hotel_audit::import;
use hotel_core::ListBooks;
use hotel_lists::chain_of;
use hotel_lock::read_notes;
use hotel_nights::Guest;
use hotel_program::{ScriptFault, parse_words, run_script};
use hotel_scenarios::desks::Desk;
use hotel_streams::{FailingReader, FailingWriter};
use keycard_rules::{Chain, draw_fresh};
use sqlite::Connection;
use std::alloc::Global;
use std::io::Read;
use std::process::Abort;
use std::test::Fail;

/// A writer whose first write fails.
fn shut(alloc: Global) -> FailingWriter<Vec<u8>> {
    FailingWriter {
        writer: Vec::new(alloc),
        good: 0,
    }
}

/// A source whose one word gives a code that is issued.
#[test]
fn no_fresh_code(rt: HostRuntime) -> Result<(), Fail> {
    let mut desk = Desk::over(rt.alloc(), ListBooks::empty(rt.alloc()), &[0xa0])?;
    for command in first_booking(rt.alloc(), "Ann Lee")?.as_slice() {
        reply_to(&mut desk, command);
    }
    let fault = draw_fresh(&mut desk.source, &mut desk.books).err();
    assert!(rt; fault.map(of_draw) == Some("no fresh code"));
    Ok(())
}

#[test]
fn recodings(rt: HostRuntime) -> Result<(), Fail> {
    let mut chain = Chain::install(rt.alloc(), code(0xa0)?)?;
    let differs = chain.recode(code(0xa1)?, code(0xa0)?).err();
    assert!(rt; differs.map(of_recoding) == Some("held differs"));
    let passed = chain.recode(code(0xa0)?, code(0xa1)?).err();
    assert!(rt; passed.map(of_recoding) == Some("not awaited"));
    Ok(())
}

#[test]
fn guests(rt: HostRuntime) {
    for text in ["", " Ann", "Ann\n"] {
        let fault = Guest::read(rt.alloc(), text).err();
        assert!(rt; fault.map(of_guest) == Some("unread"));
    }
}

/// A list of a room that isn't there, and one that can't be written.
#[test]
fn lists(rt: HostRuntime) -> Result<(), Fail> {
    let alloc = rt.alloc();
    let mut books = two_entries_in_memory(alloc)?.books;
    let absent = chain_of(alloc, &mut books, room(102)?, &mut shut(alloc)).err();
    assert!(rt; absent.map(of_list) == Some("no room"));
    let unwritten = chain_of(alloc, &mut books, room(101)?, &mut shut(alloc)).err();
    assert!(rt; unwritten.map(of_list) == Some("write"));
    Ok(())
}

/// Neither call takes the bytes for an audit file.
fn is_no_file(rt: &(impl Abort + AllocGlobal), bytes: &[u8], name: Name) {
    let fault = read_notes(rt.alloc(), bytes).err();
    assert!(rt; fault.map(of_audit_file) == Some(name));
    let mut books = ListBooks::empty(rt.alloc());
    let fault = import(rt.alloc(), &mut books, bytes).err();
    assert!(rt; fault.map(of_import) == Some((name, 0, false)));
}

#[test]
fn audit_files(rt: HostRuntime) -> Result<(), Fail> {
    is_no_file(&rt, b"", "no header");
    is_no_file(&rt, b"room,count\n", "wrong header");
    let large = vec![in rt.alloc(); b'a'; 262_145]?;
    is_no_file(&rt, large.as_slice(), "too large");
    Ok(())
}

/// A peer that sends nothing, and one that takes no answer.
#[test]
fn requests(rt: HostRuntime) -> Result<(), Fail> {
    let mut desk = booked(rt.alloc())?;
    let closed = serve(&mut desk, b"", &mut shut(rt.alloc())).err();
    assert!(rt; closed.map(of_request) == Some(("closed", false)));
    let unwritten = serve(&mut desk, CHECK_IN, &mut shut(rt.alloc())).err();
    assert!(rt; unwritten.map(of_request) == Some(("write", true)));
    Ok(())
}

/// The fault of a script on an empty desk whose answers can't be written.
fn script_fault<I: Read>(desk: &mut Desk, reader: &mut I) -> Option<ScriptFault> {
    run_script(
        desk.alloc,
        reader,
        &mut shut(desk.alloc),
        &mut desk.books,
        &mut desk.source,
    )
    .err()
}

/// A script that can't be read, and one whose first answer can't be written.
#[test]
fn scripts(rt: HostRuntime) -> Result<(), Fail> {
    let mut desk = Desk::over(rt.alloc(), ListBooks::empty(rt.alloc()), &[0xa0])?;
    let mut script = b"begin 2031-05-01\nadd-kind DBL\n".as_slice();
    let mut reader = FailingReader {
        reader: script,
        good: 1,
    };
    let unread = script_fault(&mut desk, &mut reader);
    assert!(rt; unread.map(of_script) == Some(("read", 0)));
    let unwritten = script_fault(&mut desk, &mut script);
    assert!(rt; unwritten.map(of_script) == Some(("write", 1)));
    Ok(())
}

/// The fault of a command line, by its name.
fn words_fault(alloc: Global, words: &[&str]) -> Result<Option<Name>, Fail> {
    let mut owned = Vec::new(alloc);
    for word in words {
        owned.push(String::from_str(alloc, word)?)?;
    }
    match parse_words(alloc, owned.as_slice()) {
        Ok(_) => Ok(None),
        Err(fault) => Ok(Some(of_words(&fault))),
    }
}

#[test]
fn words(rt: HostRuntime) -> Result<(), Fail> {
    let alloc = rt.alloc();
    assert!(rt; words_fault(alloc, &["--help"])? == Some("shown"));
    assert!(rt; words_fault(alloc, &["check-in", "1"])? == Some("usage"));
    assert!(rt; words_fault(alloc, &["check-in", "1", "0"])? == Some("ROOM"));
    assert!(rt; words_fault(alloc, &["check-in", "1", "101"])? == None);
    Ok(())
}

/// A database without tables, and a desk that lost a note.
#[test]
fn openings(rt: HostRuntime) -> Result<(), Fail> {
    let bare = Connection::open_in_memory(rt.alloc())?;
    let fault = fault_of(rt.alloc(), bare);
    assert!(rt; fault.map(of_opening) == Some("not a desk"));
    let mut conn = two_entries_in_tables(rt.alloc())?.books.close();
    conn.execute("DELETE FROM note WHERE n = 1", &[])?;
    let fault = fault_of(rt.alloc(), conn);
    assert!(rt; fault.map(of_opening) == Some("note"));
    Ok(())
}
