//! Lists over books of which a call fails, each call in turn, for each cause: by their own calls, in a script and over
//! HTTP.
use crate::causes::{CAUSES, counts, counts_of, refusal_of, stopping};
use crate::lists::{list_of, write_alone};
use crate::one_byte::OneByteWriter;
use hotel_core::Walks;
use hotel_http::{ServeFault, Served, serve_one};
use hotel_lists::ListFault;
use hotel_program::{ScriptEnd, run_script};
use hotel_scenarios::desks::Desk;
use hotel_streams::{FailingWriter, FullWriter, InterruptedWriter};
use keycard_rules::LookFault;
use std::alloc::Global;
use std::io::Write;
use std::process::Abort;
use std::test::Fail;
use stopping_books::StoppingBooks;

/// Room 101 was never entered, and its second guest is in house; the guest of room 102 came, went out and came again;
/// and one more is to arrive two days later.
static ALL_LISTS: [&[u8]; 15] = [
    b"begin 2031-05-01",
    b"add-kind DBL",
    b"add-room 101 DBL",
    b"add-room 102 DBL",
    b"reserve DBL 2031-05-01 2 Ann Lee",
    b"check-in 1 101",
    b"check-out 1",
    b"reserve DBL 2031-05-01 2 Bo",
    b"check-in 2 101",
    b"reserve DBL 2031-05-01 1 Cy",
    b"check-in 3 102",
    b"entered 102 1 3 b0 b1 2031-05-01T15:00:00",
    b"left 102 2 3 b0 b1 2031-05-01T16:00:00",
    b"entered 102 3 3 b0 b1 2031-05-01T17:00:00",
    b"reserve DBL 2031-05-03 1 Di",
];

/// A desk of which each list has rows.
fn listed_desk(alloc: Global) -> Result<Desk, Fail> {
    let mut desk = Desk::of_codes(alloc, &[0xa0, 0xb0, 0xa1, 0xa2, 0xb1])?;
    desk.do_lines(&ALL_LISTS)?;
    Ok(desk)
}

/// A list.
#[derive(Clone, Copy)]
struct Asked {
    /// The line that asks for it.
    line: &'static [u8],
    /// The path by which HTTP asks for it.
    path: &'static [u8],
    text: &'static [u8],
    /// How many calls of the books it makes: one before each row and one behind the last one, and of a room that is
    /// looked up first. The business day is one look-up, a card is two: the card and its party's stay.
    calls: u64,
    /// How many of them it makes before its header is written.
    unwritten: u64,
}

static ASKED: [Asked; 13] = [
    Asked {
        line: b"arrivals 2031-05-03",
        path: b"/arrivals/2031-05-03",
        text: b"party,guest,kind,arrive,depart\n4,Di,DBL,2031-05-03,2031-05-04\n",
        calls: 2,
        unwritten: 0,
    },
    Asked {
        line: b"in-house",
        path: b"/in-house",
        text: b"\
room,party,guest,kind,depart,secured
101,2,Bo,DBL,2031-05-03,no
102,3,Cy,DBL,2031-05-02,yes
",
        calls: 3,
        unwritten: 0,
    },
    Asked {
        line: b"chain 101",
        path: b"/rooms/101/chain",
        text: b"\
place,code,state
0,0000000000a0,held
1,0000000000a1,awaited
2,0000000000a2,awaited
",
        calls: 5,
        unwritten: 1,
    },
    Asked {
        line: b"left-behind",
        path: b"/left-behind",
        text: b"room,held,current,awaited\n101,0000000000a0,0000000000a2,2\n",
        calls: 2,
        unwritten: 0,
    },
    Asked {
        line: b"audit-of 102",
        path: b"/rooms/102/audit",
        text: b"\
room,fit,count,kind,card,old,new,at
102,1,1,in,3,0000000000b0,0000000000b1,2031-05-01T15:00:00
102,1,2,out,3,0000000000b0,0000000000b1,2031-05-01T16:00:00
102,1,3,in,3,0000000000b0,0000000000b1,2031-05-01T17:00:00
",
        calls: 5,
        unwritten: 1,
    },
    Asked {
        line: b"business-day",
        path: b"/business-day",
        text: b"day\n2031-05-01\n",
        calls: 1,
        unwritten: 1,
    },
    Asked {
        line: b"room-status",
        path: b"/room-status",
        text: b"\
room,kind,party,secured,awaited
101,DBL,2,no,2
102,DBL,3,yes,0
",
        calls: 3,
        unwritten: 0,
    },
    Asked {
        line: b"inside",
        path: b"/inside",
        text: b"room,card,party\n102,3,3\n",
        calls: 2,
        unwritten: 0,
    },
    Asked {
        line: b"bookings",
        path: b"/bookings",
        text: b"party,guest,kind,arrive,depart\n4,Di,DBL,2031-05-03,2031-05-04\n",
        calls: 2,
        unwritten: 0,
    },
    Asked {
        line: b"availability 2031-05-03 1",
        path: b"/availability/2031-05-03/1",
        text: b"kind,rooms,free\nDBL,2,1\n",
        calls: 2,
        unwritten: 0,
    },
    Asked {
        line: b"cards 2",
        path: b"/parties/2/cards",
        text: b"card,old,new\n2,0000000000a1,0000000000a2\n",
        calls: 2,
        unwritten: 0,
    },
    Asked {
        line: b"card 2",
        path: b"/cards/2",
        text: b"card,party,guest,old,new\n2,2,Bo,0000000000a1,0000000000a2\n",
        calls: 2,
        unwritten: 2,
    },
    Asked {
        line: b"locks",
        path: b"/locks",
        text: b"room,fit,count,at\n101,1,0,\n102,1,3,2031-05-01T17:00:00\n",
        calls: 3,
        unwritten: 0,
    },
];

/// The first lines of a text, so many of them.
fn first_lines(text: &[u8], lines: u64) -> &[u8] {
    let mut left = lines;
    for (at, byte) in text.iter().enumerate() {
        if left == 0 {
            return text.get(..at).unwrap_or(b"");
        }
        if *byte == b'\n' {
            left = left.saturating_sub(1);
        }
    }
    text
}

impl Asked {
    /// Whether this may be written of the list where the call of this number fails: whole lines of it, and none of a
    /// row that the books hadn't handed over.
    fn may_be_cut_to(&self, text: &[u8], call: u64) -> bool {
        let lines_before = call.saturating_sub(self.unwritten);
        let is_whole = text.is_empty() || text.ends_with(b"\n");
        is_whole && first_lines(self.text, lines_before).starts_with(text)
    }
}

/// The fault that a list answers where a call of the books failed for this cause.
fn fault_of(cause: LookFault) -> ListFault {
    match cause {
        LookFault::Memory => ListFault::Memory,
        LookFault::Store => ListFault::Store,
    }
}

/// The list ends so over these books and this writer, by so many calls.
fn ends_so<W: Write>(
    rt: &(impl Abort + AllocGlobal),
    asked: &Asked,
    books: &mut StoppingBooks,
    writer: &mut W,
    end: Result<(), ListFault>,
    calls: u64,
) -> Result<(), Fail> {
    let before = books.calls();
    let list = list_of(rt.alloc(), asked.line)?;
    let ended = write_alone(rt.alloc(), &list, books, writer);
    assert!(rt; ended == end);
    assert!(rt; books.calls() == before.saturating_add(calls));
    Ok(())
}

/// The list is written whole.
fn is_whole(
    rt: &(impl Abort + AllocGlobal),
    asked: &Asked,
    books: &mut StoppingBooks,
) -> Result<(), Fail> {
    let mut writer = OneByteWriter::new(rt.alloc());
    ends_so(rt, asked, books, &mut writer, Ok(()), asked.calls)?;
    assert!(rt; writer.written() == asked.text);
    Ok(())
}

/// A writer that goes on by one byte a call, of which the one behind so many good ones fails.
fn failing_writer(alloc: Global, good: u32) -> FailingWriter<OneByteWriter> {
    FailingWriter {
        writer: OneByteWriter::new(alloc),
        good,
    }
}

/// Where no write of a list fails.
const ALL_GOOD: u32 = u32::MAX;

/// The call of this number fails for this cause, and the write behind so many good ones: that cause is reported and
/// counted. Then the list is whole.
fn fails_at(
    rt: &(impl Abort + AllocGlobal),
    asked: &Asked,
    good: u32,
    call: u64,
    cause: LookFault,
) -> Result<(), Fail> {
    let mut books = stopping(listed_desk(rt.alloc())?, call, cause).books;
    let mut writer = failing_writer(rt.alloc(), good);
    let end = Err(fault_of(cause));
    ends_so(rt, asked, &mut books, &mut writer, end, call)?;
    assert!(rt; asked.may_be_cut_to(writer.writer.written(), call));
    is_whole(rt, asked, &mut books)?;
    assert!(rt; counts(&books) == counts_of(Some(cause)));
    Ok(())
}

/// Each call of the list fails in turn, for each cause, and the write behind so many good ones.
fn fails_in_turn(rt: &(impl Abort + AllocGlobal), asked: &Asked, good: u32) -> Result<(), Fail> {
    for call in 1..=asked.calls {
        for cause in CAUSES {
            fails_at(rt, asked, good, call, cause)?;
        }
    }
    Ok(())
}

#[test]
fn each_call_of_a_list_fails(rt: HostRuntime) -> Result<(), Fail> {
    for asked in &ASKED {
        fails_in_turn(&rt, asked, ALL_GOOD)?;
    }
    Ok(())
}

/// How many bytes the header has.
fn header_bytes(asked: &Asked) -> u32 {
    let mut bytes = 0u32;
    for _ in first_lines(asked.text, 1) {
        bytes = bytes.saturating_add(1);
    }
    bytes
}

/// Behind a walk that failed nothing is written: a write that would fail there isn't reported in place of the walk's
/// fault.
#[test]
fn a_failed_walk_is_told_before_a_failed_write(rt: HostRuntime) -> Result<(), Fail> {
    for asked in &ASKED {
        fails_in_turn(&rt, asked, header_bytes(asked))?;
    }
    Ok(())
}

/// How many calls the list makes where the write behind so many bytes fails.
fn calls_behind(asked: &Asked, bytes: u32) -> u64 {
    if bytes < header_bytes(asked) {
        asked.unwritten
    } else {
        asked.calls
    }
}

/// The write behind so many of one byte each fails, or takes no byte: the bytes before it were written.
fn is_cut_behind(
    rt: &(impl Abort + AllocGlobal),
    asked: &Asked,
    books: &mut StoppingBooks,
    good: u32,
    written: &[u8],
) -> Result<(), Fail> {
    let calls = calls_behind(asked, good);
    let end = Err(ListFault::Write);
    let mut failing = failing_writer(rt.alloc(), good);
    ends_so(rt, asked, books, &mut failing, end, calls)?;
    assert!(rt; failing.writer.written() == written);
    let mut full = FullWriter {
        writer: OneByteWriter::new(rt.alloc()),
        good,
    };
    ends_so(rt, asked, books, &mut full, end, calls)?;
    assert!(rt; full.writer.written() == written);
    Ok(())
}

/// The write of each byte fails in turn, or takes no byte.
fn each_write_of(
    rt: &(impl Abort + AllocGlobal),
    asked: &Asked,
    books: &mut StoppingBooks,
) -> Result<(), Fail> {
    let mut good = 0u32;
    for bytes in 0..asked.text.len() {
        let written = asked.text.get(..bytes).ok_or("a prefix")?;
        is_cut_behind(rt, asked, books, good, written)?;
        good = good.saturating_add(1);
    }
    Ok(())
}

/// A failed write is no failure of the books: they count none.
#[test]
fn failed_writes_are_not_counted(rt: HostRuntime) -> Result<(), Fail> {
    for asked in &ASKED {
        let mut books = stopping(listed_desk(rt.alloc())?, 0, LookFault::Store).books;
        each_write_of(&rt, asked, &mut books)?;
        assert!(rt; counts(&books) == counts_of(None));
        is_whole(&rt, asked, &mut books)?;
    }
    Ok(())
}

/// The first writes are interrupted, so many of them: the list ends so, by so many calls, and this is written.
fn ends_interrupted(
    rt: &(impl Abort + AllocGlobal),
    asked: &Asked,
    times: u32,
    end: Result<(), ListFault>,
    calls: u64,
    written: &[u8],
) -> Result<(), Fail> {
    let mut books = stopping(listed_desk(rt.alloc())?, 0, LookFault::Store).books;
    let mut writer = InterruptedWriter {
        writer: OneByteWriter::new(rt.alloc()),
        times,
    };
    ends_so(rt, asked, &mut books, &mut writer, end, calls)?;
    assert!(rt; writer.writer.written() == written);
    assert!(rt; counts(&books) == counts_of(None));
    Ok(())
}

/// After 999 interrupted writes the list is whole, and the 1,000th is a fault.
#[test]
fn interrupted_writes(rt: HostRuntime) -> Result<(), Fail> {
    for asked in &ASKED {
        ends_interrupted(&rt, asked, 999, Ok(()), asked.calls, asked.text)?;
        let calls = calls_behind(asked, 0);
        ends_interrupted(&rt, asked, 1_000, Err(ListFault::Write), calls, b"")?;
    }
    Ok(())
}

/// The texts, one after the other.
fn joined(alloc: Global, texts: &[&[u8]]) -> Result<Vec<u8>, Fail> {
    let mut all = Vec::new(alloc);
    for text in texts {
        all.extend_from_slice(text)?;
    }
    Ok(all)
}

/// The output of a script of these two lines on the desk.
fn output_of(
    rt: &(impl Abort + AllocGlobal),
    desk: &mut Desk<impl Walks>,
    script: &[u8],
) -> Result<Vec<u8>, Fail> {
    let mut reader = script;
    let mut writer = Vec::new(rt.alloc());
    let ran = run_script(
        rt.alloc(),
        &mut reader,
        &mut writer,
        &mut desk.books,
        &mut desk.source,
    );
    assert!(rt; ran == Ok(ScriptEnd { lines: 2 }));
    Ok(writer)
}

/// A script asks for the list twice. The call of this number fails for this cause: lines before it are followed by the
/// refusal, and then the list is whole.
fn fails_in_script(
    rt: &(impl Abort + AllocGlobal),
    asked: &Asked,
    call: u64,
    cause: LookFault,
) -> Result<(), Fail> {
    let script = joined(rt.alloc(), &[asked.line, b"\n", asked.line])?;
    let rest = joined(rt.alloc(), &[refusal_of(cause), asked.text])?;
    let mut desk = stopping(listed_desk(rt.alloc())?, call, cause);
    let output = output_of(rt, &mut desk, script.as_slice())?;
    let prefix = output.as_slice().strip_suffix(rest.as_slice());
    assert!(rt; asked.may_be_cut_to(prefix.ok_or("the refusal and the list")?, call));
    assert!(rt; desk.books.calls() == call.saturating_add(asked.calls));
    assert!(rt; counts(&desk.books) == counts_of(Some(cause)));
    Ok(())
}

/// Each call of the list fails in turn, for each cause.
fn fails_in_turn_in_scripts(rt: &(impl Abort + AllocGlobal), asked: &Asked) -> Result<(), Fail> {
    for call in 1..=asked.calls {
        for cause in CAUSES {
            fails_in_script(rt, asked, call, cause)?;
        }
    }
    Ok(())
}

#[test]
fn each_call_of_a_list_in_a_script_fails(rt: HostRuntime) -> Result<(), Fail> {
    for asked in &ASKED {
        fails_in_turn_in_scripts(&rt, asked)?;
    }
    Ok(())
}

/// The desk answers the reader's request to the writer.
fn serve(
    desk: &mut Desk<impl Walks>,
    reader: &mut &[u8],
    writer: &mut Vec<u8>,
) -> Result<Served, ServeFault> {
    serve_one(
        desk.alloc,
        reader,
        writer,
        &mut desk.books,
        &mut desk.source,
    )
}

/// The request for the list has this status and this body.
fn is_served(
    rt: &(impl Abort + AllocGlobal),
    desk: &mut Desk<impl Walks>,
    asked: &Asked,
    status: u16,
    body: &[u8],
) -> Result<(), Fail> {
    let head = [b"GET ", asked.path, b" HTTP/1.1\r\nHost: desk\r\n\r\n"];
    let request = joined(rt.alloc(), &head)?;
    let end = joined(rt.alloc(), &[b"\r\n\r\n", body])?;
    let mut reader = request.as_slice();
    let mut writer = Vec::new(rt.alloc());
    let served = serve(desk, &mut reader, &mut writer);
    assert!(rt;
        served
            == Ok(Served {
                status,
                acted: false
            })
    );
    assert!(rt; writer.as_slice().ends_with(end.as_slice()));
    Ok(())
}

/// The call of this number fails for this cause: the refusal alone is answered. Then the list is whole.
fn fails_in_request(
    rt: &(impl Abort + AllocGlobal),
    asked: &Asked,
    call: u64,
    cause: LookFault,
) -> Result<(), Fail> {
    let mut desk = stopping(listed_desk(rt.alloc())?, call, cause);
    is_served(rt, &mut desk, asked, 503, refusal_of(cause))?;
    assert!(rt; desk.books.calls() == call);
    is_served(rt, &mut desk, asked, 200, asked.text)?;
    assert!(rt; counts(&desk.books) == counts_of(Some(cause)));
    Ok(())
}

/// Each call of the list fails in turn, for each cause.
fn fails_in_turn_in_requests(rt: &(impl Abort + AllocGlobal), asked: &Asked) -> Result<(), Fail> {
    for call in 1..=asked.calls {
        for cause in CAUSES {
            fails_in_request(rt, asked, call, cause)?;
        }
    }
    Ok(())
}

#[test]
fn each_call_of_a_list_in_a_request_fails(rt: HostRuntime) -> Result<(), Fail> {
    for asked in &ASKED {
        fails_in_turn_in_requests(&rt, asked)?;
    }
    Ok(())
}
