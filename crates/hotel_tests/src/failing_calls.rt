//! A script and a request of which each read and each write fails in turn, or calls are interrupted: how many commands
//! they say that stand, which the built program doesn't tell. `.ci/failures` has its reads and writes fail, take no
//! byte and be interrupted, and asks again.
use crate::one_byte::{OneByteReader, OneByteWriter};
use hotel_core::Walks;
use hotel_http::{ServeFault, serve_one};
use hotel_program::{ScriptFault, run_script};
use hotel_scenarios::desks::Desk;
use hotel_scenarios::scenarios::{OPENED, Step};
use hotel_streams::{
    FailingReader, FailingWriter, FullWriter, InterruptedReader, InterruptedWriter,
};
use std::alloc::Global;
use std::io::{Read, Write};
use std::process::Abort;
use std::test::Fail;

/// By which call a desk is asked.
#[derive(Clone, Copy)]
enum Call {
    Script,
    Request,
}

/// How a script or a request ends.
#[derive(Clone, Copy, PartialEq, Eq)]
enum End {
    /// All of it is carried out, and the answer is written.
    Whole,
    /// A read fails.
    Unread,
    /// A write fails, and so many commands and lists stand.
    Unwritten(u32),
    /// By another fault.
    Other,
}

/// What is asked of a desk behind parts of scenarios, and its answer.
#[derive(Clone, Copy)]
struct Asked {
    call: Call,
    parts: &'static [&'static [Step]],
    input: &'static [u8],
    /// How many reads it takes, of one byte each. That of a script's end is one of them.
    reads: u32,
    /// Behind how many of them a prefix of the answer is written, and of how many bytes.
    early: (u32, usize),
    /// Behind how many bytes of the answer each command and list was carried out.
    starts: &'static [usize],
    answer: &'static [u8],
}

static SCRIPT: Asked = Asked {
    call: Call::Script,
    parts: &[],
    input: b"begin 2031-05-01\nadd-kind DBL\nadd-room 101 DBL\nchain 101\n",
    reads: 58,
    early: (58, 0),
    starts: &[0, 6, 17, 40],
    answer: b"begun\nkind added\nroom code 0000000000a0\nplace,code,state\n0,0000000000a0,held\n",
};

static REQUEST: Asked = Asked {
    call: Call::Request,
    parts: &[OPENED],
    input: b"\
POST /reservations/1/check-in HTTP/1.1\r
Host: desk\r
Content-Length: 8\r
Expect: 100-continue\r
\r
room=101",
    reads: 103,
    early: (95, 25),
    starts: &[25],
    answer: b"\
HTTP/1.1 100 Continue\r
\r
HTTP/1.1 200 OK\r
Content-Type: text/plain; charset=utf-8\r
Content-Length: 49\r
Connection: close\r
\r
card 1 party 1 old 0000000000a0 new 0000000000a1
",
};

/// How the script ends.
fn end_of_script<I: Read, O: Write>(
    desk: &mut Desk<impl Walks>,
    reader: &mut I,
    writer: &mut O,
) -> End {
    let end = run_script(
        desk.alloc,
        reader,
        writer,
        &mut desk.books,
        &mut desk.source,
    );
    match end {
        Ok(_) => End::Whole,
        Err(ScriptFault::Read) => End::Unread,
        Err(ScriptFault::Write { done }) => End::Unwritten(done),
        Err(_) => End::Other,
    }
}

/// How the request ends.
fn end_of_request<I: Read, O: Write>(
    desk: &mut Desk<impl Walks>,
    reader: &mut I,
    writer: &mut O,
) -> End {
    let end = serve_one(
        desk.alloc,
        reader,
        writer,
        &mut desk.books,
        &mut desk.source,
    );
    match end {
        Ok(_) => End::Whole,
        Err(ServeFault::Read) => End::Unread,
        Err(ServeFault::Write { acted }) => End::Unwritten(if acted { 1 } else { 0 }),
        Err(_) => End::Other,
    }
}

impl Asked {
    /// The desk that is asked.
    fn desk(&self, alloc: Global) -> Result<Desk, Fail> {
        Desk::behind(alloc, &[0xa0, 0xa1], self.parts)
    }

    /// How it ends over these streams.
    fn end_over<I: Read, O: Write>(
        &self,
        desk: &mut Desk<impl Walks>,
        reader: &mut I,
        writer: &mut O,
    ) -> End {
        match self.call {
            Call::Script => end_of_script(desk, reader, writer),
            Call::Request => end_of_request(desk, reader, writer),
        }
    }

    /// How it ends where a write goes wrong behind so many bytes: what was begun before them stands.
    fn end_behind(&self, bytes: usize) -> End {
        let mut done = 0u32;
        for start in self.starts {
            if *start <= bytes {
                done = done.saturating_add(1);
            }
        }
        End::Unwritten(done)
    }

    /// So many bytes of the answer.
    fn prefix(&self, bytes: usize) -> Result<&'static [u8], Fail> {
        Ok(self.answer.get(..bytes).ok_or("a prefix")?)
    }
}

/// A write goes wrong behind so many bytes, by this writer.
fn stops_behind<O: Write>(
    rt: &(impl Abort + AllocGlobal),
    asked: &Asked,
    bytes: usize,
    writer: &mut O,
) -> Result<(), Fail> {
    let mut desk = asked.desk(rt.alloc())?;
    let mut reader = asked.input;
    assert!(rt; asked.end_over(&mut desk, &mut reader, writer) == asked.end_behind(bytes));
    Ok(())
}

/// The write behind so many of one byte each fails.
fn fails_behind(
    rt: &(impl Abort + AllocGlobal),
    asked: &Asked,
    bytes: usize,
    good: u32,
) -> Result<(), Fail> {
    let writer = OneByteWriter::new(rt.alloc());
    let mut writer = FailingWriter { writer, good };
    stops_behind(rt, asked, bytes, &mut writer)?;
    assert!(rt; writer.writer.written() == asked.prefix(bytes)?);
    Ok(())
}

/// The same of one that takes no byte.
fn is_full_behind(
    rt: &(impl Abort + AllocGlobal),
    asked: &Asked,
    bytes: usize,
    good: u32,
) -> Result<(), Fail> {
    let writer = OneByteWriter::new(rt.alloc());
    let mut writer = FullWriter { writer, good };
    stops_behind(rt, asked, bytes, &mut writer)?;
    assert!(rt; writer.writer.written() == asked.prefix(bytes)?);
    Ok(())
}

/// The write of each byte fails in turn, or takes no byte.
fn each_write_of(rt: &(impl Abort + AllocGlobal), asked: &Asked) -> Result<(), Fail> {
    let mut good = 0u32;
    for bytes in 0..asked.answer.len() {
        fails_behind(rt, asked, bytes, good)?;
        is_full_behind(rt, asked, bytes, good)?;
        good = good.saturating_add(1);
    }
    Ok(())
}

#[test]
fn each_write_fails(rt: HostRuntime) -> Result<(), Fail> {
    each_write_of(&rt, &SCRIPT)?;
    each_write_of(&rt, &REQUEST)
}

/// Nothing is done yet: asked of the desk, all of it is carried out.
fn is_still_answered(
    rt: &(impl Abort + AllocGlobal),
    asked: &Asked,
    desk: &mut Desk<impl Walks>,
) -> Result<(), Fail> {
    let mut reader = OneByteReader::new(asked.input);
    let mut writer = Vec::new(rt.alloc());
    assert!(rt; asked.end_over(desk, &mut reader, &mut writer) == End::Whole);
    assert!(rt; writer.as_slice() == asked.answer);
    Ok(())
}

/// The read behind so many of one byte each fails: no command is begun.
fn is_unread_behind(rt: &(impl Abort + AllocGlobal), asked: &Asked, good: u32) -> Result<(), Fail> {
    let mut desk = asked.desk(rt.alloc())?;
    let reader = OneByteReader::new(asked.input);
    let mut reader = FailingReader { reader, good };
    let mut writer = Vec::new(rt.alloc());
    assert!(rt; asked.end_over(&mut desk, &mut reader, &mut writer) == End::Unread);
    let (reads, bytes) = asked.early;
    let bytes = if good < reads { 0 } else { bytes };
    assert!(rt; writer.as_slice() == asked.prefix(bytes)?);
    is_still_answered(rt, asked, &mut desk)
}

/// The read of each byte fails in turn.
fn each_read_of(rt: &(impl Abort + AllocGlobal), asked: &Asked) -> Result<(), Fail> {
    for good in 0..asked.reads {
        is_unread_behind(rt, asked, good)?;
    }
    Ok(())
}

#[test]
fn each_read_fails(rt: HostRuntime) -> Result<(), Fail> {
    each_read_of(&rt, &SCRIPT)?;
    each_read_of(&rt, &REQUEST)
}

/// The first reads and the first writes are interrupted, so many of each: it ends so, and this is written.
fn ends_interrupted(
    rt: &(impl Abort + AllocGlobal),
    asked: &Asked,
    calls: (u32, u32),
    end: End,
    written: &[u8],
) -> Result<(), Fail> {
    let mut desk = asked.desk(rt.alloc())?;
    let (reads, writes) = calls;
    let mut reader = InterruptedReader {
        reader: asked.input,
        times: reads,
    };
    let mut writer = InterruptedWriter {
        writer: Vec::new(rt.alloc()),
        times: writes,
    };
    assert!(rt; asked.end_over(&mut desk, &mut reader, &mut writer) == end);
    assert!(rt; writer.writer.as_slice() == written);
    Ok(())
}

/// The reads and writes are counted together: after 999 interrupted ones all is answered, and the 1,000th is a fault.
fn is_interrupted(rt: &(impl Abort + AllocGlobal), asked: &Asked) -> Result<(), Fail> {
    for calls in [(999, 0), (0, 999), (600, 399)] {
        ends_interrupted(rt, asked, calls, End::Whole, asked.answer)?;
    }
    ends_interrupted(rt, asked, (1_000, 0), End::Unread, b"")?;
    for calls in [(0, 1_000), (600, 400)] {
        ends_interrupted(rt, asked, calls, asked.end_behind(0), b"")?;
    }
    Ok(())
}

#[test]
fn interrupted_calls(rt: HostRuntime) -> Result<(), Fail> {
    is_interrupted(&rt, &SCRIPT)?;
    is_interrupted(&rt, &REQUEST)
}
