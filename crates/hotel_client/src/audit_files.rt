//! Audit files that are imported, and what their lines are answered.
use crate::commands::checked_in;
use hotel_audit::{LineAnswer, import};
use hotel_core::{Books, ListBooks, Refusal};
use hotel_lock::Cause;
use std::process::Abort;
use std::test::Fail;

/// An entry and an exit of the first card.
pub(crate) const TWO_NOTES: &[u8] = b"room,count,kind,card,old,new,at\n\
    101,1,in,1,0000000000a0,0000000000a1,2031-05-01T15:00:00\n\
    101,2,out,1,0000000000a0,0000000000a1,2031-05-01 16:00:00\n";

/// Scenario `audit-twice` and, from there, the first file of `audit-gap-conflict`: files of two lines, and the answers.
const FILES: [(&[u8], [LineAnswer; 2]); 3] = [
    (TWO_NOTES, [LineAnswer::Taken, LineAnswer::Taken]),
    (TWO_NOTES, [LineAnswer::Seen, LineAnswer::Seen]),
    (
        b"room,count,kind,card,old,new,at\n\
            101,3,in,1,0000000000a0,0000000000a1,2031-05-01T15:00:00\n\
            101,5,out,1,0000000000a0,0000000000a1,2031-05-01T15:00:00\n",
        [LineAnswer::Taken, LineAnswer::Refused(Refusal::Gap(4))],
    ),
];

/// Its second file.
const CONFLICT: &[u8] = b"room,count,kind,card,old,new,at\n\
    101,3,in,1,0000000000a0,0000000000a1,2031-05-01T15:00:01\n";

/// Scenario `audit-bytes`.
const BYTES: &[u8] = b"\xEF\xBB\xBFroom,count,kind,card,old,new,at\r\n\
    \"101\",1,in,1,\"A0\",0000000000A1,2031-05-01T15:00:00\r\n101,2,out";

/// The file's lines are answered so.
fn is_answered<B: Books>(
    rt: &(impl Abort + AllocGlobal),
    books: &mut B,
    file: &[u8],
    wanted: &[LineAnswer],
) -> Result<(), Fail> {
    let answers = import(rt.alloc(), books, file)?;
    assert!(rt; answers.as_slice() == wanted);
    Ok(())
}

/// The files come one after the other.
pub(crate) fn files_are_imported<B: Books + Drop>(
    rt: &(impl Abort + AllocGlobal),
    books: B,
) -> Result<(), Fail> {
    let mut books = checked_in(rt.alloc(), books)?.books;
    for (file, wanted) in &FILES {
        is_answered(rt, &mut books, file, wanted)?;
    }
    let conflict = LineAnswer::Refused(Refusal::Conflict);
    is_answered(rt, &mut books, CONFLICT, &[conflict])
}

#[test]
fn files_into_memory(rt: HostRuntime) -> Result<(), Fail> {
    files_are_imported(&rt, ListBooks::empty(rt.alloc()))
}

/// A mark of the byte order, quotes, capital digits and a line that isn't whole; then a file without lines.
#[test]
fn bytes_of_files(rt: HostRuntime) -> Result<(), Fail> {
    let mut books = checked_in(rt.alloc(), ListBooks::empty(rt.alloc()))?.books;
    let unread = LineAnswer::Unread(Cause::FieldCount);
    is_answered(&rt, &mut books, BYTES, &[LineAnswer::Taken, unread])?;
    is_answered(&rt, &mut books, b"room,count,kind,card,old,new,at\n", &[])
}
