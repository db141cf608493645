//! The worked scenarios: what is asked of a desk with empty books, step by step, and what each step answers. The
//! computed scenes of the model have the same names, codes and lines, in the same order, and `.ci/scenes` compares
//! them; a scenario may have lists and lines that aren't read which its scene lacks.
use crate::chains::TWO_CODES;

/// What is asked of a desk, and what it answers.
#[derive(Clone, Copy)]
pub enum Step {
    /// A line of a script, and its answer.
    Line(&'static [u8], &'static [u8]),
    /// An audit file, the answers to its lines, and the exit status.
    Audit(&'static [u8], &'static [u8], u8),
    /// Bytes that are no audit file, and the fault that is reported.
    NoAudit(&'static [u8], &'static [u8]),
    /// A list that is asked for alone, as a script's line says it, its answer, and the exit status.
    List(&'static [u8], &'static [u8], u8),
}

/// Steps on one desk whose books are empty at first, in parts of which other scenarios share some. The words of its
/// source give these codes, and then the last one for ever.
#[derive(Clone, Copy)]
pub struct Scenario {
    pub name: &'static str,
    pub codes: &'static [u64],
    pub last: u64,
    pub parts: &'static [&'static [Step]],
}

/// One room of the kind DBL, and a booking of Ann Lee.
pub const OPENED: &[Step] = &[
    Step::Line(b"begin 2031-05-01", b"begun\n"),
    Step::Line(b"add-kind DBL", b"kind added\n"),
    Step::Line(b"add-room 101 DBL", b"room code 0000000000a0\n"),
    Step::Line(b"reserve DBL 2031-05-01 2 Ann Lee", b"party 1\n"),
];

/// Her party is checked in.
pub const CHECKED_IN: &[Step] = &[Step::Line(
    b"check-in 1 101",
    b"card 1 party 1 old 0000000000a0 new 0000000000a1\n",
)];

/// It is checked out, and Bo's party is checked in.
pub const NEXT_CHECKED_IN: &[Step] = &[
    Step::Line(b"check-out 1", b"checked out\n"),
    Step::Line(b"reserve DBL 2031-05-01 2 Bo", b"party 2\n"),
    Step::Line(
        b"check-in 2 101",
        b"card 2 party 2 old 0000000000a1 new 0000000000a2\n",
    ),
];

/// The notes of an entry and of an exit.
pub const TWO_NOTES: &[u8] = b"\
room,count,kind,card,old,new,at
101,1,in,1,0000000000a0,0000000000a1,2031-05-01T15:00:00
101,2,out,1,0000000000a0,0000000000a1,2031-05-01 16:00:00
";

/// They are taken.
pub const TAKEN_TWICE: &[Step] = &[Step::Audit(TWO_NOTES, b"1 taken\n2 taken\n", 0)];

/// Two entries of the first card.
pub const TWO_ENTRIES: &[Step] = &[
    Step::Line(b"entered 101 1 1 a0 a1 2031-05-01T15:00:00", b"taken\n"),
    Step::Line(b"entered 101 2 1 a0 a1 2031-05-01T15:00:00", b"taken\n"),
];

/// A late note of the first card's entry moves the lock to its code.
pub const LATE_NOTE: &[Step] = &[
    Step::Audit(
        b"room,count,kind,card,old,new,at\n101,1,in,1,0000000000a0,0000000000a1,2031-05-01T15:00:00\n",
        b"1 taken\n",
        0,
    ),
    Step::Line(
        b"chain 101",
        b"place,code,state\n0,0000000000a0,passed\n1,0000000000a1,held\n2,0000000000a2,awaited\n",
    ),
    Step::Line(
        b"in-house",
        b"room,party,guest,kind,depart,secured\n101,2,Bo,DBL,2031-05-03,no\n",
    ),
];

/// The two notes as the desk lists them.
pub const LISTED_NOTES: &[u8] = b"\
room,fit,count,kind,card,old,new,at
101,1,1,in,1,0000000000a0,0000000000a1,2031-05-01T15:00:00
101,1,2,out,1,0000000000a0,0000000000a1,2031-05-01T16:00:00
";

/// The second entry moved nothing.
pub const AFTER_TWO_ENTRIES: &[Step] = &[Step::Line(b"chain 101", TWO_CODES)];

/// The first card leaves.
pub const LEFT: &[Step] = &[Step::Line(b"left 101 3 1 a0 a1 2031-05-01T15:00:00", b"taken\n")];

/// After the next guest's entry the earlier card opens nothing.
pub const NEXT_GUEST: &[Step] = &[
    Step::Line(b"entered 101 4 2 a1 a2 2031-05-01T15:00:00", b"taken\n"),
    Step::Line(
        b"entered 101 5 1 a0 a1 2031-05-01T15:00:00",
        b"refused 25 LockShut\n",
    ),
];

/// A guest who never entered leaves the lock behind; staff recode it.
pub const LEFT_BEHIND_RECODED: &[Step] = &[
    Step::Line(
        b"entered 101 1 2 a1 a2 2031-05-01T15:00:00",
        b"refused 25 LockShut\n",
    ),
    Step::Line(
        b"left-behind",
        b"room,held,current,awaited\n101,0000000000a0,0000000000a2,2\n",
    ),
    Step::Line(b"recoded 101 1 a0 a2 2031-05-01T15:00:00", b"taken\n"),
    Step::Line(b"entered 101 2 2 a1 a2 2031-05-01T15:00:00", b"taken\n"),
    Step::Line(
        b"chain 101",
        b"place,code,state\n0,0000000000a0,passed\n1,0000000000a1,passed\n2,0000000000a2,held\n",
    ),
    Step::Line(b"left-behind", b"room,held,current,awaited\n"),
];

/// A party moves away and back: its first card doesn't secure the room.
pub const AWAY_AND_BACK: &[Step] = &[
    Step::Line(b"begin 2031-05-01", b"begun\n"),
    Step::Line(b"add-kind DBL", b"kind added\n"),
    Step::Line(b"add-room 101 DBL", b"room code 0000000000a0\n"),
    Step::Line(b"add-room 102 DBL", b"room code 0000000000b0\n"),
    Step::Line(b"reserve DBL 2031-05-01 2 Ann Lee", b"party 1\n"),
    Step::Line(b"reserve DBL 2031-05-01 2 Bo", b"party 2\n"),
    Step::Line(
        b"check-in 1 101",
        b"card 1 party 1 old 0000000000a0 new 0000000000a1\n",
    ),
    Step::Line(b"entered 101 1 1 a0 a1 2031-05-01T15:00:00", b"taken\n"),
    Step::Line(b"left 101 2 1 a0 a1 2031-05-01T15:00:00", b"taken\n"),
    Step::Line(
        b"transfer 1 102",
        b"card 2 party 1 old 0000000000b0 new 0000000000b1\n",
    ),
    Step::Line(
        b"check-in 2 101",
        b"card 3 party 2 old 0000000000a1 new 0000000000a2\n",
    ),
    Step::Line(b"check-out 2", b"checked out\n"),
    Step::Line(
        b"transfer 1 101",
        b"card 4 party 1 old 0000000000a2 new 0000000000a3\n",
    ),
    Step::Line(
        b"entered 101 3 4 a2 a3 2031-05-01T15:00:00",
        b"refused 25 LockShut\n",
    ),
    Step::Line(b"entered 101 3 1 a0 a1 2031-05-01T15:00:00", b"taken\n"),
    Step::Line(
        b"in-house",
        b"room,party,guest,kind,depart,secured\n101,1,Ann Lee,DBL,2031-05-03,no\n",
    ),
    Step::Line(b"left 101 4 1 a0 a1 2031-05-01T15:00:00", b"taken\n"),
    Step::Line(b"entered 101 5 3 a1 a2 2031-05-01T15:00:00", b"taken\n"),
    Step::Line(b"left 101 6 3 a1 a2 2031-05-01T15:00:00", b"taken\n"),
    Step::Line(b"entered 101 7 4 a2 a3 2031-05-01T15:00:00", b"taken\n"),
    Step::Line(
        b"in-house",
        b"room,party,guest,kind,depart,secured\n101,1,Ann Lee,DBL,2031-05-03,yes\n",
    ),
];

/// A word that gives another room's code is passed over.
pub const CODE_DRAWN_TWICE: &[Step] = &[
    Step::Line(b"begin 2031-05-01", b"begun\n"),
    Step::Line(b"add-kind DBL", b"kind added\n"),
    Step::Line(b"add-room 101 DBL", b"room code 0000000000a0\n"),
    Step::Line(b"add-room 102 DBL", b"room code 0000000000b0\n"),
];

/// 64 words give issued codes.
pub const NO_FRESH_CODE: &[Step] = &[
    Step::Line(b"begin 2031-05-01", b"begun\n"),
    Step::Line(b"add-kind DBL", b"kind added\n"),
    Step::Line(b"add-room 101 DBL", b"room code 0000000000a0\n"),
    Step::Line(b"add-room 102 DBL", b"refused 19 NoFreshCode\n"),
    Step::Line(b"chain 102", b"refused 6 NoRoom\n"),
];

/// The refusal moves the source by 64 words, twice.
pub const NO_FRESH_CODE_TWICE: &[Step] = &[
    Step::Line(b"begin 2031-05-01", b"begun\n"),
    Step::Line(b"add-kind DBL", b"kind added\n"),
    Step::Line(b"add-room 101 DBL", b"room code 0000000000a0\n"),
    Step::Line(b"add-room 102 DBL", b"refused 19 NoFreshCode\n"),
    Step::Line(b"add-room 102 DBL", b"refused 19 NoFreshCode\n"),
    Step::Line(b"add-room 102 DBL", b"room code 0000000000b0\n"),
];

/// One card's leaving doesn't empty a room where another stays.
pub const SPARE_KEEPS_ROOM_OPEN: &[Step] = &[
    Step::Line(
        b"spare 1",
        b"card 2 party 1 old 0000000000a0 new 0000000000a1\n",
    ),
    Step::Line(b"entered 101 1 1 a0 a1 2031-05-01T15:00:00", b"taken\n"),
    Step::Line(b"entered 101 2 2 a0 a1 2031-05-01T15:00:00", b"taken\n"),
    Step::Line(b"left 101 3 1 a0 a1 2031-05-01T15:00:00", b"taken\n"),
    Step::Line(b"check-out 1", b"checked out\n"),
    Step::Line(b"reserve DBL 2031-05-01 2 Bo", b"party 2\n"),
    Step::Line(
        b"check-in 2 101",
        b"card 3 party 2 old 0000000000a1 new 0000000000a2\n",
    ),
    Step::Line(b"entered 101 4 3 a1 a2 2031-05-01T15:00:00", b"taken\n"),
    Step::Line(
        b"in-house",
        b"room,party,guest,kind,depart,secured\n101,2,Bo,DBL,2031-05-03,no\n",
    ),
    Step::Line(b"left 101 5 2 a0 a1 2031-05-01T15:00:00", b"taken\n"),
    Step::Line(b"left 101 6 3 a1 a2 2031-05-01T15:00:00", b"taken\n"),
    Step::Line(b"entered 101 7 3 a1 a2 2031-05-01T15:00:00", b"taken\n"),
    Step::Line(
        b"in-house",
        b"room,party,guest,kind,depart,secured\n101,2,Bo,DBL,2031-05-03,yes\n",
    ),
];

/// A party whose card was lost gets one of a new code; once it has entered, the lost one opens no more.
pub const LOST_CARD: &[Step] = &[
    Step::Line(b"entered 101 1 1 a0 a1 2031-05-01T15:00:00", b"taken\n"),
    Step::Line(b"left 101 2 1 a0 a1 2031-05-01T15:00:00", b"taken\n"),
    Step::Line(
        b"in-house",
        b"room,party,guest,kind,depart,secured\n101,1,Ann Lee,DBL,2031-05-03,yes\n",
    ),
    Step::Line(
        b"reissue 1",
        b"card 2 party 1 old 0000000000a1 new 0000000000a2\n",
    ),
    Step::Line(
        b"in-house",
        b"room,party,guest,kind,depart,secured\n101,1,Ann Lee,DBL,2031-05-03,no\n",
    ),
    Step::Line(b"entered 101 3 1 a0 a1 2031-05-01T15:00:00", b"taken\n"),
    Step::Line(b"left 101 4 1 a0 a1 2031-05-01T15:00:00", b"taken\n"),
    Step::Line(b"entered 101 5 2 a1 a2 2031-05-01T15:00:00", b"taken\n"),
    Step::Line(
        b"in-house",
        b"room,party,guest,kind,depart,secured\n101,1,Ann Lee,DBL,2031-05-03,yes\n",
    ),
    Step::Line(
        b"entered 101 6 1 a0 a1 2031-05-01T15:00:00",
        b"refused 25 LockShut\n",
    ),
    Step::Line(
        b"spare 1",
        b"card 3 party 1 old 0000000000a1 new 0000000000a2\n",
    ),
    Step::Line(b"check-out 1", b"checked out\n"),
    Step::Line(b"reissue 1", b"refused 9 NotInHouse\n"),
];

/// The same notes again are seen.
pub const AUDIT_TWICE: &[Step] = &[Step::Audit(TWO_NOTES, b"1 seen\n2 seen\n", 0)];

/// A later count leaves a gap; another content of a taken count is a conflict.
pub const AUDIT_GAP_CONFLICT: &[Step] = &[
    Step::Audit(
        b"\
room,count,kind,card,old,new,at
101,3,in,1,0000000000a0,0000000000a1,2031-05-01T15:00:00
101,5,out,1,0000000000a0,0000000000a1,2031-05-01T15:00:00
",
        b"1 taken\n2 refused 22 Gap 4\n",
        3,
    ),
    Step::Audit(
        b"room,count,kind,card,old,new,at\n101,3,in,1,0000000000a0,0000000000a1,2031-05-01T15:00:01\n",
        b"1 refused 21 Conflict\n",
        3,
    ),
];

/// Recodings to a passed code, another room's, the held one; from another. Then one that is taken, which the lists
/// show.
pub const RECODING_REFUSED: &[Step] = &[
    Step::Line(b"add-room 102 DBL", b"room code 0000000000b0\n"),
    Step::Line(
        b"recoded 101 2 a1 a0 2031-05-01T15:00:00",
        b"refused 28 NotAwaited\n",
    ),
    Step::Line(
        b"recoded 101 2 a1 b0 2031-05-01T15:00:00",
        b"refused 28 NotAwaited\n",
    ),
    Step::Line(
        b"recoded 101 2 a1 a1 2031-05-01T15:00:00",
        b"refused 28 NotAwaited\n",
    ),
    Step::Line(
        b"recoded 101 2 a0 a2 2031-05-01T15:00:00",
        b"refused 27 HeldDiffers\n",
    ),
    Step::Line(b"recoded 101 2 a1 a2 2031-05-01T15:00:00", b"taken\n"),
    Step::Line(
        b"chain 101",
        b"place,code,state\n0,0000000000a0,passed\n1,0000000000a1,passed\n2,0000000000a2,held\n",
    ),
    Step::Line(
        b"audit-of 101",
        b"\
room,fit,count,kind,card,old,new,at
101,1,1,in,1,0000000000a0,0000000000a1,2031-05-01T15:00:00
101,1,2,recode,,0000000000a1,0000000000a2,2031-05-01T15:00:00
",
    ),
];

/// A stay that ends on a night doesn't take it; the first full night is named.
pub const KIND_FULL: &[Step] = &[
    Step::Line(b"begin 2031-05-01", b"begun\n"),
    Step::Line(b"add-kind DBL", b"kind added\n"),
    Step::Line(b"add-room 101 DBL", b"room code 0000000000a0\n"),
    Step::Line(b"reserve DBL 2031-05-01 2 A", b"party 1\n"),
    Step::Line(b"reserve DBL 2031-05-03 2 B", b"party 2\n"),
    Step::Line(
        b"reserve DBL 2031-05-04 2 C",
        b"refused 17 KindFull 2031-05-04\n",
    ),
    Step::Line(b"reserve DBL 2031-04-30 2 D", b"refused 15 PastArrival\n"),
];

/// Stays up to the last day.
pub const END_OF_CALENDAR: &[Step] = &[
    Step::Line(b"begin 2099-10-02", b"begun\n"),
    Step::Line(b"add-kind DBL", b"kind added\n"),
    Step::Line(b"add-room 101 DBL", b"room code 0000000000a0\n"),
    Step::Line(b"add-room 102 DBL", b"room code 0000000000b0\n"),
    Step::Line(b"reserve DBL 2099-10-02 90 A", b"party 1\n"),
    Step::Line(b"reserve DBL 2099-10-03 90 B", b"refused 16 PastEnd\n"),
    Step::Line(b"reserve DBL 2099-10-02 91 B", b"unread\n"),
];

/// No day after the last one.
pub const END_OF_CALENDAR_LAST_DAY: &[Step] = &[
    Step::Line(b"begin 2099-12-31", b"begun\n"),
    Step::Line(b"next-day", b"refused 20 LastDay\n"),
];

/// A byte order mark, quotes, lines that end in CR and LF, and a last line that is cut.
pub const CUT_LAST_LINE: &[u8] = b"\xef\xbb\xbfroom,count,kind,card,old,new,at\r\n\
        \"101\",1,in,1,\"A0\",0000000000A1,2031-05-01T15:00:00\r\n101,2,out";

/// Such a file; no lines, no header, a wrong one.
pub const AUDIT_BYTES: &[Step] = &[
    Step::Audit(CUT_LAST_LINE, b"1 taken\n2 unread FieldCount\n", 3),
    Step::Audit(b"room,count,kind,card,old,new,at\n", b"", 0),
    Step::NoAudit(b"", b"no header\n"),
    Step::NoAudit(b"room,count,kind,card,old,new,on\n", b"wrong header\n"),
];

/// Causes for which a line is unread, under the header without fits.
pub const AUDIT_CAUSES: &[Step] = &[Step::Audit(
    b"\
room,count,kind,card,old,new,at
0,3,in,1,0000000000a0,0000000000a1,2031-05-01T15:00:00
101,10000000,in,1,0000000000a0,0000000000a1,2031-05-01T15:00:00
101,3,IN,1,0000000000a0,0000000000a1,2031-05-01T15:00:00
101,3,recode,1,0000000000a0,0000000000a1,2031-05-01T15:00:00
101,3,in,1,0000000000a0,xyz,2031-05-01T15:00:00
101,3,in,1,0000000000a0,0000000000a1,2031-02-29T15:00:00
101,3,in,1,0000000000a0,0000000000a1,2031-05-01T15:00:00
",
    b"\
1 unread BadRoom
2 unread BadCount
3 unread BadKind
4 unread BadCard
5 unread BadNew
6 unread BadMoment
7 taken
",
    3,
)];

/// Under the header with fits: a note of the room's first lock, of locks that it hasn't, of numbers that no lock has;
/// too few fields and too many; a wrong fit behind a wrong room and before a wrong count; the first note again.
pub const LINES_WITH_FITS: &[Step] = &[Step::Audit(
    b"\
room,fit,count,kind,card,old,new,at
101,1,1,in,1,0000000000a0,0000000000a1,2031-05-01T15:00:00
101,2,1,in,1,0000000000a0,0000000000a1,2031-05-01T15:00:00
101,99,1,in,1,0000000000a0,0000000000a1,2031-05-01T15:00:00
101,0,1,in,1,0000000000a0,0000000000a1,2031-05-01T15:00:00
101,100,1,in,1,0000000000a0,0000000000a1,2031-05-01T15:00:00
101,,1,in,1,0000000000a0,0000000000a1,2031-05-01T15:00:00
101,1,in,1,0000000000a0,0000000000a1,2031-05-01T15:00:00
101,1,1,1,in,1,0000000000a0,0000000000a1,2031-05-01T15:00:00
0,0,1,in,1,0000000000a0,0000000000a1,2031-05-01T15:00:00
101,0,0,in,1,0000000000a0,0000000000a1,2031-05-01T15:00:00
101,01,1,in,1,0000000000a0,0000000000a1,2031-05-01T15:00:00
",
    b"\
1 taken
2 refused 32 NoFit
3 refused 32 NoFit
4 unread BadFit
5 unread BadFit
6 unread BadFit
7 unread FieldCount
8 unread FieldCount
9 unread BadRoom
10 unread BadFit
11 seen
",
    3,
)];

/// Of several causes in a line the one of the earliest field is reported.
pub const CAUSES_WITH_FITS: &[Step] = &[Step::Audit(
    b"\
room,fit,count,kind,card,old,new,at
101,1,0,IN,1,0000000000a0,0000000000a1,2031-05-01T15:00:00
101,1,2,IN,0,0000000000a0,0000000000a1,2031-05-01T15:00:00
101,1,2,in,0,xyz,0000000000a1,2031-05-01T15:00:00
101,1,2,recode,1,xyz,0000000000a1,2031-05-01T15:00:00
101,1,2,in,1,xyz,xyz,2031-05-01T15:00:00
101,1,2,in,1,0000000000a0,xyz,2031-02-29T15:00:00
101,1,2,in,1,0000000000a0,0000000000a1,2031-02-29T15:00:00
",
    b"\
1 unread BadCount
2 unread BadKind
3 unread BadCard
4 unread BadCard
5 unread BadOld
6 unread BadNew
7 unread BadMoment
",
    3,
)];

/// Under the header without fits: the note of the first lock that was taken; the same with a fit; a later one.
pub const LINES_WITHOUT_FITS: &[Step] = &[Step::Audit(
    b"\
room,count,kind,card,old,new,at
101,1,in,1,0000000000a0,0000000000a1,2031-05-01T15:00:00
101,1,1,in,1,0000000000a0,0000000000a1,2031-05-01T15:00:00
101,2,out,1,0000000000a0,0000000000a1,2031-05-01T16:00:00
",
    b"1 seen\n2 unread FieldCount\n3 taken\n",
    3,
)];

/// Both notes under the header with fits; that header alone.
pub const SEEN_WITH_FITS: &[Step] = &[
    Step::Audit(LISTED_NOTES, b"1 seen\n2 seen\n", 0),
    Step::Audit(b"room,fit,count,kind,card,old,new,at\n", b"", 0),
];

/// Columns in another order, without the room, with the fit twice.
pub const WRONG_HEADERS: &[Step] = &[
    Step::NoAudit(b"room,count,fit,kind,card,old,new,at\n", b"wrong header\n"),
    Step::NoAudit(b"fit,count,kind,card,old,new,at\n", b"wrong header\n"),
    Step::NoAudit(b"room,fit,fit,kind,card,old,new,at\n", b"wrong header\n"),
];

/// The notes of both files, listed with their fits.
pub const LISTED_WITH_FITS: &[Step] = &[Step::Line(b"audit-of 101", LISTED_NOTES)];

/// Days, kinds, states: each refusal of check-in and its neighbours.
pub const DESK_DAY: &[Step] = &[
    Step::Line(b"begin 2031-05-01", b"begun\n"),
    Step::Line(b"add-kind DBL", b"kind added\n"),
    Step::Line(b"add-kind SGL", b"kind added\n"),
    Step::Line(b"add-room 101 DBL", b"room code 0000000000a0\n"),
    Step::Line(b"add-room 102 DBL", b"room code 0000000000b0\n"),
    Step::Line(b"add-room 201 SGL", b"room code 0000000000c0\n"),
    Step::Line(b"reserve DBL 2031-05-01 2 Ann", b"party 1\n"),
    Step::Line(b"reserve DBL 2031-05-02 1 Bo", b"party 2\n"),
    Step::Line(b"check-in 2 101", b"refused 10 TooEarly\n"),
    Step::Line(b"check-in 1 201", b"refused 12 WrongKind\n"),
    Step::Line(
        b"check-in 1 101",
        b"card 1 party 1 old 0000000000a0 new 0000000000a1\n",
    ),
    Step::Line(b"check-in 1 102", b"refused 8 NotBooked\n"),
    Step::Line(b"transfer 1 101", b"refused 13 SameRoom\n"),
    Step::Line(b"spare 2", b"refused 9 NotInHouse\n"),
    Step::Line(b"next-day", b"day 2031-05-02\n"),
    Step::Line(b"check-in 2 101", b"refused 14 RoomTaken\n"),
    Step::Line(
        b"arrivals 2031-05-02",
        b"party,guest,kind,arrive,depart\n2,Bo,DBL,2031-05-02,2031-05-03\n",
    ),
    Step::Line(b"next-day", b"day 2031-05-03\n"),
    Step::Line(b"check-in 2 102", b"refused 11 StayOver\n"),
    Step::Line(b"cancel 2", b"cancelled\n"),
    Step::Line(b"cancel 2", b"refused 8 NotBooked\n"),
    Step::Line(b"check-out 9", b"refused 7 NoParty\n"),
];

/// The list of the notes is an audit file.
pub const AUDIT_ROUND_TRIP: &[Step] = &[
    Step::Line(b"audit-of 101", LISTED_NOTES),
    Step::Audit(LISTED_NOTES, b"1 seen\n2 seen\n", 0),
];

/// Conflict, no such card, another link, leaving twice.
pub const NOTE_REFUSALS: &[Step] = &[
    Step::Line(
        b"entered 101 1 9 a0 a1 2031-05-01T15:00:00",
        b"refused 21 Conflict\n",
    ),
    Step::Line(
        b"entered 101 3 9 a0 a1 2031-05-01T15:00:00",
        b"refused 23 NoCard\n",
    ),
    Step::Line(
        b"entered 101 3 1 a0 a2 2031-05-01T15:00:00",
        b"refused 24 CardDiffers\n",
    ),
    Step::Line(b"left 101 3 1 a0 a1 2031-05-01T15:00:00", b"taken\n"),
    Step::Line(
        b"left 101 4 1 a0 a1 2031-05-01T15:00:00",
        b"refused 26 NotInside\n",
    ),
];

/// A guest with a comma is quoted.
pub const QUOTED_GUEST: &[Step] = &[
    Step::Line(b"begin 2031-05-01", b"begun\n"),
    Step::Line(b"add-kind DBL", b"kind added\n"),
    Step::Line(b"add-room 101 DBL", b"room code 0000000000a0\n"),
    Step::Line(b"reserve DBL 2031-05-01 2 Lee, Ann", b"party 1\n"),
    Step::Line(
        b"arrivals 2031-05-01",
        b"party,guest,kind,arrive,depart\n1,\"Lee, Ann\",DBL,2031-05-01,2031-05-03\n",
    ),
];

/// The notes of a room, in the order in which they were taken.
pub const NOTES_OF_A_ROOM: &[Step] = &[
    Step::Line(b"recoded 101 1 a0 a1 2031-05-01T14:59:59", b"taken\n"),
    Step::Line(b"entered 101 2 1 a0 a1 2031-05-01T15:00:00", b"taken\n"),
    Step::Line(b"left 101 3 1 a0 a1 2031-05-02T09:00:00", b"taken\n"),
    Step::Line(
        b"audit-of 101",
        b"\
room,fit,count,kind,card,old,new,at
101,1,1,recode,,0000000000a0,0000000000a1,2031-05-01T14:59:59
101,1,2,in,1,0000000000a0,0000000000a1,2031-05-01T15:00:00
101,1,3,out,1,0000000000a0,0000000000a1,2031-05-02T09:00:00
",
    ),
];

/// Lists of empty books, asked for alone.
pub const WORDS_AND_EMPTIES: &[Step] = &[
    Step::List(b"in-house", b"room,party,guest,kind,depart,secured\n", 0),
    Step::List(b"chain 101", b"refused 6 NoRoom\n", 3),
    Step::List(b"audit-of 101", b"refused 6 NoRoom\n", 3),
];

/// What locks do.
pub static OF_LOCKS: [Scenario; 7] = [
    Scenario {
        name: "two-entries",
        codes: &[0xa0, 0xa1],
        last: 0xa2,
        parts: &[OPENED, CHECKED_IN, TWO_ENTRIES, AFTER_TWO_ENTRIES],
    },
    Scenario {
        name: "next-guest",
        codes: &[0xa0, 0xa1],
        last: 0xa2,
        parts: &[
            OPENED,
            CHECKED_IN,
            TWO_ENTRIES,
            AFTER_TWO_ENTRIES,
            LEFT,
            NEXT_CHECKED_IN,
            NEXT_GUEST,
        ],
    },
    Scenario {
        name: "left-behind-recoded",
        codes: &[0xa0, 0xa1],
        last: 0xa2,
        parts: &[OPENED, CHECKED_IN, NEXT_CHECKED_IN, LEFT_BEHIND_RECODED],
    },
    Scenario {
        name: "away-and-back",
        codes: &[0xa0, 0xb0, 0xa1, 0xb1, 0xa2],
        last: 0xa3,
        parts: &[AWAY_AND_BACK],
    },
    Scenario {
        name: "spare-keeps-room-open",
        codes: &[0xa0, 0xa1],
        last: 0xa2,
        parts: &[OPENED, CHECKED_IN, SPARE_KEEPS_ROOM_OPEN],
    },
    Scenario {
        name: "lost-card",
        codes: &[0xa0, 0xa1],
        last: 0xa2,
        parts: &[OPENED, CHECKED_IN, LOST_CARD],
    },
    Scenario {
        name: "note-refusals",
        codes: &[0xa0, 0xa1],
        last: 0xa2,
        parts: &[
            OPENED,
            CHECKED_IN,
            TWO_ENTRIES,
            AFTER_TWO_ENTRIES,
            NOTE_REFUSALS,
        ],
    },
];

/// Audit files.
pub static OF_FILES: [Scenario; 8] = [
    Scenario {
        name: "audit-twice",
        codes: &[0xa0],
        last: 0xa1,
        parts: &[OPENED, CHECKED_IN, TAKEN_TWICE, AUDIT_TWICE],
    },
    Scenario {
        name: "audit-gap-conflict",
        codes: &[0xa0],
        last: 0xa1,
        parts: &[OPENED, CHECKED_IN, TAKEN_TWICE, AUDIT_GAP_CONFLICT],
    },
    Scenario {
        name: "late-audit",
        codes: &[0xa0, 0xa1, 0xa2],
        last: 0xb0,
        parts: &[OPENED, CHECKED_IN, NEXT_CHECKED_IN, LATE_NOTE],
    },
    Scenario {
        name: "recoding-refused",
        codes: &[0xa0, 0xa1, 0xa2],
        last: 0xb0,
        parts: &[
            OPENED,
            CHECKED_IN,
            NEXT_CHECKED_IN,
            LATE_NOTE,
            RECODING_REFUSED,
        ],
    },
    Scenario {
        name: "audit-bytes",
        codes: &[0xa0],
        last: 0xa1,
        parts: &[OPENED, CHECKED_IN, AUDIT_BYTES],
    },
    Scenario {
        name: "audit-causes",
        codes: &[0xa0],
        last: 0xa1,
        parts: &[OPENED, CHECKED_IN, TAKEN_TWICE, AUDIT_CAUSES],
    },
    Scenario {
        name: "audit-round-trip",
        codes: &[0xa0],
        last: 0xa1,
        parts: &[OPENED, CHECKED_IN, TAKEN_TWICE, AUDIT_ROUND_TRIP],
    },
    Scenario {
        name: "two-headers",
        codes: &[0xa0],
        last: 0xa1,
        parts: &[
            OPENED,
            CHECKED_IN,
            LINES_WITH_FITS,
            CAUSES_WITH_FITS,
            LINES_WITHOUT_FITS,
            SEEN_WITH_FITS,
            WRONG_HEADERS,
            LISTED_WITH_FITS,
        ],
    },
];

/// Codes, kinds, days and lists.
pub static OF_THE_DESK: [Scenario; 10] = [
    Scenario {
        name: "code-drawn-twice",
        codes: &[0xa0, 0xa0],
        last: 0xb0,
        parts: &[CODE_DRAWN_TWICE],
    },
    Scenario {
        name: "no-fresh-code",
        codes: &[],
        last: 0xa0,
        parts: &[NO_FRESH_CODE],
    },
    Scenario {
        name: "no-fresh-code-twice",
        codes: &[0xa0; 129],
        last: 0xb0,
        parts: &[NO_FRESH_CODE_TWICE],
    },
    Scenario {
        name: "kind-full",
        codes: &[],
        last: 0xa0,
        parts: &[KIND_FULL],
    },
    Scenario {
        name: "end-of-calendar",
        codes: &[0xa0],
        last: 0xb0,
        parts: &[END_OF_CALENDAR],
    },
    Scenario {
        name: "end-of-calendar-last-day",
        codes: &[],
        last: 0xa0,
        parts: &[END_OF_CALENDAR_LAST_DAY],
    },
    Scenario {
        name: "desk-day",
        codes: &[0xa0, 0xb0, 0xc0],
        last: 0xa1,
        parts: &[DESK_DAY],
    },
    Scenario {
        name: "quoted-guest",
        codes: &[],
        last: 0xa0,
        parts: &[QUOTED_GUEST],
    },
    Scenario {
        name: "notes-of-a-room",
        codes: &[0xa0],
        last: 0xa1,
        parts: &[OPENED, CHECKED_IN, NOTES_OF_A_ROOM],
    },
    Scenario {
        name: "words-and-empties",
        codes: &[],
        last: 0xa0,
        parts: &[WORDS_AND_EMPTIES],
    },
];
