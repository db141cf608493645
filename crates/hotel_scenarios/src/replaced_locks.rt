//! The worked scenarios of locks that are replaced: notes by the lock that they are of. `.ci/scenarios` has a room's
//! last lock.
use crate::scenarios::{CHECKED_IN, OPENED, Scenario, Step, TAKEN_TWICE, TWO_NOTES};

/// The guest of room 101 entered and was checked out. Its lock is replaced, and Bo's party is checked in.
pub const REPLACED: &[Step] = &[
    Step::Line(b"entered 101 1 1 a0 a1 2031-05-01T15:00:00", b"taken\n"),
    Step::Line(b"check-out 1", b"checked out\n"),
    Step::Line(b"refit 101", b"lock 2 code 0000000000a2\n"),
    Step::Line(b"reserve DBL 2031-05-01 2 Bo", b"party 2\n"),
    Step::Line(
        b"check-in 2 101",
        b"card 2 party 2 old 0000000000a2 new 0000000000a3\n",
    ),
];

/// A lock is replaced once its room is left. The notes of the new one begin again; of the earlier one none is taken.
pub const REPLACED_LOCK: &[Step] = &[
    Step::Line(b"entered 101 1 1 a0 a1 2031-05-01T15:00:00", b"taken\n"),
    Step::Line(b"refit 101", b"refused 14 RoomTaken\n"),
    Step::Line(b"check-out 1", b"checked out\n"),
    Step::Line(
        b"locks",
        b"room,fit,count,at\n101,1,1,2031-05-01T15:00:00\n",
    ),
    Step::Line(b"refit 101", b"lock 2 code 0000000000a2\n"),
    Step::Line(b"locks", b"room,fit,count,at\n101,2,0,\n"),
    Step::Line(
        b"chain 101",
        b"place,code,state\n0,0000000000a0,passed\n1,0000000000a1,passed\n2,0000000000a2,held\n",
    ),
    Step::Line(b"reserve DBL 2031-05-01 2 Bo", b"party 2\n"),
    Step::Line(
        b"check-in 2 101",
        b"card 2 party 2 old 0000000000a2 new 0000000000a3\n",
    ),
    Step::Line(b"entered 101/2 1 2 a2 a3 2031-05-01T15:00:00", b"taken\n"),
    Step::Line(
        b"locks",
        b"room,fit,count,at\n101,2,1,2031-05-01T15:00:00\n",
    ),
    Step::Line(
        b"in-house",
        b"room,party,guest,kind,depart,secured\n101,2,Bo,DBL,2031-05-03,yes\n",
    ),
    Step::Line(b"entered 101 1 1 a0 a1 2031-05-01T15:00:00", b"seen\n"),
    Step::Line(
        b"entered 101 2 1 a0 a1 2031-05-01T15:00:00",
        b"refused 31 OldFit\n",
    ),
    Step::Line(
        b"entered 101/3 1 2 a2 a3 2031-05-01T15:00:00",
        b"refused 32 NoFit\n",
    ),
    Step::Line(
        b"entered 101/2 3 2 a2 a3 2031-05-01T15:00:00",
        b"refused 22 Gap 2\n",
    ),
];

/// The new lock of a room whose code was awaited holds the fresh one, and the earlier card doesn't open it.
pub const AWAITED_PASSED: &[Step] = &[
    Step::Line(b"check-out 1", b"checked out\n"),
    Step::Line(b"refit 101", b"lock 2 code 0000000000a2\n"),
    Step::Line(
        b"chain 101",
        b"place,code,state\n0,0000000000a0,passed\n1,0000000000a1,passed\n2,0000000000a2,held\n",
    ),
    Step::Line(b"left-behind", b"room,held,current,awaited\n"),
    Step::Line(
        b"entered 101/2 1 1 a0 a1 2031-05-01T15:00:00",
        b"refused 25 LockShut\n",
    ),
    Step::Line(b"reserve DBL 2031-05-01 2 Bo", b"party 2\n"),
    Step::Line(
        b"check-in 2 101",
        b"card 2 party 2 old 0000000000a2 new 0000000000a3\n",
    ),
    Step::Line(
        b"in-house",
        b"room,party,guest,kind,depart,secured\n101,2,Bo,DBL,2031-05-03,no\n",
    ),
];

/// The notes of two locks as the desk lists them, by lock and count.
pub const LISTED_LOCKS: &[u8] = b"\
room,fit,count,kind,card,old,new,at
101,1,1,in,1,0000000000a0,0000000000a1,2031-05-01T15:00:00
101,1,2,out,1,0000000000a0,0000000000a1,2031-05-01T16:00:00
101,2,1,in,2,0000000000a2,0000000000a3,2031-05-01T16:00:00
101,2,2,out,2,0000000000a2,0000000000a3,2031-05-01T16:00:00
";

/// The list of the notes of two locks is an audit file.
pub const LIST_OF_TWO_LOCKS: &[Step] = &[
    Step::Line(b"check-out 1", b"checked out\n"),
    Step::Line(b"refit 101", b"lock 2 code 0000000000a2\n"),
    Step::Line(b"reserve DBL 2031-05-01 2 Bo", b"party 2\n"),
    Step::Line(
        b"check-in 2 101",
        b"card 2 party 2 old 0000000000a2 new 0000000000a3\n",
    ),
    Step::Line(b"entered 101/2 1 2 a2 a3 2031-05-01T16:00:00", b"taken\n"),
    Step::Line(b"entered 101/2 1 2 a2 a3 2031-05-01T16:00:00", b"seen\n"),
    Step::Line(b"left 101/2 2 2 a2 a3 2031-05-01T16:00:00", b"taken\n"),
    Step::Line(b"audit-of 101", LISTED_LOCKS),
    Step::Audit(LISTED_LOCKS, b"1 seen\n2 seen\n3 seen\n4 seen\n", 0),
    Step::Line(
        b"left 101 3 1 a0 a1 2031-05-01T16:00:00",
        b"refused 31 OldFit\n",
    ),
    Step::Line(
        b"left 101/2 4 2 a2 a3 2031-05-01T16:00:00",
        b"refused 22 Gap 3\n",
    ),
    Step::Line(b"audit-of 101", LISTED_LOCKS),
];

/// Notes of a lock that was replaced, of which the desk has the first; of the new lock; of one that the room hasn't.
pub const LATE_NOTES: &[u8] = b"\
room,fit,count,kind,card,old,new,at
101,1,1,in,1,0000000000a0,0000000000a1,2031-05-01T15:00:00
101,1,2,out,1,0000000000a0,0000000000a1,2031-05-01T16:00:00
101,2,1,in,2,0000000000a2,0000000000a3,2031-05-01T17:00:00
101,2,2,out,2,0000000000a2,0000000000a3,2031-05-01T18:00:00
101,3,1,in,2,0000000000a2,0000000000a3,2031-05-01T18:00:00
";

/// Such a file, twice; the notes of the replaced lock under the first header; another content of a count that it took.
pub const LATE_FILES: &[Step] = &[
    Step::Audit(
        LATE_NOTES,
        b"1 seen\n2 refused 31 OldFit\n3 taken\n4 taken\n5 refused 32 NoFit\n",
        3,
    ),
    Step::Audit(
        LATE_NOTES,
        b"1 seen\n2 refused 31 OldFit\n3 seen\n4 seen\n5 refused 32 NoFit\n",
        3,
    ),
    Step::Audit(TWO_NOTES, b"1 seen\n2 refused 31 OldFit\n", 3),
    Step::Audit(
        b"room,count,kind,card,old,new,at\n101,1,in,1,0000000000a0,0000000000a1,2031-05-01T15:00:01\n",
        b"1 refused 21 Conflict\n",
        3,
    ),
    Step::Line(
        b"audit-of 101",
        b"\
room,fit,count,kind,card,old,new,at
101,1,1,in,1,0000000000a0,0000000000a1,2031-05-01T15:00:00
101,2,1,in,2,0000000000a2,0000000000a3,2031-05-01T17:00:00
101,2,2,out,2,0000000000a2,0000000000a3,2031-05-01T18:00:00
",
    ),
    Step::Line(
        b"chain 101",
        b"\
place,code,state
0,0000000000a0,passed
1,0000000000a1,passed
2,0000000000a2,passed
3,0000000000a3,held
",
    ),
];

/// A room without a second lock has no notes of one. Its first lock is meant with its number or without it.
pub const LATER_LOCK: &[Step] = &[
    Step::Line(
        b"entered 101/2 1 1 a0 a1 2031-05-01T15:00:00",
        b"refused 32 NoFit\n",
    ),
    Step::Line(b"entered 101/1 1 1 a0 a1 2031-05-01T15:00:00", b"taken\n"),
    Step::Line(b"entered 101 1 1 a0 a1 2031-05-01T15:00:00", b"seen\n"),
    Step::Line(
        b"entered 101/2 1 1 a0 a1 2031-05-01T15:00:00",
        b"refused 32 NoFit\n",
    ),
    Step::Line(
        b"left 101/2 3 1 a0 a1 2031-05-01T15:00:00",
        b"refused 32 NoFit\n",
    ),
    Step::Line(
        b"recoded 101/99 2 a1 a0 2031-05-01T15:00:00",
        b"refused 32 NoFit\n",
    ),
    Step::Line(
        b"entered 102/2 1 1 a0 a1 2031-05-01T15:00:00",
        b"refused 6 NoRoom\n",
    ),
    Step::Line(b"left 101/01 2 1 a0 a1 2031-05-01T15:00:00", b"taken\n"),
    Step::Line(b"entered 101/ 3 1 a0 a1 2031-05-01T15:00:00", b"unread\n"),
    Step::Line(b"left 101/0 3 1 a0 a1 2031-05-01T15:00:00", b"unread\n"),
    Step::Line(b"recoded 101/100 3 a1 a0 2031-05-01T15:00:00", b"unread\n"),
    Step::Line(
        b"audit-of 101",
        b"\
room,fit,count,kind,card,old,new,at
101,1,1,in,1,0000000000a0,0000000000a1,2031-05-01T15:00:00
101,1,2,out,1,0000000000a0,0000000000a1,2031-05-01T15:00:00
",
    ),
];

/// What locks do that are told from one another by their number.
pub static OF_REPLACED_LOCKS: [Scenario; 5] = [
    Scenario {
        name: "later-lock",
        codes: &[0xa0],
        last: 0xa1,
        parts: &[OPENED, CHECKED_IN, LATER_LOCK],
    },
    Scenario {
        name: "replaced-lock",
        codes: &[0xa0, 0xa1, 0xa2],
        last: 0xa3,
        parts: &[OPENED, CHECKED_IN, REPLACED_LOCK],
    },
    Scenario {
        name: "refit-passes-awaited",
        codes: &[0xa0, 0xa1, 0xa2],
        last: 0xa3,
        parts: &[OPENED, CHECKED_IN, AWAITED_PASSED],
    },
    Scenario {
        name: "audit-list-comes-back-with-fits",
        codes: &[0xa0, 0xa1, 0xa2],
        last: 0xa3,
        parts: &[OPENED, CHECKED_IN, TAKEN_TWICE, LIST_OF_TWO_LOCKS],
    },
    Scenario {
        name: "late-files-of-a-replaced-lock",
        codes: &[0xa0, 0xa1, 0xa2],
        last: 0xa3,
        parts: &[OPENED, CHECKED_IN, REPLACED, LATE_FILES],
    },
];
