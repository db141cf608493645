//! The lists that a clerk asks for first: which day it is, which rooms are free, who is inside, what is booked, and
//! what can be booked; whose a card is, and which notes of the locks were taken.
use crate::scenarios::{Scenario, Step};

/// Before a business day is set.
pub const NOT_BEGUN: &[Step] = &[
    Step::Line(b"business-day", b"day\n"),
    Step::Line(b"room-status", b"room,kind,party,secured,awaited\n"),
    Step::Line(b"inside", b"room,card,party\n"),
    Step::Line(b"bookings", b"party,guest,kind,arrive,depart\n"),
    Step::Line(b"availability 2031-05-01 2", b"kind,rooms,free\n"),
    Step::Line(b"cards 1", b"card,old,new\n"),
    Step::Line(b"card 1", b"card,party,guest,old,new\n"),
    Step::Line(b"locks", b"room,fit,count,at\n"),
];

/// What can be booked, before and after a booking.
pub const CAN_BE_BOOKED: &[Step] = &[
    Step::Line(b"begin 2031-05-01", b"begun\n"),
    Step::Line(b"business-day", b"day\n2031-05-01\n"),
    Step::Line(b"add-kind DBL", b"kind added\n"),
    Step::Line(b"add-kind SGL", b"kind added\n"),
    Step::Line(b"add-room 101 DBL", b"room code 0000000000a0\n"),
    Step::Line(
        b"availability 2031-05-01 2",
        b"kind,rooms,free\nDBL,1,1\nSGL,0,0\n",
    ),
    Step::Line(b"reserve DBL 2031-05-02 1 Ann", b"party 1\n"),
    Step::Line(
        b"availability 2031-05-01 2",
        b"kind,rooms,free\nDBL,1,0\nSGL,0,0\n",
    ),
    Step::Line(
        b"availability 2031-05-01 1",
        b"kind,rooms,free\nDBL,1,1\nSGL,0,0\n",
    ),
    Step::Line(
        b"availability 2031-04-30 1",
        b"kind,rooms,free\nDBL,1,0\nSGL,0,0\n",
    ),
    Step::Line(
        b"availability 2099-12-31 1",
        b"kind,rooms,free\nDBL,1,0\nSGL,0,0\n",
    ),
    Step::Line(
        b"bookings",
        b"party,guest,kind,arrive,depart\n1,Ann,DBL,2031-05-02,2031-05-03\n",
    ),
];

/// A stay, from check-in to check-out. Its guest hasn't left the room at the end.
pub const IN_A_ROOM: &[Step] = &[
    Step::Line(b"next-day", b"day 2031-05-02\n"),
    Step::Line(
        b"check-in 1 101",
        b"card 1 party 1 old 0000000000a0 new 0000000000a1\n",
    ),
    Step::Line(
        b"card 1",
        b"card,party,guest,old,new\n1,1,Ann,0000000000a0,0000000000a1\n",
    ),
    Step::Line(b"card 2", b"card,party,guest,old,new\n"),
    Step::Line(b"cards 1", b"card,old,new\n1,0000000000a0,0000000000a1\n"),
    Step::Line(b"cards 2", b"card,old,new\n"),
    Step::Line(b"locks", b"room,fit,count,at\n101,1,0,\n"),
    Step::Line(b"bookings", b"party,guest,kind,arrive,depart\n"),
    Step::Line(
        b"availability 2031-05-02 1",
        b"kind,rooms,free\nDBL,1,0\nSGL,0,0\n",
    ),
    Step::Line(
        b"room-status",
        b"room,kind,party,secured,awaited\n101,DBL,1,no,1\n",
    ),
    Step::Line(b"entered 101 1 1 a0 a1 2031-05-02T15:00:00", b"taken\n"),
    Step::Line(
        b"room-status",
        b"room,kind,party,secured,awaited\n101,DBL,1,yes,0\n",
    ),
    Step::Line(b"inside", b"room,card,party\n101,1,1\n"),
    Step::Line(
        b"locks",
        b"room,fit,count,at\n101,1,1,2031-05-02T15:00:00\n",
    ),
    Step::Line(b"check-out 1", b"checked out\n"),
    Step::Line(
        b"card 1",
        b"card,party,guest,old,new\n1,1,Ann,0000000000a0,0000000000a1\n",
    ),
    Step::Line(
        b"room-status",
        b"room,kind,party,secured,awaited\n101,DBL,,yes,0\n",
    ),
    Step::Line(b"inside", b"room,card,party\n101,1,1\n"),
    Step::Line(
        b"availability 2031-05-02 1",
        b"kind,rooms,free\nDBL,1,1\nSGL,0,0\n",
    ),
];

/// Lines with a word too few or too many, or with a value that isn't read.
pub const UNREAD_LISTS: &[Step] = &[
    Step::Line(b"business-day 2031-05-01", b"unread\n"),
    Step::Line(b"room-status 101", b"unread\n"),
    Step::Line(b"inside 101", b"unread\n"),
    Step::Line(b"bookings 1", b"unread\n"),
    Step::Line(b"availability", b"unread\n"),
    Step::Line(b"availability 2031-05-02", b"unread\n"),
    Step::Line(b"availability 2031-05-02 1 1", b"unread\n"),
    Step::Line(b"availability 2031-5-2 1", b"unread\n"),
    Step::Line(b"availability 2100-01-01 1", b"unread\n"),
    Step::Line(b"availability 2031-05-02 0", b"unread\n"),
    Step::Line(b"availability 2031-05-02 91", b"unread\n"),
    Step::Line(b"cards", b"unread\n"),
    Step::Line(b"cards 0", b"unread\n"),
    Step::Line(b"cards 1 1", b"unread\n"),
    Step::Line(b"card", b"unread\n"),
    Step::Line(b"card 0", b"unread\n"),
    Step::Line(b"card 10000000", b"unread\n"),
    Step::Line(b"card 1 1", b"unread\n"),
    Step::Line(b"locks 101", b"unread\n"),
    Step::List(
        b"availability 2031-05-02 090",
        b"kind,rooms,free\nDBL,1,1\nSGL,0,0\n",
        0,
    ),
    Step::List(b"business-day", b"day\n2031-05-02\n", 0),
];

/// The room's second lock, and another room; a note that was told before.
pub const A_SECOND_LOCK: &[Step] = &[
    Step::Line(b"left 101 2 1 a0 a1 2031-05-02T16:00:00", b"taken\n"),
    Step::Line(
        b"locks",
        b"room,fit,count,at\n101,1,2,2031-05-02T16:00:00\n",
    ),
    Step::Line(b"refit 101", b"lock 2 code 0000000000a2\n"),
    Step::Line(b"locks", b"room,fit,count,at\n101,2,0,\n"),
    Step::Line(b"reserve DBL 2031-05-02 1 Bo", b"party 2\n"),
    Step::Line(
        b"check-in 2 101",
        b"card 2 party 2 old 0000000000a2 new 0000000000a3\n",
    ),
    Step::Line(
        b"spare 2",
        b"card 3 party 2 old 0000000000a2 new 0000000000a3\n",
    ),
    Step::Line(b"entered 101/2 1 3 a2 a3 2031-05-02T17:00:00", b"taken\n"),
    Step::Line(b"left 101 2 1 a0 a1 2031-05-02T16:00:00", b"seen\n"),
    Step::Line(b"add-room 102 SGL", b"room code 0000000000b0\n"),
    Step::Line(
        b"locks",
        b"room,fit,count,at\n101,2,1,2031-05-02T17:00:00\n102,1,0,\n",
    ),
    Step::Line(b"cards 1", b"card,old,new\n1,0000000000a0,0000000000a1\n"),
    Step::Line(
        b"cards 2",
        b"card,old,new\n2,0000000000a2,0000000000a3\n3,0000000000a2,0000000000a3\n",
    ),
    Step::Line(
        b"card 1",
        b"card,party,guest,old,new\n1,1,Ann,0000000000a0,0000000000a1\n",
    ),
    Step::Line(
        b"card 3",
        b"card,party,guest,old,new\n3,2,Bo,0000000000a2,0000000000a3\n",
    ),
    Step::Line(b"card 4", b"card,party,guest,old,new\n"),
];

/// What a clerk asks.
pub static OF_CLERKS: [Scenario; 1] = [Scenario {
    name: "clerk-asks",
    codes: &[0xa0, 0xa1, 0xa2, 0xa3],
    last: 0xb0,
    parts: &[
        NOT_BEGUN,
        CAN_BE_BOOKED,
        IN_A_ROOM,
        UNREAD_LISTS,
        A_SECOND_LOCK,
    ],
}];
