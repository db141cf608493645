//! Commands on a desk, with the calls of the books that each makes.
use hotel_scenarios::scenarios::{CHECKED_IN, OPENED, Step};

/// A command on a desk after these parts.
#[derive(Clone, Copy)]
pub(crate) struct Asked {
    pub parts: &'static [&'static [Step]],
    pub line: &'static [u8],
    /// By how many words are gone that the command examined: the codes that the desk's source gives without them, and
    /// the answer.
    pub answers: &'static [(&'static [u64], &'static [u8])],
    /// The calls of the books that the command makes, in their order: for each of its checks what it looks up, as far
    /// as the rows that it has don't tell, and what its change needs. With each the number of the words that are gone
    /// once it failed: of a draw whose question failed the word is gone.
    pub calls: &'static [(&'static str, usize)],
}

const DAY: (&str, usize) = ("the day", 0);

const KIND: (&str, usize) = ("the kind", 0);

const ROOM: (&str, usize) = ("the room", 0);

const STAY: (&str, usize) = ("the stay", 0);

const CARD: (&str, usize) = ("the card", 0);

const NOTE: (&str, usize) = ("the note", 0);

const FULL_NIGHT: (&str, usize) = ("the first full night", 0);

const NEXT_PARTY: (&str, usize) = ("the next party", 0);

const GUEST: (&str, usize) = ("a copy of the guest's name", 0);

const NEXT_CARD: (&str, usize) = ("the next card", 0);

const CODE_BEFORE: (&str, usize) = ("the room's code before the current one", 0);

const CURRENT: (&str, usize) = ("the room's current code", 0);

const HELD: (&str, usize) = ("the code that the lock holds", 0);

const PLACE: (&str, usize) = ("the place of the code that the lock is to hold", 0);

const ANY_INSIDE: (&str, usize) = ("whether any card is inside", 0);

const INSIDE: (&str, usize) = ("whether the card is inside", 0);

const CHANGE: (&str, usize) = ("the change", 0);

const ISSUED: (&str, usize) = ("whether the code was issued", 1);

const DRAWN_CHANGE: (&str, usize) = ("the change, of a code that was drawn", 1);

/// A second room of the kind.
const SECOND_ROOM: &[Step] = &[Step::Line(b"add-room 102 DBL", b"room code 0000000000b0\n")];

/// The guest of room 101 entered, and so secured it.
const ENTERED: &[Step] = &[Step::Line(b"entered 101 1 1 a0 a1 2031-05-01T15:00:00", b"taken\n")];

/// She was checked out without leaving.
const LEFT_INSIDE: &[Step] = &[Step::Line(b"check-out 1", b"checked out\n")];

/// She lost her card before it entered.
const REISSUED: &[Step] = &[Step::Line(
    b"reissue 1",
    b"card 2 party 1 old 0000000000a1 new 0000000000a2\n",
)];

/// The last business day.
const LAST_DAY: &[Step] = &[Step::Line(b"begin 2099-12-31", b"begun\n")];

/// Commands that are carried out.
pub(crate) static COMMANDS: &[Asked] = &[
    Asked {
        parts: &[],
        line: b"begin 2031-05-01",
        answers: &[(&[0xa0], b"begun\n")],
        calls: &[DAY, CHANGE],
    },
    Asked {
        parts: &[OPENED],
        line: b"add-kind SGL",
        answers: &[(&[0xa0], b"kind added\n")],
        calls: &[DAY, KIND, CHANGE],
    },
    Asked {
        parts: &[OPENED],
        line: b"add-room 102 DBL",
        answers: &[
            (&[0xa0, 0xb0, 0xb1], b"room code 0000000000b0\n"),
            (&[0xa0, 0xb1], b"room code 0000000000b1\n"),
        ],
        calls: &[DAY, KIND, ROOM, ISSUED, DRAWN_CHANGE],
    },
    Asked {
        parts: &[OPENED],
        line: b"reserve DBL 2031-05-03 1 Bo",
        answers: &[(&[0xa0], b"party 2\n")],
        calls: &[DAY, KIND, FULL_NIGHT, NEXT_PARTY, GUEST, CHANGE],
    },
    Asked {
        parts: &[OPENED],
        line: b"cancel 1",
        answers: &[(&[0xa0], b"cancelled\n")],
        calls: &[DAY, STAY, CHANGE],
    },
    Asked {
        parts: &[OPENED],
        line: b"check-in 1 101",
        answers: &[
            (
                &[0xa0, 0xa1, 0xa2],
                b"card 1 party 1 old 0000000000a0 new 0000000000a1\n",
            ),
            (
                &[0xa0, 0xa2],
                b"card 1 party 1 old 0000000000a0 new 0000000000a2\n",
            ),
        ],
        calls: &[DAY, ROOM, STAY, NEXT_CARD, CURRENT, ISSUED, DRAWN_CHANGE],
    },
    Asked {
        parts: &[OPENED, CHECKED_IN],
        line: b"spare 1",
        answers: &[(
            &[0xa0, 0xa1],
            b"card 2 party 1 old 0000000000a0 new 0000000000a1\n",
        )],
        calls: &[DAY, STAY, NEXT_CARD, ROOM, CODE_BEFORE, CURRENT, CHANGE],
    },
    // The room is secured. That the party is registered there is read off its stay.
    Asked {
        parts: &[OPENED, CHECKED_IN, ENTERED],
        line: b"reissue 1",
        answers: &[
            (
                &[0xa0, 0xa1, 0xa2, 0xa3],
                b"card 2 party 1 old 0000000000a1 new 0000000000a2\n",
            ),
            (
                &[0xa0, 0xa1, 0xa3],
                b"card 2 party 1 old 0000000000a1 new 0000000000a3\n",
            ),
        ],
        calls: &[DAY, STAY, ROOM, NEXT_CARD, CURRENT, ISSUED, DRAWN_CHANGE],
    },
    Asked {
        parts: &[OPENED, SECOND_ROOM, CHECKED_IN],
        line: b"transfer 1 102",
        answers: &[
            (
                &[0xa0, 0xb0, 0xa1, 0xb1, 0xb2],
                b"card 2 party 1 old 0000000000b0 new 0000000000b1\n",
            ),
            (
                &[0xa0, 0xb0, 0xa1, 0xb2],
                b"card 2 party 1 old 0000000000b0 new 0000000000b2\n",
            ),
        ],
        calls: &[DAY, ROOM, STAY, NEXT_CARD, CURRENT, ISSUED, DRAWN_CHANGE],
    },
    Asked {
        parts: &[OPENED, CHECKED_IN],
        line: b"check-out 1",
        answers: &[(&[0xa0, 0xa1], b"checked out\n")],
        calls: &[DAY, STAY, ROOM, CHANGE],
    },
    // The room is vacant, and a card is inside.
    Asked {
        parts: &[OPENED, CHECKED_IN, ENTERED, LEFT_INSIDE],
        line: b"refit 101",
        answers: &[
            (&[0xa0, 0xa1, 0xa2, 0xa3], b"lock 2 code 0000000000a2\n"),
            (&[0xa0, 0xa1, 0xa3], b"lock 2 code 0000000000a3\n"),
        ],
        calls: &[DAY, ROOM, ISSUED, DRAWN_CHANGE],
    },
    Asked {
        parts: &[OPENED],
        line: b"next-day",
        answers: &[(&[0xa0], b"day 2031-05-02\n")],
        calls: &[DAY, CHANGE],
    },
];

/// Notes that are taken, or were taken before.
pub(crate) static NOTES: &[Asked] = &[
    // The newest card enters the room, which isn't secured yet. The room's row tells that the note comes next.
    Asked {
        parts: &[OPENED, CHECKED_IN],
        line: b"entered 101 1 1 a0 a1 2031-05-01T15:00:00",
        answers: &[(&[0xa0, 0xa1], b"taken\n")],
        calls: &[DAY, ROOM, CARD, HELD, PLACE, ANY_INSIDE, INSIDE, CHANGE],
    },
    // The card enters once more. Of a secured room it isn't asked whether any card is inside.
    Asked {
        parts: &[OPENED, CHECKED_IN, ENTERED],
        line: b"entered 101 2 1 a0 a1 2031-05-01T15:00:00",
        answers: &[(&[0xa0, 0xa1], b"taken\n")],
        calls: &[DAY, ROOM, CARD, HELD, PLACE, INSIDE, CHANGE],
    },
    Asked {
        parts: &[OPENED, CHECKED_IN, ENTERED],
        line: b"left 101 2 1 a0 a1 2031-05-01T15:00:00",
        answers: &[(&[0xa0, 0xa1], b"taken\n")],
        calls: &[DAY, ROOM, CARD, INSIDE, CHANGE],
    },
    Asked {
        parts: &[OPENED, CHECKED_IN],
        line: b"recoded 101 1 a0 a1 2031-05-01T15:00:00",
        answers: &[(&[0xa0, 0xa1], b"taken\n")],
        calls: &[DAY, ROOM, HELD, PLACE, CHANGE],
    },
    Asked {
        parts: &[OPENED, CHECKED_IN, ENTERED],
        line: b"entered 101 1 1 a0 a1 2031-05-01T15:00:00",
        answers: &[(&[0xa0, 0xa1], b"seen\n")],
        calls: &[DAY, ROOM, NOTE],
    },
];

/// Commands and notes that are refused.
pub(crate) static REFUSALS: &[Asked] = &[
    Asked {
        parts: &[OPENED],
        line: b"begin 2031-05-01",
        answers: &[(&[0xa0], b"refused 2 AlreadyBegun\n")],
        calls: &[DAY],
    },
    Asked {
        parts: &[OPENED],
        line: b"add-kind DBL",
        answers: &[(&[0xa0], b"refused 3 KindExists\n")],
        calls: &[DAY, KIND],
    },
    Asked {
        parts: &[OPENED],
        line: b"add-room 102 SGL",
        answers: &[(&[0xa0], b"refused 4 NoKind\n")],
        calls: &[DAY, KIND],
    },
    Asked {
        parts: &[OPENED],
        line: b"add-room 101 DBL",
        answers: &[(&[0xa0], b"refused 5 RoomExists\n")],
        calls: &[DAY, KIND, ROOM],
    },
    Asked {
        parts: &[OPENED],
        line: b"reserve DBL 2031-05-02 1 Bo",
        answers: &[(&[0xa0], b"refused 17 KindFull 2031-05-02\n")],
        calls: &[DAY, KIND, FULL_NIGHT],
    },
    Asked {
        parts: &[OPENED, CHECKED_IN],
        line: b"cancel 1",
        answers: &[(&[0xa0, 0xa1], b"refused 8 NotBooked\n")],
        calls: &[DAY, STAY],
    },
    Asked {
        parts: &[OPENED, CHECKED_IN],
        line: b"check-in 1 101",
        answers: &[(&[0xa0, 0xa1], b"refused 8 NotBooked\n")],
        calls: &[DAY, ROOM, STAY],
    },
    Asked {
        parts: &[OPENED],
        line: b"spare 1",
        answers: &[(&[0xa0], b"refused 9 NotInHouse\n")],
        calls: &[DAY, STAY],
    },
    Asked {
        parts: &[OPENED],
        line: b"reissue 1",
        answers: &[(&[0xa0], b"refused 9 NotInHouse\n")],
        calls: &[DAY, STAY],
    },
    Asked {
        parts: &[OPENED, CHECKED_IN],
        line: b"transfer 1 101",
        answers: &[(&[0xa0, 0xa1], b"refused 13 SameRoom\n")],
        calls: &[DAY, ROOM, STAY],
    },
    Asked {
        parts: &[OPENED],
        line: b"check-out 1",
        answers: &[(&[0xa0], b"refused 9 NotInHouse\n")],
        calls: &[DAY, STAY],
    },
    Asked {
        parts: &[],
        line: b"refit 101",
        answers: &[(&[0xa0], b"refused 1 NotBegun\n")],
        calls: &[DAY],
    },
    Asked {
        parts: &[OPENED],
        line: b"refit 102",
        answers: &[(&[0xa0], b"refused 6 NoRoom\n")],
        calls: &[DAY, ROOM],
    },
    Asked {
        parts: &[OPENED, CHECKED_IN],
        line: b"refit 101",
        answers: &[(&[0xa0, 0xa1], b"refused 14 RoomTaken\n")],
        calls: &[DAY, ROOM],
    },
    Asked {
        parts: &[LAST_DAY],
        line: b"next-day",
        answers: &[(&[0xa0], b"refused 20 LastDay\n")],
        calls: &[DAY],
    },
    Asked {
        parts: &[OPENED, CHECKED_IN, ENTERED],
        line: b"entered 101 1 1 a0 a1 2031-05-01T15:00:01",
        answers: &[(&[0xa0, 0xa1], b"refused 21 Conflict\n")],
        calls: &[DAY, ROOM, NOTE],
    },
    Asked {
        parts: &[OPENED, CHECKED_IN],
        line: b"entered 101 2 1 a0 a1 2031-05-01T15:00:00",
        answers: &[(&[0xa0, 0xa1], b"refused 22 Gap 1\n")],
        calls: &[DAY, ROOM],
    },
    Asked {
        parts: &[OPENED, CHECKED_IN],
        line: b"entered 101 1 2 a0 a1 2031-05-01T15:00:00",
        answers: &[(&[0xa0, 0xa1], b"refused 23 NoCard\n")],
        calls: &[DAY, ROOM, CARD],
    },
    Asked {
        parts: &[OPENED, CHECKED_IN, REISSUED],
        line: b"entered 101 1 2 a1 a2 2031-05-01T15:00:00",
        answers: &[(&[0xa0, 0xa1, 0xa2], b"refused 25 LockShut\n")],
        calls: &[DAY, ROOM, CARD, HELD],
    },
    Asked {
        parts: &[OPENED, CHECKED_IN],
        line: b"left 101 1 1 a0 a1 2031-05-01T15:00:00",
        answers: &[(&[0xa0, 0xa1], b"refused 26 NotInside\n")],
        calls: &[DAY, ROOM, CARD, INSIDE],
    },
    Asked {
        parts: &[OPENED, CHECKED_IN],
        line: b"recoded 101 1 a1 a0 2031-05-01T15:00:00",
        answers: &[(&[0xa0, 0xa1], b"refused 27 HeldDiffers\n")],
        calls: &[DAY, ROOM, HELD],
    },
    Asked {
        parts: &[OPENED, CHECKED_IN],
        line: b"recoded 101 1 a0 a0 2031-05-01T15:00:00",
        answers: &[(&[0xa0, 0xa1], b"refused 28 NotAwaited\n")],
        calls: &[DAY, ROOM, HELD, PLACE],
    },
];
