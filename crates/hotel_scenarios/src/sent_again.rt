//! Audit files that are sent again after a stop.
use crate::desks::Desk;
use crate::replaced_locks::{LATE_NOTES, REPLACED};
use crate::rooms_now::{RoomNow, answers_to, note_count};
use crate::scenarios::{CHECKED_IN, CUT_LAST_LINE, LISTED_NOTES, OPENED, Step, TWO_NOTES};
use hotel_core::Walks;
use std::alloc::Global;
use std::test::Fail;

/// A file, and what came before it. By how many lines were answered: how many notes the room has then, and what the
/// file is answered when it comes again.
#[derive(Clone, Copy)]
pub struct Sent {
    /// The file.
    pub file: &'static [u8],
    behind: &'static [&'static [Step]],
    notes: &'static [u32],
    again: &'static [&'static [u8]],
}

/// Room 101, where party 1 checked in.
const ONE_GUEST: &[&[Step]] = &[OPENED, CHECKED_IN];

/// Then its lock was replaced, which had one note.
const TWO_LOCKS: &[&[Step]] = &[OPENED, CHECKED_IN, REPLACED];

/// What a file of two notes is answered when it comes again: each note that stands is seen, and the others are taken.
const TWO_AGAIN: &[&[u8]] = &[
    b"1 taken\n2 taken\n",
    b"1 seen\n2 taken\n",
    b"1 seen\n2 seen\n",
];

/// The file of two notes.
pub static TWICE: Sent = Sent {
    file: TWO_NOTES,
    behind: ONE_GUEST,
    notes: &[0, 1, 2],
    again: TWO_AGAIN,
};

/// The file of the same two notes with fits.
pub static TWICE_WITH_FITS: Sent = Sent {
    file: LISTED_NOTES,
    behind: ONE_GUEST,
    notes: &[0, 1, 2],
    again: TWO_AGAIN,
};

/// The file whose last line is cut.
pub static CUT: Sent = Sent {
    file: CUT_LAST_LINE,
    behind: ONE_GUEST,
    notes: &[0, 1, 1],
    again: &[
        b"1 taken\n2 unread FieldCount\n",
        b"1 seen\n2 unread FieldCount\n",
        b"1 seen\n2 unread FieldCount\n",
    ],
};

/// What it is answered where its notes are of a lock that was replaced, of which the desk has the first.
const ONE_SEEN: &[u8] = b"1 seen\n2 refused 31 OldFit\n";

/// The file of two notes of a lock that was replaced, of which the desk has the first.
pub static REPLACED_TWICE: Sent = Sent {
    file: TWO_NOTES,
    behind: TWO_LOCKS,
    notes: &[1; 3],
    again: &[ONE_SEEN, ONE_SEEN, ONE_SEEN],
};

/// What the file of notes of several locks is answered when it comes again: none of its notes stands, the first of the
/// new lock, both.
const NONE_STANDS: &[u8] = b"1 seen\n2 refused 31 OldFit\n3 taken\n4 taken\n5 refused 32 NoFit\n";

const ONE_STANDS: &[u8] = b"1 seen\n2 refused 31 OldFit\n3 seen\n4 taken\n5 refused 32 NoFit\n";

const BOTH_STAND: &[u8] = b"1 seen\n2 refused 31 OldFit\n3 seen\n4 seen\n5 refused 32 NoFit\n";

/// The file of notes of a lock that was replaced, of the new one and of a third.
pub static LATE: Sent = Sent {
    file: LATE_NOTES,
    behind: TWO_LOCKS,
    notes: &[1, 1, 1, 2, 3, 3],
    again: &[
        NONE_STANDS,
        NONE_STANDS,
        NONE_STANDS,
        ONE_STANDS,
        BOTH_STAND,
        BOTH_STAND,
    ],
};

impl Sent {
    /// A desk behind what came before the file.
    pub fn desk(&self, alloc: Global) -> Result<Desk, Fail> {
        Desk::behind(alloc, &[0xa0, 0xa1, 0xa2, 0xa3], self.behind)
    }

    /// Whether the file has a line behind so many answered ones, and whether one of these was taken.
    pub fn stops_behind(&self, answered: usize, taken: bool) -> bool {
        match (self.notes.first(), self.notes.get(answered)) {
            (Some(none), Some(some)) => {
                answered.saturating_add(1) < self.notes.len() && taken == (none < some)
            }
            _ => false,
        }
    }

    /// After so many answered lines: how many notes the room has, and the answers when the file comes again.
    fn after(&self, answered: usize) -> Option<(u32, &'static [u8])> {
        Some((*self.notes.get(answered)?, *self.again.get(answered)?))
    }
}

/// What the books say after the whole file, sent once.
fn once(alloc: Global, sent: &Sent) -> Result<Option<RoomNow>, Fail> {
    let mut desk = sent.desk(alloc)?;
    answers_to(alloc, &mut desk.books, sent.file)?;
    RoomNow::of(alloc, &mut desk.books)
}

/// After so many answered lines the file comes again: whether the answered lines stand, the others are answered for,
/// and the tables are those of the whole file.
pub fn comes_again<B: Walks>(
    alloc: Global,
    books: &mut B,
    sent: &Sent,
    answered: usize,
) -> Result<bool, Fail> {
    let (notes, again) = sent.after(answered).ok_or("more lines")?;
    let stand = note_count(books)? == notes;
    let answers = answers_to(alloc, books, sent.file)?;
    let is_answered = answers.as_slice() == again;
    let now = RoomNow::of(alloc, books)?;
    let whole = once(alloc, sent)?;
    Ok(stand && is_answered && now == whole)
}
