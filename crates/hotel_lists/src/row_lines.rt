//! The line of a row, as text of a CSV file.
ghost use Rattle.std.specs.Prelude.{◌≡◌, ℕ, List, [], ◌∷◌, ◌++◌, OnOk};
ghost use Rattle.std.specs.Fmt.{decimal};
ghost use Rattle.hotel_lock.specs.{Gathered.line_of, NoteLine.audit_header, NoteLine.note_line};
ghost use Rattle.hotel_lists.specs.RowLines.{arrival_line, house_line, chain_line, behind_line};
ghost use Rattle.hotel_lists.specs.RowLines.{day_line, status_line, inside_line, free_line, card_line, lock_line};
ghost use Rattle.hotel_lists.specs.RowLines.{given_line};
ghost use Rattle.hotel_lists.specs.RowLines.{yes_or_no, state_text, party_field};
ghost use Rattle.hotel_lists.specs.RowLines.{arrivals_header, in_house_header, chain_header, left_behind_header};
ghost use Rattle.hotel_lists.specs.RowLines.{day_header, status_header, inside_header, free_header};
ghost use Rattle.hotel_lists.specs.RowLines.{given_header, card_header, locks_header};

use hotel_lock::{Gathered, audit_header};
use hotel_model::{
    BehindRow, CardRow, ChainRow, CodeState, FreeRow, HouseRow, InsideRow, LockRow, StatusRow,
};
use hotel_nights::{Day, Stay};
use keycard_rules::{Card, LockNote, Memory, PartyNo};

/// A row that has a line.
pub trait RowLine {
    /// The first line of a list of such rows.
    ghost header: { List ℕ };

    /// The text of its line.
    ghost line: { Self → List ℕ };

    fn header() -> &'static [u8]
        ensures { result.now ≡ header };

    /// Puts its line behind the lines that are gathered.
    fn gather(&self, lines: &mut Gathered) -> Result<(), Memory>
        ensures { OnOk result (lines.new ≡ lines.old ++ line self.now) };
}

impl RowLine for Stay {
    ghost header = { arrivals_header };

    ghost line = { arrival_line };

    fn header() -> &'static [u8] {
        b"party,guest,kind,arrive,depart\n"
    }

    fn gather(&self, lines: &mut Gathered) -> Result<(), Memory> {
        let mut party = itoa::Buffer::new();
        let arrive = self.arrive.print();
        let depart = self.depart.print();
        lines.push(&[
            party.format(self.party.value()).as_bytes(),
            self.guest.text().as_bytes(),
            self.kind.as_bytes(),
            arrive.as_slice(),
            depart.as_slice(),
        ])
    }
}

/// Whether a room is secured, as its row says it.
fn secured_text<'a>(secured: bool) -> &'a [u8]
    ensures { result.now ≡ yes_or_no secured }
{
    if secured { b"yes" } else { b"no" }
}

impl RowLine for HouseRow {
    ghost header = { in_house_header };

    ghost line = { house_line };

    fn header() -> &'static [u8] {
        b"room,party,guest,kind,depart,secured\n"
    }

    fn gather(&self, lines: &mut Gathered) -> Result<(), Memory> {
        let mut room = itoa::Buffer::new();
        let mut party = itoa::Buffer::new();
        let depart = self.depart.print();
        lines.push(&[
            room.format(self.room.value()).as_bytes(),
            party.format(self.party.value()).as_bytes(),
            self.guest.text().as_bytes(),
            self.kind.as_bytes(),
            depart.as_slice(),
            secured_text(self.secured),
        ])
    }
}

fn state_text(state: CodeState) -> &'static [u8]
    ensures { result.now ≡ state_text state }
{
    match state {
        CodeState::Passed => b"passed",
        CodeState::Held => b"held",
        CodeState::Awaited => b"awaited",
    }
}

impl RowLine for ChainRow {
    ghost header = { chain_header };

    ghost line = { chain_line };

    fn header() -> &'static [u8] {
        b"place,code,state\n"
    }

    fn gather(&self, lines: &mut Gathered) -> Result<(), Memory> {
        let mut place = itoa::Buffer::new();
        let code = self.code.print();
        lines.push(&[
            place.format(self.place).as_bytes(),
            code.as_slice(),
            state_text(self.state),
        ])
    }
}

impl RowLine for BehindRow {
    ghost header = { left_behind_header };

    ghost line = { behind_line };

    fn header() -> &'static [u8] {
        b"room,held,current,awaited\n"
    }

    fn gather(&self, lines: &mut Gathered) -> Result<(), Memory> {
        let mut room = itoa::Buffer::new();
        let mut awaited = itoa::Buffer::new();
        let held = self.held.print();
        let current = self.current.print();
        lines.push(&[
            room.format(self.room.value()).as_bytes(),
            held.as_slice(),
            current.as_slice(),
            awaited.format(self.awaited).as_bytes(),
        ])
    }
}

impl RowLine for LockNote {
    ghost header = { audit_header };

    ghost line = { note_line };

    fn header() -> &'static [u8] {
        audit_header()
    }

    fn gather(&self, lines: &mut Gathered) -> Result<(), Memory> {
        lines.push_note(self)
    }
}

impl RowLine for Day {
    ghost header = { day_header };

    ghost line = { day_line };

    fn header() -> &'static [u8] {
        b"day\n"
    }

    fn gather(&self, lines: &mut Gathered) -> Result<(), Memory> {
        let day = self.print();
        lines.push(&[day.as_slice()])
    }
}

/// A party's number; an empty text where there is no party.
fn party_field<'b>(party: Option<PartyNo>, buffer: &'b mut itoa::Buffer) -> &'b [u8]
    ensures { result.now ≡ party_field party }
{
    match party {
        Some(party) => buffer.format(party.value()).as_bytes(),
        None => b"",
    }
}

impl RowLine for StatusRow {
    ghost header = { status_header };

    ghost line = { status_line };

    fn header() -> &'static [u8] {
        b"room,kind,party,secured,awaited\n"
    }

    fn gather(&self, lines: &mut Gathered) -> Result<(), Memory> {
        let mut room = itoa::Buffer::new();
        let mut party = itoa::Buffer::new();
        let mut awaited = itoa::Buffer::new();
        lines.push(&[
            room.format(self.room.value()).as_bytes(),
            self.kind.as_bytes(),
            party_field(self.party, &mut party),
            secured_text(self.secured),
            awaited.format(self.awaited).as_bytes(),
        ])
    }
}

impl RowLine for InsideRow {
    ghost header = { inside_header };

    ghost line = { inside_line };

    fn header() -> &'static [u8] {
        b"room,card,party\n"
    }

    fn gather(&self, lines: &mut Gathered) -> Result<(), Memory> {
        let mut room = itoa::Buffer::new();
        let mut card = itoa::Buffer::new();
        let mut party = itoa::Buffer::new();
        lines.push(&[
            room.format(self.room.value()).as_bytes(),
            card.format(self.card.value()).as_bytes(),
            party.format(self.party.value()).as_bytes(),
        ])
    }
}

impl RowLine for FreeRow {
    ghost header = { free_header };

    ghost line = { free_line };

    fn header() -> &'static [u8] {
        b"kind,rooms,free\n"
    }

    fn gather(&self, lines: &mut Gathered) -> Result<(), Memory> {
        let mut rooms = itoa::Buffer::new();
        let mut free = itoa::Buffer::new();
        lines.push(&[
            self.kind.as_bytes(),
            rooms.format(self.rooms).as_bytes(),
            free.format(self.free).as_bytes(),
        ])
    }
}

impl RowLine for Card {
    ghost header = { given_header };

    ghost line = { given_line };

    fn header() -> &'static [u8] {
        b"card,old,new\n"
    }

    fn gather(&self, lines: &mut Gathered) -> Result<(), Memory> {
        let mut number = itoa::Buffer::new();
        let old = self.link.old_code.print();
        let new = self.link.new_code.print();
        lines.push(&[
            number.format(self.number.value()).as_bytes(),
            old.as_slice(),
            new.as_slice(),
        ])
    }
}

impl RowLine for CardRow {
    ghost header = { card_header };

    ghost line = { card_line };

    fn header() -> &'static [u8] {
        b"card,party,guest,old,new\n"
    }

    fn gather(&self, lines: &mut Gathered) -> Result<(), Memory> {
        let mut number = itoa::Buffer::new();
        let mut party = itoa::Buffer::new();
        let old = self.card.link.old_code.print();
        let new = self.card.link.new_code.print();
        lines.push(&[
            number.format(self.card.number.value()).as_bytes(),
            party.format(self.card.party.value()).as_bytes(),
            self.guest.text().as_bytes(),
            old.as_slice(),
            new.as_slice(),
        ])
    }
}

/// Puts the line of a lock behind the others, where its last note has this moment's text.
fn lock_fields(lines: &mut Gathered, lock: &LockRow, at: &[u8]) -> Result<(), Memory>
    ensures { OnOk result (lines.new ≡ lines.old ++ line_of (
        decimal lock.now.room ∷ decimal lock.now.fit ∷ decimal lock.now.count ∷ at.now ∷ [])) }
{
    let mut room = itoa::Buffer::new();
    let mut fit = itoa::Buffer::new();
    let mut count = itoa::Buffer::new();
    lines.push(&[
        room.format(lock.room.value()).as_bytes(),
        fit.format(lock.fit.value()).as_bytes(),
        count.format(lock.count).as_bytes(),
        at,
    ])
}

impl RowLine for LockRow {
    ghost header = { locks_header };

    ghost line = { lock_line };

    fn header() -> &'static [u8] {
        b"room,fit,count,at\n"
    }

    fn gather(&self, lines: &mut Gathered) -> Result<(), Memory> {
        match self.at {
            Some(at) => lock_fields(lines, self, at.print().as_slice()),
            None => lock_fields(lines, self, b""),
        }
    }
}
