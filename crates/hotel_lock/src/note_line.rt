//! The line of a note, as text of a CSV file, and the header of a file of such lines.
ghost use Rattle.std.specs.Prelude.{◌≡◌, [], ◌∷◌, ◌++◌, OnErr, OnOk};
ghost use Rattle.std.specs.Fmt.{decimal};
ghost use Rattle.keycard_rules.specs.Numerals.{code_text};
ghost use Rattle.hotel_nights.specs.Moments.{moment_of, moment_text};
ghost use Rattle.hotel_lock.specs.{Gathered.line_of, NoteLine.audit_header, NoteLine.note_line};

use crate::gathered::Gathered;
use hotel_nights::Moment;
use keycard_rules::{Act, Code, LockNote, Memory};

/// The first line of an audit file.
pub fn audit_header() -> &'static [u8]
    ensures { result.now ≡ audit_header }
{
    b"room,fit,count,kind,card,old,new,at\n"
}

/// The line of a note whose act has this kind, card and codes.
fn push_fields(
    lines: &mut Gathered,
    note: &LockNote,
    kind: &[u8],
    card: &[u8],
    old: Code,
    new: Code,
) -> Result<(), Memory>
    ensures ok { OnOk result (lines.new ≡ lines.old ++ line_of (
        decimal note.now.room ∷ decimal note.now.fit ∷ decimal note.now.count ∷ kind.now ∷ card.now
        ∷ code_text old ∷ code_text new ∷ moment_text (moment_of note.now) ∷ [])) }
    ensures err { OnErr result (lines.new ≡ []) }
{
    let mut room = itoa::Buffer::new();
    let mut fit = itoa::Buffer::new();
    let mut count = itoa::Buffer::new();
    let old = old.print();
    let new = new.print();
    let at = Moment::of(note).print();
    lines.push(&[
        room.format(note.room.value()).as_bytes(),
        fit.format(note.fit.value()).as_bytes(),
        count.format(note.count.value()).as_bytes(),
        kind,
        card,
        old.as_slice(),
        new.as_slice(),
        at.as_slice(),
    ])
}

impl Gathered {
    /// Puts the line of a note behind the others. Where memory is refused, none is left.
    pub fn push_note(&mut self, note: &LockNote) -> Result<(), Memory>
        ensures ok { OnOk result (self.new ≡ self.old ++ note_line note.now) }
        ensures err { OnErr result (self.new ≡ []) }
    {
        let mut buffer = itoa::Buffer::new();
        match note.act {
            Act::Entered { card, link } => {
                let card = buffer.format(card.value()).as_bytes();
                push_fields(self, note, b"in", card, link.old_code, link.new_code)
            }
            Act::Left { card, link } => {
                let card = buffer.format(card.value()).as_bytes();
                push_fields(self, note, b"out", card, link.old_code, link.new_code)
            }
            Act::Recoded { from, to } => push_fields(self, note, b"recode", b"", from, to),
        }
    }
}
