//! Lines, gathered as text of a CSV file before they are written.
ghost use Rattle.std.specs.Prelude.{◌≡◌, [], ◌++◌, map, IfOk, OnOk, OnErr};
ghost use Rattle.hotel_lock.specs.Gathered.{line_of};

use csv::{Writer, WriterBuilder};
use keycard_rules::Memory;
use std::alloc::Global;
use std::marker::Model;
use std::mem;

/// Lines that are gathered for one write. Contracts see their text.
#[derive(Drop)]
pub struct Gathered {
    alloc: Global,
    csv: Writer<Vec<u8>>,
}

impl Model for Gathered {
    ghost use Rattle.std.specs.Prelude.{ℕ, List};
    ghost use Rattle.hotel_lock.specs.Gathered.{gathered_text, IsBetweenLines};

    ghost Value = { List ℕ };

    ghost view = { λ g. gathered_text g.csv };

    ghost invariant = { λ g. IsBetweenLines g.csv };
}

impl Gathered {
    /// No line is gathered yet.
    pub fn none(alloc: Global) -> Gathered
        ensures { result ≡ [] }
    {
        Gathered {
            alloc,
            csv: WriterBuilder::new().from_writer(Vec::new(alloc)),
        }
    }

    /// Puts the line of these fields behind the others, with quotes round each field that needs them.
    /// Where memory is refused, none is left.
    pub fn push(&mut self, fields: &[&[u8]]) -> Result<(), Memory>
        ensures ok { OnOk result (self.new ≡ self.old ++ line_of (map (λ field. field.now) fields.now)) }
        ensures err { OnErr result (self.new ≡ []) }
    {
        if self.csv.write_fields(fields).is_ok() {
            return Ok(());
        }
        *self = Gathered::none(self.alloc);
        Err(Memory)
    }

    /// Whether there is enough for one write, about 8 KB. It decides how many writes are made, and nothing
    /// of what they write.
    pub fn is_long(&self) -> bool {
        !self.csv.get_ref().is_empty()
    }

    /// The text of the lines, of which none is left.
    pub fn take_text(&mut self) -> Result<Vec<u8>, Memory>
        ensures ok { IfOk result (λ text. text.items ≡ self.old) }
        ensures left { self.new ≡ [] }
    {
        let Gathered { csv, alloc: _ } = mem::replace(self, Gathered::none(self.alloc));
        match csv.into_inner() {
            Ok(text) => Ok(text),
            Err(_) => Err(Memory),
        }
    }
}
