//! What the words of a call ask for, and why they don't.

ghost use Rattle.std.specs.Prelude.{◌≡◌, Some, IfOk};
ghost use Rattle.hotel_program.specs.Plans.{usage_text};

use hotel_asks::{ListAsk, ValueName};
use hotel_core::Command;
use std::alloc::{AllocError, Global};
use std::error::Error;
use std::fmt;
use std::marker::Model;

/// The name of a file. Contracts see its bytes.
#[derive(Drop)]
pub struct FileName {
    text: String,
}

impl Model for FileName {
    ghost use Rattle.std.specs.Prelude.{ℕ, List, string_bytes};

    ghost Value = { List ℕ };

    ghost view = { λ name. string_bytes name.text };
}

impl FileName {
    /// A copy of the text.
    pub fn of(alloc: Global, text: &str) -> Result<FileName, AllocError>
        ensures { IfOk result (λ name. name ≡ text.now) }
    {
        Ok(FileName {
            text: String::from_str(alloc, text)?,
        })
    }

    /// The name as text.
    pub fn as_str(&self) -> &str
        ensures { result.now ≡ self.now }
    {
        self.text.as_str()
    }
}

/// What the program is to do.
#[derive(Drop)]
pub enum DeskAct {
    /// Carry out one command and print its reply.
    One(Command),
    /// Print a list.
    List(ListAsk),
    /// Import the audit file of that name.
    Audit(FileName),
    /// Carry out the script on standard input.
    Script,
    /// Answer so many connections on the port of the loopback address.
    Serve { port: u16, count: u32 },
}

/// What the words ask for.
#[derive(Drop)]
pub struct Plan {
    /// The file that has the books; in memory where there is none.
    pub db: Option<FileName>,
    /// The file whose first 32 bytes are the seed; the system's source where none was named.
    pub seed_file: Option<FileName>,
    pub act: DeskAct,
}

/// Why the words give no plan.
#[derive(Debug, Drop)]
pub enum UsageFault {
    /// Help or the version was asked for: its text.
    Shown(String),
    /// The words aren't those of the command line: what is said of them.
    Usage(String),
    /// The first value that its reader refuses.
    Value(ValueName),
    /// A growth of memory was refused.
    Memory,
}

impl fmt::Display for UsageFault {
    ghost output = { λ why. Some (usage_text why) };

    fn fmt<W: fmt::Write>(&self, f: &mut fmt::Formatter<W>) -> fmt::Result {
        match self {
            UsageFault::Shown(text) | UsageFault::Usage(text) => f.write_str(text),
            UsageFault::Value(name) => write!(f, "unread {}", name.text()),
            UsageFault::Memory => f.write_str("memory"),
        }
    }
}

impl Error for UsageFault {}
