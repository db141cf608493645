//! What is around the program: files, ports and databases.

use crate::command_line::FileName;
use crate::faults::Fault;
use crate::files::SEED_BYTES;
use crate::listener::Listener;
use hotel_rows::FileFault;
use std::alloc::Global;

/// What is around the program. What it holds is not known to contracts: they say what was asked of it, and in which
/// order.
pub trait Surroundings {
    ghost use Rattle.std.specs.Prelude.{ℕ, ◌≡◌, List, Option, Result, IfErr, option_map};
    ghost use Rattle.std.specs.Result.{result_map_both};
    ghost use Rattle.hotel_program.specs.Faults.{IsOfReading, IsOfSeed};
    ghost use Rattle.hotel_program.specs.declared.faults.Fault.{Fault, TheVariants.Port};

    /// What takes the connections of a port.
    type Port: Listener + Drop;

    /// The meanings that may follow one after a seed was read: of the named file, or of the system's source.
    ghost seed_read: { Self → Option (List ℕ) → Result (List ℕ) Fault → Self → Type 0 };

    /// The same of an audit file.
    ghost file_read: { Self → List ℕ → Result (List ℕ) Fault → Self → Type 0 };

    /// The same of a port.
    ghost port_bound: { Self → ℕ → Result Self.Port Fault → Self → Type 0 };

    /// The first `SEED_BYTES` of the file, or of the system's source of random bytes where none is named.
    fn read_seed(
        &mut self,
        alloc: Global,
        name: Option<&FileName>,
    ) -> Result<[u8; SEED_BYTES], Fault>
        ensures read { seed_read self.old (option_map (λ n. n.now) name.entry) result self.new }
        ensures which { IfErr result IsOfSeed };

    /// The bytes of an audit file; or, where it has too many, more than it may have.
    fn read_file(&mut self, alloc: Global, name: &FileName) -> Result<Vec<u8>, Fault>
        ensures read { file_read self.old name.now (result_map_both (λ bytes. bytes.items)
            (λ why. why) result) self.new }
        ensures which { IfErr result IsOfReading };

    /// Listens on a port of the loopback address.
    fn listen(&mut self, port: u16) -> Result<Self::Port, Fault>
        ensures bound { port_bound self.old port result self.new }
        ensures which { IfErr result (λ why. why ≡ Port) };
}

/// Surroundings with databases, over which books of the type `B` are opened.
///
/// `B` is a parameter, so that a caller has one way alone to name these books.
pub trait Databases<B>: Surroundings {
    ghost use Rattle.std.specs.Prelude.{ℕ, List, Result};
    ghost use Rattle.hotel_rows.specs.declared.open_fault.FileFault.{FileFault};

    /// The meanings that may follow one after books of the named database were opened.
    ghost books_opened: { Self → List ℕ → Result B FileFault → Self → Type 0 };

    /// The same after books were given back.
    ghost books_closed: { Self → B → Self → Type 0 };

    /// The books of a database, which is made a desk where it is missing or has no tables.
    fn open_books(&mut self, alloc: Global, name: &FileName) -> Result<B, FileFault>
        ensures opened { books_opened self.old name.now result self.new };

    /// Gives books back.
    fn close_books(&mut self, books: B)
        ensures closed { books_closed self.old books self.new };
}
