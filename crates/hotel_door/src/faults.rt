//! Why a word wasn't carried out: what is said of it on standard error, and the exit status.

/// What was asked is done.
pub(crate) const DONE: u8 = 0;

/// The program was given words that it doesn't take.
pub(crate) const USAGE: u8 = 2;

/// The lock did nothing: it stayed shut, has the card not inside, or can make no further note.
pub(crate) const REFUSED: u8 = 3;

/// Why a word wasn't carried out. The lock's file is then as it was.
#[derive(Clone, Copy, Debug, PartialEq, Eq)]
pub(crate) enum Fault {
    /// A growth of memory was refused.
    Memory,
    /// The file couldn't be read or replaced.
    File,
    /// There is a file of the name of a new lock's.
    Exists,
    /// The file isn't the whole file of a lock.
    NotALock,
    /// The file would have more notes than can be read: the log is full.
    Full,
    /// The clock can't be read, or is before the year 2000 or after 2099.
    Clock,
    /// Standard output couldn't be written. The lock's file has been replaced.
    Write,
}

impl Fault {
    /// The line of a fault.
    pub(crate) fn text(self) -> &'static [u8] {
        match self {
            Fault::Memory => b"memory\n",
            Fault::File => b"file\n",
            Fault::Exists => b"file exists\n",
            Fault::NotALock => b"not a lock\n",
            Fault::Full => b"full\n",
            Fault::Clock => b"clock\n",
            Fault::Write => b"write\n",
        }
    }

    /// The exit status.
    pub(crate) fn status(self) -> u8 {
        match self {
            Fault::Memory => 4,
            _ => 5,
        }
    }
}
