//! The versions of a desk's tables, and what a desk's database has.
ghost use Rattle.std.specs.Prelude.{◌≡◌};
ghost use Rattle.hotel_statements.specs.Schema.{version_of, is_whole};

/// Which tables a desk has.
#[derive(Clone, Copy, Debug, PartialEq, Eq)]
pub enum Version {
    /// Eight tables. Each room has the lock that it began with.
    First,
    /// Nine tables, that of the fits behind the eight.
    Second,
}

/// How many indexes of ours a new desk has.
pub const INDEXES: usize = 3;

/// What a desk's database has. An index is no part of a version: of the second one the last ones of ours may be
/// missing.
#[derive(Clone, Copy, Debug, PartialEq, Eq)]
pub enum Layout {
    /// The eight tables of the first version, and no index of ours.
    Eight,
    /// The nine tables of the second one, and the first so many of our indexes.
    Nine(usize),
}

impl Layout {
    /// The version of its tables.
    pub fn version(self) -> Version
        ensures { result ≡ version_of self }
    {
        match self {
            Layout::Eight => Version::First,
            Layout::Nine(_) => Version::Second,
        }
    }

    /// Whether it has all that a new desk has.
    pub fn is_whole(self) -> bool
        ensures { result ≡ is_whole self }
    {
        match self {
            Layout::Eight => false,
            Layout::Nine(count) => count >= INDEXES,
        }
    }
}
