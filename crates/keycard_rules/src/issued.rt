//! What knows the codes that were issued, asked before a new one is given out.
ghost use Rattle.std.specs.Prelude.{◌≡◌, false, IfOk};
ghost use Rattle.keycard_rules.specs.{Words.is_one_of, Leaves.Looks, Leaves.told_by};

use crate::code::Code;
use crate::kept::Kept;

/// Why a look-up has no answer.
#[derive(Clone, Copy, Debug, PartialEq, Eq)]
pub enum LookFault {
    /// A growth was refused.
    Memory,
    /// A call of the store failed.
    Store,
}

/// What knows the codes that were issued.
pub trait Issued: Kept {
    /// Whether a code was issued.
    fn is_issued(&mut self, code: Code) -> Result<bool, LookFault>
        ensures answer { Self.is_honest self.new → IfOk result (λ yes. yes ≡ is_one_of code (Self.issued self.old)) }
        ensures looks { Looks Self.Kept false self.old (told_by result) self.new };
}
