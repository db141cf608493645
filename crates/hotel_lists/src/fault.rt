//! Why a list was not written whole.
ghost use Rattle.std.specs.Prelude.{◌≡◌, Some};
ghost use Rattle.hotel_lists.specs.{Faults.fault_text, Faults.told_refusal};
ghost use Rattle.hotel_lists.specs.declared.fault.ListFault.TheVariants.{Write};
ghost use Rattle.hotel_lists.specs.Faults.{list_fault};

use hotel_model::Refusal;
use hotel_streams::WriteFailed;
use keycard_rules::LookFault;
use std::error::Error;
use std::fmt;

/// Why a list was not written whole.
#[derive(Clone, Copy, PartialEq, Eq, Debug)]
pub enum ListFault {
    /// The room of the list isn't there; nothing was written.
    NoRoom,
    /// Memory was refused.
    Memory,
    /// A call of the store failed.
    Store,
    /// A write failed, took no byte, or was the last interrupted one.
    Write,
}

impl fmt::Display for ListFault {
    ghost output = { λ why. Some (fault_text why) };

    fn fmt<W: fmt::Write>(&self, f: &mut fmt::Formatter<W>) -> fmt::Result {
        f.write_str(match self {
            ListFault::NoRoom => "refused 6 NoRoom",
            ListFault::Memory => "memory",
            ListFault::Store => "store",
            ListFault::Write => "write",
        })
    }
}

impl Error for ListFault {}

impl ListFault {
    /// The refusal that it is answered by. None where the writer itself failed.
    pub fn told_refusal(self) -> Option<Refusal>
        ensures { result ≡ told_refusal self }
    {
        match self {
            ListFault::NoRoom => Some(Refusal::NoRoom),
            ListFault::Memory => Some(Refusal::Memory),
            ListFault::Store => Some(Refusal::Store),
            ListFault::Write => None,
        }
    }
}

impl From<WriteFailed> for ListFault {
    ghost from_gives = { λ _ fault. fault ≡ Write };

    fn from(_: WriteFailed) -> ListFault {
        ListFault::Write
    }
}

impl From<LookFault> for ListFault {
    ghost from_gives = { λ cause fault. fault ≡ list_fault cause };

    fn from(cause: LookFault) -> ListFault {
        match cause {
            LookFault::Memory => ListFault::Memory,
            LookFault::Store => ListFault::Store,
        }
    }
}
