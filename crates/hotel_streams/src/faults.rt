//! What faults print.
ghost use Rattle.std.specs.Prelude.{Some};
ghost use Rattle.hotel_streams.specs.Faults.{read_fault_text, whole_fault_text};

use crate::bytes::{ReadFault, WholeFault};
use std::error::Error;
use std::fmt;

impl fmt::Display for ReadFault {
    ghost output = { λ why. Some (read_fault_text why) };

    fn fmt<W: fmt::Write>(&self, f: &mut fmt::Formatter<W>) -> fmt::Result {
        f.write_str(match self {
            ReadFault::Read => "read",
            ReadFault::Memory => "memory",
        })
    }
}

impl Error for ReadFault {}

impl fmt::Display for WholeFault {
    ghost output = { λ why. Some (whole_fault_text why) };

    fn fmt<W: fmt::Write>(&self, f: &mut fmt::Formatter<W>) -> fmt::Result {
        f.write_str(match self {
            WholeFault::Read => "read",
            WholeFault::TooLarge => "too large",
            WholeFault::Memory => "memory",
        })
    }
}

impl Error for WholeFault {}
