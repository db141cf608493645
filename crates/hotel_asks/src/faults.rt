//! What faults print.
ghost use Rattle.std.specs.Prelude.{Some};
ghost use Rattle.hotel_asks.specs.Faults.{ask_fault_text, value_fault_text};

use crate::values::{AskFault, ValueFault};
use std::error::Error;
use std::fmt;

impl fmt::Display for ValueFault {
    ghost output = { λ why. Some (value_fault_text why) };

    fn fmt<W: fmt::Write>(&self, f: &mut fmt::Formatter<W>) -> fmt::Result {
        match self {
            ValueFault::Number => f.write_str("too few or too many values"),
            ValueFault::Value(name) => {
                let name = name.text();
                write!(f, "unread {name}")
            }
        }
    }
}

impl Error for ValueFault {}

impl fmt::Display for AskFault {
    ghost output = { λ why. Some (ask_fault_text why) };

    fn fmt<W: fmt::Write>(&self, f: &mut fmt::Formatter<W>) -> fmt::Result {
        match self {
            AskFault::Values(why) => write!(f, "{why}"),
            AskFault::Memory => f.write_str("memory"),
        }
    }
}

impl Error for AskFault {}
