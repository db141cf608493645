//! What faults print.
ghost use Rattle.std.specs.Prelude.{Some, codes};
ghost use Rattle.keycard_rules.specs.Faults.{draw_text, look_text, recode_text};

use crate::chain::{Memory, RecodeFault};
use crate::draw::DrawFault;
use crate::issued::LookFault;
use std::error::Error;
use std::fmt;

impl fmt::Display for Memory {
    ghost output = { λ _. Some (codes "memory") };

    fn fmt<W: fmt::Write>(&self, f: &mut fmt::Formatter<W>) -> fmt::Result {
        f.write_str("memory")
    }
}

impl Error for Memory {}

impl fmt::Display for RecodeFault {
    ghost output = { λ why. Some (recode_text why) };

    fn fmt<W: fmt::Write>(&self, f: &mut fmt::Formatter<W>) -> fmt::Result {
        f.write_str(match self {
            RecodeFault::HeldDiffers => "HeldDiffers",
            RecodeFault::NotAwaited => "NotAwaited",
        })
    }
}

impl Error for RecodeFault {}

impl fmt::Display for LookFault {
    ghost output = { λ why. Some (look_text why) };

    fn fmt<W: fmt::Write>(&self, f: &mut fmt::Formatter<W>) -> fmt::Result {
        f.write_str(match self {
            LookFault::Memory => "memory",
            LookFault::Store => "store",
        })
    }
}

impl Error for LookFault {}

impl fmt::Display for DrawFault {
    ghost output = { λ why. Some (draw_text why) };

    fn fmt<W: fmt::Write>(&self, f: &mut fmt::Formatter<W>) -> fmt::Result {
        f.write_str(match self {
            DrawFault::NoFreshCode => "NoFreshCode",
            DrawFault::Memory => "memory",
            DrawFault::Store => "store",
        })
    }
}

impl Error for DrawFault {}
