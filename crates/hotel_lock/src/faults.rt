//! What faults print.
ghost use Rattle.std.specs.Prelude.{Some};
ghost use Rattle.hotel_lock.specs.Faults.{audit_fault_text, log_fault_text};

use crate::audit_file::AuditFault;
use crate::log_writer::LogFault;
use std::error::Error;
use std::fmt;

impl fmt::Display for AuditFault {
    ghost output = { λ why. Some (audit_fault_text why) };

    fn fmt<W: fmt::Write>(&self, f: &mut fmt::Formatter<W>) -> fmt::Result {
        f.write_str(match self {
            AuditFault::TooLarge => "too large",
            AuditFault::NoHeader => "no header",
            AuditFault::WrongHeader => "wrong header",
            AuditFault::Memory => "memory",
        })
    }
}

impl Error for AuditFault {}

impl fmt::Display for LogFault {
    ghost output = { λ why. Some (log_fault_text why) };

    fn fmt<W: fmt::Write>(&self, f: &mut fmt::Formatter<W>) -> fmt::Result {
        f.write_str(match self {
            LogFault::Memory => "memory",
            LogFault::Write => "write",
        })
    }
}

impl Error for LogFault {}
