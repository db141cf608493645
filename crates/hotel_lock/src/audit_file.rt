//! Reads an audit file whole.

ghost use Rattle.std.specs.Prelude.{◌≡◌, ◌≢◌, ◌↔◌, ◌<◌, length, map, IfOk, IfErr, Ok, Err};
ghost use Rattle.csv.specs.Records.{fields_of};
ghost use Rattle.hotel_lock.specs.AuditFile.{audit_lines, file_records};

use crate::header::columns_of;
use crate::line::{Line, read_line};
use csv::{ByteRecord, Error, ReaderBuilder};
use std::alloc::Global;

/// The most bytes of an audit file.
pub const AUDIT_BYTES: usize = 262_144;

/// Why bytes give no lines.
#[derive(Clone, Copy, Debug, PartialEq, Eq)]
pub enum AuditFault {
    /// There are more than `AUDIT_BYTES`.
    TooLarge,
    /// There is no record.
    NoHeader,
    /// The first record isn't the header.
    WrongHeader,
    /// A growth of memory was refused.
    Memory,
}

fn read_records(alloc: Global, bytes: &[u8]) -> Result<Vec<ByteRecord>, Error>
    ensures { IfOk result (λ v. map fields_of v.items ≡ file_records bytes.now) }
{
    let reader = ReaderBuilder::new()
        .has_headers(false)
        .flexible(true)
        .from_reader(alloc, bytes);
    let mut rows = Vec::new(alloc);
    for row in reader.into_byte_records() {
        if rows.push(row?).is_err() {
            return Err(Error::out_of_memory());
        }
    }
    Ok(rows)
}

/// Reads an audit file: at most `AUDIT_BYTES` of CSV. Its first record is `room,fit,count,kind,card,old,new,at`, or the
/// same without `fit`, where each note is of its room's first lock. The lines are the records after it, in order. A
/// byte order mark at the start is dropped.
pub fn read_notes(alloc: Global, bytes: &[u8]) -> Result<Vec<Line>, AuditFault>
    ensures lines { IfOk result (λ v. audit_lines bytes.now ≡ Ok v.items) }
    ensures fault { IfErr result (λ e. e ≢ AuditFault.Memory → audit_lines bytes.now ≡ Err e) }
    ensures large { (result ≡ Err AuditFault.TooLarge) ↔ (AUDIT_BYTES < length bytes.now) }
{
    if bytes.len() > AUDIT_BYTES {
        return Err(AuditFault::TooLarge);
    }
    let Ok(rows) = read_records(alloc, bytes) else {
        return Err(AuditFault::Memory);
    };
    let Some((first, later)) = rows.as_slice().split_first() else {
        return Err(AuditFault::NoHeader);
    };
    let Some(columns) = columns_of(first) else {
        return Err(AuditFault::WrongHeader);
    };
    let mut lines = Vec::new(alloc);
    for row in later {
        if lines.push(read_line(row, columns)).is_err() {
            return Err(AuditFault::Memory);
        }
    }
    Ok(lines)
}
