//! What the program reads of files itself: a seed, and an audit file.

ghost use Rattle.std.specs.Prelude.{◌≡◌, ◌<◌, ◌≤◌, ◌+◌, ◌-◌, length, take, Err, IfOk, IfErr, IfSome};
ghost use Rattle.hotel_streams.specs.declared.bytes.TheConstants.{READ_BYTES};
ghost use Rattle.hotel_streams.specs.Calls.{CountsReads, OnErrOf};
ghost use Rattle.hotel_streams.specs.Reads.{IsPrefixUpTo, ReadsWhile};
ghost use Rattle.hotel_program.specs.Faults.{IsOfReading, IsOfSeed};
ghost use Rattle.hotel_program.specs.Files.{read_fault};
ghost use Rattle.hotel_program.specs.declared.faults.Fault.TheVariants.{File, Seed};

use crate::faults::Fault;
use hotel_lock::AUDIT_BYTES;
use hotel_streams::{IoCalls, ReadFault, read_prefix};
use std::alloc::Global;
use std::io::Read;

/// How many bytes a seed has.
pub const SEED_BYTES: usize = 32;

/// The fault of a file that couldn't be read.
fn read_fault(fault: ReadFault) -> Fault
    ensures { result ≡ read_fault fault }
{
    match fault {
        ReadFault::Read => Fault::File,
        ReadFault::Memory => Fault::Memory,
    }
}

/// The first `SEED_BYTES` that the reader has. Where it has fewer, that is the fault.
pub fn seed_in<R: Read>(
    alloc: Global,
    reader: &mut R,
    calls: &mut IoCalls,
) -> Result<[u8; SEED_BYTES], Fault>
    ensures seed { IfOk result (λ seed. IfSome (R.remaining reader.old) (λ input. seed ≡ take SEED_BYTES input)) }
    ensures short { result ≡ Err Seed → IfSome (R.remaining reader.old) (λ input. length input < SEED_BYTES) }
    ensures wanted { ReadsWhile (λ came. length came ≤ SEED_BYTES - 1) (R.remaining reader.old)
        (R.remaining reader.new) }
    ensures which { IfErr result IsOfSeed }
    ensures counted { CountsReads calls.old calls.new (OnErrOf result File) }
{
    match read_prefix(alloc, reader, SEED_BYTES - 1, calls) {
        Ok(bytes) => match bytes.as_slice().first_chunk::<SEED_BYTES>() {
            Some(seed) => Ok(*seed),
            None => Err(Fault::Seed),
        },
        Err(why) => Err(read_fault(why)),
    }
}

/// The bytes of an audit file: all that the reader has; or, where it has more than such a file may have, more than
/// that, so that it is known to have too many.
pub fn audit_file_in<R: Read>(
    alloc: Global,
    reader: &mut R,
    calls: &mut IoCalls,
) -> Result<Vec<u8>, Fault>
    ensures bytes { IfOk result (λ bytes. IfSome (R.remaining reader.old) (IsPrefixUpTo AUDIT_BYTES bytes.items)) }
    ensures few { IfOk result (λ bytes. length bytes.items ≤ AUDIT_BYTES + READ_BYTES) }
    ensures wanted { ReadsWhile (λ came. length came ≤ AUDIT_BYTES) (R.remaining reader.old) (R.remaining reader.new) }
    ensures which { IfErr result IsOfReading }
    ensures counted { CountsReads calls.old calls.new (OnErrOf result File) }
{
    match read_prefix(alloc, reader, AUDIT_BYTES, calls) {
        Ok(bytes) => Ok(bytes),
        Err(why) => Err(read_fault(why)),
    }
}
