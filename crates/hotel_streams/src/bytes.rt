//! Loops over one reader or one writer.

ghost use Rattle.std.specs.Prelude.{◌≡◌, IfSome, IsErrOf, ◌<◌, ◌≤◌, ◌+◌, length, IfOk, OnOk, OnErr};
ghost use Rattle.std.specs.Io.KnownBytes.{IsAtEnd};
ghost use Rattle.hotel_streams.specs.Reads.{IsPrefixUpTo, ReadsWhile};
ghost use Rattle.hotel_streams.specs.Calls.{CountsReads, OnErrOf};
ghost use Rattle.hotel_streams.specs.Bytes.{Writes, joined, ReadsOnto, ConsumesAtMost, whole_fault};
ghost use Rattle.hotel_streams.specs.declared.bytes.ReadFault.TheVariants.{Read, Memory};
ghost use Rattle.hotel_streams.specs.declared.bytes.TheConstants.{READ_BYTES};

use crate::calls::{IoCalls, ReadFailed, WriteFailed, read_some, write_some};
use std::alloc::{AllocError, Global};
use std::io::{Read, Write};

/// Writes all the bytes, by as many writes as it takes. After a fault the writer took a prefix of
/// them. It fails where a write fails or takes no byte, and at the last interruption.
pub fn write_bytes<W: Write>(
    writer: &mut W,
    bytes: &[u8],
    calls: &mut IoCalls,
) -> Result<(), WriteFailed>
    ensures writes { Writes (W.contents writer.old) (W.contents writer.new) bytes.now calls.old calls.new result }
{
    let mut done = 0;
    while done < bytes.len() {
        let taken = write_some(writer, &bytes[done..], calls)?;
        done += taken;
    }
    Ok(())
}

/// Writes parts, one after the other. After a fault the writer took a prefix of them joined. It
/// fails where `write_bytes` does.
pub fn write_parts<W: Write>(
    writer: &mut W,
    parts: &[&[u8]],
    calls: &mut IoCalls,
) -> Result<(), WriteFailed>
    ensures writes { Writes (W.contents writer.old) (W.contents writer.new) (joined parts.now)
        calls.old calls.new result }
{
    for part in parts {
        write_bytes(writer, part, calls)?;
    }
    Ok(())
}

/// Why nothing more was read: a read failed, or memory for its bytes was refused.
#[derive(Debug, Drop)]
pub enum ReadFault {
    Read,
    Memory,
}

impl From<ReadFailed> for ReadFault {
    ghost from_gives = { λ _ e. e ≡ Read };

    fn from(_: ReadFailed) -> ReadFault {
        ReadFault::Read
    }
}

impl From<AllocError> for ReadFault {
    ghost from_gives = { λ _ e. e ≡ Memory };

    fn from(_: AllocError) -> ReadFault {
        ReadFault::Memory
    }
}

/// The most bytes that one read asks for.
pub const READ_BYTES: usize = 4096;

/// One read, whose bytes are put behind those that are there. It answers how many came: at most
/// `READ_BYTES`, and 0 only at the end of the input. After Memory the bytes of that read are lost.
pub fn read_more<R: Read>(
    reader: &mut R,
    bytes: &mut Vec<u8>,
    calls: &mut IoCalls,
) -> Result<usize, ReadFault>
    ensures ok { IfOk result (λ n. ReadsOnto (R.remaining reader.old)
        (R.remaining reader.new) bytes.old.items bytes.new.items n) }
    ensures most { IfOk result (λ n. n ≤ READ_BYTES) }
    ensures end { IfOk result (λ n. n ≡ 0 → IsAtEnd (R.remaining reader.new)) }
    ensures lost { OnErr result (ConsumesAtMost READ_BYTES (R.remaining reader.old) (R.remaining reader.new)) }
    ensures err { OnErr result (bytes.new.items ≡ bytes.old.items) }
    ensures calls { CountsReads calls.old calls.new (OnErrOf result Read) }
{
    let mut chunk = [0; READ_BYTES];
    let got = read_some(reader, &mut chunk, calls)?;
    bytes.extend_from_slice(&chunk[..got])?;
    Ok(got)
}

/// Reads all the bytes that the reader has; or, where it has more than `most`, more than `most` of them. It stops with
/// Read or Memory as `read_more` does.
pub fn read_prefix<R: Read>(
    alloc: Global,
    reader: &mut R,
    most: usize,
    calls: &mut IoCalls,
) -> Result<Vec<u8>, ReadFault>
    ensures prefix { IfOk result (λ bytes. IfSome (R.remaining reader.old) (IsPrefixUpTo most bytes.items)) }
    ensures few { IfOk result (λ bytes. length bytes.items ≤ most + READ_BYTES) }
    ensures end { IfOk result (λ bytes. length bytes.items ≤ most → IsAtEnd (R.remaining reader.new)) }
    ensures wanted { ReadsWhile (λ came. length came ≤ most) (R.remaining reader.old) (R.remaining reader.new) }
    ensures calls { CountsReads calls.old calls.new (OnErrOf result Read) }
{
    let mut bytes = Vec::new(alloc);
    while bytes.len() <= most {
        let got = read_more(reader, &mut bytes, calls)?;
        if got == 0 {
            return Ok(bytes);
        }
    }
    Ok(bytes)
}

/// Why an input was not read whole: a read failed, it has more bytes than the limit, or memory for them was refused.
#[derive(Debug, Drop)]
pub enum WholeFault {
    Read,
    TooLarge,
    Memory,
}

impl From<ReadFault> for WholeFault {
    ghost from_gives = { λ fault e. e ≡ whole_fault fault };

    fn from(fault: ReadFault) -> WholeFault {
        match fault {
            ReadFault::Read => WholeFault::Read,
            ReadFault::Memory => WholeFault::Memory,
        }
    }
}

/// Reads all the bytes that the reader has, at most `limit`. It stops with Read or Memory as
/// `read_more` does, and with TooLarge as soon as more than `limit` bytes came.
pub fn read_whole<R: Read>(
    alloc: Global,
    reader: &mut R,
    limit: usize,
    calls: &mut IoCalls,
) -> Result<Vec<u8>, WholeFault>
    ensures whole { IfOk result (λ bytes. IfSome (R.remaining reader.old) (λ input. bytes.items ≡ input)) }
    ensures within { IfOk result (λ bytes. length bytes.items ≤ limit) }
    ensures end { OnOk result (IsAtEnd (R.remaining reader.new)) }
    ensures large { IsErrOf result WholeFault.TooLarge → IfSome (R.remaining reader.old)
        (λ input. limit < length input) }
    ensures wanted { ReadsWhile (λ came. length came ≤ limit) (R.remaining reader.old) (R.remaining reader.new) }
    ensures calls { CountsReads calls.old calls.new (OnErrOf result WholeFault.Read) }
{
    let bytes = read_prefix(alloc, reader, limit, calls)?;
    if bytes.len() > limit {
        return Err(WholeFault::TooLarge);
    }
    Ok(bytes)
}
