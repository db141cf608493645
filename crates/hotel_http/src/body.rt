//! The body of a request, and the interim answer before it.

ghost use Rattle.std.specs.Prelude.{◌≡◌, ◌++◌, true, IfOk, OnOk, OnErr, IfSome};
ghost use Rattle.hotel_streams.specs.Calls.{CountsReads, OnErrOf};
ghost use Rattle.hotel_streams.specs.{Bytes.Writes, declared.bytes.ReadFault.TheVariants.Read};
ghost use Rattle.hotel_http.specs.Body.{HoldsBody, ReadsBody, interim_where};

use hotel_streams::{IoCalls, ReadFault, WriteFailed, read_more, write_bytes};
use std::alloc::Global;
use std::io::{Read, Write};

/// Writes the interim answer that the client awaits before it sends the body; nothing where it awaits none.
pub(crate) fn write_interim<W: Write>(
    writer: &mut W,
    awaited: bool,
    calls: &mut IoCalls,
) -> Result<(), WriteFailed>
    ensures writes { Writes (W.contents writer.old) (W.contents writer.new) (interim_where awaited)
        calls.old calls.new result }
    ensures awaited { OnErr result (awaited ≡ true) }
{
    if !awaited {
        return Ok(());
    }
    write_bytes(writer, b"HTTP/1.1 100 Continue\r\n\r\n", calls)
}

/// Reads until the body is there or the input ends.
fn fill_body<R: Read>(
    reader: &mut R,
    body: &mut Vec<u8>,
    size: usize,
    calls: &mut IoCalls,
) -> Result<(), ReadFault>
    ensures holds { OnOk result (IfSome (R.remaining reader.old)
        (λ left. HoldsBody (body.old.items ++ left) size body.new.items)) }
    ensures wanted { ReadsBody body.old.items size (R.remaining reader.old) (R.remaining reader.new) }
    ensures calls { CountsReads calls.old calls.new (OnErrOf result Read) }
{
    while body.len() < size {
        if read_more(reader, body, calls)? == 0 {
            return Ok(());
        }
    }
    Ok(())
}

/// Reads the body, of which the bytes that are begun came with the head. More bytes than its size may be read, and
/// fewer where the input ends.
pub(crate) fn read_body<R: Read>(
    alloc: Global,
    reader: &mut R,
    begun: &[u8],
    size: usize,
    calls: &mut IoCalls,
) -> Result<Vec<u8>, ReadFault>
    ensures holds { IfOk result (λ body. IfSome (R.remaining reader.old)
        (λ left. HoldsBody (begun.now ++ left) size body.items)) }
    ensures wanted { ReadsBody begun.now size (R.remaining reader.old) (R.remaining reader.new) }
    ensures calls { CountsReads calls.old calls.new (OnErrOf result Read) }
{
    let mut body = Vec::from_slice(alloc, begun)?;
    fill_body(reader, &mut body, size, calls)?;
    Ok(body)
}
