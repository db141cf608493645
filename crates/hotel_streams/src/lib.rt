//! Loops over one reader or one writer, and the reads and writes of one call. The crate knows no hotel.
//!
//! - src: bytes, calls; specs: Bytes, Calls, Reads, Asked: a writer took all of some bytes or a prefix of them; which
//!   calls were interrupted or failed; when a reader is read, and how often it is asked again.
//! - src: faults, laws; specs: Faults: what faults print; the limits.
//! - src: test_streams; TestStreams: readers and writers for tests, of which a call goes wrong.
#![tactic(auto)]

mod bytes;
mod calls;
mod faults;
mod laws;
mod test_streams;

pub use bytes::{
    READ_BYTES, ReadFault, WholeFault, read_more, read_prefix, read_whole, write_bytes, write_parts,
};
pub use calls::{IoCalls, LAST_INTERRUPTION, ReadFailed, WriteFailed};
pub use test_streams::{
    FailingReader, FailingWriter, FullWriter, InterruptedReader, InterruptedWriter,
};
