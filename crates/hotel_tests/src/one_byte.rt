//! A reader and a writer over memory that go on by one byte a call: so each byte has a call of its own.
use std::alloc::Global;
use std::io::{Read, Result, Write};

/// The most bytes of one call.
const PIECE: usize = 1;

/// A reader of these bytes.
#[derive(Drop)]
pub(crate) struct OneByteReader<'a> {
    left: &'a [u8],
}

impl<'a> OneByteReader<'a> {
    pub(crate) fn new(bytes: &'a [u8]) -> OneByteReader<'a> {
        OneByteReader { left: bytes }
    }
}

impl<'a> Read for OneByteReader<'a> {
    fn read(&mut self, buf: &mut [u8]) -> Result<usize> {
        let most = PIECE.min(buf.len());
        self.left.read(&mut buf[..most])
    }
}

/// A writer that keeps what it took.
#[derive(Drop)]
pub(crate) struct OneByteWriter {
    written: Vec<u8>,
}

impl OneByteWriter {
    pub(crate) fn new(alloc: Global) -> OneByteWriter {
        OneByteWriter {
            written: Vec::new(alloc),
        }
    }

    /// What it took.
    pub(crate) fn written(&self) -> &[u8] {
        self.written.as_slice()
    }
}

impl Write for OneByteWriter {
    fn write(&mut self, buf: &[u8]) -> Result<usize> {
        let most = PIECE.min(buf.len());
        self.written.extend_from_slice(&buf[..most])?;
        Ok(most)
    }

    fn flush(&mut self) -> Result<()> {
        Ok(())
    }
}
