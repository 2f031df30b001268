//! What a tool writes.

use crate::fault::{Fault, Result};
use std::alloc::AllocError;
use std::convert::AsSlice;
use std::io::Write;

/// What a tool writes to a stream. Once a part of it fails nothing more is written, and the tool ends with that fault.
#[derive(Drop)]
pub struct Output<W: Write + Drop> {
    stream: W,
    fault: Option<Fault>,
}

impl<W: Write + Drop> Output<W> {
    /// Nothing was written yet.
    pub fn new(stream: W) -> Output<W> {
        Output {
            stream,
            fault: None,
        }
    }

    /// Writes these bytes.
    pub fn put(&mut self, bytes: &[u8]) {
        if self.fault.is_some() {
            return;
        }
        if let Err(error) = self.stream.write_all(bytes) {
            self.fault = Some(Fault::Io(error));
        }
    }

    /// Writes a text, if there was memory for it.
    pub fn put_made<T: AsSlice<u8> + Drop>(&mut self, text: Result<T, AllocError>) {
        match text {
            Ok(text) => self.put(text.as_slice()),
            Err(error) => self.fault = Some(self.fault.unwrap_or(Fault::Memory(error))),
        }
    }

    /// Writes that this is done again, since memory was missing for it.
    pub fn put_again(&mut self, what: &[u8]) {
        self.put(b"AGAIN ");
        self.put(what);
        self.put(b"\n");
    }

    /// Whether all was written.
    pub fn end(&self) -> Result<()> {
        match self.fault {
            Some(fault) => Err(fault),
            None => Ok(()),
        }
    }

    /// The stream alone.
    pub fn into_stream(self) -> W {
        let Output { stream, fault: _ } = self;
        stream
    }
}
