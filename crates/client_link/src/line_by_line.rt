//! A stream that can end between any two lines.

ghost use Rattle.std.specs.Prelude.{◌≡◌, ◌≤◌, ◌<◌, ◌++◌, IfOk, length, take};

use crate::connection::HangUp;
use crate::end_request::EndRequest;
use memchr::memchr;
use std::alloc::{AllocError, Global};
use std::io::{self, Read};

/// So many bytes are read at once.
const ROOM: usize = 8192;

/// Bytes that were read and not given yet, and the request at which they are given no more.
pub struct Unread {
    request: EndRequest,
    /// Of these bytes so many were read, and so many of those given.
    bytes: Vec<u8>,
    read: usize,
    given: usize,
    ghost in_order: { given ≤ read },
    ghost within: { read ≤ length bytes.items },
}

impl Drop for Unread {
    fn drop(self) {
        let Unread {
            request: _,
            bytes: _,
            read: _,
            given: _,
        } = self;
    }
}

impl Unread {
    ghost use Rattle.client_link.specs.Connections.{not_given};

    /// Nothing was read yet.
    fn new(alloc: Global, request: EndRequest) -> Result<Unread, AllocError> {
        let mut bytes = Vec::with_capacity(alloc, ROOM)?;
        bytes.resize(ROOM, 0u8)?;
        Ok(Unread {
            request,
            bytes,
            read: 0,
            given: 0,
        })
    }

    /// Reads on, where all that was read has been given.
    fn fill<S: Read>(&mut self, stream: &mut S) -> io::Result<()>
        ensures { self.old.given < self.old.read → not_given self.new ≡ not_given self.old }
    {
        if self.given < self.read {
            return Ok(());
        }
        self.given = 0;
        self.read = 0;
        self.read = stream.read(self.bytes.as_mut_slice())?;
        Ok(())
    }

    /// Gives bytes up to an LF and with it, as far as there are some and there is room for them.
    fn give(&mut self, buf: &mut [u8]) -> usize
        ensures bound { result ≤ length buf.new }
        ensures given { not_given self.old ≡ take result buf.new ++ not_given self.new }
    {
        let line = match memchr(b'\n', &self.bytes[self.given..self.read]) {
            Some(at) => at + 1,
            None => self.read - self.given,
        };
        let n = line.min(buf.len());
        buf[..n].copy_from_slice(&self.bytes[self.given..self.given + n]);
        self.given += n;
        n
    }
}

/// A stream that gives at most one line at a read, and is at its end once that is requested: so who answers its lines stops between two of
/// them. Where nobody can request it, it is the stream itself.
pub struct LineByLine<S> {
    stream: S,
    unread: Option<Unread>,
}

impl<S: Drop> Drop for LineByLine<S> {
    fn drop(self) {
        let LineByLine {
            stream: _,
            unread: _,
        } = self;
    }
}

impl<S: Read + Drop> LineByLine<S> {
    /// Nothing was read yet.
    pub fn new(
        alloc: Global,
        stream: S,
        end: Option<EndRequest>,
    ) -> Result<LineByLine<S>, AllocError>
        ensures { IfOk result (λ s. s.stream ≡ stream) }
    {
        let unread = match end {
            Some(request) => Some(Unread::new(alloc, request)?),
            None => None,
        };
        Ok(LineByLine { stream, unread })
    }
}

impl<S: Read> Read for LineByLine<S> {
    ghost use Rattle.client_link.specs.Connections.{before_end};

    ghost remaining = { λ s. before_end s.unread (S.remaining s.stream) };

    fn read(&mut self, buf: &mut [u8]) -> io::Result<usize> {
        let Some(unread) = &mut self.unread else {
            return self.stream.read(buf);
        };
        if unread.request.is_made() {
            return Ok(0);
        }
        unread.fill(&mut self.stream)?;
        Ok(unread.give(buf))
    }
}

impl<S: HangUp> HangUp for LineByLine<S> {
    fn hang_up(self) {
        let LineByLine { stream, unread: _ } = self;
        stream.hang_up();
    }
}
