//! A connection as a link.

ghost use Rattle.std.specs.Prelude.{◌≡◌, IfOk, None, []};
ghost use Rattle.std.specs.Io.Buffered.{writer_contents, writer_buffer};

use crate::end_request::EndRequest;
use crate::half::Half;
use crate::line_by_line::LineByLine;
use crate::link::{Link, LinkFault};
use crate::looks::look;
use crate::patience::Patient;
use crate::patient_writer::PatientWriter;
use crate::screen::Screened;
use std::alloc::{AllocError, Global};
use std::io::{BufWriter, Read, Write};
use std::mem;
use std::net::TcpStream;
use std::snapshot::Snapshot;
use std::sync::Arc;
use std::time::{Clock, Duration};

/// What can be given back in order.
pub trait HangUp {
    /// Gives it back: the other end sees the end, and gets what was sent before.
    fn hang_up(self);
}

/// A reader, and a writer behind a buffer, or where the link was ended what they were then.
#[derive(Drop)]
pub enum Wire<R, W: Write + Drop> {
    /// The reader and the writer.
    Open(R, BufWriter<W>),
    /// What they were at the end, for clauses alone, and how many calls had failed by then.
    Ended(Snapshot<R>, Snapshot<BufWriter<W>>, u64),
}

/// A connection as a link, which is given back where the link ends. What waits is what stands in the buffer.
pub struct Connection<R, W: Write + Drop> {
    wire: Wire<R, W>,
    reads: u64,
    failures: u64,
    stalls: u64,
}

impl<R: Drop, W: Write + Drop> Drop for Connection<R, W> {
    fn drop(self) {
        let Connection {
            wire: _,
            reads: _,
            failures: _,
            stalls: _,
        } = self;
    }
}

/// The connection of a client. A client that rests longer than the limit, from one LF to the next, fails at its next read, as does
/// one that takes nothing for so long at a write. Of a browser nothing is read. Once the end is requested, no line is given any more.
pub type ClientConnection<C> = Connection<Screened<LineByLine<Patient<Half, C>>>, PatientWriter>;

/// One holder more of a request, if there is one.
fn share_end(end: &Option<EndRequest>) -> Result<Option<EndRequest>, AllocError> {
    match end {
        Some(end) => Ok(Some(end.share()?)),
        None => Ok(None),
    }
}

impl<C: Clock + Drop> Connection<Screened<LineByLine<Patient<Half, C>>>, PatientWriter> {
    /// The connection over this stream. What is handed on is sent at once. The limit, if there is one, is not zero.
    pub fn of_client(
        alloc: Global,
        clock: C,
        stream: TcpStream,
        limit: Option<Duration>,
        end: &Option<EndRequest>,
    ) -> Result<ClientConnection<C>, AllocError>
        ensures { IfOk result (λ link. ⟦<ClientConnection<C> as Link>⟧.told link ≡ record { left = None; held = None; waiting = []; reads = 0; failures = 0; stalls = 0; ended = None }) }
    {
        // A connection that is gone by now, whatever its options, is told by its reads and writes.
        let _sent_at_once = stream.set_nodelay(true);
        let most = match end {
            Some(_) => Some(look()),
            None => limit,
        };
        let _limited = stream.set_write_timeout(most);
        let stream = Arc::new(alloc, stream)?;
        let writer = PatientWriter::new(Half(Arc::try_clone(&stream)?), limit, share_end(end)?);
        let Ok(output) = BufWriter::new(alloc, writer) else {
            return Err(AllocError);
        };
        let patient = Patient::new(clock, Half(stream), limit, share_end(end)?);
        let lines = LineByLine::new(alloc, patient, share_end(end)?)?;
        Ok(Connection::new(Screened::new(lines), output))
    }
}

impl<R: Read + HangUp, W: Write + Drop> Connection<R, W> {
    /// No call was counted yet.
    pub fn new(input: R, output: BufWriter<W>) -> Connection<R, W>
        ensures { ⟦<Connection<R, W> as Link>⟧.told result ≡ record { left = R.remaining input; held = writer_contents W.contents output; waiting = writer_buffer output; reads = 0; failures = 0; stalls = 0; ended = None } }
    {
        Connection {
            wire: Wire::Open(input, output),
            reads: 0,
            failures: 0,
            stalls: 0,
        }
    }
}

impl<R: Read + HangUp, W: Write + Drop> Link for Connection<R, W> {
    ghost use Rattle.client_link.specs.Connections.{input_of, output_of, failed_at_end};

    ghost told = { λ s. record { left = R.remaining (input_of s.wire); held = writer_contents W.contents (output_of s.wire); waiting = writer_buffer (output_of s.wire); reads = s.reads; failures = s.failures; stalls = s.stalls; ended = failed_at_end s.wire } };

    fn read(&mut self, buf: &mut [u8]) -> Result<usize, LinkFault> {
        self.reads = self.reads.saturating_add(1);
        if let Wire::Open(input, _) = &mut self.wire
            && let Ok(n) = input.read(buf)
        {
            return Ok(n);
        }
        self.failures = self.failures.saturating_add(1);
        Err(LinkFault::Device)
    }

    fn write(&mut self, buf: &[u8]) -> Result<usize, LinkFault> {
        if let Wire::Open(_, output) = &mut self.wire
            && let Ok(n) = output.write(buf)
        {
            if n == 0 && !buf.is_empty() {
                self.stalls = self.stalls.saturating_add(1);
            }
            return Ok(n);
        }
        self.failures = self.failures.saturating_add(1);
        Err(LinkFault::Device)
    }

    fn flush(&mut self) -> Result<(), LinkFault> {
        if let Wire::Open(_, output) = &mut self.wire
            && let Ok(()) = output.flush()
        {
            return Ok(());
        }
        self.failures = self.failures.saturating_add(1);
        Err(LinkFault::Device)
    }

    fn end(&mut self) {
        let Wire::Open(input, output) = &self.wire else {
            return;
        };
        let last = Wire::Ended(Snapshot::of(input), Snapshot::of(output), self.failures);
        if let Wire::Open(input, output) = mem::replace(&mut self.wire, last) {
            // What waits is not written: a buffer that is dropped would do that.
            let (_writer, _waiting) = output.into_parts();
            input.hang_up();
        }
    }

    fn failures(&self) -> u64 {
        self.failures
    }
}
