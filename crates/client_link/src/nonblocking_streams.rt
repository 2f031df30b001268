//! A reader and a writer that do not wait, as a link.

ghost use Rattle.std.specs.Prelude.{◌≡◌, ◌≤◌, [], None, IfOk, length};
ghost use Rattle.std.specs.Io.KnownBytes.{Keeps, ReadConsumes, append_known};
ghost use Rattle.client_link.specs.Links.{LinkState};

use crate::link::{Link, LinkFault};
use crate::nonblocking::NonblockingLink;
use crate::outbox::{Outbox, Sent};
use std::alloc::Global;
use std::io::{self, ErrorKind, Read, Write};

/// A reader, and a writer without a buffer of its own, with what waits to be written in memory. Each call of the reader and of the writer
/// answers at once: with `WouldBlock` where it would have to wait, which `read` and `flush` of a link take for a failure.
pub struct NonblockingStreams<R, W> {
    input: R,
    output: Outbox<W>,
    reads: u64,
    failures: u64,
    /// How many calls had failed when the link was ended, if it was.
    ended: Option<u64>,
}

impl<R: Drop, W: Drop> Drop for NonblockingStreams<R, W> {
    fn drop(self) {
        let NonblockingStreams {
            input: _,
            output: _,
            reads: _,
            failures: _,
            ended: _,
        } = self;
    }
}

/// How often a read is made that signals interrupt.
const MOST_READS: u32 = 1_048_576;

/// Reads once more where a signal came first.
fn read_uninterrupted<R: Read>(input: &mut R, buf: &mut [u8]) -> io::Result<usize>
    ensures bound { IfOk result (λ n. n ≤ length buf.new) }
    ensures bytes { ReadConsumes (R.remaining input.old) (R.remaining input.new) result buf.new }
{
    for _ in 0..MOST_READS {
        match input.read(buf) {
            Ok(n) => return Ok(n),
            Err(error) => match error.kind() {
                ErrorKind::Interrupted => {}
                _ => return Err(error),
            },
        }
    }
    Err(io::Error::from(ErrorKind::Interrupted))
}

impl<R: Read, W: Write> NonblockingStreams<R, W> {
    /// No call was counted yet, and nothing waits.
    pub fn new(alloc: Global, input: R, output: W) -> NonblockingStreams<R, W>
        ensures { ⟦<NonblockingStreams<R, W> as Link>⟧.told result ≡ record { left = R.remaining input; held = W.contents output; waiting = []; reads = 0; failures = 0; stalls = 0; ended = None } }
    {
        NonblockingStreams {
            input,
            output: Outbox::new(alloc, output),
            reads: 0,
            failures: 0,
            ended: None,
        }
    }

    /// The reader and the writer. What waits is not written any more.
    pub fn into_inner(self) -> (R, W)
        ensures left { R.remaining result.0 ≡ (⟦<NonblockingStreams<R, W> as Link>⟧.told self).left }
        ensures held { append_known (W.contents result.1) (⟦<NonblockingStreams<R, W> as Link>⟧.told self).waiting ≡ (⟦<NonblockingStreams<R, W> as Link>⟧.told self).held }
    {
        let NonblockingStreams {
            input,
            output,
            reads: _,
            failures: _,
            ended: _,
        } = self;
        (input, output.into_writer())
    }
}

impl<R: Read, W: Write> Link for NonblockingStreams<R, W> {
    ghost use Rattle.client_link.specs.Outboxes.{unsent, taken};

    ghost told = { λ s. record { left = R.remaining s.input; held = taken W.contents s.output; waiting = unsent s.output; reads = s.reads; failures = s.failures; stalls = 0; ended = s.ended } };

    fn read(&mut self, buf: &mut [u8]) -> Result<usize, LinkFault> {
        self.reads = self.reads.saturating_add(1);
        if self.ended.is_none()
            && let Ok(n) = self.input.read(buf)
        {
            return Ok(n);
        }
        self.failures = self.failures.saturating_add(1);
        Err(LinkFault::Device)
    }

    fn write(&mut self, buf: &[u8]) -> Result<usize, LinkFault> {
        if self.ended.is_none()
            && let Ok(()) = self.output.take(buf)
        {
            return Ok(buf.len());
        }
        self.failures = self.failures.saturating_add(1);
        Err(LinkFault::Device)
    }

    fn flush(&mut self) -> Result<(), LinkFault> {
        if self.ended.is_none()
            && let Sent::All = self.output.send()
        {
            return Ok(());
        }
        self.failures = self.failures.saturating_add(1);
        Err(LinkFault::Device)
    }

    fn end(&mut self) {
        if self.ended.is_none() {
            self.ended = Some(self.failures);
        }
    }

    fn failures(&self) -> u64 {
        self.failures
    }
}

impl<R: Read, W: Write> NonblockingLink for NonblockingStreams<R, W> {
    ghost finds_nothing = { λ old new. old.ended ≡ None };

    ghost takes_no_more = { λ old new. old.ended ≡ None };

    fn try_read(&mut self, buf: &mut [u8]) -> Result<Option<usize>, LinkFault> {
        if self.ended.is_none() {
            match read_uninterrupted(&mut self.input, buf) {
                Ok(n) => {
                    self.reads = self.reads.saturating_add(1);
                    return Ok(Some(n));
                }
                Err(error) => match error.kind() {
                    ErrorKind::WouldBlock => return Ok(None),
                    _ => {}
                },
            }
        }
        self.reads = self.reads.saturating_add(1);
        self.failures = self.failures.saturating_add(1);
        Err(LinkFault::Device)
    }

    fn try_flush(&mut self) -> Result<bool, LinkFault> {
        if self.ended.is_none() {
            match self.output.send() {
                Sent::All => return Ok(true),
                Sent::Part => return Ok(false),
                Sent::Fault => {}
            }
        }
        self.failures = self.failures.saturating_add(1);
        Err(LinkFault::Device)
    }
}
