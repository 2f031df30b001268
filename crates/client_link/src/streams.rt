//! A reader and a writer of std as a link.

ghost use Rattle.std.specs.Prelude.{◌≡◌, [], None};
ghost use Rattle.std.specs.Io.Buffered.{writer_contents, writer_buffer};
ghost use Rattle.client_link.specs.Links.{LinkState};

use crate::link::{Link, LinkFault};
use std::io::{BufWriter, Read, Write};

/// A reader, and a writer behind a buffer, with their calls counted. What waits is what stands in the buffer.
pub struct Streams<R, W: Write + Drop> {
    input: R,
    output: BufWriter<W>,
    reads: u64,
    failures: u64,
    stalls: u64,
    /// How many calls had failed when the link was ended, if it was.
    ended: Option<u64>,
}

impl<R: Drop, W: Write + Drop> Drop for Streams<R, W> {
    fn drop(self) {
        let Streams {
            input: _,
            output: _,
            reads: _,
            failures: _,
            stalls: _,
            ended: _,
        } = self;
    }
}

impl<R: Read, W: Write + Drop> Streams<R, W> {
    /// No call was counted yet.
    pub fn new(input: R, output: BufWriter<W>) -> Streams<R, W>
        ensures { ⟦<Streams<R, W> as Link>⟧.told result ≡ record { left = R.remaining input; held = writer_contents W.contents output; waiting = writer_buffer output; reads = 0; failures = 0; stalls = 0; ended = None } }
    {
        Streams {
            input,
            output,
            reads: 0,
            failures: 0,
            stalls: 0,
            ended: None,
        }
    }

    /// The reader and the writer, as the calls left them.
    pub fn into_inner(self) -> (R, BufWriter<W>)
        ensures left { R.remaining result.0 ≡ (⟦<Streams<R, W> as Link>⟧.told self).left }
        ensures held { writer_contents W.contents result.1 ≡ (⟦<Streams<R, W> as Link>⟧.told self).held }
        ensures waiting { writer_buffer result.1 ≡ (⟦<Streams<R, W> as Link>⟧.told self).waiting }
    {
        let Streams {
            input,
            output,
            reads: _,
            failures: _,
            stalls: _,
            ended: _,
        } = self;
        (input, output)
    }
}

impl<R: Read, W: Write + Drop> Link for Streams<R, W> {
    ghost told = { λ s. record { left = R.remaining s.input; held = writer_contents W.contents s.output; waiting = writer_buffer s.output; reads = s.reads; failures = s.failures; stalls = s.stalls; ended = s.ended } };

    fn read(&mut self, buf: &mut [u8]) -> Result<usize, LinkFault> {
        self.reads = self.reads.saturating_add(1);
        if self.ended.is_some() {
            self.failures = self.failures.saturating_add(1);
            return Err(LinkFault::Device);
        }
        match self.input.read(buf) {
            Ok(n) => Ok(n),
            Err(_) => {
                self.failures = self.failures.saturating_add(1);
                Err(LinkFault::Device)
            }
        }
    }

    fn write(&mut self, buf: &[u8]) -> Result<usize, LinkFault> {
        if self.ended.is_some() {
            self.failures = self.failures.saturating_add(1);
            return Err(LinkFault::Device);
        }
        match self.output.write(buf) {
            Ok(n) => {
                if n == 0 && !buf.is_empty() {
                    self.stalls = self.stalls.saturating_add(1);
                }
                Ok(n)
            }
            Err(_) => {
                self.failures = self.failures.saturating_add(1);
                Err(LinkFault::Device)
            }
        }
    }

    fn flush(&mut self) -> Result<(), LinkFault> {
        if self.ended.is_some() {
            self.failures = self.failures.saturating_add(1);
            return Err(LinkFault::Device);
        }
        match self.output.flush() {
            Ok(()) => Ok(()),
            Err(_) => {
                self.failures = self.failures.saturating_add(1);
                Err(LinkFault::Device)
            }
        }
    }

    fn end(&mut self) {
        if self.ended.is_none() {
            self.ended = Some(self.failures);
        }
    }

    fn failures(&self) -> u64 {
        self.failures
    }
}
