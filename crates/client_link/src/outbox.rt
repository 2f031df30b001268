//! A writer, and what waits to be written to it.

ghost use Rattle.std.specs.Prelude.{◌≡◌, ◌≤◌, ◌++◌, [], ℕ, List, length, OnOk, OnErr};
ghost use Rattle.std.specs.Io.KnownBytes.{Keeps};

use std::alloc::{AllocError, Global};
use std::io::{self, ErrorKind, Write};

/// How many writes one call makes at most.
const MOST_WRITES: u32 = 1_048_576;

/// So much room is kept where nothing waits.
const KEPT_ROOM: usize = 8192;

/// How far what waits was written.
#[derive(Clone, Copy)]
pub(crate) enum Sent {
    /// Nothing waits any more.
    All,
    /// The writer takes no more now.
    Part,
    /// The writer failed, or took nothing.
    Fault,
}

/// A writer, and what waits to be written to it, in memory.
#[derive(Drop)]
pub(crate) struct Outbox<W> {
    alloc: Global,
    writer: W,
    bytes: Vec<u8>,
    // So many of the bytes were written.
    sent: usize,
    ghost within: { sent ≤ length bytes.items },
}

impl<W: Write> Outbox<W> {
    ghost use Rattle.client_link.specs.Outboxes.{unsent, taken};

    /// Nothing waits. It takes no memory.
    #[tactic(auto, using(crate::proofs::Outgoing::none_waits))]
    pub(crate) fn new(alloc: Global, writer: W) -> Outbox<W>
        ensures unsent { unsent result ≡ [] }
        ensures taken { taken W.contents result ≡ W.contents writer }
    {
        Outbox {
            alloc,
            writer,
            bytes: Vec::new(alloc),
            sent: 0,
        }
    }

    /// The writer alone. What waits is not written any more.
    pub(crate) fn into_writer(self) -> W
        ensures { result ≡ self.writer }
    {
        let Outbox {
            alloc: _,
            writer,
            bytes: _,
            sent: _,
        } = self;
        writer
    }

    /// Takes a text, which waits from then on.
    pub(crate) fn take(&mut self, text: &[u8]) -> Result<(), AllocError>
        ensures ok { OnOk result (unsent self.new ≡ unsent self.old ++ text.now) }
        ensures err { OnErr result (unsent self.new ≡ unsent self.old) }
        ensures writer { self.new.writer ≡ self.old.writer }
    {
        self.bytes.extend_from_slice(text)
    }

    /// Gives back the memory of what was written, where all was.
    fn forget_sent(&mut self)
        requires { self.old.sent ≡ length self.old.bytes.items }
        ensures none { unsent self.old ≡ [] }
        ensures forgotten { unsent self.new ≡ [] }
        ensures writer { self.new.writer ≡ self.old.writer }
    {
        if self.bytes.capacity() > KEPT_ROOM {
            self.bytes = Vec::new(self.alloc);
        } else {
            self.bytes.clear();
        }
        self.sent = 0;
    }

    /// Writes some of what waits.
    #[tactic(auto, using(crate::proofs::Outgoing::sent_on, crate::proofs::Outgoing::unsent_kept, crate::proofs::Outgoing::sent_front))]
    fn send_some(&mut self) -> io::Result<usize>
        ensures held { Keeps (taken W.contents self.old) (taken W.contents self.new) }
        ensures rest { (gone : List ℕ) × (unsent self.old ≡ gone ++ unsent self.new) }
    {
        let (_, rest) = self.bytes.split_at(self.sent);
        let n = self.writer.write(rest)?;
        self.sent += n;
        Ok(n)
    }

    /// Writes what waits, as far as the writer takes it now.
    pub(crate) fn send(&mut self) -> Sent
        ensures all { result ≡ Sent.All → unsent self.new ≡ [] }
        ensures held { Keeps (taken W.contents self.old) (taken W.contents self.new) }
        ensures rest { (gone : List ℕ) × (unsent self.old ≡ gone ++ unsent self.new) }
    {
        for _ in 0..MOST_WRITES {
            if self.sent == self.bytes.len() {
                self.forget_sent();
                return Sent::All;
            }
            match self.send_some() {
                Ok(0) => return Sent::Fault,
                Ok(_) => {}
                Err(error) => match error.kind() {
                    ErrorKind::Interrupted => {}
                    ErrorKind::WouldBlock => return Sent::Part,
                    _ => return Sent::Fault,
                },
            }
        }
        Sent::Part
    }
}
