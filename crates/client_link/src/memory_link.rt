//! A link in memory.

ghost use Rattle.std.specs.Prelude.{◌≡◌, ◌⊎◌, ◌↔◌, ◌<◌, ◌≤◌, [], Some, None, length, drop, IfOk, OnOk, OnErr, IsTrue, ⊤};
ghost use Rattle.std.specs.List.{flat_map};
ghost use Rattle.client_link.specs.Links.{LinkState, IsRead, IsWrite, IsFlush, IsEnd, IsTriedRead, IsTriedFlush};
ghost use Rattle.client_link.specs.Memory.{calls_of, failing_of, IsCall, IsOver, Fails};

use crate::leaving::Leaving;
use crate::link::{Link, LinkFault};
use crate::nonblocking::NonblockingLink;
use crate::service_link::ServiceLink;
use std::alloc::{AllocError, Global};

/// A link in memory. Each read gives bytes of one of the given pieces, what is written is kept, and one call may be planned to fail.
/// A call that fails changes nothing, but it is counted. A write for which memory is wanting fails, and so does each call of a link that
/// was ended.
pub struct MemoryLink {
    /// The bytes of all pieces.
    input: Vec<u8>,
    /// Where the pieces end.
    ends: Vec<usize>,
    /// How many bytes were read.
    at: usize,
    written: Vec<u8>,
    failing: Option<u64>,
    calls: u64,
    reads: u64,
    failures: u64,
    /// How many calls had failed when the link was ended, if it was.
    ended: Option<u64>,
}

impl Drop for MemoryLink {
    fn drop(self) {
        let MemoryLink {
            input: _,
            ends: _,
            at: _,
            written: _,
            failing: _,
            calls: _,
            reads: _,
            failures: _,
            ended: _,
        } = self;
    }
}

/// How many bytes from there on are of the piece that stands there, at most.
fn left_of_piece(ends: &[usize], at: usize) -> usize
    ensures { 0 < result }
{
    for end in ends {
        if at < *end {
            return *end - at;
        }
    }
    usize::MAX
}

/// The bytes from there on.
fn behind(bytes: &[u8], at: usize) -> &[u8]
    ensures { result.now ≡ drop at bytes.now }
{
    if at < bytes.len() { &bytes[at..] } else { &[] }
}

impl MemoryLink {
    /// A link that gives these pieces, with room for so many bytes to be written.
    pub fn new(alloc: Global, pieces: &[&[u8]], room: usize) -> Result<MemoryLink, AllocError>
        ensures told { IfOk result (λ link. ⟦<MemoryLink as Link>⟧.told link ≡ record { left = Some (flat_map (λ p. p.now) pieces.now); held = Some []; waiting = []; reads = 0; failures = 0; stalls = 0; ended = None }) }
        ensures no_call { IfOk result (λ link. calls_of link ≡ 0) }
        ensures no_plan { IfOk result (λ link. failing_of link ≡ None) }
    {
        let mut input = Vec::new(alloc);
        let mut ends = Vec::new(alloc);
        for piece in pieces {
            input.extend_from_slice(piece)?;
            ends.push(input.len())?;
        }
        Ok(MemoryLink {
            input,
            ends,
            at: 0,
            written: Vec::with_capacity(alloc, room)?,
            failing: None,
            calls: 0,
            reads: 0,
            failures: 0,
            ended: None,
        })
    }

    /// Makes the k-th call fail, counted from 1 and from the first call of all, and no other one.
    pub fn fail_call(&mut self, k: u64)
        ensures told { ⟦<MemoryLink as Link>⟧.told self.new ≡ ⟦<MemoryLink as Link>⟧.told self.old }
        ensures plan { failing_of self.new ≡ Some k }
        ensures calls { calls_of self.new ≡ calls_of self.old }
    {
        self.failing = Some(k);
    }

    /// What was written.
    pub fn written(&self) -> &[u8]
        ensures { (⟦<MemoryLink as Link>⟧.told self.now).held ≡ Some result.now }
    {
        self.written.as_slice()
    }

    /// How many calls were made.
    pub fn calls(&self) -> u64
        ensures { result ≡ calls_of self.now }
    {
        self.calls
    }

    /// Whether the last call that was counted fails.
    fn fails(&self) -> bool
        ensures { IsTrue result ↔ ((failing_of self.now ≡ Some (calls_of self.now)) ⊎ IsOver self.now) }
    {
        if self.ended.is_some() {
            return true;
        }
        match self.failing {
            Some(k) => self.calls == k,
            None => false,
        }
    }
}

impl Link for MemoryLink {
    ghost told = { λ s. record { left = Some (drop s.at s.input.items); held = Some s.written.items; waiting = []; reads = s.reads; failures = s.failures; stalls = 0; ended = s.ended } };

    fn read(&mut self, buf: &mut [u8]) -> Result<usize, LinkFault>
        ensures bound { IfOk result (λ n. n ≤ length buf.new) }
        ensures read { IsRead (⟦<MemoryLink as Link>⟧.told self.old) (⟦<MemoryLink as Link>⟧.told self.new) result buf.new }
        ensures call { IsCall self.old self.new }
        ensures ok { OnOk result (¬ Fails self.old) }
        ensures err { OnErr result (Fails self.old) }
    {
        self.calls = self.calls.saturating_add(1);
        self.reads = self.reads.saturating_add(1);
        if self.fails() {
            self.failures = self.failures.saturating_add(1);
            return Err(LinkFault::Device);
        }
        let rest = behind(&self.input, self.at);
        let n = left_of_piece(&self.ends, self.at)
            .min(rest.len())
            .min(buf.len());
        let (front, _) = rest.split_at(n);
        buf[..n].copy_from_slice(front);
        self.at += n;
        Ok(n)
    }

    fn write(&mut self, buf: &[u8]) -> Result<usize, LinkFault>
        ensures bound { IfOk result (λ n. n ≤ length buf.now) }
        ensures write { IsWrite (⟦<MemoryLink as Link>⟧.told self.old) (⟦<MemoryLink as Link>⟧.told self.new) result buf.now }
        ensures call { IsCall self.old self.new }
        ensures ok { OnOk result (¬ Fails self.old) }
        ensures all { IfOk result (λ n. n ≡ length buf.now) }
    {
        self.calls = self.calls.saturating_add(1);
        if self.fails() || self.written.extend_from_slice(buf).is_err() {
            self.failures = self.failures.saturating_add(1);
            return Err(LinkFault::Device);
        }
        Ok(buf.len())
    }

    fn flush(&mut self) -> Result<(), LinkFault>
        ensures flush { IsFlush (⟦<MemoryLink as Link>⟧.told self.old) (⟦<MemoryLink as Link>⟧.told self.new) result }
        ensures call { IsCall self.old self.new }
        ensures ok { OnOk result (¬ Fails self.old) }
        ensures err { OnErr result (Fails self.old) }
    {
        self.calls = self.calls.saturating_add(1);
        if self.fails() {
            self.failures = self.failures.saturating_add(1);
            return Err(LinkFault::Device);
        }
        Ok(())
    }

    fn end(&mut self)
        ensures end { IsEnd (⟦<MemoryLink as Link>⟧.told self.old) (⟦<MemoryLink as Link>⟧.told self.new) }
        ensures calls { calls_of self.new ≡ calls_of self.old }
        ensures plan { failing_of self.new ≡ failing_of self.old }
    {
        if self.ended.is_none() {
            self.ended = Some(self.failures);
        }
    }

    fn failures(&self) -> u64 {
        self.failures
    }
}

impl NonblockingLink for MemoryLink {
    ghost finds_nothing = { λ old new. ⊥ };

    ghost takes_no_more = { λ old new. ⊥ };

    fn try_read(&mut self, buf: &mut [u8]) -> Result<Option<usize>, LinkFault> {
        let n = self.read(buf)?;
        Ok(Some(n))
    }

    fn try_flush(&mut self) -> Result<bool, LinkFault> {
        self.flush()?;
        Ok(true)
    }
}

impl ServiceLink for MemoryLink {
    ghost leaves_nothing = { λ link. ⊤ };

    fn let_go(self) -> Option<Leaving> {
        None
    }
}
