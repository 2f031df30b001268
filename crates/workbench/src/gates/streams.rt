//! Streams of clients that wait for each other, and that give and take so many bytes at a time.

use super::gate::wait_for;
use std::alloc::Global;
use std::io::{self, Read, Write};
use std::sync::atomic::{AtomicU64, Ordering};

/// Where the first reads of two clients wait for each other.
#[derive(Drop)]
pub struct Meeting {
    one: AtomicU64,
    other: AtomicU64,
    /// How often a client waited in vain.
    late: AtomicU64,
}

impl Meeting {
    /// Nobody has come yet.
    pub fn new() -> Meeting {
        Meeting {
            one: AtomicU64::new(0),
            other: AtomicU64::new(0),
            late: AtomicU64::new(0),
        }
    }

    /// How often a client waited in vain.
    pub fn late(&self) -> u64 {
        self.late.load(Ordering::SeqCst)
    }

    // Tells that a client has come, the one or the other, and waits until both have.
    fn meet(&self, is_one: bool) {
        let (mine, other) = if is_one {
            (&self.one, &self.other)
        } else {
            (&self.other, &self.one)
        };
        mine.store(1, Ordering::SeqCst);
        if !wait_for(other) {
            self.late.fetch_add(1, Ordering::SeqCst);
        }
    }
}

/// Who a client is.
#[derive(Clone, Copy)]
pub enum Who {
    /// It is alone, and waits for nobody.
    Alone,
    /// The one of two.
    One,
    /// The other of two.
    Other,
}

/// What a client sends. Its first read waits until that of the other client has begun.
#[derive(Drop)]
pub struct Sent<'t, 'm> {
    rest: &'t [u8],
    most: usize,
    meeting: &'m Meeting,
    who: Who,
}

impl<'t, 'm> Sent<'t, 'm> {
    /// This text, so many bytes at a time.
    pub fn new(text: &'t [u8], most: usize, meeting: &'m Meeting, who: Who) -> Sent<'t, 'm> {
        Sent {
            rest: text,
            most,
            meeting,
            who,
        }
    }

    // Waits for the other client, the first time.
    fn wait(&mut self) {
        match self.who {
            Who::Alone => {}
            Who::One => self.meeting.meet(true),
            Who::Other => self.meeting.meet(false),
        }
        self.who = Who::Alone;
    }
}

impl<'t, 'm> Read for Sent<'t, 'm> {
    fn read(&mut self, buf: &mut [u8]) -> io::Result<usize> {
        self.wait();
        let n = self.most.min(self.rest.len()).min(buf.len());
        let (front, behind) = self.rest.split_at(n);
        buf[..n].copy_from_slice(front);
        self.rest = behind;
        Ok(n)
    }
}

/// What a client got.
#[derive(Drop)]
pub struct Got {
    text: Vec<u8>,
    most: usize,
}

impl Got {
    /// Nothing yet, and so many bytes at a time.
    pub fn new(alloc: Global, most: usize) -> Got {
        Got {
            text: Vec::new(alloc),
            most,
        }
    }

    /// What it got.
    pub fn text(&self) -> &[u8] {
        &self.text
    }
}

impl Write for Got {
    fn write(&mut self, buf: &[u8]) -> io::Result<usize> {
        let n = self.most.min(buf.len());
        self.text.extend_from_slice(&buf[..n])?;
        Ok(n)
    }

    fn flush(&mut self) -> io::Result<()> {
        Ok(())
    }
}
