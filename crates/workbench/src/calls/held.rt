//! What the calls are made on: a disk in memory, and mostly a desk over it.

use desk::{Desk, DeskFault};
use line_disk::MemoryDisk;
use std::alloc::{AllocError, Global};
use std::mem;

/// A disk in memory, under a desk or alone.
#[derive(Drop)]
pub enum Held {
    /// A desk is open over it.
    Open(Desk<MemoryDisk>),
    /// No desk is.
    Closed(MemoryDisk),
}

// A desk over a new disk.
fn new_desk(alloc: Global) -> Result<Desk<MemoryDisk>, AllocError> {
    let disk = MemoryDisk::new(alloc, &[])?;
    Desk::open(alloc, disk).map_err(|_| AllocError)
}

// A desk over the disk. One that is open is closed first.
fn opened(alloc: Global, held: Held) -> Result<Desk<MemoryDisk>, (DeskFault, MemoryDisk)> {
    match held {
        Held::Open(desk) => desk.reopen(),
        Held::Closed(disk) => Desk::open(alloc, disk),
    }
}

// The same, with a new list of turns of one that is open.
fn renewed(alloc: Global, held: Held) -> Result<Desk<MemoryDisk>, (DeskFault, MemoryDisk)> {
    match held {
        Held::Open(desk) => desk.renewed(),
        Held::Closed(disk) => Desk::open(alloc, disk),
    }
}

// The disk alone.
fn closed(held: Held) -> MemoryDisk {
    match held {
        Held::Open(desk) => desk.close(),
        Held::Closed(disk) => disk,
    }
}

impl Held {
    /// A desk over a new disk.
    pub fn new(alloc: Global) -> Result<Held, AllocError> {
        Ok(Held::Open(new_desk(alloc)?))
    }

    // Hands out what is held. An empty disk comes in its place.
    fn take(&mut self, alloc: Global) -> Result<Held, AllocError> {
        let empty = MemoryDisk::new(alloc, &[])?;
        Ok(mem::replace(self, Held::Closed(empty)))
    }

    // Holds the desk, or the disk that came back in its place. Answers why it came back.
    fn hold(
        &mut self,
        made: Result<Desk<MemoryDisk>, (DeskFault, MemoryDisk)>,
    ) -> Option<DeskFault> {
        let (held, fault) = match made {
            Ok(desk) => (Held::Open(desk), None),
            Err((fault, disk)) => (Held::Closed(disk), Some(fault)),
        };
        *self = held;
        fault
    }

    /// Whether a desk is open.
    pub fn is_open(&self) -> bool {
        matches!(self, Held::Open(_))
    }

    /// Opens a desk over the disk, behind the end of one that is open. Answers the fault where none was opened.
    pub fn open(&mut self, alloc: Global) -> Result<Option<DeskFault>, AllocError> {
        let held = self.take(alloc)?;
        Ok(self.hold(opened(alloc, held)))
    }

    /// Begins a new list of turns, if a desk is open, and else opens one. Answers the fault where the desk was closed or none was opened.
    pub fn renew(&mut self, alloc: Global) -> Result<Option<DeskFault>, AllocError> {
        let held = self.take(alloc)?;
        Ok(self.hold(renewed(alloc, held)))
    }

    /// Closes the desk, if one is open.
    pub fn close(&mut self, alloc: Global) -> Result<(), AllocError> {
        let held = self.take(alloc)?;
        *self = Held::Closed(closed(held));
        Ok(())
    }

    /// The number of reports that the desk has accepted; none where no desk is open.
    pub fn front(&self) -> u32 {
        match self {
            Held::Open(desk) => desk.front(),
            Held::Closed(_) => 0,
        }
    }
}
