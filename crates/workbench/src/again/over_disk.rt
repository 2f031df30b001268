//! The coordinator of a tool: how it is made over a disk, and how it ends.

ghost use Rattle.std.specs.Prelude.{◌≡◌, ◌<◌, ◌≤◌, [], IfOk};
ghost use Rattle.coordinator.specs.Passes.{ledger_parts};

use crate::fault::{Fault, Result};
use crate::output::Output;
use coordinator::{CallFault, CloseFault, Coordinator, Ended, Pass, Refused, Unclosed};
use desk::{Desk, DeskFault};
use line_disk::Disk;
use std::alloc::Global;
use std::io::Write;
use std::sync::ledger::{Blank, Ledger};

/// How many parts the ledger of a coordinator has.
pub const PARTS: u64 = 8193;

// A desk over the file on the disk, at the second try.
fn desk_again<D: Disk + Drop, W: Write + Drop>(
    alloc: Global,
    disk: D,
    out: &mut Output<W>,
) -> Result<Desk<D>>
    ensures { IfOk result (λ desk. desk.turns ≡ []) }
{
    out.put_again(b"open");
    match Desk::open(alloc, disk) {
        Ok(desk) => Ok(desk),
        Err((fault, _)) => Err(Fault::Desk(fault)),
    }
}

// A desk over the file on the disk.
fn desk_over<D: Disk + Drop, W: Write + Drop>(
    alloc: Global,
    disk: D,
    out: &mut Output<W>,
) -> Result<Desk<D>>
    ensures { IfOk result (λ desk. desk.turns ≡ []) }
{
    match Desk::open(alloc, disk) {
        Ok(desk) => Ok(desk),
        Err((DeskFault::Memory, disk)) => desk_again(alloc, disk, out),
        Err((fault, _)) => Err(Fault::Desk(fault)),
    }
}

// A coordinator of the desk at the second try, with so many threads for a line.
fn coordinator_again<L: Ledger, D: Disk + Drop, W: Write + Drop>(
    alloc: Global,
    blank: Blank,
    desk: Desk<D>,
    workers: usize,
    out: &mut Output<W>,
) -> Result<Coordinator<L, D>>
    requires name { blank.name ≡ L.name }
    requires parts { (blank.parts ≡ L.parts) × (blank.parts ≡ ledger_parts) }
    requires fresh { desk.turns ≡ [] }
    requires workers { (0 < workers) × (workers ≤ 64) }
{
    out.put_again(b"new");
    match Coordinator::with_workers(alloc, blank, desk, workers) {
        Ok(coordinator) => Ok(coordinator),
        Err(_) => Err(Fault::Call(CallFault::Memory)),
    }
}

// A coordinator of the desk, with so many threads for a line.
fn coordinator_of<L: Ledger, D: Disk + Drop, W: Write + Drop>(
    alloc: Global,
    blank: Blank,
    desk: Desk<D>,
    workers: usize,
    out: &mut Output<W>,
) -> Result<Coordinator<L, D>>
    requires name { blank.name ≡ L.name }
    requires parts { (blank.parts ≡ L.parts) × (blank.parts ≡ ledger_parts) }
    requires fresh { desk.turns ≡ [] }
    requires workers { (0 < workers) × (workers ≤ 64) }
{
    match Coordinator::with_workers(alloc, blank, desk, workers) {
        Ok(coordinator) => Ok(coordinator),
        Err(Refused { blank, desk }) => coordinator_again(alloc, blank, desk, workers, out),
    }
}

/// A coordinator of a desk over this disk, with so many threads for a line, 1 to 64. What finds no memory is tried once more, and that is
/// reported on `out`.
pub fn coordinator_over<L: Ledger, D: Disk + Drop, W: Write + Drop>(
    alloc: Global,
    blank: Blank,
    disk: D,
    workers: usize,
    out: &mut Output<W>,
) -> Result<Coordinator<L, D>>
    requires name { blank.name ≡ L.name }
    requires parts { (blank.parts ≡ L.parts) × (blank.parts ≡ ledger_parts) }
    requires workers { (0 < workers) × (workers ≤ 64) }
{
    let desk = desk_over(alloc, disk, out)?;
    coordinator_of(alloc, blank, desk, workers, out)
}

// Closes the coordinator at the second try.
fn close_again<L: Ledger, D: Disk + Drop, W: Write + Drop>(
    coordinator: Coordinator<L, D>,
    passes: Vec<Pass<L>>,
    out: &mut Output<W>,
) -> Result<Ended<D>> {
    out.put_again(b"close");
    match coordinator.close(passes) {
        Ok(ended) => Ok(ended),
        Err(unclosed) => Err(Fault::Close(unclosed.fault)),
    }
}

// Closes the coordinator.
fn close<L: Ledger, D: Disk + Drop, W: Write + Drop>(
    coordinator: Coordinator<L, D>,
    passes: Vec<Pass<L>>,
    out: &mut Output<W>,
) -> Result<Ended<D>> {
    match coordinator.close(passes) {
        Ok(ended) => Ok(ended),
        Err(
            Unclosed {
                fault: CloseFault::Memory,
                coordinator,
                passes,
            },
        ) => close_again(coordinator, passes, out),
        Err(unclosed) => Err(Fault::Close(unclosed.fault)),
    }
}

// The front of a desk that is opened over the disk.
fn front_over<D: Disk + Drop, W: Write + Drop>(
    alloc: Global,
    disk: D,
    out: &mut Output<W>,
) -> Result<u32> {
    let desk = desk_over(alloc, disk, out)?;
    Ok(desk.front())
}

// Writes how many turns there were, the front at the end, and that of a desk that is opened over the disk.
fn put_end<D: Disk + Drop, W: Write + Drop>(
    alloc: Global,
    ended: Ended<D>,
    out: &mut Output<W>,
) -> Result<()> {
    let Ended { disk, front, turns } = ended;
    out.put_made(format!(in alloc; "TURNS {turns}\nENDED {front}\n"));
    let opened = front_over(alloc, disk, out)?;
    out.put_made(format!(in alloc; "OPENED {opened}\n"));
    out.end()
}

/// Closes the coordinator, and writes how many turns there were, the front at the end, and that of a desk that is opened over its disk. What
/// finds no memory is tried once more, and that is reported on `out`. Answers whether all was written.
pub fn put_closed<L: Ledger, D: Disk + Drop, W: Write + Drop>(
    coordinator: Coordinator<L, D>,
    passes: Vec<Pass<L>>,
    out: &mut Output<W>,
) -> Result<()> {
    let alloc = coordinator.alloc();
    let ended = close(coordinator, passes, out)?;
    put_end(alloc, ended, out)
}
