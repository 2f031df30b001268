//! Passes of a coordinator over a disk in memory.

ghost use Rattle.std.specs.Prelude.{◌≡◌};
ghost use Rattle.coordinator.specs.Passes.{ledger_parts};

use super::over_disk::{PARTS, coordinator_over, put_closed};
use crate::fault::{Fault, Result};
use crate::output::Output;
use coordinator::{CallFault, Coordinator, Pass, Unclosed};
use line_disk::MemoryDisk;
use report_line::Call;
use std::alloc::Global;
use std::io::Write;
use std::marker::Brand;
use std::sync::Wait;
use std::sync::ledger::{Blank, Ledger};

// Makes a turn. It stands alone, since its clause is long.
fn turn<L: Ledger, R: Wait>(
    rt: &R,
    coordinator: &Coordinator<L, MemoryDisk>,
    pass: &mut Pass<L>,
) -> Result<(), CallFault> {
    coordinator.call(rt, pass, Call::Bad(1))
}

// Takes a pass, which makes a turn.
fn take<L: Ledger, R: Wait>(
    rt: &R,
    coordinator: &Coordinator<L, MemoryDisk>,
    passes: &mut Vec<Pass<L>>,
) -> Result<()> {
    let mut pass = coordinator.pass(rt)?;
    turn(rt, coordinator, &mut pass)?;
    passes.push(pass)?;
    Ok(())
}

// Takes so many passes, each of which makes a turn, or writes why there are no more.
fn take_many<L: Ledger, R: Wait, W: Write + Drop>(
    rt: &R,
    coordinator: &Coordinator<L, MemoryDisk>,
    passes: &mut Vec<Pass<L>>,
    count: u32,
    out: &mut Output<W>,
) -> Result<()> {
    for _ in 0..count {
        match take(rt, coordinator, passes) {
            Ok(()) => {}
            Err(Fault::Pass(fault)) => {
                out.put_made(format!(in coordinator.alloc(); "{fault}\n"));
                return Ok(());
            }
            Err(fault) => return Err(fault),
        }
    }
    Ok(())
}

// Closes a coordinator whose close is refused, and writes why. What is handed back is as it was.
fn close_short<L: Ledger, W: Write + Drop>(
    alloc: Global,
    coordinator: Coordinator<L, MemoryDisk>,
    passes: Vec<Pass<L>>,
    out: &mut Output<W>,
) -> Option<(Coordinator<L, MemoryDisk>, Vec<Pass<L>>)> {
    match coordinator.close(passes) {
        Ok(_) => None,
        Err(
            Unclosed {
                fault,
                coordinator,
                passes,
            },
        ) => {
            out.put_made(format!(in alloc; "{fault}\n"));
            Some((coordinator, passes))
        }
    }
}

// Closes the coordinator with this pass, too.
fn close_with<L: Ledger, W: Write + Drop>(
    coordinator: Coordinator<L, MemoryDisk>,
    mut passes: Vec<Pass<L>>,
    last: Pass<L>,
    out: &mut Output<W>,
) -> Result<()> {
    passes.push(last)?;
    put_closed(coordinator, passes, out)
}

// Closes the coordinator without this pass, and then with it.
fn close_without<L: Ledger, W: Write + Drop>(
    alloc: Global,
    coordinator: Coordinator<L, MemoryDisk>,
    passes: Vec<Pass<L>>,
    last: Pass<L>,
    out: &mut Output<W>,
) -> Result<()> {
    let number = last.number();
    out.put_made(format!(in alloc; "PASS {number}\n"));
    match close_short(alloc, coordinator, passes, out) {
        Some((coordinator, passes)) => close_with(coordinator, passes, last, out),
        None => out.end(),
    }
}

// Closes the coordinator without its last pass, and then with it.
fn close_twice<L: Ledger, W: Write + Drop>(
    alloc: Global,
    coordinator: Coordinator<L, MemoryDisk>,
    mut passes: Vec<Pass<L>>,
    out: &mut Output<W>,
) -> Result<()> {
    match passes.pop() {
        Some(last) => close_without(alloc, coordinator, passes, last, out),
        None => out.end(),
    }
}

// Takes so many passes of a coordinator of its own, and closes it.
fn take_all<L: Ledger, R: Wait, W: Write + Drop>(
    rt: &R,
    alloc: Global,
    blank: Blank,
    count: u32,
    out: &mut Output<W>,
) -> Result<()>
    requires name { blank.name ≡ L.name }
    requires parts { (blank.parts ≡ L.parts) × (blank.parts ≡ ledger_parts) }
{
    let disk = MemoryDisk::new(alloc, &[])?;
    let coordinator = coordinator_over::<L, _, W>(alloc, blank, disk, 1, out)?;
    let mut passes = Vec::new(alloc);
    take_many(rt, &coordinator, &mut passes, count, out)?;
    close_twice(alloc, coordinator, passes, out)
}

/// Takes so many passes of a coordinator, each of which makes a turn, or tells why there are no more. Tells the number of the last one, why
/// the coordinator is not closed without it, and how it ends with all.
pub fn put_passes<T: Wait>(rt: &HostRuntime, threads: &T, count: u32) -> Result<()> {
    let alloc = rt.alloc();
    take_all::<Brand, _, _>(
        threads,
        alloc,
        Blank::new(PARTS),
        count,
        &mut Output::new(rt.stdout()),
    )
}
