//! The calls of a coordinator over a disk in memory that fails.

ghost use Rattle.std.specs.Prelude.{◌≡◌};

use super::over_disk::PARTS;
use super::shared::answer;
use crate::fault::Result;
use crate::output::Output;
use line_disk::{Effect, MemoryDisk};
use std::alloc::Global;
use std::io::Read;
use std::marker::Brand;
use std::sync::Wait;
use std::sync::ledger::Blank;
use std::thread::Threads;

// A disk in memory whose call of this number fails.
fn disk_of(alloc: Global, call: u32, effect: Effect) -> Result<MemoryDisk> {
    let mut disk = MemoryDisk::new(alloc, &[])?;
    disk.fail_call(call as usize, effect)?;
    Ok(disk)
}

/// Makes the turns of the lines of standard input over a disk in memory, of which the call of this number fails, and writes what is shown for
/// each; closes the coordinator, and writes how it ended and what the front of a desk is that is opened over its disk.
pub fn answer_all<T: Wait + Threads + Sync>(
    rt: &HostRuntime,
    threads: &T,
    call: u32,
    effect: Effect,
) -> Result<()> {
    let alloc = rt.alloc();
    let mut input = Vec::new(alloc);
    rt.reader().read_to_end(&mut input)?;
    answer::<Brand, _, _, _>(
        threads,
        alloc,
        Blank::new(PARTS),
        disk_of(alloc, call, effect)?,
        &input,
        &mut Output::new(rt.stdout()),
    )
}
