//! Sessions over standard input and output.

use crate::files::{explain_disk, open_file};
use crate::nearing::Nearness;
use crate::reporting::{ReportedDisk, Reporter};
use crate::telling::Teller;
use client_link::Link;
use line_disk::{Disk, FileDisk, Modelled, NullDisk};
use recline::{FlushPolicy, explain_on, run_flushing};
use std::alloc::Global;
use std::sync::Wait;

/// Serves the client over this disk. It stands alone, since its clause is long.
fn run<D: Disk, K: Link, F: Link>(
    alloc: Global,
    disk: D,
    client: &mut K,
    faults: &mut F,
    when: FlushPolicy,
    nearness: &Nearness<'_>,
) -> (u8, D) {
    run_flushing(alloc, disk, client, faults, when, nearness)
}

/// The same where nothing is recorded: replies to the lines of a read go out together.
fn run_over_nothing<K: Link, F: Link>(teller: Teller<'_>, client: &mut K, faults: &mut F) -> u8 {
    let nearness = Nearness::new(teller);
    let (alloc, disk) = (teller.rt.alloc(), NullDisk::new());
    let (status, _disk) = run(
        alloc,
        disk,
        client,
        faults,
        FlushPolicy::EachRead,
        &nearness,
    );
    status
}

/// The same over the record file of this path. Each reply goes out before the next report is recorded, since its syncs take far longer.
fn run_over_disk<T: Wait + Drop, K: Link, F: Link>(
    teller: Teller<'_>,
    path: &str,
    disk: FileDisk<Modelled>,
    client: &mut K,
    faults: &mut F,
) -> u8 {
    let nearness = Nearness::new(teller);
    let (alloc, disk) = (
        teller.rt.alloc(),
        ReportedDisk::new(disk, None::<Reporter<T>>),
    );
    let (status, disk) = run(
        alloc,
        disk,
        client,
        faults,
        FlushPolicy::EachReply,
        &nearness,
    );
    explain_disk(teller, path, &disk.disk);
    status
}

/// Serves the client over the record file of this path, if there is one.
pub(crate) fn run_over_file<T: Wait + Drop, K: Link, F: Link>(
    teller: Teller<'_>,
    file: Option<&str>,
    client: &mut K,
    faults: &mut F,
) -> u8 {
    let Some(path) = file else {
        return run_over_nothing(teller, client, faults);
    };
    match open_file(teller, path) {
        Ok(disk) => run_over_disk::<T, _, _>(teller, path, disk, client, faults),
        Err(status) => status,
    }
}

/// Says of each line of the client which call it is. It stands alone, since its clause is long.
pub(crate) fn explain_lines<K: Link, F: Link>(
    teller: Teller<'_>,
    client: &mut K,
    faults: &mut F,
) -> u8 {
    explain_on(teller.rt.alloc(), client, faults)
}
