//! The command `run`.

ghost use Rattle.std.specs.Prelude.{◌≡◌};
ghost use Rattle.session.specs.declared.flush_policy.FlushPolicy.TheVariants as flush_policies;
ghost use Rattle.recline.specs.Outcome.{Runs, RunsOn, fault_line, status_of};

use crate::telling::{tell, tell_unopened};
use client_link::Link;
use desk::Desk;
use line_disk::Disk;
use session::{FlushPolicy, SessionEndKind, Unwatched, Watch, run_watched};
use std::alloc::Global;

/// The status of the process for a session that ended so over a desk, which may be stopped.
fn status_for(kind: SessionEndKind, stopped: bool) -> u8
    ensures { result ≡ status_of kind stopped }
{
    match kind {
        // No session over a desk ends as Foreign.
        SessionEndKind::Memory
        | SessionEndKind::ReadFailed
        | SessionEndKind::WriteFailed
        | SessionEndKind::Foreign => 3,
        SessionEndKind::End | SessionEndKind::Bye | SessionEndKind::TooLong => if stopped {
            3
        } else {
            0
        },
        SessionEndKind::Worn | SessionEndKind::Endless => if stopped { 3 } else { 5 },
    }
}

/// The fault line for a session that ended so, if it has one.
fn fault_for(kind: SessionEndKind) -> &'static [u8]
    ensures { result.now ≡ fault_line kind }
{
    match kind {
        SessionEndKind::Memory => b"recline: memory\n".as_slice(),
        SessionEndKind::ReadFailed | SessionEndKind::WriteFailed => b"recline: device\n".as_slice(),
        SessionEndKind::End
        | SessionEndKind::Bye
        | SessionEndKind::TooLong
        | SessionEndKind::Worn
        | SessionEndKind::Endless
        | SessionEndKind::Foreign => b"".as_slice(),
    }
}

/// Serves one client over a desk, tells how it ended where that was a fault, and answers the status of the process. A watch is told
/// after each line how far the desk has come.
pub fn run_over<D: Disk, K: Link, F: Link, H: Watch>(
    desk: &mut Desk<D>,
    client: &mut K,
    faults: &mut F,
    when: FlushPolicy,
    watch: &H,
) -> u8
    ensures { Runs D.keeps K.told F.told when client.old client.new faults.old faults.new desk.old desk.new result }
{
    let end = run_watched(desk, client, when, watch);
    tell(faults, fault_for(end.kind));
    status_for(end.kind, desk.stopped())
}

/// The command `run`: opens the record file on a disk, serves one client over the desk of it, whose replies are handed on so, and answers
/// the status of the process and the disk. A watch is told after each line how far the desk has come.
pub fn run_flushing<D: Disk, K: Link, F: Link, H: Watch>(
    alloc: Global,
    disk: D,
    client: &mut K,
    faults: &mut F,
    when: FlushPolicy,
    watch: &H,
) -> (u8, D)
    ensures { RunsOn D.keeps D.view D.failed K.told F.told when disk result.1 client.old client.new faults.old faults.new result.0 }
{
    match Desk::open(alloc, disk) {
        Ok(mut desk) => {
            let status = run_over(&mut desk, client, faults, when, watch);
            desk.recall_lawful();
            (status, desk.close())
        }
        Err((fault, disk)) => {
            tell_unopened(faults, fault);
            (3, disk)
        }
    }
}

/// The same, where the replies to all lines of a read are handed on before the next read.
pub fn run_on<D: Disk, K: Link, F: Link>(
    alloc: Global,
    disk: D,
    client: &mut K,
    faults: &mut F,
) -> (u8, D)
    ensures { RunsOn D.keeps D.view D.failed K.told F.told flush_policies.EachRead disk result.1 client.old client.new faults.old faults.new result.0 }
{
    run_flushing(
        alloc,
        disk,
        client,
        faults,
        FlushPolicy::EachRead,
        &Unwatched,
    )
}
