//! The calls of a coordinator over a disk, a line of input each.

ghost use Rattle.std.specs.Prelude.{◌≡◌, ◌≤◌, length, IfOk};
ghost use Rattle.report_line.specs.Cutting.{line_limit};
ghost use Rattle.report_line.specs.Replies.{HasText};
ghost use Rattle.desk.specs.Files.{IsShort};
ghost use Rattle.coordinator.specs.Passes.{ledger_parts};

use super::over_disk::{PARTS, coordinator_over, put_closed};
use crate::fault::{Fault, Result};
use crate::output::Output;
use coordinator::{CallFault, Coordinator, Gate, OpenGate, Pass};
use line_disk::{Disk, FileDisk, Modelled};
use record_file::RecordReach;
use report_line::{Call, LineFault, Reply, read_line, write_reply};
use std::alloc::Global;
use std::io::{Read, Write};
use std::marker::Brand;
use std::sync::Wait;
use std::sync::ledger::{Blank, Ledger};
use std::thread::Threads;

/// How many bytes a line has at most.
const LONGEST: usize = 8192;

/// The disk of a record file.
pub type File = FileDisk<Modelled>;

// Makes the turn of a call.
fn turn<L: Ledger, D: Disk, G: Gate + Sync, R: Wait + Threads + Sync>(
    rt: &R,
    coordinator: &Coordinator<L, D>,
    pass: &mut Pass<L>,
    gate: &G,
    call: Call,
) -> Result<(), CallFault>
    requires { IsShort call }
{
    match call {
        Call::Line(names) => coordinator.line(rt, pass, gate, names),
        Call::Garbage => coordinator.garbage_line(rt, pass, gate),
        other => coordinator.call(rt, pass, other),
    }
}

// The call of a line.
fn read(alloc: Global, line: &[u8]) -> Result<Call, LineFault>
    requires { length line.now ≤ line_limit }
    ensures { IfOk result IsShort }
{
    match read_line(alloc, line) {
        Ok(call) => Ok(call),
        Err(LineFault::Grammar) => Ok(Call::Bad(1)),
        Err(LineFault::Memory) => Err(LineFault::Memory),
    }
}

// Makes the turn of a line.
fn ask_once<L: Ledger, D: Disk, G: Gate + Sync, R: Wait + Threads + Sync>(
    rt: &R,
    coordinator: &Coordinator<L, D>,
    pass: &mut Pass<L>,
    gate: &G,
    line: &[u8],
) -> Result<()>
    requires { length line.now ≤ line_limit }
{
    let call = read(coordinator.alloc(), line)?;
    Ok(turn(rt, coordinator, pass, gate, call)?)
}

// The same, at the second try if memory was missing.
fn ask<L: Ledger, D: Disk, G: Gate + Sync, R: Wait + Threads + Sync, W: Write + Drop>(
    rt: &R,
    coordinator: &Coordinator<L, D>,
    pass: &mut Pass<L>,
    gate: &G,
    line: &[u8],
    out: &mut Output<W>,
) -> Result<()>
    requires { length line.now ≤ line_limit }
{
    match ask_once(rt, coordinator, pass, gate, line) {
        Err(Fault::Call(CallFault::Memory)) => {
            out.put_again(b"call");
            ask_once(rt, coordinator, pass, gate, line)
        }
        done => done,
    }
}

// Writes a reply with its LF.
fn put_reply<W: Write + Drop>(alloc: Global, reply: &Reply, out: &mut Output<W>)
    requires { HasText reply.now }
{
    out.put_made(write_reply(alloc, reply));
    out.put(b"\n");
}

// Writes what the pass shows last.
fn put_shown<L: Ledger, W: Write + Drop>(alloc: Global, pass: &Pass<L>, out: &mut Output<W>) {
    let Some(shown) = pass.shown() else {
        return;
    };
    match shown {
        Reply::Taken(_) => {}
        Reply::Accepted(_)
        | Reply::Old(_)
        | Reply::No { .. }
        | Reply::Bad(_)
        | Reply::Line(_)
        | Reply::Fail(_)
        | Reply::State { .. }
        | Reply::Settled { .. }
        | Reply::Bye => put_reply(alloc, shown, out),
    }
}

/// Makes the turn of each line, and writes what the pass shows for it.
pub fn put_replies<L: Ledger, D: Disk, G: Gate + Sync, R: Wait + Threads + Sync, W: Write + Drop>(
    rt: &R,
    coordinator: &Coordinator<L, D>,
    pass: &mut Pass<L>,
    gate: &G,
    input: &[u8],
    out: &mut Output<W>,
) -> Result<()> {
    for line in input.split(|b| *b == b'\n') {
        if line.len() > 0 && line.len() <= LONGEST {
            ask(rt, coordinator, pass, gate, line, out)?;
            put_shown(coordinator.alloc(), pass, out);
        }
    }
    Ok(())
}

// Answers the lines by one pass; answers that.
fn answer_by<L: Ledger, D: Disk, R: Wait + Threads + Sync, W: Write + Drop>(
    rt: &R,
    coordinator: &Coordinator<L, D>,
    input: &[u8],
    out: &mut Output<W>,
) -> Result<Vec<Pass<L>>> {
    let mut pass = coordinator.pass(rt)?;
    put_replies(rt, coordinator, &mut pass, &OpenGate, input, out)?;
    let mut passes = Vec::new(coordinator.alloc());
    passes.push(pass)?;
    Ok(passes)
}

/// Answers the lines over a coordinator of its own.
pub fn answer<L: Ledger, D: Disk + Drop, R: Wait + Threads + Sync, W: Write + Drop>(
    rt: &R,
    alloc: Global,
    blank: Blank,
    disk: D,
    input: &[u8],
    out: &mut Output<W>,
) -> Result<()>
    requires name { blank.name ≡ L.name }
    requires parts { (blank.parts ≡ L.parts) × (blank.parts ≡ ledger_parts) }
{
    let coordinator = coordinator_over::<L, _, W>(alloc, blank, disk, 1, out)?;
    let passes = answer_by(rt, &coordinator, input, out)?;
    put_closed(coordinator, passes, out)
}

/// Makes the turns of the lines of standard input over the record file of this path, and writes what is shown for each; closes the
/// coordinator, and writes how it ended and what the front of a desk is that is opened over its disk.
pub fn answer_all<T: Wait + Threads + Sync>(
    rt: &HostRuntime,
    threads: &T,
    path: &str,
) -> Result<()> {
    let alloc = rt.alloc();
    let mut input = Vec::new(alloc);
    rt.reader().read_to_end(&mut input)?;
    let disk: File = FileDisk::open(rt, alloc, path, &mut RecordReach::new())?;
    answer::<Brand, _, _, _>(
        threads,
        alloc,
        Blank::new(PARTS),
        disk,
        &input,
        &mut Output::new(rt.stdout()),
    )
}
