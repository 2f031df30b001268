//! A session over a coordinator of a record file, whose link is standard input and output.

ghost use Rattle.std.specs.Prelude.{◌≡◌};
ghost use Rattle.coordinator.specs.Passes.{ledger_parts};

use super::over_disk::{PARTS, coordinator_over, put_closed};
use super::shared::File;
use crate::fault::Result;
use crate::output::Output;
use client_link::{Link, Streams};
use coordinator::{Coordinator, OpenGate, Pass};
use line_disk::FileDisk;
use record_file::RecordReach;
use session::{SessionEnd, SessionEndKind, serve_link};
use std::alloc::Global;
use std::io::{BufWriter, Read, Write};
use std::marker::Brand;
use std::sync::Wait;
use std::sync::ledger::{Blank, Ledger};
use std::thread::Threads;

// The word for a kind of end.
fn word_of(kind: SessionEndKind) -> &'static str {
    match kind {
        SessionEndKind::End => "END",
        SessionEndKind::Bye => "BYE",
        SessionEndKind::TooLong => "TOO-LONG",
        SessionEndKind::Worn => "WORN",
        SessionEndKind::Memory => "MEMORY",
        SessionEndKind::ReadFailed => "READ-FAILED",
        SessionEndKind::WriteFailed => "WRITE-FAILED",
        SessionEndKind::Endless => "ENDLESS",
        SessionEndKind::Foreign => "FOREIGN",
    }
}

// Serves the client of this link. It stands alone, since its clause is long.
fn serve_client<L: Ledger, R: Wait + Threads + Sync, K: Link>(
    rt: &R,
    coordinator: &Coordinator<L, File>,
    pass: &mut Pass<L>,
    link: &mut K,
) -> SessionEnd {
    serve_link(rt, coordinator, pass, &OpenGate, link)
}

// Serves the client of these streams, with the buffer that a link of the program has. Answers how the session ended.
fn serve_streams<L: Ledger, R: Wait + Threads + Sync, I: Read + Drop, W: Write + Drop>(
    rt: &R,
    coordinator: &Coordinator<L, File>,
    pass: &mut Pass<L>,
    input: I,
    output: W,
) -> Result<SessionEnd> {
    let output = BufWriter::new(coordinator.alloc(), output)?;
    let mut link = Streams::new(input, output);
    let end = serve_client(rt, coordinator, pass, &mut link);
    let (_input, output) = link.into_inner();
    // What could not be handed on is not tried once more, as it would be where the buffer is dropped.
    let (_output, _unwritten) = output.into_parts();
    Ok(end)
}

// Writes how a session ended.
fn put_kind<W: Write + Drop>(alloc: Global, end: SessionEnd, out: &mut Output<W>) {
    let SessionEnd { kind, replies } = end;
    let word = word_of(kind);
    out.put_made(format!(in alloc; "{word} {replies}\n"));
}

// Serves the client by one pass, and writes how the session ended; answers the pass.
fn serve_by<L: Ledger, R: Wait + Threads + Sync, I: Read + Drop, W: Write + Drop, E: Write + Drop>(
    rt: &R,
    coordinator: &Coordinator<L, File>,
    input: I,
    output: W,
    told: &mut Output<E>,
) -> Result<Vec<Pass<L>>> {
    let mut pass = coordinator.pass(rt)?;
    let end = serve_streams(rt, coordinator, &mut pass, input, output)?;
    put_kind(coordinator.alloc(), end, told);
    let mut passes = Vec::new(coordinator.alloc());
    passes.push(pass)?;
    Ok(passes)
}

// Serves the client over a coordinator of its own, and tells how that ended.
fn serve_over<
    L: Ledger,
    R: Wait + Threads + Sync,
    I: Read + Drop,
    W: Write + Drop,
    E: Write + Drop,
>(
    rt: &R,
    alloc: Global,
    blank: Blank,
    disk: File,
    input: I,
    output: W,
    told: &mut Output<E>,
) -> Result<()>
    requires name { blank.name ≡ L.name }
    requires parts { (blank.parts ≡ L.parts) × (blank.parts ≡ ledger_parts) }
{
    let coordinator = coordinator_over::<L, _, E>(alloc, blank, disk, 1, told)?;
    let passes = serve_by(rt, &coordinator, input, output, told)?;
    put_closed(coordinator, passes, told)
}

/// Serves the client of standard input and output over a coordinator of the record file of this path. Tells on standard error how the
/// session ended, how many lines it wrote whole, how the coordinator ended, and what the front of a desk is that is opened over its disk.
pub fn serve_one<T: Wait + Threads + Sync>(
    rt: &HostRuntime,
    threads: &T,
    path: &str,
) -> Result<()> {
    let alloc = rt.alloc();
    let disk = FileDisk::open(rt, alloc, path, &mut RecordReach::new())?;
    serve_over::<Brand, _, _, _, _>(
        threads,
        alloc,
        Blank::new(PARTS),
        disk,
        rt.reader(),
        rt.stdout(),
        &mut Output::new(rt.stderr()),
    )
}
