//! Tables of needs that are made by several threads.

ghost use Rattle.std.specs.Prelude.{◌<◌, ◌≤◌, length};
ghost use Rattle.chains.specs.Processes.{known};

use super::gate::{HeldGate, Place};
use crate::fault::Result;
use crate::output::Output;
use chains::{Chains, Position};
use knows_row::{Needs, needs};
use report_line::{Call, read_line};
use std::alloc::Global;
use std::io::{Read, Write};
use std::num::NonZeroU32;
use std::thread::Threads;

// The chains that accept the reports of these lines.
fn chains_of(alloc: Global, input: &[u8]) -> Chains {
    let mut chains = Chains::new(alloc);
    for line in input.split(|b| *b == b'\n') {
        if let Ok(Call::Report(report)) = read_line(alloc, line) {
            let _ = chains.admit_shared(report);
        }
    }
    chains
}

// Writes what an element needs of each process.
fn put_needs<W: Write + Drop>(
    chains: &Chains,
    table: &Needs<'_>,
    place: chains::Place,
    out: &mut Output<W>,
) {
    for other in 0..chains.count() {
        let need = table.get(place, other);
        out.put_made(format!(in chains.alloc(); " {need}"));
    }
}

// Writes a line for each element of a process.
fn put_process<W: Write + Drop>(
    chains: &Chains,
    table: &Needs<'_>,
    process: u32,
    out: &mut Output<W>,
)
    requires { process < length (known chains.now.accepted) }
{
    for k in 1..=chains.elements(process).len() {
        out.put_made(format!(in chains.alloc(); "{process} {k}:"));
        let position = Position::At(k);
        put_needs(chains, table, chains::Place { process, position }, out);
        out.put(b"\n");
    }
}

// Writes a line for each element.
fn put_processes<W: Write + Drop>(chains: &Chains, table: &Needs<'_>, out: &mut Output<W>) {
    for process in 0..chains.count() {
        put_process(chains, table, process, out);
    }
}

// Makes the table of the reports by so many threads, and writes it.
fn put_table<R: Threads + Sync, W: Write + Drop>(
    rt: &R,
    chains: &Chains,
    workers: usize,
    gate: &HeldGate,
    out: &mut Output<W>,
) -> Result<()>
    requires { (0 < workers) × (workers ≤ 64) }
{
    let table = needs(rt, chains, workers, gate)?;
    put_processes(chains, &table, out);
    Ok(())
}

// The same by a gate of its own, and what that counted.
fn put_gated<R: Threads + Sync, W: Write + Drop>(
    rt: &R,
    chains: &Chains,
    workers: NonZeroU32,
    place: Place,
    out: &mut Output<W>,
) -> Result<()> {
    let gate = HeldGate::new(place);
    put_table(rt, chains, workers.get().min(64) as usize, &gate, out)?;
    gate.put(chains.alloc(), out);
    out.end()
}

/// Makes the table of needs of the reports on standard input by so many threads, 64 at most, of which the first two wait for each other where
/// that is wanted. Writes a line for each element, processes and elements by their numbers, with what it needs of each process, and what the
/// gate counted.
pub fn answer_all<T: Threads + Sync>(
    rt: &HostRuntime,
    threads: &T,
    workers: NonZeroU32,
    place: Place,
) -> Result<()> {
    let mut input = Vec::new(rt.alloc());
    rt.reader().read_to_end(&mut input)?;
    let chains = chains_of(rt.alloc(), &input);
    put_gated(
        threads,
        &chains,
        workers,
        place,
        &mut Output::new(rt.stdout()),
    )
}
