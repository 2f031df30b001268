//! The line that is shown for a question.

ghost use Rattle.std.specs.Prelude.{◌<◌, ◌≤◌, ℕ, IfSome};
ghost use Rattle.chains.specs.Held.{held_of};
ghost use Rattle.line_answer.specs.Questions.{IsAnswer};
ghost use Rattle.coordinator.specs.working.Parts.{LastTaken, MayShowLine};

use crate::pass::Pass;
use chains::Chains;
use knows_row::{ChunkGate, needs};
use line_answer::answer_for;
use report_line::{Call, Text};
use std::sync::ledger::Ledger;
use std::thread::Threads;

/// How many processes a thread looks at, at the least, where there is more than one.
const PROCESSES_A_THREAD: u32 = 128;

/// How many threads make the table for a line over so many processes: as many as there may be, where there are processes enough for them.
pub fn threads_for(processes: u32, workers: usize) -> usize
    requires { (0 < workers) × (workers ≤ 64) }
    ensures { (0 < result) × (result ≤ workers) }
{
    let enough = (processes / PROCESSES_A_THREAD) as usize;
    if enough == 0 {
        1
    } else if enough < workers {
        enough
    } else {
        workers
    }
}

/// The text of the line that the call asks for, if it asks for one and memory suffices for it: by a table of needs that so many threads
/// make.
fn line_for<R: Threads + Sync, G: ChunkGate + Sync>(
    rt: &R,
    chains: &Chains,
    call: &Call,
    workers: usize,
    gate: &G,
) -> Option<Text>
    requires { (0 < workers) × (workers ≤ 64) }
    ensures { IfSome result (IsAnswer (held_of chains.now) call.now) }
{
    let threads = threads_for(chains.count(), workers);
    match needs(rt, chains, threads, gate) {
        Ok(table) => answer_for(chains, Some(&table), call),
        Err(_) => None,
    }
}

/// Shows the line that was taken last, if memory suffices for it.
pub(crate) fn show_line<L: Ledger, R: Threads + Sync, G: ChunkGate + Sync>(
    rt: &R,
    pass: &mut Pass<L>,
    chains: &Chains,
    call: &Call,
    workers: usize,
    gate: &G,
)
    requires workers { (0 < workers) × (workers ≤ 64) }
    requires taken { (front : ℕ) × LastTaken pass.old.entries front }
    ensures { MayShowLine (held_of chains.now) call.now pass.old pass.new }
{
    chains.recall_lawful();
    if let Some(text) = line_for(rt, chains, call, workers, gate) {
        pass.show(text);
    }
}
