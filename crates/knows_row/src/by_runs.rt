//! The table of needs, made by several threads.

ghost use Rattle.std.specs.Prelude.{◌≡◌, ◌≤◌, ◌<◌, ◌+◌, ℕ, IfOk, length, slice_index};
ghost use Rattle.chains.specs.Processes.{known};
ghost use Rattle.knows_row.specs.Looks.{AreBoundsOf, all_known, last_ranks as ranks_of_last};
ghost use Rattle.knows_row.specs.Needs.{AreUnknown, IsTableOf, IsUnknownCount};

use crate::chunk_gate::ChunkGate;
use crate::looks::first_known;
use crate::ranks::{all_processes, last_ranks, ranks_past_all};
use crate::table::Needs;
use crate::thresholds::Thresholds;
use chains::Chains;
use std::alloc::AllocError;
use std::thread::{Threads, for_each_chunk_mut};

/// How many processes, in order of birth, the last place of this one knows nothing of after their last places.
fn unknown_to(
    chains: &Chains,
    thresholds: &Thresholds,
    lasts: &[u32],
    all: &[u32],
    process: u32,
) -> u32
    requires bounds { AreBoundsOf chains.now.accepted lasts.now all.now thresholds.now }
    requires lasts { lasts.now ≡ ranks_of_last chains.now.accepted }
    requires all { all.now ≡ all_known chains.now.accepted }
    requires process { process < length (known chains.now.accepted) }
    ensures { IsUnknownCount chains.now.accepted process result }
{
    let rank = lasts[process as usize];
    match first_known(chains, thresholds, lasts, all, process, rank) {
        None => chains.count(),
        Some(first) => first,
    }
}

/// Looks at the last places of the processes from this one on, one for each slot.
fn look(
    chains: &Chains,
    thresholds: &Thresholds,
    lasts: &[u32],
    all: &[u32],
    start: usize,
    slots: &mut [u32],
)
    requires bounds { AreBoundsOf chains.now.accepted lasts.now all.now thresholds.now }
    requires lasts { lasts.now ≡ ranks_of_last chains.now.accepted }
    requires all { all.now ≡ all_known chains.now.accepted }
    requires within { start + length slots.old ≤ length (known chains.now.accepted) }
    ensures { (k : ℕ) → k < length slots.old → IsUnknownCount chains.now.accepted (start + k) (slice_index slots.new k) }
{
    chains.recall_lawful();
    for k in 0..slots.len() {
        slots[k] = unknown_to(chains, thresholds, lasts, all, (start + k) as u32);
    }
}

/// Looks at all last places, in runs of this size, each by a thread of its own behind the gate. Where no thread can be started, the caller
/// does the run.
fn look_by_runs<R: Threads + Sync, G: ChunkGate + Sync>(
    rt: &R,
    chains: &Chains,
    thresholds: &Thresholds,
    lasts: &[u32],
    all: &[u32],
    size: usize,
    gate: &G,
    unknown: &mut [u32],
)
    requires bounds { AreBoundsOf chains.now.accepted lasts.now all.now thresholds.now }
    requires lasts { lasts.now ≡ ranks_of_last chains.now.accepted }
    requires all { all.now ≡ all_known chains.now.accepted }
    requires complete { length unknown.old ≡ length (known chains.now.accepted) }
    requires size { 0 < size }
    ensures { AreUnknown chains.now.accepted unknown.new }
{
    let run = |start: usize, slots: &mut [u32]|
        requires { (0 < size) × AreBoundsOf chains.now.accepted lasts.now all.now thresholds.now × (lasts.now ≡ ranks_of_last chains.now.accepted)
            × (all.now ≡ all_known chains.now.accepted) × (start + length slots.old ≤ length (known chains.now.accepted)) }
        ensures { (k : ℕ) → k < length slots.old → IsUnknownCount chains.entry.now.accepted (start + k) (slice_index slots.new k) }
    {
        chains.recall_lawful();
        gate.before_chunk((start / size) as u64 + 1);
        look(chains, thresholds, lasts, all, start, slots);
    };
    for_each_chunk_mut(rt, unknown, size, &run);
}

/// The table of needs of these chains, by this many threads, 1 to 64. The last places of all processes are cut into as many runs, of
/// equal size but the last ones, which may be shorter or empty; a thread does one run, behind the gate, and an empty run has none. Where a
/// thread cannot be started, the caller does its run.
pub fn needs<'a, R: Threads + Sync, G: ChunkGate + Sync>(
    rt: &R,
    chains: &'a Chains,
    workers: usize,
    gate: &G,
) -> Result<Needs<'a>, AllocError>
    requires workers { (0 < workers) × (workers ≤ 64) }
    ensures { IfOk result (λ table. IsTableOf chains.now.accepted table) }
{
    chains.recall_lawful();
    let lasts = last_ranks(chains)?;
    let before = ranks_past_all(chains)?;
    let all = all_processes(chains)?;
    let thresholds = Thresholds::of(chains, &lasts, &before, &all)?;
    let mut unknown = Vec::from_elem(chains.alloc(), 0u32, lasts.len())?;
    let size = lasts.len().div_ceil(workers).max(1);
    look_by_runs(
        rt,
        chains,
        &thresholds,
        &lasts,
        &all,
        size,
        gate,
        unknown.as_mut_slice(),
    );
    Ok(Needs {
        chains,
        lasts,
        thresholds,
        unknown,
    })
}
