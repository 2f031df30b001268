//! The rounds of rollback propagation.

ghost use Rattle.std.specs.Prelude.{◌≡◌, ◌<◌, ◌≤◌, ◌+◌, ◌++◌, ℕ, List, [], IfOk, IfSome, length, get_or, slice_index};
ghost use Rattle.chains.specs.Processes.{known};
ghost use Rattle.chains.specs.Positions.{place_at as place_of_rank, last_rank};
ghost use Rattle.chains.specs.declared.position.Place.{Place as AnyPlace};
ghost use Rattle.propagate.specs.working.Ranks.{IsGrounded, IsCauseOf};
ghost use Rattle.propagate.specs.Rounds.{AreSurvivingRanks};
ghost use Rattle.knows_row.specs.Looks.{AreBoundsOf, IsLoweredFrom, all_known, last_ranks};
ghost use Rattle.knows_row.specs.Needs.{IsTableOf};
ghost use Rattle.propagate.specs.working.Stages.{IsStanding, IsStageFrom, IsNextStage, AreThere, IsChainAt};

use crate::arena::Arena;
use crate::falls::{Lowered, lower};
use chains::Chains;
use knows_row::{Needs, Thresholds, all_processes, place_at, ranks_past_all};
use std::alloc::AllocError;

/// A cut after some rounds: the rank of each process, before the last round and after it; for those below their last surviving
/// ranks the number of the chain that ends at the next position; and the processes that the last round lowered.
pub(crate) struct Stage {
    pub(crate) before: Vec<u32>,
    pub(crate) cut: Vec<u32>,
    pub(crate) chain_ends: Vec<usize>,
    pub(crate) fell: Vec<u32>,
}

impl Drop for Stage {
    fn drop(self) {
        let Stage {
            before: _,
            cut: _,
            chain_ends: _,
            fell: _,
        } = self;
    }
}

/// The first cut, of all last surviving ranks, from which any process may be known too far.
pub(crate) fn first_stage(chains: &Chains, surviving_ranks: &[u32]) -> Result<Stage, AllocError>
    requires complete { length surviving_ranks.now ≡ length (known chains.now.accepted) }
    requires within { (p : ℕ) → p < length surviving_ranks.now → slice_index surviving_ranks.now p ≤ last_rank chains.now.accepted p }
    ensures cut { IfOk result (λ s. s.cut.items ≡ surviving_ranks.now) }
    ensures standing { IfOk result (λ s. IsStanding chains.now.accepted surviving_ranks.now s.cut.items s.chain_ends.items s.fell.items) }
    ensures from { IfOk result (λ s. IsLoweredFrom chains.now.accepted s.before.items s.cut.items) }
    ensures there { IfOk result (λ s. (arena : List (List AnyPlace)) → AreThere surviving_ranks.now s.cut.items s.chain_ends.items arena) }
    ensures all { IfOk result (λ s. s.fell.items ≡ all_known chains.now.accepted) }
{
    let cut = Vec::from_slice(chains.alloc(), surviving_ranks)?;
    let chain_ends = Vec::from_elem(chains.alloc(), 0, surviving_ranks.len())?;
    let before = ranks_past_all(chains)?;
    let fell = all_processes(chains)?;
    chains.recall_lawful();
    Ok(Stage {
        before,
        cut,
        chain_ends,
        fell,
    })
}

/// The number of the chain of a process after a round that brings it there.
fn next_head(
    chains: &Chains,
    arena: &mut Arena,
    surviving_ranks: &[u32],
    stage: &Stage,
    process: u32,
    low: &Lowered,
) -> Result<usize, AllocError>
    requires stands { IsStageFrom chains.now.accepted surviving_ranks.now stage.now arena.old }
    requires process { process < length stage.now.cut.items }
    requires cause { IsCauseOf chains.now.accepted stage.now.cut.items process low.now.rank low.now.cause }
    ensures more { IfOk result (λ _. (more : List (List AnyPlace)) × (arena.new ≡ arena.old ++ more)) }
    ensures there { IfOk result (λ head. low.now.rank < slice_index surviving_ranks.now process → head < length arena.new) }
    ensures grounded { IfOk result (λ head. (failed next : List ℕ) → AreSurvivingRanks chains.now.accepted failed surviving_ranks.now → length next ≡ length stage.now.cut.items
        → ((p : ℕ) → p < length next → slice_index next p ≤ slice_index stage.now.cut.items p)
        → slice_index next process ≡ low.now.rank → low.now.rank < slice_index surviving_ranks.now process
        → IsGrounded chains.now.accepted failed next (place_of_rank chains.now.accepted process (low.now.rank + 1)) (get_or arena.new head [])) }
    ensures chain { IfOk result (λ head. IsChainAt chains.now.accepted surviving_ranks.now stage.now.cut.items stage.now.chain_ends.items arena.old process low.now.rank (get_or arena.new head [])) }
{
    chains.recall_lawful();
    let Some(cause) = low.cause else {
        return Ok(stage.chain_ends[process as usize]);
    };
    let place = place_at(chains, process, low.rank + 1);
    let after = stage.cut[cause as usize];
    let before = if after == surviving_ranks[cause as usize] {
        arena.start(place_at(chains, cause, after))?
    } else {
        stage.chain_ends[cause as usize]
    };
    arena.prolong(before, place)
}

/// One round, in which every process is looked at against the same cut by these thresholds. Where there is a table of needs, all
/// processes stand at their last places, and it tells of some that they stay.
fn round_by(
    chains: &Chains,
    thresholds: &Thresholds,
    table: Option<&Needs<'_>>,
    arena: &mut Arena,
    surviving_ranks: &[u32],
    stage: &Stage,
) -> Result<Stage, AllocError>
    requires stands { IsStageFrom chains.now.accepted surviving_ranks.now stage.now arena.old }
    requires bounds { AreBoundsOf chains.now.accepted stage.now.cut.items stage.now.fell.items thresholds.now }
    requires table { IfSome table (λ needs. (needs.now.accepted ≡ chains.now.accepted) × (stage.now.cut.items ≡ last_ranks chains.now.accepted)) }
    ensures { IfOk result (λ next. IsNextStage chains.now.accepted surviving_ranks.now stage.now arena.old next arena.new) }
{
    let before = Vec::from_slice(chains.alloc(), &stage.cut)?;
    let mut cut = Vec::with_capacity(chains.alloc(), stage.cut.len())?;
    let mut chain_ends = Vec::with_capacity(chains.alloc(), stage.cut.len())?;
    let mut fell = Vec::new(chains.alloc());
    for process in 0..chains.count() {
        let low = lower(chains, thresholds, table, surviving_ranks, stage, process);
        let head = next_head(chains, arena, surviving_ranks, stage, process, &low)?;
        if low.rank < stage.cut[process as usize] {
            fell.push(process)?;
        }
        cut.push(low.rank)?;
        chain_ends.push(head)?;
    }
    Ok(Stage {
        before,
        cut,
        chain_ends,
        fell,
    })
}

/// The thresholds of what fell before a round.
fn thresholds_of(
    chains: &Chains,
    surviving_ranks: &[u32],
    stage: &Stage,
) -> Result<Thresholds, AllocError>
    requires standing { IsStanding chains.now.accepted surviving_ranks.now stage.now.cut.items stage.now.chain_ends.items stage.now.fell.items }
    requires from { IsLoweredFrom chains.now.accepted stage.now.before.items stage.now.cut.items }
    ensures { IfOk result (λ t. AreBoundsOf chains.now.accepted stage.now.cut.items stage.now.fell.items t) }
{
    let _tops = surviving_ranks;
    Thresholds::of(chains, &stage.cut, &stage.before, &stage.fell)
}

/// One round, in which every process is looked at against the same cut. The first round goes by the table of needs, where there is one
/// and all processes stand at their last places.
pub(crate) fn round(
    chains: &Chains,
    table: Option<&Needs<'_>>,
    arena: &mut Arena,
    surviving_ranks: &[u32],
    stage: &Stage,
) -> Result<Stage, AllocError>
    requires stands { IsStageFrom chains.now.accepted surviving_ranks.now stage.now arena.old }
    requires from { IsLoweredFrom chains.now.accepted stage.now.before.items stage.now.cut.items }
    requires table { IfSome table (λ needs. IsTableOf chains.now.accepted needs.now × (stage.now.cut.items ≡ last_ranks chains.now.accepted) × (stage.now.fell.items ≡ all_known chains.now.accepted)) }
    ensures { IfOk result (λ next. IsNextStage chains.now.accepted surviving_ranks.now stage.now arena.old next arena.new) }
{
    match table {
        None => {
            let thresholds = thresholds_of(chains, surviving_ranks, stage)?;
            round_by(chains, &thresholds, None, arena, surviving_ranks, stage)
        }
        Some(needs) => round_by(
            chains,
            needs.thresholds(),
            Some(needs),
            arena,
            surviving_ranks,
            stage,
        ),
    }
}
