//! How far a process falls in a round, and what makes it.

ghost use Rattle.std.specs.Prelude.{◌≡◌, ◌<◌, ◌≤◌, ◌+◌, ◌↔◌, IfSome, IsTrue, length, slice_index};
ghost use Rattle.chains.specs.Processes.{known};
ghost use Rattle.knows_row.specs.Looks.{AreBoundsOf, IsFirstOf, KnowsOne, last_ranks};
ghost use Rattle.propagate.specs.working.Ranks.{IsClearRank, IsNextRank, IsCauseOf};
ghost use Rattle.propagate.specs.working.Brackets.{IsBracket};
ghost use Rattle.propagate.specs.working.Stages.{IsStanding};

use crate::rounds::Stage;
use chains::Chains;
use knows_row::{Needs, Thresholds};

/// Where a round brings a process, and, if that is lower, the first process that the position above knows too much of.
#[derive(Drop)]
pub(crate) struct Lowered {
    pub(crate) rank: u32,
    pub(crate) cause: Option<u32>,
}

/// The first of the processes that fell that the place at this rank knows after its rank in the cut.
fn first_known(
    chains: &Chains,
    thresholds: &Thresholds,
    stage: &Stage,
    process: u32,
    rank: u32,
) -> Option<u32>
    requires bounds { AreBoundsOf chains.now.accepted stage.now.cut.items stage.now.fell.items thresholds.now }
    requires complete { length stage.now.cut.items ≡ length (known chains.now.accepted) }
    requires process { process < length stage.now.cut.items }
    requires rank { rank ≤ slice_index stage.now.cut.items process }
    ensures { IsFirstOf chains.now.accepted stage.now.fell.items stage.now.cut.items process rank result }
{
    knows_row::first_known(chains, thresholds, &stage.cut, &stage.fell, process, rank)
}

/// Whether the place at this rank knows one of the processes that fell after its rank in the cut.
fn knows_one(
    chains: &Chains,
    thresholds: &Thresholds,
    stage: &Stage,
    process: u32,
    rank: u32,
) -> bool
    requires bounds { AreBoundsOf chains.now.accepted stage.now.cut.items stage.now.fell.items thresholds.now }
    requires complete { length stage.now.cut.items ≡ length (known chains.now.accepted) }
    requires process { process < length stage.now.cut.items }
    requires rank { rank ≤ slice_index stage.now.cut.items process }
    ensures { IsTrue result ↔ KnowsOne chains.now.accepted stage.now.fell.items stage.now.cut.items process rank }
{
    knows_row::knows_one(chains, thresholds, &stage.cut, &stage.fell, process, rank)
}

/// Whether a table of needs tells that the process stays where it is.
fn stays(chains: &Chains, table: Option<&Needs<'_>>, stage: &Stage, process: u32) -> bool
    requires table { IfSome table (λ needs. (needs.now.accepted ≡ chains.now.accepted) × (stage.now.cut.items ≡ last_ranks chains.now.accepted)) }
    requires complete { length stage.now.cut.items ≡ length (known chains.now.accepted) }
    requires process { process < length stage.now.cut.items }
    ensures { IsTrue result → IsClearRank chains.now.accepted stage.now.cut.items process (slice_index stage.now.cut.items process) }
{
    let _chains = chains;
    let _stage = stage;
    match table {
        None => false,
        Some(needs) => needs.is_clear_at_last(process),
    }
}

/// So many ranks below the highest one are looked at one by one.
const NEAR: u32 = 20;

/// The rank to be looked at below this one, for a process that has fallen so far: the next one at first, and farther the farther it has
/// fallen. A look that finds nothing may cost as much as many that find something, so few ranks are not worth one more.
fn next_look(top: u32, high: u32) -> u32
    requires within { high ≤ top }
    requires some { 0 < high }
    ensures { result < high }
{
    let fallen = top - high;
    if fallen < NEAR {
        return high - 1;
    }
    high.saturating_sub((fallen - NEAR) / 4 + 2)
}

/// A clear rank, and one above it at which the place knows one of the processes that fell.
#[derive(Clone, Copy)]
pub(crate) struct Bracket {
    pub(crate) low: u32,
    pub(crate) high: u32,
}

/// A clear rank and one that is not, within a bracket, by looks from its upper end down, of which one alone finds nothing: what is known at
/// a rank is known at each later one.
fn closer(
    chains: &Chains,
    thresholds: &Thresholds,
    surviving_ranks: &[u32],
    stage: &Stage,
    process: u32,
    wide: Bracket,
) -> Bracket
    requires standing { IsStanding chains.now.accepted surviving_ranks.now stage.now.cut.items stage.now.chain_ends.items stage.now.fell.items }
    requires bounds { AreBoundsOf chains.now.accepted stage.now.cut.items stage.now.fell.items thresholds.now }
    requires process { process < length stage.now.cut.items }
    requires bracket { IsBracket chains.now.accepted stage.now.fell.items stage.now.cut.items process wide }
    ensures { IsBracket chains.now.accepted stage.now.fell.items stage.now.cut.items process result }
{
    chains.recall_lawful();
    let _tops = surviving_ranks;
    let mut high = wide.high;
    while high - wide.low > 1 {
        let low = next_look(wide.high, high);
        if low <= wide.low {
            return Bracket {
                low: wide.low,
                high,
            };
        }
        if !knows_one(chains, thresholds, stage, process, low) {
            return Bracket { low, high };
        }
        high = low;
    }
    Bracket {
        low: wide.low,
        high,
    }
}

/// The clear rank right below one that is not, within a bracket, rank by rank.
fn narrowed(
    chains: &Chains,
    thresholds: &Thresholds,
    surviving_ranks: &[u32],
    stage: &Stage,
    process: u32,
    wide: Bracket,
) -> u32
    requires standing { IsStanding chains.now.accepted surviving_ranks.now stage.now.cut.items stage.now.chain_ends.items stage.now.fell.items }
    requires bounds { AreBoundsOf chains.now.accepted stage.now.cut.items stage.now.fell.items thresholds.now }
    requires process { process < length stage.now.cut.items }
    requires bracket { IsBracket chains.now.accepted stage.now.fell.items stage.now.cut.items process wide }
    ensures { IsBracket chains.now.accepted stage.now.fell.items stage.now.cut.items process (record { low = result; high = result + 1 }) }
{
    chains.recall_lawful();
    let _tops = surviving_ranks;
    let mut below = wide.high - 1;
    while below > wide.low {
        if !knows_one(chains, thresholds, stage, process, below) {
            return below;
        }
        below -= 1;
    }
    below
}

/// The rank that a round brings a process to.
fn next_rank(
    chains: &Chains,
    thresholds: &Thresholds,
    surviving_ranks: &[u32],
    stage: &Stage,
    process: u32,
) -> u32
    requires standing { IsStanding chains.now.accepted surviving_ranks.now stage.now.cut.items stage.now.chain_ends.items stage.now.fell.items }
    requires bounds { AreBoundsOf chains.now.accepted stage.now.cut.items stage.now.fell.items thresholds.now }
    requires process { process < length stage.now.cut.items }
    ensures rank { IsNextRank chains.now.accepted stage.now.cut.items process result }
    ensures known { result < slice_index stage.now.cut.items process → KnowsOne chains.now.accepted stage.now.fell.items stage.now.cut.items process (result + 1) }
{
    chains.recall_lawful();
    let rank = stage.cut[process as usize];
    if !knows_one(chains, thresholds, stage, process, rank) {
        return rank;
    }
    let whole = Bracket { low: 0, high: rank };
    let wide = closer(chains, thresholds, surviving_ranks, stage, process, whole);
    let near = closer(chains, thresholds, surviving_ranks, stage, process, wide);
    narrowed(chains, thresholds, surviving_ranks, stage, process, near)
}

/// What a round makes of a process.
pub(crate) fn lower(
    chains: &Chains,
    thresholds: &Thresholds,
    table: Option<&Needs<'_>>,
    surviving_ranks: &[u32],
    stage: &Stage,
    process: u32,
) -> Lowered
    requires standing { IsStanding chains.now.accepted surviving_ranks.now stage.now.cut.items stage.now.chain_ends.items stage.now.fell.items }
    requires bounds { AreBoundsOf chains.now.accepted stage.now.cut.items stage.now.fell.items thresholds.now }
    requires table { IfSome table (λ needs. (needs.now.accepted ≡ chains.now.accepted) × (stage.now.cut.items ≡ last_ranks chains.now.accepted)) }
    requires process { process < length stage.now.cut.items }
    ensures rank { IsNextRank chains.now.accepted stage.now.cut.items process result.rank }
    ensures cause { IsCauseOf chains.now.accepted stage.now.cut.items process result.rank result.cause }
{
    chains.recall_lawful();
    if stays(chains, table, stage, process) {
        return Lowered {
            rank: stage.cut[process as usize],
            cause: None,
        };
    }
    let rank = next_rank(chains, thresholds, surviving_ranks, stage, process);
    if rank == stage.cut[process as usize] {
        return Lowered { rank, cause: None };
    }
    let cause = first_known(chains, thresholds, stage, process, rank + 1);
    Lowered { rank, cause }
}
