//! Places by their ranks: 0 for unborn, an element's number, and for retired the number after the last element.

ghost use Rattle.std.specs.Prelude.{◌≡◌, ◌<◌, ◌≤◌, ◌+◌, All, IfOk, length};
ghost use Rattle.chains.specs.Processes.{known};
ghost use Rattle.chains.specs.Positions.{position_at, last_rank, IsLastSurviving};
ghost use Rattle.chains.specs.Admission.{report_limit};
ghost use Rattle.propagate.specs.working.Ranks.{places_from};
ghost use Rattle.propagate.specs.Rounds.{AreSurvivingRanks};

use chains::{Chains, Failed, Line, Position};
use knows_row::place_at;
use std::alloc::AllocError;

/// The rank of the last surviving position of a process.
fn last_surviving_rank(chains: &Chains, process: u32, failed: &Failed) -> u32
    requires { process < length (known chains.now.accepted) }
    ensures last { IsLastSurviving chains.now.accepted failed.now process (position_at chains.now.accepted process result) }
    ensures within { result ≤ last_rank chains.now.accepted process }
    ensures at_most { result ≤ report_limit + 2 }
{
    chains.recall_lawful();
    match chains.last_surviving(process, failed) {
        Position::At(k) => k,
        Position::Retired => chains.elements(process).len() + 1,
    }
}

/// The ranks of the last surviving positions, by process.
pub(crate) fn last_surviving_ranks(chains: &Chains, failed: &Failed) -> Result<Vec<u32>, AllocError>
    ensures surviving_ranks { IfOk result (λ surviving_ranks. AreSurvivingRanks chains.now.accepted failed.now surviving_ranks.items) }
    ensures at_most { IfOk result (λ surviving_ranks. All (λ r. r ≤ report_limit + 2) surviving_ranks.items) }
{
    let mut ranks = Vec::with_capacity(chains.alloc(), chains.count() as usize)?;
    for process in 0..chains.count() {
        ranks.push(last_surviving_rank(chains, process, failed))?;
    }
    Ok(ranks)
}

/// The places of the processes at these ranks, in order of birth.
pub(crate) fn line_at(chains: &Chains, ranks: &[u32]) -> Result<Line, AllocError>
    requires { length ranks.now ≡ length (known chains.now.accepted) }
    ensures { IfOk result (λ line. line ≡ places_from chains.now.accepted 0 ranks.now) }
{
    let mut places = Vec::with_capacity(chains.alloc(), ranks.len())?;
    for process in 0..chains.count() {
        places.push(place_at(chains, process, ranks[process as usize]))?;
    }
    Ok(Line::from_vec(places))
}
