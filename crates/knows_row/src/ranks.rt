//! Ranks of places: 0 for unborn, an element's number, and for retired the number after the last element.

ghost use Rattle.std.specs.Prelude.{◌≡◌, ◌<◌, ◌+◌, IfOk, length};
ghost use Rattle.chains.specs.Processes.{known};
ghost use Rattle.chains.specs.Positions.{place_at, last_rank as rank_of_last};
ghost use Rattle.knows_row.specs.Looks.{all_known, last_ranks as ranks_of_last, ranks_past_all as ranks_past};

use chains::{Chains, Place, Position};
use std::alloc::AllocError;

/// The place of a process at a rank that it has. It takes no memory.
pub fn place_at(chains: &Chains, process: u32, rank: u32) -> Place
    requires { process < length (known chains.now.accepted) }
    ensures { result ≡ place_at chains.now.accepted process rank }
{
    let last = chains.elements(process).len();
    let position = if last < rank {
        Position::Retired
    } else {
        Position::At(rank)
    };
    Place { process, position }
}

/// The rank of the last place of a process.
fn last_rank(chains: &Chains, process: u32) -> u32
    requires { process < length (known chains.now.accepted) }
    ensures { result ≡ rank_of_last chains.now.accepted process }
{
    let last = chains.elements(process).len();
    let retired = Place {
        process,
        position: Position::Retired,
    };
    match chains.events_at(retired) {
        Some(_) => last + 1,
        None => last,
    }
}

/// The ranks of the last places, by process.
pub(crate) fn last_ranks(chains: &Chains) -> Result<Vec<u32>, AllocError>
    ensures { IfOk result (λ ranks. ranks.items ≡ ranks_of_last chains.now.accepted) }
{
    let mut ranks = Vec::with_capacity(chains.alloc(), chains.count() as usize)?;
    for process in 0..chains.count() {
        ranks.push(last_rank(chains, process))?;
    }
    Ok(ranks)
}

/// For each process a rank behind all its elements.
pub fn ranks_past_all(chains: &Chains) -> Result<Vec<u32>, AllocError>
    ensures { IfOk result (λ ranks. ranks.items ≡ ranks_past chains.now.accepted) }
{
    let mut ranks = Vec::with_capacity(chains.alloc(), chains.count() as usize)?;
    for process in 0..chains.count() {
        ranks.push(chains.elements(process).len() + 1)?;
    }
    Ok(ranks)
}

/// All processes, in order of birth.
pub fn all_processes(chains: &Chains) -> Result<Vec<u32>, AllocError>
    ensures { IfOk result (λ all. all.items ≡ all_known chains.now.accepted) }
{
    let mut all = Vec::with_capacity(chains.alloc(), chains.count() as usize)?;
    for process in 0..chains.count() {
        all.push(process)?;
    }
    Ok(all)
}
