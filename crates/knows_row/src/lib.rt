//! What places know of processes: of one each, of many by one look at thresholds, and a table of needs.
#![tactic(auto)]

mod by_runs;
mod chunk_gate;
mod looks;
mod ranks;
mod table;
mod thresholds;

ghost use Rattle.std.specs.Prelude.{◌↔◌, ◌≡◌, ◌≢◌, ◌≤◌, ◌<◌, ℕ, List, IsTrue, MatchOption, Some, length};
ghost use Rattle.report_line.specs.declared.report.Report.{Report};
ghost use Rattle.chains.specs.Processes.{known};
ghost use Rattle.chains.specs.Positions.{last_rank};
ghost use Rattle.chains.specs.Knowledge.{Knows, events_at};
ghost use Rattle.chains.specs.Folded.{IsFolded};
ghost use Rattle.knows_row.specs.Knowing.{KnowsAt, AreLawfulPlaces, KnowsRank, IsNeed, IsLastKnown};
ghost use Rattle.knows_row.specs.working.Beyond.{IsBeyondAt, IsBeyondFrom, IsLastBeyond, AreRising};

pub use by_runs::needs;
use chains::{Chains, Elements, Place, Position};
pub use chunk_gate::{ChunkGate, OpenChunks};
use event_tree::Events;
pub use looks::{first_known, knows_one};
pub use ranks::{all_processes, place_at, ranks_past_all};
pub use table::Needs;
pub use thresholds::Thresholds;

/// Whether the place knows the process after this position: whether it is beyond some element of it, another process than
/// its own, that is not before the position. It takes no memory.
pub fn knows(chains: &Chains, place: Place, process: u32, position: Position) -> bool
    ensures { IsTrue result ↔ Knows chains.now.accepted place process position }
{
    let k = match position {
        Position::At(k) => k,
        Position::Retired => return false,
    };
    match events_beside(chains, place, process) {
        None => false,
        Some(events) => {
            chains.recall_lawful();
            is_beyond_from(events, &chains.elements(process), k)
        }
    }
}

/// One more than the greatest element of the process that the place is beyond, or 0 where there is none or the process is
/// its own. It takes no memory.
pub fn need(chains: &Chains, place: Place, process: u32) -> u32
    ensures { IsNeed chains.now.accepted place process result }
{
    match events_beside(chains, place, process) {
        None => 0,
        Some(events) => {
            let elements = chains.elements(process);
            last_beyond(events, &elements, 0, elements.len() + 1)
        }
    }
}

/// One more than the greatest element of the process, of those from `from` on and below `to`, that the place is beyond.
/// Where there is none it is at most `from`, or `to`. It takes no memory, and looks from `to` downward.
pub fn last_known(chains: &Chains, place: Place, process: u32, from: u32, to: u32) -> u32
    ensures { IsLastKnown chains.now.accepted place process from to result }
{
    match events_beside(chains, place, process) {
        None => 0,
        Some(events) => last_beyond(events, &chains.elements(process), from, to),
    }
}

/// What holds of the knowledge over each folded list: among others, that what is known at a place is known at each later
/// place of its process.
pub fn knowledge_is_lawful()
    ensures { (accepted : List Report) → IsFolded accepted → AreLawfulPlaces accepted }
{}

/// The events of the place, if it has some and the process is another known one.
fn events_beside(chains: &Chains, place: Place, process: u32) -> Option<&Events>
    ensures { MatchOption result ((k : ℕ) → ¬ KnowsAt chains.now.accepted place process k)
        (λ events. (process ≢ place.process) × (process < length (known chains.now.accepted)) × (events_at chains.now.accepted place ≡ Some events.now)) }
{
    if process == place.process || process >= chains.count() {
        return None;
    }
    chains.events_at(place)
}

/// Whether the events are beyond element k, counted from 1.
fn is_beyond(events: &Events, elements: &Elements<'_>, k: u32) -> bool
    ensures { IsTrue result ↔ IsBeyondAt events.now elements.now k }
{
    if k == 0 {
        return false;
    }
    match elements.get(k - 1) {
        None => false,
        Some(element) => events.exceeds_on(element.events, element.id),
    }
}

/// Up to how many nodes and leaves an id is compared with the one before, so that this takes less than most looks at events.
const SHORT_ID: usize = 64;

/// Whether the events are beyond some element from k on. One with the id of the one before adds
/// nothing: those behind the first of the last run are not looked at, and one before, if its id is
/// short, is passed over.
fn is_beyond_from(events: &Events, elements: &Elements<'_>, k: u32) -> bool
    requires { AreRising elements.now }
    ensures { IsTrue result ↔ IsBeyondFrom events.now elements.now k }
{
    let first = k.max(1);
    let Some(element) = elements.get(first - 1) else {
        return false;
    };
    if events.exceeds_on(element.events, element.id) {
        return true;
    }
    if first >= elements.len() {
        return false;
    }
    let mut id = element.id;
    let end = elements.same_id_from() + 1;
    for before in first..end {
        let Some(later) = elements.get(before) else {
            return false;
        };
        if later.id.size() <= SHORT_ID && id.equal(later.id) {
            continue;
        }
        if events.exceeds_on(later.events, later.id) {
            return true;
        }
        id = later.id;
    }
    false
}

/// Goes down from `to` to the first element that the events are beyond, as far as `from`, and is one more than it.
fn last_beyond(events: &Events, elements: &Elements<'_>, from: u32, to: u32) -> u32
    ensures { IsLastBeyond events.now elements.now from to result }
{
    let mut found = to.min(elements.len() + 1);
    while found > from && !is_beyond(events, elements, found - 1) {
        found -= 1;
    }
    found
}
