//! One look of a place at many processes.

ghost use Rattle.std.specs.Prelude.{◌≡◌, ◌↔◌, ◌≤◌, ◌<◌, IsTrue, length, slice_index};
ghost use Rattle.chains.specs.Processes.{known};
ghost use Rattle.knows_row.specs.Looks.{AreBoundsOf, IsFirstOf, KnowsOne};

use crate::ranks::place_at;
use crate::thresholds::Thresholds;
use chains::Chains;

/// The first of these processes that the place of this process and rank knows after its rank in the cut. It takes no memory.
pub fn first_known(
    chains: &Chains,
    thresholds: &Thresholds,
    cut: &[u32],
    among: &[u32],
    process: u32,
    rank: u32,
) -> Option<u32>
    requires bounds { AreBoundsOf chains.now.accepted cut.now among.now thresholds.now }
    requires complete { length cut.now ≡ length (known chains.now.accepted) }
    requires process { process < length cut.now }
    requires rank { rank ≤ slice_index cut.now process }
    ensures { IsFirstOf chains.now.accepted among.now cut.now process rank result }
{
    chains.recall_lawful();
    let _cut = cut;
    let place = place_at(chains, process, rank);
    match chains.events_at(place) {
        None => None,
        Some(events) => {
            events.recall_facts();
            match thresholds.first_passed(events) {
                None => None,
                Some(i) => Some(among[i]),
            }
        }
    }
}

/// Whether the place of this process and rank knows one of these processes after its rank in the cut. It takes no memory.
pub fn knows_one(
    chains: &Chains,
    thresholds: &Thresholds,
    cut: &[u32],
    among: &[u32],
    process: u32,
    rank: u32,
) -> bool
    requires bounds { AreBoundsOf chains.now.accepted cut.now among.now thresholds.now }
    requires complete { length cut.now ≡ length (known chains.now.accepted) }
    requires process { process < length cut.now }
    requires rank { rank ≤ slice_index cut.now process }
    ensures { IsTrue result ↔ KnowsOne chains.now.accepted among.now cut.now process rank }
{
    chains.recall_lawful();
    let _cut = cut;
    let _among = among;
    let place = place_at(chains, process, rank);
    match chains.events_at(place) {
        None => false,
        Some(events) => {
            events.recall_facts();
            thresholds.is_passed(events)
        }
    }
}
