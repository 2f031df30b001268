//! A table of needs.

ghost use Rattle.std.specs.Prelude.{◌≡◌, ◌↔◌, ◌≤◌, ◌<◌, ℕ, IsTrue, length};
ghost use Rattle.chains.specs.Processes.{known};
ghost use Rattle.chains.specs.Positions.{place_at};
ghost use Rattle.knows_row.specs.Knowing.{IsNeed, KnowsAt};
ghost use Rattle.knows_row.specs.Looks.{last_ranks as ranks_of_last};
ghost use Rattle.knows_row.specs.Needs.{IsUnknownAtLast};

use crate::thresholds::Thresholds;
use crate::{last_known, need};
use chains::{Chains, Place, Position};
use std::marker::Model;

/// What the places of these chains know. Of the last place of each process it holds how many processes, in order of birth, that
/// place knows nothing of after their last places; what it does not hold it finds when it is asked.
pub struct Needs<'a> {
    pub(crate) chains: &'a Chains,
    pub(crate) lasts: Vec<u32>,
    pub(crate) thresholds: Thresholds,
    pub(crate) unknown: Vec<u32>,
}

impl<'a> Drop for Needs<'a> {
    fn drop(self) {
        let Needs {
            chains: _,
            lasts: _,
            thresholds: _,
            unknown: _,
        } = self;
    }
}

impl<'a> Model for Needs<'a> {
    ghost use Rattle.std.specs.Prelude.{◌≡◌};
    ghost use Rattle.knows_row.specs.Looks.{last_ranks};
    ghost use Rattle.knows_row.specs.Needs.{NeedsTable, AreUnknown, table_code};

    ghost Value = { NeedsTable };

    ghost coded = { table_code };

    ghost view = { λ n. record { accepted = n.chains.now.accepted; rows = n.thresholds } };

    ghost invariant = { λ n. (n.lasts.items ≡ last_ranks n.chains.now.accepted) × AreUnknown n.chains.now.accepted n.unknown.items };
}

/// Whether the place is the one at this rank of its process.
fn is_at(chains: &Chains, place: Place, rank: u32) -> bool
    requires { place.process < length (known chains.now.accepted) }
    ensures { IsTrue result → place ≡ place_at chains.now.accepted place.process rank }
{
    let last = chains.elements(place.process).len();
    match place.position {
        Position::At(k) if k == rank => k <= last,
        Position::At(_) => false,
        Position::Retired => last < rank,
    }
}

impl<'a> Needs<'a> {
    /// Whether the last place of the process knows nothing of any process after its last place. It takes no memory.
    pub fn is_clear_at_last(&self, process: u32) -> bool
        requires { process < length (known self.now.accepted) }
        ensures { IsTrue result ↔ ((q : ℕ) → q < length (known self.now.accepted) → IsUnknownAtLast self.now.accepted process q) }
    {
        self.unknown[process as usize] >= self.chains.count()
    }

    /// The ranks of the last places, by process.
    pub fn last_ranks(&self) -> &[u32]
        ensures { result.now ≡ ranks_of_last self.now.accepted }
    {
        &self.lasts
    }

    /// The thresholds of all last elements.
    pub fn thresholds(&self) -> &Thresholds
        ensures { result.now ≡ self.now.rows }
    {
        &self.thresholds
    }

    /// A number of which, and of each above it, the place knows no element of the process.
    fn bound(&self, place: Place, process: u32) -> u32
        requires { process < length (known self.now.accepted) }
        ensures { (k : ℕ) → result ≤ k → ¬ KnowsAt self.now.accepted place process k }
    {
        let chains = self.chains;
        chains.recall_lawful();
        let all = chains.elements(process).len() + 1;
        if place.process >= chains.count() {
            return all;
        }
        let last = self.lasts[place.process as usize];
        if is_at(chains, place, last) && process < self.unknown[place.process as usize] {
            return self.lasts[process as usize];
        }
        all
    }

    /// One more than the greatest element of the process that the place is beyond, or 0 where there is none or the process is its own.
    /// It takes no memory.
    pub fn get(&self, place: Place, process: u32) -> u32
        ensures { IsNeed self.now.accepted place process result }
    {
        if process >= self.chains.count() {
            return need(self.chains, place, process);
        }
        let bound = self.bound(place, process);
        last_known(self.chains, place, process, 0, bound)
    }
}
