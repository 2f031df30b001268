//! Settlements, which return all processes to a line.

ghost use Rattle.std.specs.Prelude.{◌≡◌, ◌<◌, All, ℕ, List, IfOk};
ghost use Rattle.report_line.specs.declared.report.Report.{Report};
ghost use Rattle.chains.specs.declared.position.Position.{Position};
ghost use Rattle.chains.specs.Processes.{Name as AnyName, IsKnown};
ghost use Rattle.chains.specs.Admission.{report_limit};
ghost use Rattle.chains.specs.Held.{Held, held_of};
ghost use Rattle.chains.specs.Settled.{IsSettledFor, IsSettled};
ghost use Rattle.propagate.specs.Greatest.{IsGreatestCut};

use crate::cut::greatest_line;
use chains::{Chains, Failed, FailedFault};
use report_line::Names;
use std::alloc::AllocError;

/// The chains once all processes returned to the line of these failed ones: what the line keeps, with one more line and one more
/// settlement counted. Its caller tested that there is room for one more line.
pub fn settle(chains: &Chains, failed: &Failed) -> Result<Chains, AllocError>
    requires { chains.now.front < report_limit }
    ensures { IfOk result (λ kept. IsSettledFor (held_of chains.now) failed.now (held_of kept)) }
{
    chains.recall_lawful();
    let line = greatest_line(chains, failed)?;
    let mut kept = chains.keep_fit(&line)?;
    kept.count_settlement();
    kept.recall_lawful();
    Ok(kept)
}

/// The same of the failed processes with these names, which its caller knows to be known.
pub fn settle_named(chains: &Chains, names: &Names) -> Result<Chains, AllocError>
    requires room { chains.now.front < report_limit }
    requires known { All (IsKnown chains.now.accepted) names.now }
    ensures { IfOk result (λ kept. IsSettled (held_of chains.now) names.now (held_of kept)) }
{
    match Failed::from_names(chains, names) {
        Ok(failed) => settle(chains, &failed),
        Err(FailedFault::Unknown(_)) => unreachable!(),
        Err(FailedFault::Memory) => Err(AllocError),
    }
}

/// There is one greatest cut for a failed set, so what is held after a settlement is determined by what was held before and by the
/// names of the failed processes.
pub fn settlements_have_one_outcome()
    ensures cuts { (accepted : List Report) (failed : List ℕ) (a b : List Position) → IsGreatestCut accepted failed a → IsGreatestCut accepted failed b → a ≡ b }
    ensures outcome { (held : Held) (names : List AnyName) (a b : Held) → IsSettled held names a → IsSettled held names b → a ≡ b }
{}
