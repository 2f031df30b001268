//! The garbage line: where all processes would recover from, had every one of them failed. No later line is before it, so the
//! checkpoints before it are obsolete.
#![tactic(auto)]

ghost use Rattle.std.specs.Prelude.{IfOk, IfSome};
ghost use Rattle.chains.specs.Held.{held_of};
ghost use Rattle.knows_row.specs.Needs.{IsTableOf};
ghost use Rattle.garbage_line.specs.Garbage.{IsGarbageLine};

use chains::{Chains, Failed};
use knows_row::Needs;
use propagate::certificate_by;
use reasons::Certificate;
use std::alloc::AllocError;

/// The certificate as `garbage` has it, by a table of needs of these chains, if there is one. With a table it waits for nobody.
pub fn garbage_by(chains: &Chains, needs: Option<&Needs<'_>>) -> Result<Certificate, AllocError>
    requires { IfSome needs (λ n. IsTableOf chains.now.accepted n.now) }
    ensures { IfOk result (IsGarbageLine (held_of chains.now)) }
{
    chains.recall_lawful();
    let all = Failed::all(chains)?;
    certificate_by(chains, needs, &all)
}

/// The certificate of the line over these chains with every process failed. Checkpoints before the line are obsolete.
pub fn garbage(chains: &Chains) -> Result<Certificate, AllocError>
    ensures { IfOk result (IsGarbageLine (held_of chains.now)) }
{
    garbage_by(chains, None)
}
