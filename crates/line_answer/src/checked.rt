//! What joins the search for recovery lines and the check of their certificates.

ghost use Rattle.std.specs.Prelude.{◌≡◌, IfOk};
ghost use Rattle.reason_check.specs.declared.answer.Verdict.TheVariants.{Yes};

use chains::{Chains, Failed};
use propagate::certificate;
use reason_check::{Verdict, check};
use std::alloc::AllocError;

/// What the check says of the certificate that is found for a failed set: always yes.
pub fn check_of_certificate(chains: &Chains, failed: &Failed) -> Result<Verdict, AllocError>
    ensures { IfOk result (λ verdict. verdict ≡ Yes) }
{
    let found = certificate(chains, failed)?;
    Ok(check(chains, &found))
}
