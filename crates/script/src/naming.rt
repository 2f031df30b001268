//! The line to return to, by names.

ghost use Rattle.std.specs.Prelude.{◌≡◌, IfOk, length, map, Contains, List, [], ℕ};
ghost use Rattle.std.specs.List.{range_with_len};
ghost use Rattle.chains.specs.declared.position.Place.{Place as AnyPlace};
ghost use Rattle.chains.specs.Processes.{known};
ghost use Rattle.chains.specs.Greatest.{IsGreatestCut};
ghost use Rattle.chains.specs.Positions.{positions_of};
ghost use Rattle.driver.specs.declared.line.NamedPosition.{NamedPosition as AnyNamed};
ghost use Rattle.driver.specs.Lines.{names_of};
ghost use Rattle.script.specs.Printed.{IsLineFor};

use chains::{Chains, Failed, FailedFault, Place};
use driver::NamedPosition;
use propagate::greatest_line;
use report_line::Names;
use std::alloc::AllocError;

// The places of all processes, by names.
fn by_names(chains: &Chains, places: &[Place]) -> Result<Vec<NamedPosition>, AllocError>
    requires { map (λ (x : AnyPlace). x.process) places.now ≡ range_with_len 0 (length (known chains.now.accepted)) }
    ensures names { IfOk result (λ line. names_of line.items ≡ known chains.now.accepted) }
    ensures positions { IfOk result (λ line. map (λ (x : AnyNamed). x.position) line.items ≡ positions_of places.now) }
{
    let mut line = Vec::new(chains.alloc());
    for place in places {
        let named = NamedPosition {
            name: chains.name_of(place.process).copy(),
            position: place.position,
        };
        line.push(named)?;
    }
    Ok(line)
}

// The recovery line of these failed processes, by names.
fn recovery_line(chains: &Chains, failed: &Failed) -> Result<Vec<NamedPosition>, AllocError>
    ensures names { IfOk result (λ line. names_of line.items ≡ known chains.now.accepted) }
    ensures greatest { IfOk result (λ line. IsGreatestCut chains.now.accepted failed.now (map (λ (x : AnyNamed). x.position) line.items)) }
{
    let line = greatest_line(chains, failed)?;
    by_names(chains, line.as_slice())
}

/// The line to return to for these failed processes, by what these chains hold: their recovery line; or none of it where one of them
/// is not known.
pub fn line_for(chains: &Chains, names: &Names) -> Result<Vec<NamedPosition>, AllocError>
    ensures { IfOk result (λ line. IsLineFor chains.now.accepted names.now line.items) }
{
    match Failed::from_names(chains, names) {
        Ok(failed) => recovery_line(chains, &failed),
        Err(FailedFault::Unknown(_)) => Ok(Vec::new(chains.alloc())),
        Err(FailedFault::Memory) => Err(AllocError),
    }
}
