//! The calls, over texts.

ghost use Rattle.std.specs.Prelude.{◌≡◌, IfOk, IfErr, MatchResult};
ghost use Rattle.report_line.specs.declared.report.ReportKind.TheVariants as actions;
ghost use Rattle.process.specs.Faults.{RefusesEvent, RefusesReport, RefusesAgain, RefusesReceipt, RefusesFork, RefusesLeaf, RefusesRetirement, RefusesAbsorption, RefusesKept, RefusesReturn};
ghost use Rattle.process.specs.declared.fault.ProcessFault.TheVariants.{Memory};
ghost use Rattle.process_c.specs.declared.fault.Fault.TheVariants.{Refused};
ghost use Rattle.process_c.specs.Texts.{IsStateOf, IsMessageOf, IsRetirementOf};
ghost use Rattle.process_c.specs.Given.{IsWork, IsTelling, IsSending, IsHandingOver, IsReceipt, IsHalving, IsCarving, IsAbsorption, IsKeptAbsorption, IsReturn, IsReturned, Handed, Gives, GivesRoot, GivesChild, GivesRetirement};
ghost use Rattle.process_c.specs.Refusals.{ByProcess, ByName, ByText, Refuses, RefusesRoot, RefusesChild, RefusesReturned};

use crate::fault::Fault;
use crate::reading::{read_name, read_start, read_state};
use crate::stepping;
use crate::writing::{state, state_and_line};
use process::{Process, Start};
use report_line::Name;
use std::alloc::Global;

// The root of this name.
fn begun(alloc: Global, name: &Name) -> Result<Vec<u8>, Fault>
    ensures ok { IfOk result (λ v. GivesRoot name.now v.items) }
    ensures err { IfErr result (λ fault. fault ≡ Refused Memory) }
{
    let (process, line) = Process::root(alloc, name)?;
    process.recall_facts();
    Ok(state_and_line(alloc, &process, &line)?)
}

/// Begins as the root.
pub fn root(alloc: Global, name: &[u8]) -> Result<Vec<u8>, Fault>
    ensures { MatchResult result (λ v. GivesRoot name.now v.items) (RefusesRoot name.now) }
{
    let name = read_name(name)?;
    begun(alloc, &name)
}

/// Begins as the child that the start is for.
pub fn born(alloc: Global, start: &[u8]) -> Result<Vec<u8>, Fault>
    ensures { MatchResult result (λ v. GivesChild start.now v.items) (RefusesChild start.now) }
{
    let start = read_start(alloc, start)?;
    let process = Process::born(start);
    process.recall_facts();
    Ok(state(alloc, &process)?)
}

/// Works.
pub fn work(alloc: Global, state: &[u8]) -> Result<Vec<u8>, Fault>
    ensures { MatchResult result (λ v. Gives (IsWork) state.now v.items) (Refuses (ByProcess (λ fault p. RefusesEvent fault p.stamp)) state.now) }
{
    let mut process = read_state(alloc, state)?;
    stepping::work(alloc, &mut process)
}

/// Takes a checkpoint.
pub fn check(alloc: Global, state: &[u8]) -> Result<Vec<u8>, Fault>
    ensures { MatchResult result (λ v. Gives (IsTelling actions.Check) state.now v.items) (Refuses (ByProcess RefusesReport) state.now) }
{
    let mut process = read_state(alloc, state)?;
    stepping::check(alloc, &mut process)
}

/// Tells its present state.
pub fn present(alloc: Global, state: &[u8]) -> Result<Vec<u8>, Fault>
    ensures { MatchResult result (λ v. Gives (IsTelling actions.Present) state.now v.items) (Refuses (ByProcess RefusesReport) state.now) }
{
    let mut process = read_state(alloc, state)?;
    stepping::present(alloc, &mut process)
}

/// Sends a message.
pub fn send(alloc: Global, state: &[u8]) -> Result<Vec<u8>, Fault>
    ensures { MatchResult result (λ v. Gives (IsSending) state.now v.items) (Refuses (ByProcess (λ fault p. RefusesEvent fault p.stamp)) state.now) }
{
    let mut process = read_state(alloc, state)?;
    stepping::send(alloc, &mut process)
}

/// Hands a message over once more.
pub fn again(alloc: Global, state: &[u8], message: &[u8]) -> Result<Vec<u8>, Fault>
    ensures { MatchResult result (λ v. Gives (Handed IsMessageOf IsHandingOver message.now) state.now v.items) (Refuses (ByText IsMessageOf (λ m fault p. RefusesAgain fault p m) message.now) state.now) }
{
    let process = read_state(alloc, state)?;
    let again = stepping::again(alloc, &process, message);
    drop(process);
    again
}

/// Receives a message.
pub fn receive(alloc: Global, state: &[u8], message: &[u8]) -> Result<Vec<u8>, Fault>
    ensures { MatchResult result (λ v. Gives (Handed IsMessageOf IsReceipt message.now) state.now v.items) (Refuses (ByText IsMessageOf (λ m fault p. RefusesReceipt fault p.epoch p.stamp m) message.now) state.now) }
{
    let mut process = read_state(alloc, state)?;
    stepping::receive(alloc, &mut process, message)
}

/// Makes a child by halves.
pub fn fork(alloc: Global, state: &[u8], child: &[u8]) -> Result<Vec<u8>, Fault>
    ensures { MatchResult result (λ v. Gives (IsHalving child.now) state.now v.items) (Refuses (ByName (λ fault p. RefusesFork fault p child.now) child.now) state.now) }
{
    let mut process = read_state(alloc, state)?;
    stepping::fork(alloc, &mut process, child)
}

/// Makes a child with a leaf of this depth.
pub fn fork_small(alloc: Global, state: &[u8], child: &[u8], depth: u8) -> Result<Vec<u8>, Fault>
    ensures { MatchResult result (λ v. Gives (IsCarving child.now depth) state.now v.items) (Refuses (ByName (λ fault p. RefusesLeaf fault p child.now depth) child.now) state.now) }
{
    let mut process = read_state(alloc, state)?;
    stepping::fork_small(alloc, &mut process, child, depth)
}

/// Absorbs a retirement.
pub fn absorb(alloc: Global, state: &[u8], retirement: &[u8]) -> Result<Vec<u8>, Fault>
    ensures { MatchResult result (λ v. Gives (Handed IsRetirementOf IsAbsorption retirement.now) state.now v.items) (Refuses (ByText IsRetirementOf (λ r fault p. RefusesAbsorption fault p r) retirement.now) state.now) }
{
    let mut process = read_state(alloc, state)?;
    stepping::absorb(alloc, &mut process, retirement)
}

/// Absorbs a retirement that settlements kept.
pub fn absorb_kept(alloc: Global, state: &[u8], retirement: &[u8]) -> Result<Vec<u8>, Fault>
    ensures { MatchResult result (λ v. Gives (Handed IsRetirementOf IsKeptAbsorption retirement.now) state.now v.items) (Refuses (ByText IsRetirementOf (λ r fault p. RefusesKept fault p r) retirement.now) state.now) }
{
    let mut process = read_state(alloc, state)?;
    stepping::absorb_kept(alloc, &mut process, retirement)
}

/// Returns to what was kept, in this epoch.
pub fn return_to(alloc: Global, state: &[u8], kept: &[u8], epoch: u32) -> Result<Vec<u8>, Fault>
    ensures { MatchResult result (λ v. Gives (Handed IsStateOf (IsReturn epoch) kept.now) state.now v.items) (Refuses (ByText IsStateOf (λ k fault p. RefusesReturn fault p k epoch) kept.now) state.now) }
{
    let mut process = read_state(alloc, state)?;
    stepping::return_to(alloc, &mut process, kept, epoch)
}

/// Returns to what it is, in this epoch.
pub fn returned(alloc: Global, state: &[u8], epoch: u32) -> Result<Vec<u8>, Fault>
    ensures { MatchResult result (λ v. Gives (IsReturned epoch) state.now v.items) (Refuses (ByProcess (RefusesReturned epoch)) state.now) }
{
    let mut process = read_state(alloc, state)?;
    stepping::returned(alloc, &mut process, epoch)
}

/// Ends, for this target.
pub fn retire(alloc: Global, state: &[u8], target: &[u8]) -> Result<Vec<u8>, Fault>
    ensures { MatchResult result (λ v. GivesRetirement target.now state.now v.items) (Refuses (ByName (λ fault p. RefusesRetirement fault p target.now) target.now) state.now) }
{
    let process = read_state(alloc, state)?;
    stepping::retire(alloc, process, target)
}
