//! What each call does to a process that was read.

ghost use Rattle.std.specs.Prelude.{◌≡◌, IfOk, IfErr, MatchResult};
ghost use Rattle.report_line.specs.declared.report.ReportKind.TheVariants as actions;
ghost use Rattle.process.specs.Faults.{RefusesEvent, RefusesReport, RefusesAgain, RefusesReceipt, RefusesFork, RefusesLeaf, RefusesRetirement, RefusesAbsorption, RefusesKept, RefusesReturn};
ghost use Rattle.process_c.specs.Texts.{IsStateOf, IsMessageOf, IsRetirementOf};
ghost use Rattle.process_c.specs.Given.{IsWork, IsTelling, IsSending, IsHandingOver, IsReceipt, IsHalving, IsCarving, IsAbsorption, IsKeptAbsorption, IsReturn, IsReturned, Becomes, Handed, IsEnd};
ghost use Rattle.process_c.specs.Refusals.{ByProcess, ByName, ByText, RefusesReturned};
ghost use Rattle.process_c.specs.working.Causes.{IsUnreturned};

use crate::fault::Fault;
use crate::reading::{read_kept, read_message, read_name, read_retirement};
use crate::writing::{
    line_and_retirement, state, state_and_line, state_and_message, state_line_and_start,
};
use process::{Message, Process, ProcessFault, Retirement};
use report_line::Name;
use std::alloc::Global;

/// Works.
pub fn work(alloc: Global, process: &mut Process) -> Result<Vec<u8>, Fault>
    ensures ok { IfOk result (λ v. Becomes (IsWork process.old) v.items) }
    ensures err { IfErr result (ByProcess (λ fault p. RefusesEvent fault p.stamp) process.old) }
{
    process.work(alloc)?;
    process.recall_facts();
    Ok(state(alloc, process)?)
}

/// Takes a checkpoint.
pub fn check(alloc: Global, process: &mut Process) -> Result<Vec<u8>, Fault>
    ensures ok { IfOk result (λ v. Becomes (IsTelling actions.Check process.old) v.items) }
    ensures err { IfErr result (ByProcess RefusesReport process.old) }
{
    let line = process.check(alloc)?;
    process.recall_facts();
    Ok(state_and_line(alloc, process, &line)?)
}

/// Tells its present state.
pub fn present(alloc: Global, process: &mut Process) -> Result<Vec<u8>, Fault>
    ensures ok { IfOk result (λ v. Becomes (IsTelling actions.Present process.old) v.items) }
    ensures err { IfErr result (ByProcess RefusesReport process.old) }
{
    let line = process.present(alloc)?;
    process.recall_facts();
    Ok(state_and_line(alloc, process, &line)?)
}

/// Sends a message.
pub fn send(alloc: Global, process: &mut Process) -> Result<Vec<u8>, Fault>
    ensures ok { IfOk result (λ v. Becomes (IsSending process.old) v.items) }
    ensures err { IfErr result (ByProcess (λ fault p. RefusesEvent fault p.stamp) process.old) }
{
    let message = process.send(alloc)?;
    process.recall_facts();
    message.recall_facts();
    Ok(state_and_message(alloc, process, &message)?)
}

// Hands this message over once more.
fn handed_again(alloc: Global, process: &Process, message: &Message) -> Result<Vec<u8>, Fault>
    ensures ok { IfOk result (λ v. Becomes (IsHandingOver message.now process.now) v.items) }
    ensures err { IfErr result (ByProcess (λ fault p. RefusesAgain fault p message.now) process.now) }
{
    let again = process.again(alloc, message)?;
    process.recall_facts();
    again.recall_facts();
    Ok(state_and_message(alloc, process, &again)?)
}

/// Hands the message of this text over once more.
pub fn again(alloc: Global, process: &Process, text: &[u8]) -> Result<Vec<u8>, Fault>
    ensures ok { IfOk result (λ v. Becomes (Handed IsMessageOf IsHandingOver text.now process.now) v.items) }
    ensures err { IfErr result (ByText IsMessageOf (λ m fault p. RefusesAgain fault p m) text.now process.now) }
{
    let message = read_message(alloc, text)?;
    handed_again(alloc, process, &message)
}

// Receives this message.
fn received(alloc: Global, process: &mut Process, message: &Message) -> Result<Vec<u8>, Fault>
    ensures ok { IfOk result (λ v. Becomes (IsReceipt message.now process.old) v.items) }
    ensures err { IfErr result (ByProcess (λ fault p. RefusesReceipt fault p.epoch p.stamp message.now) process.old) }
{
    process.receive(alloc, message)?;
    process.recall_facts();
    Ok(state(alloc, process)?)
}

/// Receives the message of this text.
pub fn receive(alloc: Global, process: &mut Process, text: &[u8]) -> Result<Vec<u8>, Fault>
    ensures ok { IfOk result (λ v. Becomes (Handed IsMessageOf IsReceipt text.now process.old) v.items) }
    ensures err { IfErr result (ByText IsMessageOf (λ m fault p. RefusesReceipt fault p.epoch p.stamp m) text.now process.old) }
{
    let message = read_message(alloc, text)?;
    received(alloc, process, &message)
}

// Makes a child by halves.
fn forked(alloc: Global, process: &mut Process, child: &Name) -> Result<Vec<u8>, Fault>
    ensures ok { IfOk result (λ v. Becomes (IsHalving child.now process.old) v.items) }
    ensures err { IfErr result (ByProcess (λ fault p. RefusesFork fault p child.now) process.old) }
{
    let (line, start) = process.fork(alloc, child)?;
    process.recall_facts();
    start.recall_facts();
    Ok(state_line_and_start(alloc, process, &line, &start)?)
}

/// Makes a child of this name by halves.
pub fn fork(alloc: Global, process: &mut Process, name: &[u8]) -> Result<Vec<u8>, Fault>
    ensures ok { IfOk result (λ v. Becomes (IsHalving name.now process.old) v.items) }
    ensures err { IfErr result (ByName (λ fault p. RefusesFork fault p name.now) name.now process.old) }
{
    let child = read_name(name)?;
    forked(alloc, process, &child)
}

// Makes a child with a leaf.
fn carved(alloc: Global, process: &mut Process, child: &Name, depth: u8) -> Result<Vec<u8>, Fault>
    ensures ok { IfOk result (λ v. Becomes (IsCarving child.now depth process.old) v.items) }
    ensures err { IfErr result (ByProcess (λ fault p. RefusesLeaf fault p child.now depth) process.old) }
{
    let (line, start) = process.fork_small(alloc, child, depth)?;
    process.recall_facts();
    start.recall_facts();
    Ok(state_line_and_start(alloc, process, &line, &start)?)
}

/// Makes a child of this name with a leaf of this depth.
pub fn fork_small(
    alloc: Global,
    process: &mut Process,
    name: &[u8],
    depth: u8,
) -> Result<Vec<u8>, Fault>
    ensures ok { IfOk result (λ v. Becomes (IsCarving name.now depth process.old) v.items) }
    ensures err { IfErr result (ByName (λ fault p. RefusesLeaf fault p name.now depth) name.now process.old) }
{
    let child = read_name(name)?;
    carved(alloc, process, &child, depth)
}

// Absorbs this retirement.
fn absorbed(alloc: Global, process: &mut Process, retirement: &Retirement) -> Result<Vec<u8>, Fault>
    ensures ok { IfOk result (λ v. Becomes (IsAbsorption retirement.now process.old) v.items) }
    ensures err { IfErr result (ByProcess (λ fault p. RefusesAbsorption fault p retirement.now) process.old) }
{
    let line = process.absorb(alloc, retirement)?;
    process.recall_facts();
    Ok(state_and_line(alloc, process, &line)?)
}

/// Absorbs the retirement of this text.
pub fn absorb(alloc: Global, process: &mut Process, text: &[u8]) -> Result<Vec<u8>, Fault>
    ensures ok { IfOk result (λ v. Becomes (Handed IsRetirementOf IsAbsorption text.now process.old) v.items) }
    ensures err { IfErr result (ByText IsRetirementOf (λ r fault p. RefusesAbsorption fault p r) text.now process.old) }
{
    let retirement = read_retirement(alloc, text)?;
    absorbed(alloc, process, &retirement)
}

// Absorbs this retirement, which settlements kept.
fn absorbed_kept(
    alloc: Global,
    process: &mut Process,
    retirement: &Retirement,
) -> Result<Vec<u8>, Fault>
    ensures ok { IfOk result (λ v. Becomes (IsKeptAbsorption retirement.now process.old) v.items) }
    ensures err { IfErr result (ByProcess (λ fault p. RefusesKept fault p retirement.now) process.old) }
{
    let line = process.absorb_kept(alloc, retirement)?;
    process.recall_facts();
    Ok(state_and_line(alloc, process, &line)?)
}

/// Absorbs the retirement of this text, which settlements kept.
pub fn absorb_kept(alloc: Global, process: &mut Process, text: &[u8]) -> Result<Vec<u8>, Fault>
    ensures ok { IfOk result (λ v. Becomes (Handed IsRetirementOf IsKeptAbsorption text.now process.old) v.items) }
    ensures err { IfErr result (ByText IsRetirementOf (λ r fault p. RefusesKept fault p r) text.now process.old) }
{
    let retirement = read_retirement(alloc, text)?;
    absorbed_kept(alloc, process, &retirement)
}

// Returns to what was kept of it.
fn returned_to(
    alloc: Global,
    process: &mut Process,
    kept: Process,
    epoch: u32,
) -> Result<Vec<u8>, Fault>
    ensures ok { IfOk result (λ v. Becomes (IsReturn epoch kept process.old) v.items) }
    ensures err { IfErr result (ByProcess (IsUnreturned kept epoch) process.old) }
{
    match process.return_to(kept, epoch) {
        Ok(()) => {
            process.recall_facts();
            Ok(state(alloc, process)?)
        }
        Err(refused) => Err(fault_of(refused)),
    }
}

/// Returns to the state of this text, which was kept of it.
pub fn return_to(
    alloc: Global,
    process: &mut Process,
    text: &[u8],
    epoch: u32,
) -> Result<Vec<u8>, Fault>
    ensures ok { IfOk result (λ v. Becomes (Handed IsStateOf (IsReturn epoch) text.now process.old) v.items) }
    ensures err { IfErr result (ByText IsStateOf (λ kept fault p. RefusesReturn fault p kept epoch) text.now process.old) }
{
    let kept = read_kept(alloc, text)?;
    returned_to(alloc, process, kept, epoch)
}

/// Returns to what it is, in this epoch.
pub fn returned(alloc: Global, process: &mut Process, epoch: u32) -> Result<Vec<u8>, Fault>
    ensures ok { IfOk result (λ v. Becomes (IsReturned epoch process.old) v.items) }
    ensures err { IfErr result (ByProcess (RefusesReturned epoch) process.old) }
{
    if !process.returned(epoch) {
        return Err(Fault::Refused(ProcessFault::Older));
    }
    process.recall_facts();
    Ok(state(alloc, process)?)
}

// The fault with which a process was given back.
fn fault_of(refused: (ProcessFault, Process)) -> Fault
    ensures { result ≡ Fault.Refused refused.0 }
{
    Fault::Refused(refused.0)
}

// Ends, for this target.
fn retired(alloc: Global, process: Process, target: &Name) -> Result<Vec<u8>, Fault>
    ensures ok { IfOk result (λ v. IsEnd target.now process v.items) }
    ensures err { IfErr result (ByProcess (λ fault p. RefusesRetirement fault p target.now) process) }
{
    match process.retire(alloc, target) {
        Ok((line, retirement)) => {
            retirement.recall_facts();
            Ok(line_and_retirement(alloc, &line, &retirement)?)
        }
        Err(refused) => Err(fault_of(refused)),
    }
}

/// Ends, for the target of this name.
pub fn retire(alloc: Global, process: Process, name: &[u8]) -> Result<Vec<u8>, Fault>
    ensures ok { IfOk result (λ v. IsEnd name.now process v.items) }
    ensures err { IfErr result (ByName (λ fault p. RefusesRetirement fault p name.now) name.now process) }
{
    let target = match read_name(name) {
        Ok(target) => target,
        Err(fault) => {
            drop(process);
            return Err(fault);
        }
    };
    retired(alloc, process, &target)
}
