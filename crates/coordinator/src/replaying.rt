//! One replay of the turns, in which each shown line is tested at its place.

ghost use Rattle.std.specs.Prelude.{◌≡◌, ◌≢◌, ◌≤◌, ◌<◌, false, length, IfErr, IfOk, OnOk};
ghost use Rattle.chains.specs.Held.{Held, held_of, with_report};
ghost use Rattle.report_line.specs.declared.marked.MarkedReport.{MarkedReport as AnyReport};
ghost use Rattle.report_line.specs.declared.call.Call.TheVariants as calls;
ghost use Rattle.chains.specs.Settled.{IsSettled};
ghost use Rattle.chains.specs.Turns.{IsTurn};
ghost use Rattle.desk.specs.Replays.{Replays};
ghost use Rattle.coordinator.specs.working.Checks.{AreRight, HaveSame, IsCheckedOver, IsWrongOver, AreCheckedTo, IsWrongThere};

use crate::fault::CloseFault;
use crate::found::{forget_if, is_found, remember};
use crate::marking::Owner;
use crate::pass::Pass;
use crate::shown_lines::is_right;
use chains::{Admitted, Chains};
use desk::Turn;
use propagate::settle_named;
use report_line::{Call, MarkedReport, Names, Reply};
use std::alloc::AllocError;
use std::sync::ledger::Ledger;

/// Tests the entry that has this turn, if it is there. Answers whether that had to be done anew.
fn check_entry<L: Ledger>(
    chains: &Chains,
    passes: &[Pass<L>],
    found: &[Owner],
    owner: Owner,
    turn: usize,
) -> Result<bool, CloseFault>
    requires { AreRight passes.now (held_of chains.now) found.now }
    ensures ok { OnOk result (IsCheckedOver (held_of chains.now) passes.now owner turn) }
    ensures err { IfErr result (IsWrongOver (held_of chains.now) passes.now owner turn) }
{
    if owner.pass >= passes.len() {
        return Ok(false);
    }
    let pass = &passes[owner.pass];
    let entries = pass.entries();
    if owner.entry >= entries.len() {
        return Ok(false);
    }
    let entry = &entries[owner.entry];
    if entry.receipt().turn as usize != turn {
        return Ok(false);
    }
    if is_found(passes, found, entry) {
        return Ok(false);
    }
    match is_right(chains, entry) {
        Ok(true) => Ok(true),
        Ok(false) => Err(CloseFault::Stranger(pass.number())),
        Err(_) => Err(CloseFault::Memory),
    }
}

/// Accepts a report that was accepted over the same list before: memory aside it is accepted again.
fn accept_again(chains: &mut Chains, report: &MarkedReport) -> Result<(), AllocError>
    ensures { OnOk result (held_of chains.new ≡ with_report (held_of chains.old) report.now) }
{
    match chains.admit_shared(report.share()?) {
        Ok(Admitted::Accepted(_)) => Ok(()),
        _ => Err(AllocError),
    }
}

/// Returns all processes once more to the line of these failed ones: over what was held then, memory aside, they return again.
fn settle_again(chains: &mut Chains, names: &Names) -> Result<(), AllocError>
    ensures { OnOk result (IsSettled (held_of chains.old) names.now (held_of chains.new)) }
{
    let Ok(()) = chains.may_settle(chains.front(), names) else {
        return Err(AllocError);
    };
    *chains = settle_named(chains, names)?;
    Ok(())
}

/// Replays one turn of another call than a report, and answers whether that changed anything.
fn replay_other(chains: &mut Chains, turn: &Turn) -> Result<bool, AllocError>
    requires { (m : AnyReport) → turn.now.call ≢ calls.Report m }
    ensures unchanged { IfOk result (λ changed. changed ≡ false → chains.new ≡ chains.old) }
    ensures replayed { (held after : Held) → HaveSame chains.old held → IsTurn held turn.now.call turn.now.receipt.reply after → OnOk result (HaveSame chains.new after) }
{
    let Call::Settle { names, .. } = &turn.call else {
        return Ok(false);
    };
    let Reply::Settled { .. } = &turn.receipt.reply else {
        return Ok(false);
    };
    settle_again(chains, names)?;
    Ok(true)
}

/// Replays one turn, and answers whether that changed anything.
fn replay(chains: &mut Chains, turn: &Turn) -> Result<bool, AllocError>
    ensures unchanged { IfOk result (λ changed. changed ≡ false → chains.new ≡ chains.old) }
    ensures replayed { (held after : Held) → HaveSame chains.old held → IsTurn held turn.now.call turn.now.receipt.reply after → OnOk result (HaveSame chains.new after) }
{
    let Call::Report(report) = &turn.call else {
        return replay_other(chains, turn);
    };
    let Reply::Accepted(_) = &turn.receipt.reply else {
        return Ok(false);
    };
    accept_again(chains, report)?;
    Ok(true)
}

/// Replays the turns over what was held at the opening, and tests at each the entry that has it.
pub(crate) fn check_lines<L: Ledger>(
    opening: &Chains,
    chains: &mut Chains,
    turns: &[Turn],
    passes: &[Pass<L>],
    owners: &[Owner],
) -> Result<(), CloseFault>
    requires unchanged { held_of chains.old ≡ held_of opening.now }
    requires length { length owners.now ≡ length turns.now }
    requires replays { (end : Held) × Replays (held_of opening.now) turns.now end }
    ensures ok { OnOk result (AreCheckedTo (held_of opening.now) turns.now passes.now owners.now (length turns.now)) }
    ensures err { IfErr result (IsWrongThere (held_of opening.now) turns.now passes.now) }
{
    let mut found = Vec::new(opening.alloc());
    for i in 0..turns.len() {
        let owner = owners[i];
        let is_new = match check_entry(chains, passes, &found, owner, i + 1) {
            Ok(is_new) => is_new,
            Err(fault) => return Err(fault),
        };
        remember(passes, &mut found, owner, i + 1, is_new);
        let turn = &turns[i];
        let Ok(changed) = replay(chains, turn) else {
            return Err(CloseFault::Memory);
        };
        forget_if(&mut found, changed);
    }
    Ok(())
}
