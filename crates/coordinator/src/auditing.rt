//! The test at the end: the turns are those of the passes, each once, and each shown line is right.

ghost use Rattle.std.specs.Prelude.{◌≡◌, ◌^◌, ◌≤◌, ◌<◌, [], All, Contains, false, length, sum, slice_get, IfErr, IfNone, IfSome, OnOk, IsTrue, ◌↔◌};
ghost use Rattle.chains.specs.Held.{Held, held_of};
ghost use Rattle.desk.specs.Replays.{Replays};
ghost use Rattle.coordinator.specs.Passes.{PassEntry};
ghost use Rattle.coordinator.specs.Closing.{IsAtTurn, IsAudited, IsCause, IsAuditCause, IsStrange, entries_of};
ghost use Rattle.coordinator.specs.working.Marks.{IsMarked, AreOwned, IsCauseWithFits};
ghost use Rattle.desk.specs.Lawful.{turn_limit};

use crate::fault::CloseFault;
use crate::marking::{Owner, is_at_turn, mark};
use crate::pass::Pass;
use crate::replaying::check_lines;
use chains::Chains;
use desk::{Desk, Turn};
use line_disk::Disk;
use std::sync::ledger::Ledger;

/// Whether both have accepted the same report there, or none.
fn is_same_report(a: &Chains, b: &Chains, i: u32) -> bool
    ensures { IsTrue result ↔ (slice_get a.now.accepted i ≡ slice_get b.now.accepted i) }
{
    match a.report(i) {
        None => match b.report(i) {
            None => true,
            Some(_) => false,
        },
        Some(mine) => match b.report(i) {
            None => false,
            Some(other) => mine.equal(other),
        },
    }
}

/// Whether both have the same epoch beside the report there, or none.
fn is_same_epoch(a: &Chains, b: &Chains, i: u32) -> bool
    ensures { IsTrue result ↔ (slice_get a.now.epochs i ≡ slice_get b.now.epochs i) }
{
    a.epoch_at(i) == b.epoch_at(i)
}

/// Whether both have accepted the same list, with the same epochs.
fn have_same_reports(a: &Chains, b: &Chains) -> bool
    requires { a.now.front ≡ b.now.front }
    ensures { IsTrue result ↔ ((a.now.accepted ≡ b.now.accepted) × (a.now.epochs ≡ b.now.epochs)) }
{
    a.recall_lawful();
    b.recall_lawful();
    for i in 0..a.front() {
        if !is_same_report(a, b, i) || !is_same_epoch(a, b, i) {
            return false;
        }
    }
    true
}

/// Whether both hold the same.
fn hold_the_same(a: &Chains, b: &Chains) -> bool
    ensures { IsTrue result ↔ (held_of a.now ≡ held_of b.now) }
{
    if a.front() != b.front() {
        return false;
    }
    if a.epoch() != b.epoch() {
        return false;
    }
    have_same_reports(a, b)
}

/// Marks the turns of all passes.
fn mark_all<L: Ledger>(
    turns: &[Turn],
    passes: &[Pass<L>],
    marks: &mut [u64],
    owners: &mut [Owner],
) -> Result<(), CloseFault>
    requires length { length marks.old ≡ length turns.now }
    requires owners_length { length owners.old ≡ length turns.now }
    requires marked { IsMarked turns.now marks.old [] }
    ensures length { OnOk result (length marks.new ≡ length turns.now) }
    ensures owners_length { OnOk result (length owners.new ≡ length turns.now) }
    ensures ok { OnOk result (IsMarked turns.now marks.new (entries_of passes.now)) }
    ensures owned { OnOk result (AreOwned turns.now passes.now marks.new owners.new (length passes.now) 0) }
    ensures err { IfErr result (λ fault. (opening : Held) → IsCause opening turns.now passes.now fault) }
{
    for place in 0..passes.len() {
        match mark(turns, passes, place, marks, owners) {
            Ok(()) => {}
            Err(fault) => return Err(fault),
        }
    }
    Ok(())
}

fn total(marks: &[u64]) -> u64
    requires { sum marks.now < 2 ^ 64 }
    ensures { result ≡ sum marks.now }
{
    marks.iter().sum()
}

/// Marks the turns, and tests them and the shown lines.
fn audit_marked<L: Ledger>(
    opening: &Chains,
    chains: &mut Chains,
    turns: &[Turn],
    passes: &[Pass<L>],
    marks: &mut [u64],
    owners: &mut [Owner],
) -> Result<(), CloseFault>
    requires unchanged { held_of chains.old ≡ held_of opening.now }
    requires at_most { length turns.now ≤ turn_limit }
    requires replays { (end : Held) × Replays (held_of opening.now) turns.now end }
    requires length { length marks.old ≡ length turns.now }
    requires owners_length { length owners.old ≡ length turns.now }
    requires marked { IsMarked turns.now marks.old [] }
    ensures ok { OnOk result (IsAudited (held_of opening.now) turns.now passes.now) }
    ensures err { IfErr result (IsCause (held_of opening.now) turns.now passes.now) }
{
    match mark_all(turns, passes, marks, owners) {
        Ok(()) => {}
        Err(fault) => return Err(fault),
    }
    match check_lines(opening, chains, turns, passes, owners) {
        Ok(()) => {}
        Err(fault) => return Err(fault),
    }
    let shares = total(marks);
    let turns = turns.len() as u64;
    if shares < turns {
        return Err(CloseFault::Missing {
            shares: shares as u32,
            turns: turns as u32,
        });
    }
    Ok(())
}

/// Whether these turns are those of the passes, each once, and each shown line is right over what the turns before it replay to.
fn audit_turns<L: Ledger>(
    opening: &Chains,
    chains: &mut Chains,
    turns: &[Turn],
    passes: &[Pass<L>],
) -> Result<(), CloseFault>
    requires unchanged { held_of chains.old ≡ held_of opening.now }
    requires at_most { length turns.now ≤ turn_limit }
    requires replays { (end : Held) × Replays (held_of opening.now) turns.now end }
    ensures ok { OnOk result (IsAudited (held_of opening.now) turns.now passes.now) }
    ensures err { IfErr result (IsCause (held_of opening.now) turns.now passes.now) }
{
    let alloc = opening.alloc();
    let Ok(mut marks) = Vec::from_elem(alloc, 0u64, turns.len()) else {
        return Err(CloseFault::Memory);
    };
    let nowhere = Owner { pass: 0, entry: 0 };
    let Ok(mut owners) = Vec::from_elem(alloc, nowhere, turns.len()) else {
        return Err(CloseFault::Memory);
    };
    audit_marked(opening, chains, turns, passes, &mut marks, &mut owners)
}

/// Whether each entry of the pass stands at its turn.
fn fits<L: Ledger>(turns: &[Turn], pass: &Pass<L>) -> bool
    ensures yes { IsTrue result → All (IsAtTurn turns.now) pass.now.entries }
    ensures no { result ≡ false → (e : PassEntry) × Contains pass.now.entries e × ¬ IsAtTurn turns.now e }
{
    let entries = pass.entries();
    for k in 0..entries.len() {
        let entry = &entries[k];
        if !is_at_turn(turns, entry) {
            return false;
        }
    }
    true
}

/// The number of the first pass with an entry that does not stand at its turn, if there is one. It takes no memory.
fn first_strange<L: Ledger>(turns: &[Turn], passes: &[Pass<L>]) -> Option<u32>
    ensures some { IfSome result (λ number. (opening : Held) → IsStrange opening turns.now passes.now number) }
    ensures none { IfNone result (All (IsAtTurn turns.now) (entries_of passes.now)) }
{
    for place in 0..passes.len() {
        let pass = &passes[place];
        if !fits(turns, pass) {
            return Some(pass.number());
        }
    }
    None
}

/// The fault of an audit. If memory is missing, each entry is still compared with its turn.
fn fault_with_fits<L: Ledger>(fault: CloseFault, turns: &[Turn], passes: &[Pass<L>]) -> CloseFault
    ensures { (opening : Held) → IsCause opening turns.now passes.now fault → IsCauseWithFits opening turns.now passes.now result }
{
    match fault {
        CloseFault::Memory => match first_strange(turns, passes) {
            Some(number) => CloseFault::Stranger(number),
            None => CloseFault::Memory,
        },
        CloseFault::Stranger(number) => CloseFault::Stranger(number),
        CloseFault::Missing { shares, turns } => CloseFault::Missing { shares, turns },
    }
}

/// The same over a copy of what was held at the opening.
fn audit_copy<L: Ledger, D: Disk>(
    opening: &Chains,
    desk: &Desk<D>,
    passes: &[Pass<L>],
) -> Result<(), CloseFault>
    requires { held_of opening.now ≡ desk.now.opening }
    ensures ok { OnOk result (IsAudited desk.now.opening desk.now.turns passes.now) }
    ensures err { IfErr result (IsCause desk.now.opening desk.now.turns passes.now) }
{
    desk.recall_lawful();
    let Ok(mut chains) = desk.opening() else {
        return Err(CloseFault::Memory);
    };
    audit_turns(opening, &mut chains, desk.turns(), passes)
}

/// Whether the desk was opened with what these chains hold, its turns are those of the passes, each once, and each line
/// that a pass shows is the one that was asked for over what the turns before its own replay to.
pub fn audit<L: Ledger, D: Disk>(
    opening: &Chains,
    desk: &Desk<D>,
    passes: &[Pass<L>],
) -> Result<(), CloseFault>
    ensures opening { OnOk result (held_of opening.now ≡ desk.now.opening) }
    ensures ok { OnOk result (IsAudited desk.now.opening desk.now.turns passes.now) }
    ensures err { IfErr result (IsAuditCause (held_of opening.now) desk.now passes.now) }
{
    if !hold_the_same(opening, desk.opened_with()) {
        return Err(CloseFault::Stranger(0));
    }
    match audit_copy(opening, desk, passes) {
        Ok(()) => Ok(()),
        Err(fault) => Err(fault_with_fits(fault, desk.turns(), passes)),
    }
}
