//! Marks: which turns have an entry, and where it stands.

ghost use Rattle.std.specs.Prelude.{◌≡◌, ◌+◌, ◌≤◌, ◌<◌, length, take, IfErr, OnOk, IsTrue, ◌↔◌};
ghost use Rattle.desk.specs.declared.turn.Turn.{Turn as AnyTurn};
ghost use Rattle.chains.specs.Held.{Held};
ghost use Rattle.coordinator.specs.Closing.{IsAtTurn, IsCause, entries_of};
ghost use Rattle.coordinator.specs.working.Marks.{IsMarked, AreOwned};

use crate::entry::Entry;
use crate::equal::{same_call, same_receipt};
use crate::fault::CloseFault;
use crate::pass::Pass;
use desk::Turn;
use std::sync::ledger::Ledger;

/// The entry of a turn: its pass by its place in the list of passes, and its own place in that pass, both counted from 0.
#[derive(Clone, Copy)]
pub(crate) struct Owner {
    pub(crate) pass: usize,
    pub(crate) entry: usize,
}

/// Whether the entry's call and receipt stand at its turn.
pub(crate) fn is_at_turn(turns: &[Turn], entry: &Entry) -> bool
    ensures { IsTrue result ↔ IsAtTurn turns.now entry.now }
{
    let receipt = entry.receipt();
    let number = receipt.turn as usize;
    if number == 0 || number > turns.len() {
        return false;
    }
    let turn = &turns[number - 1];
    same_call(&turn.call, entry.call()) && same_receipt(&turn.receipt, receipt)
}

/// Marks the turns of one pass.
pub(crate) fn mark<L: Ledger>(
    turns: &[Turn],
    passes: &[Pass<L>],
    place: usize,
    marks: &mut [u64],
    owners: &mut [Owner],
) -> Result<(), CloseFault>
    requires place { place < length passes.now }
    requires length { length marks.old ≡ length turns.now }
    requires owners_length { length owners.old ≡ length turns.now }
    requires marked { IsMarked turns.now marks.old (entries_of (take place passes.now)) }
    requires owned { AreOwned turns.now passes.now marks.old owners.old place 0 }
    ensures ok { OnOk result (IsMarked turns.now marks.new (entries_of (take (place + 1) passes.now))) }
    ensures owned { OnOk result (AreOwned turns.now passes.now marks.new owners.new (place + 1) 0) }
    ensures err { IfErr result (λ fault. (opening : Held) → IsCause opening turns.now passes.now fault) }
{
    let pass = &passes[place];
    let number = pass.number();
    let entries = pass.entries();
    for k in 0..entries.len() {
        let entry = &entries[k];
        if !is_at_turn(turns, entry) {
            return Err(CloseFault::Stranger(number));
        }
        let at = entry.receipt().turn as usize - 1;
        if marks[at] != 0 {
            return Err(CloseFault::Stranger(number));
        }
        marks[at] = 1;
        owners[at] = Owner {
            pass: place,
            entry: k,
        };
    }
    Ok(())
}
