//! Which entries show lines that were found right since the accepted list last changed, so that an equal question is not answered again.

ghost use Rattle.std.specs.Prelude.{◌≡◌, [], Some, IfSome, IsTrue, if◌then◌else◌, slice_get};
ghost use Rattle.chains.specs.Held.{Held};
ghost use Rattle.coordinator.specs.Passes.{PassState};
ghost use Rattle.coordinator.specs.working.Checks.{AreRight, IsCheckedOver, IsRightAt, RightOver};

use crate::entry::Entry;
use crate::equal::same_call;
use crate::marking::Owner;
use crate::pass::Pass;
use report_line::Reply;
use std::sync::ledger::Ledger;

/// So many are kept: a question is held against each of them.
const MOST_FOUND: usize = 64;

/// The entry that stands there, if one does.
fn entry_at<'a, L: Ledger>(passes: &'a [Pass<L>], owner: Owner) -> Option<&'a Entry>
    ensures { IfSome result (λ e. (p : PassState) × (slice_get passes.now owner.pass ≡ Some p) × (slice_get p.entries owner.entry ≡ Some e.now)) }
{
    if owner.pass >= passes.len() {
        return None;
    }
    let entries = passes[owner.pass].entries();
    if owner.entry >= entries.len() {
        return None;
    }
    Some(&entries[owner.entry])
}

/// Whether both show one line.
fn show_one_line(a: &Reply, b: &Reply) -> bool
    ensures { IsTrue result → a.now ≡ b.now }
{
    match (a, b) {
        (Reply::Line(mine), Reply::Line(other)) => mine.as_bytes() == other.as_bytes(),
        _ => false,
    }
}

/// Whether the entry asks and shows what the one that stands there does.
fn is_as_at<L: Ledger>(passes: &[Pass<L>], owner: Owner, entry: &Entry) -> bool
    ensures { IsTrue result → (held : Held) → IsRightAt passes.now held owner → RightOver held entry.now }
{
    match entry_at(passes, owner) {
        None => false,
        Some(other) => {
            show_one_line(other.shown(), entry.shown()) && same_call(other.call(), entry.call())
        }
    }
}

/// Whether the entry asks and shows what one of those that were found right does.
pub(crate) fn is_found<L: Ledger>(passes: &[Pass<L>], found: &[Owner], entry: &Entry) -> bool
    ensures { IsTrue result → (held : Held) → AreRight passes.now held found.now → RightOver held entry.now }
{
    for owner in found {
        if is_as_at(passes, *owner, entry) {
            return true;
        }
    }
    false
}

/// Whether the entry that stands there is of this turn and shows a line.
fn shows_line<L: Ledger>(passes: &[Pass<L>], owner: Owner, turn: usize) -> bool
    ensures { IsTrue result → (held : Held) → IsCheckedOver held passes.now owner turn → IsRightAt passes.now held owner }
{
    let Some(entry) = entry_at(passes, owner) else {
        return false;
    };
    if entry.receipt().turn as usize != turn {
        return false;
    }
    match entry.shown() {
        Reply::Line(_) => true,
        _ => false,
    }
}

/// Keeps where the entry of this turn stands, which was found right, if that is new, it shows a line, and there is room.
pub(crate) fn remember<L: Ledger>(
    passes: &[Pass<L>],
    found: &mut Vec<Owner>,
    owner: Owner,
    turn: usize,
    is_new: bool,
)
    ensures { (held : Held) → IsCheckedOver held passes.now owner turn → AreRight passes.now held found.old.items → AreRight passes.now held found.new.items }
{
    if is_new && found.len() < MOST_FOUND && shows_line(passes, owner, turn) {
        // Without memory the question is answered again.
        let _kept = found.push(owner);
    }
}

/// Forgets all if the accepted list changed.
pub(crate) fn forget_if(found: &mut Vec<Owner>, changed: bool)
    ensures { found.new.items ≡ (if changed then [] else found.old.items) }
{
    if changed {
        found.clear();
    }
}
