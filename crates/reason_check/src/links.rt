//! The reason chains of a certificate, entry by entry.

ghost use Rattle.std.specs.Prelude.{◌≡◌, ◌≢◌, ◌↔◌, ℕ, ◌+◌, ◌-◌, ◌<◌, ◌≤◌, max, List, length, IsTrue, IfSome, IfNone, MatchOption};
ghost use Rattle.std.specs.Bool.{MatchBool};
ghost use Rattle.chains.specs.Processes.{known};
ghost use Rattle.chains.specs.Positions.{rank, position_in};
ghost use Rattle.chains.specs.declared.position.Position.{Position as AnyPosition};
ghost use Rattle.reasons.specs.Certificates.{positions_of, position_below, IsReasonChain, EndsAfter, AreReasons};
ghost use Rattle.reason_check.specs.working.Falling.{IsFalling};
ghost use Rattle.reason_check.specs.Causes.{IsRightPosition, IsRightLink, IsRightEntry, IsRightEnd, IsFirstWrong, IsFirstReason, entry, asked};

use crate::falling::still_falls;
use crate::surviving::{is_last_surviving, is_right_first};
use chains::{Chains, Place, Places, Position};
use knows_row::knows;

/// The position below.
fn position_below(chains: &Chains, place: Place) -> Position
    ensures { result ≡ position_below chains.now.accepted place }
{
    match place.position {
        Position::At(k) => Position::At(if k == 0 { 0 } else { k - 1 }),
        Position::Retired => {
            if place.process >= chains.count() {
                return Position::At(0);
            }
            Position::At(chains.elements(place.process).len())
        }
    }
}

/// The position after which the entry after entry e has to know the process of e.
fn asked_after(chains: &Chains, chain: &[Place], e: usize) -> Position
    requires { e < length chain.now }
    ensures { result ≡ asked chains.now.accepted chain.now e }
{
    if e == 0 {
        return chain[0].position;
    }
    position_below(chains, chain[e])
}

/// Whether a place stands among the entries of a chain from the second to the one before e. Where the chain falls, none
/// does, and they are not looked at.
#[tactic(auto, using(crate::proofs::Downward::falls_apart))]
fn stands_before(chain: &[Place], e: usize, falls: bool) -> bool
    requires e { e < length chain.now }
    requires falls { IsTrue falls → IsFalling chain.now (e + 1) }
    ensures { MatchBool result ((i : ℕ) × (0 < i) × (i < e) × (entry chain.now i ≡ entry chain.now e)) ((i : ℕ) → 0 < i → i < e → entry chain.now i ≢ entry chain.now e) }
{
    if falls {
        return false;
    }
    for i in 1..e {
        if chain[i] == chain[e] {
            return true;
        }
    }
    false
}

/// Whether an entry from the second on stands there once so far, and knows the process of the one before.
fn is_right_link(chains: &Chains, chain: &[Place], e: usize, falls: bool) -> bool
    requires above { 0 < e }
    requires e { e < length chain.now }
    requires falls { IsTrue falls → IsFalling chain.now (e + 1) }
    ensures { IsTrue result ↔ IsRightLink chains.now.accepted chain.now e }
{
    if stands_before(chain, e, falls) {
        return false;
    }
    let before = chain[e - 1];
    let position = asked_after(chains, chain, e - 1);
    knows(chains, chain[e], before.process, position)
}

#[tactic(auto, unfolding(crate::specs::Causes::IsRightEntry))]
fn is_right_entry(chains: &Chains, failed: &[u32], chain: &[Place], e: usize, falls: bool) -> bool
    requires e { e < length chain.now }
    requires falls { IsTrue falls → IsFalling chain.now (e + 1) }
    ensures { IsTrue result ↔ IsRightEntry chains.now.accepted failed.now chain.now e }
{
    if e == 0 {
        is_right_first(chains, failed, chain[0])
    } else {
        is_right_link(chains, chain, e, falls)
    }
}

/// The first entry of a chain that is wrong.
fn wrong_entry(chains: &Chains, failed: &[u32], chain: &[Place]) -> Option<usize>
    ensures { MatchOption result
        ((e : ℕ) → e < length chain.now → IsRightEntry chains.now.accepted failed.now chain.now e)
        (λ j. (0 < j) × (j ≤ length chain.now) × ¬ (IsRightEntry chains.now.accepted failed.now chain.now (j - 1)) × ((e : ℕ) → e < j - 1 → IsRightEntry chains.now.accepted failed.now chain.now e)) }
{
    let mut falls = true;
    for e in 0..chain.len() {
        falls = still_falls(chain, e, falls);
        if !is_right_entry(chains, failed, chain, e, falls) {
            return Some(e + 1);
        }
    }
    None
}

/// The rank of a position of a process.
fn rank(chains: &Chains, process: u32, position: Position) -> u64
    requires { process < length (known chains.now.accepted) }
    ensures rank { result ≡ rank chains.now.accepted process position }
    ensures at_most { result < 4294967297 }
{
    match position {
        Position::At(k) => k as u64,
        Position::Retired => chains.elements(process).len() as u64 + 1,
    }
}

/// Whether a chain has two entries or more and ends at the position after this place.
fn is_right_end(chains: &Chains, chain: &[Place], place: Place) -> bool
    requires { place.process < length (known chains.now.accepted) }
    ensures { IsTrue result ↔ IsRightEnd chains.now.accepted place.process place.position chain.now }
{
    if chain.len() < 2 {
        return false;
    }
    let last = chain[chain.len() - 1];
    if last.process != place.process {
        return false;
    }
    rank(chains, place.process, last.position) == rank(chains, place.process, place.position) + 1
}

/// The first entry that is wrong in a chain for the process of this place.
#[tactic(auto, using(crate::proofs::Chained::chain_from, crate::proofs::Chained::ends_from))]
fn wrong_chain(chains: &Chains, failed: &[u32], chain: &[Place], place: Place) -> Option<usize>
    requires { place.process < length (known chains.now.accepted) }
    ensures { MatchOption result
        (IsReasonChain chains.now.accepted failed.now chain.now × EndsAfter chains.now.accepted place.process place.position chain.now)
        (λ j. IsFirstWrong chains.now.accepted failed.now place.process place.position chain.now j) }
{
    match wrong_entry(chains, failed, chain) {
        Some(entry) => Some(entry),
        None => if is_right_end(chains, chain, place) {
            None
        } else {
            Some(chain.len())
        },
    }
}

/// A chain by its index, and an entry of it counted from 1, or 0 where the chain is missing or surplus.
#[derive(Clone, Copy)]
pub(crate) struct Fault {
    pub(crate) chain: usize,
    pub(crate) entry: usize,
}

/// The first fault of the chains.
pub(crate) fn wrong_reason(
    chains: &Chains,
    failed: &[u32],
    line: &[Place],
    reasons: &[Places],
) -> Option<Fault>
    requires right { (j : ℕ) → j < max (length (known chains.now.accepted)) (length line.now) → IsRightPosition chains.now.accepted failed.now line.now j }
    ensures all { IfNone result (AreReasons chains.now.accepted failed.now (positions_of line.now) reasons.now) }
    ensures wrong { IfSome result (λ fault. IsFirstReason chains.now.accepted failed.now (positions_of line.now) reasons.now fault.chain fault.entry) }
    ensures within { IfSome result (λ fault. fault.chain ≤ length reasons.now) }
{
    let mut due = 0;
    for process in 0..line.len() {
        let stays = is_last_surviving(chains, failed, line[process]);
        if !stays {
            if due >= reasons.len() {
                return Some(Fault {
                    chain: due,
                    entry: 0,
                });
            }
            match wrong_chain(chains, failed, reasons[due].as_slice(), line[process]) {
                Some(entry) => return Some(Fault { chain: due, entry }),
                None => due += 1,
            }
        }
    }
    if due < reasons.len() {
        Some(Fault {
            chain: due,
            entry: 0,
        })
    } else {
        None
    }
}
