//! A leaf of an id, cut off from the rest.

ghost use Rattle.std.specs.Prelude.{◌≡◌, ◌≤◌, ◌<◌, ◌↔◌, ◌⊎◌, false, IsTrue, IsErr, IfOk, IfErr, IfSome, MatchOption};
ghost use Rattle.id_tree.specs.Points.{AreDisjoint, AreTogether};
ghost use Rattle.process.specs.Leaves.{IsLeafAt, HasLeafWithin, HasRoomFor};
ghost use Rattle.process.specs.working.Leaves.{AtMost, AreInOrder, IsPartedOnce, IsCarved, above, deepest_within};
ghost use Rattle.process.specs.working.Telling.{RefusesCarving};

use crate::fault::ProcessFault;
use id_tree::{Id, IdPart, IdView, SplitFault, SumFault};
use std::alloc::{AllocError, Global};

// The greater of two depths, seen from one level above.
fn above(left: Option<u8>, right: Option<u8>) -> Option<u8>
    requires left_small { IfSome left (λ l. l < 255) }
    requires right_small { IfSome right (λ r. r < 255) }
    ensures { result ≡ above left right }
{
    match (left, right) {
        (None, None) => None,
        (Some(l), None) => Some(l + 1),
        (None, Some(r)) => Some(r + 1),
        (Some(l), Some(r)) => Some(l.max(r) + 1),
    }
}

// How deep the deepest leaf is that is no deeper than this.
fn deepest_within(part: &IdView<'_>, depth: u8) -> Option<u8>
    ensures depth { result ≡ deepest_within part.now depth }
    ensures within { IfSome result (λ found. found ≤ depth) }
{
    match part.part() {
        IdPart::Nothing => None,
        IdPart::Everything => Some(0),
        IdPart::Halves(left, right) => {
            if depth == 0 {
                return None;
            }
            above(
                deepest_within(&left, depth - 1),
                deepest_within(&right, depth - 1),
            )
        }
    }
}

// Whether one leaf is owned, of this depth.
fn is_leaf_at(part: &IdView<'_>, depth: u8) -> bool
    ensures { IsTrue result ↔ IsLeafAt depth part.now }
{
    match part.part() {
        IdPart::Nothing => false,
        IdPart::Everything => depth == 0,
        IdPart::Halves(left, right) => {
            if depth == 0 {
                return false;
            }
            if right.is_nothing() {
                return is_leaf_at(&left, depth - 1);
            }
            if left.is_nothing() {
                return is_leaf_at(&right, depth - 1);
            }
            false
        }
    }
}

// How deep the deepest leaf of a whole id is that is no deeper than this, if there is one.
fn deepest_of(id: &Id, depth: u8) -> Option<u8>
    ensures leaf { MatchOption result (¬ HasLeafWithin id.now depth) (λ _. HasLeafWithin id.now depth) }
    ensures depth { result ≡ deepest_within id.now depth }
{
    deepest_within(&id.view(), depth)
}

// Whether a leaf of this depth can be given away.
fn has_room(id: &Id, depth: u8) -> bool
    ensures yes { IsTrue result → HasRoomFor id.now depth }
    ensures no { result ≡ false → ¬ HasRoomFor id.now depth }
{
    if depth > 40 {
        return false;
    }
    if is_leaf_at(&id.view(), depth) {
        return false;
    }
    match deepest_of(id, depth) {
        Some(_) => true,
        None => false,
    }
}

// Whether the second depth is the greater one.
fn is_second(first: Option<u8>, second: Option<u8>) -> bool
    ensures yes { IsTrue result → AtMost first second }
    ensures no { result ≡ false → AtMost second first }
{
    match (first, second) {
        (_, None) => false,
        (None, Some(_)) => true,
        (Some(one), Some(other)) => one < other,
    }
}

// The two, that with the deeper leaf within this depth last.
fn deeper_last(left: Id, right: Id, depth: u8) -> (Id, Id)
    requires { HasLeafWithin left depth ⊎ HasLeafWithin right depth }
    ensures { AreInOrder left right depth result.0 result.1 }
{
    let first = deepest_of(&left, depth);
    let second = deepest_of(&right, depth);
    if is_second(first, second) {
        (left, right)
    } else {
        (right, left)
    }
}

// One part of the id, and the other with the deepest leaf that is no deeper than this.
fn part_once(alloc: Global, id: &Id, depth: u8) -> Result<(Id, Id), AllocError>
    requires { HasRoomFor id.now depth }
    ensures { IfOk result (λ parts. IsPartedOnce id.now depth parts.0 parts.1) }
{
    id.recall_facts();
    match id.split(alloc) {
        Ok((left, right)) => Ok(deeper_last(left, right, depth)),
        Err(SplitFault::NothingOwned) => unreachable!(),
        Err(SplitFault::TooDeep) => unreachable!(),
        Err(SplitFault::Memory) => Err(AllocError),
    }
}

// What both own, who own no point both.
fn joined(alloc: Global, one: &Id, other: &Id) -> Result<Id, AllocError>
    requires { AreDisjoint one.now other.now }
    ensures { IfOk result (λ sum. AreTogether one.now other.now sum) }
{
    match one.sum(alloc, other) {
        Ok(sum) => Ok(sum),
        Err(SumFault::Overlap) => unreachable!(),
        Err(SumFault::Memory) => Err(AllocError),
    }
}

// The rest of an id of which a part was carved.
fn kept_beside(alloc: Global, rest: Id, kept: Id) -> Result<Id, AllocError>
    requires { AreDisjoint rest kept }
    ensures { IfOk result (λ sum. AreTogether rest kept sum) }
{
    let sum = joined(alloc, &rest, &kept);
    drop(rest);
    drop(kept);
    sum
}

// What is kept of an id, and a leaf of it of just this depth.
fn carved(alloc: Global, id: &Id, depth: u8) -> Result<(Id, Id), AllocError>
    requires { HasRoomFor id.now depth }
    ensures { IfOk result (λ parts. IsCarved id.now depth parts.0 parts.1) }
{
    let (rest, part) = part_once(alloc, id, depth)?;
    if is_leaf_at(&part.view(), depth) {
        return Ok((rest, part));
    }
    let Ok((kept, given)) = carved(alloc, &part, depth) else {
        drop(rest);
        drop(part);
        return Err(AllocError);
    };
    drop(part);
    let Ok(kept) = kept_beside(alloc, rest, kept) else {
        drop(given);
        return Err(AllocError);
    };
    Ok((kept, given))
}

/// What is kept of an id, and a leaf of just this depth, carved from the deepest leaf that is no deeper. `TooDeep` where there is no room
/// for it.
pub(crate) fn carve(alloc: Global, id: &Id, depth: u8) -> Result<(Id, Id), ProcessFault>
    ensures ok { IfOk result (λ parts. IsCarved id.now depth parts.0 parts.1) }
    ensures err { IfErr result (λ fault. RefusesCarving fault id.now depth) }
    ensures room { (¬ HasRoomFor id.now depth) → IsErr result }
{
    if !has_room(id, depth) {
        return Err(ProcessFault::TooDeep);
    }
    match carved(alloc, id, depth) {
        Ok(parts) => Ok(parts),
        Err(_) => Err(ProcessFault::Memory),
    }
}
