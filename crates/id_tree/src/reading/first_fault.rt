//! Reads a spelling of any depth in a loop, for the fault that it has. No marks are kept, only what is told of the trees around it.

ghost use Rattle.std.specs.Prelude.{◌≡◌, ◌++◌, ◌∷◌, [], IfOk, IfErr};
ghost use Rattle.id_tree.specs.working.Reading.{State, ShowsState, StepsTo, Spells, IsStepFault, IsRunFault, step_of, run, start};
ghost use Rattle.id_tree.specs.working.Reading as reading;

use crate::fault::IdFault;
use std::alloc::Global;

/// What is known of a tree that was read: which leaf it is, or the depth of a pair in normal form, where 41 stands for all that is
/// deeper.
#[derive(Clone, Copy)]
pub enum Part {
    Zero,
    One,
    Pair(u8),
    NotNormal,
}

/// Which half of a pair is being read: the left one, or the right one, with what is known of the left. Two bytes for each open bracket.
#[derive(Clone, Copy, Drop)]
pub enum Half {
    Left,
    BehindZero,
    BehindOne,
    BehindPair(u8),
    BehindNotNormal,
}

// The right half behind this left one.
#[inline(always)]
fn right_of(left: Part) -> Half
    ensures { result ≡ reading.right_of left }
{
    match left {
        Part::Zero => Half::BehindZero,
        Part::One => Half::BehindOne,
        Part::Pair(depth) => Half::BehindPair(depth),
        Part::NotNormal => Half::BehindNotNormal,
    }
}

// What is known of the left half, once that was read.
#[inline(always)]
fn left_of(half: Half) -> Option<Part>
    ensures { result ≡ reading.left_of half }
{
    match half {
        Half::Left => None,
        Half::BehindZero => Some(Part::Zero),
        Half::BehindOne => Some(Part::One),
        Half::BehindPair(depth) => Some(Part::Pair(depth)),
        Half::BehindNotNormal => Some(Part::NotNormal),
    }
}

// Whether both are one leaf.
#[inline(always)]
fn are_one(left: Part, right: Part) -> bool
    ensures { result ≡ reading.are_one left right }
{
    match (left, right) {
        (Part::Zero, Part::Zero) | (Part::One, Part::One) => true,
        _ => false,
    }
}

// The depth of a tree in normal form.
#[inline(always)]
fn height(part: Part) -> Option<u8>
    ensures { result ≡ reading.height part }
{
    match part {
        Part::Zero | Part::One => Some(0),
        Part::Pair(depth) => Some(depth),
        Part::NotNormal => None,
    }
}

// The pair of two halves that are not one leaf, of these depths.
#[inline(always)]
fn above(left: Option<u8>, right: Option<u8>) -> Part
    ensures { result ≡ reading.above left right }
{
    match (left, right) {
        (Some(g), Some(h)) => Part::Pair(g.max(h).min(40) + 1),
        _ => Part::NotNormal,
    }
}

// The pair of two halves.
#[inline(always)]
fn pair_of(left: Part, right: Part) -> Part
    ensures { result ≡ reading.pair_of left right }
{
    if are_one(left, right) {
        return Part::NotNormal;
    }
    above(height(left), height(right))
}

// What was read last after one more byte, if a tree was.
#[inline(always)]
fn step(halves: &mut Vec<Half>, last: Option<Part>, byte: u8) -> Result<Option<Part>, IdFault>
    ensures ok { (s : State) → ShowsState halves.old.items last s → IfOk result (λ next. StepsTo s byte halves.new.items next) }
    ensures err { (s : State) → ShowsState halves.old.items last s → IfErr result (λ fault. IsStepFault fault (step_of s byte)) }
{
    match (byte, last) {
        (b'0', None) => Ok(Some(Part::Zero)),
        (b'1', None) => Ok(Some(Part::One)),
        (b'(', None) => {
            halves.push(Half::Left)?;
            Ok(None)
        }
        (b',', Some(part)) => match halves.pop() {
            Some(Half::Left) => {
                halves.push(right_of(part))?;
                Ok(None)
            }
            _ => Err(IdFault::Syntax),
        },
        (b')', Some(part)) => match halves.pop() {
            Some(half) => match left_of(half) {
                Some(left) => Ok(Some(pair_of(left, part))),
                None => Err(IdFault::Syntax),
            },
            None => Err(IdFault::Syntax),
        },
        _ => Err(IdFault::Syntax),
    }
}

// What is known of the tree that the bytes spell.
pub fn read(alloc: Global, bytes: &[u8]) -> Result<Part, IdFault>
    ensures ok { IfOk result (λ part. Spells part bytes.now) }
    ensures err { IfErr result (λ fault. IsRunFault fault (run start bytes.now)) }
{
    let mut halves = Vec::new(alloc);
    let mut last = None;
    for byte in bytes {
        last = step(&mut halves, last, *byte)?;
    }
    if halves.len() > 0 {
        return Err(IdFault::Syntax);
    }
    match last {
        Some(part) => Ok(part),
        None => Err(IdFault::Syntax),
    }
}
