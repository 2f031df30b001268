//! The marks that an id is kept as. They may be in any form: what holds of each id is stated at `Id`.

ghost use Rattle.std.specs.Prelude.{◌≡◌, ◌≢◌, ◌↔◌, ◌≤◌, ◌<◌, ◌++◌, ◌+◌, IsTrue, IfOk, OnOk, OnErr, IsErrOf, take, drop, get_or, length, List};
ghost use Rattle.id_tree.specs.IdTree.{IdTree, Pair};
ghost use Rattle.id_tree.specs.Sum.{normal_pair, sum_of};
ghost use Rattle.id_tree.specs.working.Marks.{trees_of, tree_of, first, later, preorder, HasTrees, IsBehind};
ghost use Rattle.id_tree.specs.working.Tests.{all_covered, all_disjoint, owns_any};
ghost use Rattle.id_tree.specs.declared.marks.Mark.TheVariants as marked;

use smallvec::SmallVec;
use std::alloc::AllocError;

/// A node or a leaf of an id.
#[derive(Clone, Copy, Debug, Default, PartialEq, Eq)]
pub enum Mark {
    #[default]
    Zero,
    One,
    Pair,
}

/// The marks of an id.
pub type Marks = SmallVec<Mark, 16>;

// How many marks the first tree has.
pub fn first_len(marks: &[Mark]) -> usize
    ensures within { result ≤ length marks.now }
    ensures behind { trees_of (drop result marks.now) ≡ later (trees_of marks.now) }
{
    let mut pending: usize = 1;
    for (index, mark) in marks.iter().enumerate() {
        match mark {
            Mark::Pair => pending += 1,
            Mark::Zero | Mark::One => {
                if pending == 1 {
                    return index + 1;
                }
                pending -= 1;
            }
        }
    }
    marks.len()
}

// The marks of the first tree, and those behind it.
#[tactic(auto, using(crate::proofs::Preorder::first_marks, crate::proofs::Preorder::behind_first))]
pub fn split_first_tree(marks: &[Mark]) -> (&[Mark], &[Mark])
    ensures first { HasTrees 1 marks.now → result.0.now ≡ preorder (tree_of marks.now) }
    ensures behind { IsBehind marks.now result.1.now }
{
    marks.split_at(first_len(marks))
}

pub fn is_same(one: Mark, other: Mark) -> bool
    ensures { IsTrue result ↔ (one ≡ other) }
{
    one == other
}

// Makes the pair that begins at `start` and ends the marks a leaf, where both halves are that leaf.
fn close(marks: &mut Marks, start: usize)
    ensures { (front : List Mark) (l r : IdTree) → length front ≡ start → marks.old.items ≡ front ++ preorder (Pair l r)
        → marks.new.items ≡ front ++ preorder (normal_pair l r) }
{
    let len = marks.len();
    if len > 2 && len - 3 == start && is_same(marks[start + 1], marks[start + 2]) {
        let leaf = marks[start + 1];
        marks.truncate(start);
        marks.push_reserved(leaf);
    }
}

// Appends what the first trees of both own, and gives the marks behind them.
pub fn sum_into<'a>(
    sum: &mut Marks,
    left: &'a [Mark],
    right: &'a [Mark],
) -> Result<(&'a [Mark], &'a [Mark]), AllocError>
    requires left { HasTrees 1 left.now }
    requires right { HasTrees 1 right.now }
    ensures sum { OnOk result (sum.new.items ≡ sum.old.items ++ preorder (sum_of (tree_of left.now) (tree_of right.now))) }
    ensures behind_left { IfOk result (λ rests. IsBehind left.now rests.0.now) }
    ensures behind_right { IfOk result (λ rests. IsBehind right.now rests.1.now) }
{
    let (_, left_inside) = left.split_at(1);
    let (_, right_inside) = right.split_at(1);
    match (left[0], right[0]) {
        (Mark::Zero, _) => {
            let (first, behind) = split_first_tree(right);
            sum.extend_from_slice(first)?;
            Ok((left_inside, behind))
        }
        (_, Mark::Zero) => {
            let (first, behind) = split_first_tree(left);
            sum.extend_from_slice(first)?;
            Ok((behind, right_inside))
        }
        (Mark::Pair, Mark::Pair) => {
            let start = sum.len();
            sum.push(Mark::Pair)?;
            let (left_half, right_half) = sum_into(sum, left_inside, right_inside)?;
            let rests = sum_into(sum, left_half, right_half)?;
            close(sum, start);
            Ok(rests)
        }
        _ => {
            sum.push(Mark::One)?;
            Ok((split_first_tree(left).1, split_first_tree(right).1))
        }
    }
}

// Whether no point is owned by both first trees and by no two later ones either, where all are in normal form.
pub fn are_apart(left: &[Mark], right: &[Mark]) -> bool
    ensures { result ≡ all_disjoint (trees_of left.now) (trees_of right.now) }
{
    let mut left = left;
    let mut right = right;
    while left.len() > 0 && right.len() > 0 {
        let (_, left_inside) = left.split_at(1);
        let (_, right_inside) = right.split_at(1);
        match (left[0], right[0]) {
            (Mark::Zero, _) => {
                left = left_inside;
                right = split_first_tree(right).1;
            }
            (_, Mark::Zero) => {
                left = split_first_tree(left).1;
                right = right_inside;
            }
            (Mark::Pair, Mark::Pair) => {
                left = left_inside;
                right = right_inside;
            }
            _ => return false,
        }
    }
    true
}

// The first mark, where nothing stands in for one that is missing, and the marks behind it.
fn split_first_mark(marks: &[Mark]) -> (Mark, &[Mark])
    ensures first { result.0 ≡ get_or marks.now 0 marked.Zero }
    ensures behind { result.1.now ≡ drop 1 marks.now }
{
    match marks.split_first() {
        Some((mark, behind)) => (*mark, behind),
        None => (Mark::Zero, marks),
    }
}

// Whether each tree on the left owns what the one at its place on the right owns, where all are in normal form.
pub fn cover(left: &[Mark], right: &[Mark]) -> bool
    ensures { result ≡ all_covered (trees_of left.now) (trees_of right.now) }
{
    let mut left = left;
    let mut right = right;
    while right.len() > 0 {
        let (one, left_inside) = split_first_mark(left);
        let (other, right_inside) = split_first_mark(right);
        match (one, other) {
            (_, Mark::Zero) => {
                left = split_first_tree(left).1;
                right = right_inside;
            }
            (Mark::One, _) => {
                left = left_inside;
                right = split_first_tree(right).1;
            }
            (Mark::Pair, Mark::Pair) => {
                left = left_inside;
                right = right_inside;
            }
            (Mark::Zero, _) | (Mark::Pair, Mark::One) => return false,
        }
    }
    true
}

// Whether the two are the same marks.
pub fn are_same(these: &[Mark], those: &[Mark]) -> bool
    ensures { IsTrue result ↔ (these.now ≡ those.now) }
{
    these == those
}

// Whether the first tree owns something, where it is in normal form.
pub fn own_any(marks: &[Mark]) -> bool
    ensures { result ≡ owns_any (tree_of marks.now) }
{
    match marks.first() {
        None | Some(Mark::Zero) => false,
        Some(Mark::One | Mark::Pair) => true,
    }
}
