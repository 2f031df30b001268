//! The two parts of a split.

ghost use Rattle.std.specs.Prelude.{◌≡◌, ◌↔◌, ◌≤◌, ◌++◌, IsTrue, OnOk, slice_index_or};
ghost use Rattle.id_tree.specs.NormalForm.{depth};
ghost use Rattle.id_tree.specs.Split.{left_part, right_part, parts_depth};
ghost use Rattle.id_tree.specs.working.Marks.{tree_of, preorder, HasTrees};
ghost use Rattle.id_tree.specs.working.Shape.{IsShape};
ghost use Rattle.id_tree.specs.declared.marks.Mark.TheVariants as marked;

use crate::marks::{Mark, Marks, is_same, split_first_tree};
use std::alloc::AllocError;

/// Which halves of a tree own something, each as its marks.
#[derive(Drop)]
pub enum Shape<'a> {
    Nothing,
    Everything,
    OnlyLeft(&'a [Mark]),
    OnlyRight(&'a [Mark]),
    Both(&'a [Mark], &'a [Mark]),
}

fn shape_of<'a>(marks: &'a [Mark]) -> Shape<'a>
    requires { HasTrees 1 marks.now }
    ensures { IsShape result marks.now }
{
    match marks[0] {
        Mark::Zero => Shape::Nothing,
        Mark::One => Shape::Everything,
        Mark::Pair => halves_of(marks),
    }
}

fn halves_of<'a>(marks: &'a [Mark]) -> Shape<'a>
    requires whole { HasTrees 1 marks.now }
    requires pair { slice_index_or marks.now 0 marked.Zero ≡ marked.Pair }
    ensures { IsShape result marks.now }
{
    let (_, left_half) = marks.split_at(1);
    let (left, right_half) = split_first_tree(left_half);
    if is_same(left_half[0], Mark::Zero) {
        Shape::OnlyRight(right_half)
    } else if is_same(right_half[0], Mark::Zero) {
        Shape::OnlyLeft(left_half)
    } else {
        Shape::Both(left, split_first_tree(right_half).0)
    }
}

// Whether neither part of the first tree is deeper than `room`.
pub fn parts_fit(marks: &[Mark], room: u8) -> bool
    requires whole { HasTrees 1 marks.now }
    requires shallow { depth (tree_of marks.now) ≤ room }
    ensures { IsTrue result ↔ (parts_depth (tree_of marks.now) ≤ room) }
{
    match shape_of(marks) {
        Shape::Nothing | Shape::Both(_, _) => true,
        Shape::Everything => room > 0,
        Shape::OnlyLeft(half) | Shape::OnlyRight(half) => parts_fit(half, room - 1),
    }
}

// Appends the left part of the first tree.
pub fn left_into(part: &mut Marks, marks: &[Mark]) -> Result<(), AllocError>
    requires { HasTrees 1 marks.now }
    ensures { OnOk result (part.new.items ≡ part.old.items ++ preorder (left_part (tree_of marks.now))) }
{
    match shape_of(marks) {
        Shape::Nothing => part.extend_from_slice(&[Mark::Zero]),
        Shape::Everything => part.extend_from_slice(&[Mark::Pair, Mark::One, Mark::Zero]),
        Shape::OnlyLeft(half) => {
            part.extend_from_slice(&[Mark::Pair])?;
            left_into(part, half)?;
            part.extend_from_slice(&[Mark::Zero])
        }
        Shape::OnlyRight(half) => {
            part.extend_from_slice(&[Mark::Pair, Mark::Zero])?;
            left_into(part, half)
        }
        Shape::Both(left, _) => {
            part.extend_from_slice(&[Mark::Pair])?;
            part.extend_from_slice(left)?;
            part.extend_from_slice(&[Mark::Zero])
        }
    }
}

// Appends the right part of the first tree.
pub fn right_into(part: &mut Marks, marks: &[Mark]) -> Result<(), AllocError>
    requires { HasTrees 1 marks.now }
    ensures { OnOk result (part.new.items ≡ part.old.items ++ preorder (right_part (tree_of marks.now))) }
{
    match shape_of(marks) {
        Shape::Nothing => part.extend_from_slice(&[Mark::Zero]),
        Shape::Everything => part.extend_from_slice(&[Mark::Pair, Mark::Zero, Mark::One]),
        Shape::OnlyLeft(half) => {
            part.extend_from_slice(&[Mark::Pair])?;
            right_into(part, half)?;
            part.extend_from_slice(&[Mark::Zero])
        }
        Shape::OnlyRight(half) => {
            part.extend_from_slice(&[Mark::Pair, Mark::Zero])?;
            right_into(part, half)
        }
        Shape::Both(_, right) => {
            part.extend_from_slice(&[Mark::Pair, Mark::Zero])?;
            part.extend_from_slice(right)
        }
    }
}
