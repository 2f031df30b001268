//! Filling where it is not known before whether that changes the tree. Nothing is written up to the first part that changes. Then a copy
//! of all entries is made, and what comes next is filled in it, by place.

ghost use Rattle.std.specs.Prelude.{◌≡◌, ◌+◌, ◌≤◌, ◌<◌, ◌^◌, ◌↔◌, ℕ, length, IsTrue, IfOk};
ghost use Rattle.id_tree.specs.IdTree.{One, Pair};
ghost use Rattle.id_tree.specs.NormalForm.{IsNormal as IsNormalId};
ghost use Rattle.event_tree.specs.EventTree as trees;
ghost use Rattle.event_tree.specs.NormalForm.{greatest, IsNormal};
ghost use Rattle.event_tree.specs.Size.{size};
ghost use Rattle.event_tree.specs.working.Entries.{preorder};
ghost use Rattle.event_tree.specs.working.Filled.{IsHere, IsStopOf, AreMade, Tells};
ghost use Rattle.event_tree.specs.working.Walks as walks;

use super::greatest::{greatest, greatest_of};
use crate::layout::entries::{self, Entries, Entry};
use crate::layout::in_place::{put_leaf, put_lifted};
use crate::layout::node_entry;
use crate::layout::view::{EventPart, EventView};
use id_tree::{IdPart, IdView};
use std::alloc::{AllocError, Global};

/// Where a tree that was filled ends, and whether all of it is owned.
#[derive(Clone, Copy)]
pub struct FilledEnd {
    pub stop: usize,
    pub whole: bool,
}

// Where a part of this id ends, once it was filled.
#[inline(always)]
fn end_of(id: &IdView, stop: usize) -> FilledEnd
    ensures stop { result.stop ≡ stop }
    ensures whole { IsTrue result.whole ↔ (id.now ≡ One) }
{
    FilledEnd {
        stop,
        whole: id.is_everything(),
    }
}

/// What filling makes of a part.
#[derive(Clone, Copy)]
pub enum Look {
    /// It leaves it as it is.
    Kept,
    /// It changes it, or the half beside it shall raise it.
    Changed(usize),
}

// Makes one node in normal form, above the base `n`, of two halves that were filled: the one that is owned whole, if one is, is raised
// to the least value of the other one.
#[inline(always)]
fn close_filled(
    out: &mut [Entry],
    n: u32,
    start: usize,
    one: FilledEnd,
    other: FilledEnd,
) -> Result<usize, AllocError>
    requires { AreMade n start one other out.old }
    ensures { IfOk result (λ stop. (h : AreMade n start one other out.old) → IsStopOf (Pair h.l h.r) (trees.Node n h.a h.b) h.old out.new start stop) }
{
    node_entry::raise_owned(out, one.whole, other.whole, start, one.stop);
    node_entry::close_at(out, n, start, one.stop, other.stop)
}

// Writes the tree, filled. A leaf stays as it is, whatever of it is owned.
fn filled_into(
    out: &mut [Entry],
    start: usize,
    id: &IdView,
    e: &EventView,
) -> Result<usize, AllocError>
    requires normal { IsNormalId id.now }
    requires tree_normal { IsNormal e.now }
    requires fits { greatest e.now < 2 ^ 32 }
    requires room { start + size e.now ≤ length out.old }
    ensures { IfOk result (λ stop. IsStopOf id.now e.now out.old out.new start stop) }
{
    match e.part() {
        EventPart::Leaf(n) => Ok(put_leaf(out, start, n)),
        EventPart::Node(n, a, b) => match id.part() {
            IdPart::Nothing => Ok(put_lifted(out, start, e.again(), 0)),
            IdPart::Everything => Ok(put_leaf(out, start, greatest(e))),
            IdPart::Halves(l, r) => {
                let middle = filled_into(out, start + 1, &l, &a)?;
                let stop = filled_into(out, middle, &r, &b)?;
                close_filled(out, n, start, end_of(&l, middle), end_of(&r, stop))
            }
        },
    }
}

// Whether filling leaves as it is what is owned whole, beside a half with this least value.
#[inline(always)]
fn is_kept(e: &EventView, beside: u32) -> bool
    ensures { IsTrue result ↔ walks.IsFilled beside One e.now }
{
    match e.part() {
        EventPart::Leaf(n) => beside <= n,
        EventPart::Node(_, _, _) => false,
    }
}

// Makes the copy of all entries, and writes the leaf in it that filling makes of a part that is owned whole.
fn begin_filled(
    alloc: Global,
    out: &mut Entries,
    tree: &EventView,
    start: usize,
    e: &EventView,
) -> Result<usize, AllocError>
    requires here { IsHere (preorder tree.now) start e.now }
    requires fits { greatest e.now < 2 ^ 32 }
    ensures { IfOk result (λ stop. IsStopOf One e.now (preorder tree.now) out.new.items start stop) }
{
    *out = entries::copied(alloc, tree.entries())?;
    Ok(put_leaf(out.as_mut_slice(), start, greatest_of(e)))
}

// Writes the tree, filled, into a copy.
#[inline(always)]
fn fill_in_copy(
    out: &mut Entries,
    start: usize,
    id: &IdView,
    e: &EventView,
) -> Result<usize, AllocError>
    requires normal { IsNormalId id.now }
    requires tree_normal { IsNormal e.now }
    requires fits { greatest e.now < 2 ^ 32 }
    requires room { start + size e.now ≤ length out.old.items }
    ensures { IfOk result (λ stop. IsStopOf id.now e.now out.old.items out.new.items start stop) }
{
    filled_into(out.as_mut_slice(), start, id, e)
}

// Makes one node in normal form of two halves that were filled in a copy.
#[inline(always)]
fn close_in_copy(
    out: &mut Entries,
    n: u32,
    start: usize,
    one: FilledEnd,
    other: FilledEnd,
) -> Result<usize, AllocError>
    requires { AreMade n start one other out.old.items }
    ensures { IfOk result (λ stop. (h : AreMade n start one other out.old.items) → IsStopOf (Pair h.l h.r) (trees.Node n h.a h.b) h.old out.new.items start stop) }
{
    close_filled(out.as_mut_slice(), n, start, one, other)
}

// What filling makes of a part of the tree, whose entries stand from `start` on. Where the first one changes a copy of all entries is
// made, and what stands before stays in it as it is. What stays as it is without a look at its halves takes no call.
#[inline(always)]
#[cycle(fill)]
pub fn fill_at(
    alloc: Global,
    out: &mut Entries,
    tree: &EventView,
    start: usize,
    id: &IdView,
    e: &EventView,
    beside: u32,
) -> Result<Look, AllocError>
    requires normal { IsNormalId id.now }
    requires tree_normal { IsNormal e.now }
    requires fits { greatest e.now < 2 ^ 32 }
    requires here { IsHere (preorder tree.now) start e.now }
    requires counted { size tree.now < 2 ^ 64 }
    ensures { IfOk result (λ look. Tells beside id.now e.now (preorder tree.now) out.new.items start look) }
{
    match id.part() {
        IdPart::Nothing => Ok(Look::Kept),
        IdPart::Everything => {
            if is_kept(e, beside) {
                return Ok(Look::Kept);
            }
            let stop = begin_filled(alloc, out, tree, start, e)?;
            Ok(Look::Changed(stop))
        }
        IdPart::Halves(l, r) => match e.leaf() {
            Some(_) => Ok(Look::Kept),
            None => fill_halves(alloc, out, tree, start, &l, &r, e),
        },
    }
}

// The same, where the id owns some of both halves or of one.
#[tactic(auto, using(crate::proofs::Filling::here_left, crate::proofs::Filling::here_right))]
#[cycle(fill)]
fn fill_halves(
    alloc: Global,
    out: &mut Entries,
    tree: &EventView,
    start: usize,
    l: &IdView,
    r: &IdView,
    e: &EventView,
) -> Result<Look, AllocError>
    requires normal { IsNormalId (Pair l.now r.now) }
    requires tree_normal { IsNormal e.now }
    requires fits { greatest e.now < 2 ^ 32 }
    requires here { IsHere (preorder tree.now) start e.now }
    requires counted { size tree.now < 2 ^ 64 }
    ensures { IfOk result (λ look. (k : ℕ) → Tells k (Pair l.now r.now) e.now (preorder tree.now) out.new.items start look) }
{
    match e.part() {
        EventPart::Leaf(_) => Ok(Look::Kept),
        EventPart::Node(n, a, b) => {
            let end = match fill_at(alloc, out, tree, start + 1, l, &a, b.root())? {
                Look::Changed(middle) => {
                    let stop = fill_in_copy(out, middle, r, &b)?;
                    close_in_copy(out, n, start, end_of(l, middle), end_of(r, stop))?
                }
                Look::Kept => {
                    let middle = start + 1 + a.entries().len();
                    match fill_at(alloc, out, tree, middle, r, &b, a.root())? {
                        Look::Kept => return Ok(Look::Kept),
                        Look::Changed(stop) => {
                            close_in_copy(out, n, start, end_of(l, middle), end_of(r, stop))?
                        }
                    }
                }
            };
            Ok(Look::Changed(end))
        }
    }
}
