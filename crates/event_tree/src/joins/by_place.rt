//! A join that is written by place, into room for both trees.

ghost use Rattle.std.specs.Prelude.{◌≡◌, ◌+◌, ◌<◌, ◌≤◌, ◌^◌, length, IfOk};
ghost use Rattle.event_tree.specs.NormalForm.{greatest, IsNormal};
ghost use Rattle.event_tree.specs.Size.{size};
ghost use Rattle.event_tree.specs.working.Writing.{HasTreeWritten};
ghost use Rattle.event_tree.specs.working.Walks as walks;

use super::Pick;
use crate::layout::entries::{self, Entry};
use crate::layout::in_place::{put_leaf, put_leaves, put_lifted};
use crate::layout::node_entry::close_at;
use crate::layout::view::{EventPart, EventView};
use crate::node::Node;
use smallvec::SmallVec;
use std::alloc::{AllocError, Global};

// Writes `f` above the base `y` with `k` in place of each lesser value, in normal form. A leaf takes no call, nor does a
// node of two leaves.
#[inline(always)]
#[cycle(raised)]
fn raised_into(
    out: &mut [Entry],
    start: usize,
    k: u32,
    y: u32,
    f: EventView,
) -> Result<usize, AllocError>
    requires fits { y + greatest f < 2 ^ 32 }
    requires normal { IsNormal f }
    requires room { start + size f ≤ length out.old }
    ensures written { IfOk result (λ stop. HasTreeWritten out.old out.new start stop (walks.clipped Pick.Greater k y f.entry)) }
    ensures next { IfOk result (λ stop. stop ≤ start + size f.entry) }
{
    if let Some(n) = f.leaf() {
        return Ok(put_leaf(out, start, Pick::Greater.of(k, y + n)));
    }
    if let Some((n, p, q)) = f.leaf_pair() {
        return Ok(put_leaves(
            out,
            start,
            Pick::Greater.of(k, y + n + p),
            Pick::Greater.of(k, y + n + q),
        ));
    }
    raised_in_halves(out, start, k, y, f)
}

// The same, where `f` is mostly a node.
#[cycle(raised)]
fn raised_in_halves(
    out: &mut [Entry],
    start: usize,
    k: u32,
    y: u32,
    f: EventView,
) -> Result<usize, AllocError>
    requires fits { y + greatest f < 2 ^ 32 }
    requires normal { IsNormal f }
    requires room { start + size f ≤ length out.old }
    ensures written { IfOk result (λ stop. HasTreeWritten out.old out.new start stop (walks.clipped Pick.Greater k y f.entry)) }
    ensures next { IfOk result (λ stop. stop ≤ start + size f.entry) }
{
    if k <= y + f.root() {
        return Ok(put_lifted(out, start, f, y));
    }
    match f.part() {
        EventPart::Leaf(n) => Ok(put_leaf(out, start, Pick::Greater.of(k, y + n))),
        EventPart::Node(n, c, d) => {
            let middle = raised_into(out, start + 1, k, y + n, c)?;
            let stop = raised_into(out, middle, k, y + n, d)?;
            close_at(out, 0, start, middle, stop)
        }
    }
}

// Writes the greater of `e` above the base `x` and `f` above the base `y`, in normal form. Two leaves take no call, nor do two nodes
// of two leaves.
#[inline(always)]
#[cycle(joined)]
fn joined_into(
    out: &mut [Entry],
    start: usize,
    x: u32,
    e: EventView,
    y: u32,
    f: EventView,
) -> Result<usize, AllocError>
    requires e_fits { x + greatest e < 2 ^ 32 }
    requires e_normal { IsNormal e }
    requires f_fits { y + greatest f < 2 ^ 32 }
    requires f_normal { IsNormal f }
    requires room { start + size e + size f ≤ length out.old + 1 }
    ensures written { IfOk result (λ stop. HasTreeWritten out.old out.new start stop (walks.combined_from Pick.Greater x e.entry y f.entry)) }
    ensures next { IfOk result (λ stop. stop < start + size e.entry + size f.entry) }
{
    if let Some(m) = e.leaf() {
        return raised_into(out, start, x + m, y, f);
    }
    if let Some((m, p, q)) = e.leaf_pair() {
        if let Some((n, r, s)) = f.leaf_pair() {
            return Ok(put_leaves(
                out,
                start,
                Pick::Greater.of(x + m + p, y + n + r),
                Pick::Greater.of(x + m + q, y + n + s),
            ));
        }
    }
    joined_in_halves(out, start, x, e, y, f)
}

// The same, where `e` is mostly a node.
#[cycle(joined)]
fn joined_in_halves(
    out: &mut [Entry],
    start: usize,
    x: u32,
    e: EventView,
    y: u32,
    f: EventView,
) -> Result<usize, AllocError>
    requires e_fits { x + greatest e < 2 ^ 32 }
    requires e_normal { IsNormal e }
    requires f_fits { y + greatest f < 2 ^ 32 }
    requires f_normal { IsNormal f }
    requires room { start + size e + size f ≤ length out.old + 1 }
    ensures written { IfOk result (λ stop. HasTreeWritten out.old out.new start stop (walks.combined_from Pick.Greater x e.entry y f.entry)) }
    ensures next { IfOk result (λ stop. stop < start + size e.entry + size f.entry) }
{
    match e.part() {
        EventPart::Leaf(m) => raised_into(out, start, x + m, y, f),
        EventPart::Node(m, a, b) => match f.part() {
            EventPart::Leaf(n) => raised_into(out, start, y + n, x, e),
            EventPart::Node(n, c, d) => {
                let middle = joined_into(out, start + 1, x + m, a, y + n, c)?;
                let stop = joined_into(out, middle, x + m, b, y + n, d)?;
                close_at(out, 0, start, middle, stop)
            }
        },
    }
}

// The join, in normal form, by way of entries with room for it.
pub fn joined_by(
    alloc: Global,
    room: &mut [Entry],
    e: EventView,
    f: EventView,
) -> Result<Node, AllocError>
    requires e_fits { greatest e < 2 ^ 32 }
    requires e_normal { IsNormal e }
    requires f_fits { greatest f < 2 ^ 32 }
    requires f_normal { IsNormal f }
    requires room { size e + size f ≤ length room.old + 1 }
    ensures { IfOk result (λ node. node ≡ walks.combined_from Pick.Greater 0 e.entry 0 f.entry) }
{
    let stop = joined_into(room, 0, 0, e, 0, f)?;
    let out = entries::copied(alloc, room.split_at(stop).0)?;
    Ok(Node::of(out))
}

// The join, in normal form, in a block with room for both, which stays as the block of the join where it is mostly full.
pub fn joined_in_block(alloc: Global, e: EventView, f: EventView) -> Result<Node, AllocError>
    requires e_fits { greatest e < 2 ^ 32 }
    requires e_normal { IsNormal e }
    requires f_fits { greatest f < 2 ^ 32 }
    requires f_normal { IsNormal f }
    ensures { IfOk result (λ node. node ≡ walks.combined_from Pick.Greater 0 e.entry 0 f.entry) }
{
    let entries = e.entries();
    let others = f.entries();
    // What stands in the room does not count, and a copy of both makes it at once.
    let mut room = Vec::with_capacity(alloc, entries.len() + others.len())?;
    room.extend_from_slice(entries)?;
    room.extend_from_slice(others)?;
    let mut out = SmallVec::from_vec(room);
    let stop = joined_into(out.as_mut_slice(), 0, 0, e, 0, f)?;
    let made = entries::first_of(alloc, out, stop)?;
    Ok(Node::of(made))
}
