//! A join that grows in a list, where it mostly takes parts as they are; and how that is seen.

ghost use Rattle.std.specs.Prelude.{◌≡◌, ◌+◌, ◌<◌, ◌^◌, ◌++◌, IfOk, OnOk};
ghost use Rattle.event_tree.specs.NormalForm.{greatest, IsNormal};
ghost use Rattle.event_tree.specs.working.Entries.{preorder};
ghost use Rattle.event_tree.specs.working.Walks as walks;

use super::Pick;
use crate::layout::entries::{self, Entries, Entry};
use crate::layout::node_entry::close;
use crate::layout::view::{EventPart, EventView};
use crate::node::Node;
use std::alloc::{AllocError, Global};

// How many levels are looked at, at most, to see whether a join mostly copies.
const DEPTH: usize = 40;

// Appends `f` above the base `y` with `k` in place of each lesser value, in normal form.
fn raised_onto(out: &mut Entries, k: u32, y: u32, f: EventView) -> Result<(), AllocError>
    requires fits { y + greatest f < 2 ^ 32 }
    requires normal { IsNormal f }
    ensures { OnOk result (out.new.items ≡ out.old.items ++ preorder (walks.clipped Pick.Greater k y f.entry)) }
{
    if k <= y + f.root() {
        return f.append_lifted(out, y);
    }
    match f.part() {
        EventPart::Leaf(n) => entries::push_leaf(out, Pick::Greater.of(k, y + n)),
        EventPart::Node(n, c, d) => {
            let start = out.len();
            entries::push(out, Entry::default())?;
            raised_onto(out, k, y + n, c)?;
            let middle = out.len();
            raised_onto(out, k, y + n, d)?;
            close(out, 0, start, middle)
        }
    }
}

// Appends the greater of `e` above the base `x` and `f` above the base `y`, in normal form.
fn joined_onto(
    out: &mut Entries,
    x: u32,
    e: EventView,
    y: u32,
    f: EventView,
) -> Result<(), AllocError>
    requires e_fits { x + greatest e < 2 ^ 32 }
    requires e_normal { IsNormal e }
    requires f_fits { y + greatest f < 2 ^ 32 }
    requires f_normal { IsNormal f }
    ensures { OnOk result (out.new.items ≡ out.old.items ++ preorder (walks.combined_from Pick.Greater x e.entry y f.entry)) }
{
    match e.part() {
        EventPart::Leaf(m) => raised_onto(out, x + m, y, f),
        EventPart::Node(m, a, b) => match f.part() {
            EventPart::Leaf(n) => raised_onto(out, y + n, x, e),
            EventPart::Node(n, c, d) => {
                let start = out.len();
                entries::push(out, Entry::default())?;
                joined_onto(out, x + m, a, y + n, c)?;
                let middle = out.len();
                joined_onto(out, x + m, b, y + n, d)?;
                close(out, 0, start, middle)
            }
        },
    }
}

// Whether `e` above the base `x` is a node at or above the leaf that `f` above the base `y` is.
#[inline(always)]
fn is_node_above(x: u32, e: &EventView, y: u32, f: &EventView) -> bool {
    match f.leaf() {
        Some(n) => e.entries().len() > 1 && y.wrapping_add(n) <= x.wrapping_add(e.root()),
        None => false,
    }
}

// How many entries a join takes as they are, where it takes a node so, beside a leaf.
#[inline(always)]
fn taken(x: u32, e: &EventView, y: u32, f: &EventView) -> usize {
    if is_node_above(x, e, y, f) {
        return e.entries().len();
    }
    if is_node_above(y, f, x, e) {
        return f.entries().len();
    }
    0
}

// Whether a join takes most entries as they are: on the way down those of one half of each pair of nodes, or of both, until few are left.
pub fn is_mostly_taken(e: EventView, f: EventView) -> bool {
    let all = e.entries().len().wrapping_add(f.entries().len());
    let few = all / 8 + 4;
    let mut e = e;
    let mut f = f;
    let mut x: u32 = 0;
    let mut y: u32 = 0;
    let mut others = all;
    for _ in 0..DEPTH {
        let (m, a, b) = e.halves();
        let (n, c, d) = f.halves();
        x = x.wrapping_add(m);
        y = y.wrapping_add(n);
        let one = taken(x, &a, y, &c);
        let two = taken(x, &b, y, &d);
        others = others.wrapping_sub(one).wrapping_sub(two);
        if one > 0 && two > 0 {
            return others <= few;
        }
        if one == 0 && two == 0 {
            return false;
        }
        if one > 0 {
            e = b;
            f = d;
        } else {
            e = a;
            f = c;
        }
        let left = e.entries().len().wrapping_add(f.entries().len());
        if others.wrapping_sub(left) > few {
            return false;
        }
        if left <= few {
            return true;
        }
    }
    false
}

// For how many entries a list has room at first. Beside a much smaller tree it mostly needs no more than the larger one has.
fn room_of_both(one: usize, other: usize) -> usize {
    let larger = one.max(other);
    let smaller = one.min(other);
    if smaller <= larger / 8 {
        larger
    } else {
        larger.saturating_add(smaller)
    }
}

// The join, in normal form, by way of a list, where most is copied as it is.
pub fn joined_in_list(alloc: Global, e: EventView, f: EventView) -> Result<Node, AllocError>
    requires e_fits { greatest e < 2 ^ 32 }
    requires e_normal { IsNormal e }
    requires f_fits { greatest f < 2 ^ 32 }
    requires f_normal { IsNormal f }
    ensures { IfOk result (λ node. node ≡ walks.combined_from Pick.Greater 0 e.entry 0 f.entry) }
{
    let room = room_of_both(e.entries().len(), f.entries().len());
    let mut out = entries::with_room(alloc, room)?;
    joined_onto(&mut out, 0, e, 0, f)?;
    entries::fit(&mut out);
    Ok(Node::of(out))
}
