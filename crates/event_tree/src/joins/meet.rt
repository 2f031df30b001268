//! A meet, in one pass over both trees into one list. The list has room for the larger tree, and grows where that is not enough.

ghost use Rattle.std.specs.Prelude.{◌≡◌, ◌+◌, ◌<◌, ◌^◌, ◌++◌, IfOk, OnOk};
ghost use Rattle.event_tree.specs.NormalForm.{greatest, IsNormal};
ghost use Rattle.event_tree.specs.working.Entries.{preorder};
ghost use Rattle.event_tree.specs.working.Walks as walks;

use super::Pick;
use crate::layout::entries::{self, Entries, Entry};
use crate::layout::node_entry::close;
use crate::layout::view::{EventPart, EventView};
use crate::node::Node;
use std::alloc::{AllocError, Global};

// Appends `f` above the base `y` with `k` in place of each greater value, in normal form. A leaf takes no call.
#[inline(always)]
#[cycle(lowered)]
fn lowered_into(out: &mut Entries, k: u32, y: u32, f: EventView) -> Result<(), AllocError>
    requires fits { y + greatest f < 2 ^ 32 }
    requires normal { IsNormal f }
    ensures { OnOk result (out.new.items ≡ out.old.items ++ preorder (walks.clipped Pick.Lesser k y f.entry)) }
{
    match f.leaf() {
        Some(n) => entries::push_leaf(out, Pick::Lesser.of(k, y + n)),
        None => lowered_in_halves(out, k, y, f),
    }
}

// The same, where `f` is mostly a node.
#[cycle(lowered)]
fn lowered_in_halves(out: &mut Entries, k: u32, y: u32, f: EventView) -> Result<(), AllocError>
    requires fits { y + greatest f < 2 ^ 32 }
    requires normal { IsNormal f }
    ensures { OnOk result (out.new.items ≡ out.old.items ++ preorder (walks.clipped Pick.Lesser k y f.entry)) }
{
    if k <= y + f.root() {
        return entries::push_leaf(out, k);
    }
    if k == u32::MAX {
        return f.append_lifted(out, y);
    }
    match f.part() {
        EventPart::Leaf(n) => entries::push_leaf(out, Pick::Lesser.of(k, y + n)),
        EventPart::Node(n, c, d) => {
            let start = out.len();
            entries::push(out, Entry::default())?;
            lowered_into(out, k, y + n, c)?;
            let middle = out.len();
            lowered_into(out, k, y + n, d)?;
            close(out, 0, start, middle)
        }
    }
}

// Appends the lesser of `e` above the base `x` and `f` above the base `y`, in normal form. Two leaves take no call.
#[inline(always)]
#[cycle(met)]
fn met_into(out: &mut Entries, x: u32, e: EventView, y: u32, f: EventView) -> Result<(), AllocError>
    requires e_fits { x + greatest e < 2 ^ 32 }
    requires e_normal { IsNormal e }
    requires f_fits { y + greatest f < 2 ^ 32 }
    requires f_normal { IsNormal f }
    ensures { OnOk result (out.new.items ≡ out.old.items ++ preorder (walks.combined_from Pick.Lesser x e.entry y f.entry)) }
{
    match e.leaf() {
        Some(m) => lowered_into(out, x + m, y, f),
        None => met_in_halves(out, x, e, y, f),
    }
}

// The same, where `e` is mostly a node.
#[cycle(met)]
fn met_in_halves(
    out: &mut Entries,
    x: u32,
    e: EventView,
    y: u32,
    f: EventView,
) -> Result<(), AllocError>
    requires e_fits { x + greatest e < 2 ^ 32 }
    requires e_normal { IsNormal e }
    requires f_fits { y + greatest f < 2 ^ 32 }
    requires f_normal { IsNormal f }
    ensures { OnOk result (out.new.items ≡ out.old.items ++ preorder (walks.combined_from Pick.Lesser x e.entry y f.entry)) }
{
    match e.part() {
        EventPart::Leaf(m) => lowered_into(out, x + m, y, f),
        EventPart::Node(m, a, b) => match f.part() {
            EventPart::Leaf(n) => lowered_into(out, y + n, x, e),
            EventPart::Node(n, c, d) => {
                let start = out.len();
                entries::push(out, Entry::default())?;
                met_into(out, x + m, a, y + n, c)?;
                let middle = out.len();
                met_into(out, x + m, b, y + n, d)?;
                close(out, 0, start, middle)
            }
        },
    }
}

// The meet, in normal form.
pub fn met(alloc: Global, e: EventView, f: EventView) -> Result<Node, AllocError>
    requires e_fits { greatest e < 2 ^ 32 }
    requires e_normal { IsNormal e }
    requires f_fits { greatest f < 2 ^ 32 }
    requires f_normal { IsNormal f }
    ensures { IfOk result (λ node. node ≡ walks.combined_from Pick.Lesser 0 e.entry 0 f.entry) }
{
    let room = e.entries().len().max(f.entries().len());
    let mut out = entries::with_room(alloc, room)?;
    met_into(&mut out, 0, e, 0, f)?;
    Ok(Node::of(out))
}
