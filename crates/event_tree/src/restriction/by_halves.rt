//! An event tree restricted to any id, in one pass over both into one list.

ghost use Rattle.std.specs.Prelude.{◌≡◌, ◌+◌, ◌<◌, ◌^◌, ◌++◌, [], IfOk, OnOk};
ghost use Rattle.id_tree.specs.IdTree.{Pair};
ghost use Rattle.event_tree.specs.NormalForm.{greatest};
ghost use Rattle.event_tree.specs.working.Entries.{preorder};
ghost use Rattle.event_tree.specs.working.Walks as walks;

use crate::layout::entries::{self, Entries, Entry, INLINE};
use crate::layout::node_entry;
use crate::layout::view::EventView;
use crate::node::Node;
use id_tree::{IdPart, IdView};
use smallvec::SmallVec;
use std::alloc::{AllocError, Global};

// Appends `e` above the base `x` where the id owns, and the limit elsewhere; in normal form where `e` is. A half that owns nothing
// or everything takes no call.
#[inline(always)]
#[cycle(restricted)]
fn restricted_into(out: &mut Entries, id: IdView, x: u32, e: EventView) -> Result<(), AllocError>
    requires { x + greatest e < 2 ^ 32 }
    ensures { OnOk result (out.new.items ≡ out.old.items ++ preorder (walks.restricted_from id.entry x e.entry)) }
{
    match id.part() {
        IdPart::Nothing => entries::push_leaf(out, u32::MAX),
        IdPart::Everything => e.append_lifted(out, x),
        IdPart::Halves(l, r) => restricted_in_halves(out, l, r, x, e),
    }
}

// The same for an id of two halves.
#[cycle(restricted)]
fn restricted_in_halves(
    out: &mut Entries,
    l: IdView,
    r: IdView,
    x: u32,
    e: EventView,
) -> Result<(), AllocError>
    requires { x + greatest e < 2 ^ 32 }
    ensures { OnOk result (out.new.items ≡ out.old.items ++ preorder (walks.restricted_from (Pair l.entry r.entry) x e.entry)) }
{
    let (n, a, b) = e.halves();
    let start = out.len();
    entries::push(out, Entry::default())?;
    restricted_into(out, l, x + n, a)?;
    let middle = out.len();
    restricted_into(out, r, x + n, b)?;
    node_entry::close(out, 0, start, middle)
}

// The same by a walk over the halves of any id.
pub fn restricted_by_halves(
    alloc: Global,
    size: usize,
    id: IdView,
    e: EventView,
) -> Result<Node, AllocError>
    requires { greatest e < 2 ^ 32 }
    ensures { IfOk result (λ node. node ≡ walks.restricted_from id.entry 0 e.entry) }
{
    let mut out = room_beside(alloc, size)?;
    restricted_into(&mut out, id, 0, e)?;
    leave_room(&mut out);
    Ok(Node::of(out))
}

// Gives room back where there are so few entries that a list holds them itself, or less than half as many as it has room for: much of what
// stands beside may be one leaf in the end.
#[inline(always)]
fn leave_room(out: &mut Entries)
    ensures { out.new.items ≡ out.old.items }
{
    if out.len() <= INLINE || out.len() < out.capacity() / 2 {
        out.shrink_to_fit();
    }
}

// No entries, and room for what stands beside an id of this size: mostly one for each of its nodes and leaves, and some more where
// it owns. What it owns may be a small part of the tree, so there is no room for all of that.
fn room_beside(alloc: Global, size: usize) -> Result<Entries, AllocError>
    ensures items { IfOk result (λ entries. entries.items ≡ []) }
{
    if size <= INLINE {
        return Ok(SmallVec::new(alloc));
    }
    entries::with_room(alloc, size.saturating_add(8))
}
