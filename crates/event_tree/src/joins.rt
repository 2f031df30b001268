//! The join and the meet of two event trees, each in one pass over both. Which way is taken:
//!
//! - A join with a leaf at or below the other tree is a copy of that tree.
//! - `by_place`, for most joins: a join goes over all of both trees, so it is written by place into room for both. Room for few entries
//!   is an array; the tree that comes of it takes memory where it has more than eight.
//! - `in_list`, where the trees have more entries, and a join mostly takes parts of them as they are: it grows in a list.
//! - `meet`, for each meet: it passes over what is greater everywhere, however large that is.

ghost use Rattle.std.specs.Prelude.{◌≡◌, ◌<◌, ◌≤◌, ◌^◌, IsTrue, IfOk};
ghost use Rattle.event_tree.specs.EventTree.{Leaf};
ghost use Rattle.event_tree.specs.NormalForm.{greatest, IsNormal};
ghost use Rattle.event_tree.specs.Halves.{root};
ghost use Rattle.event_tree.specs.working.Walks as walks;

pub mod by_place;
pub mod in_list;
pub mod meet;

use crate::layout::entries::{self, Entry};
use crate::layout::view::EventView;
use crate::node::Node;
use by_place::{joined_by, joined_in_block};
use in_list::{is_mostly_taken, joined_in_list};
use std::alloc::{AllocError, Global};

/// Which of two values is taken at a point.
#[derive(Clone, Copy)]
pub enum Pick {
    Greater,
    Lesser,
}

impl Pick {
    fn of(self, m: u32, n: u32) -> u32
        ensures { result ≡ walks.pick self m n }
    {
        match self {
            Pick::Greater => m.max(n),
            Pick::Lesser => m.min(n),
        }
    }
}

// How many entries the array of a join has room for. A join has one less than both trees at most.
const FEW: usize = 16;

// The join, in normal form, by way of room for both, which is an array where the entries are few.
fn joined_in_room(alloc: Global, e: EventView, f: EventView) -> Result<Node, AllocError>
    requires e_fits { greatest e < 2 ^ 32 }
    requires e_normal { IsNormal e }
    requires f_fits { greatest f < 2 ^ 32 }
    requires f_normal { IsNormal f }
    ensures { IfOk result (λ node. node ≡ walks.combined_from Pick.Greater 0 e.entry 0 f.entry) }
{
    if e.entries().len() + f.entries().len() <= FEW + 1 {
        let mut few = [Entry::default(); FEW];
        return joined_by(alloc, &mut few, e, f);
    }
    if is_mostly_taken(e.again(), f.again()) {
        return joined_in_list(alloc, e, f);
    }
    joined_in_block(alloc, e, f)
}

// Whether `e` is a leaf at or below `f` everywhere: the least value of that, in normal form, stands at its root.
#[inline(always)]
fn is_leaf_below(e: &EventView, f: &EventView) -> bool
    ensures { IsTrue result → ((e.now ≡ Leaf (root e.now)) × (root e.now ≤ root f.now)) }
{
    match e.leaf() {
        Some(n) => n <= f.root(),
        None => false,
    }
}

// The same tree once more.
fn copied(alloc: Global, e: EventView) -> Result<Node, AllocError>
    ensures { IfOk result (λ node. node ≡ e.entry) }
{
    let out = entries::copied(alloc, e.entries())?;
    Ok(Node::of(out))
}

// The join, in normal form. A leaf at or below the other tree changes nothing of that.
pub fn joined(alloc: Global, e: EventView, f: EventView) -> Result<Node, AllocError>
    requires e_fits { greatest e < 2 ^ 32 }
    requires e_normal { IsNormal e }
    requires f_fits { greatest f < 2 ^ 32 }
    requires f_normal { IsNormal f }
    ensures { IfOk result (λ node. node ≡ walks.combined_from Pick.Greater 0 e.entry 0 f.entry) }
{
    if is_leaf_below(&e, &f) {
        return copied(alloc, f);
    }
    if is_leaf_below(&f, &e) {
        return copied(alloc, e);
    }
    joined_in_room(alloc, e, f)
}
