//! The step of an event: fill where that changes the tree, and grow otherwise. Which way is taken:
//!
//! - `one_part`, where the id owns one part alone: it looks at what the tree has there. A leaf at or above the least value of the half
//!   beside it, if there is one, is raised in a copy, and that is all. Where the way goes on below a leaf the tree grows (`grow`); a node,
//!   or a leaf below that least value, is filled (`fill`).
//! - `fill_in_copy`, for any other id: walks over the id and the tree. The first part that filling changes makes the copy. Where none
//!   changes, the tree grows (`grow`).

ghost use Rattle.std.specs.Prelude.{◌≡◌, ◌<◌, ◌^◌, [], IfOk, MatchOption};
ghost use Rattle.id_tree.specs.NormalForm.{IsNormal as IsNormalId, depth as id_depth};
ghost use Rattle.event_tree.specs.NormalForm.{greatest, IsNormal};
ghost use Rattle.event_tree.specs.working.Stepping.{IsStepped};
ghost use Rattle.event_tree.specs.working.OwnLeaf.{IsOwnPart};
ghost use Rattle.event_tree.specs.Event as events;

pub mod fill;
pub mod fill_in_copy;
pub mod greatest;
pub mod grow;
pub mod one_part;

use crate::layout::entries::Entries;
use crate::node::Node;
use fill::filled_step;
use fill_in_copy::{Look, fill_at};
use grow::grown;
use id_tree::{Id, IdView};
use one_part::{Found, own_part, raised};
use smallvec::SmallVec;
use std::alloc::{AllocError, Global};

// The step of an event for any id, by walks over it and the tree.
fn step_by_walks(
    alloc: Global,
    out: &mut Entries,
    id: &IdView,
    e: &Node,
) -> Result<bool, AllocError>
    requires normal { IsNormalId id.now }
    requires tree_normal { IsNormal e.now }
    requires depth { id_depth id.now < 2 ^ 32 }
    requires fits { greatest e.now < 2 ^ 32 }
    ensures { IfOk result (λ fits. IsStepped fits id.now e.now out.new.items) }
{
    let view = e.view();
    view.recall_count();
    match fill_at(alloc, out, &view, 0, id, &view, 0)? {
        Look::Kept => grown(alloc, out, id, &view),
        Look::Changed(stop) => {
            out.truncate(stop);
            Ok(true)
        }
    }
}

// The same for an id that owns one part alone, by what the tree has there.
#[inline(always)]
fn step_there(
    alloc: Global,
    out: &mut Entries,
    id: &Id,
    e: &Node,
    found: Found,
) -> Result<bool, AllocError>
    requires normal { IsNormalId id.now }
    requires tree_normal { IsNormal e.now }
    requires depth { id_depth id.now < 2 ^ 32 }
    requires fits { greatest e.now < 2 ^ 32 }
    requires own { IsOwnPart id.now e.now found }
    requires empty { out.old.items ≡ [] }
    ensures { IfOk result (λ fits. IsStepped fits id.now e.now out.new.items) }
{
    match found {
        Found::Own(leaf) => raised(alloc, out, e, leaf, id),
        Found::Above => grown(alloc, out, &id.view(), &e.view()),
        Found::Unfilled => filled_step(alloc, out, &id.view(), e),
    }
}

// Writes what an event makes of the tree; or says that a value would pass the limit. Mostly it raises one leaf.
#[inline(always)]
fn step_into(alloc: Global, out: &mut Entries, id: &Id, e: &Node) -> Result<bool, AllocError>
    requires normal { IsNormalId id.now }
    requires tree_normal { IsNormal e.now }
    requires depth { id_depth id.now < 2 ^ 32 }
    requires fits { greatest e.now < 2 ^ 32 }
    requires empty { out.old.items ≡ [] }
    ensures { IfOk result (λ fits. IsStepped fits id.now e.now out.new.items) }
{
    match own_part(id, e.view()) {
        Some(found) => step_there(alloc, out, id, e, found),
        None => step_by_walks(alloc, out, &id.view(), e),
    }
}

// What an event makes of the tree, or `None` where a value would pass the limit.
#[inline(always)]
pub fn event_step(alloc: Global, id: &Id, e: &Node) -> Result<Option<Node>, AllocError>
    requires normal { IsNormalId id.now }
    requires tree_normal { IsNormal e.now }
    requires depth { id_depth id.now < 2 ^ 32 }
    requires fits { greatest e.now < 2 ^ 32 }
    ensures { IfOk result (λ o. MatchOption o (events.PassesLimit id.now e.now) (λ node. events.IsEventStep id.now e.now node × (greatest node < 2 ^ 32))) }
{
    let mut out = SmallVec::new(alloc);
    if step_into(alloc, &mut out, id, e)? {
        Ok(Some(Node::of(out)))
    } else {
        Ok(None)
    }
}
