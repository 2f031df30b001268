//! An event tree restricted to an id. Which way is taken:
//!
//! - For an id that owns everything, a copy of the tree; for one that owns nothing, one leaf.
//! - `one_part`, where the id owns one part alone: only the way to it and the part are written, over a list of leaves.
//! - `by_halves`, where the id owns several parts, or one part with many entries, which `one_part` would write twice: one walk over the id
//!   and the tree.

ghost use Rattle.std.specs.Prelude.{◌≡◌, ◌<◌, ◌^◌, IsTrue, IfOk};
ghost use Rattle.id_tree.specs.IdTree.{One};
ghost use Rattle.event_tree.specs.NormalForm.{greatest};
ghost use Rattle.event_tree.specs.working.Walks as walks;

pub mod by_halves;
pub mod one_part;

use crate::node::Node;
use by_halves::restricted_by_halves;
use id_tree::Id;
use std::alloc::{AllocError, Global};

// Whether the id owns everything.
#[tactic(auto, using(crate::proofs::Restrictions::is_everything))]
fn owns_everything(id: &Id) -> bool
    ensures { IsTrue result → id.now ≡ One }
{
    id.size() == 1 && id.owns_any()
}

// The tree where the id owns, and the limit elsewhere. Most ids own one part alone. Where that is everything, nothing stands beside it,
// and where it is nothing, nothing else.
pub fn restricted(alloc: Global, id: &Id, e: &Node) -> Result<Node, AllocError>
    requires { greatest e.now < 2 ^ 32 }
    ensures { IfOk result (λ node. node ≡ walks.restricted_from id.now 0 e.now) }
{
    if owns_everything(id) {
        return e.copy(alloc);
    }
    if id.view().is_nothing() {
        return Ok(Node::leaf(alloc, u32::MAX));
    }
    let size = id.size();
    match id.only_way() {
        Some(way) => {
            if one_part::leads_to_many(way.again(), e.view()) {
                return restricted_by_halves(alloc, size, id.view(), e.view());
            }
            one_part::restricted(alloc, size, way, e.view())
        }
        None => restricted_by_halves(alloc, size, id.view(), e.view()),
    }
}
