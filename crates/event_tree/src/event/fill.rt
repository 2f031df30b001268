//! Filling where it is known that it changes the tree: the filled tree is written into a list, one part behind the other.

ghost use Rattle.std.specs.Prelude.{◌≡◌, ◌≢◌, ◌<◌, ◌^◌, ◌++◌, ◌↔◌, [], IsTrue, IfOk, OnOk};
ghost use Rattle.id_tree.specs.IdTree.{One};
ghost use Rattle.id_tree.specs.NormalForm.{IsNormal as IsNormalId};
ghost use Rattle.event_tree.specs.NormalForm.{greatest, IsNormal};
ghost use Rattle.event_tree.specs.working.Entries.{preorder};
ghost use Rattle.event_tree.specs.working.Stepping.{IsStepped};
ghost use Rattle.event_tree.specs.working.Walks as walks;

use super::greatest::greatest;
use crate::layout::entries::{self, Entries, Entry};
use crate::layout::node_entry;
use crate::layout::view::{EventPart, EventView};
use crate::node::Node;
use id_tree::{IdPart, IdView};
use std::alloc::{AllocError, Global};

// Appends the tree, filled, and says whether all of it is owned.
fn filled_onto(out: &mut Entries, id: &IdView, e: &EventView) -> Result<bool, AllocError>
    requires normal { IsNormalId id.now }
    requires tree_normal { IsNormal e.now }
    requires fits { greatest e.now < 2 ^ 32 }
    ensures filled { IfOk result (λ whole. out.new.items ≡ out.old.items ++ preorder (walks.filled id.now e.now)) }
    ensures whole { IfOk result (λ whole. IsTrue whole ↔ (id.now ≡ One)) }
{
    match e.part() {
        EventPart::Leaf(n) => {
            entries::push_leaf(out, n)?;
            Ok(id.is_everything())
        }
        EventPart::Node(n, a, b) => match id.part() {
            IdPart::Nothing => {
                e.append(out)?;
                Ok(false)
            }
            IdPart::Everything => {
                entries::push_leaf(out, greatest(e))?;
                Ok(true)
            }
            IdPart::Halves(l, r) => {
                let start = out.len();
                entries::push(out, Entry::default())?;
                let one = filled_onto(out, &l, &a)?;
                let middle = out.len();
                let other = filled_onto(out, &r, &b)?;
                node_entry::raise_at_end(out, one, other, start, middle);
                node_entry::close(out, n, start, middle)?;
                Ok(false)
            }
        },
    }
}

// Writes the tree, filled.
fn filled(alloc: Global, out: &mut Entries, id: &IdView, e: &EventView) -> Result<(), AllocError>
    requires normal { IsNormalId id.now }
    requires tree_normal { IsNormal e.now }
    requires fits { greatest e.now < 2 ^ 32 }
    requires empty { out.old.items ≡ [] }
    ensures { OnOk result (out.new.items ≡ preorder (walks.filled id.now e.now)) }
{
    if id.is_everything() {
        return entries::push_leaf(out, greatest(e));
    }
    entries::make_room(alloc, out, e.entries().len())?;
    filled_onto(out, id, e)?;
    Ok(())
}

// The step where an event fills.
pub fn filled_step(
    alloc: Global,
    out: &mut Entries,
    id: &IdView,
    e: &Node,
) -> Result<bool, AllocError>
    requires normal { IsNormalId id.now }
    requires tree_normal { IsNormal e.now }
    requires fits { greatest e.now < 2 ^ 32 }
    requires other { walks.filled id.now e.now ≢ e.now }
    requires empty { out.old.items ≡ [] }
    ensures { IfOk result (λ fits. IsStepped fits id.now e.now out.new.items) }
{
    filled(alloc, out, id, &e.view())?;
    Ok(true)
}
