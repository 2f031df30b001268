//! Growth at the least cost, where filling changes nothing. The costs of two halves are computed only where the id owns some of both.

ghost use Rattle.std.specs.Prelude.{◌≡◌, ◌+◌, ◌≤◌, ◌<◌, ◌^◌, ◌++◌, true, false, IfOk};
ghost use Rattle.id_tree.specs.NormalForm.{depth as id_depth};
ghost use Rattle.event_tree.specs.NormalForm.{greatest};
ghost use Rattle.event_tree.specs.working.Entries.{preorder};
ghost use Rattle.event_tree.specs.working.Stepping.{IsFitted};
ghost use Rattle.event_tree.specs.Event as events;
ghost use Rattle.event_tree.specs.working.Walks.{cost_of};

use super::greatest::greatest;
use crate::layout::entries::{self, Entries, Entry};
use crate::layout::node_entry;
use crate::layout::view::EventView;
use id_tree::{IdPart, IdView};
use std::alloc::{AllocError, Global};

// What growth costs: leaves opened, then levels.
#[derive(Clone, Copy)]
pub struct GrowthCost {
    pub opened: u32,
    pub levels: u32,
}

fn is_less(c: GrowthCost, d: GrowthCost) -> bool
    ensures { result ≡ events.is_less (cost_of c) (cost_of d) }
{
    c.opened < d.opened || (c.opened == d.opened && c.levels < d.levels)
}

fn grows_left(l: &IdView, r: &IdView, c: GrowthCost, d: GrowthCost) -> bool
    ensures { result ≡ events.grows_left l.now r.now (cost_of c) (cost_of d) }
{
    match (l.part(), r.part()) {
        (IdPart::Nothing, _) => false,
        (_, IdPart::Nothing) => true,
        _ => is_less(c, d),
    }
}

#[tactic(auto, using(crate::proofs::Growth::cost_within))]
fn cost(id: &IdView, e: &EventView) -> GrowthCost
    requires { id_depth id.now < 2 ^ 32 }
    ensures { cost_of result ≡ events.cost id.now e.now }
{
    match id.part() {
        IdPart::Nothing | IdPart::Everything => GrowthCost {
            opened: 0,
            levels: 0,
        },
        IdPart::Halves(l, r) => {
            let (_, a, b) = e.halves();
            let c = cost(&l, &a);
            let d = cost(&r, &b);
            let best = if grows_left(&l, &r, c, d) { c } else { d };
            GrowthCost {
                opened: best.opened + e.opened(),
                levels: best.levels + 1,
            }
        }
    }
}

// Whether the left half grows. Costs are computed only where both halves own something.
fn grows_left_at(l: &IdView, r: &IdView, a: &EventView, b: &EventView) -> bool
    requires left { id_depth l.now < 2 ^ 32 }
    requires right { id_depth r.now < 2 ^ 32 }
    ensures { result ≡ events.grows_left l.now r.now (events.cost l.now a.now) (events.cost r.now b.now) }
{
    match (l.part(), r.part()) {
        (IdPart::Nothing, _) => false,
        (_, IdPart::Nothing) => true,
        _ => is_less(cost(l, a), cost(r, b)),
    }
}

// Appends the tree above `base`, grown at the least cost; or says that a value would pass the limit.
fn grown_into(out: &mut Entries, id: &IdView, base: u32, e: &EventView) -> Result<bool, AllocError>
    requires depth { id_depth id.now < 2 ^ 32 }
    requires fits { base + greatest e.now < 2 ^ 32 }
    ensures grown { IfOk result (λ fits. fits ≡ true → out.new.items ≡ out.old.items ++ preorder (events.grow id.now e.now)) }
    ensures within { IfOk result (λ fits. fits ≡ true → base + greatest (events.grow id.now e.now) < 2 ^ 32) }
    ensures past { IfOk result (λ fits. fits ≡ false → 2 ^ 32 ≤ base + greatest (events.grow id.now e.now)) }
{
    match id.part() {
        IdPart::Nothing => {
            e.append(out)?;
            Ok(true)
        }
        IdPart::Everything => {
            if base + greatest(e) == u32::MAX {
                return Ok(false);
            }
            e.append_lifted(out, 1)?;
            Ok(true)
        }
        IdPart::Halves(l, r) => {
            let (n, a, b) = e.halves();
            let start = out.len();
            entries::push(out, Entry::default())?;
            if grows_left_at(&l, &r, &a, &b) {
                if !grown_into(out, &l, base + n, &a)? {
                    return Ok(false);
                }
                b.append(out)?;
                node_entry::seal(out, n, start)?;
                Ok(true)
            } else {
                a.append(out)?;
                if !grown_into(out, &r, base + n, &b)? {
                    return Ok(false);
                }
                node_entry::seal(out, n, start)?;
                Ok(true)
            }
        }
    }
}

// Writes the tree grown at the least cost; or says that a value would pass the limit.
pub fn grown(
    alloc: Global,
    out: &mut Entries,
    id: &IdView,
    e: &EventView,
) -> Result<bool, AllocError>
    requires depth { id_depth id.now < 2 ^ 32 }
    requires fits { greatest e.now < 2 ^ 32 }
    ensures { IfOk result (λ fits. IsFitted fits (events.grow id.now e.now) out.new.items) }
{
    *out = entries::with_room(alloc, e.entries().len())?;
    grown_into(out, id, 0, e)
}
