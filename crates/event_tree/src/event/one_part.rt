//! What a tree has where an id owns one part alone. A leaf there, at or above the root of the half beside it (in normal form its least
//! value), is raised by an event, and all other entries stay as they are; else what the way meets tells whether the event fills.

ghost use Rattle.std.specs.Prelude.{◌≡◌, ◌≢◌, ◌<◌, ◌≤◌, ◌^◌, IfOk, MatchOption};
ghost use Rattle.id_tree.specs.Points.{Point};
ghost use Rattle.id_tree.specs.OneWay.{id_of_way};
ghost use Rattle.event_tree.specs.EventTree.{Leaf};
ghost use Rattle.event_tree.specs.NormalForm.{greatest};
ghost use Rattle.event_tree.specs.Halves.{root};
ghost use Rattle.event_tree.specs.Event.{grow};
ghost use Rattle.event_tree.specs.working.Stepping.{IsFitted};
ghost use Rattle.event_tree.specs.working.OwnLeaf.{IsBelow, IsOwnLeaf, IsOwnPart, IsThere};

use crate::layout::entries::{self, Entries, Entry, put};
use crate::layout::view::{EventPart, EventView};
use crate::node::Node;
use id_tree::{Id, Way};
use std::alloc::{AllocError, Global};

/// The leaf at the end of a way: where its entry stands, the sum of the bases above it, and its value above that.
#[derive(Clone, Copy)]
pub struct OwnLeaf {
    at: usize,
    base: u32,
    own: u32,
}

/// What a tree has where a way leads to.
#[derive(Clone, Copy)]
pub enum Found {
    /// A leaf at the end of the way, at or above the root of the half beside it, if there is one.
    Own(OwnLeaf),
    /// A leaf that the way goes on below.
    Above,
    /// What an event fills: a node at the end of the way, or a leaf there that is below the root of the half beside it.
    Unfilled,
}

/// The half that a turn leads to: the base of its node, how many entries stand before it, the root of the half beside it, and itself.
#[derive(Drop)]
pub struct Below<'a> {
    base: u32,
    before: usize,
    beside: u32,
    half: EventView<'a>,
}

// The half that a turn leads to, where the part is a node.
#[inline(always)]
fn go_down<'a>(part: &EventView<'a>, turn: bool) -> Option<Below<'a>>
    ensures { MatchOption result (part.now ≡ Leaf (root part.now)) (λ below. IsBelow turn part.now below) }
{
    match part.part() {
        EventPart::Leaf(_) => None,
        EventPart::Node(base, a, b) => Some(if turn {
            Below {
                base,
                before: a.entries().len() + 1,
                beside: a.root(),
                half: b,
            }
        } else {
            Below {
                base,
                before: 1,
                beside: b.root(),
                half: a,
            }
        }),
    }
}

// What a way leads to.
fn end_of(way: Way, e: EventView) -> Found
    requires { greatest e < 2 ^ 32 }
    ensures { IsThere way.entry e.entry result }
{
    e.recall_count();
    let mut way = way;
    let mut part = e;
    let mut at: usize = 0;
    let mut base: u32 = 0;
    let mut beside: u32 = 0;
    while let Some((turn, behind)) = way.turn() {
        let Some(next) = go_down(&part, turn) else {
            return Found::Above;
        };
        at += next.before;
        base += next.base;
        beside = next.beside;
        part = next.half;
        way = behind;
    }
    match part.part() {
        EventPart::Leaf(own) => {
            if beside <= own {
                Found::Own(OwnLeaf { at, base, own })
            } else {
                Found::Unfilled
            }
        }
        EventPart::Node(_, _, _) => Found::Unfilled,
    }
}

// What the tree has where the id owns one part alone, if it does.
pub fn own_part(id: &Id, e: EventView) -> Option<Found>
    requires { greatest e < 2 ^ 32 }
    ensures { MatchOption result ((way : Point) → id.now ≢ id_of_way way) (λ found. IsOwnPart id.now e.entry found) }
{
    match id.only_way() {
        Some(way) => Some(end_of(way, e)),
        None => None,
    }
}

// Writes the entries of the tree grown at this leaf; or says that its value would pass the limit.
pub fn raised(
    alloc: Global,
    out: &mut Entries,
    e: &Node,
    leaf: OwnLeaf,
    id: &Id,
) -> Result<bool, AllocError>
    requires own { IsOwnLeaf id.now e.now leaf }
    requires fits { greatest e.now < 2 ^ 32 }
    ensures { IfOk result (λ fits. IsFitted fits (grow id.now e.now) out.new.items) }
{
    let _id = id;
    if leaf.base + leaf.own == u32::MAX {
        return Ok(false);
    }
    *out = entries::copied(alloc, e.view().entries())?;
    let raised = Entry {
        value: leaf.own + 1,
        size: 1,
    };
    put(out.as_mut_slice(), leaf.at, raised);
    Ok(true)
}
