//! An event tree restricted to an id that owns one part alone: that part at the end of the way to it, and one leaf at each level beside
//! it. All values are known before, so only the nodes of the way and the part are written, in one pass over a list of such leaves.

ghost use Rattle.std.specs.Prelude.{◌≡◌, ◌↔◌, ◌≤◌, ◌<◌, ◌+◌, ◌^◌, ◌++◌, IsTrue, IfOk, ℕ, length, take, drop};
ghost use Rattle.id_tree.specs.OneWay.{id_of_way};
ghost use Rattle.id_tree.specs.Size.{size as id_size};
ghost use Rattle.event_tree.specs.EventTree.{Leaf};
ghost use Rattle.event_tree.specs.NormalForm.{greatest, value_limit};
ghost use Rattle.event_tree.specs.Halves.{root};
ghost use Rattle.event_tree.specs.Norm.{lifted};
ghost use Rattle.event_tree.specs.Size.{size};
ghost use Rattle.event_tree.specs.working.Entries.{preorder};
ghost use Rattle.event_tree.specs.working.Walks as walks;
ghost use Rattle.event_tree.specs.working.Beside.{half_of, part_at, base_at, rooted, beside, size_beside, leaves};
ghost use Rattle.event_tree.specs.working.Beside as besides;

use crate::layout::entries::{self, Entry, put};
use crate::layout::in_place::put_all;
use crate::layout::view::{EventPart, EventView};
use crate::node::Node;
use id_tree::Way;
use std::alloc::{AllocError, Global};

// More entries than these are many.
const MANY: usize = 128;

// The base, and the half that a turn leads to.
#[inline(always)]
fn half<'a>(e: &EventView<'a>, turn: bool) -> (u32, EventView<'a>)
    ensures base { result.0 ≡ root e.now }
    ensures half { result.1 ≡ half_of turn e.now }
{
    let (n, a, b) = e.halves();
    if turn { (n, b) } else { (n, a) }
}

// The sum of the bases on the way, and the part at its end.
fn walk_down<'a>(way: Way, e: EventView<'a>) -> (u32, EventView<'a>)
    requires { greatest e < 2 ^ 32 }
    ensures base { result.0 ≡ base_at way.entry 0 e.entry }
    ensures part { result.1 ≡ part_at way.entry e.entry }
    ensures within { result.0 + greatest result.1 < 2 ^ 32 }
{
    let mut way = way;
    let mut x = 0;
    let mut part = e;
    while let Some((turn, behind)) = way.turn() {
        let (n, below) = half(&part, turn);
        x += n;
        part = below;
        way = behind;
    }
    (x, part)
}

// Whether the part above the base `x` is a leaf of the greatest value that there is.
fn is_limit(part: &EventView, x: u32) -> bool
    requires { x + root part.now < 2 ^ 32 }
    ensures { IsTrue result ↔ (lifted x part.now ≡ Leaf value_limit) }
{
    match part.part() {
        EventPart::Leaf(n) => n + x == u32::MAX,
        EventPart::Node(_, _, _) => false,
    }
}

// How many entries there are, if an entry can say so: one less than those of the id and of the part.
fn whole_size(id: usize, part: usize) -> Result<u32, AllocError>
    requires { 1 ≤ id }
    ensures { IfOk result (λ size. size + 1 ≡ id + part) }
{
    let most = u32::MAX as usize;
    if id > most || part > most - (id - 1) {
        return Err(AllocError);
    }
    Ok((id - 1 + part) as u32)
}

// How many entries stand before the half that a turn leads to.
#[inline(always)]
fn width(turn: bool) -> usize
    ensures { result ≡ besides.width turn }
{
    if turn { 2 } else { 1 }
}

// Writes the entries of the part, with `v` at its root.
fn put_rooted(out: &mut [Entry], at: usize, part: &EventView, v: u32)
    requires { at + size part.now ≤ length out.old }
    ensures { out.new ≡ take at out.old ++ (preorder (rooted v part.now) ++ drop (at + size part.now) out.old) }
{
    let entries = part.entries();
    let size = entries[0].size;
    put_all(out, at, entries);
    put(out, at, Entry { value: v, size });
}

// Writes the nodes of the way, `m` at the top, and the part at its end into leaves: those beside the way stand there already.
fn write_down(out: &mut [Entry], way: Way, m: u32, size: u32, part: &EventView)
    requires sized { size ≡ size_beside way part.now }
    requires room { length out.old ≡ size }
    ensures as_long { length out.new ≡ length out.old }
    ensures written { (k : ℕ) → out.old ≡ leaves (length out.old) k → out.new ≡ preorder (beside way.entry m k part.now) }
{
    let mut way = way;
    let mut at: usize = 0;
    let mut value = m;
    let mut size = size;
    while let Some((turn, behind)) = way.turn() {
        put(out, at, Entry { value, size });
        at += width(turn);
        value = 0;
        size -= 2;
        way = behind;
    }
    put_rooted(out, at, part, value);
}

// Whether so many entries stand at the end of the way that to write them twice, as leaves and as they are, costs more than it saves.
pub fn leads_to_many(way: Way, e: EventView) -> bool {
    if e.entries().len() <= MANY {
        return false;
    }
    let mut way = way;
    let mut part = e;
    while let Some((turn, behind)) = way.turn() {
        let (_, below) = half(&part, turn);
        part = below;
        way = behind;
    }
    part.entries().len() > MANY
}

// The tree at the end of the way, and the limit elsewhere. The id of the way has so many nodes and leaves.
pub fn restricted(alloc: Global, size: usize, way: Way, e: EventView) -> Result<Node, AllocError>
    requires size { size ≡ id_size (id_of_way way) }
    requires small { greatest e < 2 ^ 32 }
    ensures { IfOk result (λ node. node ≡ walks.restricted_from (id_of_way way.entry) 0 e.entry) }
{
    let (x, part) = walk_down(way.again(), e);
    if is_limit(&part, x) {
        return Ok(Node::leaf(alloc, u32::MAX));
    }
    let m = x + part.root();
    let size = whole_size(size, part.entries().len())?;
    let leaf = Entry {
        value: u32::MAX - m,
        size: 1,
    };
    let mut out = entries::repeated(alloc, size as usize, leaf)?;
    write_down(out.as_mut_slice(), way, m, size, &part);
    Ok(Node::of(out))
}
