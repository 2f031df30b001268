//! The first entries of a node whose halves stand behind it: `seal` writes its own alone, `close_at` puts the node in normal form, and
//! `raise_owned` raises a half.

ghost use Rattle.std.specs.Prelude.{◌≡◌, ◌<◌, ◌≤◌, ◌+◌, ◌-◌, ◌↔◌, ◌++◌, ◌∷◌, IsTrue, IfOk, OnOk, List, ℕ, length, take};
ghost use Rattle.std.proofs.Common.{set};
ghost use Rattle.id_tree.specs.IdTree.{IdTree, One};
ghost use Rattle.event_tree.specs.EventTree.{EventTree, Leaf, Node};
ghost use Rattle.event_tree.specs.Norm.{normal_node};
ghost use Rattle.event_tree.specs.Size.{size};
ghost use Rattle.event_tree.specs.working.Entries.{preorder, EndsInHalves};
ghost use Rattle.event_tree.specs.working.Walks.{left_raised, right_raised, AreFilled};

use crate::layout::entries::{self, Entries, Entry, look_in};
use crate::layout::in_place::put_leaf;
use std::alloc::AllocError;

fn put(out: &mut Entries, at: usize, entry: Entry)
    requires { at < length out.old.items }
    ensures { out.new.items ≡ set out.old.items at entry }
{
    out[at] = entry;
}

// Writes a node's own entry at `start`, and those of its halves.
fn put_node(out: &mut [Entry], start: usize, own: Entry, left: Entry, middle: usize, right: Entry)
    requires begins { start + 1 < length out.old }
    requires within { middle < length out.old }
    ensures { out.new ≡ set (set (set out.old (start + 1) left) middle right) start own }
{
    out[start + 1] = left;
    out[middle] = right;
    out[start] = own;
}

// How many entries there are from `start` up to `stop`, if an entry can say so.
fn size_between(start: usize, stop: usize) -> Result<u32, AllocError>
    requires { start < stop }
    ensures { IfOk result (λ size. size ≡ stop - start) }
{
    let size = stop - start;
    if size > u32::MAX as usize {
        return Err(AllocError);
    }
    Ok(size as u32)
}

// Makes the entry at `start` that of a node of all behind it.
pub fn seal(out: &mut Entries, n: u32, start: usize) -> Result<(), AllocError>
    requires { start < length out.old.items }
    ensures { OnOk result ((front : List Entry) (e : Entry) (a b : EventTree) → length front ≡ start
        → out.old.items ≡ front ++ e ∷ (preorder a ++ preorder b) → out.new.items ≡ front ++ preorder (Node n a b)) }
{
    let size = size_between(start, out.len())?;
    put(out, start, Entry { value: n, size });
    Ok(())
}

// Whether both are leaves with one value.
fn are_equal_leaves(left: Entry, right: Entry) -> bool
    ensures { IsTrue result ↔ ((left.size ≤ 1) × (right.size ≤ 1) × (left.value ≡ right.value)) }
{
    left.size <= 1 && right.size <= 1 && left.value == right.value
}

// Makes the node that begins at `start`, with its second half at `middle` and its end at `stop`, one in normal form, above the base
// `n`, and says where it ends then.
#[inline(always)]
pub fn close_at(
    out: &mut [Entry],
    n: u32,
    start: usize,
    middle: usize,
    stop: usize,
) -> Result<usize, AllocError>
    requires ends { EndsInHalves (take stop out.old) start middle n }
    requires within { stop ≤ length out.old }
    ensures as_long { length out.new ≡ length out.old }
    ensures closed { IfOk result (λ end. (front : List Entry) (e : Entry) (a b : EventTree) → length front ≡ start → middle ≡ start + 1 + size a
        → take stop out.old ≡ front ++ e ∷ (preorder a ++ preorder b) → (end ≤ stop) × (take end out.new ≡ front ++ preorder (normal_node n a b))) }
{
    let left = look_in(out, start + 1);
    let right = look_in(out, middle);
    if are_equal_leaves(left, right) {
        return Ok(put_leaf(out, start, n + left.value));
    }
    let k = left.value.min(right.value);
    let size = size_between(start, stop)?;
    put_node(
        out,
        start,
        Entry { value: n + k, size },
        Entry {
            value: left.value - k,
            size: left.size,
        },
        middle,
        Entry {
            value: right.value - k,
            size: right.size,
        },
    );
    Ok(stop)
}

// Makes the node that begins at `start`, with its second half at `middle`, one in normal form, above the base `n`.
pub fn close(out: &mut Entries, n: u32, start: usize, middle: usize) -> Result<(), AllocError>
    requires { EndsInHalves out.old.items start middle n }
    ensures { OnOk result ((front : List Entry) (e : Entry) (a b : EventTree) → length front ≡ start → middle ≡ start + 1 + size a
        → out.old.items ≡ front ++ e ∷ (preorder a ++ preorder b) → out.new.items ≡ front ++ preorder (normal_node n a b)) }
{
    let stop = out.len();
    let end = close_at(out.as_mut_slice(), n, start, middle, stop)?;
    if end < stop {
        out.truncate(end);
    }
    Ok(())
}

// Raises the half that is owned whole, if one is, to the least value of the other one, both halves behind `start`.
#[inline(always)]
pub fn raise_owned(
    out: &mut [Entry],
    left_whole: bool,
    right_whole: bool,
    start: usize,
    middle: usize,
)
    requires begins { start + 1 < middle }
    requires within { middle < length out.old }
    ensures as_long { length out.new ≡ length out.old }
    ensures raised { (l r : IdTree) (front : List Entry) (e : Entry) (a b : EventTree) (stop : ℕ) → (IsTrue left_whole ↔ (l ≡ One)) → (IsTrue right_whole ↔ (r ≡ One))
        → length front ≡ start → middle ≡ start + 1 + size a → middle < stop → stop ≤ length out.old
        → AreFilled l r a b
        → take stop out.old ≡ front ++ e ∷ (preorder a ++ preorder b)
        → take stop out.new ≡ front ++ e ∷ (preorder (left_raised l r a b) ++ preorder (right_raised l r a b)) }
{
    let left = look_in(out, start + 1);
    let right = look_in(out, middle);
    let value = left.value.max(right.value);
    if left_whole {
        entries::put(out, start + 1, Entry { value, size: 1 });
    } else if right_whole {
        entries::put(out, middle, Entry { value, size: 1 });
    }
}

// The same in a list, at whose end both halves stand.
pub fn raise_at_end(
    out: &mut Entries,
    left_whole: bool,
    right_whole: bool,
    start: usize,
    middle: usize,
)
    requires begins { start + 1 < middle }
    requires within { middle < length out.old.items }
    ensures { (l r : IdTree) (front : List Entry) (e : Entry) (a b : EventTree) → (IsTrue left_whole ↔ (l ≡ One)) → (IsTrue right_whole ↔ (r ≡ One))
        → length front ≡ start → middle ≡ start + 1 + size a → AreFilled l r a b
        → out.old.items ≡ front ++ e ∷ (preorder a ++ preorder b)
        → out.new.items ≡ front ++ e ∷ (preorder (left_raised l r a b) ++ preorder (right_raised l r a b)) }
{
    raise_owned(out.as_mut_slice(), left_whole, right_whole, start, middle);
}
