//! The entries that a tree is kept as: its nodes and leaves in preorder, each with its value and the size of its part.

ghost use Rattle.std.specs.Prelude.{◌≡◌, ◌↔◌, ◌≤◌, ◌<◌, ◌++◌, ◌∷◌, [], IsTrue, IsOk, IfOk, OnOk, length, take, replicate, slice_index_or};
ghost use Rattle.std.proofs.Common.{set};
ghost use Rattle.event_tree.specs.EventTree.{Leaf, Node};
ghost use Rattle.event_tree.specs.working.Entries.{blank, preorder};

use smallvec::SmallVec;
use std::alloc::{AllocError, Global};

/// A node or a leaf of an event tree: the value above its base, and how many entries its part has, which is 1 for a leaf.
#[derive(Clone, Copy, Debug, Default, PartialEq, Eq)]
pub struct Entry {
    pub value: u32,
    pub size: u32,
}

/// How many entries a list holds without memory of its own.
pub const INLINE: usize = 8;

/// The entries of an event tree.
pub type Entries = SmallVec<Entry, 8>;

// The entry at this place. Its fields are read one by one, since both at once would wait for what was just written of each.
#[inline(always)]
pub fn look_in(entries: &[Entry], at: usize) -> Entry
    requires { at < length entries.now }
    ensures { result ≡ slice_index_or entries.now at blank }
{
    Entry {
        value: entries[at].value,
        size: entries[at].size,
    }
}

// Writes an entry.
#[inline(always)]
pub fn put(out: &mut [Entry], at: usize, entry: Entry)
    requires { at < length out.old }
    ensures { out.new ≡ set out.old at entry }
{
    out[at] = entry;
}

// No entries, and room for so many. Of more than a list holds itself they stand in one block from the start.
pub fn with_room(alloc: Global, room: usize) -> Result<Entries, AllocError>
    ensures items { IfOk result (λ entries. entries.items ≡ []) }
{
    if room <= INLINE {
        return Ok(SmallVec::new(alloc));
    }
    let block = Vec::with_capacity(alloc, room)?;
    Ok(SmallVec::from_vec(block))
}

// Makes room for so many entries in a list that has none. Of more than it holds itself they stand in one block from the start.
pub fn make_room(alloc: Global, out: &mut Entries, room: usize) -> Result<(), AllocError>
    requires { out.old.items ≡ [] }
    ensures { OnOk result (out.new.items ≡ []) }
{
    if room > INLINE {
        let block = Vec::with_capacity(alloc, room)?;
        *out = SmallVec::from_vec(block);
    }
    Ok(())
}

// This entry, so many times.
pub fn repeated(alloc: Global, count: usize, entry: Entry) -> Result<Entries, AllocError>
    ensures { IfOk result (λ entries. entries.items ≡ replicate count entry) }
{
    if count <= INLINE {
        return Ok(SmallVec::from_buf_and_len(alloc, [entry; INLINE], count));
    }
    let mut block = Vec::with_capacity(alloc, count)?;
    block.resize(count, entry)?;
    Ok(SmallVec::from_vec(block))
}

// The same entries once more.
pub fn copied(alloc: Global, entries: &[Entry]) -> Result<Entries, AllocError>
    ensures ok { IfOk result (λ copy. copy.items ≡ entries.now) }
    ensures small { length entries.now ≤ 8 → IsOk result }
{
    if entries.len() <= INLINE {
        return SmallVec::from_slice(alloc, entries);
    }
    let block = Vec::from_slice(alloc, entries)?;
    Ok(SmallVec::from_vec(block))
}

// So many of these entries, the first ones: in the block that they have, or in one of their own where they take less than three quarters.
pub fn first_of(alloc: Global, out: Entries, count: usize) -> Result<Entries, AllocError>
    requires { count ≤ length out.items }
    ensures { IfOk result (λ entries. entries.items ≡ take count out.items) }
{
    let mut out = out;
    if count < out.len() - out.len() / 4 {
        return copied(alloc, out.as_slice().split_at(count).0);
    }
    out.truncate(count);
    Ok(out)
}

// Gives back room that is not used, where that is more than a quarter.
pub fn fit(out: &mut Entries)
    ensures { out.new.items ≡ out.old.items }
{
    let room = out.capacity();
    if out.len() < room - room / 4 {
        out.shrink_to_fit();
    }
}

// Whether both are the same.
pub fn are_same(entries: &[Entry], others: &[Entry]) -> bool
    ensures { IsTrue result ↔ (entries.now ≡ others.now) }
{
    entries == others
}

// Appends an entry where there is no room for it yet.
#[cold]
#[inline(never)]
fn push_beyond(out: &mut Entries, entry: Entry) -> Result<(), AllocError>
    ensures { OnOk result (out.new.items ≡ out.old.items ++ entry ∷ []) }
{
    out.push(entry)?;
    Ok(())
}

// Appends an entry.
#[inline(always)]
pub fn push(out: &mut Entries, entry: Entry) -> Result<(), AllocError>
    ensures { OnOk result (out.new.items ≡ out.old.items ++ entry ∷ []) }
{
    if out.len() == out.capacity() {
        return push_beyond(out, entry);
    }
    out.push_reserved(entry);
    Ok(())
}

// Appends a leaf.
pub fn push_leaf(out: &mut Entries, n: u32) -> Result<(), AllocError>
    ensures { OnOk result (out.new.items ≡ out.old.items ++ preorder (Leaf n)) }
{
    push(out, Entry { value: n, size: 1 })
}

// Appends a node of two leaves.
pub fn push_leaf_pair(out: &mut Entries, n: u32, p: u32, q: u32) -> Result<(), AllocError>
    ensures { OnOk result (out.new.items ≡ out.old.items ++ preorder (Node n (Leaf p) (Leaf q))) }
{
    push(out, Entry { value: n, size: 3 })?;
    push_leaf(out, p)?;
    push_leaf(out, q)
}
