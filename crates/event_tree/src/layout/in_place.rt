//! How a tree is written into a slice that has room for it. Each function says where what comes next begins.

ghost use Rattle.std.specs.Prelude.{◌≡◌, ◌+◌, ◌<◌, ◌≤◌, ◌^◌, ◌++◌, length, take, drop};
ghost use Rattle.event_tree.specs.EventTree.{Leaf};
ghost use Rattle.event_tree.specs.Halves.{root};
ghost use Rattle.event_tree.specs.Norm.{lifted, normal_node};
ghost use Rattle.event_tree.specs.Size.{size};
ghost use Rattle.event_tree.specs.working.Writing.{HasTreeWritten};

use crate::layout::entries::Entry;
use crate::layout::view::EventView;

// Writes a leaf.
#[inline(always)]
pub fn put_leaf(out: &mut [Entry], start: usize, n: u32) -> usize
    requires { start < length out.old }
    ensures written { HasTreeWritten out.old out.new start result (Leaf n) }
    ensures next { result ≡ start + 1 }
{
    out[start] = Entry { value: n, size: 1 };
    start + 1
}

// Writes the node of two leaves in normal form, above the base 0.
#[inline(always)]
pub fn put_leaves(out: &mut [Entry], start: usize, m: u32, n: u32) -> usize
    requires { start + 2 < length out.old }
    ensures written { HasTreeWritten out.old out.new start result (normal_node 0 (Leaf m) (Leaf n)) }
    ensures next { result ≤ start + 3 }
{
    if m == n {
        return put_leaf(out, start, m);
    }
    let k = m.min(n);
    out[start] = Entry { value: k, size: 3 };
    out[start + 1] = Entry {
        value: m - k,
        size: 1,
    };
    out[start + 2] = Entry {
        value: n - k,
        size: 1,
    };
    start + 3
}

// Writes these entries.
pub fn put_all(out: &mut [Entry], start: usize, entries: &[Entry])
    requires { start + length entries.now ≤ length out.old }
    ensures as_long { length out.new ≡ length out.old }
    ensures are { out.new ≡ take start out.old ++ (entries.now ++ drop (start + length entries.now) out.old) }
{
    out[start..start + entries.len()].copy_from_slice(entries);
}

// Writes the entries of `e`, `k` more at each point.
pub fn put_lifted(out: &mut [Entry], start: usize, e: EventView, k: u32) -> usize
    requires fits { root e + k < 2 ^ 32 }
    requires room { start + size e ≤ length out.old }
    ensures written { HasTreeWritten out.old out.new start result (lifted k e.entry) }
    ensures next { result ≡ start + size e.entry }
{
    let entries = e.entries();
    let first = entries[0];
    // The size that stands there is the length of the slice, which then no walk needs to know.
    put_all(out, start, entries.split_at(first.size as usize).0);
    out[start] = Entry {
        value: first.value + k,
        size: first.size,
    };
    start + first.size as usize
}
