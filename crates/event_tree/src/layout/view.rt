//! A look at a part of an event tree, one level at a time.

ghost use Rattle.std.specs.Prelude.{◌≡◌, ◌<◌, ◌+◌, ◌^◌, ◌++◌, OnOk, IfSome, length};
ghost use Rattle.event_tree.specs.EventTree as trees;
ghost use Rattle.event_tree.specs.Halves.{root, left, right};
ghost use Rattle.event_tree.specs.Norm.{lifted};
ghost use Rattle.event_tree.specs.Size.{size};
ghost use Rattle.event_tree.specs.Event.{opened_at};
ghost use Rattle.event_tree.specs.working.Entries.{preorder, tree_of, IsPreorder};
ghost use Rattle.event_tree.specs.working.Parts.{ShowsEvents};

use crate::layout::entries::{Entries, Entry, push, push_leaf, push_leaf_pair};
use std::alloc::AllocError;
use std::marker::Model;

/// A part of an event tree, seen as a tree.
#[derive(Drop)]
pub struct EventView<'a> {
    entries: &'a [Entry],
}

impl<'a> Model for EventView<'a> {
    ghost use Rattle.event_tree.specs.EventTree.{EventTree, event_tree_code};
    ghost use Rattle.event_tree.specs.working.Entries.{tree_of, IsPreorder};

    ghost Value = { EventTree };

    ghost coded = { event_tree_code };

    ghost view = { λ a. tree_of a.entries.now };

    ghost invariant = { λ a. IsPreorder a.entries.now };
}

/// One level of a part of an event tree.
#[derive(Drop)]
pub enum EventPart<'a> {
    /// The same value everywhere.
    Leaf(u32),
    /// A base, and what each half has above it.
    Node(u32, EventView<'a>, EventView<'a>),
}

static ZERO: [Entry; 1] = [Entry { value: 0, size: 1 }];

impl<'a> EventView<'a> {
    pub fn of(entries: &'a [Entry]) -> EventView<'a>
        requires { IsPreorder entries.now }
        ensures { result ≡ tree_of entries.now }
    {
        EventView { entries }
    }

    // What stands at the top of this part.
    pub fn part(&self) -> EventPart<'a>
        ensures { ShowsEvents result self.now }
    {
        let entry = self.entries[0];
        if entry.size <= 1 {
            return EventPart::Leaf(entry.value);
        }
        let inside = self.entries.split_at(1).1;
        let (left, rest) = inside.split_at(inside[0].size as usize);
        // The second half is all of the rest. Cut by its own size it needs no length of the whole, which then no walk hands on.
        let right = rest.split_at(rest[0].size as usize).0;
        EventPart::Node(
            entry.value,
            EventView { entries: left },
            EventView { entries: right },
        )
    }

    // Its value, if it is a leaf.
    pub fn leaf(&self) -> Option<u32>
        ensures { IfSome result (λ n. self.now ≡ trees.Leaf n) }
    {
        let entry = self.entries[0];
        if entry.size <= 1 {
            Some(entry.value)
        } else {
            None
        }
    }

    // The base and the halves; those of a leaf are leaves 0.
    pub fn halves(&self) -> (u32, EventView<'a>, EventView<'a>)
        ensures base { result.0 ≡ root self.now }
        ensures left { result.1 ≡ left self.now }
        ensures right { result.2 ≡ right self.now }
    {
        match self.part() {
            EventPart::Leaf(n) => (
                n,
                EventView { entries: &ZERO },
                EventView { entries: &ZERO },
            ),
            EventPart::Node(n, a, b) => (n, a, b),
        }
    }

    // The base at the root: in normal form, the least value.
    pub fn root(&self) -> u32
        ensures { result ≡ root self.now }
    {
        self.entries[0].value
    }

    // The base and the values of both halves above it, if it is a node of two leaves.
    #[inline(always)]
    pub fn leaf_pair(&self) -> Option<(u32, u32, u32)>
        ensures { IfSome result (λ p. self.now ≡ trees.Node p.0 (trees.Leaf p.1) (trees.Leaf p.2)) }
    {
        let entry = self.entries[0];
        if entry.size == 3 {
            Some((entry.value, self.entries[1].value, self.entries[2].value))
        } else {
            None
        }
    }

    // The same part once more.
    #[inline(always)]
    pub fn again(&self) -> EventView<'a>
        ensures { result ≡ self.now }
    {
        EventView {
            entries: self.entries,
        }
    }

    // Tells a proof that its entries can be counted.
    pub fn recall_count(&self)
        ensures { size self.now < 2 ^ 64 }
    {
        let _size = self.entries().len();
    }

    // How many leaves are opened where a half of it grows.
    pub fn opened(&self) -> u32
        ensures { result ≡ opened_at self.now }
    {
        if self.entries[0].size <= 1 { 1 } else { 0 }
    }

    // Its entries.
    pub fn entries(&self) -> &'a [Entry]
        ensures are { result.now ≡ preorder self.now }
        ensures size { length result.now ≡ size self.now }
    {
        self.entries
    }

    // Appends its entries, `k` more at each point. A leaf takes no call.
    #[inline(always)]
    pub fn append_lifted(&self, out: &mut Entries, k: u32) -> Result<(), AllocError>
        requires { root self.now + k < 2 ^ 32 }
        ensures { OnOk result (out.new.items ≡ out.old.items ++ preorder (lifted k self.now)) }
    {
        match self.leaf() {
            Some(n) => push_leaf(out, n + k),
            None => append_whole_lifted(out, self.again(), k),
        }
    }

    // Appends its entries.
    pub fn append(&self, out: &mut Entries) -> Result<(), AllocError>
        ensures { OnOk result (out.new.items ≡ out.old.items ++ preorder self.now) }
    {
        if let Some(n) = self.leaf() {
            return push_leaf(out, n);
        }
        if let Some((n, p, q)) = self.leaf_pair() {
            return push_leaf_pair(out, n, p, q);
        }
        out.extend_from_slice(self.entries())?;
        Ok(())
    }
}

// Appends the entries of `e`, `k` more at each point.
fn append_whole_lifted(out: &mut Entries, e: EventView, k: u32) -> Result<(), AllocError>
    requires { root e + k < 2 ^ 32 }
    ensures { OnOk result (out.new.items ≡ out.old.items ++ preorder (lifted k e.entry)) }
{
    let entries = e.entries();
    let entry = entries[0];
    push(
        out,
        Entry {
            value: entry.value + k,
            size: entry.size,
        },
    )?;
    // The size that stands there is the length of the slice, which then no walk needs to know.
    out.extend_from_slice(entries.split_at(entry.size as usize).0.split_at(1).1)?;
    Ok(())
}
