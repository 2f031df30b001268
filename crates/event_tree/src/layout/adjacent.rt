//! Several parts of event trees, one after the other.

ghost use Rattle.std.specs.Prelude.{◌≡◌, ◌<◌, length, [], ◌∷◌};
ghost use Rattle.event_tree.specs.Halves.{root};
ghost use Rattle.event_tree.specs.Size.{size};
ghost use Rattle.event_tree.specs.working.Entries.{first, later};
ghost use Rattle.event_tree.specs.working.Sequences.{halved};

use crate::layout::entries::Entry;
use crate::layout::view::EventView;
use std::marker::Model;

/// The entries of several trees, one after the other, seen as these trees.
#[derive(Drop)]
pub struct Sequence<'a> {
    entries: &'a [Entry],
}

impl<'a> Model for Sequence<'a> {
    ghost use Rattle.std.specs.Prelude.{List};
    ghost use Rattle.std.specs.Coded.{coded_list};
    ghost use Rattle.event_tree.specs.EventTree.{EventTree, event_tree_code};
    ghost use Rattle.event_tree.specs.working.Entries.{trees_of};
    ghost use Rattle.event_tree.specs.working.Sequences.{ArePreorders};

    ghost Value = { List EventTree };

    ghost coded = { coded_list event_tree_code };

    ghost view = { λ a. trees_of a.entries.now };

    ghost invariant = { λ a. ArePreorders a.entries.now };
}

impl<'a> Sequence<'a> {
    // This tree alone.
    #[inline(always)]
    pub fn of(tree: EventView<'a>) -> Sequence<'a>
        ensures { result ≡ tree.entry ∷ [] }
    {
        Sequence {
            entries: tree.entries(),
        }
    }

    // The first entry of the first tree.
    #[inline(always)]
    pub fn entry(&self) -> Entry
        requires { 0 < length self.now }
        ensures value { result.value ≡ root (first self.now) }
        ensures size { result.size ≡ size (first self.now) }
    {
        self.entries[0]
    }

    // The first tree.
    #[inline(always)]
    pub fn first(&self) -> EventView<'a>
        requires { 0 < length self.now }
        ensures { result ≡ first self.now }
    {
        EventView::of(self.entries.split_at(self.entries[0].size as usize).0)
    }

    // The trees behind the first.
    #[inline(always)]
    pub fn later(&self) -> Sequence<'a>
        requires { 0 < length self.now }
        ensures { result ≡ later self.now }
    {
        Sequence {
            entries: self.entries.split_at(self.entries[0].size as usize).1,
        }
    }

    // The halves of the first tree, a node, in its place.
    #[inline(always)]
    pub fn halved(&self) -> Sequence<'a>
        requires { 1 < size (first self.now) }
        ensures { result ≡ halved self.now }
    {
        Sequence {
            entries: self.entries.split_at(1).1,
        }
    }
}
