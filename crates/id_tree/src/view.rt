//! A read-only look at an id from outside of this crate, one level at a time.

ghost use Rattle.std.specs.Prelude.{◌≡◌, ◌↔◌, IsTrue};
ghost use Rattle.id_tree.specs.IdTree.{Zero, One};
ghost use Rattle.id_tree.specs.View.{ShowsId};
ghost use Rattle.id_tree.specs.working.Marks.{tree_of};

use crate::marks::{Mark, split_first_tree};
use std::marker::Model;

/// A part of an id, seen as the tree of what it owns there.
#[derive(Drop)]
pub struct IdView<'a> {
    marks: &'a [Mark],
}

impl<'a> Model for IdView<'a> {
    ghost use Rattle.id_tree.specs.IdTree.{IdTree, id_tree_code};
    ghost use Rattle.id_tree.specs.working.Marks.{tree_of};

    ghost Value = { IdTree };

    ghost coded = { id_tree_code };

    ghost view = { λ a. tree_of a.marks.now };
}

/// One level of a part of an id.
#[derive(Drop)]
pub enum IdPart<'a> {
    /// Nothing is owned there.
    Nothing,
    /// Everything is owned there.
    Everything,
    /// What is owned in the left half and in the right half.
    Halves(IdView<'a>, IdView<'a>),
}

impl<'a> IdView<'a> {
    pub(crate) fn of(marks: &'a [Mark]) -> IdView<'a>
        ensures { result ≡ tree_of marks.now }
    {
        IdView { marks }
    }

    /// What stands at the top of this part.
    pub fn part(&self) -> IdPart<'a>
        ensures { ShowsId result self.now }
    {
        match self.marks.split_first() {
            Some((Mark::One, _)) => IdPart::Everything,
            Some((Mark::Pair, halves)) => {
                let (_, right) = split_first_tree(halves);
                IdPart::Halves(IdView { marks: halves }, IdView { marks: right })
            }
            _ => IdPart::Nothing,
        }
    }

    /// Whether nothing is owned there. It reads one mark, where a look at the halves seeks the end of the left one.
    pub fn is_nothing(&self) -> bool
        ensures { IsTrue result ↔ (self.now ≡ Zero) }
    {
        match self.marks.first() {
            None | Some(Mark::Zero) => true,
            Some(Mark::One | Mark::Pair) => false,
        }
    }

    /// Whether everything is owned there, told in the same way.
    pub fn is_everything(&self) -> bool
        ensures { IsTrue result ↔ (self.now ≡ One) }
    {
        match self.marks.first() {
            Some(Mark::One) => true,
            None | Some(Mark::Zero | Mark::Pair) => false,
        }
    }
}
