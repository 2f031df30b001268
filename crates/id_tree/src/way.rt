//! The one way down to what an id owns, where all that it owns is one part alone.

ghost use Rattle.std.specs.Prelude.{◌≡◌, ◌∷◌, [], MatchOption};
ghost use Rattle.id_tree.specs.working.WayOfMarks.{turns_of};
ghost use Rattle.id_tree.specs.working.WayOfMarks as ways;

use crate::marks::Mark;
use std::marker::Model;

/// The turns of a way, seen as a list of them from the top: true to the right, false to the left.
#[derive(Drop)]
pub struct Way<'a> {
    marks: &'a [Mark],
}

impl<'a> Model for Way<'a> {
    ghost use Rattle.std.specs.Coded.{coded_bool, coded_list};
    ghost use Rattle.id_tree.specs.Points.{Point};
    ghost use Rattle.id_tree.specs.working.WayOfMarks.{turns_of};

    ghost Value = { Point };

    ghost coded = { coded_list coded_bool };

    ghost view = { λ a. turns_of a.marks.now };
}

impl<'a> Way<'a> {
    pub(crate) fn of(marks: &'a [Mark]) -> Way<'a>
        ensures { result ≡ turns_of marks.now }
    {
        Way { marks }
    }

    /// The same way once more.
    pub fn again(&self) -> Way<'a>
        ensures { result ≡ self.now }
    {
        Way { marks: self.marks }
    }

    /// The turn at the top, and the way behind it; none at the end.
    #[inline(always)]
    pub fn turn(&self) -> Option<(bool, Way<'a>)>
        ensures { MatchOption result (self.now ≡ []) (λ turn. self.now ≡ turn.0 ∷ turn.1) }
    {
        match self.marks {
            [Mark::Pair, Mark::Zero, behind @ ..] => Some((true, Way { marks: behind })),
            [Mark::Pair, behind @ ..] => Some((false, Way { marks: behind })),
            _ => None,
        }
    }
}

// Whether no mark is that of something.
fn are_nothing(marks: &[Mark]) -> bool
    ensures { result ≡ ways.are_nothing marks.now }
{
    let mut rest = marks;
    while let [mark, behind @ ..] = rest {
        match mark {
            Mark::Zero => rest = behind,
            _ => return false,
        }
    }
    true
}

// Whether the way that the marks begin with ends at a part that is owned whole, and nothing is owned behind it.
pub fn is_only_way(marks: &[Mark]) -> bool
    ensures { result ≡ ways.is_only_way marks.now }
{
    let mut rest = marks;
    loop {
        match rest {
            [Mark::Pair, Mark::Zero, behind @ ..] => rest = behind,
            [Mark::Pair, behind @ ..] => rest = behind,
            [Mark::One, behind @ ..] => return are_nothing(behind),
            _ => return false,
        }
    }
}
