//! The ids of interval tree clocks (Almeida, Baquero, Fonte 2008): which part of an interval a process owns.
//!
//! An id is seen as a tree, and by it as the set of points that it owns. Each id is in normal form and at most 40 deep,
//! so that equal sets are equal ids with one text.
#![tactic(auto)]

ghost use Rattle.std.specs.Prelude.{◌≡◌, ◌↔◌, ◌++◌, [], ◌∷◌, IsTrue, IsOk, IfOk, IfErr, IsErrOf, MatchOption, MatchResult, OnOk, OnErr, ◌≤◌, ◌<◌, ◌≢◌, false};
ghost use Rattle.std.specs.List.{list_all};
ghost use Rattle.id_tree.specs.IdTree.{IdTree, Zero, One};
ghost use Rattle.id_tree.specs.Points.{Point, owns, OwnsSome, Overlap, AreDisjoint, AreTogether, Covers};
ghost use Rattle.id_tree.specs.OneWay.{id_of_way};
ghost use Rattle.id_tree.specs.Size.{size};
ghost use Rattle.id_tree.specs.working.Marks.{tree_of, IsLeaf, AreMarksOf};
ghost use Rattle.id_tree.specs.NormalForm.{IsId, IsNormal, depth, depth_limit};
ghost use Rattle.id_tree.specs.Spelling.{spelling, is_tree_byte};
ghost use Rattle.id_tree.specs.Faults.{IsFaultOfId};
ghost use Rattle.id_tree.specs.working.Reading.{IsPartFault};
ghost use Rattle.id_tree.specs.working.Taking.{IsHaltOfWhole};
ghost use Rattle.id_tree.specs.Split.{left_part, right_part, parts_depth, IsSplit};
ghost use Rattle.id_tree.specs.Sum.{sum_of};

mod fault;
mod marks;
mod parts;
mod reading;
mod text;
mod together;
mod view;
mod way;

pub use fault::{IdFault, SplitFault, SumFault};
use marks::{Mark, Marks, are_apart, are_same, cover, own_any, sum_into};
use parts::{left_into, parts_fit, right_into};
use reading::first_fault::Part;
use reading::into_marks::Halt;
use smallvec::SmallVec;
use std::alloc::{AllocError, Global};
use std::marker::Model;
use text::{text_length, write_first};
use together::is_sum_by;
pub use view::{IdPart, IdView};
pub use way::Way;
use way::is_only_way;

/// Which part of an interval someone owns.
pub struct Id {
    marks: Marks,
}

impl Drop for Id {
    fn drop(self) {
        let Id { marks: _ } = self;
    }
}

impl Model for Id {
    ghost use Rattle.id_tree.specs.IdTree.{IdTree, id_tree_code};
    ghost use Rattle.id_tree.specs.working.Marks.{tree_of, AreMarksOf};

    ghost Value = { IdTree };

    ghost coded = { id_tree_code };

    ghost view = { λ a. tree_of a.marks.items };

    ghost invariant = { λ a. AreMarksOf (tree_of a.marks.items) a.marks.items };
}

impl Id {
    /// The id that owns nothing. It takes no memory.
    pub fn zero(alloc: Global) -> Id
        ensures { result ≡ Zero }
    {
        Id::of_leaf(alloc, Mark::Zero)
    }

    /// The id that owns everything. It takes no memory.
    pub fn one(alloc: Global) -> Id
        ensures { result ≡ One }
    {
        Id::of_leaf(alloc, Mark::One)
    }

    fn of_leaf(alloc: Global, leaf: Mark) -> Id
        requires { IsLeaf leaf }
        ensures { result ≡ tree_of (leaf ∷ []) }
    {
        let mut marks = SmallVec::new(alloc);
        marks.push_reserved(leaf);
        Id { marks }
    }

    // The marks that it is kept as.
    fn marks(&self) -> &[Mark]
        ensures are { AreMarksOf self.now result.now }
        ensures tree { tree_of result.now ≡ self.now }
    {
        &self.marks
    }

    /// Tells a proof what holds of each id.
    pub fn recall_facts(&self)
        ensures normal { IsNormal self.now }
        ensures shallow { depth self.now ≤ depth_limit }
    {
        let _marks = &self.marks;
    }

    /// A look at the whole id.
    pub fn view(&self) -> IdView<'_>
        ensures { result ≡ self.now }
    {
        IdView::of(self.marks())
    }

    /// The way down to what it owns, where that is one part alone; else there is none. One pass over it, which takes no memory.
    #[tactic(auto, using(crate::proofs::OneWays::only_way, crate::proofs::OneWays::no_way))]
    pub fn only_way(&self) -> Option<Way<'_>>
        ensures { MatchOption result ((p : Point) → self.now ≢ id_of_way p) (λ way. self.now ≡ id_of_way way) }
    {
        let marks = self.marks();
        if is_only_way(marks) {
            Some(Way::of(marks))
        } else {
            None
        }
    }

    /// How many nodes and leaves it has.
    pub fn size(&self) -> usize
        ensures { result ≡ size self.now }
    {
        self.marks().len()
    }

    /// Whether the two are one id.
    pub fn equal(&self, other: &Id) -> bool
        ensures { IsTrue result ↔ (self.now ≡ other.now) }
    {
        are_same(self.marks(), other.marks())
    }

    /// The same id once more. One of at most 16 nodes and leaves takes no memory.
    pub fn copy(&self, alloc: Global) -> Result<Id, AllocError>
        ensures copy { IfOk result (λ id. id ≡ self.now) }
        ensures small { size self.now ≤ 16 → IsOk result }
    {
        let marks = SmallVec::from_slice(alloc, self.marks())?;
        Ok(Id { marks })
    }

    /// Whether some point is owned. It takes no memory.
    #[tactic(auto, using(crate::proofs::Points::owns_any_iff))]
    pub fn owns_any(&self) -> bool
        ensures { IsTrue result ↔ OwnsSome self.now }
    {
        own_any(self.marks())
    }

    /// Whether no point is owned by both. It takes no memory.
    pub fn disjoint(&self, other: &Id) -> bool
        ensures disjoint { IsTrue result ↔ AreDisjoint self.now other.now }
        ensures overlapping { (result ≡ false) ↔ Overlap self.now other.now }
    {
        are_apart(self.marks(), other.marks())
    }

    /// Whether this id owns each point that the other owns. It takes no memory.
    pub fn covers(&self, other: &Id) -> bool
        ensures covering { IsTrue result ↔ Covers self.now other.now }
        ensures uncovered { (result ≡ false) ↔ ((p : Point) × IsTrue (owns other.now p) × (owns self.now p ≡ false)) }
    {
        cover(self.marks(), other.marks())
    }

    /// Whether this id owns just what the two others own, who own no point both. It takes no memory.
    #[tactic(auto, using(crate::proofs::Sums::is_sum_iff, crate::proofs::Sums::is_disjoint_sum_iff))]
    pub fn is_sum_of(&self, left: &Id, right: &Id) -> bool
        ensures points { IsTrue result ↔ (AreDisjoint left.now right.now × AreTogether left.now right.now self.now) }
        ensures sum { AreDisjoint left.now right.now → (IsTrue result ↔ (self.now ≡ sum_of left.now right.now)) }
    {
        self.recall_facts();
        left.recall_facts();
        right.recall_facts();
        is_sum_by(&self.view(), &left.view(), &right.view())
    }

    /// Two ids that each own a part of what this one owns, and together all of it.
    pub fn split(&self, alloc: Global) -> Result<(Id, Id), SplitFault>
        ensures left { IfOk result (λ parts. parts.0 ≡ left_part self.now) }
        ensures right { IfOk result (λ parts. parts.1 ≡ right_part self.now) }
        ensures split { IfOk result (λ parts. IsSplit self.now parts.0 parts.1) }
        ensures nothing { IsErrOf result SplitFault.NothingOwned ↔ (self.now ≡ Zero) }
        ensures deep { IsErrOf result SplitFault.TooDeep ↔ (depth_limit < parts_depth self.now) }
    {
        let marks = self.marks();
        if !own_any(marks) {
            return Err(SplitFault::NothingOwned);
        }
        if !parts_fit(marks, 40) {
            return Err(SplitFault::TooDeep);
        }
        let mut left = SmallVec::new(alloc);
        left_into(&mut left, marks)?;
        let mut right = SmallVec::new(alloc);
        right_into(&mut right, marks)?;
        Ok((Id { marks: left }, Id { marks: right }))
    }

    /// The id that owns what either owns. Ids that overlap have none, whether or not there is memory.
    pub fn sum(&self, alloc: Global, other: &Id) -> Result<Id, SumFault>
        ensures sum { IfOk result (λ id. AreTogether self.now other.now id) }
        ensures disjoint { OnOk result (AreDisjoint self.now other.now) }
        ensures overlap { IsErrOf result SumFault.Overlap ↔ Overlap self.now other.now }
    {
        if !self.disjoint(other) {
            return Err(SumFault::Overlap);
        }
        let mut marks = SmallVec::new(alloc);
        sum_into(&mut marks, self.marks(), other.marks())?;
        Ok(Id { marks })
    }

    /// The id that the bytes spell, all of the bytes. The stack that it takes does not grow with how deeply brackets are
    /// nested; the memory that it takes is a byte for each node and leaf, and one for each open bracket.
    pub fn parse(alloc: Global, bytes: &[u8]) -> Result<Id, IdFault>
        ensures ok { IfOk result (λ id. bytes.now ≡ spelling id) }
        ensures err { IfErr result (λ fault. IsFaultOfId fault bytes.now) }
        ensures only { (t : IdTree) → IsId t → bytes.now ≡ spelling t → MatchResult result (λ id. id ≡ t) (λ fault. fault ≡ IdFault.Memory) }
    {
        // What is spelled right is read so, if there is memory; which fault a text has, the reader says, where this has not.
        match reading::into_marks::read(alloc, bytes) {
            Ok(marks) => Ok(Id { marks }),
            Err(halt) => Err(fault_of(alloc, bytes, halt)),
        }
    }

    /// Appends the one text of the id. On a refused growth `out` is as it was.
    pub fn write_to(&self, out: &mut Vec<u8>) -> Result<(), AllocError>
        ensures ok { OnOk result (out.new.items ≡ out.old.items ++ spelling self.now) }
        ensures err { OnErr result (out.new.items ≡ out.old.items) }
    {
        let marks = self.marks();
        out.reserve(text_length(marks))?;
        write_first(marks, out);
        Ok(())
    }
}

// What is known of a tree tells its fault.
fn fault_of_part(part: Part) -> IdFault
    ensures { IsPartFault result part }
{
    match part {
        Part::Zero | Part::One => IdFault::Memory,
        Part::Pair(depth) => {
            if depth > 40 {
                IdFault::TooDeep
            } else {
                IdFault::Memory
            }
        }
        Part::NotNormal => IdFault::NotNormal,
    }
}

// The fault of bytes of which no id was read.
fn fault_of(alloc: Global, bytes: &[u8], halt: Halt) -> IdFault
    requires { IsHaltOfWhole halt bytes.now }
    ensures err { IsFaultOfId result bytes.now }
    ensures only { (t : IdTree) → IsId t → bytes.now ≡ spelling t → result ≡ IdFault.Memory }
{
    match halt {
        Halt::NoTree => IdFault::Syntax,
        Halt::NotNormal => IdFault::NotNormal,
        Halt::Other => match reading::first_fault::read(alloc, bytes) {
            Ok(part) => fault_of_part(part),
            Err(fault) => fault,
        },
    }
}

/// Two ids in normal form that own the same points are equal.
pub fn ids_with_equal_points_are_equal()
    ensures { (i j : IdTree) → IsNormal i → IsNormal j → ((p : Point) → owns i p ≡ owns j p) → i ≡ j }
{}

/// An id in normal form other than nothing has two parts in normal form: each owns something, no point is in both, and
/// together they own what the id owns.
pub fn a_split_gives_two_parts()
    ensures split { (i : IdTree) → IsNormal i → i ≢ Zero → IsSplit i (left_part i) (right_part i) }
    ensures normal { (i : IdTree) → IsNormal i → i ≢ Zero → IsNormal (left_part i) × IsNormal (right_part i) }
{}

/// The sum by halves owns what either owns, in normal form.
pub fn a_sum_owns_what_either_owns()
    ensures together { (i j : IdTree) → AreTogether i j (sum_of i j) }
    ensures normal { (i j : IdTree) → IsNormal i → IsNormal j → IsNormal (sum_of i j) }
{}

/// No text is that of two trees.
pub fn an_id_has_one_text()
    ensures { (i j : IdTree) → spelling i ≡ spelling j → i ≡ j }
{}

/// Each byte of a text is `(`, `)`, `,` or a digit: no space, no semicolon, no line feed.
pub fn texts_of_ids_are_plain()
    ensures { (i : IdTree) → IsTrue (list_all is_tree_byte (spelling i)) }
{}
