//! The event trees of interval tree clocks (Almeida, Baquero, Fonte 2008): how many events are known at each point.
//!
//! An event tree is seen as a tree, and by it as a function from points to numbers. Each is in normal form, at most 40
//! deep, with no value above 4,294,967,295, so that equal functions are equal trees with one text.
#![tactic(auto)]

ghost use Rattle.std.specs.Prelude.{◌≡◌, ◌↔◌, ◌⊎◌, ◌++◌, ◌≤◌, ◌<◌, ◌+◌, ◌≢◌, ℕ, max, List, true, false, IsTrue, IsOk, IfOk, IfErr, MatchResult, OnOk, OnErr, IsErr};
ghost use Rattle.std.specs.List.{list_all};
ghost use Rattle.id_tree.specs.IdTree.{IdTree, Zero};
ghost use Rattle.id_tree.specs.NormalForm.{depth_limit, depth as id_depth, IsNormal as IsNormalId};
ghost use Rattle.id_tree.specs.Points.{Point, owns};
ghost use Rattle.id_tree.specs.Spelling.{is_tree_byte};
ghost use Rattle.event_tree.specs.EventTree.{EventTree, Leaf};
ghost use Rattle.event_tree.specs.Values.{value_at, IsAtOrBelow, ExceedsOn};
ghost use Rattle.event_tree.specs.NormalForm.{IsEvents, IsNormal, depth, least, greatest, value_limit};
ghost use Rattle.event_tree.specs.Size.{size};
ghost use Rattle.event_tree.specs.Spelling.{spelling, IsTextOf};
ghost use Rattle.event_tree.specs.Faults.{IsFaultOfEvents, IsEventFaultOf};
ghost use Rattle.event_tree.specs.Join.{IsJoin};
ghost use Rattle.event_tree.specs.Meet.{IsMeet};
ghost use Rattle.event_tree.specs.Restricted.{IsRestricted};
ghost use Rattle.event_tree.specs.Grown.{IsGrown};
ghost use Rattle.event_tree.specs.Norm.{norm};
ghost use Rattle.event_tree.specs.Event.{IsEventStep, PassesLimit, fill, cost, grow};
ghost use Rattle.event_tree.specs.Ways.{CanGrow, CostsNoMore, way, IsAtOrRightOf};

mod event;
mod fault;
mod joins;
mod layout;
mod node;
mod order;
mod reading;
mod restriction;
mod writing;

pub use fault::{EventFault, EventsFault};
use id_tree::{Id, IdPart};
use joins::joined;
use joins::meet::met;
use node::Node;
use reading::first_fault::Part;
use reading::{first_fault, into_entries};
use std::alloc::{AllocError, Global};
use std::marker::Model;

/// How many events are known at each point.
pub struct Events {
    node: Node,
}

impl Drop for Events {
    fn drop(self) {
        let Events { node: _ } = self;
    }
}

impl Model for Events {
    ghost use Rattle.event_tree.specs.EventTree.{EventTree, event_tree_code};
    ghost use Rattle.event_tree.specs.NormalForm.{IsEvents};

    ghost Value = { EventTree };

    ghost coded = { event_tree_code };

    ghost view = { λ a. a.node };

    ghost invariant = { λ a. IsEvents a.node };
}

impl Events {
    /// No events anywhere. It takes no memory.
    pub fn zero(alloc: Global) -> Events
        ensures { result ≡ Leaf 0 }
    {
        Events {
            node: Node::leaf(alloc, 0),
        }
    }

    /// Tells a proof what holds of each event tree.
    pub fn recall_facts(&self)
        ensures normal { IsNormal self.now }
        ensures shallow { depth self.now ≤ depth_limit }
        ensures small { greatest self.now ≤ value_limit }
    {
        let _node = &self.node;
    }

    /// Whether the two are one event tree.
    #[inline(always)]
    pub fn equal(&self, other: &Events) -> bool
        ensures { IsTrue result ↔ (self.now ≡ other.now) }
    {
        self.node.is_same(&other.node)
    }

    /// The same event tree once more. One of at most 8 nodes and leaves takes no memory.
    pub fn copy(&self, alloc: Global) -> Result<Events, AllocError>
        ensures copy { IfOk result (λ e. e ≡ self.now) }
        ensures small { size self.now ≤ 8 → IsOk result }
    {
        let node = self.node.copy(alloc)?;
        Ok(Events { node })
    }

    /// Whether this tree is at or below the other at every point. It takes no memory.
    pub fn leq(&self, other: &Events) -> bool
        ensures pointwise { IsTrue result ↔ IsAtOrBelow self.now other.now }
        ensures exceeding { (result ≡ false) ↔ ((p : Point) × (value_at other.now p < value_at self.now p)) }
    {
        order::is_below_from(0, self.node.view(), 0, other.node.view())
    }

    /// Whether this tree is greater than the other at some point that the id owns. It takes no memory.
    #[inline(always)]
    pub fn exceeds_on(&self, other: &Events, id: &Id) -> bool
        ensures { IsTrue result ↔ ExceedsOn id.now self.now other.now }
    {
        order::exceeds_from(id.view(), 0, self.node.view(), 0, other.node.view())
    }

    /// At each point the greater value of the two.
    pub fn join(&self, alloc: Global, other: &Events) -> Result<Events, AllocError>
        ensures { IfOk result (λ joined. IsJoin self.now other.now joined) }
    {
        let node = joined(alloc, self.node.view(), other.node.view())?;
        Ok(Events { node })
    }

    /// At each point the lesser value of the two.
    pub fn meet(&self, alloc: Global, other: &Events) -> Result<Events, AllocError>
        ensures { IfOk result (λ met. IsMeet self.now other.now met) }
    {
        let node = met(alloc, self.node.view(), other.node.view())?;
        Ok(Events { node })
    }

    /// The tree's own value at each point that the id owns, and elsewhere the greatest that there is, 4,294,967,295: what is
    /// at or below it exceeds the tree nowhere on the id.
    pub fn restricted(&self, alloc: Global, id: &Id) -> Result<Events, AllocError>
        ensures { IfOk result (λ bound. IsRestricted id.now self.now bound) }
    {
        id.recall_facts();
        let node = restriction::restricted(alloc, id, &self.node)?;
        Ok(Events { node })
    }

    /// What an event of the owner of the id makes of the tree: greater at some points that the id owns, and the same at
    /// all that it does not own. `NothingOwned` exactly for an id that owns nothing, `ClockFull` exactly where a value
    /// would be greater than 4,294,967,295.
    pub fn event(&self, alloc: Global, id: &Id) -> Result<Events, EventFault>
        ensures step { IfOk result (λ after. IsEventStep id.now self.now after) }
        ensures grown { IfOk result (λ after. IsGrown id.now self.now after) }
        ensures no_deeper { IfOk result (λ after. depth after ≤ max (id_depth id.now) (depth self.now)) }
        ensures err { IfErr result (λ fault. IsEventFaultOf fault id.now self.now) }
        ensures full { PassesLimit id.now self.now → IsErr result }
        ensures nothing_owned { id.now ≡ Zero → result ≡ Err EventFault.NothingOwned }
    {
        id.recall_facts();
        let view = id.view();
        match view.part() {
            IdPart::Nothing => Err(EventFault::NothingOwned),
            _ => match event::event_step(alloc, id, &self.node)? {
                Some(node) => Ok(Events { node }),
                None => Err(EventFault::ClockFull),
            },
        }
    }

    /// The event tree that the bytes spell, all of the bytes. The memory and the stack that it takes do not grow with how
    /// deeply brackets are nested beyond the depth limit, but for one small entry for each open bracket.
    pub fn parse(alloc: Global, bytes: &[u8]) -> Result<Events, EventsFault>
        ensures ok { IfOk result (λ e. bytes.now ≡ spelling e) }
        ensures err { IfErr result (λ fault. IsFaultOfEvents fault bytes.now) }
        ensures only { (t : EventTree) → IsEvents t → bytes.now ≡ spelling t → MatchResult result (λ e. e ≡ t) (λ fault. fault ≡ EventsFault.Memory) }
    {
        // What is spelled right is read so, if there is memory; which fault a text has, the reader says.
        if let Some(node) = into_entries::read(alloc, bytes) {
            return Ok(Events { node });
        }
        match first_fault::read(alloc, bytes)? {
            Part::Normal(_, _, Some(_)) => Err(EventsFault::Memory),
            Part::Normal(_, depth, None) => {
                if depth > 40 {
                    Err(EventsFault::TooDeep)
                } else {
                    Err(EventsFault::TooLarge)
                }
            }
            Part::NotNormal => Err(EventsFault::NotNormal),
        }
    }

    /// Appends the one text of the event tree. On a refused growth `out` is as it was.
    pub fn write_to(&self, out: &mut Vec<u8>) -> Result<(), AllocError>
        ensures ok { OnOk result (out.new.items ≡ out.old.items ++ spelling self.now) }
        ensures err { OnErr result (out.new.items ≡ out.old.items) }
    {
        self.node.write(out)
    }
}

/// Two event trees in normal form with equal values are equal.
pub fn event_trees_with_equal_values_are_equal()
    ensures { (e f : EventTree) → IsNormal e → IsNormal f → ((p : Point) → value_at e p ≡ value_at f p) → e ≡ f }
{}

/// A tree's spelling is its text, and no text is that of two trees.
pub fn an_event_tree_has_one_text()
    ensures own { (e : EventTree) → IsEvents e → IsTextOf e (spelling e) }
    ensures spelled { (e f : EventTree) → IsEvents e → IsEvents f → spelling e ≡ spelling f → e ≡ f }
    ensures read { (t u : EventTree) (bytes : List ℕ) → IsTextOf t bytes → IsTextOf u bytes → t ≡ u }
{}

/// Each byte of a text is `(`, `)`, `,` or a digit: no space, no semicolon, no line feed.
pub fn texts_of_event_trees_are_plain()
    ensures { (e : EventTree) → IsEvents e → IsTrue (list_all is_tree_byte (spelling e)) }
{}

/// The greatest value of a tree is the value at some point, and no value is above it; so is the least, and none is below it.
pub fn the_least_and_the_greatest_are_values_at_points()
    ensures some_greatest { (e : EventTree) → (p : Point) × (value_at e p ≡ greatest e) }
    ensures none_above { (e : EventTree) (p : Point) → value_at e p ≤ greatest e }
    ensures some_least { (e : EventTree) → (p : Point) × (value_at e p ≡ least e) }
    ensures none_below { (e : EventTree) (p : Point) → least e ≤ value_at e p }
{}

/// A tree is at or below another one that is restricted to an id exactly where it exceeds that one nowhere on the id.
pub fn a_restricted_tree_bounds_what_exceeds_nowhere()
    ensures below { (i : IdTree) (v e f : EventTree) → greatest v ≤ value_limit → IsRestricted i e f → IsAtOrBelow v f ↔ (¬ ExceedsOn i v e) }
    ensures exceeding { (i : IdTree) (v e f : EventTree) → greatest v ≤ value_limit → IsRestricted i e f → ((p : Point) × (value_at f p < value_at v p)) ↔ ExceedsOn i v e }
{}

/// A tree is at or below the meet of two exactly where it is at or below both; of two that are restricted, exactly where it
/// exceeds neither on its id.
pub fn a_meet_bounds_what_both_bound()
    ensures below { (v e f g : EventTree) → IsMeet e f g → IsAtOrBelow v g ↔ (IsAtOrBelow v e × IsAtOrBelow v f) }
    ensures exceeding { (v e f g : EventTree) → IsMeet e f g
        → ((p : Point) × (value_at g p < value_at v p)) ↔ (((p : Point) × (value_at e p < value_at v p)) ⊎ ((p : Point) × (value_at f p < value_at v p))) }
    ensures restricted { (i j : IdTree) (v e f x y g : EventTree) → greatest v ≤ value_limit → IsRestricted i e x → IsRestricted j f y → IsMeet x y g
        → IsAtOrBelow v g ↔ ((¬ ExceedsOn i v e) × (¬ ExceedsOn j v f)) }
{}

/// The normal form has the same values, is normal, and is the tree itself where that was normal.
pub fn the_normal_form_has_the_same_values()
    ensures same_values { (e : EventTree) (p : Point) → value_at (norm e) p ≡ value_at e p }
    ensures normal { (e : EventTree) → IsNormal (norm e) }
    ensures unchanged { (e : EventTree) → IsNormal e → norm e ≡ e }
{}

/// An event of an id has a step of each tree, and only one.
pub fn an_event_has_one_step()
    ensures some { (i : IdTree) (e : EventTree) → (f : EventTree) × IsEventStep i e f }
    ensures only { (i : IdTree) (e f g : EventTree) → IsEventStep i e f → IsEventStep i e g → f ≡ g }
{}

/// The step of an event grows the tree where the id owns, is normal, no deeper than both, and has no value more than one
/// above the greatest.
pub fn the_event_step_grows()
    ensures grown { (i : IdTree) (e f : EventTree) → IsNormalId i → i ≢ Zero → IsNormal e → IsEventStep i e f → IsGrown i e f }
    ensures normal { (i : IdTree) (e f : EventTree) → IsNormalId i → i ≢ Zero → IsNormal e → IsEventStep i e f → IsNormal f }
    ensures no_deeper { (i : IdTree) (e f : EventTree) → IsNormalId i → IsNormal e → IsEventStep i e f → depth f ≤ max (id_depth i) (depth e) }
    ensures by_one { (i : IdTree) (e f : EventTree) → IsNormalId i → IsNormal e → IsEventStep i e f → greatest f ≤ greatest e + 1 }
{}

/// Growth is a way to grow, no way costs less, and of the ways at this cost it is the rightmost.
pub fn growth_costs_least()
    ensures possible { (i : IdTree) (e : EventTree) → IsNormalId i → i ≢ Zero → CanGrow i e (way i e) (cost i e).opened (cost i e).levels (grow i e) }
    ensures least { (i : IdTree) (e t : EventTree) (p : Point) (o v : ℕ) → CanGrow i e p o v t → CostsNoMore (cost i e).opened (cost i e).levels o v }
    ensures rightmost { (i : IdTree) (e t : EventTree) (p : Point) → CanGrow i e p (cost i e).opened (cost i e).levels t → IsAtOrRightOf (way i e) p }
{}

/// Fill raises only points that the id owns, lowers none, and passes the tree's greatest value at none.
pub fn fill_raises_only_what_is_owned()
    ensures unchanged { (i : IdTree) (e : EventTree) (p : Point) → owns i p ≡ false → value_at (fill i e) p ≡ value_at e p }
    ensures above { (i : IdTree) (e : EventTree) (p : Point) → value_at e p ≤ value_at (fill i e) p }
    ensures within { (i : IdTree) (e : EventTree) (p : Point) → value_at (fill i e) p ≤ greatest e }
{}
