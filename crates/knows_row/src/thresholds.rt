//! Thresholds: trees that tell by one comparison whether a place knows one of many elements.

ghost use Rattle.std.specs.Prelude.{◌≡◌, ◌⊎◌, ◌↔◌, ◌<◌, ◌≤◌, ◌+◌, ℕ, List, [], All, Contains, IfOk, IsTrue, MatchOption, length, get_or, slice_index};
ghost use Rattle.std.specs.List.Sorted.{IsStrictlyIncreasing};
ghost use Rattle.event_tree.specs.EventTree.{EventTree};
ghost use Rattle.event_tree.specs.Values.{ExceedsOn};
ghost use Rattle.event_tree.specs.NormalForm.{greatest, value_limit};
ghost use Rattle.chains.specs.Processes.{known};
ghost use Rattle.chains.specs.Elements.{elements};
ghost use Rattle.knows_row.specs.working.Beyond.{IsBeyondAt, AreRising, AddsNothing};
ghost use Rattle.knows_row.specs.Thresholds.{Passes, IsThreshold, tree_in, AreThresholds, PassesTwo, IsHalved, AreRows, PassesOne, IsFirstPassed, AreThresholdsOf};

use chains::{Chains, Elements};
use event_tree::{
    Events, a_meet_bounds_what_both_bound, a_restricted_tree_bounds_what_exceeds_nowhere,
};
use id_tree::Id;
use std::alloc::{AllocError, Global};
use std::marker::Model;

/// Trees in a row.
pub(crate) struct Row {
    trees: Vec<Events>,
}

impl Drop for Row {
    fn drop(self) {
        let Row { trees: _ } = self;
    }
}

impl Model for Row {
    ghost use Rattle.std.specs.Prelude.{List};
    ghost use Rattle.std.specs.Coded.{coded_list};
    ghost use Rattle.event_tree.specs.EventTree.{EventTree, event_tree_code};

    ghost Value = { List EventTree };

    ghost coded = { coded_list event_tree_code };

    ghost view = { λ r. r.trees.items };
}

/// The thresholds of the processes that fell, in order of birth, and above them those of two, of four and so on.
pub struct Thresholds {
    rows: Vec<Row>,
}

impl Drop for Thresholds {
    fn drop(self) {
        let Thresholds { rows: _ } = self;
    }
}

impl Model for Thresholds {
    ghost use Rattle.std.specs.Prelude.{List};
    ghost use Rattle.std.specs.Coded.{coded_list};
    ghost use Rattle.event_tree.specs.EventTree.{EventTree, event_tree_code};

    ghost Value = { List (List EventTree) };

    ghost coded = { coded_list (coded_list event_tree_code) };

    ghost view = { λ t. t.rows.items };
}

impl Row {
    /// How many they are.
    fn len(&self) -> usize
        ensures { result ≡ length self.now }
    {
        self.trees.len()
    }

    /// One of them.
    fn tree(&self, i: usize) -> &Events
        requires { i < length self.now }
        ensures { result.now ≡ tree_in self.now i }
    {
        &self.trees[i]
    }
}

/// A tree that bounds everything: it has the greatest value there is everywhere.
fn no_bound(alloc: Global) -> Result<Events, AllocError>
    ensures { IfOk result (λ t. (v : EventTree) → greatest v ≤ value_limit → ¬ Passes v t) }
{
    a_restricted_tree_bounds_what_exceeds_nowhere();
    Events::zero(alloc).restricted(alloc, &Id::zero(alloc))
}

/// A tree that what is beyond this element passes, too.
fn with_element(
    alloc: Global,
    bound: &Events,
    elements: &Elements<'_>,
    k: u32,
) -> Result<Events, AllocError>
    ensures { IfOk result (λ t. (v : EventTree) → greatest v ≤ value_limit → Passes v t ↔ (Passes v bound.now ⊎ IsBeyondAt v elements.now k)) }
{
    if k == 0 {
        return bound.copy(alloc);
    }
    match elements.get(k - 1) {
        None => bound.copy(alloc),
        Some(element) => lowered(alloc, bound, element.events, element.id),
    }
}

/// A tree that what exceeds these events on the id passes, too.
fn lowered(alloc: Global, bound: &Events, events: &Events, id: &Id) -> Result<Events, AllocError>
    ensures { IfOk result (λ t. (v : EventTree) → greatest v ≤ value_limit → Passes v t ↔ (Passes v bound.now ⊎ ExceedsOn id.now v events.now)) }
{
    a_restricted_tree_bounds_what_exceeds_nowhere();
    a_meet_bounds_what_both_bound();
    let own = events.restricted(alloc, id)?;
    bound.meet(alloc, &own)
}

/// A tree that just what exceeds these events on the id passes.
fn bound_of(alloc: Global, events: &Events, id: &Id) -> Result<Events, AllocError>
    ensures { IfOk result (λ t. (v : EventTree) → greatest v ≤ value_limit → Passes v t ↔ ExceedsOn id.now v events.now) }
{
    a_restricted_tree_bounds_what_exceeds_nowhere();
    events.restricted(alloc, id)
}

/// A tree that just what is beyond this element passes.
fn bound_of_element(alloc: Global, elements: &Elements<'_>, k: u32) -> Result<Events, AllocError>
    ensures { IfOk result (λ t. (v : EventTree) → greatest v ≤ value_limit → Passes v t ↔ IsBeyondAt v elements.now k) }
{
    if k == 0 {
        return no_bound(alloc);
    }
    match elements.get(k - 1) {
        None => no_bound(alloc),
        Some(element) => bound_of(alloc, element.events, element.id),
    }
}

/// Whether element k adds nothing to the one before: where they have one id, what exceeds the later one's events exceeds the
/// earlier one's, too.
fn adds_nothing(elements: &Elements<'_>, k: u32) -> bool
    requires { AreRising elements.now }
    ensures { IsTrue result → AddsNothing elements.now k }
{
    if k < 2 {
        return false;
    }
    let Some(earlier) = elements.get(k - 2) else {
        return false;
    };
    let Some(later) = elements.get(k - 1) else {
        return false;
    };
    earlier.id.equal(later.id)
}

/// The threshold of the elements of a process from this one on and below that one, one after the other. One that adds nothing
/// to the one before is passed over, and those behind the first of the last run are not looked at.
fn threshold_of_many(
    chains: &Chains,
    process: u32,
    from: u32,
    to: u32,
) -> Result<Events, AllocError>
    requires process { process < length (known chains.now.accepted) }
    requires order { from < to }
    ensures { IfOk result (λ t. IsThreshold chains.now.accepted process from to t) }
{
    chains.recall_lawful();
    let elements = chains.elements(process);
    let mut bound = bound_of_element(chains.alloc(), &elements, from)?;
    let end = to.min(elements.same_id_from() + 2);
    for k in from + 1..end {
        if adds_nothing(&elements, k) {
            continue;
        }
        bound = with_element(chains.alloc(), &bound, &elements, k)?;
    }
    Ok(bound)
}

/// The threshold of the elements of a process from this one on and below that one: mostly it is one, of which no meet is made.
fn threshold(chains: &Chains, process: u32, from: u32, to: u32) -> Result<Events, AllocError>
    requires process { process < length (known chains.now.accepted) }
    requires order { from ≤ to }
    ensures { IfOk result (λ t. IsThreshold chains.now.accepted process from to t) }
{
    if from == to {
        return no_bound(chains.alloc());
    }
    if to - from == 1 {
        return bound_of_element(chains.alloc(), &chains.elements(process), from);
    }
    threshold_of_many(chains, process, from, to)
}

/// The thresholds of these processes, one each.
fn leaves(chains: &Chains, cut: &[u32], before: &[u32], fell: &[u32]) -> Result<Row, AllocError>
    requires complete { length cut.now ≡ length (known chains.now.accepted) }
    requires before { length before.now ≡ length cut.now }
    requires falls { (q : ℕ) → q < length cut.now → slice_index cut.now q ≤ slice_index before.now q }
    requires fell { All (λ q. q < length cut.now) fell.now }
    ensures { IfOk result (λ row. AreThresholds chains.now.accepted cut.now before.now fell.now row) }
{
    let mut trees = Vec::with_capacity(chains.alloc(), fell.len())?;
    for i in 0..fell.len() {
        let process = fell[i];
        let tree = threshold(
            chains,
            process,
            cut[process as usize],
            before[process as usize],
        )?;
        trees.push(tree)?;
    }
    Ok(Row { trees })
}

/// A tree that is passed where this tree of the row is, or the next one, if there is one.
fn both(alloc: Global, row: &Row, i: usize) -> Result<Events, AllocError>
    requires { i < length row.now }
    ensures { IfOk result (λ t. (v : EventTree) → Passes v t ↔ PassesTwo v row.now i) }
{
    a_meet_bounds_what_both_bound();
    let len = row.len();
    if i + 1 < len {
        row.tree(i).meet(alloc, row.tree(i + 1))
    } else {
        row.tree(i).copy(alloc)
    }
}

/// A row of half as many trees, each for two.
fn halved(alloc: Global, row: &Row) -> Result<Row, AllocError>
    ensures { IfOk result (λ half. IsHalved row.now half) }
{
    let mut trees = Vec::with_capacity(alloc, row.len() / 2 + 1)?;
    let mut i = 0;
    while i < row.len() {
        let tree = both(alloc, row, i)?;
        trees.push(tree)?;
        i += 2;
    }
    Ok(Row { trees })
}

/// The rows over one row.
fn rows_over(alloc: Global, row: Row) -> Result<Vec<Row>, AllocError>
    ensures first { IfOk result (λ rows. get_or rows.items 0 [] ≡ row) }
    ensures rows { IfOk result (λ rows. AreRows rows.items) }
{
    let mut width = row.len();
    let mut rows = Vec::new(alloc);
    rows.push(row)?;
    while width > 1 {
        let next = halved(alloc, &rows[rows.len() - 1])?;
        width = next.len();
        rows.push(next)?;
    }
    Ok(rows)
}

/// Whether the events pass a tree of the first row.
fn are_passed(rows: &[Row], events: &Events) -> bool
    requires rows { AreRows rows.now }
    ensures { IsTrue result ↔ PassesOne events.now (get_or rows.now 0 []) }
{
    let root = &rows[rows.len() - 1];
    if root.len() == 0 || events.leq(root.tree(0)) {
        return false;
    }
    true
}

/// Of the two trees that the one above stands for, the first that the events pass.
fn below(row: &Row, events: &Events, above: usize) -> usize
    requires within { above + above < length row.now }
    ensures { (half : List EventTree) → IsHalved row.now half → IsFirstPassed events.now half above → IsFirstPassed events.now row.now result }
{
    let len = row.len();
    let left = above + above;
    if left + 1 == len {
        return left;
    }
    if events.leq(row.tree(left)) {
        left + 1
    } else {
        left
    }
}

/// The first tree of the first row that the events pass, if they pass one of them.
fn first_of_rows(rows: &[Row], events: &Events) -> Option<usize>
    requires rows { AreRows rows.now }
    ensures { MatchOption result ((i : ℕ) → i < length (get_or rows.now 0 []) → ¬ Passes events.now (tree_in (get_or rows.now 0 []) i)) (λ i. IsFirstPassed events.now (get_or rows.now 0 []) i) }
{
    let mut level = rows.len() - 1;
    let root = &rows[level];
    if root.len() == 0 || events.leq(root.tree(0)) {
        return None;
    }
    let mut at = 0;
    while level > 0 {
        level -= 1;
        at = below(&rows[level], events, at);
    }
    Some(at)
}

impl Thresholds {
    /// The thresholds of these processes, of their elements from their ranks in the cut on and below those in the cut before.
    pub fn of(
        chains: &Chains,
        cut: &[u32],
        before: &[u32],
        fell: &[u32],
    ) -> Result<Thresholds, AllocError>
        requires complete { length cut.now ≡ length (known chains.now.accepted) }
        requires before { length before.now ≡ length cut.now }
        requires falls { (q : ℕ) → q < length cut.now → slice_index cut.now q ≤ slice_index before.now q }
        requires fell { All (λ q. q < length cut.now) fell.now }
        ensures { IfOk result (λ t. AreThresholdsOf chains.now.accepted cut.now before.now fell.now t) }
    {
        let row = leaves(chains, cut, before, fell)?;
        let rows = rows_over(chains.alloc(), row)?;
        Ok(Thresholds { rows })
    }

    /// Whether the events pass one of them.
    pub fn is_passed(&self, events: &Events) -> bool
        requires rows { AreRows self.now }
        ensures { IsTrue result ↔ PassesOne events.now (get_or self.now 0 []) }
    {
        are_passed(&self.rows, events)
    }

    /// The first of them that the events pass.
    pub fn first_passed(&self, events: &Events) -> Option<usize>
        requires rows { AreRows self.now }
        ensures { MatchOption result ((i : ℕ) → i < length (get_or self.now 0 []) → ¬ Passes events.now (tree_in (get_or self.now 0 []) i)) (λ i. IsFirstPassed events.now (get_or self.now 0 []) i) }
    {
        first_of_rows(&self.rows, events)
    }
}
