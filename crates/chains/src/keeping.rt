//! What a line keeps of chains.

ghost use Rattle.std.specs.Prelude.{◌≡◌, ◌↔◌, ◌+◌, ◌≤◌, ◌<◌, [], All, length, take, slice_get, option_copied, Some, Err, IfOk, OnOk, IsTrue};
ghost use Rattle.std.specs.Option.{option_map, option_map_or};
ghost use Rattle.stamp.specs.declared.stamp.Stamp.{Stamp};
ghost use Rattle.report_line.specs.declared.report.Report.{Report};
ghost use Rattle.chains.specs.Processes.{Name as AnyName, known};
ghost use Rattle.chains.specs.Elements.{name_of, elements};
ghost use Rattle.chains.specs.Stamps.{stamp_of};
ghost use Rattle.chains.specs.Held.{held_of, counting, with_settlement};
ghost use Rattle.chains.specs.Admission.{report_limit};
ghost use Rattle.chains.specs.Positions.{rank, positions_of, IsChosen, IsCut};
ghost use Rattle.chains.specs.Folded.{IsFolded};
ghost use Rattle.chains.specs.Settled.{number_for, limit, is_settled, settled_by, kept_at, CanBeKept};
ghost use Rattle.chains.specs.working.Settling.{counted_from, limits_in, ListsEach, AreLimits, IsKeptTo, HasElementsTo, HaveElements};

use crate::chains::Chains;
use crate::elements::{Element, Elements};
use crate::places::Line;
use crate::position::{Place, Position};
use report_line::{Name, PackedReport, ReportView};
use std::alloc::AllocError;
use thiserror::Error;

/// Why a line was not kept.
#[derive(Clone, Copy, Debug, PartialEq, Eq, Error)]
pub enum KeepFault {
    /// No process can return to the line: it has not each known process once, in order of birth, at a position of its own; or what is
    /// at or before it does not fold, or has not just the elements up to it.
    #[error("unfit")]
    Unfit,
    /// A growth was refused.
    #[error("memory")]
    Memory,
}

impl Chains {
    /// What a line keeps: `BEGIN` and each report at or before the line in its process, folded anew with their epochs. The front and
    /// the present epoch stay as they are.
    pub fn keep(&self, line: &Line) -> Result<Chains, KeepFault>
        ensures ok { IfOk result (λ kept. CanBeKept self.now.accepted line.now × (held_of kept ≡ kept_at (held_of self.now) (positions_of line.now))) }
        ensures unfit { result ≡ Err KeepFault.Unfit → ¬ CanBeKept self.now.accepted line.now }
    {
        self.recall_lawful();
        let mut kept = Chains::new(self.alloc());
        kept.count_from(self.epoch(), self.epoch());
        match keep_in(self, line.as_slice(), &mut kept) {
            Ok(()) => Ok(kept),
            Err(fault) => Err(fault),
        }
    }

    /// The same of a line that can be kept, which its caller knows: so no report is tested again.
    pub fn keep_fit(&self, line: &Line) -> Result<Chains, AllocError>
        requires { CanBeKept self.now.accepted line.now }
        ensures { IfOk result (λ kept. held_of kept ≡ kept_at (held_of self.now) (positions_of line.now)) }
    {
        self.recall_lawful();
        let mut kept = Chains::new(self.alloc());
        kept.count_from(self.epoch(), self.epoch());
        let limits = limits(self, line.as_slice())?;
        fold_fit_settled(self, &limits, &mut kept)?;
        kept.recall_lawful();
        kept.count_from(self.front(), self.epoch());
        Ok(kept)
    }

    /// Counts a settlement: one more line, and one more epoch.
    pub fn count_settlement(&mut self)
        requires { self.old.front < report_limit }
        ensures { held_of self.new ≡ with_settlement (held_of self.old) }
    {
        self.front += 1;
        self.epoch += 1;
    }

    /// Sets the front and the present epoch.
    fn count_from(&mut self, front: u32, epoch: u32)
        requires past { All (λ e. e ≤ epoch) self.old.epochs }
        requires counted { length self.old.accepted + epoch ≤ front }
        requires within { front ≤ report_limit }
        ensures { held_of self.new ≡ counted_from (held_of self.old) front epoch }
    {
        self.front = front;
        self.epoch = epoch;
    }
}

/// Puts what the line keeps into chains that are empty, and then gives them the front.
fn keep_in(chains: &Chains, line: &[Place], kept: &mut Chains) -> Result<(), KeepFault>
    requires { held_of kept.old ≡ counted_from (counting []) chains.now.epoch chains.now.epoch }
    ensures ok { OnOk result (CanBeKept chains.now.accepted line.now × (held_of kept.new ≡ kept_at (held_of chains.now) (positions_of line.now))) }
    ensures unfit { result ≡ Err KeepFault.Unfit → ¬ CanBeKept chains.now.accepted line.now }
{
    if !lists_each(chains, line) {
        return Err(KeepFault::Unfit);
    }
    match limits(chains, line) {
        Ok(limits) => keep_within(chains, line, &limits, kept),
        Err(_) => Err(KeepFault::Memory),
    }
}

/// The same of a line that has a position of each process, with the limits that it sets.
fn keep_within(
    chains: &Chains,
    line: &[Place],
    limits: &[u32],
    kept: &mut Chains,
) -> Result<(), KeepFault>
    requires line { ListsEach chains.now.accepted line.now }
    requires limits { AreLimits chains.now.accepted (positions_of line.now) limits.now }
    requires begun { held_of kept.old ≡ counted_from (counting []) chains.now.epoch chains.now.epoch }
    ensures ok { OnOk result (CanBeKept chains.now.accepted line.now × (held_of kept.new ≡ kept_at (held_of chains.now) (positions_of line.now))) }
    ensures unfit { result ≡ Err KeepFault.Unfit → ¬ CanBeKept chains.now.accepted line.now }
{
    chains.recall_lawful();
    fold_settled(chains, limits, kept)?;
    kept.recall_lawful();
    if !have_elements(chains, line, kept) {
        return Err(KeepFault::Unfit);
    }
    kept.count_from(chains.front(), chains.epoch());
    Ok(())
}

// ---- the line

/// Whether the line has each known process once, in order of birth, at 0 or a position that the process has.
fn lists_each(chains: &Chains, line: &[Place]) -> bool
    ensures { IsTrue result ↔ ListsEach chains.now.accepted line.now }
{
    if line.len() != chains.count() as usize {
        return false;
    }
    for i in 0..line.len() {
        if !is_own(chains, i as u32, line[i]) {
            return false;
        }
    }
    true
}

/// Whether the place is one of this process.
fn is_own(chains: &Chains, process: u32, place: Place) -> bool
    requires { process < length (known chains.now.accepted) }
    ensures { IsTrue result ↔ ((place.process ≡ process) × IsChosen chains.now.accepted [] process place.position) }
{
    place.process == process && is_chosen(chains, process, place.position)
}

/// Whether the process is unborn at the position, or has it.
fn is_chosen(chains: &Chains, process: u32, position: Position) -> bool
    requires { process < length (known chains.now.accepted) }
    ensures { IsTrue result ↔ IsChosen chains.now.accepted [] process position }
{
    match position {
        Position::At(k) => k <= chains.element_count(process),
        Position::Retired => chains.target_of(process).is_some(),
    }
}

/// How many reports of each process are at or before the line.
fn limits(chains: &Chains, line: &[Place]) -> Result<Vec<u32>, AllocError>
    requires { length line.now ≡ length (known chains.now.accepted) }
    ensures { IfOk result (λ limits. AreLimits chains.now.accepted (positions_of line.now) limits.items) }
{
    chains.recall_lawful();
    let mut limits = Vec::with_capacity(chains.alloc(), line.len())?;
    for i in 0..line.len() {
        limits.push(limit(chains, i as u32, line[i].position))?;
    }
    Ok(limits)
}

/// How many reports of a process are at or before its position.
fn limit(chains: &Chains, process: u32, position: Position) -> u32
    requires { process < length (known chains.now.accepted) }
    ensures { (p : AnyName) → name_of chains.now.accepted process ≡ Some p → result ≡ limit chains.now.accepted p position }
{
    match position {
        Position::At(k) => limit_at(chains, process, k),
        Position::Retired => chains.reports_of(process),
    }
}

/// The same where it is unborn or at an element.
fn limit_at(chains: &Chains, process: u32, k: u32) -> u32
    requires { process < length (known chains.now.accepted) }
    ensures { (p : AnyName) → name_of chains.now.accepted process ≡ Some p → result ≡ limit chains.now.accepted p (Position.At k) }
{
    if k == 0 {
        return 0;
    }
    number_made(chains.name_of(process), chains.maker(process, k - 1))
}

/// The number of the report that made an element of this process. One by which it is born has none, and counts as 0.
fn number_made(name: &Name, maker: Option<&PackedReport>) -> u32
    ensures { result ≡ option_map_or (number_for name.now) (option_copied maker.entry) 0 }
{
    match maker {
        None => 0,
        Some(report) => number_for(name, report),
    }
}

/// The number of a report of this process. One of another, by which it is born, counts as 0.
fn number_for(name: &Name, report: &PackedReport) -> u32
    ensures { result ≡ number_for name.now report.now }
{
    match report.view() {
        ReportView::Begin { .. } => 0,
        ReportView::Numbered(fields) => {
            if name.as_bytes() == fields.process.as_bytes() {
                fields.number
            } else {
                0
            }
        }
    }
}

// ---- the reports

/// Folds the reports within these limits of their processes, one behind the other.
fn fold_settled(chains: &Chains, limits: &[u32], kept: &mut Chains) -> Result<(), KeepFault>
    requires limits { length limits.now ≡ length (known chains.now.accepted) }
    requires begun { held_of kept.old ≡ counted_from (counting []) chains.now.epoch chains.now.epoch }
    ensures ok { OnOk result (IsKeptTo (held_of chains.now) (limits_in (known chains.now.accepted) limits.now) (length chains.now.accepted) (held_of kept.new)) }
    ensures unfit { result ≡ Err KeepFault.Unfit → ¬ IsFolded (settled_by (limits_in (known chains.now.accepted) limits.now) chains.now.accepted) }
{
    for i in 0..chains.report_count() {
        fold_if_settled(chains, limits, i, kept)?;
    }
    Ok(())
}

/// Folds report i of the accepted ones, if it is within the limit of its process.
fn fold_if_settled(
    chains: &Chains,
    limits: &[u32],
    i: u32,
    kept: &mut Chains,
) -> Result<(), KeepFault>
    requires limits { length limits.now ≡ length (known chains.now.accepted) }
    requires within { i < length chains.now.accepted }
    requires kept { IsKeptTo (held_of chains.now) (limits_in (known chains.now.accepted) limits.now) i (held_of kept.old) }
    ensures ok { OnOk result (IsKeptTo (held_of chains.now) (limits_in (known chains.now.accepted) limits.now) (i + 1) (held_of kept.new)) }
    ensures unfit { result ≡ Err KeepFault.Unfit → ¬ IsFolded (settled_by (limits_in (known chains.now.accepted) limits.now) chains.now.accepted) }
{
    chains.recall_lawful();
    if !is_settled(chains, limits, i) {
        return Ok(());
    }
    match chains.marked(i) {
        Ok(marked) => kept.fold(marked),
        Err(_) => Err(KeepFault::Memory),
    }
}

/// Folds the reports within these limits of their processes, which fold, one behind the other.
fn fold_fit_settled(chains: &Chains, limits: &[u32], kept: &mut Chains) -> Result<(), AllocError>
    requires limits { length limits.now ≡ length (known chains.now.accepted) }
    requires begun { held_of kept.old ≡ counted_from (counting []) chains.now.epoch chains.now.epoch }
    requires folded { IsFolded (settled_by (limits_in (known chains.now.accepted) limits.now) chains.now.accepted) }
    ensures { OnOk result (IsKeptTo (held_of chains.now) (limits_in (known chains.now.accepted) limits.now) (length chains.now.accepted) (held_of kept.new)) }
{
    for i in 0..chains.report_count() {
        fold_fit_if_settled(chains, limits, i, kept)?;
    }
    Ok(())
}

/// Folds report i of the accepted ones, if it is within the limit of its process, where those within their limits fold.
fn fold_fit_if_settled(
    chains: &Chains,
    limits: &[u32],
    i: u32,
    kept: &mut Chains,
) -> Result<(), AllocError>
    requires limits { length limits.now ≡ length (known chains.now.accepted) }
    requires within { i < length chains.now.accepted }
    requires kept { IsKeptTo (held_of chains.now) (limits_in (known chains.now.accepted) limits.now) i (held_of kept.old) }
    requires folded { IsFolded (settled_by (limits_in (known chains.now.accepted) limits.now) chains.now.accepted) }
    ensures { OnOk result (IsKeptTo (held_of chains.now) (limits_in (known chains.now.accepted) limits.now) (i + 1) (held_of kept.new)) }
{
    chains.recall_lawful();
    if !is_settled(chains, limits, i) {
        return Ok(());
    }
    let marked = chains.marked(i)?;
    kept.fold_fit(marked)
}

/// Whether report i of the accepted ones is within the limit of its process.
fn is_settled(chains: &Chains, limits: &[u32], i: u32) -> bool
    requires limits { length limits.now ≡ length (known chains.now.accepted) }
    requires within { i < length chains.now.accepted }
    ensures { (r : Report) → slice_get chains.now.accepted i ≡ Some r → result ≡ is_settled (limits_in (known chains.now.accepted) limits.now) r }
{
    match chains.report(i) {
        None => false,
        Some(report) => is_within(chains, limits, report),
    }
}

/// Whether a report is within the limit of its process.
fn is_within(chains: &Chains, limits: &[u32], report: &PackedReport) -> bool
    requires { length limits.now ≡ length (known chains.now.accepted) }
    ensures { result ≡ is_settled (limits_in (known chains.now.accepted) limits.now) report.now }
{
    match report.view() {
        ReportView::Begin { .. } => true,
        ReportView::Numbered(fields) => fields.number <= limit_of(chains, limits, fields.process),
    }
}

/// The limit of the process of this name: none of its reports where it is not known.
fn limit_of(chains: &Chains, limits: &[u32], name: &Name) -> u32
    requires { length limits.now ≡ length (known chains.now.accepted) }
    ensures { result ≡ limits_in (known chains.now.accepted) limits.now name.now }
{
    chains.recall_lawful();
    match chains.number_of(name) {
        None => 0,
        Some(process) => limits[process as usize],
    }
}

// ---- the elements

/// Whether each process has just its elements up to the line.
fn have_elements(chains: &Chains, line: &[Place], kept: &Chains) -> bool
    requires { IsCut chains.now.accepted [] (positions_of line.now) }
    ensures { IsTrue result ↔ HaveElements chains.now.accepted (positions_of line.now) kept.now.accepted }
{
    chains.recall_lawful();
    for i in 0..line.len() {
        if !has_elements_to(chains, i as u32, line[i].position, kept) {
            return false;
        }
    }
    true
}

/// Whether a process has just its elements up to its position.
fn has_elements_to(chains: &Chains, process: u32, position: Position, kept: &Chains) -> bool
    requires within { process < length (known chains.now.accepted) }
    requires chosen { IsChosen chains.now.accepted [] process position }
    ensures { IsTrue result ↔ HasElementsTo chains.now.accepted process position kept.now.accepted }
{
    kept.recall_lawful();
    let upto = element_rank(chains, process, position);
    match kept.number_of(chains.name_of(process)) {
        None => upto == 0,
        Some(q) => are_first(&kept.elements(q), &chains.elements(process), upto),
    }
}

/// How many elements of a process are at or before its position.
fn element_rank(chains: &Chains, process: u32, position: Position) -> u32
    requires within { process < length (known chains.now.accepted) }
    requires chosen { IsChosen chains.now.accepted [] process position }
    ensures at_most { result ≤ length (elements chains.now.accepted process) }
    ensures rank { take result (elements chains.now.accepted process) ≡ take (rank chains.now.accepted process position) (elements chains.now.accepted process) }
{
    match position {
        Position::At(k) => k,
        Position::Retired => chains.element_count(process),
    }
}

/// Whether these are the first n of all elements of a process.
fn are_first(these: &Elements<'_>, all: &Elements<'_>, n: u32) -> bool
    requires { n ≤ length all.now }
    ensures { IsTrue result ↔ (these.now ≡ take n all.now) }
{
    if these.len() != n {
        return false;
    }
    for k in 0..n {
        if !are_same(these.get(k), all.get(k)) {
            return false;
        }
    }
    true
}

/// Whether both are there, and have one id and one event tree.
fn are_same(a: Option<Element<'_>>, b: Option<Element<'_>>) -> bool
    ensures { (s t : Stamp) → option_map stamp_of a.entry ≡ Some s → option_map stamp_of b.entry ≡ Some t → IsTrue result ↔ (s ≡ t) }
{
    match a {
        None => false,
        Some(a) => match b {
            None => false,
            Some(b) => a.id.equal(b.id) && a.events.equal(b.events),
        },
    }
}
