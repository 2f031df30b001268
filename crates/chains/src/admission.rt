//! The tests of a report, in their order.

ghost use Rattle.std.specs.Prelude.{◌≡◌, ◌≢◌, ◌+◌, ◌<◌, ◌↔◌, ⊤, IfOk, IsTrue, MatchOption, Some, None, length, option_copied, slice_get};
ghost use Rattle.std.specs.Fmt.{decimal};
ghost use Rattle.id_tree.specs.Spelling.{spelling};
ghost use Rattle.id_tree.specs.Points.{AreDisjoint};
ghost use Rattle.id_tree.specs.Split.{IsSplit};
ghost use Rattle.id_tree.specs.Sum.{sum_of};
ghost use Rattle.report_line.specs.declared.report.Report.TheVariants as reports;
ghost use Rattle.report_line.specs.View.{action_of, numbered_of};
ghost use Rattle.report_line.specs.declared.report.ReportKind.TheVariants as actions;
ghost use Rattle.chains.specs.Processes.{Name as AnyName, known, newborn, IsKnown, last_report, last_epoch, last_events, registered_id, target_of, Waits};
ghost use Rattle.chains.specs.Elements.{name_of};
ghost use Rattle.chains.specs.Held.{held_of};
ghost use Rattle.chains.specs.Admission.{FitsOrNot, AreGrown, IsActionReply, IsStampReply, IsWaitingReply, IsStandingReply, IsNumberedReply, IsBeginReply, IsReportReply, report_limit, process_limit};
ghost use Rattle.chains.specs.working.Keeping.{Tests};
ghost use Rattle.chains.specs.working.Testing.{IsNumberIn, IsNoAbsorb, RefusesWith, IsFull};

use crate::chains::Chains;
use crate::refusal::{No, Refusal};
use id_tree::{Id, SumFault};
use report_line::{
    Code, Forked, Name, NumberedView, PackedReport, ReportKindView, ReportView, Text,
};
use stamp::Stamp;
use std::alloc::{AllocError, Global};

/// How many lines are accepted at most.
pub const REPORT_LIMIT: u32 = 16_384;

/// How many processes are known at most.
pub const PROCESS_LIMIT: u32 = 1_024;

/// What the tests of a report find where none refuses it.
#[derive(Clone, Copy)]
pub enum AdmissionResult {
    /// It was accepted before.
    Old,
    /// It may be accepted.
    Fits,
}

pub(crate) fn number_text(alloc: Global, n: u32) -> Result<Text, AllocError>
    ensures { IfOk result (λ t. t ≡ decimal n) }
{
    let text = n.to_string(alloc)?;
    let bytes = Vec::from_slice(alloc, text.as_bytes())?;
    Ok(Text::from_vec(bytes))
}

fn id_text(alloc: Global, id: &Id) -> Result<Text, AllocError>
    ensures { IfOk result (λ t. t ≡ spelling id.now) }
{
    let mut bytes = Vec::new(alloc);
    id.write_to(&mut bytes)?;
    Ok(Text::from_vec(bytes))
}

fn name_text(alloc: Global, name: &Name) -> Result<Text, AllocError>
    ensures { IfOk result (λ t. t ≡ name.now) }
{
    let bytes = Vec::from_slice(alloc, name.as_bytes())?;
    Ok(Text::from_vec(bytes))
}

/// A refusal for want of memory.
fn no_memory<'a>() -> Refusal<'a>
    ensures { result ≡ record { code = Code.OutOfMemory; name = None; value = None } }
{
    Refusal {
        code: Code::OutOfMemory,
        name: None,
        value: None,
    }
}

/// A refusal for want of memory, as it is handed out.
pub fn out_of_memory() -> No
    ensures { result ≡ record { code = Code.OutOfMemory; name = None; value = None } }
{
    no_memory().named()
}

/// A refusal without a value.
fn refusal<'a>(code: Code, name: &'a Name) -> Refusal<'a>
    ensures { result ≡ record { code = code; name = Some name.now; value = None } }
{
    Refusal {
        code,
        name: Some(name),
        value: None,
    }
}

/// A refusal with a value, if there is memory for it.
fn refusal_with<'a>(code: Code, name: &'a Name, value: Result<Text, AllocError>) -> Refusal<'a>
    ensures { RefusesWith result code name.now value }
{
    match value {
        Ok(text) => Refusal {
            code,
            name: Some(name),
            value: Some(text),
        },
        Err(_) => no_memory(),
    }
}

/// A refusal since no more fit than this limit.
#[cold]
fn full<'a>(alloc: Global, limit: u32) -> Refusal<'a>
    ensures { IsFull result limit }
{
    match number_text(alloc, limit) {
        Ok(text) => Refusal {
            code: Code::Full,
            name: None,
            value: Some(text),
        },
        Err(_) => no_memory(),
    }
}

impl Chains {
    /// The number of the process that reports, where it is known; a root that begins has none.
    pub(crate) fn number_in(&self, report: &PackedReport) -> Option<u32>
        ensures { IsNumberIn self.now.accepted report.now result }
    {
        match report.view() {
            ReportView::Begin { .. } => None,
            ReportView::Numbered(fields) => self.number_of(fields.process),
        }
    }

    /// All tests of a report but that of memory. The number is that of the process that reports.
    #[inline(always)]
    pub(crate) fn tested(
        &self,
        report: &PackedReport,
        epoch: u32,
        number: Option<u32>,
    ) -> Result<AdmissionResult, No>
        requires { IsNumberIn self.now.accepted report.now number }
        ensures { Tests (IsReportReply (held_of self.now) epoch report.now) self.now.front result }
    {
        match self.test(report, epoch, number) {
            Ok(verdict) => Ok(verdict),
            Err(refusal) => Err(refusal.named()),
        }
    }

    /// The same, where a refusal names its process by reference.
    fn test<'a>(
        &'a self,
        report: &'a PackedReport,
        epoch: u32,
        number: Option<u32>,
    ) -> Result<AdmissionResult, Refusal<'a>>
        requires { IsNumberIn self.now.accepted report.now number }
        ensures { Tests (IsReportReply (held_of self.now) epoch report.now) self.now.front result }
    {
        match report.view() {
            ReportView::Begin { process } => self.test_begin(report, epoch, process),
            ReportView::Numbered(fields) => {
                if self.is_empty() {
                    return Err(Refusal {
                        code: Code::NothingBegun,
                        name: None,
                        value: None,
                    });
                }
                match number {
                    None => Err(refusal(Code::UnknownProcess, fields.process)),
                    Some(place) => self.test_numbered(place, report, epoch, fields),
                }
            }
        }
    }

    /// The tests of a `BEGIN`.
    fn test_begin<'a>(
        &'a self,
        report: &PackedReport,
        epoch: u32,
        name: &'a Name,
    ) -> Result<AdmissionResult, Refusal<'a>>
        requires { report.now ≡ reports.Begin name.now }
        ensures { Tests (IsBeginReply (slice_get (known self.now.accepted) 0) (held_of self.now) epoch name.now) self.now.front result }
    {
        match self.root() {
            None => self.test_first(report, epoch, name),
            Some(root) => {
                if root.as_bytes() == name.as_bytes() {
                    Ok(AdmissionResult::Old)
                } else {
                    Err(refusal(Code::OtherRoot, root))
                }
            }
        }
    }

    /// The tests of a `BEGIN` where nothing has begun.
    fn test_first<'a>(
        &'a self,
        report: &PackedReport,
        epoch: u32,
        name: &'a Name,
    ) -> Result<AdmissionResult, Refusal<'a>>
        requires { report.now ≡ reports.Begin name.now }
        ensures { Tests (IsBeginReply None (held_of self.now) epoch name.now) self.now.front result }
    {
        if self.epoch() != epoch {
            return Err(refusal_with(
                Code::OtherEpoch,
                name,
                number_text(self.alloc(), self.epoch()),
            ));
        }
        self.test_room(report)
    }

    /// The tests of a report of a known process.
    fn test_numbered<'a>(
        &'a self,
        place: u32,
        report: &PackedReport,
        epoch: u32,
        fields: NumberedView<'a>,
    ) -> Result<AdmissionResult, Refusal<'a>>
        requires place { name_of self.now.accepted place ≡ Some fields.process.now }
        requires fields { report.now ≡ reports.Numbered (numbered_of fields) }
        ensures { Tests (IsNumberedReply (held_of self.now) epoch (numbered_of fields.entry)) self.now.front result }
    {
        if self.is_last(place, report, epoch) {
            return Ok(AdmissionResult::Old);
        }
        if epoch != self.epoch() {
            return Err(refusal_with(
                Code::OtherEpoch,
                fields.process,
                number_text(self.alloc(), self.epoch()),
            ));
        }
        self.test_standing(place, report, fields)
    }

    /// The tests of a report of a known process behind that of its epoch.
    #[inline(always)]
    fn test_standing<'a>(
        &'a self,
        place: u32,
        report: &PackedReport,
        fields: NumberedView<'a>,
    ) -> Result<AdmissionResult, Refusal<'a>>
        requires place { name_of self.now.accepted place ≡ Some fields.process.now }
        requires fields { report.now ≡ reports.Numbered (numbered_of fields) }
        ensures { Tests (IsStandingReply (target_of fields.entry.process.now self.now.accepted) (held_of self.now) (numbered_of fields.entry)) self.now.front result }
    {
        match self.target_of(place) {
            Some(target) => Err(refusal_with(
                Code::Ended,
                fields.process,
                name_text(self.alloc(), target),
            )),
            None => self.test_number(place, report, fields),
        }
    }

    /// Whether the report is the last one of its process, which was accepted with this epoch.
    fn is_last(&self, place: u32, report: &PackedReport, epoch: u32) -> bool
        requires { place < length (known self.now.accepted) }
        ensures { (p : AnyName) → name_of self.now.accepted place ≡ Some p → IsTrue result ↔ ((last_report p self.now.accepted ≡ Some report.now) × (last_epoch p self.now.accepted self.now.epochs ≡ Some epoch)) }
    {
        match self.last_report(place) {
            None => false,
            // Of one process most reports are told apart by their numbers.
            Some(last) => {
                last.number() == report.number()
                    && self.last_epoch(place) == Some(epoch)
                    && last.equal(report)
            }
        }
    }

    /// The tests from that of the number on.
    fn test_number<'a>(
        &'a self,
        place: u32,
        report: &PackedReport,
        fields: NumberedView<'a>,
    ) -> Result<AdmissionResult, Refusal<'a>>
        requires place { name_of self.now.accepted place ≡ Some fields.process.now }
        requires fields { report.now ≡ reports.Numbered (numbered_of fields) }
        requires lives { target_of fields.process.now self.now.accepted ≡ None }
        ensures { Tests (IsStandingReply None (held_of self.now) (numbered_of fields.entry)) self.now.front result }
    {
        self.recall_lawful();
        let next = self.reports_of(place) + 1;
        if fields.number != next {
            return Err(refusal_with(
                Code::WrongNumber,
                fields.process,
                number_text(self.alloc(), next),
            ));
        }
        match retired_in(fields.action) {
            None => self.test_own(place, report, fields),
            Some(retired) => match self.waiting(retired, fields.process) {
                None => Err(refusal(Code::NotWaiting, retired)),
                Some(partner) => self.test_absorb(place, partner, report, fields, retired),
            },
        }
    }

    /// The number of this process, if it retired into the other one and was not absorbed.
    pub(crate) fn waiting(&self, retired: &Name, target: &Name) -> Option<u32>
        ensures { MatchOption result (¬ Waits self.now.accepted retired.now target.now) (λ r. Waits self.now.accepted retired.now target.now × (name_of self.now.accepted r ≡ Some retired.now)) }
    {
        self.recall_lawful();
        match self.number_of(retired) {
            None => None,
            Some(partner) => {
                if self.waits_for(partner, target) {
                    Some(partner)
                } else {
                    None
                }
            }
        }
    }

    /// Whether the process retired into that one and was not absorbed.
    fn waits_for(&self, process: u32, target: &Name) -> bool
        requires { process < length (known self.now.accepted) }
        ensures { (p : AnyName) → name_of self.now.accepted process ≡ Some p → IsTrue result ↔ Waits self.now.accepted p target.now }
    {
        match self.target_of(process) {
            None => false,
            Some(into) => into.as_bytes() == target.as_bytes() && !self.is_absorbed(process),
        }
    }

    /// The tests of the stamp and the action of a report that is no absorb.
    fn test_own<'a>(
        &'a self,
        place: u32,
        report: &PackedReport,
        fields: NumberedView<'a>,
    ) -> Result<AdmissionResult, Refusal<'a>>
        requires place { name_of self.now.accepted place ≡ Some fields.process.now }
        requires fields { report.now ≡ reports.Numbered (numbered_of fields) }
        requires own { IsNoAbsorb (action_of fields.action) }
        ensures { Tests (IsStampReply (held_of self.now) (numbered_of fields.entry) (action_of fields.entry.action)) self.now.front result }
    {
        let registered = self.registered_id(place);
        if !fields.stamp.id.equal(registered) {
            return Err(refusal_with(
                Code::WrongId,
                fields.process,
                id_text(self.alloc(), registered),
            ));
        }
        if !self.is_grown(place, registered, fields.stamp) {
            return Err(refusal(Code::NotGrown, fields.process));
        }
        self.test_action(report, fields, registered)
    }

    /// The tests of an action that is no absorb, behind those of its stamp.
    fn test_action<'a>(
        &'a self,
        report: &PackedReport,
        fields: NumberedView<'a>,
        registered: &Id,
    ) -> Result<AdmissionResult, Refusal<'a>>
        requires registered { registered.now ≡ registered_id fields.process.now self.now.accepted }
        requires fields { report.now ≡ reports.Numbered (numbered_of fields) }
        requires own { IsNoAbsorb (action_of fields.action) }
        ensures { Tests (IsActionReply (held_of self.now) (numbered_of fields.entry) (action_of fields.entry.action)) self.now.front result }
    {
        match fields.action {
            ReportKindView::Fork(forked) => self.test_fork(report, fields, registered, forked),
            ReportKindView::Retire { target } => self.test_retire(report, fields, target),
            ReportKindView::Check => self.test_room(report),
            ReportKindView::Present => self.test_room(report),
            ReportKindView::Absorb { .. } => unreachable!(),
        }
    }

    /// The tests of a fork behind those of its stamp.
    fn test_fork<'a>(
        &'a self,
        report: &PackedReport,
        fields: NumberedView<'a>,
        registered: &Id,
        forked: &'a Forked,
    ) -> Result<AdmissionResult, Refusal<'a>>
        requires registered { registered.now ≡ registered_id fields.process.now self.now.accepted }
        requires fields { report.now ≡ reports.Numbered (numbered_of fields) }
        ensures { Tests (IsActionReply (held_of self.now) (numbered_of fields.entry) (actions.Fork forked.now)) self.now.front result }
    {
        match self.number_of(&forked.child) {
            Some(_) => return Err(refusal(Code::NameTaken, &forked.child)),
            None => {}
        }
        if !is_split(registered, &forked.kept, &forked.given) {
            return Err(refusal_with(
                Code::WrongParts,
                fields.process,
                id_text(self.alloc(), registered),
            ));
        }
        self.test_room(report)
    }

    /// The tests of a retirement behind those of its stamp.
    fn test_retire<'a>(
        &'a self,
        report: &PackedReport,
        fields: NumberedView<'a>,
        target: &'a Name,
    ) -> Result<AdmissionResult, Refusal<'a>>
        requires { report.now ≡ reports.Numbered (numbered_of fields) }
        ensures { Tests (IsActionReply (held_of self.now) (numbered_of fields.entry) (actions.Retire target.now)) self.now.front result }
    {
        if target.as_bytes() == fields.process.as_bytes() {
            return Err(refusal(Code::WrongTarget, target));
        }
        match self.number_of(target) {
            None => Err(refusal(Code::WrongTarget, target)),
            Some(_) => self.test_room(report),
        }
    }

    /// The tests of the stamp and the action of an absorb, of a retirement that waits.
    fn test_absorb<'a>(
        &'a self,
        place: u32,
        partner: u32,
        report: &PackedReport,
        fields: NumberedView<'a>,
        retired: &'a Name,
    ) -> Result<AdmissionResult, Refusal<'a>>
        requires place { name_of self.now.accepted place ≡ Some fields.process.now }
        requires partner { name_of self.now.accepted partner ≡ Some retired.now }
        requires waits { Waits self.now.accepted retired.now fields.process.now }
        requires apart { AreDisjoint (registered_id fields.process.now self.now.accepted) (registered_id retired.now self.now.accepted) }
        requires fields { report.now ≡ reports.Numbered (numbered_of fields) }
        ensures { Tests (IsStampReply (held_of self.now) (numbered_of fields.entry) (actions.Absorb retired.now)) self.now.front result }
    {
        let registered = self.registered_id(place);
        let other = self.registered_id(partner);
        if !fields.stamp.id.is_sum_of(registered, other) {
            return Err(refusal_with(
                Code::WrongId,
                fields.process,
                sum_text(self.alloc(), registered, other),
            ));
        }
        if !self.is_grown(place, registered, fields.stamp) {
            return Err(refusal(Code::NotGrown, fields.process));
        }
        if !self.last_events(partner).leq(&fields.stamp.events) {
            return Err(refusal(Code::NotJoined, retired));
        }
        self.test_room(report)
    }

    /// Whether the events are at or above the last ones, and greater at some point of the registered id.
    pub(crate) fn is_grown(&self, place: u32, registered: &Id, stamp: &Stamp) -> bool
        requires place { place < length (known self.now.accepted) }
        requires registered { (p : AnyName) → name_of self.now.accepted place ≡ Some p → registered.now ≡ registered_id p self.now.accepted }
        ensures { (p : AnyName) → name_of self.now.accepted place ≡ Some p → IsTrue result ↔ AreGrown (last_events p self.now.accepted) (registered_id p self.now.accepted) stamp.now.events }
    {
        let last = self.last_events(place);
        last.leq(&stamp.events) && stamp.events.exceeds_on(last, registered)
    }

    /// Whether one more report fits, and one more process where one is born by it.
    #[inline(always)]
    fn test_room<'a>(&'a self, report: &PackedReport) -> Result<AdmissionResult, Refusal<'a>>
        ensures { Tests (FitsOrNot (held_of self.now) report.now) self.now.front result }
    {
        if self.front() >= REPORT_LIMIT {
            return Err(full(self.alloc(), REPORT_LIMIT));
        }
        if is_birth(report) && self.count() >= PROCESS_LIMIT {
            return Err(full(self.alloc(), PROCESS_LIMIT));
        }
        Ok(AdmissionResult::Fits)
    }
}

/// The process whose retirement is absorbed, if the action is an absorb.
fn retired_in(action: ReportKindView<'_>) -> Option<&Name>
    ensures { MatchOption result (IsNoAbsorb (action_of action.entry)) (λ retired. (action_of action.entry) ≡ actions.Absorb retired.now) }
{
    match action {
        ReportKindView::Absorb { retired } => Some(retired),
        ReportKindView::Check => None,
        ReportKindView::Present => None,
        ReportKindView::Fork(_) => None,
        ReportKindView::Retire { .. } => None,
    }
}

/// Whether a process is born by the report.
pub(crate) fn is_birth(report: &PackedReport) -> bool
    ensures { IsTrue result ↔ (newborn report.now ≢ None) }
{
    match report.view() {
        ReportView::Begin { .. } => true,
        ReportView::Numbered(fields) => match fields.action {
            ReportKindView::Fork(_) => true,
            _ => false,
        },
    }
}

/// Whether these are two parts of the id, each of which owns something, and together all of it.
pub(crate) fn is_split(id: &Id, kept: &Id, given: &Id) -> bool
    ensures { IsTrue result ↔ IsSplit id.now kept.now given.now }
{
    kept.owns_any() && given.owns_any() && id.is_sum_of(kept, given)
}

/// The text of the sum of two ids that do not overlap.
fn sum_text(alloc: Global, left: &Id, right: &Id) -> Result<Text, AllocError>
    requires { AreDisjoint left.now right.now }
    ensures { IfOk result (λ t. t ≡ spelling (sum_of left.now right.now)) }
{
    match left.sum(alloc, right) {
        Ok(sum) => {
            left.recall_facts();
            right.recall_facts();
            sum.recall_facts();
            id_text(alloc, &sum)
        }
        Err(SumFault::Memory) => Err(AllocError),
        Err(SumFault::Overlap) => unreachable!(),
    }
}
