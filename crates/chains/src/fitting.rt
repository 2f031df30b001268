//! The tests of a report that is folded again.

ghost use Rattle.std.specs.Prelude.{◌≡◌, ◌↔◌, ◌≤◌, ◌<◌, ◌++◌, ◌∷◌, [], length, IsTrue, IfErr, OnOk, OnErr, Err, Some, None};
ghost use Rattle.id_tree.specs.Points.{AreDisjoint};
ghost use Rattle.report_line.specs.declared.report.ReportKind.TheVariants as actions;
ghost use Rattle.chains.specs.Processes.{known, registered_id, target_of, Waits};
ghost use Rattle.chains.specs.Held.{held_of, with_report};
ghost use Rattle.chains.specs.Admission.{report_limit, process_limit};
ghost use Rattle.report_line.specs.View.{action_of, numbered_of};
ghost use Rattle.chains.specs.Elements.{name_of};
ghost use Rattle.chains.specs.Folded.{IsFitReport, IsFit};
ghost use Rattle.chains.specs.working.Fitting.{HasFitStamp, HasOwnStamp};
ghost use Rattle.chains.specs.working.Testing.{IsNumberIn, IsNoAbsorb};

use crate::admission::is_split;
use crate::chains::Chains;
use crate::keeping::KeepFault;
use report_line::{
    Forked, MarkedReport, Name, NumberedView, PackedReport, ReportKindView, ReportView,
};
use std::alloc::AllocError;

impl Chains {
    /// Puts a report behind those that are folded, with its epoch, where it is fit; the front counts it.
    pub(crate) fn fold(&mut self, report: MarkedReport) -> Result<(), KeepFault>
        requires past { report.epoch ≤ self.old.epoch }
        requires at_most { self.old.front < report_limit }
        requires known_at_most { length (known (self.old.accepted ++ report.report ∷ [])) ≤ process_limit }
        ensures ok { OnOk result (IsFit self.old.accepted report.report × (held_of self.new ≡ with_report (held_of self.old) report)) }
        ensures unfit { result ≡ Err KeepFault.Unfit → ¬ IsFit self.old.accepted report.report }
        ensures err { IfErr result (λ _. held_of self.new ≡ held_of self.old) }
    {
        let number = self.number_in(&report.report);
        if !self.fits(&report.report, number) {
            return Err(KeepFault::Unfit);
        }
        match self.put(report, number) {
            Ok(()) => Ok(()),
            Err(_) => Err(KeepFault::Memory),
        }
    }

    /// Puts a report that is fit behind those that are folded, with its epoch; the front counts it.
    pub(crate) fn fold_fit(&mut self, report: MarkedReport) -> Result<(), AllocError>
        requires fit { IsFit self.old.accepted report.report }
        requires past { report.epoch ≤ self.old.epoch }
        requires at_most { self.old.front < report_limit }
        requires known_at_most { length (known (self.old.accepted ++ report.report ∷ [])) ≤ process_limit }
        ensures { OnOk result (held_of self.new ≡ with_report (held_of self.old) report) }
    {
        let number = self.number_in(&report.report);
        self.put(report, number)
    }

    /// The same with the number of the process that reports.
    fn put(&mut self, report: MarkedReport, number: Option<u32>) -> Result<(), AllocError>
        requires number { IsNumberIn self.old.accepted report.report number }
        requires fit { IsFit self.old.accepted report.report }
        requires past { report.epoch ≤ self.old.epoch }
        requires at_most { self.old.front < report_limit }
        requires known_at_most { length (known (self.old.accepted ++ report.report ∷ [])) ≤ process_limit }
        ensures ok { OnOk result (held_of self.new ≡ with_report (held_of self.old) report) }
        ensures err { OnErr result (held_of self.new ≡ held_of self.old) }
    {
        let ready = self.ready(report, number)?;
        self.accept(ready);
        Ok(())
    }

    /// Whether the tests of admission let the report pass, but for its epoch, for the target of a retirement and for room. The
    /// number is that of the process that reports.
    pub(crate) fn fits(&self, report: &PackedReport, number: Option<u32>) -> bool
        requires { IsNumberIn self.now.accepted report.now number }
        ensures { IsTrue result ↔ IsFit self.now.accepted report.now }
    {
        match report.view() {
            ReportView::Begin { .. } => self.is_empty(),
            ReportView::Numbered(fields) => match number {
                None => false,
                Some(place) => self.fits_numbered(place, fields),
            },
        }
    }

    /// The same of a report of a known process.
    fn fits_numbered(&self, place: u32, fields: NumberedView<'_>) -> bool
        requires { name_of self.now.accepted place ≡ Some fields.process.now }
        ensures { IsTrue result ↔ IsFitReport self.now.accepted (numbered_of fields.entry) }
    {
        self.recall_lawful();
        if self.target_of(place).is_some() {
            return false;
        }
        if fields.number != self.reports_of(place) + 1 {
            return false;
        }
        self.fits_action(place, fields)
    }

    /// The tests of the stamp and of the action.
    fn fits_action(&self, place: u32, fields: NumberedView<'_>) -> bool
        requires place { name_of self.now.accepted place ≡ Some fields.process.now }
        requires lives { target_of fields.process.now self.now.accepted ≡ None }
        ensures { IsTrue result ↔ HasFitStamp self.now.accepted (numbered_of fields.entry) (action_of fields.entry.action) }
    {
        match fields.action {
            ReportKindView::Absorb { retired } => self.fits_absorption(place, fields, retired),
            ReportKindView::Fork(forked) => self.fits_fork(place, fields, forked),
            _ => self.fits_own(place, fields),
        }
    }

    /// Those of a fork.
    fn fits_fork(&self, place: u32, fields: NumberedView<'_>, forked: &Forked) -> bool
        requires { name_of self.now.accepted place ≡ Some fields.process.now }
        ensures { IsTrue result ↔ HasFitStamp self.now.accepted (numbered_of fields.entry) (actions.Fork forked.now) }
    {
        if !self.fits_own(place, fields) {
            return false;
        }
        match self.number_of(&forked.child) {
            Some(_) => false,
            None => is_split(self.registered_id(place), &forked.kept, &forked.given),
        }
    }

    /// Those of an absorption.
    fn fits_absorption(&self, place: u32, fields: NumberedView<'_>, retired: &Name) -> bool
        requires place { name_of self.now.accepted place ≡ Some fields.process.now }
        requires lives { target_of fields.process.now self.now.accepted ≡ None }
        ensures { IsTrue result ↔ HasFitStamp self.now.accepted (numbered_of fields.entry) (actions.Absorb retired.now) }
    {
        self.recall_lawful();
        match self.waiting(retired, fields.process) {
            None => false,
            Some(partner) => self.fits_joined(place, partner, fields, retired),
        }
    }

    /// Those of an absorption of a retirement that waits.
    fn fits_joined(
        &self,
        place: u32,
        partner: u32,
        fields: NumberedView<'_>,
        retired: &Name,
    ) -> bool
        requires place { name_of self.now.accepted place ≡ Some fields.process.now }
        requires partner { name_of self.now.accepted partner ≡ Some retired.now }
        requires waits { Waits self.now.accepted retired.now fields.process.now }
        requires apart { AreDisjoint (registered_id fields.process.now self.now.accepted) (registered_id retired.now self.now.accepted) }
        ensures { IsTrue result ↔ HasFitStamp self.now.accepted (numbered_of fields.entry) (actions.Absorb retired.now) }
    {
        let registered = self.registered_id(place);
        let other = self.registered_id(partner);
        if !fields.stamp.id.is_sum_of(registered, other) {
            return false;
        }
        if !self.is_grown(place, registered, fields.stamp) {
            return false;
        }
        self.last_events(partner).leq(&fields.stamp.events)
    }

    /// Whether the stamp is one of the process alone.
    fn fits_own(&self, place: u32, fields: NumberedView<'_>) -> bool
        requires { name_of self.now.accepted place ≡ Some fields.process.now }
        ensures { IsTrue result ↔ HasOwnStamp self.now.accepted (numbered_of fields.entry) }
    {
        let registered = self.registered_id(place);
        fields.stamp.id.equal(registered) && self.is_grown(place, registered, fields.stamp)
    }
}
