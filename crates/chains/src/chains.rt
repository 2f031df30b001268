//! The accepted reports, and what they say of processes.

ghost use Rattle.std.specs.Prelude.{◌≡◌, ◌≢◌, ◌≤◌, ◌<◌, ◌+◌, ◌∷◌, ◌++◌, All, ℕ, [], ⊤, IfOk, MatchResult, MatchOption, IsTrue, ◌↔◌, OnOk, List, Contains, filter, length, slice_get, option_copied, Some, None, true, map, min, vec_len, vec_capacity, ◌-◌, ◌^◌, nat_eq, slice_index_or, slice_set};
ghost use Rattle.std.specs.Option.{option_map};
ghost use Rattle.report_line.specs.View.{action_of};
ghost use Rattle.id_tree.specs.IdTree.{One};
ghost use Rattle.event_tree.specs.EventTree.{Leaf};
ghost use Rattle.chains.specs.Processes.{Name as AnyName, known, newborn, IsKnown, reports_of, last_report, last_epoch, birth_report, id_after, id_at_birth, events_after, registered_id, last_events, target_of, target_after, is_absorbed};
ghost use Rattle.chains.specs.Elements.{name_of, element, elements, elements_of, stable_of, stable_made, makes_stable, present_in, present_report, makers_of};
ghost use Rattle.chains.specs.LastRun.{same_id_from};
ghost use Rattle.chains.specs.working.LastRun.{run_after};
ghost use Rattle.chains.specs.Stamps.{stamp_of};
ghost use Rattle.stamp.specs.declared.stamp.Stamp.{Stamp as AnyStamp};
ghost use Rattle.chains.specs.Positions.{IsLastSurviving};
ghost use Rattle.chains.specs.Knowledge.{events_at, retired_events};
ghost use Rattle.chains.specs.States.{IsStateOf};
ghost use Rattle.chains.specs.Held.{held_of, counting, with_report};
ghost use Rattle.chains.specs.Admission.{IsAdmission, report_limit, process_limit};
ghost use Rattle.chains.specs.Folded.{IsFolded};
ghost use Rattle.chains.specs.working.Fitting.{MayBePut};
ghost use Rattle.chains.specs.Kept.{Kept, HasRoomFor};
ghost use Rattle.chains.specs.working.Inside.{first_stamp};
ghost use Rattle.chains.specs.Answers.{IsReady, MayBeAccepted, Prepares, Commits, IsNumberOf, reply_of};
ghost use Rattle.chains.specs.Turns.{Fate, IsDeviceFree, IsReportTurn};
ghost use Rattle.chains.specs.working.Keeping.{kept_of, view_of, Tests};
ghost use Rattle.chains.specs.Laws.{ArePartsOfAll, NeverFall};
ghost use Rattle.chains.specs.working.Testing.{IsNumberIn};
ghost use Rattle.chains.specs.working.Noting.{noted, born, is_check, names_after, changed_at, IsTakenBy, IsKeptBy, IsFound, IsPlaceWithin, HasPlace};
ghost use Rattle.chains.specs.working.Room.{element_room, HasNoteRoom, MayBeKept};
ghost use Rattle.chains.specs.declared.process.Process.{Process as AnyProcess};
ghost use Rattle.indexmap.specs.IndexSet.{spare, insert_key};
ghost use Rattle.std.specs.Cmp.Lexicographic.{pointwise};

use crate::admission::{AdmissionResult, is_birth, out_of_memory};
use crate::copies::{copy_names, copy_processes, share_all};
use crate::elements::{Element, Elements};
use crate::failed::Failed;
use crate::position::{Place, Position};
use crate::prepared::{Prepared, Ready};
use crate::process::Process;
use crate::refusal::{Admitted, No};
use crate::reports::{at_index, number_at};
use crate::state::State;
use event_tree::Events;
use id_tree::Id;
use indexmap::IndexSet;
use report_line::{MarkedReport, Name, PackedReport, ReportKindView, ReportView, Shared};
use stamp::Stamp;
use std::alloc::{AllocError, Global};
use std::marker::Model;

/// The accepted reports, seen as their list in order of acceptance, an epoch for each, the front, the present epoch, and how many more
/// reports find room without memory.
pub struct Chains {
    alloc: Global,
    /// The stamp of a root at its birth.
    first: Stamp,
    reports: Vec<Shared<PackedReport>>,
    /// The epoch of each of them.
    epochs: Vec<u32>,
    /// How many lines were accepted, settlements and what they undid included.
    pub(crate) front: u32,
    /// How many settlements were accepted.
    pub(crate) epoch: u32,
    /// The known processes, in order of birth.
    names: IndexSet<Name>,
    /// What is kept of each of them.
    processes: Vec<Process>,
    /// The number of the process that reported last: a look-up by name tries it first.
    recent: u32,
}

impl Drop for Chains {
    fn drop(self) {
        let Chains {
            alloc: _,
            first: _,
            reports: _,
            epochs: _,
            front: _,
            epoch: _,
            names: _,
            processes: _,
            recent: _,
        } = self;
    }
}

impl Model for Chains {
    ghost use Rattle.chains.specs.Kept.{Kept};
    ghost use Rattle.chains.specs.working.Codes.{kept_code};

    ghost Value = { Kept };

    ghost coded = { kept_code };

    ghost use Rattle.chains.specs.working.Inside.{kept_in, IsInOrder};

    ghost view = { kept_in };

    ghost invariant = { IsInOrder };
}

impl Chains {
    /// No reports. It takes no memory.
    pub fn new(alloc: Global) -> Chains
        ensures { held_of result ≡ counting [] }
    {
        Chains {
            alloc,
            first: Stamp::first(alloc),
            reports: Vec::new(alloc),
            epochs: Vec::new(alloc),
            front: 0,
            epoch: 0,
            names: IndexSet::new(alloc),
            processes: Vec::new(alloc),
            recent: 0,
        }
    }

    /// The same reports once more, each of which both chains share.
    pub fn copy(&self) -> Result<Chains, AllocError>
        ensures { IfOk result (λ copy. held_of copy ≡ held_of self.now) }
    {
        let reports = share_all(self.alloc, &self.reports)?;
        let epochs = Vec::from_slice(self.alloc, &self.epochs)?;
        let names = copy_names(self.alloc, self.names.as_slice())?;
        let processes = copy_processes(self.alloc, &self.processes)?;
        Ok(Chains {
            alloc: self.alloc,
            first: Stamp::first(self.alloc),
            reports,
            epochs,
            front: self.front,
            epoch: self.epoch,
            names,
            processes,
            recent: self.recent,
        })
    }

    /// The allocator that the chains were made with.
    pub fn alloc(&self) -> Global {
        self.alloc
    }

    /// Tells a proof what holds of all chains.
    pub fn recall_lawful(&self)
        ensures folded { IsFolded self.now.accepted }
        // Each accepted report has its epoch.
        ensures marked { length self.now.epochs ≡ length self.now.accepted }
        // None is above the present one.
        ensures past { All (λ e. e ≤ self.now.epoch) self.now.epochs }
        // The front counts the accepted reports and the settlements, and may count more lines.
        ensures counted { length self.now.accepted + self.now.epoch ≤ self.now.front }
        ensures lines_at_most { self.now.front ≤ report_limit }
        ensures at_most { length self.now.accepted ≤ report_limit }
        ensures known_at_most { length (known self.now.accepted) ≤ process_limit }
        // The ids of live processes and of retirements that wait.
        ensures parts { ArePartsOfAll self.now.accepted }
        // The events of a process, from report to report.
        ensures rising { NeverFall self.now.accepted }
    {
        let _reports = &self.reports;
    }

    /// The front: how many lines were accepted, settlements and what they undid included.
    pub fn front(&self) -> u32
        ensures { result ≡ self.now.front }
    {
        self.front
    }

    /// The present epoch: how many settlements were accepted.
    pub fn epoch(&self) -> u32
        ensures { result ≡ self.now.epoch }
    {
        self.epoch
    }

    /// Whether no report is accepted.
    pub fn is_empty(&self) -> bool
        ensures { IsTrue result ↔ (self.now.accepted ≡ []) }
    {
        self.reports.is_empty()
    }

    /// How many processes are known.
    pub fn count(&self) -> u32
        ensures { result ≡ length (known self.now.accepted) }
    {
        self.names.len() as u32
    }

    /// The name of a process by its number, counted from 0 in order of birth.
    pub fn name_of(&self, process: u32) -> &Name
        requires { process < length (known self.now.accepted) }
        ensures { name_of self.now.accepted process ≡ Some result.now }
    {
        &self.names[process as usize]
    }

    /// The root, once it has begun.
    pub(crate) fn root(&self) -> Option<&Name>
        ensures { option_copied result ≡ slice_get (known self.now.accepted) 0 }
    {
        self.names.first()
    }

    /// The number of the process of this name, counted from 0 in order of birth.
    pub fn number_of(&self, name: &Name) -> Option<u32>
        ensures { MatchOption result (¬ IsKnown self.now.accepted name.now) (λ p. name_of self.now.accepted p ≡ Some name.now) }
    {
        if is_at(&self.names, self.recent, name) {
            return Some(self.recent);
        }
        match self.names.get_index_of(name) {
            None => None,
            Some(place) => Some(place as u32),
        }
    }

    // ---- what is kept of a process, by its number

    /// How many reports with a number are accepted of it.
    pub(crate) fn reports_of(&self, process: u32) -> u32
        requires { process < length (known self.now.accepted) }
        ensures { (p : AnyName) → name_of self.now.accepted process ≡ Some p → result ≡ reports_of p self.now.accepted }
    {
        self.processes[process as usize].reports
    }

    /// The last of its reports with a number.
    pub(crate) fn last_report(&self, process: u32) -> Option<&PackedReport>
        requires { process < length (known self.now.accepted) }
        ensures { (p : AnyName) → name_of self.now.accepted process ≡ Some p → option_copied result ≡ last_report p self.now.accepted }
    {
        match self.processes[process as usize].last {
            None => None,
            Some(index) => Some(&self.reports[index as usize]),
        }
    }

    /// The epoch of the last of its reports with a number.
    pub(crate) fn last_epoch(&self, process: u32) -> Option<u32>
        requires { process < length (known self.now.accepted) }
        ensures { (p : AnyName) → name_of self.now.accepted process ≡ Some p → result ≡ last_epoch p self.now.accepted self.now.epochs }
    {
        match self.processes[process as usize].last {
            None => None,
            Some(index) => number_at(&self.epochs, index),
        }
    }

    /// The report by which it is born.
    pub(crate) fn birth_report(&self, process: u32) -> &PackedReport
        requires { process < length (known self.now.accepted) }
        ensures { (p : AnyName) → name_of self.now.accepted process ≡ Some p → birth_report p self.now.accepted ≡ Some result.now }
    {
        let birth = self.processes[process as usize].birth;
        &self.reports[birth as usize]
    }

    /// Whether the retirement of a process was absorbed. It takes no memory.
    pub fn is_absorbed(&self, process: u32) -> bool
        requires { process < length (known self.now.accepted) }
        ensures { (p : AnyName) → name_of self.now.accepted process ≡ Some p → result ≡ is_absorbed p self.now.accepted }
    {
        self.processes[process as usize].absorbed
    }

    /// Its registered id.
    pub(crate) fn registered_id(&self, process: u32) -> &Id
        requires { process < length (known self.now.accepted) }
        ensures { (p : AnyName) → name_of self.now.accepted process ≡ Some p → result.now ≡ registered_id p self.now.accepted }
    {
        match self.last_report(process) {
            Some(report) => id_kept(report, &self.first.id),
            None => id_at_birth(self.birth_report(process), &self.first.id),
        }
    }

    /// The events after its last report, or at its birth.
    pub(crate) fn last_events(&self, process: u32) -> &Events
        requires { process < length (known self.now.accepted) }
        ensures { (p : AnyName) → name_of self.now.accepted process ≡ Some p → result.now ≡ last_events p self.now.accepted }
    {
        match self.last_report(process) {
            Some(report) => events_after(report, &self.first.events),
            None => events_after(self.birth_report(process), &self.first.events),
        }
    }

    /// The process into which a process retired, if it did. It takes no memory.
    pub fn target_of(&self, process: u32) -> Option<&Name>
        requires { process < length (known self.now.accepted) }
        ensures { (p : AnyName) → name_of self.now.accepted process ≡ Some p → option_copied result ≡ target_of p self.now.accepted }
    {
        match self.last_report(process) {
            None => None,
            Some(last) => target_in(last),
        }
    }

    /// How many elements it has.
    pub(crate) fn element_count(&self, process: u32) -> u32
        requires { process < length (known self.now.accepted) }
        ensures count { (p : AnyName) → name_of self.now.accepted process ≡ Some p → result ≡ length (elements_of p self.now.accepted) }
        ensures at_most { result ≤ report_limit + 1 }
    {
        self.stable_count(process) + present_count(self.last_report(process))
    }

    /// How many elements it has that last: its birth and its checkpoints.
    pub(crate) fn stable_count(&self, process: u32) -> u32
        requires { process < length (known self.now.accepted) }
        ensures count { (p : AnyName) → name_of self.now.accepted process ≡ Some p → result ≡ length (stable_of p self.now.accepted) }
        ensures at_most { result ≤ report_limit }
    {
        self.processes[process as usize].stable.len() as u32
    }

    /// The elements of a process by its number, in order. It takes no memory.
    pub fn elements(&self, process: u32) -> Elements<'_>
        requires { process < length (known self.now.accepted) }
        ensures { result ≡ elements self.now.accepted process }
    {
        Elements::of(self, process)
    }

    /// Element k of a process by its number, counted from 0.
    pub(crate) fn element(&self, process: u32, k: u32) -> Option<Element<'_>>
        requires { process < length (known self.now.accepted) }
        ensures { option_map stamp_of result ≡ slice_get (elements self.now.accepted process) k }
    {
        let stable = self.stable_count(process);
        if k < stable {
            Some(element_made(self.stable_report(process, k), &self.first))
        } else if k == stable {
            element_present(self.last_report(process))
        } else {
            None
        }
    }

    /// The report that made the stable element k of a process, counted from 0.
    fn stable_report(&self, process: u32, k: u32) -> &PackedReport
        requires process { process < length (known self.now.accepted) }
        requires within { (p : AnyName) → name_of self.now.accepted process ≡ Some p → k < length (stable_of p self.now.accepted) }
        ensures makes { (p : AnyName) → name_of self.now.accepted process ≡ Some p → stable_made p result.now ≡ slice_get (stable_of p self.now.accepted) k }
        ensures among { (p : AnyName) → name_of self.now.accepted process ≡ Some p → Some result.now ≡ slice_get (filter (makes_stable p) self.now.accepted) k }
    {
        let index = self.processes[process as usize].stable[k as usize];
        &self.reports[index as usize]
    }

    /// From which of its elements on, counted from 0, all have one id.
    pub(crate) fn same_id_from(&self, process: u32) -> u32
        requires { process < length (known self.now.accepted) }
        ensures run { (p : AnyName) → name_of self.now.accepted process ≡ Some p → result ≡ same_id_from (elements_of p self.now.accepted) }
        ensures at_most { result ≤ report_limit }
    {
        match element_present(self.last_report(process)) {
            None => self.processes[process as usize].same_id_from,
            Some(present) => self.run_with(process, present.id),
        }
    }

    /// The same of its stable elements and one more, with this id.
    fn run_with(&self, process: u32, id: &Id) -> u32
        requires { process < length (known self.now.accepted) }
        ensures { (p : AnyName) (s : AnyStamp) → name_of self.now.accepted process ≡ Some p → s.id ≡ id.now → result ≡ same_id_from (stable_of p self.now.accepted ++ s ∷ []) }
    {
        let stable = self.stable_count(process);
        let last = element_made(self.stable_report(process, stable - 1), &self.first);
        if last.id.equal(id) {
            self.processes[process as usize].same_id_from
        } else {
            stable
        }
    }

    /// The same of its stable elements after this report, which is its own.
    fn run_after(&self, process: u32, report: &PackedReport) -> u32
        requires { IsNumberOf self.now.accepted report.now process }
        ensures { (p : AnyName) → name_of self.now.accepted process ≡ Some p → result ≡ run_after (stable_of p self.now.accepted) report.now }
    {
        match report.view() {
            ReportView::Begin { .. } => 0,
            ReportView::Numbered(fields) => {
                if is_check(fields.action) {
                    self.run_with(process, &fields.stamp.id)
                } else {
                    self.processes[process as usize].same_id_from
                }
            }
        }
    }

    /// The report that made element k of a process, counted from 0. It takes no memory.
    pub fn maker(&self, process: u32, k: u32) -> Option<&PackedReport>
        requires { process < length (known self.now.accepted) }
        ensures { (p : AnyName) → name_of self.now.accepted process ≡ Some p → option_copied result ≡ slice_get (makers_of p self.now.accepted) k }
    {
        let stable = self.stable_count(process);
        if k < stable {
            Some(self.stable_report(process, k))
        } else if k == stable {
            if_present(self.last_report(process))
        } else {
            None
        }
    }

    /// Report i of the accepted ones, counted from 0. It takes no memory.
    pub fn report(&self, i: u32) -> Option<&PackedReport>
        ensures { option_copied result ≡ slice_get self.now.accepted i }
    {
        at_index(&self.reports, i)
    }

    /// The epoch of report i of the accepted ones, counted from 0. It takes no memory.
    pub fn epoch_at(&self, i: u32) -> Option<u32>
        ensures { result ≡ slice_get self.now.epochs i }
    {
        number_at(&self.epochs, i)
    }

    /// How many reports are accepted.
    pub(crate) fn report_count(&self) -> u32
        ensures { result ≡ length self.now.accepted }
    {
        self.reports.len() as u32
    }

    /// Report i of the accepted ones, counted from 0, with its epoch. It shares the report's block, and takes no memory.
    pub(crate) fn marked(&self, i: u32) -> Result<MarkedReport, AllocError>
        requires { i < length self.now.accepted }
        ensures report { IfOk result (λ m. slice_get self.now.accepted i ≡ Some m.report) }
        ensures epoch { IfOk result (λ m. slice_get self.now.epochs i ≡ Some m.epoch) }
    {
        let report = self.reports[i as usize].share()?;
        Ok(MarkedReport {
            epoch: self.epochs[i as usize],
            report,
        })
    }

    /// The events of a place: those of its element, or of the retirement. It takes no memory.
    pub fn events_at(&self, place: Place) -> Option<&Events>
        ensures { option_copied result ≡ events_at self.now.accepted place }
    {
        let process = place.process;
        if process >= self.count() {
            return None;
        }
        match place.position {
            Position::At(k) => self.events_of_element(process, k),
            Position::Retired => self.events_of_retirement(process),
        }
    }

    /// The events of element k of a process, counted from 1.
    fn events_of_element(&self, process: u32, k: u32) -> Option<&Events>
        requires { process < length (known self.now.accepted) }
        ensures { option_copied result ≡ option_map (λ y. y.events) (element self.now.accepted process k) }
    {
        if k == 0 {
            return None;
        }
        match self.element(process, k - 1) {
            None => None,
            Some(element) => Some(element.events),
        }
    }

    /// The events of the retirement of a process, if it retired.
    fn events_of_retirement(&self, process: u32) -> Option<&Events>
        requires { process < length (known self.now.accepted) }
        ensures { option_copied result ≡ retired_events self.now.accepted process }
    {
        match self.target_of(process) {
            None => None,
            Some(_) => Some(self.last_events(process)),
        }
    }

    /// What is kept of the process of this name, if it is known. It takes no memory.
    pub fn state(&self, name: &Name) -> Option<State<'_>>
        ensures { MatchOption result (¬ IsKnown self.now.accepted name.now) (λ state. IsKnown self.now.accepted name.now × IsStateOf self.now.accepted name.now state) }
    {
        let process = self.number_of(name)?;
        let id = match self.target_of(process) {
            Some(_) => None,
            None => Some(self.registered_id(process)),
        };
        Some(State {
            reports: self.reports_of(process),
            elements: self.element_count(process),
            id,
        })
    }

    /// The last surviving position of a process by its number. It takes no memory.
    pub fn last_surviving(&self, process: u32, failed: &Failed) -> Position
        requires { process < length (known self.now.accepted) }
        ensures { IsLastSurviving self.now.accepted failed.now process result }
    {
        self.last_surviving_if(process, failed.contains(process))
    }

    /// The last surviving position of a process by its number, where it is said whether that process failed: for those who
    /// have no `Failed` and do not make one, as it takes memory.
    pub fn last_surviving_if(&self, process: u32, is_failed: bool) -> Position
        requires { process < length (known self.now.accepted) }
        ensures { (failed : List ℕ) → (IsTrue is_failed ↔ Contains failed process) → IsLastSurviving self.now.accepted failed process result }
    {
        if self.target_of(process).is_some() {
            return Position::Retired;
        }
        if is_failed {
            Position::At(self.stable_count(process))
        } else {
            Position::At(self.element_count(process))
        }
    }

    // ---- admission

    /// Makes room for one more report, of the process of this number if it is that of a known one.
    fn grow(&mut self, number: Option<u32>) -> Result<(), AllocError>
        requires { IsPlaceWithin number (length (known self.old.accepted)) }
        ensures unchanged { held_of self.new ≡ held_of self.old }
        ensures room { OnOk result (0 < self.new.room) }
        ensures element_room { OnOk result (HasPlace number self.new.rooms) }
    {
        self.reports.reserve(1)?;
        self.epochs.reserve(1)?;
        self.names.reserve(1)?;
        self.processes.reserve(1)?;
        reserve_element(&mut self.processes, number)
    }

    /// Makes every growth that accepting a report needs.
    pub(crate) fn ready(
        &mut self,
        report: MarkedReport,
        number: Option<u32>,
    ) -> Result<Ready, AllocError>
        requires number { IsNumberIn self.old.accepted report.report number }
        requires known { IsFound report.report number }
        ensures unchanged { held_of self.new ≡ held_of self.old }
        ensures report { IfOk result (λ r. r.report ≡ report) }
        ensures ready { IfOk result (λ r. IsNumberOf self.new.accepted report.report r.process × (0 < self.new.room) × HasRoomFor self.new report.report r.process) }
    {
        self.grow(number)?;
        let stable = if is_birth(&report.report) {
            Vec::with_capacity(self.alloc, 1)?
        } else {
            Vec::new(self.alloc)
        };
        Ok(Ready {
            report,
            process: number.unwrap_or(0),
            stable,
        })
    }

    /// Makes the tests of a report and every growth that accepting it needs. What is held stays as it is, also where what is
    /// answered is dropped.
    pub fn prepare(&mut self, report: &PackedReport, epoch: u32) -> Result<Prepared, No>
        ensures unchanged { held_of self.new ≡ held_of self.old }
        ensures answer { Prepares (held_of self.old) (record { epoch = epoch; report = report.now }) result }
        ensures ready { IfOk result (λ prepared. IsReady prepared self.new) }
    {
        let number = self.number_in(report);
        match self.tested(report, epoch, number)? {
            AdmissionResult::Old => Ok(Prepared::Old(self.front())),
            AdmissionResult::Fits => {
                let Ok(report) = shared_copy(self.alloc, report) else {
                    return Err(out_of_memory());
                };
                match self.ready(MarkedReport { epoch, report }, number) {
                    Ok(ready) => Ok(Prepared::Ready(ready)),
                    Err(_) => Err(out_of_memory()),
                }
            }
        }
    }

    /// The same of a shared report, which is not copied: between this and `commit` a caller may keep it elsewhere, too.
    pub fn prepare_shared(&mut self, report: MarkedReport) -> Result<Prepared, No>
        ensures unchanged { held_of self.new ≡ held_of self.old }
        ensures answer { Prepares (held_of self.old) report result }
        ensures ready { IfOk result (λ prepared. IsReady prepared self.new) }
    {
        let number = self.number_in(&report.report);
        match self.tested(&report.report, report.epoch, number) {
            Err(refused) => Err(refused),
            Ok(AdmissionResult::Old) => Ok(Prepared::Old(self.front())),
            Ok(AdmissionResult::Fits) => match self.ready(report, number) {
                Ok(ready) => Ok(Prepared::Ready(ready)),
                Err(_) => Err(out_of_memory()),
            },
        }
    }

    /// Accepts a report.
    pub(crate) fn accept(&mut self, ready: Ready)
        requires { MayBePut self.old ready }
        ensures { held_of self.new ≡ with_report (held_of self.old) ready.report }
    {
        let index = self.reports.len() as u32;
        let Ready {
            report: MarkedReport { epoch, report },
            process,
            stable,
        } = ready;
        let same_id_from = self.run_after(process, &report);
        keep(
            &mut self.names,
            &mut self.processes,
            &report,
            process as usize,
            index,
            same_id_from,
            stable,
        );
        self.reports.push_reserved(report);
        self.epochs.push_reserved(epoch);
        self.front += 1;
        self.recent = process;
    }

    /// Accepts a report that was prepared on these chains at this front. It takes no memory and cannot fail.
    pub fn commit(&mut self, prepared: Prepared) -> Admitted
        requires { IsReady prepared self.old }
        ensures { Commits prepared (held_of self.old) result (held_of self.new) }
    {
        self.recall_lawful();
        match prepared {
            Prepared::Old(front) => Admitted::Old(front),
            Prepared::Ready(ready) => {
                self.accept(ready);
                Admitted::Accepted(self.front())
            }
        }
    }

    /// Tests a report of this epoch and accepts it where it passes. A refusal changes nothing.
    pub fn admit(&mut self, report: &PackedReport, epoch: u32) -> Result<Admitted, No>
        ensures turn { (fate : Fate) × IsDeviceFree fate × IsReportTurn fate (held_of self.old) (record { epoch = epoch; report = report.now }) (reply_of result) (held_of self.new) }
    {
        let prepared = self.prepare(report, epoch)?;
        Ok(self.commit(prepared))
    }

    /// Tests a report and accepts it where it passes: it is then shared, and not copied. A refusal changes nothing.
    pub fn admit_shared(&mut self, report: MarkedReport) -> Result<Admitted, No>
        ensures turn { (fate : Fate) × IsDeviceFree fate × IsReportTurn fate (held_of self.old) report (reply_of result) (held_of self.new) }
    {
        let prepared = self.prepare_shared(report)?;
        Ok(self.commit(prepared))
    }
}

/// A copy of a report, in a block that chains can share.
fn shared_copy(alloc: Global, report: &PackedReport) -> Result<Shared<PackedReport>, AllocError>
    ensures { IfOk result (λ copy. copy ≡ report.now) }
{
    let copy = report.copy(alloc)?;
    Shared::new(alloc, copy)
}

/// Whether the process at this place has this name.
fn is_at(names: &IndexSet<Name>, place: u32, name: &Name) -> bool
    ensures { IsTrue result → slice_get names.now.keys place ≡ Some name.now }
{
    match names.get_index(place as usize) {
        Some(there) => there.as_bytes() == name.as_bytes(),
        None => false,
    }
}

/// Makes room for one more element of the process at this place.
fn reserve_element(processes: &mut Vec<Process>, number: Option<u32>) -> Result<(), AllocError>
    requires { IsPlaceWithin number (length processes.old.items) }
    ensures views { map view_of processes.new.items ≡ map view_of processes.old.items }
    ensures len { vec_len processes.new ≡ vec_len processes.old }
    ensures capacity { vec_capacity processes.new ≡ vec_capacity processes.old }
    ensures room { OnOk result (HasPlace number (map element_room processes.new.items)) }
{
    match number {
        None => Ok(()),
        Some(place) => {
            let kept = &mut processes[place as usize];
            kept.stable.reserve(1)
        }
    }
}

/// Keeps what an accepted report says of processes. The place is that of the process that reports.
fn keep(
    names: &mut IndexSet<Name>,
    processes: &mut Vec<Process>,
    report: &PackedReport,
    place: usize,
    index: u32,
    same_id_from: u32,
    stable: Vec<u32>,
)
    requires fits { MayBeKept names.old.keys processes.old.items report.now place }
    requires names { 0 < spare names.old }
    requires processes { vec_len processes.old < vec_capacity processes.old }
    requires empty { stable.items ≡ [] }
    requires stable { newborn report.now ≢ None → 0 < vec_capacity stable }
    ensures names { names.new.keys ≡ names_after names.old.keys report.now }
    ensures views { IsKeptBy (map view_of processes.old.items) names.old.keys report.now place index same_id_from (map view_of processes.new.items) }
{
    match report.view() {
        ReportView::Begin { process } => add(names, processes, process.copy(), index, stable),
        ReportView::Numbered(fields) => {
            note(
                processes,
                place,
                index,
                same_id_from,
                is_check(fields.action),
            );
            match fields.action {
                ReportKindView::Fork(forked) => add(
                    names,
                    processes,
                    forked.child.copy(),
                    index,
                    stable,
                ),
                ReportKindView::Absorb { retired } => note_absorbed(names, processes, retired),
                ReportKindView::Check => {}
                ReportKindView::Present => {}
                ReportKindView::Retire { .. } => {}
            }
        }
    }
}

/// Whether the action is a checkpoint.
fn is_check(action: ReportKindView<'_>) -> bool
    ensures { result ≡ is_check (action_of action.entry) }
{
    match action {
        ReportKindView::Check => true,
        ReportKindView::Present => false,
        ReportKindView::Fork(_) => false,
        ReportKindView::Retire { .. } => false,
        ReportKindView::Absorb { .. } => false,
    }
}

/// Notes a report of a process: it is the last one now, and may have made a stable element.
fn note(processes: &mut Vec<Process>, place: usize, index: u32, same_id_from: u32, lasts: bool)
    requires { HasNoteRoom processes.old.items place }
    ensures views { map view_of processes.new.items ≡ changed_at (noted index same_id_from lasts) place (map view_of processes.old.items) }
    ensures capacity { vec_capacity processes.new ≡ vec_capacity processes.old }
    ensures length { vec_len processes.new ≡ vec_len processes.old }
{
    let kept = &mut processes[place];
    kept.reports += 1;
    kept.last = Some(index);
    kept.same_id_from = same_id_from;
    if lasts {
        kept.stable.push_reserved(index);
    }
}

/// Notes that the retirement of a process was absorbed.
fn note_absorbed(names: &IndexSet<Name>, processes: &mut Vec<Process>, retired: &Name)
    requires { length names.now.keys ≡ length processes.old.items }
    ensures { IsTakenBy names.now.keys (map view_of processes.old.items) retired.now (map view_of processes.new.items) }
{
    match names.get_index_of(retired) {
        None => {}
        Some(place) => {
            let kept = &mut processes[place];
            kept.absorbed = true;
        }
    }
}

/// Adds a process that is born by the report of this index.
fn add(
    names: &mut IndexSet<Name>,
    processes: &mut Vec<Process>,
    name: Name,
    birth: u32,
    stable: Vec<u32>,
)
    requires names { 0 < spare names.old }
    requires processes { vec_len processes.old < vec_capacity processes.old }
    requires empty { stable.items ≡ [] }
    requires stable { 0 < vec_capacity stable }
    ensures names { names.new.keys ≡ insert_key (pointwise nat_eq) names.old.keys name }
    ensures views { map view_of processes.new.items ≡ map view_of processes.old.items ++ born birth ∷ [] }
{
    let mut stable = stable;
    stable.push_reserved(birth);
    let _ = names.insert(name);
    processes.push_reserved(Process {
        reports: 0,
        last: None,
        birth,
        stable,
        same_id_from: 0,
        absorbed: false,
    });
}

/// The process into which the one that reports retired, if the report is its retirement.
fn target_in(report: &PackedReport) -> Option<&Name>
    ensures { option_copied result ≡ target_after (Some report.now) }
{
    match report.view() {
        ReportView::Begin { .. } => None,
        ReportView::Numbered(fields) => match fields.action {
            ReportKindView::Retire { target } => Some(target),
            _ => None,
        },
    }
}

/// How many present states the last report of a process stands for.
fn present_count(last: Option<&PackedReport>) -> u32
    ensures { result ≡ length (present_in (option_copied last.entry)) }
{
    match last {
        None => 0,
        Some(last) => match last.view() {
            ReportView::Begin { .. } => 0,
            ReportView::Numbered(fields) => match fields.action {
                ReportKindView::Present => 1,
                _ => 0,
            },
        },
    }
}

/// The stable element that a report makes, where it makes one.
fn element_made<'a>(report: &'a PackedReport, first: &'a Stamp) -> Element<'a>
    requires { first.now ≡ first_stamp }
    ensures { (p : AnyName) → stable_made p report.now ≢ None → stable_made p report.now ≡ Some (stamp_of result) }
{
    match report.view() {
        ReportView::Begin { .. } => Element {
            id: &first.id,
            events: &first.events,
        },
        ReportView::Numbered(fields) => match fields.action {
            ReportKindView::Fork(forked) => Element {
                id: &forked.given,
                events: &fields.stamp.events,
            },
            _ => Element {
                id: &fields.stamp.id,
                events: &fields.stamp.events,
            },
        },
    }
}

/// The present state that the last report of a process stands for, if it does.
fn element_present<'a>(last: Option<&'a PackedReport>) -> Option<Element<'a>>
    ensures { option_map stamp_of result ≡ slice_get (present_in (option_copied last.entry)) 0 }
{
    match last {
        None => None,
        Some(last) => match last.view() {
            ReportView::Begin { .. } => None,
            ReportView::Numbered(fields) => match fields.action {
                ReportKindView::Present => Some(Element {
                    id: &fields.stamp.id,
                    events: &fields.stamp.events,
                }),
                _ => None,
            },
        },
    }
}

/// The last report of a process, if it is a present state.
fn if_present(last: Option<&PackedReport>) -> Option<&PackedReport>
    ensures { option_copied result ≡ slice_get (present_report (option_copied last.entry)) 0 }
{
    match last {
        None => None,
        Some(last) => match last.view() {
            ReportView::Begin { .. } => None,
            ReportView::Numbered(fields) => match fields.action {
                ReportKindView::Present => Some(last),
                _ => None,
            },
        },
    }
}

/// The id of a process after its report.
fn id_kept<'a>(report: &'a PackedReport, first: &'a Id) -> &'a Id
    requires { first.now ≡ One }
    ensures { result.now ≡ id_after (Some report.now) None }
{
    match report.view() {
        ReportView::Begin { .. } => first,
        ReportView::Numbered(fields) => match fields.action {
            ReportKindView::Fork(forked) => &forked.kept,
            _ => &fields.stamp.id,
        },
    }
}

/// The id of a process at its birth.
fn id_at_birth<'a>(report: &'a PackedReport, first: &'a Id) -> &'a Id
    requires first { first.now ≡ One }
    requires birth { newborn report.now ≢ None }
    ensures { result.now ≡ id_at_birth (Some report.now) }
{
    match report.view() {
        ReportView::Begin { .. } => first,
        ReportView::Numbered(fields) => match fields.action {
            ReportKindView::Fork(forked) => &forked.given,
            _ => first,
        },
    }
}

/// The events of a process after its report, or after the one by which it is born.
fn events_after<'a>(report: &'a PackedReport, first: &'a Events) -> &'a Events
    requires { first.now ≡ Leaf 0 }
    ensures { result.now ≡ events_after (Some report.now) }
{
    match report.view() {
        ReportView::Begin { .. } => first,
        ReportView::Numbered(fields) => &fields.stamp.events,
    }
}
