//! One process.

ghost use Rattle.std.specs.Prelude.{◌≡◌, ◌≢◌, ◌≤◌, ◌<◌, ◌+◌, ◌↔◌, false, IsTrue, IfOk, IfErr, IsErr, OnOk, OnErr, MatchOption};
ghost use Rattle.id_tree.specs.IdTree.{One};
ghost use Rattle.event_tree.specs.EventTree.{EventTree, Leaf};
ghost use Rattle.event_tree.specs.Event.{PassesLimit};
ghost use Rattle.report_line.specs.declared.report.ReportKind.TheVariants as actions;
ghost use Rattle.report_line.specs.declared.report.Report.TheVariants.{Begin};
ghost use Rattle.process.specs.Steps.{Works, Sends, HandsOver, Tells, Receives, Retires, Absorbs, Returns, Counts, IsLineOf};
ghost use Rattle.process.specs.Faults.{RefusesEvent, RefusesReport, RefusesAgain, RefusesReceipt, RefusesRetirement, RefusesAbsorption, RefusesKept, RefusesStamp, RefusesSum, RefusesReturn, IsWorn, fault_of};
ghost use Rattle.process.specs.working.Telling.{IsReportedStep, IsReported, IsAbsorbTold, after_told};
ghost use Rattle.stamp.specs.Operations.{IsNormalJoin, IsReceive, IsAbsorb};

use crate::fault::ProcessFault;
use crate::handed::{Message, Retirement, Start};
use crate::reporting::{ReportedStep, line_of_root, next_number, reported};
use event_tree::Events;
use report_line::{Name, ReportKind, Shared};
use stamp::{Stamp, StampFault};
use std::alloc::{AllocError, Global};

/// A process: its name, how far it has returned, how much it reported, and its clock. It is kept with each checkpoint, and goes on from
/// what it was then.
#[derive(Drop)]
pub struct Process {
    /// Its name, which no other process of the computation has or had.
    pub name: Name,
    /// The number of the newest settlement to whose line it has returned, 0 before any.
    pub epoch: u32,
    /// How many reports it made.
    pub reports: u32,
    /// Its id and its events.
    pub stamp: Stamp,
}

impl Process {
    /// Whether the two are one state of one process.
    pub fn equal(&self, other: &Process) -> bool
        ensures { IsTrue result ↔ (self.now ≡ other.now) }
    {
        self.name == other.name
            && self.epoch == other.epoch
            && self.reports == other.reports
            && self.stamp.equal(&other.stamp)
    }

    /// The same process once more, as it is kept with a checkpoint.
    pub fn copy(&self, alloc: Global) -> Result<Process, AllocError>
        ensures { IfOk result (λ p. p ≡ self.now) }
    {
        let stamp = self.stamp.copy(alloc)?;
        Ok(Process {
            name: self.name.copy(),
            epoch: self.epoch,
            reports: self.reports,
            stamp,
        })
    }

    /// The root of a computation, which begins, and the line by which it says so, without an LF, as each line here.
    pub fn root(alloc: Global, name: &Name) -> Result<(Process, Vec<u8>), AllocError>
        ensures process { IfOk result (λ begun. begun.0 ≡ record { name = name.now; epoch = 0; reports = 0; stamp = record { id = One; events = Leaf 0 } }) }
        ensures line { IfOk result (λ begun. IsLineOf 0 (Begin name.now) begun.1.items) }
    {
        let line = line_of_root(alloc, name)?;
        Ok((
            Process {
                name: name.copy(),
                epoch: 0,
                reports: 0,
                stamp: Stamp::first(alloc),
            },
            line,
        ))
    }

    /// The child that a start is for.
    pub fn born(start: Start) -> Process
        ensures { result ≡ record { name = start.child; epoch = start.epoch; reports = 0; stamp = start.stamp } }
    {
        Process {
            name: start.child,
            epoch: start.epoch,
            reports: 0,
            stamp: start.stamp,
        }
    }

    /// Works on. Whether work is counted is the caller's choice: the other steps are what counts.
    pub fn work(&mut self, alloc: Global) -> Result<(), ProcessFault>
        ensures ok { OnOk result (Works self.old self.new) }
        ensures err { IfErr result (λ fault. RefusesEvent fault self.old.stamp) }
        ensures full { PassesLimit self.old.stamp.id self.old.stamp.events → IsErr result }
        ensures unchanged { OnErr result (self.new ≡ self.old) }
    {
        let stamp = after_event(alloc, &self.stamp)?;
        self.stamp = stamp;
        Ok(())
    }

    /// Sends a message: what is to go with it.
    pub fn send(&mut self, alloc: Global) -> Result<Message, ProcessFault>
        ensures ok { IfOk result (λ message. Sends self.old self.new message) }
        ensures err { IfErr result (λ fault. RefusesEvent fault self.old.stamp) }
        ensures full { PassesLimit self.old.stamp.id self.old.stamp.events → IsErr result }
        ensures unchanged { OnErr result (self.new ≡ self.old) }
    {
        let (stamp, events) = sent(alloc, &self.stamp)?;
        self.stamp = stamp;
        Ok(Message {
            epoch: self.epoch,
            events,
        })
    }

    /// Hands a message over once more that it sent before, or that a process sent which it absorbed: the same message, marked with the epoch
    /// that this process has by now. That is no step. `Newer` where the message is of a newer epoch, and `NotKnown` where it tells what this
    /// process does not know: it sent none such, or has returned to before that.
    pub fn again(&self, alloc: Global, message: &Message) -> Result<Message, ProcessFault>
        ensures ok { IfOk result (λ again. HandsOver self.now message.now again) }
        ensures err { IfErr result (λ fault. RefusesAgain fault self.now message.now) }
    {
        if self.epoch < message.epoch {
            return Err(ProcessFault::Newer);
        }
        if !message.events.leq(&self.stamp.events) {
            return Err(ProcessFault::NotKnown);
        }
        let events = message.events.copy(alloc)?;
        Ok(Message {
            epoch: self.epoch,
            events,
        })
    }

    /// Receives a message of its own epoch. One of an older epoch is refused, and dropped: where its sending is not undone it is handed over
    /// once more (`again`). One of a newer epoch waits until this process has returned, too.
    pub fn receive(&mut self, alloc: Global, message: &Message) -> Result<(), ProcessFault>
        ensures ok { OnOk result (Receives self.old message.now self.new) }
        ensures err { IfErr result (λ fault. RefusesReceipt fault self.old.epoch self.old.stamp message.now) }
        ensures full { (joined : EventTree) → IsNormalJoin self.old.stamp.events message.now.events joined → PassesLimit self.old.stamp.id joined → IsErr result }
        ensures unchanged { OnErr result (self.new ≡ self.old) }
    {
        let stamp = received(alloc, self.epoch, &self.stamp, message)?;
        self.stamp = stamp;
        Ok(())
    }

    /// Takes a checkpoint, and gives the line of its report. The process as it is then is kept with the checkpoint.
    pub fn check(&mut self, alloc: Global) -> Result<Vec<u8>, ProcessFault>
        ensures ok { IfOk result (λ line. Tells self.old self.new actions.Check line.items) }
        ensures err { IfErr result (λ fault. RefusesReport fault self.old) }
        ensures worn { IsWorn self.old → IsErr result }
        ensures full { PassesLimit self.old.stamp.id self.old.stamp.events → IsErr result }
        ensures unchanged { OnErr result (self.new ≡ self.old) }
    {
        let told = told(alloc, self, ReportKind::Check)?;
        Ok(self.go_on(told))
    }

    /// Tells its present state, and gives the line of its report. The next step is to be one that it reports.
    pub fn present(&mut self, alloc: Global) -> Result<Vec<u8>, ProcessFault>
        ensures ok { IfOk result (λ line. Tells self.old self.new actions.Present line.items) }
        ensures err { IfErr result (λ fault. RefusesReport fault self.old) }
        ensures worn { IsWorn self.old → IsErr result }
        ensures full { PassesLimit self.old.stamp.id self.old.stamp.events → IsErr result }
        ensures unchanged { OnErr result (self.new ≡ self.old) }
    {
        let told = told(alloc, self, ReportKind::Present)?;
        Ok(self.go_on(told))
    }

    /// Ends, and gives the line of its report, and what the target is to absorb. Where that is refused the process is given back.
    pub fn retire(
        self,
        alloc: Global,
        target: &Name,
    ) -> Result<(Vec<u8>, Retirement), (ProcessFault, Process)>
        ensures ok { IfOk result (λ ended. Retires self target.now ended.1 ended.0.items) }
        ensures err { IfErr result (λ refused. RefusesRetirement refused.0 self target.now) }
        ensures itself { target.now ≡ self.name → IsErr result }
        ensures worn { IsWorn self → IsErr result }
        ensures full { PassesLimit self.stamp.id self.stamp.events → IsErr result }
        ensures unchanged { IfErr result (λ refused. refused.1 ≡ self) }
    {
        match retired(alloc, &self, target) {
            Ok(told) => Ok((
                told.line,
                Retirement {
                    process: self.name,
                    epoch: self.epoch,
                    target: target.copy(),
                    stamp: told.stamp,
                },
            )),
            Err(fault) => Err((fault, self)),
        }
    }

    /// Absorbs a process that retired into this one, in the epoch that this one has, and gives the line of the report. One of an older
    /// epoch is refused, and so is one of a newer epoch, which waits until this process has returned.
    pub fn absorb(
        &mut self,
        alloc: Global,
        retirement: &Retirement,
    ) -> Result<Vec<u8>, ProcessFault>
        ensures ok { IfOk result (λ line. Absorbs self.old retirement.now self.new line.items) }
        ensures epoch { OnOk result (retirement.now.epoch ≡ self.old.epoch) }
        ensures err { IfErr result (λ fault. RefusesAbsorption fault self.old retirement.now) }
        ensures worn { IsWorn self.old → IsErr result }
        ensures full { PassesLimit self.old.stamp.id self.old.stamp.events → IsErr result }
        ensures unchanged { OnErr result (self.new ≡ self.old) }
    {
        if !is_for(retirement, &self.name) {
            return Err(ProcessFault::NotWaiting);
        }
        if retirement.epoch < self.epoch {
            return Err(ProcessFault::Older);
        }
        if self.epoch < retirement.epoch {
            return Err(ProcessFault::Newer);
        }
        let told = absorbed(alloc, self, retirement)?;
        Ok(self.go_on(told))
    }

    /// The same for a retirement of this epoch or an older one that each settlement since has kept: in each of their lines the process that
    /// ended is retired.
    pub fn absorb_kept(
        &mut self,
        alloc: Global,
        retirement: &Retirement,
    ) -> Result<Vec<u8>, ProcessFault>
        ensures ok { IfOk result (λ line. Absorbs self.old retirement.now self.new line.items) }
        ensures epoch { OnOk result (retirement.now.epoch ≤ self.old.epoch) }
        ensures err { IfErr result (λ fault. RefusesKept fault self.old retirement.now) }
        ensures worn { IsWorn self.old → IsErr result }
        ensures full { PassesLimit self.old.stamp.id self.old.stamp.events → IsErr result }
        ensures unchanged { OnErr result (self.new ≡ self.old) }
    {
        if !is_for(retirement, &self.name) {
            return Err(ProcessFault::NotWaiting);
        }
        if self.epoch < retirement.epoch {
            return Err(ProcessFault::Newer);
        }
        let told = absorbed(alloc, self, retirement)?;
        Ok(self.go_on(told))
    }

    /// Returns to what was kept of it at its position in the line of a settlement, be it a checkpoint, a birth or a present state: it goes on
    /// from that, in this epoch, which is that of the settlement. `Older` where the process or what was kept has that epoch or a later one,
    /// `OtherProcess` where that is another process's; then the process stays as it was, and what was kept is given back.
    pub fn return_to(&mut self, kept: Process, epoch: u32) -> Result<(), (ProcessFault, Process)>
        ensures ok { OnOk result (Returns kept self.new epoch) }
        ensures same_name { OnOk result (kept.name ≡ self.old.name) }
        ensures later { OnOk result (self.old.epoch < epoch) }
        ensures err { IfErr result (λ refused. RefusesReturn refused.0 self.old kept epoch) }
        ensures unchanged { OnErr result (self.new ≡ self.old) }
        ensures given_back { IfErr result (λ refused. refused.1 ≡ kept) }
    {
        if let Some(fault) = return_fault(self, &kept, epoch) {
            return Err((fault, kept));
        }
        *self = kept;
        self.epoch = epoch;
        Ok(())
    }

    /// The same for a process that is no more but for what was kept of it, which this is: it goes on from that in this epoch. `false` where
    /// what was kept has that epoch or a later one, and then nothing changes. Whether the process had returned to this settlement and gone on
    /// before it was lost, or to a later one, is the caller's to know.
    pub fn returned(&mut self, epoch: u32) -> bool
        ensures returned { IsTrue result → Returns self.old self.new epoch }
        ensures refused { result ≡ false → (epoch ≤ self.old.epoch) × (self.new ≡ self.old) }
    {
        if epoch <= self.epoch {
            return false;
        }
        self.epoch = epoch;
        true
    }

    // Goes on behind a reporting step.
    pub(crate) fn go_on(&mut self, told: ReportedStep) -> Vec<u8>
        ensures process { self.new ≡ after_told self.old told }
        ensures line { result ≡ told.line }
    {
        self.reports = told.number;
        self.stamp = told.stamp;
        told.line
    }
}

// The fault of a stamp as that of a process.
pub(crate) fn fault_of(fault: StampFault) -> ProcessFault
    ensures { result ≡ fault_of fault }
{
    match fault {
        StampFault::NothingOwned => ProcessFault::NothingOwned,
        StampFault::ClockFull => ProcessFault::ClockFull,
        StampFault::TooDeep => ProcessFault::TooDeep,
        StampFault::Overlap => ProcessFault::Overlap,
        StampFault::Memory => ProcessFault::Memory,
    }
}

// The stamp after an event.
pub(crate) fn after_event(alloc: Global, stamp: &Stamp) -> Result<Stamp, ProcessFault>
    ensures ok { IfOk result (λ after. Counts stamp.now after) }
    ensures err { IfErr result (λ fault. RefusesEvent fault stamp.now) }
    ensures full { PassesLimit stamp.now.id stamp.now.events → IsErr result }
{
    match stamp.event(alloc) {
        Ok(after) => Ok(after),
        Err(fault) => Err(fault_of(fault)),
    }
}

// The stamp after an event, and its events once more.
fn sent(alloc: Global, stamp: &Stamp) -> Result<(Stamp, Events), ProcessFault>
    ensures ok { IfOk result (λ sent. Counts stamp.now sent.0 × (sent.1 ≡ sent.0.events)) }
    ensures err { IfErr result (λ fault. RefusesEvent fault stamp.now) }
    ensures full { PassesLimit stamp.now.id stamp.now.events → IsErr result }
{
    let after = after_event(alloc, stamp)?;
    match after.events.copy(alloc) {
        Ok(events) => Ok((after, events)),
        Err(_) => Err(ProcessFault::Memory),
    }
}

// The stamp after a receipt in this epoch.
fn received(
    alloc: Global,
    epoch: u32,
    stamp: &Stamp,
    message: &Message,
) -> Result<Stamp, ProcessFault>
    ensures ok { IfOk result (λ after. (message.now.epoch ≡ epoch) × IsReceive stamp.now message.now.events after) }
    ensures err { IfErr result (λ fault. RefusesReceipt fault epoch stamp.now message.now) }
    ensures full { (joined : EventTree) → IsNormalJoin stamp.now.events message.now.events joined → PassesLimit stamp.now.id joined → IsErr result }
{
    if message.epoch < epoch {
        return Err(ProcessFault::Older);
    }
    if epoch < message.epoch {
        return Err(ProcessFault::Newer);
    }
    match stamp.receive(alloc, &message.events) {
        Ok(after) => Ok(after),
        Err(fault) => Err(fault_of(fault)),
    }
}

// The number of the next report, and the stamp after an event.
fn counted(alloc: Global, process: &Process) -> Result<(u32, Stamp), ProcessFault>
    ensures ok { IfOk result (λ next. (next.0 ≡ process.now.reports + 1) × Counts process.now.stamp next.1) }
    ensures err { IfErr result (λ fault. RefusesReport fault process.now) }
    ensures worn { IsWorn process.now → IsErr result }
    ensures full { PassesLimit process.now.stamp.id process.now.stamp.events → IsErr result }
{
    let Some(number) = next_number(process.reports) else {
        return Err(ProcessFault::Worn);
    };
    match after_event(alloc, &process.stamp) {
        Ok(stamp) => Ok((number, stamp)),
        Err(fault) => Err(fault),
    }
}

// A step of its own, and its report with this action.
fn told(alloc: Global, process: &Process, action: ReportKind) -> Result<ReportedStep, ProcessFault>
    ensures ok { IfOk result (λ told. IsReportedStep process.now action told) }
    ensures err { IfErr result (λ fault. RefusesReport fault process.now) }
    ensures worn { IsWorn process.now → IsErr result }
    ensures full { PassesLimit process.now.stamp.id process.now.stamp.events → IsErr result }
{
    match counted(alloc, process) {
        Ok((number, stamp)) => match reported(alloc, process, number, stamp, action) {
            Ok(told) => Ok(told),
            Err(_) => Err(ProcessFault::Memory),
        },
        Err(fault) => {
            drop(action);
            Err(fault)
        }
    }
}

// A retirement into the target, and its report.
fn retired(alloc: Global, process: &Process, target: &Name) -> Result<ReportedStep, ProcessFault>
    ensures ok { IfOk result (λ told. (target.now ≢ process.now.name) × IsReportedStep process.now (actions.Retire target.now) told) }
    ensures err { IfErr result (λ fault. RefusesRetirement fault process.now target.now) }
    ensures itself { target.now ≡ process.now.name → IsErr result }
    ensures worn { IsWorn process.now → IsErr result }
    ensures full { PassesLimit process.now.stamp.id process.now.stamp.events → IsErr result }
{
    if target.as_bytes() == process.name.as_bytes() {
        return Err(ProcessFault::SelfTarget);
    }
    match Shared::new(alloc, target.copy()) {
        Ok(target) => told(alloc, process, ReportKind::Retire { target }),
        Err(_) => Err(ProcessFault::Memory),
    }
}

// Whether the retirement is for the process of this name: into it, and another one's.
fn is_for(retirement: &Retirement, name: &Name) -> bool
    ensures yes { IsTrue result → (retirement.now.target ≡ name.now) × (retirement.now.process ≢ name.now) }
    ensures no { result ≡ false → ¬ ((retirement.now.target ≡ name.now) × (retirement.now.process ≢ name.now)) }
{
    retirement.target.as_bytes() == name.as_bytes()
        && retirement.process.as_bytes() != name.as_bytes()
}

// Why the process does not return to what was kept, in this epoch.
fn return_fault(process: &Process, kept: &Process, epoch: u32) -> Option<ProcessFault>
    ensures { MatchOption result ((process.now.epoch < epoch) × (kept.now.epoch < epoch) × (kept.now.name ≡ process.now.name)) (λ fault. RefusesReturn fault process.now kept.now epoch) }
{
    if epoch <= process.epoch || epoch <= kept.epoch {
        return Some(ProcessFault::Older);
    }
    if kept.name.as_bytes() != process.name.as_bytes() {
        return Some(ProcessFault::OtherProcess);
    }
    None
}

// The stamp after an absorption.
fn absorbed_stamp(alloc: Global, stamp: &Stamp, retired: &Stamp) -> Result<Stamp, ProcessFault>
    ensures ok { IfOk result (λ after. IsAbsorb stamp.now retired.now after) }
    ensures err { IfErr result (λ fault. RefusesSum fault stamp.now retired.now) }
    ensures full { PassesLimit stamp.now.id stamp.now.events → IsErr result }
{
    match stamp.absorb(alloc, retired) {
        Ok(after) => Ok(after),
        Err(fault) => Err(fault_of(fault)),
    }
}

// An absorption with this stamp after it, and its report.
fn reported_absorption(
    alloc: Global,
    process: &Process,
    number: u32,
    stamp: Stamp,
    retired: &Name,
) -> Result<ReportedStep, ProcessFault>
    requires { number ≡ process.now.reports + 1 }
    ensures ok { IfOk result (λ told. IsReported process.now stamp (actions.Absorb retired.now) told) }
    ensures err { IfErr result (λ fault. fault ≡ ProcessFault.Memory) }
{
    let Ok(retired) = Shared::new(alloc, retired.copy()) else {
        drop(stamp);
        return Err(ProcessFault::Memory);
    };
    match reported(
        alloc,
        process,
        number,
        stamp,
        ReportKind::Absorb { retired },
    ) {
        Ok(told) => Ok(told),
        Err(_) => Err(ProcessFault::Memory),
    }
}

// An event on the own stamp, and then that of a retired process joins it; with the report.
fn absorbed(
    alloc: Global,
    process: &Process,
    retirement: &Retirement,
) -> Result<ReportedStep, ProcessFault>
    ensures ok { IfOk result (λ told. IsAbsorbTold process.now retirement.now told) }
    ensures err { IfErr result (λ fault. RefusesStamp fault process.now retirement.now) }
    ensures worn { IsWorn process.now → IsErr result }
    ensures full { PassesLimit process.now.stamp.id process.now.stamp.events → IsErr result }
{
    let Some(number) = next_number(process.reports) else {
        return Err(ProcessFault::Worn);
    };
    match absorbed_stamp(alloc, &process.stamp, &retirement.stamp) {
        Ok(stamp) => reported_absorption(alloc, process, number, stamp, &retirement.process),
        Err(fault) => Err(fault),
    }
}
