//! Making the step that is asked, and taking it.

ghost use Rattle.std.specs.Prelude.{◌≡◌, ◌≢◌, ◌+◌, ◌<◌, ◌^◌, ◌↔◌, false, IfOk, IfErr, OnOk, Some, None};
ghost use Rattle.id_tree.specs.Points.{OwnsSome, Overlap};
ghost use Rattle.report_line.specs.histories.History.{Unborn, status};
ghost use Rattle.driver.specs.working.Making.{AliveTold, EventTold, report_after, WorkTold, parts_after, ForkTold, ReceiveTold, AbsorbTold, MessageTold, RetirementTold};
ghost use Rattle.driver.specs.working.Stepping.{IsStepTaken};
ghost use Rattle.driver.specs.working.Tables.{AreSound, history_in};

use crate::fault::StepFault;
use crate::process_status::ProcessStatus;
use crate::recording::{add_reported, add_unreported};
use crate::step::{Step, StepRequest};
use crate::tables::{Other, Tables};
use event_tree::Events;
use id_tree::Id;
use report_line::{Name, Report, ReportKind, Shared, StepKind};
use stamp::{Stamp, StampFault};
use std::alloc::{AllocError, Global};

/// A process that lives.
#[derive(Clone, Copy)]
pub(crate) struct Alive<'a> {
    pub(crate) stamp: &'a Stamp,
    pub(crate) reports: u32,
}

/// What the next report of a process takes: its number, and its stamp.
#[derive(Drop)]
pub(crate) struct NextReport {
    pub(crate) number: u32,
    pub(crate) reported: Stamp,
}

/// What a fork takes: number, stamp and action of its report, and the part of the id for the kind of step.
#[derive(Drop)]
pub(crate) struct ForkParts {
    pub(crate) number: u32,
    pub(crate) reported: Stamp,
    pub(crate) action: ReportKind,
    pub(crate) given: Id,
}

// The process, where it lives.
pub(crate) fn living<'a>(tables: &'a Tables, process: &Name) -> Result<Alive<'a>, StepFault>
    requires { AreSound tables.now }
    ensures { AliveTold tables.now.root (history_in tables.now) process.now result }
{
    match tables.known.get(process) {
        None => Err(StepFault::Unknown),
        Some(ProcessStatus::Born { stamp }) => Ok(Alive { stamp, reports: 0 }),
        Some(ProcessStatus::Lives { step, reports }) => Ok(Alive {
            stamp: &tables.steps[*step].stamp,
            reports: *reports,
        }),
        Some(ProcessStatus::Waits { .. }) => Err(StepFault::Retired),
        Some(ProcessStatus::Gone) => Err(StepFault::Retired),
    }
}

// An event of who owns something.
pub(crate) fn event(alloc: Global, stamp: &Stamp) -> Result<Stamp, StepFault>
    requires { OwnsSome stamp.now.id }
    ensures { EventTold stamp.now result }
{
    match stamp.event(alloc) {
        Ok(after) => Ok(after),
        Err(StampFault::NothingOwned) => unreachable!(),
        Err(StampFault::ClockFull) => Err(StepFault::ClockFull),
        Err(StampFault::TooDeep) => unreachable!(),
        Err(StampFault::Overlap) => unreachable!(),
        Err(StampFault::Memory) => Err(StepFault::Memory),
    }
}

// Whether the process is born.
pub(crate) fn is_born(tables: &Tables, process: &Name) -> bool
    requires { AreSound tables.now }
    ensures { (result ≡ false) ↔ (status tables.now.root (history_in tables.now) process.now ≡ Unborn) }
{
    tables.known.contains_key(process)
}

// What the message carries, if it was sent.
fn message<'a>(tables: &'a Tables, name: &Name) -> Option<&'a Events>
    requires { AreSound tables.now }
    ensures { MessageTold (history_in tables.now) name.now result }
{
    match tables.messages.get(name) {
        None => None,
        Some(place) => Some(&tables.steps[*place].stamp.events),
    }
}

// The stamp of a retirement into the process that waits, if one does.
fn retirement<'a>(tables: &'a Tables, process: &Name, retired: &Name) -> Option<&'a Stamp>
    requires { AreSound tables.now }
    ensures { RetirementTold tables.now.root (history_in tables.now) process.now retired.now result }
{
    match tables.known.get(retired) {
        None => None,
        Some(ProcessStatus::Born { .. }) => None,
        Some(ProcessStatus::Lives { .. }) => None,
        Some(ProcessStatus::Waits { step, target }) => {
            if target.as_bytes() == process.as_bytes() {
                Some(&tables.steps[*step].stamp)
            } else {
                None
            }
        }
        Some(ProcessStatus::Gone) => None,
    }
}

// An event of who owns something, and then the halves of the id.
fn halves(alloc: Global, stamp: &Stamp) -> Result<(Stamp, Stamp), StepFault>
    requires { OwnsSome stamp.now.id }
    ensures { ForkTold stamp.now result }
{
    match stamp.fork(alloc) {
        Ok(halves) => Ok(halves),
        Err(StampFault::NothingOwned) => unreachable!(),
        Err(StampFault::ClockFull) => Err(StepFault::ClockFull),
        Err(StampFault::TooDeep) => Err(StepFault::TooDeep),
        Err(StampFault::Overlap) => unreachable!(),
        Err(StampFault::Memory) => Err(StepFault::Memory),
    }
}

// The join with what came, and then an event of who owns something.
fn received(alloc: Global, stamp: &Stamp, came: &Events) -> Result<Stamp, StepFault>
    requires { OwnsSome stamp.now.id }
    ensures { ReceiveTold stamp.now came.now result }
{
    match stamp.receive(alloc, came) {
        Ok(after) => Ok(after),
        Err(StampFault::NothingOwned) => unreachable!(),
        Err(StampFault::ClockFull) => Err(StepFault::ClockFull),
        Err(StampFault::TooDeep) => unreachable!(),
        Err(StampFault::Overlap) => unreachable!(),
        Err(StampFault::Memory) => Err(StepFault::Memory),
    }
}

// An event of who owns something, and then the join with the stamp of a retirement.
fn absorbed(alloc: Global, stamp: &Stamp, retired: &Stamp) -> Result<Stamp, StepFault>
    requires owns { OwnsSome stamp.now.id }
    requires apart { ¬ Overlap stamp.now.id retired.now.id }
    ensures { AbsorbTold stamp.now retired.now result }
{
    match stamp.absorb(alloc, retired) {
        Ok(after) => Ok(after),
        Err(StampFault::NothingOwned) => unreachable!(),
        Err(StampFault::ClockFull) => Err(StepFault::ClockFull),
        Err(StampFault::TooDeep) => unreachable!(),
        Err(StampFault::Overlap) => unreachable!(),
        Err(StampFault::Memory) => Err(StepFault::Memory),
    }
}

// The number of the next report.
pub(crate) fn next_number(reports: u32) -> Result<u32, StepFault>
    ensures ok { IfOk result (λ n. n ≡ reports + 1) }
    ensures at_most { OnOk result (reports + 1 < 2 ^ 32) }
    ensures err { IfErr result (λ f. f ≡ StepFault.Memory) }
{
    if reports == u32::MAX {
        return Err(StepFault::Memory);
    }
    Ok(reports + 1)
}

// What a report at this stamp takes, the next one after so many.
fn next_report(alloc: Global, reports: u32, stamp: &Stamp) -> Result<NextReport, StepFault>
    ensures ok { IfOk result (λ r. r ≡ report_after reports stamp.now) }
    ensures err { IfErr result (λ f. f ≡ StepFault.Memory) }
{
    let number = next_number(reports)?;
    let reported = stamp.copy(alloc)?;
    Ok(NextReport { number, reported })
}

// The same, and the name that is reported, in a block of its own.
fn next_report_naming(
    alloc: Global,
    reports: u32,
    stamp: &Stamp,
    name: &Name,
) -> Result<(NextReport, Shared<Name>), StepFault>
    ensures report { IfOk result (λ r. r.0 ≡ report_after reports stamp.now) }
    ensures name { IfOk result (λ r. r.1 ≡ name.now) }
    ensures err { IfErr result (λ f. f ≡ StepFault.Memory) }
{
    let report = next_report(alloc, reports, stamp)?;
    let Ok(name) = Shared::new(alloc, name.copy()) else {
        drop(report);
        return Err(StepFault::Memory);
    };
    Ok((report, name))
}

// An event of who owns something, and what its report takes.
fn worked(alloc: Global, stamp: &Stamp, reports: u32) -> Result<(Stamp, NextReport), StepFault>
    requires { OwnsSome stamp.now.id }
    ensures { WorkTold stamp.now reports result }
{
    let after = event(alloc, stamp)?;
    let Ok(report) = next_report(alloc, reports, &after) else {
        drop(after);
        return Err(StepFault::Memory);
    };
    Ok((after, report))
}

// A child that begins with this stamp.
fn born(child: &Name, stamp: Stamp) -> Other
    ensures { result ≡ record { name = child.now; known = ProcessStatus.Born stamp } }
{
    Other {
        name: child.copy(),
        known: ProcessStatus::Born { stamp },
    }
}

// The stamp of a fork's report, and what it reports.
fn fork_report(
    alloc: Global,
    id: &Id,
    kept: &Stamp,
    child: &Name,
    given: &Id,
) -> Result<(Stamp, ReportKind), AllocError>
    ensures { IfOk result (λ r. r ≡ (record { id = id.now; events = kept.now.events }, ReportKind.Fork (record { kept = kept.now.id; child = child.now; given = given.now }))) }
{
    let reported = Stamp::of_both(alloc, id, &kept.events)?;
    let Ok(action) = ReportKind::fork_of(alloc, &kept.id, child, given) else {
        drop(reported);
        return Err(AllocError);
    };
    Ok((reported, action))
}

// What a fork takes that parts this id, where its report is the next one after so many.
fn fork_parts(
    alloc: Global,
    reports: u32,
    id: &Id,
    kept: &Stamp,
    child: &Name,
    given: &Id,
) -> Result<ForkParts, StepFault>
    ensures ok { IfOk result (λ p. p ≡ parts_after reports id.now kept.now child.now given.now) }
    ensures err { IfErr result (λ f. f ≡ StepFault.Memory) }
{
    let number = next_number(reports)?;
    let (reported, action) = fork_report(alloc, id, kept, child, given)?;
    let Ok(given) = given.copy(alloc) else {
        drop(reported);
        drop(action);
        return Err(StepFault::Memory);
    };
    Ok(ForkParts {
        number,
        reported,
        action,
        given,
    })
}

// ---- the acts

pub(crate) fn work(
    alloc: Global,
    tables: &mut Tables,
    asked: &Step,
) -> Result<Option<Report>, StepFault>
    requires sound { AreSound tables.old }
    requires request { asked.now.request ≡ StepRequest.Work }
    ensures { IsStepTaken tables.old asked.now tables.new result }
{
    let alive = living(tables, &asked.process)?;
    let reports = alive.reports;
    let stamp = event(alloc, alive.stamp)?;
    add_unreported(tables, asked, StepKind::Work, stamp, reports)
}

pub(crate) fn check(
    alloc: Global,
    tables: &mut Tables,
    asked: &Step,
) -> Result<Option<Report>, StepFault>
    requires sound { AreSound tables.old }
    requires request { asked.now.request ≡ StepRequest.Check }
    ensures { IsStepTaken tables.old asked.now tables.new result }
{
    let alive = living(tables, &asked.process)?;
    let (stamp, report) = worked(alloc, alive.stamp, alive.reports)?;
    add_reported(
        tables,
        asked,
        StepKind::Check,
        stamp,
        None,
        report.number,
        report.reported,
        ReportKind::Check,
    )
}

pub(crate) fn present(
    alloc: Global,
    tables: &mut Tables,
    asked: &Step,
) -> Result<Option<Report>, StepFault>
    requires sound { AreSound tables.old }
    requires request { asked.now.request ≡ StepRequest.Present }
    ensures { IsStepTaken tables.old asked.now tables.new result }
{
    let alive = living(tables, &asked.process)?;
    let (stamp, report) = worked(alloc, alive.stamp, alive.reports)?;
    add_reported(
        tables,
        asked,
        StepKind::Present,
        stamp,
        None,
        report.number,
        report.reported,
        ReportKind::Present,
    )
}

pub(crate) fn send(
    alloc: Global,
    tables: &mut Tables,
    asked: &Step,
    name: &Name,
) -> Result<Option<Report>, StepFault>
    requires sound { AreSound tables.old }
    requires request { asked.now.request ≡ StepRequest.Send name.now }
    ensures { IsStepTaken tables.old asked.now tables.new result }
{
    let alive = living(tables, &asked.process)?;
    let None = message(tables, name) else {
        return Err(StepFault::Taken);
    };
    let reports = alive.reports;
    let stamp = event(alloc, alive.stamp)?;
    let step_kind = StepKind::Send {
        message: name.copy(),
    };
    add_unreported(tables, asked, step_kind, stamp, reports)
}

pub(crate) fn receive(
    alloc: Global,
    tables: &mut Tables,
    asked: &Step,
    name: &Name,
) -> Result<Option<Report>, StepFault>
    requires sound { AreSound tables.old }
    requires request { asked.now.request ≡ StepRequest.Receive name.now }
    ensures { IsStepTaken tables.old asked.now tables.new result }
{
    let alive = living(tables, &asked.process)?;
    let Some(came) = message(tables, name) else {
        return Err(StepFault::NoMessage);
    };
    let reports = alive.reports;
    let stamp = received(alloc, alive.stamp, came)?;
    let step_kind = StepKind::Receive {
        message: name.copy(),
    };
    add_unreported(tables, asked, step_kind, stamp, reports)
}

pub(crate) fn fork(
    alloc: Global,
    tables: &mut Tables,
    asked: &Step,
    child: &Name,
) -> Result<Option<Report>, StepFault>
    requires sound { AreSound tables.old }
    requires request { asked.now.request ≡ StepRequest.Fork child.now }
    ensures { IsStepTaken tables.old asked.now tables.new result }
{
    let alive = living(tables, &asked.process)?;
    if is_born(tables, child) {
        return Err(StepFault::Taken);
    }
    let (stamp, begun) = match halves(alloc, alive.stamp) {
        Ok(halves) => halves,
        Err(fault) => return Err(fault),
    };
    let Ok(parts) = fork_parts(
        alloc,
        alive.reports,
        &alive.stamp.id,
        &stamp,
        child,
        &begun.id,
    ) else {
        drop(stamp);
        drop(begun);
        return Err(StepFault::Memory);
    };
    let step_kind = StepKind::Fork {
        child: child.copy(),
        given: parts.given,
    };
    add_reported(
        tables,
        asked,
        step_kind,
        stamp,
        Some(born(child, begun)),
        parts.number,
        parts.reported,
        parts.action,
    )
}

pub(crate) fn retire(
    alloc: Global,
    tables: &mut Tables,
    asked: &Step,
    target: &Name,
) -> Result<Option<Report>, StepFault>
    requires sound { AreSound tables.old }
    requires request { asked.now.request ≡ StepRequest.Retire target.now }
    ensures { IsStepTaken tables.old asked.now tables.new result }
{
    if !is_born(tables, target) {
        return Err(StepFault::Unknown);
    }
    let alive = living(tables, &asked.process)?;
    if target.as_bytes() == asked.process.as_bytes() {
        return Err(StepFault::SelfTarget);
    }
    let stamp = event(alloc, alive.stamp)?;
    let Ok((report, into)) = next_report_naming(alloc, alive.reports, &stamp, target) else {
        drop(stamp);
        return Err(StepFault::Memory);
    };
    let step_kind = StepKind::Retire {
        target: target.copy(),
    };
    add_reported(
        tables,
        asked,
        step_kind,
        stamp,
        None,
        report.number,
        report.reported,
        ReportKind::Retire { target: into },
    )
}

pub(crate) fn absorb(
    alloc: Global,
    tables: &mut Tables,
    asked: &Step,
    name: &Name,
) -> Result<Option<Report>, StepFault>
    requires sound { AreSound tables.old }
    requires request { asked.now.request ≡ StepRequest.Absorb name.now }
    ensures { IsStepTaken tables.old asked.now tables.new result }
{
    let alive = living(tables, &asked.process)?;
    let Some(retired) = retirement(tables, &asked.process, name) else {
        return Err(StepFault::NotWaiting);
    };
    let stamp = match absorbed(alloc, alive.stamp, retired) {
        Ok(stamp) => stamp,
        Err(fault) => return Err(fault),
    };
    let Ok((report, of)) = next_report_naming(alloc, alive.reports, &stamp, name) else {
        drop(stamp);
        return Err(StepFault::Memory);
    };
    let step_kind = StepKind::Absorb {
        retired: name.copy(),
    };
    let other = Other {
        name: name.copy(),
        known: ProcessStatus::Gone,
    };
    add_reported(
        tables,
        asked,
        step_kind,
        stamp,
        Some(other),
        report.number,
        report.reported,
        ReportKind::Absorb { retired: of },
    )
}
