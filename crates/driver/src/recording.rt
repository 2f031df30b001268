//! Noting a step that was made: its parts go where they stay from where they were made.

ghost use Rattle.std.specs.Prelude.{◌≡◌, ◌∷◌, ◌++◌, ◌≤◌, ◌<◌, ◌+◌, [], List, ℕ, Some, OnOk, OnErr, IfOk, if◌then◌else◌, vec_len, vec_capacity, ◌-◌};
ghost use Rattle.std.specs.Str.{bytes_eq};
ghost use Rattle.indexmap.specs.IndexMap.{get, spare};
ghost use Rattle.driver.specs.working.Tables.{AreSound, history_in, kept_of_actor, noted_other, noted_message};
ghost use Rattle.driver.specs.working.Made.{silently, openly};
ghost use Rattle.driver.specs.working.Making.{IsSame, HasRoom, IsReady, Adds, Makes};
ghost use Rattle.driver.specs.working.Stepping.{IsStepTaken};

use crate::fault::StepFault;
use crate::process_status::ProcessStatus;
use crate::proof_facts::know_report;
use crate::step::Step;
use crate::tables::{Other, Tables};
use indexmap::IndexMap;
use report_line::{Name, NumberedReport, Report, ReportKind, Step as Taken, StepKind};
use stamp::Stamp;
use std::alloc::AllocError;

// Room for one more step.
pub(crate) fn reserve(tables: &mut Tables) -> Result<(), AllocError>
    ensures unchanged { IsSame tables.old tables.new }
    ensures room { OnOk result (HasRoom tables.new) }
{
    tables.steps.reserve(1)?;
    tables.known.reserve(2)?;
    tables.messages.reserve(1)?;
    Ok(())
}

// How the process of this name stands now.
pub(crate) fn note(known: &mut IndexMap<Name, ProcessStatus>, name: Name, now: ProcessStatus)
    requires { 0 < spare known.old }
    ensures { (q : List ℕ) → get bytes_eq known.new q ≡ (if bytes_eq name q then Some now else get bytes_eq known.old q) }
{
    drop(known.insert(name, now).unwrap());
}

fn note_other(known: &mut IndexMap<Name, ProcessStatus>, other: Option<Other>)
    requires { 0 < spare known.old }
    ensures noted { (q : List ℕ) → get bytes_eq known.new q ≡ noted_other other q (get bytes_eq known.old q) }
    ensures room { spare known.old ≤ spare known.new + 1 }
{
    match other {
        None => {}
        Some(Other { name, known: now }) => {
            drop(known.insert(name, now).unwrap());
        }
    }
}

// A message that the step sends has this place.
fn note_message(messages: &mut IndexMap<Name, usize>, step_kind: &StepKind, place: usize)
    requires { 0 < spare messages.old }
    ensures { (m : List ℕ) → get bytes_eq messages.new m ≡ noted_message step_kind.now place m (get bytes_eq messages.old m) }
{
    match step_kind {
        StepKind::Work => {}
        StepKind::Check => {}
        StepKind::Present => {}
        StepKind::Send { message } => {
            let _before = messages.insert(message.copy(), place).unwrap();
        }
        StepKind::Receive { .. } => {}
        StepKind::Fork { .. } => {}
        StepKind::Retire { .. } => {}
        StepKind::Absorb { .. } => {}
    }
}

// What is kept of a process after its step at this place, with so many reports then.
fn after_of(step_kind: &StepKind, step: usize, reports: u32) -> ProcessStatus
    ensures { result ≡ kept_of_actor step_kind.now step reports }
{
    match step_kind {
        StepKind::Work => ProcessStatus::Lives { step, reports },
        StepKind::Check => ProcessStatus::Lives { step, reports },
        StepKind::Present => ProcessStatus::Lives { step, reports },
        StepKind::Send { .. } => ProcessStatus::Lives { step, reports },
        StepKind::Receive { .. } => ProcessStatus::Lives { step, reports },
        StepKind::Fork { .. } => ProcessStatus::Lives { step, reports },
        StepKind::Retire { target } => ProcessStatus::Waits {
            step,
            target: target.copy(),
        },
        StepKind::Absorb { .. } => ProcessStatus::Lives { step, reports },
    }
}

// Adds the step, for which there is room. Its process has so many reports then.
#[inline(always)]
pub(crate) fn add(tables: &mut Tables, step: Taken, reports: u32, other: Option<Other>)
    requires sound { AreSound tables.old }
    requires ready { IsReady tables.old.root (history_in tables.old) (record { step = step; reports = reports; other = other; report = None }) }
    requires room { HasRoom tables.old }
    ensures { Adds tables.old step tables.new }
{
    let place = tables.steps.len();
    note_other(&mut tables.known, other);
    let after = after_of(&step.step_kind, place, reports);
    note(&mut tables.known, step.process.copy(), after);
    note_message(&mut tables.messages, &step.step_kind, place);
    tables.steps.push_reserved(step);
}

// Takes the step that was made, which is not reported.
pub(crate) fn add_unreported(
    tables: &mut Tables,
    asked: &Step,
    step_kind: StepKind,
    stamp: Stamp,
    reports: u32,
) -> Result<Option<Report>, StepFault>
    requires sound { AreSound tables.old }
    requires makes { Makes tables.old.root (history_in tables.old) asked.now.process asked.now.request (silently asked.now.process step_kind stamp reports) }
    ensures { IsStepTaken tables.old asked.now tables.new result }
{
    let Ok(()) = reserve(tables) else {
        drop(step_kind);
        drop(stamp);
        return Err(StepFault::Memory);
    };
    let step = Taken {
        process: asked.process.copy(),
        step_kind,
        stamp,
    };
    add(tables, step, reports, None);
    Ok(None)
}

// Takes the step that was made, and answers its report.
pub(crate) fn add_reported(
    tables: &mut Tables,
    asked: &Step,
    step_kind: StepKind,
    stamp: Stamp,
    other: Option<Other>,
    number: u32,
    reported: Stamp,
    action: ReportKind,
) -> Result<Option<Report>, StepFault>
    requires sound { AreSound tables.old }
    requires makes { Makes tables.old.root (history_in tables.old) asked.now.process asked.now.request (openly asked.now.process step_kind stamp other number reported action) }
    ensures { IsStepTaken tables.old asked.now tables.new result }
{
    let report = Report::Numbered(NumberedReport {
        process: asked.process.copy(),
        number,
        stamp: reported,
        action,
    });
    know_report(&report);
    let Ok(()) = reserve(tables) else {
        drop(step_kind);
        drop(stamp);
        drop(other);
        drop(report);
        return Err(StepFault::Memory);
    };
    let step = Taken {
        process: asked.process.copy(),
        step_kind,
        stamp,
    };
    add(tables, step, number, other);
    Ok(Some(report))
}
