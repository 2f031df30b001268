//! Adding the steps of a line to new tables.

ghost use Rattle.std.specs.Prelude.{◌≡◌, ◌≢◌, ◌<◌, ◌+◌, ◌∷◌, true, IfOk, IfErr, OnOk, reverse, take, length};
ghost use Rattle.std.specs.Str.{bytes_eq};
ghost use Rattle.indexmap.specs.IndexMap.{get};
ghost use Rattle.report_line.specs.histories.Lawful.{IsLawful};
ghost use Rattle.law_histories.specs.Kept.{IsClosed};
ghost use Rattle.driver.specs.working.Keeping.{AreKept, bears, is_due, is_waiting};
ghost use Rattle.driver.specs.working.Making.{Adds};
ghost use Rattle.driver.specs.working.Marks.{cut_by};
ghost use Rattle.driver.specs.working.Tables.{AreSound, history_in};

use crate::beginning::begun;
use crate::fault::StepFault;
use crate::line_events::is_reached;
use crate::mark::Mark;
use crate::process_status::ProcessStatus;
use crate::proof_facts::know_step;
use crate::rebuild::remade;
use crate::recording::{add, reserve};
use crate::steps::living;
use crate::tables::{Remade, Tables};
use indexmap::IndexMap;
use report_line::{Name, Step as Taken, StepKind};
use std::alloc::Global;

// Whether a retirement of the process waits.
fn waits(tables: &Tables, process: &Name) -> bool
    ensures { result ≡ is_waiting (get bytes_eq tables.now.known process.now) }
{
    match tables.known.get(process) {
        None => false,
        Some(ProcessStatus::Born { .. }) => false,
        Some(ProcessStatus::Lives { .. }) => false,
        Some(ProcessStatus::Waits { .. }) => true,
        Some(ProcessStatus::Gone) => false,
    }
}

// Whether by these tables what is received was sent, and what is absorbed retired.
fn is_due(tables: &Tables, step_kind: &StepKind) -> bool
    ensures { result ≡ is_due tables.now step_kind.now }
{
    match step_kind {
        StepKind::Work => true,
        StepKind::Check => true,
        StepKind::Present => true,
        StepKind::Send { .. } => true,
        StepKind::Receive { message } => tables.messages.contains_key(message),
        StepKind::Fork { .. } => true,
        StepKind::Retire { .. } => true,
        StepKind::Absorb { retired } => waits(tables, retired),
    }
}

// Whether the kind of step is a fork, by this event, of a child whose birth is in the line.
fn bears(marks: &IndexMap<Name, Mark>, step_kind: &StepKind, number: usize) -> bool
    ensures { result ≡ bears (get bytes_eq marks.now) step_kind.now number }
{
    match step_kind {
        StepKind::Work => false,
        StepKind::Check => false,
        StepKind::Present => false,
        StepKind::Send { .. } => false,
        StepKind::Receive { .. } => false,
        StepKind::Fork { child, .. } => is_reached(marks, child, number),
        StepKind::Retire { .. } => false,
        StepKind::Absorb { .. } => false,
    }
}

// Adds a step that is lawful.
fn keep(alloc: Global, tables: &mut Tables, step: &Taken) -> Result<(), StepFault>
    requires sound { AreSound tables.old }
    requires lawful { IsLawful tables.old.root (step.now ∷ history_in tables.old) }
    ensures ok { OnOk result (Adds tables.old step.now tables.new) }
    ensures err { IfErr result (λ f. f ≡ StepFault.Memory) }
{
    let reports = match living(tables, &step.process) {
        Ok(alive) => {
            know_step(step, alive.stamp);
            alive.reports
        }
        Err(_) => unreachable!(),
    };
    reserve(tables)?;
    let made = match remade(alloc, step, reports) {
        Ok(made) => made,
        Err(fault) => return Err(fault),
    };
    let Remade {
        step: kept,
        reports,
        other,
    } = made;
    add(tables, kept, reports, other);
    Ok(())
}

// Goes over one step more: adds it where it is in the line.
fn go_over(
    alloc: Global,
    tables: &mut Tables,
    marks: &IndexMap<Name, Mark>,
    steps: &[Taken],
    i: usize,
) -> Result<(), StepFault>
    requires within { i < length steps.now }
    requires lawful { IsLawful tables.old.root (reverse (take (i + 1) steps.now)) }
    requires so_far { AreKept tables.old.root tables.old.epoch (cut_by (get bytes_eq marks.now)) (reverse (take i steps.now)) tables.old }
    ensures ok { OnOk result (AreKept tables.old.root tables.old.epoch (cut_by (get bytes_eq marks.now)) (reverse (take (i + 1) steps.now)) tables.new) }
    ensures err { IfErr result (λ f. f ≢ StepFault.Memory → (f ≡ StepFault.NotClosed) × (¬ IsClosed tables.old.root (reverse (take (i + 1) steps.now)) (cut_by (get bytes_eq marks.now)))) }
{
    let step = &steps[i];
    if !is_reached(marks, &step.process, i + 1) {
        if bears(marks, &step.step_kind, i + 1) {
            return Err(StepFault::NotClosed);
        }
        return Ok(());
    }
    if !is_due(tables, &step.step_kind) {
        return Err(StepFault::NotClosed);
    }
    keep(alloc, tables, step)
}

// New tables, of the steps in the line.
pub(crate) fn kept_tables(
    alloc: Global,
    old: &Tables,
    marks: &IndexMap<Name, Mark>,
    epoch: u32,
) -> Result<Tables, StepFault>
    requires { AreSound old.now }
    ensures ok { IfOk result (AreKept old.now.root epoch (cut_by (get bytes_eq marks.now)) (history_in old.now)) }
    ensures err { IfErr result (λ f. f ≢ StepFault.Memory → (f ≡ StepFault.NotClosed) × (¬ IsClosed old.now.root (history_in old.now) (cut_by (get bytes_eq marks.now)))) }
{
    let mut tables = begun(alloc, old.root.copy(), epoch)?;
    for i in 0..old.steps.len() {
        match go_over(alloc, &mut tables, marks, &old.steps, i) {
            Ok(()) => {}
            Err(fault) => return Err(fault),
        }
    }
    Ok(tables)
}
