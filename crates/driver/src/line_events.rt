//! Going over the steps of a history for what they say of the processes of a line.

ghost use Rattle.std.specs.Prelude.{◌≡◌, ◌≢◌, List, ℕ, true, Some, None, IfOk, IfErr, reverse, if◌then◌else◌};
ghost use Rattle.std.specs.Option.{option_map};
ghost use Rattle.std.specs.Str.{bytes_eq};
ghost use Rattle.indexmap.specs.IndexMap.{get};
ghost use Rattle.driver.specs.Lines.{IsNamedOnce};
ghost use Rattle.driver.specs.working.Marks.{named, failing, rooted, lasts, own, born, seen, walked, marks_of, all_stand, reached};
ghost use Rattle.driver.specs.working.Tables.{history_in};

use crate::fault::StepFault;
use crate::line::NamedPosition;
use crate::mark::Mark;
use crate::tables::Tables;
use indexmap::IndexMap;
use report_line::{Name, Step as Taken, StepKind};
use std::alloc::Global;

// The process, which is named, has this mark now.
fn put(marks: &mut IndexMap<Name, Mark>, process: &Name, mark: Mark)
    requires { get bytes_eq marks.old process.now ≢ None }
    ensures { (p : List ℕ) → get bytes_eq marks.new p ≡ (if bytes_eq process.now p then Some mark else get bytes_eq marks.old p) }
{
    let _before = marks.insert(process.copy(), mark).unwrap();
}

// The marks by the line alone.
fn marks_by_name(alloc: Global, line: &[NamedPosition]) -> Result<IndexMap<Name, Mark>, StepFault>
    ensures once { IfOk result (λ marks. IsNamedOnce line.now) }
    ensures marks { IfOk result (λ marks. (p : List ℕ) → get bytes_eq marks p ≡ named line.now p) }
    ensures twice { IfErr result (λ f. f ≢ StepFault.Memory → (f ≡ StepFault.NotClosed) × (¬ IsNamedOnce line.now)) }
{
    let mut marks = IndexMap::new(alloc);
    for x in line {
        if marks.contains_key(&x.name) {
            return Err(StepFault::NotClosed);
        }
        marks.insert(x.name.copy(), Mark::fresh(x.position))?;
    }
    Ok(marks)
}

fn mark_failed(marks: &mut IndexMap<Name, Mark>, process: &Name)
    ensures { (p : List ℕ) → get bytes_eq marks.new p ≡ option_map (λ m. if bytes_eq process.now p then record m { failed = true } else m) (get bytes_eq marks.old p) }
{
    match marks.get(process).copied() {
        None => {}
        Some(mark) => put(
            marks,
            process,
            Mark {
                failed: true,
                ..mark
            },
        ),
    }
}

fn mark_all_failed(marks: &mut IndexMap<Name, Mark>, failed: &[Name])
    ensures { (p : List ℕ) → get bytes_eq marks.new p ≡ option_map (failing failed.now p) (get bytes_eq marks.old p) }
{
    for name in failed {
        mark_failed(marks, name);
    }
}

// The process is born by the event of this number.
fn see_birth(marks: &mut IndexMap<Name, Mark>, process: &Name, number: usize)
    ensures { (p : List ℕ) → get bytes_eq marks.new p ≡ option_map (λ m. if bytes_eq process.now p then lasts number m else m) (get bytes_eq marks.old p) }
{
    match marks.get(process).copied() {
        None => {}
        Some(mark) => put(marks, process, mark.lasts(number)),
    }
}

// The process makes a step.
fn see_own(marks: &mut IndexMap<Name, Mark>, process: &Name, step_kind: &StepKind, number: usize)
    ensures { (p : List ℕ) → get bytes_eq marks.new p ≡ option_map (λ m. if bytes_eq process.now p then own step_kind.now number m else m) (get bytes_eq marks.old p) }
{
    match marks.get(process).copied() {
        None => {}
        Some(mark) => put(marks, process, mark.own(step_kind, number)),
    }
}

fn see_child(marks: &mut IndexMap<Name, Mark>, step_kind: &StepKind, number: usize)
    ensures { (p : List ℕ) → get bytes_eq marks.new p ≡ option_map (born step_kind.now number p) (get bytes_eq marks.old p) }
{
    match step_kind {
        StepKind::Fork { child, .. } => see_birth(marks, child, number),
        StepKind::Work => {}
        StepKind::Check => {}
        StepKind::Present => {}
        StepKind::Send { .. } => {}
        StepKind::Receive { .. } => {}
        StepKind::Retire { .. } => {}
        StepKind::Absorb { .. } => {}
    }
}

fn see(marks: &mut IndexMap<Name, Mark>, step: &Taken, number: usize)
    ensures { (p : List ℕ) → get bytes_eq marks.new p ≡ option_map (seen step.now number p) (get bytes_eq marks.old p) }
{
    see_child(marks, &step.step_kind, number);
    see_own(marks, &step.process, &step.step_kind, number);
}

fn see_all(marks: &mut IndexMap<Name, Mark>, steps: &[Taken])
    ensures { (p : List ℕ) → get bytes_eq marks.new p ≡ option_map (walked (reverse steps.now) p) (get bytes_eq marks.old p) }
{
    for i in 0..steps.len() {
        see(marks, &steps[i], i + 1);
    }
}

// The marks of the line.
pub(crate) fn marks_in(
    alloc: Global,
    tables: &Tables,
    failed: &[Name],
    line: &[NamedPosition],
) -> Result<IndexMap<Name, Mark>, StepFault>
    ensures once { IfOk result (λ marks. IsNamedOnce line.now) }
    ensures marks { IfOk result (λ marks. (p : List ℕ) → get bytes_eq marks p ≡ marks_of tables.now.root (history_in tables.now) failed.now line.now p) }
    ensures twice { IfErr result (λ f. f ≢ StepFault.Memory → (f ≡ StepFault.NotClosed) × (¬ IsNamedOnce line.now)) }
{
    let mut marks = match marks_by_name(alloc, line) {
        Ok(marks) => marks,
        Err(fault) => return Err(fault),
    };
    mark_all_failed(&mut marks, failed);
    see_birth(&mut marks, &tables.root, 0);
    see_all(&mut marks, &tables.steps);
    Ok(marks)
}

// Whether each process of the line has its position, and may return to it.
pub(crate) fn stand(marks: &IndexMap<Name, Mark>, line: &[NamedPosition]) -> bool
    ensures { result ≡ all_stand (get bytes_eq marks.now) line.now }
{
    line.iter().all(|x| match marks.get(&x.name) {
        None => false,
        Some(mark) => mark.stands(),
    })
}

// Whether the event of this process and number is in the line.
pub(crate) fn is_reached(marks: &IndexMap<Name, Mark>, process: &Name, number: usize) -> bool
    ensures { result ≡ reached (get bytes_eq marks.now) process.now number }
{
    match marks.get(process) {
        None => false,
        Some(mark) => mark.reaches(number),
    }
}
