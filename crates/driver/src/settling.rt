//! Returning all processes to a line.

ghost use Rattle.std.specs.Prelude.{◌≡◌, ◌≢◌, ◌+◌, ◌⊎◌, true, false, IfOk, IfErr, OnOk, OnErr, IsTrue, List, ℕ, All, Contains};
ghost use Rattle.std.specs.Str.{bytes_eq};
ghost use Rattle.indexmap.specs.IndexMap.{get};
ghost use Rattle.report_line.specs.histories.History.{Unborn, status};
ghost use Rattle.driver.specs.declared.line.NamedPosition.{NamedPosition as AnyNamedPosition};
ghost use Rattle.driver.specs.working.Marks.{is_kept_in};
ghost use Rattle.driver.specs.working.Seen.{chronicle_in};
ghost use Rattle.driver.specs.Settling.{HasUnknownName, IsClosedLine, Settles, RefusesLine};
ghost use Rattle.driver.specs.working.Tables.{AreSound, history_in};

use crate::fault::StepFault;
use crate::keeping::kept_tables;
use crate::line::NamedPosition;
use crate::line_events::{marks_in, stand};
use crate::mark::Mark;
use crate::steps::is_born;
use crate::tables::Tables;
use chains::Position;
use indexmap::IndexMap;
use report_line::Name;
use std::alloc::Global;

// Whether each of these processes is born.
fn are_born(tables: &Tables, names: &[Name]) -> bool
    requires { AreSound tables.now }
    ensures all { IsTrue result → All (λ p. status tables.now.root (history_in tables.now) p ≢ Unborn) names.now }
    ensures one { result ≡ false → (p : List ℕ) × Contains names.now p × (status tables.now.root (history_in tables.now) p ≡ Unborn) }
{
    for name in names {
        if !is_born(tables, name) {
            return false;
        }
    }
    true
}

// Whether each process of the line is born.
fn has_born(tables: &Tables, line: &[NamedPosition]) -> bool
    requires { AreSound tables.now }
    ensures all { IsTrue result → All (λ x. status tables.now.root (history_in tables.now) x.name ≢ Unborn) line.now }
    ensures one { result ≡ false → (x : AnyNamedPosition) × Contains line.now x × (status tables.now.root (history_in tables.now) x.name ≡ Unborn) }
{
    for x in line {
        if !is_born(tables, &x.name) {
            return false;
        }
    }
    true
}

// Whether the process is named, at another position than 0.
fn stays(marks: &IndexMap<Name, Mark>, process: &Name) -> bool
    ensures { result ≡ is_kept_in (get bytes_eq marks.now process.now) }
{
    match marks.get(process) {
        None => false,
        Some(mark) => match mark.position {
            Position::At(k) => k != 0,
            Position::Retired => true,
        },
    }
}

// Whether each name is known.
fn are_known(tables: &Tables, failed: &[Name], line: &[NamedPosition]) -> bool
    requires { AreSound tables.now }
    ensures known { IsTrue result → ¬ HasUnknownName (chronicle_in tables.now) failed.now line.now }
    ensures unknown { result ≡ false → HasUnknownName (chronicle_in tables.now) failed.now line.now }
{
    are_born(tables, failed) && has_born(tables, line)
}

// The tables after a settlement.
fn settled(
    alloc: Global,
    tables: &Tables,
    failed: &[Name],
    line: &[NamedPosition],
) -> Result<Tables, StepFault>
    requires { AreSound tables.now }
    ensures sound { IfOk result AreSound }
    ensures known { OnOk result (¬ HasUnknownName (chronicle_in tables.now) failed.now line.now) }
    ensures closed { OnOk result (IsClosedLine (chronicle_in tables.now) failed.now line.now) }
    ensures settled { IfOk result (λ t. Settles (chronicle_in tables.now) line.now (chronicle_in t)) }
    ensures refused { IfErr result (λ fault. RefusesLine (chronicle_in tables.now) failed.now line.now fault) }
{
    if !are_known(tables, failed, line) {
        return Err(StepFault::Unknown);
    }
    let marks = match marks_in(alloc, tables, failed, line) {
        Ok(marks) => marks,
        Err(fault) => return Err(fault),
    };
    if !stays(&marks, &tables.root) {
        return Err(StepFault::NotClosed);
    }
    if !stand(&marks, line) {
        return Err(StepFault::NotClosed);
    }
    if tables.epoch == u32::MAX {
        return Err(StepFault::Memory);
    }
    kept_tables(alloc, tables, &marks, tables.epoch + 1)
}

// Returns to the line, where that is a closed one.
pub(crate) fn settle_on(
    alloc: Global,
    tables: &mut Tables,
    failed: &[Name],
    line: &[NamedPosition],
) -> Result<(), StepFault>
    requires { AreSound tables.old }
    ensures sound { AreSound tables.new }
    ensures known { OnOk result (¬ HasUnknownName (chronicle_in tables.old) failed.now line.now) }
    ensures closed { OnOk result (IsClosedLine (chronicle_in tables.old) failed.now line.now) }
    ensures settled { OnOk result (Settles (chronicle_in tables.old) line.now (chronicle_in tables.new)) }
    ensures refused { IfErr result (λ fault. RefusesLine (chronicle_in tables.old) failed.now line.now fault) }
    ensures unchanged { OnErr result (chronicle_in tables.new ≡ chronicle_in tables.old) }
{
    let kept = match settled(alloc, tables, failed, line) {
        Ok(kept) => kept,
        Err(fault) => return Err(fault),
    };
    *tables = kept;
    Ok(())
}
