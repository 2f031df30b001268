//! Reports of a process, as lines.

ghost use Rattle.std.specs.Prelude.{◌≡◌, ◌+◌, ◌<◌, ◌^◌, ◌-◌, MatchOption, IfOk};
ghost use Rattle.report_line.specs.declared.report.Report.TheVariants.{Begin};
ghost use Rattle.process.specs.Steps.{IsLineOf, next_report};
ghost use Rattle.process.specs.working.Telling.{IsReported};

use crate::process::Process;
use report_line::{Name, NumberedReport, PackedReport, Report, ReportKind, write_marked};
use stamp::Stamp;
use std::alloc::{AllocError, Global};

/// What a reporting step leaves behind: the number and the line of its report, and the stamp after it.
#[derive(Drop)]
pub(crate) struct ReportedStep {
    pub(crate) number: u32,
    pub(crate) stamp: Stamp,
    pub(crate) line: Vec<u8>,
}

/// The number of the report behind so many.
pub(crate) fn next_number(reports: u32) -> Option<u32>
    ensures { MatchOption result (reports ≡ 2 ^ 32 - 1) (λ n. n ≡ reports + 1) }
{
    reports.checked_add(1)
}

/// The line of the root, which begins.
pub(crate) fn line_of_root(alloc: Global, root: &Name) -> Result<Vec<u8>, AllocError>
    ensures { IfOk result (λ line. IsLineOf 0 (Begin root.now) line.items) }
{
    let report = PackedReport::of(Report::Begin {
        process: root.copy(),
    });
    report.recall_facts();
    write_marked(alloc, 0, &report)
}

/// The line of the next report of a process, with this stamp and this action.
pub(crate) fn line_of(
    alloc: Global,
    process: &Process,
    number: u32,
    stamp: Stamp,
    action: ReportKind,
) -> Result<Vec<u8>, AllocError>
    requires { number ≡ process.now.reports + 1 }
    ensures { IfOk result (λ line. IsLineOf process.now.epoch (next_report process.now stamp action) line.items) }
{
    let report = PackedReport::of(Report::Numbered(NumberedReport {
        process: process.name.copy(),
        number,
        stamp,
        action,
    }));
    report.recall_facts();
    write_marked(alloc, process.epoch, &report)
}

/// The next report of a process, with this stamp after the step and with this action.
pub(crate) fn reported(
    alloc: Global,
    process: &Process,
    number: u32,
    stamp: Stamp,
    action: ReportKind,
) -> Result<ReportedStep, AllocError>
    requires { number ≡ process.now.reports + 1 }
    ensures { IfOk result (λ told. IsReported process.now stamp action told) }
{
    let Ok(copy) = stamp.copy(alloc) else {
        drop(stamp);
        drop(action);
        return Err(AllocError);
    };
    let Ok(line) = line_of(alloc, process, number, copy, action) else {
        drop(stamp);
        return Err(AllocError);
    };
    Ok(ReportedStep {
        number,
        stamp,
        line,
    })
}
