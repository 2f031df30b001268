//! Whether reports have lines, by what holds of their parts.

ghost use Rattle.std.specs.Prelude.{◌<◌, ◌^◌};
ghost use Rattle.report_line.specs.Spelling.{IsAction};
ghost use Rattle.driver.specs.working.Making.{HasLineIfCounted, HasParts, HasWholeParts};

use report_line::{Report, ReportKind, Step as Taken, StepKind};
use stamp::Stamp;

// Tells a proof that an action has a spelling.
fn know_action(action: &ReportKind)
    ensures { IsAction action.now }
{
    match action {
        ReportKind::Check => {}
        ReportKind::Present => {}
        ReportKind::Fork(forked) => {
            forked.kept.recall_facts();
            let _name = forked.child.as_bytes();
            forked.given.recall_facts();
        }
        ReportKind::Retire { target } => {
            let _name = target.as_bytes();
        }
        ReportKind::Absorb { retired } => {
            let _name = retired.as_bytes();
        }
    }
}

// Tells a proof that a number is below 2^32.
fn know_number(number: u32)
    ensures { number < 2 ^ 32 }
{
    let _number = number;
}

// Tells a proof that a report has a line, where it is counted from 1.
pub(crate) fn know_report(report: &Report)
    ensures { HasLineIfCounted report.now }
{
    match report {
        Report::Begin { process } => {
            let _name = process.as_bytes();
        }
        Report::Numbered(fields) => {
            let _name = fields.process.as_bytes();
            know_number(fields.number);
            fields.stamp.recall_facts();
            know_action(&fields.action);
        }
    }
}

// Tells a proof what holds of the parts of a kind of step.
fn recall_step_kind(step_kind: &StepKind)
    ensures { HasParts step_kind.now }
{
    match step_kind {
        StepKind::Work => {}
        StepKind::Check => {}
        StepKind::Present => {}
        StepKind::Send { .. } => {}
        StepKind::Receive { .. } => {}
        StepKind::Fork { child, given } => {
            let _name = child.as_bytes();
            given.recall_facts();
        }
        StepKind::Retire { target } => {
            let _name = target.as_bytes();
        }
        StepKind::Absorb { retired } => {
            let _name = retired.as_bytes();
        }
    }
}

// Tells a proof what holds of the parts of a step, and of the stamp before it.
pub(crate) fn know_step(step: &Taken, before: &Stamp)
    ensures { HasWholeParts step.now before.now }
{
    let _name = step.process.as_bytes();
    step.stamp.recall_facts();
    recall_step_kind(&step.step_kind);
    before.recall_facts();
}
