//! A step that was made, as it is added to other tables.

ghost use Rattle.std.specs.Prelude.{◌≡◌, ◌+◌, ◌<◌, ◌^◌, true, IfOk, IfErr, OnOk};
ghost use Rattle.report_line.specs.histories.StepReports.{is_reported};
ghost use Rattle.driver.specs.working.Tables.{reports_after, kept_of_other};
ghost use Rattle.driver.specs.working.Keeping.{IsRemade};
ghost use Rattle.driver.specs.working.Made.{again};

use crate::fault::StepFault;
use crate::process_status::ProcessStatus;
use crate::steps::next_number;
use crate::tables::{Other, Remade};
use report_line::{Name, Step as Taken, StepKind};
use stamp::Stamp;
use std::alloc::{AllocError, Global};

fn copy_of(alloc: Global, step_kind: &StepKind) -> Result<StepKind, AllocError>
    ensures { IfOk result (λ d. d ≡ step_kind.now) }
{
    match step_kind {
        StepKind::Work => Ok(StepKind::Work),
        StepKind::Check => Ok(StepKind::Check),
        StepKind::Present => Ok(StepKind::Present),
        StepKind::Send { message } => Ok(StepKind::Send {
            message: message.copy(),
        }),
        StepKind::Receive { message } => Ok(StepKind::Receive {
            message: message.copy(),
        }),
        StepKind::Fork { child, given } => {
            let given = given.copy(alloc)?;
            Ok(StepKind::Fork {
                child: child.copy(),
                given,
            })
        }
        StepKind::Retire { target } => Ok(StepKind::Retire {
            target: target.copy(),
        }),
        StepKind::Absorb { retired } => Ok(StepKind::Absorb {
            retired: retired.copy(),
        }),
    }
}

// How many reports it made, with that of the step.
fn reports_with(step_kind: &StepKind, reports: u32) -> Result<u32, StepFault>
    ensures ok { IfOk result (λ n. n ≡ reports_after step_kind.now reports) }
    ensures at_most { OnOk result (is_reported step_kind.now ≡ true → reports + 1 < 2 ^ 32) }
    ensures err { IfErr result (λ f. f ≡ StepFault.Memory) }
{
    match step_kind {
        StepKind::Work => Ok(reports),
        StepKind::Check => next_number(reports),
        StepKind::Present => next_number(reports),
        StepKind::Send { .. } => Ok(reports),
        StepKind::Receive { .. } => Ok(reports),
        StepKind::Fork { .. } => next_number(reports),
        StepKind::Retire { .. } => next_number(reports),
        StepKind::Absorb { .. } => next_number(reports),
    }
}

fn other_of(alloc: Global, step: &Taken) -> Result<Option<Other>, AllocError>
    ensures { IfOk result (λ o. o ≡ kept_of_other step.now.step_kind step.now.stamp) }
{
    match &step.step_kind {
        StepKind::Work => Ok(None),
        StepKind::Check => Ok(None),
        StepKind::Present => Ok(None),
        StepKind::Send { .. } => Ok(None),
        StepKind::Receive { .. } => Ok(None),
        StepKind::Fork { child, given } => {
            let id = given.copy(alloc)?;
            let events = step.stamp.events.copy(alloc)?;
            Ok(Some(Other {
                name: child.copy(),
                known: ProcessStatus::Born {
                    stamp: Stamp { id, events },
                },
            }))
        }
        StepKind::Retire { .. } => Ok(None),
        StepKind::Absorb { retired } => Ok(Some(Other {
            name: retired.copy(),
            known: ProcessStatus::Gone,
        })),
    }
}

// The step, with what it changes where its process made so many reports before.
pub(crate) fn remade(alloc: Global, step: &Taken, reports: u32) -> Result<Remade, StepFault>
    ensures ok { IfOk result (λ r. IsRemade step.now reports (again r)) }
    ensures at_most { OnOk result (is_reported step.now.step_kind ≡ true → reports + 1 < 2 ^ 32) }
    ensures err { IfErr result (λ f. f ≡ StepFault.Memory) }
{
    let reports = match reports_with(&step.step_kind, reports) {
        Ok(reports) => reports,
        Err(fault) => return Err(fault),
    };
    let stamp = step.stamp.copy(alloc)?;
    let Ok(step_kind) = copy_of(alloc, &step.step_kind) else {
        drop(stamp);
        return Err(StepFault::Memory);
    };
    let Ok(other) = other_of(alloc, step) else {
        drop(stamp);
        drop(step_kind);
        return Err(StepFault::Memory);
    };
    Ok(Remade {
        step: Taken {
            process: step.process.copy(),
            step_kind,
            stamp,
        },
        reports,
        other,
    })
}
