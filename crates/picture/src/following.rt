//! Following a script: its world, what is accepted of it, and what a picture shows of it.

use crate::ending::Ending;
use crate::scripted::Scripted;
use crate::telling::Said;
use chains::{Chains, No};
use driver::{NamedPosition, Step, StepFault, StepRequest, World};
use propagate::settle_named;
use report_line::{Code, Name, Names, PackedReport};
use script::{Cause, cut_line, line_for, read_root, read_settle, read_step};
use std::alloc::{AllocError, Global};

/// A script so far.
pub(crate) struct Followed {
    world: World,
    pub(crate) chains: Chains,
    pub(crate) scripted: Scripted,
}

impl Drop for Followed {
    fn drop(self) {
        let Followed {
            world: _,
            chains: _,
            scripted: _,
        } = self;
    }
}

/// Why a line stops the script.
enum Stop {
    Refused(Cause),
    Full,
    Memory,
}

/// The ending of a script that the line of this number stops.
fn ending_by(stop: Stop, step: u64) -> Ending {
    match stop {
        Stop::Refused(cause) => Ending::Refused { step, cause },
        Stop::Full => Ending::Full { step },
        Stop::Memory => Ending::Memory,
    }
}

/// Why a report or a settlement was refused: memory or room alone, since a world stamps by the rules and returns to its own line.
fn stop_for(refused: No) -> Stop {
    match refused.code {
        Code::OutOfMemory => Stop::Memory,
        _ => Stop::Full,
    }
}

/// Has the report accepted.
fn admit(chains: &mut Chains, report: &PackedReport) -> Result<(), Stop> {
    match chains.admit(report, chains.epoch()) {
        Ok(_) => Ok(()),
        Err(refused) => Err(stop_for(refused)),
    }
}

/// The steps and messages of a script of at most so many lines tell what they are: that would make the picture of a longer one some times as
/// large.
const MOST_TOLD: usize = 1_000;

/// Whether a script has no more lines than that.
fn is_short(script: &[u8]) -> bool {
    let mut rest = script;
    for _ in 0..MOST_TOLD {
        let Some((_, behind)) = cut_line(rest) else {
            return true;
        };
        rest = behind;
    }
    cut_line(rest).is_none()
}

/// The chains of the first report.
fn chains_of(alloc: Global, report: &PackedReport) -> Result<Chains, Stop> {
    let mut chains = Chains::new(alloc);
    match admit(&mut chains, report) {
        Ok(()) => Ok(chains),
        Err(stop) => Err(stop),
    }
}

/// The chains that accept the first report, and what a picture shows of it.
fn parts_of(
    alloc: Global,
    root: &Name,
    report: &PackedReport,
    tells: bool,
) -> Result<(Chains, Scripted), Stop> {
    let chains = match chains_of(alloc, report) {
        Ok(chains) => chains,
        Err(stop) => return Err(stop),
    };
    match Scripted::begun(alloc, root, report, tells) {
        Ok(scripted) => Ok((chains, scripted)),
        Err(_) => Err(Stop::Memory),
    }
}

/// The beginning in this world, by the first report of its root.
fn begin_with(
    alloc: Global,
    root: &Name,
    world: World,
    report: &PackedReport,
    tells: bool,
) -> Result<Followed, Stop> {
    match parts_of(alloc, root, report, tells) {
        Ok((chains, scripted)) => Ok(Followed {
            world,
            chains,
            scripted,
        }),
        Err(stop) => Err(stop),
    }
}

/// The beginning by the first line.
fn begin(alloc: Global, line: &[u8], tells: bool) -> Result<Followed, Stop> {
    let Some(root) = read_root(line) else {
        return Err(Stop::Refused(Cause::Grammar));
    };
    match World::start(alloc, root.copy()) {
        Ok((world, report)) => { begin_with(alloc, &root, world, &PackedReport::of(report), tells) }
        Err(_) => Err(Stop::Refused(Cause::Fault(StepFault::Memory))),
    }
}

/// Has the settlement for these failed processes accepted.
fn settle_chains(chains: &mut Chains, names: &Names) -> Result<(), Stop> {
    match chains.may_settle(chains.front(), names) {
        Ok(()) => {}
        Err(refused) => return Err(stop_for(refused)),
    }
    match settle_named(chains, names) {
        Ok(settled) => {
            *chains = settled;
            Ok(())
        }
        Err(_) => Err(Stop::Memory),
    }
}

/// All return to this line, where these processes failed, whose names are in both forms.
fn settle_at(
    followed: &mut Followed,
    names: &Names,
    failed: &[Name],
    line: &[NamedPosition],
) -> Result<(), Stop> {
    match followed.world.settle(failed, line) {
        Ok(()) => {}
        Err(fault) => return Err(Stop::Refused(Cause::Fault(fault))),
    }
    match settle_chains(&mut followed.chains, names) {
        Ok(()) => {}
        Err(stop) => return Err(stop),
    }
    match followed.scripted.settle(line) {
        Ok(()) => Ok(()),
        Err(_) => Err(Stop::Memory),
    }
}

/// All return to the line of these failed processes.
fn settle(followed: &mut Followed, names: &Names) -> Result<(), Stop> {
    let Ok(failed) = names.to_vec(followed.chains.alloc()) else {
        return Err(Stop::Memory);
    };
    match line_for(&followed.chains, names) {
        Ok(line) => settle_at(followed, names, &failed, &line),
        Err(_) => Err(Stop::Memory),
    }
}

/// Takes a line that is no step.
fn take_other(alloc: Global, followed: &mut Followed, line: &[u8]) -> Result<(), Stop> {
    match read_settle(alloc, line) {
        Ok(Some(names)) => settle(followed, &names),
        Ok(None) => Err(Stop::Refused(Cause::Grammar)),
        Err(_) => Err(Stop::Memory),
    }
}

/// Has the report of a step accepted, and notes the step.
fn take_report(followed: &mut Followed, step: &Step, report: &PackedReport) -> Result<(), Stop> {
    let epoch = followed.chains.epoch();
    match admit(&mut followed.chains, report) {
        Ok(()) => {}
        Err(stop) => return Err(stop),
    }
    match note_report(&mut followed.scripted, step, epoch, report) {
        Ok(()) => Ok(()),
        Err(_) => Err(Stop::Memory),
    }
}

/// Notes a step that is reported so.
fn note_report(
    scripted: &mut Scripted,
    step: &Step,
    epoch: u32,
    report: &PackedReport,
) -> Result<(), AllocError> {
    if !scripted.scene.tells {
        return scripted.note(step, Said::nothing(), Said::nothing());
    }
    let said = scripted.scene.texts.report(epoch, report)?;
    let child = match step.request {
        StepRequest::Fork { .. } => scripted.scene.texts.child(epoch, report)?,
        _ => Said::nothing(),
    };
    scripted.note(step, said, child)
}

/// Notes a step that is not reported.
fn take_event(followed: &mut Followed, step: &Step) -> Result<(), Stop> {
    match followed
        .scripted
        .note(step, Said::nothing(), Said::nothing())
    {
        Ok(()) => Ok(()),
        Err(_) => Err(Stop::Memory),
    }
}

/// Takes a step.
fn take_step(followed: &mut Followed, step: &Step) -> Result<(), Stop> {
    match followed.world.step(step.copy()) {
        Ok(Some(report)) => take_report(followed, step, &PackedReport::of(report)),
        Ok(None) => take_event(followed, step),
        Err(fault) => Err(Stop::Refused(Cause::Fault(fault))),
    }
}

/// Takes a line.
fn go_on(alloc: Global, followed: &mut Followed, line: &[u8]) -> Result<(), Stop> {
    match read_step(line) {
        Some(step) => take_step(followed, &step),
        None => take_other(alloc, followed, line),
    }
}

/// Takes these lines, which stand behind the first line of their script, up to one that is refused.
fn go_through(alloc: Global, followed: &mut Followed, lines: &[u8]) -> Ending {
    let mut rest = lines;
    for step in 2..u64::MAX {
        let Some((line, behind)) = cut_line(rest) else {
            return Ending::Done;
        };
        match go_on(alloc, followed, line) {
            Ok(()) => {}
            Err(stop) => return ending_by(stop, step),
        }
        rest = behind;
    }
    Ending::Done
}

/// Follows a script to its end, or to the first line that is refused. Where not even the first line is taken, nothing is there.
pub(crate) fn follow(alloc: Global, script: &[u8]) -> (Option<Followed>, Ending) {
    let Some((first, behind)) = cut_line(script) else {
        return (None, Ending::Done);
    };
    match begin(alloc, first, is_short(script)) {
        Ok(begun) => {
            let mut followed = begun;
            let ending = go_through(alloc, &mut followed, behind);
            (Some(followed), ending)
        }
        Err(stop) => (None, ending_by(stop, 1)),
    }
}
