//! Driving a world by a script.

ghost use Rattle.std.specs.Prelude.{◌≡◌, ◌++◌, ◌∷◌, [], List, ℕ, MatchOption, MatchResult, None};
ghost use Rattle.report_line.specs.Cutting.{NoBreak};
ghost use Rattle.driver.specs.declared.step.Step.{Step as AnyStep};
ghost use Rattle.script.specs.Driven.{IsDriven, PrintsReports};
ghost use Rattle.script.specs.working.Driving.{Begins, GivenTold, StepTold, StopTold, end_by};
ghost use Rattle.script.specs.Spelling.{SpellsStep, SpellsSettle};
ghost use Rattle.script.specs.Taken.{ChainsHoldTheReports, KnownSettlementIsClosed, KnownSettlementIsTaken};

use crate::end::{Cause, End};
use crate::naming::line_for;
use crate::printing::{Printout, catch_up, print_made, print_settlement};
use crate::reading::{read_root, read_step};
use crate::settle_lines::read_settle;
use driver::{Step, StepFault, World};
use memchr::memchr;
use report_line::{Names, Report};
use std::alloc::Global;

/// Why a line stops the script.
#[derive(Clone, Copy)]
enum Stop {
    /// It is refused.
    Refused(Cause),
    /// Memory did not suffice to read it, or to print what it prints.
    Memory,
}

/// What stands in front of the first LF, and what behind it; none where there is no LF.
pub fn cut_line(bytes: &[u8]) -> Option<(&[u8], &[u8])>
    ensures { MatchOption result (NoBreak bytes.now) (λ parts. NoBreak parts.0.now × (bytes.now ≡ parts.0.now ++ 10 ∷ parts.1.now)) }
{
    let at = memchr(b'\n', bytes)?;
    Some((&bytes[..at], &bytes[at + 1..]))
}

// The world that the first line begins, and what is printed then.
fn begin(alloc: Global, line: &[u8]) -> Result<(World, Printout), Stop>
    ensures { MatchResult result (λ begun. Begins line.now begun.0 begun.1) (λ stop. StopTold None [] line.now stop) }
{
    let Some(root) = read_root(line) else {
        return Err(Stop::Refused(Cause::Grammar));
    };
    let Ok((world, report)) = World::start(alloc, root) else {
        return Err(Stop::Refused(Cause::Fault(StepFault::Memory)));
    };
    let mut printout = Printout::new(alloc);
    match print_made(alloc, &mut printout, 0, report) {
        Ok(()) => Ok((world, printout)),
        Err(_) => Err(Stop::Memory),
    }
}

// Prints the report of a step, if it has one, with the world's epoch.
fn print_given(
    alloc: Global,
    printout: &mut Printout,
    epoch: u32,
    given: Option<Report>,
) -> Result<(), Stop>
    ensures { GivenTold printout.old printout.new epoch given result }
{
    let Some(report) = given else {
        return Ok(());
    };
    match print_made(alloc, printout, epoch, report) {
        Ok(()) => Ok(()),
        Err(_) => Err(Stop::Memory),
    }
}

// The world takes this step, and its report, if it has one, is printed.
fn take_step(
    alloc: Global,
    world: &mut World,
    step: Step,
    printout: &mut Printout,
) -> Result<(), Stop>
    ensures { (line : List ℕ) → SpellsStep step line → StepTold world.old world.new printout.old printout.new line result }
{
    let given = match world.step(step) {
        Ok(given) => given,
        Err(fault) => return Err(Stop::Refused(Cause::Fault(fault))),
    };
    print_given(alloc, printout, world.epoch(), given)
}

// The world returns to the line that all that was printed gives for these failed processes, and that is printed.
fn settle(
    alloc: Global,
    world: &mut World,
    names: &Names,
    printout: &mut Printout,
) -> Result<(), Stop>
    ensures { (line : List ℕ) → SpellsSettle names.now line → StepTold world.old world.new printout.old printout.new line result }
{
    let Ok(()) = catch_up(printout) else {
        return Err(Stop::Memory);
    };
    let Ok(failed) = names.to_vec(alloc) else {
        return Err(Stop::Memory);
    };
    let Ok(line) = line_for(&printout.chains, names) else {
        return Err(Stop::Memory);
    };
    match world.settle(&failed, &line) {
        Ok(()) => {}
        Err(refused) => return Err(Stop::Refused(Cause::Fault(refused))),
    }
    match print_settlement(alloc, printout, names) {
        Ok(()) => Ok(()),
        Err(_) => Err(Stop::Memory),
    }
}

// The world takes a line that is no step.
fn take_other(
    alloc: Global,
    world: &mut World,
    line: &[u8],
    printout: &mut Printout,
) -> Result<(), Stop>
    requires { (step : AnyStep) → ¬ SpellsStep step line.now }
    ensures { StepTold world.old world.new printout.old printout.new line.now result }
{
    match read_settle(alloc, line) {
        Ok(Some(names)) => settle(alloc, world, &names, printout),
        Ok(None) => Err(Stop::Refused(Cause::Grammar)),
        Err(_) => Err(Stop::Memory),
    }
}

// The world takes a line, and what it prints is printed.
fn go_on(alloc: Global, world: &mut World, line: &[u8], printout: &mut Printout) -> Result<(), Stop>
    ensures { StepTold world.old world.new printout.old printout.new line.now result }
{
    match read_step(line) {
        Some(step) => take_step(alloc, world, step, printout),
        None => take_other(alloc, world, line, printout),
    }
}

// What was printed.
fn text_of(printout: Printout) -> Vec<u8>
    ensures { result.items ≡ printout.text.items }
{
    let Printout { text, .. } = printout;
    text
}

// The end of a script that this line stops, by the line's number.
fn end_by(stop: Stop, step: u64) -> End
    ensures { result ≡ end_by stop step }
{
    match stop {
        Stop::Refused(cause) => End::Refused { step, cause },
        Stop::Memory => End::Memory,
    }
}

/// Drives a world by the lines of a script, and answers what is printed, with how it ended. The first line begins the world, each later
/// one is a step of it or settles it, and the first line that is refused is the last one. At a settlement each line that was printed has
/// taken its turn on chains, and the world returns to the line that is answered over them. Until then a report is kept only where chains
/// will accept it. A script that would print more than 4,294,967,295 lines ends there, as for want of memory.
pub fn drive(alloc: Global, script: &[u8]) -> (Vec<u8>, End)
    ensures { IsDriven script.now result.0.items result.1 }
{
    let Some((first, behind)) = cut_line(script) else {
        return (Vec::new(alloc), End::Done);
    };
    let (mut world, mut printout) = match begin(alloc, first) {
        Ok(begun) => begun,
        Err(stop) => return (Vec::new(alloc), end_by(stop, 1)),
    };
    let mut rest = behind;
    let mut taken = 1u64;
    while let Some((line, behind)) = cut_line(rest) {
        taken += 1;
        match go_on(alloc, &mut world, line, &mut printout) {
            Ok(()) => {}
            Err(stop) => return (text_of(printout), end_by(stop, taken)),
        }
        rest = behind;
    }
    (text_of(printout), End::Done)
}

/// A script without settlements prints the reports of its world.
pub fn a_script_without_settlements_prints_the_reports()
    ensures { PrintsReports }
{}

/// Where the chains accepted each line that a script printed, they hold what its world reported, and are in its epoch. So a line that
/// settles for known processes is taken, want of memory aside.
pub fn a_settlement_for_known_processes_is_taken()
    ensures held { ChainsHoldTheReports }
    ensures closed { KnownSettlementIsClosed }
    ensures taken { KnownSettlementIsTaken }
{}
