//! The steps and settlements of a world.

use crate::fault::Result;
use crate::output::Output;
use chains::Position;
use driver::{NamedPosition, StepFault, World};
use report_line::{Name, PackedReport, Report, write_marked};
use script::{read_root, read_step};
use std::alloc::{AllocError, Global};
use std::io::{Read, Write};

// The world that this line begins, with its report.
fn begin_once(alloc: Global, line: &str) -> Result<(World, Report), StepFault> {
    let Some(root) = read_root(line.as_bytes()) else {
        return Err(StepFault::Unknown);
    };
    match World::start(alloc, root) {
        Ok(begun) => Ok(begun),
        Err(_) => Err(StepFault::Memory),
    }
}

// The same, at the second try if memory was missing.
fn begin<W: Write + Drop>(
    alloc: Global,
    line: &str,
    out: &mut Output<W>,
) -> Result<(World, Report), StepFault> {
    match begin_once(alloc, line) {
        Err(StepFault::Memory) => {
            out.put_again(b"root");
            begin_once(alloc, line)
        }
        done => done,
    }
}

// The world takes the step of a line.
fn step_once(world: &mut World, line: &str) -> Result<Option<Report>, StepFault> {
    match read_step(line.as_bytes()) {
        Some(step) => world.step(step),
        None => Err(StepFault::Unknown),
    }
}

// The same, at the second try if memory was missing.
fn step<W: Write + Drop>(
    world: &mut World,
    line: &str,
    out: &mut Output<W>,
) -> Result<Option<Report>, StepFault> {
    match step_once(world, line) {
        Err(StepFault::Memory) => {
            out.put_again(b"step");
            step_once(world, line)
        }
        done => done,
    }
}

// The world returns to a line. It stands alone, since its clause is long.
fn settle_once(
    world: &mut World,
    failed: &[Name],
    line: &[NamedPosition],
) -> Result<(), StepFault> {
    world.settle(failed, line)
}

// The same, at the second try if memory was missing.
fn settle<W: Write + Drop>(
    world: &mut World,
    failed: &[Name],
    line: &[NamedPosition],
    out: &mut Output<W>,
) -> Result<(), StepFault> {
    match settle_once(world, failed, line) {
        Err(StepFault::Memory) => {
            out.put_again(b"return");
            settle_once(world, failed, line)
        }
        done => done,
    }
}

// The names in a word, separated by commas.
fn names_of(alloc: Global, word: &str) -> Result<Vec<Name>, AllocError> {
    word.split(',')
        .filter_map(|part| Name::from_bytes(part.as_bytes()))
        .collect(alloc)
}

// Adds what the words spell to the line: names with their positions.
fn add_positions(line: &mut Vec<NamedPosition>, words: &[&str]) -> Result<(), AllocError> {
    for pair in words.chunks(2) {
        if let [name, number] = *pair
            && let Some(name) = Name::from_bytes(name.as_bytes())
            && let Ok(number) = number.parse::<u32>()
        {
            let position = Position::At(number);
            line.push(NamedPosition { name, position })?;
        }
    }
    Ok(())
}

// The world returns to the line that these words spell, where these failed.
fn settle_by<W: Write + Drop>(
    alloc: Global,
    world: &mut World,
    failed: &str,
    places: &[&str],
    out: &mut Output<W>,
) -> Result<()> {
    let failed = names_of(alloc, failed)?;
    let mut line = Vec::new(alloc);
    add_positions(&mut line, places)?;
    Ok(settle(world, &failed, &line, out)?)
}

// The world takes the step of a line, or returns to one. Answers the report, if there is one.
fn take<W: Write + Drop>(
    alloc: Global,
    world: &mut World,
    line: &str,
    words: &[&str],
    out: &mut Output<W>,
) -> Result<Option<Report>> {
    if let ["return", failed, ref places @ ..] = *words {
        settle_by(alloc, world, failed, places, out)?;
        return Ok(None);
    }
    Ok(step(world, line, out)?)
}

// Writes a report.
fn put_packed<W: Write + Drop>(
    alloc: Global,
    epoch: u32,
    report: &PackedReport,
    out: &mut Output<W>,
) {
    out.put_made(write_marked(alloc, epoch, report));
    out.put(b"\n");
}

// The same, if there is one.
fn put_report<W: Write + Drop>(
    alloc: Global,
    epoch: u32,
    report: Option<Report>,
    out: &mut Output<W>,
) {
    if let Some(report) = report {
        put_packed(alloc, epoch, &PackedReport::of(report), out);
    }
}

// The world goes on by a line.
fn go_on_by<W: Write + Drop>(
    alloc: Global,
    world: &mut World,
    line: &str,
    out: &mut Output<W>,
) -> Result<()> {
    let words: Vec<&str> = line.split(' ').collect(alloc)?;
    let report = take(alloc, world, line, &words, out)?;
    put_report(alloc, world.epoch(), report, out);
    Ok(())
}

// The world goes on by these lines.
fn go_on<W: Write + Drop>(
    alloc: Global,
    world: &mut World,
    lines: &[&str],
    out: &mut Output<W>,
) -> Result<()> {
    for line in lines {
        go_on_by(alloc, world, line, out)?;
    }
    out.end()
}

// A world that the first line begins goes on by the others.
fn drive<W: Write + Drop>(
    alloc: Global,
    first: &str,
    lines: &[&str],
    out: &mut Output<W>,
) -> Result<()> {
    let (mut world, report) = begin(alloc, first, out)?;
    put_report(alloc, 0, Some(report), out);
    go_on(alloc, &mut world, lines, out)
}

/// Drives a world by the lines of standard input, and writes its reports. The first line begins the world as that of a script does, and
/// the others are steps of scripts, or `return F NAME POSITION NAME POSITION ..`, by which it settles on this line where F failed.
pub fn drive_all(rt: &HostRuntime) -> Result<()> {
    let alloc = rt.alloc();
    let mut input = String::new(alloc);
    rt.reader().read_to_string(&mut input)?;
    let lines: Vec<&str> = input.lines().collect(alloc)?;
    match lines.split_first() {
        Some((first, lines)) => drive(alloc, first, lines, &mut Output::new(rt.stdout())),
        None => Ok(()),
    }
}
