//! Forks: a child is given a part of the id.

ghost use Rattle.std.specs.Prelude.{◌≡◌, ◌+◌, ◌<◌, IfOk, IfErr, IsErr, OnErr};
ghost use Rattle.id_tree.specs.NormalForm.{depth_limit};
ghost use Rattle.id_tree.specs.Split.{parts_depth};
ghost use Rattle.event_tree.specs.Event.{PassesLimit};
ghost use Rattle.process.specs.Steps.{Forks, Halves, IsLineOf, fork_report};
ghost use Rattle.process.specs.Faults.{RefusesFork, RefusesHalves, RefusesLeaf, RefusesCarved, IsWorn};
ghost use Rattle.process.specs.Leaves.{IsLeafAt, IsFromDeepest, HasRoomFor};
ghost use Rattle.process.specs.working.Telling.{AreForkParts, IsForkTold, IsParted, AreCarved, RefusesCarving};

use crate::carving::carve;
use crate::fault::ProcessFault;
use crate::handed::Start;
use crate::process::{Process, after_event, fault_of};
use crate::reporting::{line_of, next_number};
use event_tree::Events;
use id_tree::Id;
use report_line::{Name, ReportKind};
use stamp::Stamp;
use std::alloc::{AllocError, Global};

/// What a fork leaves behind: the number and the line of its report, and both stamps after it.
#[derive(Drop)]
pub(crate) struct ForkResult {
    pub(crate) number: u32,
    pub(crate) kept: Stamp,
    pub(crate) given: Stamp,
    pub(crate) line: Vec<u8>,
}

impl Process {
    /// Makes a child of this name, which no other process has or had, and gives the line of the report, and what the child starts from. Each
    /// gets half of the id, which is a level deeper each time: so the 41st fork of a root that takes nothing back is too deep.
    pub fn fork(&mut self, alloc: Global, child: &Name) -> Result<(Vec<u8>, Start), ProcessFault>
        ensures ok { IfOk result (λ made. (made.1.child ≡ child.now) × Forks self.old self.new made.1 made.0.items) }
        ensures halves { IfOk result (λ made. Halves self.old.stamp.id self.new.stamp.id made.1.stamp.id) }
        ensures err { IfErr result (λ fault. RefusesFork fault self.old child.now) }
        ensures worn { IsWorn self.old → IsErr result }
        ensures full { PassesLimit self.old.stamp.id self.old.stamp.events → IsErr result }
        ensures deep { depth_limit < parts_depth self.old.stamp.id → IsErr result }
        ensures unchanged { OnErr result (self.new ≡ self.old) }
    {
        let parted = forked(alloc, self, child)?;
        Ok(self.part(child, parted))
    }

    /// The same, but the child gets a leaf of this depth, and the process keeps the rest. The leaf is cut from the deepest one that is no
    /// deeper; which of several as deep ones is left open. An id that is no deeper stays so, however many children come and go, as long as
    /// they fork nothing and retire into this process.
    ///
    /// `TooDeep` where the depth is above 40, where each leaf is deeper, or where the one leaf of that depth is all that the process owns.
    pub fn fork_small(
        &mut self,
        alloc: Global,
        child: &Name,
        depth: u8,
    ) -> Result<(Vec<u8>, Start), ProcessFault>
        ensures ok { IfOk result (λ made. (made.1.child ≡ child.now) × Forks self.old self.new made.1 made.0.items) }
        ensures leaf { IfOk result (λ made. IsLeafAt depth made.1.stamp.id) }
        ensures deepest { IfOk result (λ made. IsFromDeepest self.old.stamp.id depth made.1.stamp.id) }
        ensures err { IfErr result (λ fault. RefusesLeaf fault self.old child.now depth) }
        ensures worn { IsWorn self.old → IsErr result }
        ensures full { PassesLimit self.old.stamp.id self.old.stamp.events → IsErr result }
        ensures room { (¬ HasRoomFor self.old.stamp.id depth) → IsErr result }
        ensures unchanged { OnErr result (self.new ≡ self.old) }
    {
        let parted = forked_small(alloc, self, child, depth)?;
        Ok(self.part(child, parted))
    }

    // Goes on behind a fork.
    fn part(&mut self, child: &Name, parted: ForkResult) -> (Vec<u8>, Start)
        ensures process { self.new ≡ record { name = self.old.name; epoch = self.old.epoch; reports = parted.number; stamp = parted.kept } }
        ensures line { result.0 ≡ parted.line }
        ensures start { result.1 ≡ record { child = child.now; epoch = self.old.epoch; stamp = parted.given } }
    {
        self.reports = parted.number;
        self.stamp = parted.kept;
        let start = Start {
            child: child.copy(),
            epoch: self.epoch,
            stamp: parted.given,
        };
        (parted.line, start)
    }
}

// The line of a fork's report.
fn fork_line(
    alloc: Global,
    process: &Process,
    number: u32,
    kept: &Stamp,
    child: &Name,
    given: &Id,
) -> Result<Vec<u8>, AllocError>
    requires { number ≡ process.now.reports + 1 }
    ensures { IfOk result (λ line. IsLineOf process.now.epoch (fork_report process.now kept.now child.now given.now) line.items) }
{
    let stamp = Stamp::of_both(alloc, &process.stamp.id, &kept.events)?;
    let Ok(action) = ReportKind::fork_of(alloc, &kept.id, child, given) else {
        drop(stamp);
        return Err(AllocError);
    };
    line_of(alloc, process, number, stamp, action)
}

// A fork with these parts, reported.
fn reported_fork(
    alloc: Global,
    process: &Process,
    number: u32,
    child: &Name,
    parts: (Stamp, Stamp),
) -> Result<ForkResult, ProcessFault>
    requires { number ≡ process.now.reports + 1 }
    ensures ok { IfOk result (λ parted. IsForkTold process.now child.now parts.0 parts.1 parted) }
    ensures err { IfErr result (λ fault. fault ≡ ProcessFault.Memory) }
{
    let (kept, given) = parts;
    let Ok(line) = fork_line(alloc, process, number, &kept, child, &given.id) else {
        drop(kept);
        drop(given);
        return Err(ProcessFault::Memory);
    };
    Ok(ForkResult {
        number,
        kept,
        given,
        line,
    })
}

// The stamp after an event, its id halved.
fn halves(alloc: Global, stamp: &Stamp) -> Result<(Stamp, Stamp), ProcessFault>
    ensures parts { IfOk result (λ parts. AreForkParts stamp.now parts.0 parts.1) }
    ensures halves { IfOk result (λ parts. Halves stamp.now.id parts.0.id parts.1.id) }
    ensures err { IfErr result (λ fault. RefusesHalves fault stamp.now) }
    ensures full { PassesLimit stamp.now.id stamp.now.events → IsErr result }
    ensures deep { depth_limit < parts_depth stamp.now.id → IsErr result }
{
    match stamp.fork(alloc) {
        Ok(parts) => Ok(parts),
        Err(fault) => Err(fault_of(fault)),
    }
}

// A fork by halves.
fn forked(alloc: Global, process: &Process, child: &Name) -> Result<ForkResult, ProcessFault>
    ensures ok { IfOk result (λ parted. IsParted process.now child.now parted) }
    ensures halves { IfOk result (λ parted. Halves process.now.stamp.id parted.kept.id parted.given.id) }
    ensures err { IfErr result (λ fault. RefusesFork fault process.now child.now) }
    ensures worn { IsWorn process.now → IsErr result }
    ensures full { PassesLimit process.now.stamp.id process.now.stamp.events → IsErr result }
    ensures deep { depth_limit < parts_depth process.now.stamp.id → IsErr result }
{
    if child.as_bytes() == process.name.as_bytes() {
        return Err(ProcessFault::Taken);
    }
    let Some(number) = next_number(process.reports) else {
        return Err(ProcessFault::Worn);
    };
    match halves(alloc, &process.stamp) {
        Ok(parts) => reported_fork(alloc, process, number, child, parts),
        Err(fault) => Err(fault),
    }
}

// The same events with the two parts of an id.
fn with_parts(
    alloc: Global,
    kept: Id,
    given: Id,
    events: Events,
) -> Result<(Stamp, Stamp), AllocError>
    ensures { IfOk result (λ parts. (parts.0 ≡ record { id = kept; events = events }) × (parts.1 ≡ record { id = given; events = events })) }
{
    let Ok(copy) = events.copy(alloc) else {
        drop(kept);
        drop(given);
        drop(events);
        return Err(AllocError);
    };
    Ok((
        Stamp { id: kept, events },
        Stamp {
            id: given,
            events: copy,
        },
    ))
}

// The stamp, of whose id a leaf of this depth is given away.
fn carved_stamp(alloc: Global, after: Stamp, depth: u8) -> Result<(Stamp, Stamp), ProcessFault>
    ensures ok { IfOk result (λ parts. AreCarved after depth parts.0 parts.1) }
    ensures err { IfErr result (λ fault. RefusesCarving fault after.id depth) }
    ensures room { (¬ HasRoomFor after.id depth) → IsErr result }
{
    let Stamp { id, events } = after;
    let parts = carve(alloc, &id, depth);
    drop(id);
    match parts {
        Ok((kept, given)) => match with_parts(alloc, kept, given, events) {
            Ok(parts) => Ok(parts),
            Err(_) => Err(ProcessFault::Memory),
        },
        Err(fault) => {
            drop(events);
            Err(fault)
        }
    }
}

// The stamp after an event, of whose id a leaf of this depth is given away.
fn leaf_parts(alloc: Global, stamp: &Stamp, depth: u8) -> Result<(Stamp, Stamp), ProcessFault>
    ensures parts { IfOk result (λ parts. AreForkParts stamp.now parts.0 parts.1) }
    ensures leaf { IfOk result (λ parts. IsLeafAt depth parts.1.id) }
    ensures deepest { IfOk result (λ parts. IsFromDeepest stamp.now.id depth parts.1.id) }
    ensures err { IfErr result (λ fault. RefusesCarved fault stamp.now depth) }
    ensures full { PassesLimit stamp.now.id stamp.now.events → IsErr result }
    ensures room { (¬ HasRoomFor stamp.now.id depth) → IsErr result }
{
    match after_event(alloc, stamp) {
        Ok(after) => carved_stamp(alloc, after, depth),
        Err(fault) => Err(fault),
    }
}

// A fork that gives a leaf of this depth.
fn forked_small(
    alloc: Global,
    process: &Process,
    child: &Name,
    depth: u8,
) -> Result<ForkResult, ProcessFault>
    ensures ok { IfOk result (λ parted. IsParted process.now child.now parted) }
    ensures leaf { IfOk result (λ parted. IsLeafAt depth parted.given.id) }
    ensures deepest { IfOk result (λ parted. IsFromDeepest process.now.stamp.id depth parted.given.id) }
    ensures err { IfErr result (λ fault. RefusesLeaf fault process.now child.now depth) }
    ensures worn { IsWorn process.now → IsErr result }
    ensures full { PassesLimit process.now.stamp.id process.now.stamp.events → IsErr result }
    ensures room { (¬ HasRoomFor process.now.stamp.id depth) → IsErr result }
{
    if child.as_bytes() == process.name.as_bytes() {
        return Err(ProcessFault::Taken);
    }
    let Some(number) = next_number(process.reports) else {
        return Err(ProcessFault::Worn);
    };
    match leaf_parts(alloc, &process.stamp, depth) {
        Ok(parts) => reported_fork(alloc, process, number, child, parts),
        Err(fault) => Err(fault),
    }
}
