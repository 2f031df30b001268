//! The desk under one lock, and what clients call.

ghost use Rattle.std.specs.Prelude.{◌≡◌, ◌<◌, ◌≤◌, [], length, IfOk, IfErr, IfSome};
ghost use Rattle.report_line.specs.declared.call.Call.TheVariants as calls;
ghost use Rattle.chains.specs.Held.{held_of};
ghost use Rattle.desk.specs.Files.{IsShort};
ghost use Rattle.desk.specs.Records.{IsReadOff};
ghost use Rattle.coordinator.specs.Passes.{IsPlain, IsNewPass, line_call, ledger_parts};
ghost use Rattle.coordinator.specs.PassTurn.{IsPassTurn};
ghost use Rattle.coordinator.specs.Closing.{EndsWith, IsAuditCause, IsEnded, IsRefused, IsRemainder};

use crate::auditing::audit;
use crate::fault::{CallFault, CloseFault, PassFault};
use crate::line::show_line;
use crate::locked::Locked;
use crate::pass::Pass;
use crate::progress::Progress;
use chains::Chains;
use desk::Desk;
use knows_row::ChunkGate;
use line_disk::Disk;
use report_line::{Call, Names};
use std::alloc::Global;
use std::marker::Model;
use std::sync::ledger::{Blank, Ledger};
use std::sync::{Mutex, Wait};
use std::thread::Threads;

/// What is called before a line is computed, and within that before each run of the table of needs. No lock is held then.
pub trait Gate: ChunkGate {
    /// The line of the pass of this number comes next.
    fn before_line(&self, pass: u64);
}

/// A gate that does nothing.
#[derive(Clone, Copy, Debug, Drop)]
pub struct OpenGate;

impl ChunkGate for OpenGate {
    fn before_chunk(&self, _run: u64) {}
}

impl Gate for OpenGate {
    fn before_line(&self, _pass: u64) {}
}

/// What is handed back where memory was wanting for a coordinator.
#[derive(Drop)]
pub struct Refused<D: Disk> {
    /// The ledger's parts, as they were.
    pub blank: Blank,
    /// The desk, as it was.
    pub desk: Desk<D>,
}

/// What is left of a coordinator.
#[derive(Drop)]
pub struct Ended<D: Disk> {
    /// The desk's disk.
    pub disk: D,
    /// The front: how many lines were accepted.
    pub front: u32,
    /// The number of turns.
    pub turns: u32,
}

/// What is left of a coordinator that ended though its turns are not just those of the passes.
#[derive(Drop)]
pub struct Remainder<D: Disk> {
    /// Why they are not.
    pub fault: CloseFault,
    /// The disk, the front and the number of turns.
    pub ended: Ended<D>,
}

/// What is handed back where a coordinator does not end.
#[derive(Drop)]
pub struct Unclosed<L: Ledger, D: Disk> {
    /// Why not.
    pub fault: CloseFault,
    /// The coordinator, as it was.
    pub coordinator: Coordinator<L, D>,
    /// The passes, as they were.
    pub passes: Vec<Pass<L>>,
}

/// A desk that threads share. It is seen as what was held when the desk was opened.
pub struct Coordinator<L: Ledger, D: Disk> {
    alloc: Global,
    opening: Chains,
    locked: Mutex<Locked<L, D>>,
    workers: usize,
}

impl<L: Ledger, D: Disk + Drop> Drop for Coordinator<L, D> {
    fn drop(self) {
        let Coordinator {
            alloc: _,
            opening: _,
            locked: _,
            workers: _,
        } = self;
    }
}

impl<L: Ledger, D: Disk> Model for Coordinator<L, D> {
    ghost use Rattle.std.specs.Prelude.{◌<◌, ◌≤◌};
    ghost use Rattle.chains.specs.Held.{Held, held_of};
    ghost use Rattle.desk.specs.working.Codes.{held_code};

    ghost Value = { Held };

    ghost coded = { held_code };

    ghost view = { λ c. held_of c.opening };

    ghost invariant = { λ c. (0 < c.workers) × (c.workers ≤ 64) };
}

impl<L: Ledger, D: Disk> Coordinator<L, D> {
    /// The desk under a lock, with a ledger of 8,193 parts that L names: one for each pass, and one that stays. The desk has
    /// made no turn. What was held when it was opened is kept beside the lock. Where memory is wanting for that, both come back. A line
    /// is computed by the thread that asks for it.
    pub fn new(alloc: Global, blank: Blank, desk: Desk<D>) -> Result<Coordinator<L, D>, Refused<D>>
        requires name { blank.name ≡ L.name }
        requires parts { (blank.parts ≡ L.parts) × (blank.parts ≡ ledger_parts) }
        requires fresh { desk.turns ≡ [] }
        ensures ok { IfOk result (λ c. c ≡ desk.opening) }
        ensures err { IfErr result (λ r. (r.blank ≡ blank) × (r.desk ≡ desk)) }
    {
        Coordinator::with_workers(alloc, blank, desk, 1)
    }

    /// The same, where the table of needs of a line is made by this many threads at most, 1 to 64.
    pub fn with_workers(
        alloc: Global,
        blank: Blank,
        desk: Desk<D>,
        workers: usize,
    ) -> Result<Coordinator<L, D>, Refused<D>>
        requires name { blank.name ≡ L.name }
        requires parts { (blank.parts ≡ L.parts) × (blank.parts ≡ ledger_parts) }
        requires fresh { desk.turns ≡ [] }
        requires workers { (0 < workers) × (workers ≤ 64) }
        ensures ok { IfOk result (λ c. c ≡ desk.opening) }
        ensures err { IfErr result (λ r. (r.blank ≡ blank) × (r.desk ≡ desk)) }
    {
        let Ok(opening) = desk.opening() else {
            return Err(Refused { blank, desk });
        };
        Ok(Coordinator {
            alloc,
            opening,
            locked: Mutex::new(Locked::new(blank, desk)),
            workers,
        })
    }

    /// The allocator of what it makes.
    pub fn alloc(&self) -> Global {
        self.alloc
    }

    /// The next pass: 8,192 are handed out at most.
    pub fn pass<R: Wait>(&self, rt: &R) -> Result<Pass<L>, PassFault>
        ensures ok { IfOk result IsNewPass }
        ensures err { IfErr result (λ fault. fault ≡ PassFault.Worn) }
    {
        match self.locked.lock(rt).pass(self.alloc) {
            Some(pass) => Ok(pass),
            None => Err(PassFault::Worn),
        }
    }

    /// How far it has come, if no turn is under way. It makes none, and waits for none.
    pub fn progress(&self) -> Option<Progress> {
        match self.locked.try_lock() {
            Some(locked) => Some(locked.progress()),
            None => None,
        }
    }

    /// Makes one turn for a call other than a question for a line, and adds it to the pass. Behind `OK` and `SETTLED` the call's record
    /// stands in the file. Where there is a fault, no turn was made, and the pass is as it was.
    pub fn call<R: Wait>(&self, rt: &R, pass: &mut Pass<L>, call: Call) -> Result<(), CallFault>
        requires plain { IsPlain call }
        requires short { IsShort call }
        ensures turn { IsPassTurn D.keeps D.view pass.old call pass.new result }
    {
        self.call_by(rt, pass, None, call)
    }

    /// The same for a call and the line that it was read off. A report without a mark goes into the file as these bytes.
    pub fn call_read<R: Wait>(
        &self,
        rt: &R,
        pass: &mut Pass<L>,
        line: &[u8],
        call: Call,
    ) -> Result<(), CallFault>
        requires plain { IsPlain call }
        requires short { IsShort call }
        requires read { IsReadOff line.now call }
        ensures turn { IsPassTurn D.keeps D.view pass.old call pass.new result }
    {
        self.call_by(rt, pass, Some(line), call)
    }

    /// The same with the line, where there is one.
    fn call_by<R: Wait>(
        &self,
        rt: &R,
        pass: &mut Pass<L>,
        line: Option<&[u8]>,
        call: Call,
    ) -> Result<(), CallFault>
        requires plain { IsPlain call }
        requires short { IsShort call }
        requires read { IfSome line (λ l. IsReadOff l.now call) }
        ensures turn { IsPassTurn D.keeps D.view pass.old call pass.new result }
    {
        let Ok(copy) = call.copy(self.alloc) else {
            return Err(CallFault::Memory);
        };
        self.locked.lock(rt).turn(pass, line, call, copy)?;
        Ok(())
    }

    /// Makes one turn for the question for the line of these failed processes, and computes the line with the lock given up,
    /// behind the gate. The pass shows the line, or that memory was wanting for it, or the turn's own reply where no line was
    /// taken.
    pub fn line<R: Wait + Threads + Sync, G: Gate + Sync>(
        &self,
        rt: &R,
        pass: &mut Pass<L>,
        gate: &G,
        names: Names,
    ) -> Result<(), CallFault>
        ensures turn { IsPassTurn D.keeps D.view pass.old (line_call names) pass.new result }
    {
        self.ask(rt, pass, gate, gate, Call::Line(names))
    }

    /// Makes one turn for the question for the line with every process failed, and computes it as `line` does.
    pub fn garbage_line<R: Wait + Threads + Sync, G: Gate + Sync>(
        &self,
        rt: &R,
        pass: &mut Pass<L>,
        gate: &G,
    ) -> Result<(), CallFault>
        ensures turn { IsPassTurn D.keeps D.view pass.old calls.Garbage pass.new result }
    {
        self.ask(rt, pass, gate, gate, Call::Garbage)
    }

    /// Makes one turn for a question of either kind, and computes the line that was taken with the lock given up: behind the gate, and
    /// each run of its table of needs behind that of the runs. For another call it makes the turn alone.
    pub fn ask<R: Wait + Threads + Sync, G: Gate, C: ChunkGate + Sync>(
        &self,
        rt: &R,
        pass: &mut Pass<L>,
        gate: &G,
        runs: &C,
        call: Call,
    ) -> Result<(), CallFault>
        requires { IsShort call }
        ensures turn { IsPassTurn D.keeps D.view pass.old call pass.new result }
    {
        let Ok(asked) = call.copy(self.alloc) else {
            return Err(CallFault::Memory);
        };
        let Ok(kept) = call.copy(self.alloc) else {
            return Err(CallFault::Memory);
        };
        let snapshot = self.locked.lock(rt).take(pass, asked, kept)?;
        gate.before_line(u64::from(pass.number()));
        let Some(chains) = snapshot else {
            return Ok(());
        };
        show_line(rt, pass, &chains, &call, self.workers, runs);
        Ok(())
    }

    /// Ends where the passes show each turn once, and the right lines. A refusal hands all back.
    pub fn close(self, passes: Vec<Pass<L>>) -> Result<Ended<D>, Unclosed<L, D>>
        ensures ok { IfOk result (λ e. IsEnded D.keeps D.view self passes.items e.turns e.front e.disk) }
        ensures err { IfErr result (λ u. (u.coordinator ≡ self) × (u.passes.items ≡ passes.items)) }
        ensures cause { IfErr result (λ u. IsRefused D.keeps D.view self passes.items u.fault) }
    {
        let Coordinator {
            alloc,
            opening,
            locked,
            workers,
        } = self;
        match conclude(&opening, locked.into_inner(), passes.as_slice()) {
            Ok(ended) => Ok(ended),
            Err((fault, locked)) => {
                locked.desk().recall_lawful();
                let coordinator = Coordinator {
                    alloc,
                    opening,
                    locked: Mutex::new(locked),
                    workers,
                };
                Err(Unclosed {
                    fault,
                    coordinator,
                    passes,
                })
            }
        }
    }

    /// Ends whatever the passes show. If they do not show each turn once, or a line is not right, or memory is missing for the test, the
    /// fault says so, and the disk comes back with all records of the desk.
    pub fn finish(self, passes: Vec<Pass<L>>) -> Result<Ended<D>, Remainder<D>>
        ensures ok { IfOk result (λ e. IsEnded D.keeps D.view self passes.items e.turns e.front e.disk) }
        ensures left { IfErr result (λ r. IsRemainder D.keeps D.view self passes.items r.fault r.ended.turns r.ended.front r.ended.disk) }
    {
        match self.finish_with_desk(passes) {
            Ok(desk) => Ok(end_desk(desk)),
            Err(remainder) => Err(remainder),
        }
    }

    /// Ends as `finish` does. The desk is not closed, and comes back with all its turns.
    pub fn finish_with_desk(self, passes: Vec<Pass<L>>) -> Result<Desk<D>, Remainder<D>>
        ensures ok { IfOk result (λ desk. EndsWith D.keeps D.view self passes.items desk) }
        ensures left { IfErr result (λ r. IsRemainder D.keeps D.view self passes.items r.fault r.ended.turns r.ended.front r.ended.disk) }
    {
        let Coordinator {
            alloc: _,
            opening,
            locked,
            workers: _,
        } = self;
        finish_over(&opening, locked.into_inner(), passes.as_slice())
    }
}

/// What is left of a desk.
fn end_desk<D: Disk>(desk: Desk<D>) -> Ended<D>
    ensures turns { result.turns ≡ length desk.turns }
    ensures front { result.front ≡ desk.held.front }
    ensures disk { result.disk ≡ desk.disk }
{
    desk.recall_lawful();
    let turns = desk.turns().len() as u32;
    let front = desk.front();
    let disk = desk.close();
    Ended { disk, front, turns }
}

/// The desk under the lock, or what is left of it, and why the passes do not show each turn once, and the right lines, if they do not.
fn finish_over<L: Ledger, D: Disk>(
    opening: &Chains,
    locked: Locked<L, D>,
    passes: &[Pass<L>],
) -> Result<Desk<D>, Remainder<D>>
    ensures ok { IfOk result (λ desk. EndsWith D.keeps D.view (held_of opening.now) passes.now desk) }
    ensures left { IfErr result (λ r. IsRemainder D.keeps D.view (held_of opening.now) passes.now r.fault r.ended.turns r.ended.front r.ended.disk) }
{
    let audited = audit(opening, locked.desk(), passes);
    let desk = locked.into_desk();
    desk.recall_lawful();
    match audited {
        Ok(()) => Ok(desk),
        Err(fault) => {
            let ended = end_desk(desk);
            Err(Remainder { fault, ended })
        }
    }
}

/// What is left where the passes show each turn once, and the right lines; or why they do not, and all that lay under the lock, as it was.
fn conclude<L: Ledger, D: Disk>(
    opening: &Chains,
    locked: Locked<L, D>,
    passes: &[Pass<L>],
) -> Result<Ended<D>, (CloseFault, Locked<L, D>)>
    ensures ok { IfOk result (λ e. IsEnded D.keeps D.view (held_of opening.now) passes.now e.turns e.front e.disk) }
    ensures unchanged { IfErr result (λ r. r.1 ≡ locked) }
    ensures cause { IfErr result (λ r. IsAuditCause (held_of opening.now) locked.desk passes.now r.0) }
{
    if let Err(fault) = audit(opening, locked.desk(), passes) {
        return Err((fault, locked));
    }
    let desk = locked.into_desk();
    desk.recall_lawful();
    Ok(end_desk(desk))
}
