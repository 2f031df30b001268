//! A world.

ghost use Rattle.std.specs.Prelude.{◌≡◌, ◌≢◌, ◌++◌, [], Some, None, OnOk, OnErr, IfOk, IfErr};
ghost use Rattle.std.specs.List.{cons_option};
ghost use Rattle.report_line.specs.histories.Lawful.{IsLawful};
ghost use Rattle.report_line.specs.histories.StepReports.{reports};
ghost use Rattle.law_lines.specs.Places.{IsPremise};
ghost use Rattle.law_admission.specs.HandedOver.{IsReportable};
ghost use Rattle.driver.specs.Lines.{reported};
ghost use Rattle.driver.specs.Stamping.{Takes};
ghost use Rattle.driver.specs.Verdicts.{IsVerdict};
ghost use Rattle.driver.specs.working.Stepping.{IsStepTaken};
ghost use Rattle.driver.specs.working.Tables.{AreSound};
ghost use Rattle.driver.specs.working.Seen.{chronicle_in};
ghost use Rattle.driver.specs.Settling.{HasUnknownName, IsClosedLine, Settles, RefusesLine};

use crate::beginning::begun;
use crate::fault::StepFault;
use crate::line::NamedPosition;
use crate::settling::settle_on;
use crate::step::{Step, StepRequest};
use crate::steps::{absorb, check, fork, present, receive, retire, send, work};
use crate::tables::Tables;
use report_line::{Name, Report};
use std::alloc::{AllocError, Global};
use std::marker::Model;

/// Processes that stamp their steps by the rules, from one root on; seen as the root, the present epoch and the history.
pub struct World {
    alloc: Global,
    tables: Tables,
}

impl Drop for World {
    fn drop(self) {
        let World {
            alloc: _,
            tables: _,
        } = self;
    }
}

impl Model for World {
    ghost use Rattle.driver.specs.Chronicle.{Chronicle};
    ghost use Rattle.driver.specs.working.Codes.{chronicle_code};

    ghost Value = { Chronicle };

    ghost coded = { chronicle_code };

    ghost use Rattle.driver.specs.working.Tables.{AreSound};
    ghost use Rattle.driver.specs.working.Seen.{chronicle_in};

    ghost view = { λ w. chronicle_in w.tables };

    ghost invariant = { λ w. AreSound w.tables };
}

impl World {
    /// A world with its root alone, which begins.
    pub fn start(alloc: Global, root: Name) -> Result<(World, Report), AllocError>
        ensures world { IfOk result (λ begun. begun.0 ≡ record { root = root; epoch = 0; history = [] }) }
        ensures report { IfOk result (λ begun. begun.1 ≡ Report.Begin root) }
    {
        let process = root.copy();
        let tables = begun(alloc, root, 0)?;
        Ok((World { alloc, tables }, Report::Begin { process }))
    }

    /// Tells a proof what holds of each world: its history is a lawful one of its root, what it reported has lines, and that folds
    /// and agrees with the history.
    pub fn recall_lawful(&self)
        ensures lawful { IsLawful self.now.root self.now.history }
        ensures reportable { IsReportable self.now.root self.now.history }
        ensures premise { IsPremise self.now.root self.now.history (reported self.now) }
    {
        let _tables = &self.tables;
    }

    /// Takes the step that is asked, stamped by the rules. Answers its report, if the step is reported. A refused step
    /// leaves the world as it was; the fault is the first that applies, but for `Memory`, which may come in place of any.
    pub fn step(&mut self, asked: Step) -> Result<Option<Report>, StepFault>
        ensures step { IfOk result (λ given. Takes self.old asked self.new given) }
        ensures reports { IfOk result (λ given. reports self.new.root self.new.history ≡ reports self.old.root self.old.history ++ cons_option given []) }
        ensures accepted { OnOk result (IsVerdict self.old.root self.old.history asked.process asked.request None) }
        ensures refused { IfErr result (λ fault. fault ≢ StepFault.Memory → IsVerdict self.old.root self.old.history asked.process asked.request (Some fault)) }
        ensures unchanged { OnErr result (self.new ≡ self.old) }
    {
        take_step(self.alloc, &mut self.tables, &asked)
    }

    /// How many settlements there were.
    pub fn epoch(&self) -> u32
        ensures { result ≡ self.now.epoch }
    {
        self.tables.epoch
    }

    /// Returns all processes to a line, where these failed. Each event behind the line is undone, and what it sent, made and
    /// absorbed is forgotten. A process that the line does not name is to be unborn; where its fork is kept all the same, it is at
    /// its birth.
    ///
    /// `Unknown` where a name is that of no process; else `NotClosed` where the line is not a closed one; `Memory` may come in
    /// place of any. A refused settlement leaves the world as it was.
    pub fn settle(&mut self, failed: &[Name], line: &[NamedPosition]) -> Result<(), StepFault>
        ensures known { OnOk result (¬ HasUnknownName self.old failed.now line.now) }
        ensures closed { OnOk result (IsClosedLine self.old failed.now line.now) }
        ensures settled { OnOk result (Settles self.old line.now self.new) }
        ensures refused { IfErr result (λ fault. RefusesLine self.old failed.now line.now fault) }
        ensures unchanged { OnErr result (self.new ≡ self.old) }
    {
        settle_on(self.alloc, &mut self.tables, failed, line)
    }
}

// The step that is asked, made and added.
fn take_step(alloc: Global, tables: &mut Tables, asked: &Step) -> Result<Option<Report>, StepFault>
    requires { AreSound tables.old }
    ensures { IsStepTaken tables.old asked.now tables.new result }
{
    match &asked.request {
        StepRequest::Work => work(alloc, tables, asked),
        StepRequest::Check => check(alloc, tables, asked),
        StepRequest::Present => present(alloc, tables, asked),
        StepRequest::Send { message } => send(alloc, tables, asked, message),
        StepRequest::Receive { message } => receive(alloc, tables, asked, message),
        StepRequest::Fork { child } => fork(alloc, tables, asked, child),
        StepRequest::Retire { target } => retire(alloc, tables, asked, target),
        StepRequest::Absorb { retired } => absorb(alloc, tables, asked, retired),
    }
}
