//! The reports of chains, in their order.

use crate::lane::counted;
use crate::mark::Kind;
use chains::Chains;
use report_line::{PackedReport, ReportKindView, ReportView};
use std::alloc::{AllocError, Global};

/// What a report is the first one of its process to know: what another process did after its element of this number.
#[derive(Clone, Copy)]
pub(crate) struct Source {
    pub(crate) process: u32,
    pub(crate) element: u32,
}

/// A report.
#[derive(Drop)]
pub(crate) struct Reported {
    /// Which of the accepted reports it is.
    pub(crate) index: u32,
    pub(crate) process: u32,
    pub(crate) epoch: u32,
    pub(crate) kind: Kind,
    /// The process that it made, and the one that it took up.
    pub(crate) child: Option<u32>,
    pub(crate) absorbed: Option<u32>,
    pub(crate) sources: Vec<Source>,
}

/// The reports of a process, by their places in the list of all.
#[derive(Drop)]
pub(crate) struct Line {
    /// Its own, in order.
    pub(crate) reports: Vec<u32>,
    /// Those that made its elements.
    pub(crate) elements: Vec<u32>,
    /// The one that made its present state, while that stands.
    present: Option<u32>,
    /// For each process, up to which of its elements the reports so far know what came after.
    pub(crate) known: Vec<u32>,
}

/// The reports of all processes.
#[derive(Drop)]
pub(crate) struct Reports {
    pub(crate) all: Vec<Reported>,
    pub(crate) lines: Vec<Line>,
}

/// What a report did.
fn kind_of(action: ReportKindView<'_>) -> Kind {
    match action {
        ReportKindView::Check => Kind::Checkpoint,
        ReportKindView::Present => Kind::Present,
        ReportKindView::Retire { .. } => Kind::Retirement,
        ReportKindView::Fork(_) | ReportKindView::Absorb { .. } => Kind::Report,
    }
}

/// The child of this name, whose birth a report is.
fn child_of(chains: &Chains, action: ReportKindView<'_>) -> Option<u32> {
    match action {
        ReportKindView::Fork(forked) => chains.number_of(&forked.child),
        _ => None,
    }
}

/// The process that a report took up.
fn absorbed_by(chains: &Chains, action: ReportKindView<'_>) -> Option<u32> {
    match action {
        ReportKindView::Absorb { retired } => chains.number_of(retired),
        _ => None,
    }
}

/// The report of this index.
fn described(chains: &Chains, index: u32, report: &PackedReport) -> Option<Reported> {
    let process = chains.number_of(report.process())?;
    let (kind, child, absorbed) = match report.view() {
        ReportView::Begin { .. } => (Kind::Birth, None, None),
        ReportView::Numbered(fields) => (
            kind_of(fields.action),
            child_of(chains, fields.action),
            absorbed_by(chains, fields.action),
        ),
    };
    Some(Reported {
        index,
        process,
        epoch: chains.epoch_at(index).unwrap_or(0),
        kind,
        child,
        absorbed,
        sources: Vec::new(chains.alloc()),
    })
}

impl Line {
    /// No reports, where there are so many processes.
    fn new(alloc: Global, processes: usize) -> Result<Line, AllocError> {
        let known = Vec::from_elem(alloc, 0, processes)?;
        Ok(Line {
            reports: Vec::new(alloc),
            elements: Vec::new(alloc),
            present: None,
            known,
        })
    }

    /// Notes its own report, which stands there.
    fn note(&mut self, kind: Kind, place: u32) -> Result<(), AllocError> {
        self.present = None;
        match kind {
            Kind::Birth => {
                self.elements.push(place)?;
                return Ok(());
            }
            Kind::Checkpoint => self.elements.push(place)?,
            Kind::Present => self.present = Some(place),
            Kind::Passed | Kind::Retirement | Kind::Report | Kind::Event => {}
        }
        self.reports.push(place)?;
        Ok(())
    }

    /// Its present state is an element, too.
    fn end(&mut self) -> Result<(), AllocError> {
        match self.present {
            None => Ok(()),
            Some(place) => {
                self.elements.push(place)?;
                Ok(())
            }
        }
    }
}

impl Reports {
    /// Notes the report that stands there, as one of this process.
    fn note(&mut self, process: u32, kind: Kind, place: u32) -> Result<(), AllocError> {
        match self.lines.get_mut(process as usize) {
            None => Ok(()),
            Some(line) => line.note(kind, place),
        }
    }

    /// Adds a report.
    fn add(&mut self, report: Reported) -> Result<(), AllocError> {
        let place = counted(self.all.len());
        let (process, kind, child) = (report.process, report.kind, report.child);
        self.all.push(report)?;
        self.note(process, kind, place)?;
        match child {
            None => Ok(()),
            Some(child) => self.note(child, Kind::Birth, place),
        }
    }

    /// Adds the accepted report of this index.
    fn add_accepted(&mut self, chains: &Chains, index: u32) -> Result<(), AllocError> {
        let Some(report) = chains.report(index) else {
            return Ok(());
        };
        match described(chains, index, report) {
            None => Ok(()),
            Some(report) => self.add(report),
        }
    }

    /// Adds all lines, and then all reports to them.
    fn add_all(&mut self, chains: &Chains) -> Result<(), AllocError> {
        for _ in 0..chains.count() {
            let line = Line::new(chains.alloc(), chains.count() as usize)?;
            self.lines.push(line)?;
        }
        for index in 0..chains.front() {
            self.add_accepted(chains, index)?;
        }
        for line in self.lines.iter_mut() {
            line.end()?;
        }
        Ok(())
    }

    /// The reports that these chains have.
    pub(crate) fn of(chains: &Chains) -> Result<Reports, AllocError> {
        let mut reports = Reports {
            all: Vec::new(chains.alloc()),
            lines: Vec::new(chains.alloc()),
        };
        let Ok(()) = reports.add_all(chains) else {
            drop(reports);
            return Err(AllocError);
        };
        Ok(reports)
    }

    /// The place of the report that made this element.
    pub(crate) fn maker(&self, source: Source) -> Option<u32> {
        if source.element == 0 {
            return None;
        }
        let line = self.lines.get(source.process as usize)?;
        let place = line.elements.get(source.element as usize - 1)?;
        Some(*place)
    }
}
