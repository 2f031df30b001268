//! The reports of chains in a scene: each stands behind what it knows.

use crate::lane::counted;
use crate::mark::Kind;
use crate::reported::{Reported, Reports, Source};
use crate::scene::{Arrow, Scene, Spot, Tie};
use crate::telling::Said;
use chains::Chains;
use std::alloc::{AllocError, Global};

/// How far the reports of a process stand in the scene.
#[derive(Clone, Copy)]
struct Reach {
    /// How many of them do.
    reports: usize,
    /// How many sources of the next one do.
    sources: usize,
}

/// A scene, and how far the reports stand in it.
#[derive(Drop)]
struct Placing {
    scene: Scene,
    reaches: Vec<Reach>,
    /// The column of each report, or 0 before it has one.
    columns: Vec<u32>,
    /// Before this one each has one.
    first: usize,
    /// Only reports up to this epoch have their turn.
    epoch: u32,
}

impl Placing {
    /// A scene without rows.
    fn new(alloc: Global) -> Placing {
        Placing {
            scene: Scene::new(alloc, true),
            reaches: Vec::new(alloc),
            columns: Vec::new(alloc),
            first: 0,
            epoch: 0,
        }
    }

    /// Adds a row for each process.
    fn add_rows(&mut self, chains: &Chains) -> Result<(), AllocError> {
        for process in 0..chains.count() {
            self.scene.add(chains.name_of(process).copy())?;
        }
        Ok(())
    }

    /// Notes that none of the reports stands in the scene.
    fn begin(&mut self, chains: &Chains, reports: &Reports) -> Result<(), AllocError> {
        let reach = Reach {
            reports: 0,
            sources: 0,
        };
        self.reaches = Vec::from_elem(chains.alloc(), reach, reports.lines.len())?;
        self.columns = Vec::from_elem(chains.alloc(), 0, reports.all.len())?;
        Ok(())
    }

    /// The column of the report at this place, once it has one.
    fn column(&self, place: u32) -> Option<u32> {
        match self.columns.get(place as usize) {
            None => None,
            Some(column) => if *column == 0 { None } else { Some(*column) },
        }
    }

    /// The step that made this element, once it stands in the scene.
    fn spot_of(&self, reports: &Reports, source: Source) -> Option<Spot> {
        let lane = self.scene.lanes.get(source.process as usize)?;
        if !lane.is_born {
            return None;
        }
        let column = if source.element == 1 {
            lane.birth
        } else {
            self.column(reports.maker(source)?)?
        };
        Some(Spot {
            lane: source.process,
            column,
        })
    }

    /// The end of the process that a report absorbed, once it stands in the scene.
    fn end_of(&self, absorbed: u32) -> Option<Spot> {
        let lane = self.scene.lanes.get(absorbed as usize)?;
        if !lane.is_retired {
            return None;
        }
        self.scene.last_of(absorbed)
    }

    /// How many of these sources stand in the scene, where the first ones do.
    fn reached(&self, reports: &Reports, sources: &[Source], first: usize) -> usize {
        let mut reached = first;
        for _ in first..sources.len() {
            match sources.get(reached) {
                None => return reached,
                Some(source) => {
                    if self.spot_of(reports, *source).is_none() {
                        return reached;
                    }
                }
            }
            reached = reached.saturating_add(1);
        }
        reached
    }

    /// Whether a report may be placed, all of whose sources stand in the scene.
    fn may_be_placed(&self, report: &Reported) -> bool {
        if report.epoch > self.epoch {
            return false;
        }
        match report.absorbed {
            None => true,
            Some(absorbed) => self.end_of(absorbed).is_some(),
        }
    }

    /// The next report of a process, if it may be placed.
    fn due(&mut self, reports: &Reports, process: u32) -> Option<u32> {
        let reach = *self.reaches.get(process as usize)?;
        let line = reports.lines.get(process as usize)?;
        let place = *line.reports.get(reach.reports)?;
        let report = reports.all.get(place as usize)?;
        if !self.scene.lanes.get(process as usize)?.is_born {
            return None;
        }
        let sources = self.reached(reports, &report.sources, reach.sources);
        let moved = self.reaches.get_mut(process as usize)?;
        moved.sources = sources;
        if sources < report.sources.len() || !self.may_be_placed(report) {
            return None;
        }
        Some(place)
    }

    /// The greatest column of what a report comes right behind.
    fn behind(&self, reports: &Reports, report: &Reported) -> u32 {
        let mut behind = match report.absorbed {
            None => 0,
            Some(absorbed) => column_of(self.end_of(absorbed)),
        };
        for source in &report.sources {
            behind = behind.max(column_of(self.spot_of(reports, *source)));
        }
        behind
    }

    /// Notes the child that a report made.
    fn bear(&mut self, parent: Spot, child: u32, said: Said) -> Result<(), AllocError> {
        let birth = self.scene.next(child, parent.column);
        self.scene.mark(birth, Kind::Birth, said)?;
        self.scene.tie(Tie::Fork, parent, birth)
    }

    /// Notes what a report has to do with its family.
    fn join(&mut self, chains: &Chains, spot: Spot, report: &Reported) -> Result<(), AllocError> {
        if let Some(child) = report.child
            && let Some(fork) = chains.report(report.index)
        {
            let said = self.scene.texts.child(report.epoch, fork)?;
            self.bear(spot, child, said)?;
        }
        if let Some(absorbed) = report.absorbed
            && let Some(end) = self.end_of(absorbed)
        {
            self.scene.tie(Tie::Absorption, end, spot)?;
        }
        Ok(())
    }

    /// Notes that the report at this place stands in this column.
    fn count(&mut self, place: u32, process: u32, kind: Kind, column: u32) {
        if let Some(at) = self.columns.get_mut(place as usize) {
            *at = column;
        }
        if kind != Kind::Birth
            && let Some(reach) = self.reaches.get_mut(process as usize)
        {
            reach.reports = reach.reports.saturating_add(1);
            reach.sources = 0;
        }
    }

    /// Places the report at this place.
    fn put(&mut self, chains: &Chains, reports: &Reports, place: u32) -> Result<(), AllocError> {
        let Some(report) = reports.all.get(place as usize) else {
            return Ok(());
        };
        let said = match chains.report(report.index) {
            None => Said::nothing(),
            Some(packed) => self.scene.texts.report(report.epoch, packed)?,
        };
        let behind = self.behind(reports, report);
        let spot = self.scene.next(report.process, behind);
        self.scene.mark(spot, report.kind, said)?;
        self.count(place, report.process, report.kind, spot.column);
        self.join(chains, spot, report)
    }

    /// Places the next reports of a process that may be placed. Answers whether there was one.
    fn go_on(
        &mut self,
        chains: &Chains,
        reports: &Reports,
        process: u32,
    ) -> Result<bool, AllocError> {
        let mut moved = false;
        for _ in 0..chains.front() {
            let Some(place) = self.due(reports, process) else {
                return Ok(moved);
            };
            self.put(chains, reports, place)?;
            moved = true;
        }
        Ok(moved)
    }

    /// The same for each process.
    fn go_round(&mut self, chains: &Chains, reports: &Reports) -> Result<bool, AllocError> {
        let mut moved = false;
        for process in 0..chains.count() {
            if self.go_on(chains, reports, process)? {
                moved = true;
            }
        }
        Ok(moved)
    }

    /// The first report that is not placed.
    fn first_left(&mut self) -> Option<u32> {
        for _ in self.first..self.columns.len() {
            if *self.columns.get(self.first)? == 0 {
                return Some(counted(self.first));
            }
            self.first = self.first.saturating_add(1);
        }
        None
    }

    /// Goes on where no report may be placed: to the next epoch, or with the first report that is left, though something that it knows
    /// is not placed yet, as in no lawful history. Answers whether there is more to do.
    fn go_past(&mut self, chains: &Chains, reports: &Reports) -> Result<bool, AllocError> {
        if let Some(place) = self.first_left()
            && let Some(report) = reports.all.get(place as usize)
            && report.epoch <= self.epoch
        {
            self.put(chains, reports, place)?;
            return Ok(true);
        }
        if self.epoch >= chains.epoch() {
            return Ok(false);
        }
        self.epoch = self.epoch.saturating_add(1);
        self.scene.settle_somewhere()?;
        Ok(true)
    }

    /// Places all reports.
    fn go_through(&mut self, chains: &Chains, reports: &Reports) -> Result<(), AllocError> {
        for _ in 0..u32::MAX {
            if !self.go_round(chains, reports)? && !self.go_past(chains, reports)? {
                return Ok(());
            }
        }
        Ok(())
    }

    /// Notes an arrow to this report from each of its sources.
    fn tie(&mut self, reports: &Reports, report: &Reported, to: Spot) -> Result<(), AllocError> {
        let is_to_element = !matches!(report.kind, Kind::Report | Kind::Retirement);
        for source in &report.sources {
            if let Some(from) = self.spot_of(reports, *source) {
                self.scene.arrows.push(Arrow {
                    tie: Tie::Knowledge,
                    from,
                    to,
                    said: Said::nothing(),
                    message: None,
                    element: source.element,
                    is_to_element,
                    is_undone: false,
                })?;
            }
        }
        Ok(())
    }

    /// Notes an arrow to each report from each of its sources.
    fn tie_all(&mut self, reports: &Reports) -> Result<(), AllocError> {
        for place in 0..counted(reports.all.len()) {
            if let Some(report) = reports.all.get(place as usize)
                && let Some(column) = self.column(place)
            {
                let to = Spot {
                    lane: report.process,
                    column,
                };
                self.tie(reports, report, to)?;
            }
        }
        Ok(())
    }

    /// Adds all reports, in rows of their processes, with arrows between them.
    fn add_all(&mut self, chains: &Chains, reports: &Reports) -> Result<(), AllocError> {
        self.add_rows(chains)?;
        self.begin(chains, reports)?;
        self.go_through(chains, reports)?;
        self.tie_all(reports)
    }
}

/// The column of a step, if there is one.
fn column_of(spot: Option<Spot>) -> u32 {
    match spot {
        None => 0,
        Some(spot) => spot.column,
    }
}

/// The scene of these reports.
pub(crate) fn place_all(chains: &Chains, reports: &Reports) -> Result<Scene, AllocError> {
    let mut placing = Placing::new(chains.alloc());
    let Ok(()) = placing.add_all(chains, reports) else {
        drop(placing);
        return Err(AllocError);
    };
    Ok(placing.scene)
}
