//! The steps of a script in a scene.

use crate::lane::counted;
use crate::mark::Kind;
use crate::scene::{Arrow, Scene, Sent, Spot, Tie};
use crate::telling::Said;
use driver::{NamedPosition, Step, StepRequest};
use indexmap::IndexMap;
use report_line::{Name, PackedReport};
use std::alloc::{AllocError, Global};

/// The scene of a script so far.
pub(crate) struct Scripted {
    pub(crate) scene: Scene,
    /// The row of each name, of those that had it the last one.
    rows: IndexMap<Name, u32>,
    /// Which of those that were sent each message is.
    messages: IndexMap<Name, u32>,
}

impl Drop for Scripted {
    fn drop(self) {
        let Scripted {
            scene: _,
            rows: _,
            messages: _,
        } = self;
    }
}

impl Scripted {
    /// A root at its birth, by the report of it.
    pub(crate) fn begun(
        alloc: Global,
        root: &Name,
        report: &PackedReport,
        tells: bool,
    ) -> Result<Scripted, AllocError> {
        let mut scripted = Scripted {
            scene: Scene::new(alloc, tells),
            rows: IndexMap::new(alloc),
            messages: IndexMap::new(alloc),
        };
        let Ok(()) = scripted.begin(root, report) else {
            drop(scripted);
            return Err(AllocError);
        };
        Ok(scripted)
    }

    /// Notes the birth of the root, by the report of it.
    fn begin(&mut self, root: &Name, report: &PackedReport) -> Result<(), AllocError> {
        let said = self.scene.texts.report(0, report)?;
        self.bear(root, 0, said)?;
        Ok(())
    }

    /// A process is born right behind this column.
    fn bear(&mut self, name: &Name, behind: u32, said: Said) -> Result<Spot, AllocError> {
        let row = self.scene.add(name.copy())?;
        self.rows.insert(name.copy(), row)?;
        let spot = self.scene.next(row, behind);
        self.scene.mark(spot, Kind::Birth, said)?;
        Ok(spot)
    }

    /// The row of this process, if there is one.
    fn row_of(&self, process: &Name) -> Option<u32> {
        let row = self.rows.get(process)?;
        Some(*row)
    }

    /// The last step of this process.
    fn last_of(&self, process: &Name) -> Option<Spot> {
        self.scene.last_of(self.row_of(process)?)
    }

    /// What was sent under this name, and which of the messages it is.
    fn message(&self, name: &Name) -> Option<(u32, Sent)> {
        let which = *self.messages.get(name)?;
        let sent = *self.scene.sent.get(which as usize)?;
        Some((which, sent))
    }

    /// The step that this one comes right behind, of another process.
    fn behind(&self, request: &StepRequest) -> Option<Spot> {
        match request {
            StepRequest::Receive { message } => {
                let (_, sent) = self.message(message)?;
                Some(sent.spot)
            }
            StepRequest::Absorb { retired } => self.last_of(retired),
            StepRequest::Work
            | StepRequest::Check
            | StepRequest::Present
            | StepRequest::Send { .. }
            | StepRequest::Fork { .. }
            | StepRequest::Retire { .. } => None,
        }
    }

    /// Notes that a message was sent.
    fn send(&mut self, name: &Name, spot: Spot) -> Result<(), AllocError> {
        let which = counted(self.scene.sent.len());
        let said = self.scene.texts.name(name)?;
        self.messages.insert(name.copy(), which)?;
        self.scene.sent.push(Sent {
            spot,
            said,
            receipts: 0,
            is_undone: false,
        })?;
        Ok(())
    }

    /// Notes that a message was received.
    fn receive(&mut self, name: &Name, spot: Spot) -> Result<(), AllocError> {
        let Some((which, sent)) = self.message(name) else {
            return Ok(());
        };
        if let Some(sent) = self.scene.sent.get_mut(which as usize) {
            sent.receipts = sent.receipts.saturating_add(1);
        }
        self.scene.arrows.push(Arrow {
            tie: Tie::Message,
            from: sent.spot,
            to: spot,
            said: sent.said,
            message: Some(which),
            element: 0,
            is_to_element: false,
            is_undone: false,
        })?;
        Ok(())
    }

    /// Notes a fork, of which the child has this to tell.
    fn fork(&mut self, child: &Name, spot: Spot, said: Said) -> Result<(), AllocError> {
        let birth = self.bear(child, spot.column, said)?;
        self.scene.tie(Tie::Fork, spot, birth)
    }

    /// Notes what a step has to do with other processes, which comes right behind that of one of them, if it does.
    fn join(
        &mut self,
        spot: Spot,
        request: &StepRequest,
        behind: Option<Spot>,
        child: Said,
    ) -> Result<(), AllocError> {
        match request {
            StepRequest::Send { message } => self.send(message, spot),
            StepRequest::Receive { message } => self.receive(message, spot),
            StepRequest::Fork { child: name } => self.fork(name, spot, child),
            StepRequest::Absorb { .. } => match behind {
                None => Ok(()),
                Some(from) => self.scene.tie(Tie::Absorption, from, spot),
            },
            StepRequest::Work
            | StepRequest::Check
            | StepRequest::Present
            | StepRequest::Retire { .. } => Ok(()),
        }
    }

    /// Notes a step that a world took, with what it has to tell, and its child where it made one.
    pub(crate) fn note(&mut self, step: &Step, said: Said, child: Said) -> Result<(), AllocError> {
        let Some(row) = self.row_of(&step.process) else {
            return Ok(());
        };
        let behind = self.behind(&step.request);
        let spot = self.scene.next(row, column_of(behind));
        self.scene.mark(spot, kind_of(&step.request), said)?;
        self.join(spot, &step.request, behind, child)
    }

    /// Notes that all processes that are known returned to a line, which has their positions in order of birth.
    pub(crate) fn settle(&mut self, line: &[NamedPosition]) -> Result<(), AllocError> {
        self.scene.settle(line)
    }
}

/// The column of a step, if there is one.
fn column_of(spot: Option<Spot>) -> u32 {
    match spot {
        None => 0,
        Some(spot) => spot.column,
    }
}

/// What a step is.
fn kind_of(request: &StepRequest) -> Kind {
    match request {
        StepRequest::Check => Kind::Checkpoint,
        StepRequest::Present => Kind::Present,
        StepRequest::Retire { .. } => Kind::Retirement,
        StepRequest::Fork { .. } | StepRequest::Absorb { .. } => Kind::Report,
        StepRequest::Work | StepRequest::Send { .. } | StepRequest::Receive { .. } => Kind::Event,
    }
}
