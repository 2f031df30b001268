//! What is noted of a process that a line names, while the steps of a history are gone over.

ghost use Rattle.std.specs.Prelude.{◌≡◌, nat_eq};
ghost use Rattle.driver.specs.working.Marks.{fresh, lasts, reports, own, last_kept, stands, reaches};

use chains::Position;
use report_line::StepKind;

/// A process of a line, and what the steps so far say of it. Events are named by their numbers.
#[derive(Clone, Copy)]
pub(crate) struct Mark {
    /// Where it is to return to.
    pub(crate) position: Position,
    /// Whether it failed.
    pub(crate) failed: bool,
    /// How many elements that last are still to come up to its position.
    pub(crate) missing: u32,
    /// The event of the newest of those that came.
    pub(crate) newest: usize,
    /// The event of its present state, where that is its last report.
    pub(crate) present: Option<usize>,
    /// Whether its last report is its retirement.
    pub(crate) retired: bool,
}

impl Mark {
    // Before its birth.
    pub(crate) fn fresh(position: Position) -> Mark
        ensures { result ≡ fresh position }
    {
        let missing = match position {
            Position::At(k) => k,
            Position::Retired => 0,
        };
        Mark {
            position,
            failed: false,
            missing,
            newest: 0,
            present: None,
            retired: false,
        }
    }

    // With an element that lasts, made by this event.
    pub(crate) fn lasts(self, number: usize) -> Mark
        ensures { result ≡ lasts number self }
    {
        if self.missing == 0 {
            return self;
        }
        Mark {
            missing: self.missing - 1,
            newest: number,
            ..self
        }
    }

    // With a report, which may be its present state or its retirement.
    fn reports(self, present: Option<usize>, retired: bool) -> Mark
        ensures { result ≡ reports present retired self }
    {
        Mark {
            present,
            retired,
            ..self
        }
    }

    // With a step of its own, by this event.
    pub(crate) fn own(self, step_kind: &StepKind, number: usize) -> Mark
        ensures { result ≡ own step_kind.now number self }
    {
        match step_kind {
            StepKind::Work => self,
            StepKind::Check => self.reports(None, false).lasts(number),
            StepKind::Present => self.reports(Some(number), false),
            StepKind::Send { .. } => self,
            StepKind::Receive { .. } => self,
            StepKind::Fork { .. } => self.reports(None, false),
            StepKind::Retire { .. } => self.reports(None, true),
            StepKind::Absorb { .. } => self.reports(None, false),
        }
    }

    // The last event up to its position, where that is an element.
    fn last_kept(&self) -> usize
        ensures { result ≡ last_kept self.now }
    {
        if self.missing == 0 {
            return self.newest;
        }
        match self.present {
            Some(number) => number,
            None => 0,
        }
    }

    // Whether it has this position, and may return to it.
    pub(crate) fn stands(&self) -> bool
        ensures { result ≡ stands self.now }
    {
        match self.position {
            Position::At(_) => {
                self.missing == 0 || (self.missing == 1 && self.present.is_some() && !self.failed)
            }
            Position::Retired => self.retired,
        }
    }

    // Whether the event of this number is up to its position.
    pub(crate) fn reaches(&self, number: usize) -> bool
        ensures { result ≡ reaches self.now number }
    {
        match self.position {
            Position::At(k) => k != 0 && number <= self.last_kept(),
            Position::Retired => true,
        }
    }
}
