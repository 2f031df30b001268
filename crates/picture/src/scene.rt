//! What a picture shows, whatever failed.

use crate::lane::{Lane, counted};
use crate::mark::{Kind, Mark};
use crate::telling::{Said, Texts};
use chains::{Place, Position};
use driver::NamedPosition;
use report_line::Name;
use std::alloc::{AllocError, Global};

/// How many columns stand at least between two settlements, for the words above them.
const SETTLEMENT_ROOM: u32 = 3;

/// A step of a process.
#[derive(Clone, Copy)]
pub(crate) struct Spot {
    /// The row of the process, from 0 from top to bottom.
    pub(crate) lane: u32,
    pub(crate) column: u32,
}

/// How one step leads to another one.
#[derive(Clone, Copy, PartialEq, Eq)]
pub(crate) enum Tie {
    Message,
    /// From behind an element to a report of another process, the first one that knows what is there.
    Knowledge,
    Fork,
    Absorption,
}

/// A step that leads to another one, of another process or of the same.
#[derive(Clone, Copy)]
pub(crate) struct Arrow {
    pub(crate) tie: Tie,
    pub(crate) from: Spot,
    pub(crate) to: Spot,
    /// The name of the message.
    pub(crate) said: Said,
    /// Which of those that were sent the message is.
    pub(crate) message: Option<u32>,
    /// The number of the element that it comes from behind, of what is known, and whether it leads to an element.
    pub(crate) element: u32,
    pub(crate) is_to_element: bool,
    /// Whether a settlement undid where it leads.
    pub(crate) is_undone: bool,
}

/// A message that was sent.
#[derive(Clone, Copy)]
pub(crate) struct Sent {
    pub(crate) spot: Spot,
    pub(crate) said: Said,
    /// How often it was received, where no settlement undid that.
    pub(crate) receipts: u32,
    /// Whether a settlement undid its sending.
    pub(crate) is_undone: bool,
}

/// Where a process returned to by a settlement.
#[derive(Clone, Copy)]
pub(crate) struct Return {
    pub(crate) lane: u32,
    pub(crate) position: Position,
    /// The column of that position; none where it is unborn.
    pub(crate) column: Option<u32>,
}

/// A settlement.
#[derive(Drop)]
pub(crate) struct Settlement {
    pub(crate) column: u32,
    /// Where each process that was known returned to, in order of birth, where that is told.
    pub(crate) returns: Vec<Return>,
}

/// The steps so far.
pub(crate) struct Scene {
    pub(crate) alloc: Global,
    pub(crate) lanes: Vec<Lane>,
    pub(crate) marks: Vec<Mark>,
    pub(crate) arrows: Vec<Arrow>,
    pub(crate) sent: Vec<Sent>,
    pub(crate) settlements: Vec<Settlement>,
    pub(crate) texts: Texts,
    /// Whether steps and messages tell what they are.
    pub(crate) tells: bool,
    /// The rows of the processes that are known, in order of birth.
    known: Vec<u32>,
    /// The column of the last settlement, behind which each later step stands.
    pub(crate) floor: u32,
    /// The greatest column so far.
    pub(crate) last: u32,
}

impl Drop for Scene {
    fn drop(self) {
        let Scene {
            alloc: _,
            lanes: _,
            marks: _,
            arrows: _,
            sent: _,
            settlements: _,
            texts: _,
            tells: _,
            known: _,
            floor: _,
            last: _,
        } = self;
    }
}

impl Scene {
    /// No steps, which are to tell what they are, or not.
    pub(crate) fn new(alloc: Global, tells: bool) -> Scene {
        Scene {
            alloc,
            lanes: Vec::new(alloc),
            marks: Vec::new(alloc),
            arrows: Vec::new(alloc),
            sent: Vec::new(alloc),
            settlements: Vec::new(alloc),
            texts: Texts::new(alloc),
            tells,
            known: Vec::new(alloc),
            floor: 0,
            last: 0,
        }
    }

    /// A row for a process, below all others.
    pub(crate) fn add(&mut self, name: Name) -> Result<u32, AllocError> {
        let number = counted(self.lanes.len());
        self.known.push(number)?;
        self.lanes.push(Lane::of(self.alloc, name))?;
        Ok(number)
    }

    /// Where the next step of this row stands, which comes right behind its last one and the one in this column.
    pub(crate) fn next(&mut self, lane: u32, behind: u32) -> Spot {
        let last = match self.lanes.get(lane as usize) {
            None => 0,
            Some(lane) => lane.last,
        };
        let column = last.max(self.floor).max(behind).saturating_add(1);
        self.last = self.last.max(column);
        Spot { lane, column }
    }

    /// Notes a step.
    pub(crate) fn mark(&mut self, spot: Spot, kind: Kind, said: Said) -> Result<(), AllocError> {
        let Some(lane) = self.lanes.get_mut(spot.lane as usize) else {
            return Ok(());
        };
        let noted = lane.note(kind, spot.column, self.marks.len())?;
        if let Some(ended) = noted.ended
            && let Some(mark) = self.marks.get_mut(ended)
        {
            mark.kind = Kind::Passed;
        }
        self.marks.push(Mark {
            spot,
            kind,
            element: noted.element,
            is_undone: false,
            said,
        })?;
        Ok(())
    }

    /// Notes an arrow between two processes of one family.
    pub(crate) fn tie(&mut self, tie: Tie, from: Spot, to: Spot) -> Result<(), AllocError> {
        self.arrows.push(Arrow {
            tie,
            from,
            to,
            said: Said::nothing(),
            message: None,
            element: 0,
            is_to_element: tie == Tie::Fork,
            is_undone: false,
        })?;
        Ok(())
    }

    /// The last step of this row.
    pub(crate) fn last_of(&self, lane: u32) -> Option<Spot> {
        let column = self.lanes.get(lane as usize)?.last;
        Some(Spot { lane, column })
    }

    /// The row of the process of this number by order of birth.
    pub(crate) fn lane_of(&self, process: u32) -> Option<u32> {
        let lane = self.known.get(process as usize)?;
        Some(*lane)
    }

    /// The position of each row in a line; none where its process is not known any more.
    pub(crate) fn positions(&self, places: &[Place]) -> Result<Vec<Option<Position>>, AllocError> {
        let mut positions = Vec::from_elem(self.alloc, None, self.lanes.len())?;
        for i in 0..self.known.len() {
            let (lane, place) = (self.known[i], places.get(i));
            if let Some(place) = place
                && let Some(position) = positions.get_mut(lane as usize)
            {
                *position = Some(place.position);
            }
        }
        Ok(positions)
    }

    /// The column of a settlement that comes now.
    fn settlement_column(&self) -> u32 {
        let behind = self.last.saturating_add(1);
        match self.settlements.last() {
            None => behind,
            Some(settlement) => behind.max(settlement.column.saturating_add(SETTLEMENT_ROOM)),
        }
    }

    /// Notes a settlement in this column, by which processes returned so.
    fn note_settlement(&mut self, column: u32, returns: Vec<Return>) -> Result<(), AllocError> {
        self.floor = column;
        self.last = column;
        self.settlements.push(Settlement { column, returns })?;
        Ok(())
    }

    /// Notes that all processes that are known returned to a line, which has their positions in order of birth.
    pub(crate) fn settle(&mut self, line: &[NamedPosition]) -> Result<(), AllocError> {
        let column = self.settlement_column();
        let returns = return_all(self.alloc, &self.known, &mut self.lanes, line, column)?;
        undo(
            &mut self.marks,
            &mut self.arrows,
            &mut self.sent,
            &self.lanes,
        );
        self.known = still_known(self.alloc, &returns)?;
        self.note_settlement(column, returns)
    }

    /// Notes a settlement of which no more is known.
    pub(crate) fn settle_somewhere(&mut self) -> Result<(), AllocError> {
        let column = self.settlement_column();
        self.note_settlement(column, Vec::new(self.alloc))
    }
}

/// The processes in these rows return to the positions of a line, by a settlement in this column.
fn return_all(
    alloc: Global,
    known: &[u32],
    lanes: &mut [Lane],
    line: &[NamedPosition],
    column: u32,
) -> Result<Vec<Return>, AllocError> {
    let mut returns = Vec::new(alloc);
    for i in 0..known.len() {
        let position = match line.get(i) {
            None => Position::At(0),
            Some(named) => named.position,
        };
        if let Some(lane) = lanes.get_mut(known[i] as usize) {
            returns.push(Return {
                lane: known[i],
                position,
                column: lane.column_of(position),
            })?;
            lane.return_to(position, column)?;
        }
    }
    Ok(returns)
}

/// Whether the last settlement undid this step, which was made before it.
fn is_undone(lanes: &[Lane], spot: Spot) -> bool {
    match lanes.get(spot.lane as usize) {
        None => false,
        Some(lane) => lane.is_undone(spot.column),
    }
}

/// Takes back that a message was received.
fn take_back(sent: &mut [Sent], message: Option<u32>) {
    if let Some(which) = message
        && let Some(message) = sent.get_mut(which as usize)
    {
        message.receipts = message.receipts.saturating_sub(1);
    }
}

/// The steps that the last settlement undid are undone, and the arrows to them.
fn undo(marks: &mut [Mark], arrows: &mut [Arrow], sent: &mut [Sent], lanes: &[Lane]) {
    for mark in marks.iter_mut() {
        if is_undone(lanes, mark.spot) {
            mark.is_undone = true;
        }
    }
    for arrow in arrows.iter_mut() {
        if !arrow.is_undone && is_undone(lanes, arrow.to) {
            arrow.is_undone = true;
            take_back(sent, arrow.message);
        }
    }
    for message in sent.iter_mut() {
        if is_undone(lanes, message.spot) {
            message.is_undone = true;
        }
    }
}

/// The rows of those that did not return to before their birth.
fn still_known(alloc: Global, returns: &[Return]) -> Result<Vec<u32>, AllocError> {
    let mut known = Vec::new(alloc);
    for of_process in returns {
        if of_process.column.is_some() {
            known.push(of_process.lane)?;
        }
    }
    Ok(known)
}
