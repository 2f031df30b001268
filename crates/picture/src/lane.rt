//! The line of a process in a picture.

use crate::mark::Kind;
use chains::Position;
use report_line::Name;
use std::alloc::{AllocError, Global};

/// A part of a life, between two columns.
#[derive(Clone, Copy)]
pub(crate) struct Span {
    pub(crate) from: u32,
    pub(crate) to: u32,
    /// Whether it begins or ends behind the mark of its column, where a settlement crosses it.
    pub(crate) is_from_behind: bool,
    pub(crate) is_to_behind: bool,
}

/// A present state: its column, and which of the marks is its own.
#[derive(Clone, Copy)]
pub(crate) struct PresentState {
    column: u32,
    mark: usize,
}

/// What a step did to the line of its process: the number of the element that it made, or 0, and the mark of the present state that it
/// ended.
#[derive(Clone, Copy)]
pub(crate) struct Noted {
    pub(crate) element: u32,
    pub(crate) ended: Option<usize>,
}

/// What a picture shows of a process.
#[derive(Drop)]
pub(crate) struct Lane {
    pub(crate) name: Name,
    pub(crate) is_born: bool,
    /// The columns of its birth and of its checkpoints.
    pub(crate) elements: Vec<u32>,
    /// Its present state, while that stands.
    present: Option<PresentState>,
    pub(crate) birth: u32,
    /// The column of its last step, or of the settlement behind which it goes on.
    pub(crate) last: u32,
    pub(crate) is_retired: bool,
    /// Where its life goes on since the last settlement that undid some of it, and its life before.
    since: u32,
    pub(crate) lives: Vec<Span>,
    /// The last column that the last settlement kept, and whether it kept none.
    kept: u32,
    is_gone: bool,
    /// What settlements undid of its life.
    pub(crate) undone: Vec<Span>,
}

impl Lane {
    /// A process before its birth.
    pub(crate) fn of(alloc: Global, name: Name) -> Lane {
        Lane {
            name,
            is_born: false,
            elements: Vec::new(alloc),
            present: None,
            birth: 0,
            last: 0,
            is_retired: false,
            since: 0,
            lives: Vec::new(alloc),
            kept: u32::MAX,
            is_gone: false,
            undone: Vec::new(alloc),
        }
    }

    /// How many elements stand, the present state left out.
    pub(crate) fn stable(&self) -> u32 {
        counted(self.elements.len())
    }

    /// Notes a step in this column, whose mark is that of this number.
    pub(crate) fn note(
        &mut self,
        kind: Kind,
        column: u32,
        mark: usize,
    ) -> Result<Noted, AllocError> {
        let ended = match self.present {
            None => None,
            Some(present) => Some(present.mark),
        };
        self.last = column;
        match kind {
            Kind::Event => return Ok(unnumbered(None)),
            Kind::Birth => self.be_born(column),
            Kind::Checkpoint => {}
            Kind::Present | Kind::Passed => return Ok(self.be_present(column, mark, ended)),
            Kind::Report => {
                self.present = None;
                return Ok(unnumbered(ended));
            }
            Kind::Retirement => {
                self.present = None;
                self.is_retired = true;
                return Ok(unnumbered(ended));
            }
        }
        self.present = None;
        self.elements.push(column)?;
        Ok(Noted {
            element: self.stable(),
            ended,
        })
    }

    /// Its life begins.
    fn be_born(&mut self, column: u32) {
        self.is_born = true;
        self.birth = column;
        self.since = column;
    }

    /// Notes a present state.
    fn be_present(&mut self, column: u32, mark: usize, ended: Option<usize>) -> Noted {
        self.present = Some(PresentState { column, mark });
        Noted {
            element: self.stable().saturating_add(1),
            ended,
        }
    }

    /// The column of element k; none where it is unborn.
    pub(crate) fn column_of_element(&self, k: u32) -> Option<u32> {
        if k == 0 {
            return None;
        }
        match self.elements.get(k as usize - 1) {
            Some(column) => Some(*column),
            None => match self.present {
                None => None,
                Some(present) => Some(present.column),
            },
        }
    }

    /// The column of this position; none where it is unborn.
    pub(crate) fn column_of(&self, position: Position) -> Option<u32> {
        match position {
            Position::Retired => Some(self.last),
            Position::At(k) => self.column_of_element(k),
        }
    }

    /// Its life since the last settlement that undid some of it.
    pub(crate) fn present_life(&self) -> Option<Span> {
        if self.is_gone {
            return None;
        }
        Some(Span {
            from: self.since,
            to: self.last,
            is_from_behind: false,
            is_to_behind: false,
        })
    }

    /// Whether the last settlement undid the step in this column, which was made before it.
    pub(crate) fn is_undone(&self, column: u32) -> bool {
        self.is_gone || column > self.kept
    }

    /// Returns to a position by a settlement in this column: what is behind it is undone, and it goes on from there.
    pub(crate) fn return_to(&mut self, position: Position, column: u32) -> Result<(), AllocError> {
        match self.column_of(position) {
            None => {
                self.undo_reports(0, None);
                self.undo_lives(None)?;
                self.is_gone = true;
            }
            Some(kept) => {
                self.kept = kept;
                if kept < self.last {
                    let elements = match position {
                        Position::At(k) => k as usize,
                        Position::Retired => self.elements.len(),
                    };
                    self.undo_reports(elements, Some(kept));
                    self.undo_lives(Some(kept))?;
                    self.since = column;
                    self.last = column;
                }
            }
        }
        Ok(())
    }

    /// Undoes the elements but for so many, and the present state and the retirement, where they are behind this column.
    fn undo_reports(&mut self, elements: usize, kept: Option<u32>) {
        self.is_retired = false;
        if let Some(present) = self.present
            && is_behind(present.column, kept)
        {
            self.present = None;
        }
        self.elements.truncate(elements);
    }

    /// Undoes its life behind this column.
    fn undo_lives(&mut self, kept: Option<u32>) -> Result<(), AllocError> {
        let present = Span {
            from: self.since,
            to: self.last,
            is_from_behind: false,
            is_to_behind: false,
        };
        self.lives.push(present)?;
        for _ in 0..self.lives.len() {
            let Some(span) = self.lives.pop() else {
                return Ok(());
            };
            match kept {
                Some(kept) if span.from <= kept => {
                    return part(span, kept, &mut self.lives, &mut self.undone);
                }
                _ => self.undone.push(span)?,
            }
        }
        Ok(())
    }
}

/// What a step did that made no element.
fn unnumbered(ended: Option<usize>) -> Noted {
    Noted { element: 0, ended }
}

/// Whether this column is behind the one that is kept, if one is.
fn is_behind(column: u32, kept: Option<u32>) -> bool {
    match kept {
        None => true,
        Some(kept) => column > kept,
    }
}

/// Parts a life at this column.
fn part(
    span: Span,
    kept: u32,
    lives: &mut Vec<Span>,
    undone: &mut Vec<Span>,
) -> Result<(), AllocError> {
    lives.push(Span {
        from: span.from,
        to: kept,
        is_from_behind: span.is_from_behind,
        is_to_behind: true,
    })?;
    undone.push(Span {
        from: kept,
        to: span.to,
        is_from_behind: true,
        is_to_behind: span.is_to_behind,
    })?;
    Ok(())
}

/// A number of processes or reports, of which there are never so many.
pub(crate) fn counted(number: usize) -> u32 {
    number.min(4_294_967_295) as u32
}
