//! Where things stand in a picture, in pixels.

ghost use Rattle.std.specs.Prelude.{◌<◌, ◌≤◌, ◌^◌};

use crate::lane::{Lane, counted};
use crate::scene::{Scene, Spot, Tie};
use chains::Position;

/// The width of a column, and the one where the numbers of elements have three digits or more, or where arrows end at elements.
const COLUMN: u64 = 24;

const WIDE_COLUMN: u64 = 40;
/// The height of a line.
const LANE: u64 = 56;
/// What stands above the first line, and where the words of settlements stand there.
const TOP: u64 = 30;

const TOP_OF_SETTLED: u64 = 52;

/// The measures of a picture.
#[derive(Clone, Copy)]
pub(crate) struct Frame {
    /// Where the first column begins, behind the names.
    left: u32,
    lanes: u32,
    /// The last column.
    last: u32,
    is_wide: bool,
    /// Whether the numbers of elements have three digits or more.
    is_long: bool,
    is_settled: bool,
}

/// The line of a process in a picture.
#[derive(Clone, Copy)]
pub(crate) struct Row<'a> {
    frame: Frame,
    pub(crate) lane: &'a Lane,
    number: u32,
    /// The last column in front of the line that crosses it, if one is.
    kept: Option<u32>,
}

/// A scene with a line through its processes.
#[derive(Clone, Copy)]
pub(crate) struct View<'a> {
    pub(crate) frame: Frame,
    pub(crate) scene: &'a Scene,
    /// The position of each row in the line, if its process is known.
    pub(crate) positions: &'a [Option<Position>],
}

/// The length of the longest name.
fn longest_name(lanes: &[Lane]) -> usize {
    let mut longest = 0;
    for lane in lanes {
        longest = lane.name.as_bytes().len().max(longest);
    }
    longest
}

/// Whether a process has elements whose numbers have three digits or more.
fn has_long_numbers(scene: &Scene) -> bool {
    for mark in &scene.marks {
        if mark.element > 99 {
            return true;
        }
    }
    false
}

/// Whether arrows end at elements.
fn has_knowledge(scene: &Scene) -> bool {
    for arrow in &scene.arrows {
        if arrow.tie == Tie::Knowledge {
            return true;
        }
    }
    false
}

impl Frame {
    /// The measures for these steps.
    pub(crate) fn of(scene: &Scene) -> Frame {
        let letters = longest_name(&scene.lanes).min(32) as u32;
        let is_long = has_long_numbers(scene);
        Frame {
            left: 4 + 8 * letters,
            lanes: counted(scene.lanes.len()),
            last: scene.last,
            is_wide: is_long || has_knowledge(scene),
            is_long,
            is_settled: !scene.settlements.is_empty(),
        }
    }

    /// The middle of a column.
    pub(crate) fn x(self, column: u32) -> u64
        ensures low { 12 ≤ result }
        ensures high { result < 2 ^ 40 }
    {
        if self.is_wide {
            self.left as u64 + WIDE_COLUMN * column as u64 + WIDE_COLUMN / 2
        } else {
            self.left as u64 + COLUMN * column as u64 + COLUMN / 2
        }
    }

    /// The middle of a line.
    pub(crate) fn y(self, lane: u32) -> u64
        ensures low { 58 ≤ result }
        ensures high { result < 2 ^ 40 }
    {
        if self.is_settled {
            TOP_OF_SETTLED + LANE * lane as u64 + LANE / 2
        } else {
            TOP + LANE * lane as u64 + LANE / 2
        }
    }

    /// How far behind an element the recovery line stands.
    fn behind(self) -> u64
        ensures { result ≤ 20 }
    {
        if self.is_long { 20 } else { 13 }
    }

    /// How far behind an element the line of a settlement stands.
    fn settled_behind(self) -> u64
        ensures { result ≤ 16 }
    {
        if self.is_long { 16 } else { 9 }
    }

    /// Where something right behind an element and its lines begins.
    pub(crate) fn behind_lines(self, column: u32) -> u64
        ensures { result < 2 ^ 41 }
    {
        self.x(column) + self.behind() + 3
    }

    /// Where what stands behind the last column ends.
    pub(crate) fn right(self) -> u64
        ensures { result < 2 ^ 41 }
    {
        self.x(self.last) + 40
    }

    /// Where the last line ends.
    pub(crate) fn bottom(self) -> u64
        ensures { result < 2 ^ 41 }
    {
        self.y(self.lanes) - 20
    }

    /// Where the recovery line crosses the line of a process of which it keeps what is up to this column, or nothing.
    fn crossing(self, lane: &Lane, column: Option<u32>) -> u64
        ensures { result < 2 ^ 41 }
    {
        match column {
            Some(column) => self.x(column) + self.behind(),
            None => self.x(lane.birth).saturating_sub(self.behind()),
        }
    }

    /// The same for the line of a settlement.
    pub(crate) fn settled_crossing(self, lane: &Lane, column: Option<u32>) -> u64
        ensures { result < 2 ^ 41 }
    {
        match column {
            Some(column) => self.x(column) + self.settled_behind(),
            None => self.x(lane.birth).saturating_sub(self.settled_behind()),
        }
    }

    /// Where a step stands.
    pub(crate) fn at(self, spot: Spot) -> (u64, u64) {
        (self.x(spot.column), self.y(spot.lane))
    }
}

impl<'a> View<'a> {
    /// The line of the process in the row of this number.
    pub(crate) fn row(self, number: u32) -> Option<Row<'a>> {
        let lane = self.scene.lanes.get(number as usize)?;
        let position = match self.positions.get(number as usize) {
            None => None,
            Some(position) => *position,
        };
        let kept = match position {
            None => None,
            Some(position) => lane.column_of(position),
        };
        Some(Row {
            frame: self.frame,
            lane,
            number,
            kept,
        })
    }

    /// Whether this step is behind the line.
    pub(crate) fn is_undone(self, spot: Spot) -> bool {
        match self.row(spot.lane) {
            None => false,
            Some(row) => row.is_undone(spot.column),
        }
    }

    /// How many rows there are.
    pub(crate) fn rows(self) -> u32 {
        counted(self.scene.lanes.len())
    }
}

impl<'a> Row<'a> {
    /// The middle of the line.
    pub(crate) fn y(self) -> u64
        ensures low { 58 ≤ result }
        ensures high { result < 2 ^ 40 }
    {
        self.frame.y(self.number)
    }

    /// The middle of a column.
    pub(crate) fn x(self, column: u32) -> u64
        ensures low { 12 ≤ result }
        ensures high { result < 2 ^ 40 }
    {
        self.frame.x(column)
    }

    /// Where the line crosses it.
    pub(crate) fn crossing(self) -> u64
        ensures { result < 2 ^ 41 }
    {
        self.frame.crossing(self.lane, self.kept)
    }

    /// Where what is in front of the line ends, with the mark of the last element left out.
    pub(crate) fn front(self) -> u64
        ensures { result < 2 ^ 40 }
    {
        match self.kept {
            None => 0,
            Some(column) => self.x(column).saturating_sub(8),
        }
    }

    /// Where a life begins or ends: in the middle of this column, or behind it.
    pub(crate) fn turn(self, column: u32, is_behind: bool) -> u64
        ensures { result < 2 ^ 41 }
    {
        if is_behind {
            self.frame.settled_crossing(self.lane, Some(column))
        } else {
            self.frame.x(column)
        }
    }

    /// Whether the process's step in this column is behind the line.
    pub(crate) fn is_undone(self, column: u32) -> bool {
        match self.kept {
            None => true,
            Some(kept) => column > kept,
        }
    }
}
