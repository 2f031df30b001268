//! The marks on the lines of processes.

ghost use Rattle.std.specs.Prelude.{◌<◌, ◌≤◌, ◌^◌};

use crate::canvas::Canvas;
use crate::frame::View;
use crate::mark::{Kind, Mark};
use crate::pen::Pen;
use crate::pen::Piece::{self, Text};
use crate::shapes::{circle, close_text, line, open_text};

/// The radius of the mark of an element.
pub(crate) const ELEMENT: u64 = 6;
/// The radius of the mark of a present state that has passed.
pub(crate) const PASSED: u64 = 4;
/// The radius of the dot of a step that makes no element.
pub(crate) const DOT: u64 = 2;

/// The class of a mark.
fn class_of(kind: Kind, is_undone: bool) -> &'static [u8] {
    match (kind, is_undone) {
        (Kind::Birth | Kind::Checkpoint, false) => b"mark".as_slice(),
        (Kind::Birth | Kind::Checkpoint, true) => b"mark undone".as_slice(),
        (Kind::Present | Kind::Passed, false) => b"mark hollow".as_slice(),
        (Kind::Present | Kind::Passed, true) => b"mark hollow undone".as_slice(),
        (Kind::Retirement, false) => b"life".as_slice(),
        (Kind::Retirement, true) => b"life undone".as_slice(),
        (Kind::Report | Kind::Event, false) => b"event".as_slice(),
        (Kind::Report | Kind::Event, true) => b"event undone".as_slice(),
    }
}

/// Has the legend explain a mark.
fn show(canvas: &mut Canvas, kind: Kind, is_undone: bool) {
    if is_undone {
        canvas.shown.undone = true;
    }
    match kind {
        Kind::Present => canvas.shown.present = true,
        Kind::Passed => canvas.shown.passed = true,
        Kind::Retirement => canvas.shown.retirement = true,
        Kind::Report | Kind::Event => canvas.shown.event = true,
        Kind::Birth | Kind::Checkpoint => {}
    }
}

/// The number of an element: above its mark, and below that of a birth, where no arrow comes from.
fn draw_number(pen: &mut Pen, mark: Mark, x: u64, y: u64)
    requires low { 58 ≤ y }
    requires high { y < 2 ^ 40 }
{
    if mark.element == 0 {
        return;
    }
    let y = match mark.kind {
        Kind::Birth => y + 20,
        Kind::Passed => return,
        _ => y - 12,
    };
    open_text(pen, b"number", (x, y));
    pen.number(mark.element as u64);
    close_text(pen);
}

/// A mark of this class, and what it tells.
fn draw_shape(pen: &mut Pen, kind: Kind, class: &[u8], x: u64, y: u64, told: &[Piece<'_>])
    requires low { 58 ≤ y }
    requires high { y < 2 ^ 40 }
{
    match kind {
        Kind::Birth | Kind::Checkpoint | Kind::Present => {
            circle(pen, class, (x, y), ELEMENT, told)
        }
        Kind::Passed => circle(pen, class, (x, y), PASSED, told),
        Kind::Report | Kind::Event => circle(pen, class, (x, y), DOT, told),
        Kind::Retirement => line(pen, class, (x, y - 9), (x, y + 9), told),
    }
}

/// A mark with its number, which tells its stamp and the line of its report.
fn draw_mark(canvas: &mut Canvas, view: View<'_>, mark: Mark) {
    let is_undone = mark.is_undone || view.is_undone(mark.spot);
    let class = class_of(mark.kind, is_undone);
    show(canvas, mark.kind, is_undone);
    let (x, y) = (view.frame.x(mark.spot.column), view.frame.y(mark.spot.lane));
    let said = view.scene.texts.get(mark.said);
    let pen = &mut canvas.pen;
    if said.is_empty() {
        draw_shape(pen, mark.kind, class, x, y, &[]);
    } else {
        draw_shape(pen, mark.kind, class, x, y, &[Text(said)]);
    }
    draw_number(pen, mark, x, y);
}

/// The marks of all processes.
pub(crate) fn draw_marks(canvas: &mut Canvas, view: View<'_>) {
    for mark in &view.scene.marks {
        draw_mark(canvas, view, *mark);
    }
}
