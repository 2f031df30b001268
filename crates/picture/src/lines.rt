//! The lines from top to bottom: the recovery line, settlements, and where processes failed.

ghost use Rattle.std.specs.Prelude.{◌<◌, ◌≤◌, ◌^◌};

use crate::canvas::Canvas;
use crate::frame::{Row, View};
use crate::pen::Pen;
use crate::pen::Piece::{Number, Text};
use crate::scene::Settlement;
use crate::shapes::{circle, close_text, line, open_text};
use chains::Position;

/// Where the words above settlements stand.
const ABOVE: u64 = 42;

/// A cross behind all of the line of a process that failed, and behind the last settlement, which is in this column.
fn draw_failure(canvas: &mut Canvas, row: Row<'_>, settled: u32) {
    canvas.shown.failure = true;
    let (x, y) = (row.x(row.lane.last.max(settled)) + 28, row.y());
    let pen = &mut canvas.pen;
    line(pen, b"failure", (x - 6, y - 6), (x + 6, y + 6), &[]);
    line(pen, b"failure", (x - 6, y + 6), (x + 6, y - 6), &[]);
}

/// A cross at the end of the line of each process that failed.
pub(crate) fn draw_failures(canvas: &mut Canvas, view: View<'_>, failed: &[u32]) {
    for number in failed {
        if let Some(lane) = view.scene.lane_of(*number)
            && let Some(row) = view.row(lane)
        {
            draw_failure(canvas, row, view.scene.floor);
        }
    }
}

/// The part of a line that crosses that of a process there.
fn draw_crossing(pen: &mut Pen, x: u64, y: u64)
    requires high { 58 ≤ y }
    requires low { y < 2 ^ 41 }
{
    pen.write(&[
        Number(x),
        Text(b",".as_slice()),
        Number(y - 23),
        Text(b" ".as_slice()),
        Number(x),
        Text(b",".as_slice()),
        Number(y + 23),
        Text(b" ".as_slice()),
    ]);
}

/// The recovery line: one stroke through all processes. It stands in front of the birth of one that is not known any more.
pub(crate) fn draw_recovery_line(pen: &mut Pen, view: View<'_>) {
    pen.text(b"<polyline class=\"recovery\" points=\"");
    for i in 0..view.rows() {
        if let Some(row) = view.row(i) {
            draw_crossing(pen, row.crossing(), row.y());
        }
    }
    pen.text(b"\"/>\n");
}

/// The line of a settlement: one stroke through the processes that were known, where it is told.
fn draw_settled_line(canvas: &mut Canvas, view: View<'_>, settlement: &Settlement) {
    if settlement.returns.is_empty() {
        return;
    }
    canvas.shown.settled_line = true;
    let pen = &mut canvas.pen;
    pen.text(b"<polyline class=\"settled\" points=\"");
    for of_process in &settlement.returns {
        if let Some(lane) = view.scene.lanes.get(of_process.lane as usize) {
            let x = view.frame.settled_crossing(lane, of_process.column);
            draw_crossing(pen, x, view.frame.y(of_process.lane));
        }
    }
    pen.text(b"\"/>\n");
}

/// Whether a process that returns to this position lives.
fn goes_on(position: Position) -> bool {
    match position {
        Position::At(k) => k != 0,
        Position::Retired => false,
    }
}

/// The last row that a settlement reaches.
fn lowest(view: View<'_>, settlement: &Settlement) -> u32 {
    match settlement.returns.last() {
        None => view.rows().saturating_sub(1),
        Some(of_process) => of_process.lane,
    }
}

/// A mark where each process goes on that lives behind a settlement.
fn draw_returns(pen: &mut Pen, view: View<'_>, settlement: &Settlement) {
    let x = view.frame.x(settlement.column);
    for of_process in &settlement.returns {
        if goes_on(of_process.position) {
            let y = view.frame.y(of_process.lane);
            circle(pen, b"return", (x, y), 4, &[]);
        }
    }
}

/// The moment of a settlement: a stroke down to the last process that was known, with a mark where each goes on that lives.
fn draw_settling(canvas: &mut Canvas, view: View<'_>, settlement: &Settlement, epoch: u64) {
    canvas.shown.settlement = true;
    let pen = &mut canvas.pen;
    let x = view.frame.x(settlement.column);
    let lowest = view.frame.y(lowest(view, settlement));
    line(pen, b"epoch", (x, ABOVE + 4), (x, lowest + 23), &[]);
    open_text(pen, b"number", (x, ABOVE));
    pen.text_number(b"epoch ", epoch);
    close_text(pen);
    draw_returns(pen, view, settlement);
}

/// The settlements, each with its line and its moment.
pub(crate) fn draw_settlements(canvas: &mut Canvas, view: View<'_>) {
    let settlements = &view.scene.settlements;
    for i in 0..settlements.len() {
        draw_settled_line(canvas, view, &settlements[i]);
        draw_settling(canvas, view, &settlements[i], i as u64 + 1);
    }
}
