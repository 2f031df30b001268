//! The lines of processes, and what is obsolete of them.

ghost use Rattle.std.specs.Prelude.{◌<◌, ◌≤◌, ◌^◌};

use crate::canvas::Canvas;
use crate::frame::{Row, View};
use crate::lane::Span;
use crate::pen::Pen;
use crate::shapes::{line, rectangle, word};

/// Hatches what is obsolete of a part of a life: what stands in front of the place at which the process's line is crossed.
fn draw_obsolete_span(canvas: &mut Canvas, row: Row<'_>, span: Span) {
    let from = row.turn(span.from, span.is_from_behind);
    // The place itself is not obsolete, so the hatching ends in front of its mark.
    let to = row.turn(span.to, span.is_to_behind).min(row.front());
    if from >= to {
        return;
    }
    canvas.shown.obsolete = true;
    rectangle(
        &mut canvas.pen,
        b"obsolete",
        (from, row.y() - 9),
        (to - from, 18),
    );
}

/// Hatches what is obsolete of a process.
fn draw_obsolete_part(canvas: &mut Canvas, row: Row<'_>) {
    for span in &row.lane.lives {
        draw_obsolete_span(canvas, row, *span);
    }
    if let Some(span) = row.lane.present_life() {
        draw_obsolete_span(canvas, row, span);
    }
}

/// Hatches what is obsolete of each process: what stands in front of the line.
pub(crate) fn draw_obsolete(canvas: &mut Canvas, view: View<'_>) {
    for i in 0..view.rows() {
        if let Some(row) = view.row(i) {
            draw_obsolete_part(canvas, row);
        }
    }
}

/// A straight part of a life; none where it has no length.
fn draw_part(pen: &mut Pen, class: &[u8], y: u64, from: u64, to: u64) {
    if from < to {
        line(pen, class, (from, y), (to, y), &[]);
    }
}

/// A part of a life, whose later part is undone.
fn draw_span(pen: &mut Pen, row: Row<'_>, span: Span) {
    let from = row.turn(span.from, span.is_from_behind);
    let to = row.turn(span.to, span.is_to_behind);
    let turn = row.crossing().max(from).min(to);
    draw_part(pen, b"life", row.y(), from, turn);
    draw_part(pen, b"life undone", row.y(), turn, to);
}

/// What settlements undid of a life.
fn draw_undone_lives(pen: &mut Pen, row: Row<'_>) {
    for span in &row.lane.undone {
        let from = row.turn(span.from, span.is_from_behind);
        let to = row.turn(span.to, span.is_to_behind);
        draw_part(pen, b"life undone", row.y(), from, to);
    }
}

/// The name of a process, and its life, whose later part is undone.
fn draw_life(pen: &mut Pen, row: Row<'_>) {
    word(pen, b"name", (12, row.y() + 5), row.lane.name.as_bytes());
    draw_undone_lives(pen, row);
    for span in &row.lane.lives {
        draw_span(pen, row, *span);
    }
    if let Some(span) = row.lane.present_life() {
        draw_span(pen, row, span);
    }
}

/// The name of each process, and its life.
pub(crate) fn draw_lives(pen: &mut Pen, view: View<'_>) {
    for i in 0..view.rows() {
        if let Some(row) = view.row(i) {
            draw_life(pen, row);
        }
    }
}
