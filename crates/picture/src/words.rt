//! What a picture says in words, for who cannot see it.

use crate::lane::Lane;
use crate::pen::Pen;
use crate::scene::{Return, Scene};
use chains::{Place, Position};

/// The name of the process in this row.
fn write_name_in(pen: &mut Pen, lanes: &[Lane], lane: u32) {
    if let Some(lane) = lanes.get(lane as usize) {
        pen.text(lane.name.as_bytes());
    }
}

/// The name of a process, by its number.
fn write_name(pen: &mut Pen, scene: &Scene, number: u32) {
    if let Some(lane) = scene.lane_of(number) {
        write_name_in(pen, &scene.lanes, lane);
    }
}

/// What stands between words.
fn comma(i: usize) -> &'static [u8] {
    if i == 0 {
        b" ".as_slice()
    } else {
        b", ".as_slice()
    }
}

/// The names of the processes of these numbers.
fn write_names(pen: &mut Pen, scene: &Scene, numbers: &[u32]) {
    for i in 0..numbers.len() {
        pen.text(comma(i));
        write_name(pen, scene, numbers[i]);
    }
}

/// Which processes failed.
pub(crate) fn write_failed(pen: &mut Pen, scene: &Scene, failed: &[u32]) {
    if failed.is_empty() {
        return pen.text(b"No process failed");
    }
    pen.text(b"Failed:");
    write_names(pen, scene, failed);
}

/// Where a process stands.
fn write_position(pen: &mut Pen, position: Position) {
    match position {
        Position::At(0) => pen.text(b" unborn"),
        Position::At(k) => pen.text_number(b" at ", k as u64),
        Position::Retired => pen.text(b" retired"),
    }
}

/// Where each process stands.
fn write_places(pen: &mut Pen, scene: &Scene, places: &[Place]) {
    for i in 0..places.len() {
        pen.text(comma(i));
        write_name(pen, scene, places[i].process);
        write_position(pen, places[i].position);
    }
}

/// Where each process returned to by a settlement, where that is told.
fn write_returns(pen: &mut Pen, lanes: &[Lane], returns: &[Return]) {
    if returns.is_empty() {
        return;
    }
    pen.text(b":");
    for i in 0..returns.len() {
        pen.text(comma(i));
        write_name_in(pen, lanes, returns[i].lane);
        write_position(pen, returns[i].position);
    }
}

/// The settlements, in order.
pub(crate) fn write_settlements(pen: &mut Pen, scene: &Scene) {
    for i in 0..scene.settlements.len() {
        pen.text_number(b"Settlement ", i as u64 + 1);
        write_returns(pen, &scene.lanes, &scene.settlements[i].returns);
        pen.text(b". ");
    }
}

/// The recovery line, and the line before which all is obsolete.
pub(crate) fn write_lines(pen: &mut Pen, scene: &Scene, line: &[Place], obsolete: &[Place]) {
    pen.text(b"Recovery line:");
    write_places(pen, scene, line);
    pen.text(b". Obsolete before:");
    write_places(pen, scene, obsolete);
    pen.text(b".");
}

/// Of which process the reason chain is shown, or that it has none.
pub(crate) fn write_why(pen: &mut Pen, scene: &Scene, process: u32, stays: bool) {
    if stays {
        pen.text(b". ");
        write_name(pen, scene, process);
        pen.text(b" stays at its last surviving position");
    } else {
        pen.text(b". Why ");
        write_name(pen, scene, process);
        pen.text(b" returns further");
    }
}

/// The reason chain of a process, if it has one.
pub(crate) fn write_reason(pen: &mut Pen, scene: &Scene, process: u32, chain: &[Place]) {
    if chain.is_empty() {
        return;
    }
    pen.text(b" Reason chain of ");
    write_name(pen, scene, process);
    pen.text(b":");
    write_places(pen, scene, chain);
    pen.text(b".");
}
