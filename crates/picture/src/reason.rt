//! The reason chain of a process: why it cannot stay further on.

ghost use Rattle.std.specs.Prelude.{◌<◌, ◌≤◌, ◌^◌};

use crate::arrows::begin_behind;
use crate::canvas::Canvas;
use crate::frame::View;
use crate::pen::Pen;
use crate::pen::Piece::{Number, Text};
use crate::scene::Spot;
use crate::shapes::{circle, line};
use chains::{Place, Places, Position};
use reasons::Certificate;

/// The radius of the ring round a place of the chain.
const RING: u64 = 10;

/// The chain of a process in a certificate, if it has to return further than its last surviving position.
pub(crate) fn chain_of(certificate: &Certificate, process: u32) -> Option<&Places> {
    for chain in certificate.reasons.as_slice() {
        if let Some(last) = chain.as_slice().last()
            && last.process == process
        {
            return Some(chain);
        }
    }
    None
}

/// The step at which a process is at this place.
fn spot_of(view: View<'_>, place: Place) -> Option<Spot> {
    let lane = view.scene.lane_of(place.process)?;
    let column = view
        .scene
        .lanes
        .get(lane as usize)?
        .column_of(place.position)?;
    Some(Spot { lane, column })
}

/// The number of the element after which the next place of the chain knows a process that is at this place: the first place of a
/// chain stays, and each other one goes.
fn known_after(view: View<'_>, place: Place, is_first: bool) -> u32 {
    match place.position {
        Position::At(k) => if is_first { k } else { k.saturating_sub(1) },
        Position::Retired => match view.scene.lane_of(place.process) {
            None => 0,
            Some(lane) => match view.scene.lanes.get(lane as usize) {
                None => 0,
                Some(lane) => lane.stable(),
            },
        },
    }
}

/// The name of the process of this number.
fn name_of<'a>(view: View<'a>, process: u32) -> &'a [u8] {
    match view.scene.lane_of(process) {
        None => b"".as_slice(),
        Some(lane) => match view.scene.lanes.get(lane as usize) {
            None => b"".as_slice(),
            Some(lane) => lane.name.as_bytes(),
        },
    }
}

/// A step of the chain: from behind the element of that number of a process to the place that knows it, and first along the process's own
/// line to that element.
fn draw_link(pen: &mut Pen, view: View<'_>, before: Place, after: u32, place: Place) {
    let known = Place {
        process: before.process,
        position: Position::At(after.max(1)),
    };
    let (Some(here), Some(known), Some(spot)) = (
        spot_of(view, before),
        spot_of(view, known),
        spot_of(view, place),
    ) else {
        return;
    };
    let begin = begin_behind(view, known);
    let told = &[
        Text(name_of(view, place.process)),
        Text(b" knows ".as_slice()),
        Text(name_of(view, before.process)),
        Text(b" after ".as_slice()),
        Number(after as u64),
    ];
    if known.column < here.column {
        line(pen, b"reason", view.frame.at(here), begin, told);
    }
    line(pen, b"reason because", begin, view.frame.at(spot), told);
}

/// A place of the chain.
fn draw_place(pen: &mut Pen, view: View<'_>, place: Place) {
    if let Some(spot) = spot_of(view, place) {
        circle(pen, b"ring", view.frame.at(spot), RING, &[]);
    }
}

/// A reason chain.
pub(crate) fn draw_reason(canvas: &mut Canvas, view: View<'_>, chain: &[Place]) {
    canvas.shown.reason = !chain.is_empty();
    let pen = &mut canvas.pen;
    for i in 0..chain.len() {
        draw_place(pen, view, chain[i]);
        if i > 0 {
            let before = chain[i - 1];
            let after = known_after(view, before, i == 1);
            draw_link(pen, view, before, after, chain[i]);
        }
    }
}
