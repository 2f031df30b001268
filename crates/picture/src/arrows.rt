//! Arrows between processes.

ghost use Rattle.std.specs.Prelude.{◌<◌, ◌≤◌, ◌^◌};

use crate::canvas::Canvas;
use crate::frame::View;
use crate::pen::Pen;
use crate::pen::Piece::{self, Number, Text};
use crate::scene::{Arrow, Sent, Spot, Tie};
use crate::shapes::{circle, line};
use crate::telling::Said;

/// What becomes of an arrow.
#[derive(Clone, Copy, PartialEq, Eq)]
pub(crate) enum Fate {
    Stays,
    Undone,
    /// A message that was sent before the line and received behind it, which is to be sent again.
    Again,
}

/// What becomes of an arrow.
pub(crate) fn fate_of(view: View<'_>, arrow: Arrow) -> Fate {
    if arrow.is_undone {
        return Fate::Undone;
    }
    if !view.is_undone(arrow.to) {
        return Fate::Stays;
    }
    if arrow.tie == Tie::Message && !view.is_undone(arrow.from) {
        Fate::Again
    } else {
        Fate::Undone
    }
}

/// The class of an arrow, by which its head ends at the edge of an element's mark, or at a dot.
fn class_of(arrow: Arrow, fate: Fate) -> &'static [u8] {
    match (arrow.tie, fate) {
        (Tie::Message, Fate::Again) => b"again".as_slice(),
        (Tie::Message, Fate::Stays) => b"message".as_slice(),
        (Tie::Message, Fate::Undone) => b"message undone".as_slice(),
        (Tie::Fork, Fate::Stays) => b"family birth".as_slice(),
        (Tie::Fork, _) => b"family birth undone".as_slice(),
        (Tie::Absorption, Fate::Stays) => b"family".as_slice(),
        (Tie::Absorption, _) => b"family undone".as_slice(),
        (Tie::Knowledge, Fate::Stays) => class_of_knowledge(arrow.is_to_element),
        (Tie::Knowledge, _) => class_of_undone_knowledge(arrow.is_to_element),
    }
}

/// The class of what is known, which looks as a message.
fn class_of_knowledge(is_to_element: bool) -> &'static [u8] {
    if is_to_element {
        b"knowledge".as_slice()
    } else {
        b"message".as_slice()
    }
}

/// The same for what is undone.
fn class_of_undone_knowledge(is_to_element: bool) -> &'static [u8] {
    if is_to_element {
        b"knowledge undone".as_slice()
    } else {
        b"message undone".as_slice()
    }
}

/// Has the legend explain an arrow.
fn show(canvas: &mut Canvas, tie: Tie, fate: Fate) {
    match fate {
        Fate::Again => canvas.shown.again = true,
        Fate::Undone => canvas.shown.undone = true,
        Fate::Stays => {}
    }
    match tie {
        Tie::Message => canvas.shown.message = true,
        Tie::Knowledge => canvas.shown.knowledge = true,
        Tie::Fork | Tie::Absorption => canvas.shown.family = true,
    }
}

/// The name of the process in a row.
fn name_in<'a>(view: View<'a>, lane: u32) -> &'a [u8] {
    match view.scene.lanes.get(lane as usize) {
        None => b"".as_slice(),
        Some(lane) => lane.name.as_bytes(),
    }
}

/// What tells of a message that this process sent, and then so.
fn words_of_message<'a>(
    view: View<'a>,
    said: Said,
    lane: u32,
    behind: [Piece<'a>; 2],
) -> [Piece<'a>; 6] {
    [
        Text(b"message ".as_slice()),
        Text(view.scene.texts.get(said)),
        Text(b" of ".as_slice()),
        Text(name_in(view, lane)),
        behind[0],
        behind[1],
    ]
}

/// What a message tells where the picture tells what things are, and nothing where it doesn't.
fn if_told<'a>(view: View<'_>, words: &'a [Piece<'a>]) -> &'a [Piece<'a>] {
    if view.scene.tells { words } else { &[] }
}

/// The arrow of a message.
fn draw_message(pen: &mut Pen, view: View<'_>, arrow: Arrow, class: &[u8]) {
    let receiver = [Text(b" to ".as_slice()), Text(name_in(view, arrow.to.lane))];
    let words = words_of_message(view, arrow.said, arrow.from.lane, receiver);
    let (from, to) = (view.frame.at(arrow.from), view.frame.at(arrow.to));
    line(pen, class, from, to, if_told(view, &words));
}

/// The arrow of what a report is the first one to know.
fn draw_knowledge(pen: &mut Pen, view: View<'_>, arrow: Arrow, class: &[u8]) {
    let told = &[
        Text(name_in(view, arrow.to.lane)),
        Text(b" knows ".as_slice()),
        Text(name_in(view, arrow.from.lane)),
        Text(b" after ".as_slice()),
        Number(arrow.element as u64),
    ];
    let (from, to) = (begin_behind(view, arrow.from), view.frame.at(arrow.to));
    line(pen, class, from, to, told);
}

/// Where an arrow begins that comes from behind an element.
pub(crate) fn begin_behind(view: View<'_>, spot: Spot) -> (u64, u64) {
    (
        view.frame.behind_lines(spot.column),
        view.frame.y(spot.lane),
    )
}

/// An arrow.
fn draw_arrow(canvas: &mut Canvas, view: View<'_>, arrow: Arrow) {
    let fate = fate_of(view, arrow);
    let class = class_of(arrow, fate);
    show(canvas, arrow.tie, fate);
    let pen = &mut canvas.pen;
    match arrow.tie {
        Tie::Message => draw_message(pen, view, arrow, class),
        Tie::Knowledge => draw_knowledge(pen, view, arrow, class),
        Tie::Fork | Tie::Absorption => {
            let (from, to) = (view.frame.at(arrow.from), view.frame.at(arrow.to));
            line(pen, class, from, to, &[]);
        }
    }
}

/// The arrows between processes.
pub(crate) fn draw_arrows(canvas: &mut Canvas, view: View<'_>) {
    for arrow in &view.scene.arrows {
        draw_arrow(canvas, view, *arrow);
    }
}

/// A message that nobody received, with an open end.
fn draw_open(canvas: &mut Canvas, view: View<'_>, sent: Sent) {
    let is_undone = sent.is_undone || view.is_undone(sent.spot);
    let (class, end) = if is_undone {
        (b"open undone".as_slice(), b"end undone".as_slice())
    } else {
        (b"open".as_slice(), b"end".as_slice())
    };
    canvas.shown.open = true;
    let nobody = [Text(b", not received".as_slice()), Text(b"".as_slice())];
    let words = words_of_message(view, sent.said, sent.spot.lane, nobody);
    let told = if_told(view, &words);
    let (x, y) = (view.frame.x(sent.spot.column), view.frame.y(sent.spot.lane));
    // Above the line of the process, since names stand below it.
    let pen = &mut canvas.pen;
    line(pen, class, (x, y), (x + 9, y - 15), told);
    circle(pen, end, (x + 10, y - 17), 3, told);
}

/// The messages that nobody received, be it that a settlement undid that.
pub(crate) fn draw_open_messages(canvas: &mut Canvas, view: View<'_>) {
    for sent in &view.scene.sent {
        if sent.receipts == 0 {
            draw_open(canvas, view, *sent);
        }
    }
}
