//! What the signs of a picture mean, below it.

ghost use Rattle.std.specs.Prelude.{◌≤◌};

use crate::canvas::{Canvas, Shown};
use crate::marks::{DOT, ELEMENT, PASSED};
use crate::pen::Pen;
use crate::shapes::{circle, line, rectangle, word};

/// A sign.
#[derive(Clone, Copy)]
enum Sign {
    Element,
    Present,
    Passed,
    Event,
    Retirement,
    Message,
    Knowledge,
    Family,
    Open,
    Again,
    Failure,
    Recovery,
    Undone,
    Obsolete,
    Settlement,
    Moment,
    Reason,
}

/// All signs.
const SIGNS: &[Sign] = &[
    Sign::Element,
    Sign::Present,
    Sign::Passed,
    Sign::Event,
    Sign::Retirement,
    Sign::Message,
    Sign::Knowledge,
    Sign::Family,
    Sign::Open,
    Sign::Again,
    Sign::Failure,
    Sign::Recovery,
    Sign::Undone,
    Sign::Obsolete,
    Sign::Settlement,
    Sign::Moment,
    Sign::Reason,
];

/// The height of a row of signs, and the width of a sign and of a letter.
pub(crate) const ROW: u64 = 20;

const SIGN: u64 = 22;

const LETTER: u64 = 7;

/// Whether a sign stands in the picture.
fn is_shown(shown: Shown, sign: Sign) -> bool {
    match sign {
        Sign::Element | Sign::Recovery => true,
        Sign::Present => shown.present,
        Sign::Passed => shown.passed,
        Sign::Event => shown.event,
        Sign::Retirement => shown.retirement,
        Sign::Message => shown.message,
        Sign::Knowledge => shown.knowledge,
        Sign::Family => shown.family,
        Sign::Open => shown.open,
        Sign::Again => shown.again,
        Sign::Failure => shown.failure,
        Sign::Undone => shown.undone,
        Sign::Obsolete => shown.obsolete,
        Sign::Settlement => shown.settled_line,
        Sign::Moment => shown.settlement,
        Sign::Reason => shown.reason,
    }
}

/// What a sign means.
fn meaning(sign: Sign) -> &'static [u8] {
    match sign {
        Sign::Element => b"birth, checkpoint".as_slice(),
        Sign::Present => b"present state".as_slice(),
        Sign::Passed => b"present state that passed".as_slice(),
        Sign::Event => b"other step".as_slice(),
        Sign::Retirement => b"retirement".as_slice(),
        Sign::Message => b"message".as_slice(),
        Sign::Knowledge => b"first report that knows what came after".as_slice(),
        Sign::Family => b"fork, absorption".as_slice(),
        Sign::Open => b"message not received".as_slice(),
        Sign::Again => b"message to be sent again".as_slice(),
        Sign::Failure => b"failed".as_slice(),
        Sign::Recovery => b"recovery line".as_slice(),
        Sign::Undone => b"undone".as_slice(),
        Sign::Obsolete => b"obsolete".as_slice(),
        Sign::Settlement => b"line of a settlement".as_slice(),
        Sign::Moment => b"settlement".as_slice(),
        Sign::Reason => b"reason chain".as_slice(),
    }
}

/// The class and the radius of a sign that is a circle.
fn circle_of(sign: Sign) -> Option<(&'static [u8], u64)> {
    match sign {
        Sign::Element => Some((b"mark".as_slice(), ELEMENT)),
        Sign::Present => Some((b"mark hollow".as_slice(), ELEMENT)),
        Sign::Passed => Some((b"mark hollow".as_slice(), PASSED)),
        Sign::Event => Some((b"event".as_slice(), DOT)),
        _ => None,
    }
}

/// The class of a sign that is a line from left to right.
fn class_across(sign: Sign) -> Option<&'static [u8]> {
    match sign {
        Sign::Message | Sign::Knowledge => Some(b"message".as_slice()),
        Sign::Family => Some(b"family".as_slice()),
        Sign::Again => Some(b"again".as_slice()),
        Sign::Undone => Some(b"life undone".as_slice()),
        Sign::Reason => Some(b"reason".as_slice()),
        _ => None,
    }
}

/// The class of a sign that is a line from top to bottom.
fn class_down(sign: Sign) -> Option<&'static [u8]> {
    match sign {
        Sign::Retirement => Some(b"life".as_slice()),
        Sign::Recovery => Some(b"recovery".as_slice()),
        Sign::Settlement => Some(b"settled".as_slice()),
        Sign::Moment => Some(b"epoch".as_slice()),
        _ => None,
    }
}

/// The sign of a message that was not received.
fn draw_open(pen: &mut Pen, x: u64, y: u64) {
    line(pen, b"open", (x, y), (x.saturating_add(11), y), &[]);
    circle(pen, b"end", (x.saturating_add(17), y), 3, &[]);
}

/// The sign of a failure.
fn draw_failure(pen: &mut Pen, x: u64, y: u64) {
    let right = x.saturating_add(17);
    let (above, below) = (y.saturating_sub(8), y.saturating_add(8));
    line(pen, b"failure", (x, above), (right, below), &[]);
    line(pen, b"failure", (x, below), (right, above), &[]);
}

/// A sign that is more than a circle or a line.
fn draw_figure(pen: &mut Pen, sign: Sign, x: u64, y: u64) {
    match sign {
        Sign::Obsolete => rectangle(pen, b"obsolete", (x, y.saturating_sub(8)), (SIGN, 16)),
        Sign::Open => draw_open(pen, x, y),
        Sign::Failure => draw_failure(pen, x, y),
        _ => {}
    }
}

/// A sign that is a line.
fn draw_line(pen: &mut Pen, sign: Sign, x: u64, y: u64) {
    if let Some(class) = class_across(sign) {
        line(pen, class, (x, y), (x.saturating_add(SIGN), y), &[]);
    }
    if let Some(class) = class_down(sign) {
        let middle = x.saturating_add(11);
        let (above, below) = (y.saturating_sub(8), y.saturating_add(8));
        line(pen, class, (middle, above), (middle, below), &[]);
    }
}

/// A sign that is a circle.
fn draw_circle(pen: &mut Pen, sign: Sign, x: u64, y: u64) {
    if let Some((class, radius)) = circle_of(sign) {
        circle(pen, class, (x.saturating_add(11), y), radius, &[]);
    }
}

/// A sign, and what it means.
fn draw_sign(pen: &mut Pen, sign: Sign, x: u64, y: u64) {
    draw_circle(pen, sign, x, y);
    draw_line(pen, sign, x, y);
    draw_figure(pen, sign, x, y);
    let at = (x.saturating_add(SIGN + 6), y.saturating_add(4));
    word(pen, b"legend", at, meaning(sign));
}

/// The place that a sign takes with what it means.
fn room_of(sign: Sign) -> u64
    ensures { result ≤ 494 }
{
    SIGN + 24 + LETTER * (meaning(sign).len().min(64) as u64)
}

/// Where the next sign or word stands that takes so much room, behind what ends here, in a picture of this width.
pub(crate) fn next_place(x: u64, y: u64, room: u64, width: u64) -> (u64, u64) {
    if x > 12 && x.saturating_add(room) > width {
        (12, y.saturating_add(ROW))
    } else {
        (x, y)
    }
}

/// The width of a row of all signs that stand in a picture.
pub(crate) fn width_of_legend(shown: Shown) -> u64 {
    let mut width = 12u64;
    for sign in SIGNS {
        if is_shown(shown, *sign) {
            width = width.saturating_add(room_of(*sign));
        }
    }
    width
}

/// The signs of a picture of this width that stand in it, from this height on. Answers where they end.
pub(crate) fn draw_legend(canvas: &mut Canvas, top: u64, width: u64) -> u64 {
    let (mut x, mut y) = (12, top);
    let shown = canvas.shown;
    for sign in SIGNS {
        if is_shown(shown, *sign) {
            let room = room_of(*sign);
            (x, y) = next_place(x, y, room, width);
            draw_sign(&mut canvas.pen, *sign, x, y);
            x = x.saturating_add(room);
        }
    }
    y.saturating_add(ROW)
}
