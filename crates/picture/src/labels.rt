//! The names of messages that are to be sent again: below the steps that received or sent them, and those that find no room there below the
//! legend.

ghost use Rattle.std.specs.Prelude.{◌≤◌, IfSome};

use crate::arrows::{Fate, fate_of};
use crate::canvas::Canvas;
use crate::frame::View;
use crate::legend::{ROW, next_place};
use crate::pen::Pen;
use crate::scene::{Arrow, Spot};
use crate::shapes::word;
use crate::telling::{Said, Texts};

/// The width of a letter, and of the room behind a name.
const LETTER: u64 = 9;

const GAP: u64 = 5;

/// Where the names end below a process's line, in the two rows that they stand in.
#[derive(Clone, Copy)]
struct Ends {
    upper: u64,
    lower: u64,
}

/// How far below a process's line a name stands that takes the place from here to there, if there is room.
fn take(ends: &mut Ends, from: u64, to: u64) -> Option<u64>
    ensures { IfSome result (λ below. below ≤ 29) }
{
    if ends.upper <= from {
        ends.upper = to;
        return Some(18);
    }
    if ends.lower <= from {
        ends.lower = to;
        return Some(29);
    }
    None
}

/// Where a name of so many letters stands below this step, if there is room for it, and where it ends.
fn place(ends: &mut [Ends], view: View<'_>, spot: Spot, letters: u64) -> Option<(u64, u64, u64)> {
    let ends = ends.get_mut(spot.lane as usize)?;
    let from = view.frame.x(spot.column) + 4;
    let to = from
        .saturating_add(letters.saturating_mul(LETTER))
        .saturating_add(GAP);
    let below = take(ends, from, to)?;
    Some((from, view.frame.y(spot.lane) + below, to))
}

/// Where the name of the message of an arrow stands: below the step that received it, or else the one that sent it, if there is room; and
/// where it ends.
fn place_of(
    ends: &mut [Ends],
    view: View<'_>,
    arrow: Arrow,
    letters: u64,
) -> Option<(u64, u64, u64)> {
    match place(ends, view, arrow.to, letters) {
        Some(placed) => Some(placed),
        None => place(ends, view, arrow.from, letters),
    }
}

/// The name of the message of an arrow that is sent again, or a note that it finds no room.
fn draw_name(canvas: &mut Canvas, ends: &mut [Ends], view: View<'_>, arrow: Arrow) {
    let name = view.scene.texts.get(arrow.said);
    let Some((x, y, to)) = place_of(ends, view, arrow, name.len() as u64) else {
        return canvas.leave_out(arrow.said);
    };
    canvas.right = canvas.right.max(to);
    word(&mut canvas.pen, b"again-name", (x, y), name);
}

/// The names of messages that are to be sent again, where this is taken below the lines of processes.
fn draw_names_between(canvas: &mut Canvas, ends: &mut [Ends], view: View<'_>) {
    for arrow in &view.scene.arrows {
        if fate_of(view, *arrow) == Fate::Again {
            draw_name(canvas, ends, view, *arrow);
        }
    }
}

/// The names of messages that are to be sent again, each below the step that received it or the one that sent it. The canvas notes those
/// that find no room there.
pub(crate) fn draw_names(canvas: &mut Canvas, view: View<'_>) {
    let none = Ends { upper: 0, lower: 0 };
    match Vec::from_elem(view.scene.alloc, none, view.scene.lanes.len()) {
        Ok(ends) => {
            let mut ends = ends;
            draw_names_between(canvas, &mut ends, view);
        }
        Err(_) => canvas.pen.run_out(),
    }
}

/// What stands in front of the names below the legend, and where it ends.
const ALSO: &[u8] = b"to be sent again, too:";

const BEHIND_ALSO: u64 = 160;

/// The names that found no room, in rows from this height on in a picture of this width. Answers where they end.
pub(crate) fn draw_names_below(
    pen: &mut Pen,
    texts: &Texts,
    names: &[Said],
    top: u64,
    width: u64,
) -> u64 {
    if names.is_empty() {
        return top;
    }
    word(pen, b"legend", (12, top.saturating_add(4)), ALSO);
    let (mut x, mut y) = (BEHIND_ALSO, top);
    for said in names {
        let name = texts.get(*said);
        let room = LETTER.saturating_mul(name.len() as u64 + 1);
        (x, y) = next_place(x, y, room, width);
        word(pen, b"again-name", (x, y.saturating_add(4)), name);
        x = x.saturating_add(room);
    }
    y.saturating_add(ROW)
}
