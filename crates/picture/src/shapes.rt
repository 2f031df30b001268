//! The shapes of a picture, each an element of SVG on a line of its own. A class says what it shows.

use crate::pen::{Pen, Piece};

/// Closes an element, which tells this where one points at it; nothing to tell has no pieces.
fn close(pen: &mut Pen, element: &[u8], told: &[Piece<'_>]) {
    if told.is_empty() {
        return pen.text(b"/>\n");
    }
    pen.text(b"><title>");
    pen.write(told);
    pen.text(b"</title></");
    pen.text(element);
    pen.text(b">\n");
}

/// A straight line, and what it tells.
pub(crate) fn line(
    pen: &mut Pen,
    class: &[u8],
    from: (u64, u64),
    to: (u64, u64),
    told: &[Piece<'_>],
) {
    pen.text(b"<line class=\"");
    pen.text(class);
    pen.text_number(b"\" x1=\"", from.0);
    pen.text_number(b"\" y1=\"", from.1);
    pen.text_number(b"\" x2=\"", to.0);
    pen.text_number(b"\" y2=\"", to.1);
    pen.text(b"\"");
    close(pen, b"line", told);
}

/// A circle round this spot, and what it tells.
pub(crate) fn circle(pen: &mut Pen, class: &[u8], at: (u64, u64), radius: u64, told: &[Piece<'_>]) {
    pen.text(b"<circle class=\"");
    pen.text(class);
    pen.text_number(b"\" cx=\"", at.0);
    pen.text_number(b"\" cy=\"", at.1);
    pen.text_number(b"\" r=\"", radius);
    pen.text(b"\"");
    close(pen, b"circle", told);
}

/// A rectangle with this corner and of this width and height.
pub(crate) fn rectangle(pen: &mut Pen, class: &[u8], corner: (u64, u64), size: (u64, u64)) {
    pen.text(b"<rect class=\"");
    pen.text(class);
    pen.text_number(b"\" x=\"", corner.0);
    pen.text_number(b"\" y=\"", corner.1);
    pen.text_number(b"\" width=\"", size.0);
    pen.text_number(b"\" height=\"", size.1);
    pen.text(b"\"/>\n");
}

/// The head of an arrow of this name and colour, whose tip stands so far in front of the arrow's end.
pub(crate) fn head(pen: &mut Pen, name: &[u8], colour: &[u8], before: u32) {
    pen.text(b"<marker id=\"");
    pen.text(name);
    pen.text_number(b"\" viewBox=\"0 0 8 8\" refX=\"", before as u64 + 8);
    pen.text(b"\" refY=\"4\" markerWidth=\"8\" markerHeight=\"8\" markerUnits=\"userSpaceOnUse\"");
    pen.text(b" orient=\"auto\"><path fill=\"");
    pen.text(colour);
    pen.text(b"\" d=\"M0 0 L8 4 L0 8 z\"/></marker>\n");
}

/// What stands in front of a text that begins here, or stands round it, as the class says.
pub(crate) fn open_text(pen: &mut Pen, class: &[u8], at: (u64, u64)) {
    pen.text(b"<text class=\"");
    pen.text(class);
    pen.text_number(b"\" x=\"", at.0);
    pen.text_number(b"\" y=\"", at.1);
    pen.text(b"\">");
}

/// What stands behind a text.
pub(crate) fn close_text(pen: &mut Pen) {
    pen.text(b"</text>\n");
}

/// A text.
pub(crate) fn word(pen: &mut Pen, class: &[u8], at: (u64, u64), text: &[u8]) {
    open_text(pen, class, at);
    pen.text(text);
    close_text(pen);
}
