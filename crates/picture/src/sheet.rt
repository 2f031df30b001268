//! A picture: its words, its layers from the lowest to the highest, and its legend.

use crate::arrows::{draw_arrows, draw_open_messages};
use crate::canvas::Canvas;
use crate::frame::{Frame, View};
use crate::labels::{draw_names, draw_names_below};
use crate::legend::{draw_legend, width_of_legend};
use crate::lines::{draw_failures, draw_recovery_line, draw_settlements};
use crate::lives::{draw_lives, draw_obsolete};
use crate::looks::write_looks;
use crate::marks::draw_marks;
use crate::pen::Pen;
use crate::reason::draw_reason;
use crate::scene::Scene;
use crate::shapes::{close_text, open_text};
use crate::telling::Texts;
use crate::words::{write_failed, write_lines, write_reason, write_settlements, write_why};
use chains::Place;
use reasons::Certificate;
use std::alloc::{AllocError, Global};

/// The least width of a picture whose legend would be wider.
const LEAST_WIDTH: u64 = 520;

/// A process of which the picture shows why it cannot stay further on, and its reason chain, which is empty where it stays at its last
/// surviving position.
#[derive(Clone, Copy)]
pub(crate) struct Why<'a> {
    pub(crate) process: u32,
    pub(crate) chain: &'a [Place],
}

/// What a picture shows of a scene, by lines that were found for it.
#[derive(Clone, Copy)]
pub(crate) struct Subject<'scene, 'line> {
    pub(crate) scene: &'scene Scene,
    pub(crate) line: &'line Certificate,
    pub(crate) obsolete: &'line Certificate,
    pub(crate) why: Option<Why<'line>>,
}

/// How large a picture is.
#[derive(Clone, Copy)]
struct Size {
    width: u64,
    height: u64,
}

/// The element that all others stand in.
fn write_head(pen: &mut Pen, size: Size) {
    pen.text_number(
        b"<svg xmlns=\"http://www.w3.org/2000/svg\" viewBox=\"0 0 ",
        size.width,
    );
    pen.text_number(b" ", size.height);
    pen.text_number(b"\" width=\"", size.width);
    pen.text_number(b"\" height=\"", size.height);
    pen.text(b"\" role=\"img\" aria-labelledby=\"title words\">\n");
}

/// The title and the words, which are read aloud.
fn write_words(pen: &mut Pen, subject: Subject<'_, '_>) {
    let Subject {
        scene,
        line,
        obsolete,
        why,
    } = subject;
    pen.text(b"<title id=\"title\">");
    write_title(pen, subject);
    pen.text(b"</title>\n<desc id=\"words\">");
    write_settlements(pen, scene);
    write_lines(pen, scene, line.line.as_slice(), obsolete.line.as_slice());
    if let Some(why) = why {
        write_reason(pen, scene, why.process, why.chain);
    }
    pen.text(b"</desc>\n");
}

/// Which processes failed, and of which the reason chain is shown.
fn write_title(pen: &mut Pen, subject: Subject<'_, '_>) {
    write_failed(pen, subject.scene, subject.line.failed.as_slice());
    if let Some(why) = subject.why {
        write_why(pen, subject.scene, why.process, why.chain.is_empty());
    }
}

/// So many letters of the title widen a picture at most.
const TITLE_LETTERS: usize = 250;

/// The title above the picture.
fn draw_title(canvas: &mut Canvas, subject: Subject<'_, '_>) {
    let pen = &mut canvas.pen;
    open_text(pen, b"title", (12, 20));
    let before = pen.len();
    write_title(pen, subject);
    let letters = pen.len().saturating_sub(before).min(TITLE_LETTERS);
    close_text(pen);
    canvas.right = canvas.right.max(24 + 8 * letters as u64);
}

/// The lowest layer: what is obsolete.
fn draw_garbage(canvas: &mut Canvas, frame: Frame, subject: Subject<'_, '_>) {
    let scene = subject.scene;
    match scene.positions(subject.obsolete.line.as_slice()) {
        Ok(positions) => {
            let view = View {
                frame,
                scene,
                positions: &positions,
            };
            draw_obsolete(canvas, view);
        }
        Err(_) => canvas.pen.run_out(),
    }
}

/// The layers above it, from the lowest to the highest.
fn draw_layers(canvas: &mut Canvas, view: View<'_>, subject: Subject<'_, '_>) {
    draw_lives(&mut canvas.pen, view);
    draw_arrows(canvas, view);
    draw_open_messages(canvas, view);
    draw_settlements(canvas, view);
    draw_recovery_line(&mut canvas.pen, view);
    if let Some(why) = subject.why {
        draw_reason(canvas, view, why.chain);
    }
    draw_marks(canvas, view);
    draw_failures(canvas, view, subject.line.failed.as_slice());
    draw_names(canvas, view);
}

/// The scene, with the line through it.
fn draw_scene(canvas: &mut Canvas, frame: Frame, subject: Subject<'_, '_>) {
    let scene = subject.scene;
    match scene.positions(subject.line.line.as_slice()) {
        Ok(positions) => {
            let view = View {
                frame,
                scene,
                positions: &positions,
            };
            draw_layers(canvas, view, subject);
        }
        Err(_) => canvas.pen.run_out(),
    }
}

/// What is below the scene, and how large the picture is with it.
fn draw_below(canvas: &mut Canvas, frame: Frame, texts: &Texts) -> Size {
    let least = width_of_legend(canvas.shown).min(LEAST_WIDTH);
    let width = frame.right().max(canvas.right).max(least);
    let below = draw_legend(canvas, frame.bottom() + 20, width);
    let names = &canvas.without_room;
    let height = draw_names_below(&mut canvas.pen, texts, names, below, width);
    Size { width, height }
}

/// Draws all that is in the picture of a scene, and answers how large it is.
fn draw_all(canvas: &mut Canvas, subject: Subject<'_, '_>) -> Size {
    let frame = Frame::of(subject.scene);
    draw_title(canvas, subject);
    draw_garbage(canvas, frame, subject);
    draw_scene(canvas, frame, subject);
    draw_below(canvas, frame, &subject.scene.texts)
}

/// What is in front of the drawing.
fn write_front(pen: &mut Pen, size: Size, subject: Subject<'_, '_>) {
    write_head(pen, size);
    write_words(pen, subject);
    write_looks(pen);
}

/// The picture of a scene.
pub(crate) fn picture(alloc: Global, subject: Subject<'_, '_>) -> Result<Vec<u8>, AllocError> {
    let mut canvas = Canvas::new(alloc);
    let size = draw_all(&mut canvas, subject);
    let drawn = canvas.finish()?;
    let mut pen = Pen::new(alloc);
    write_front(&mut pen, size, subject);
    pen.text(&drawn);
    pen.text(b"</svg>\n");
    drop(drawn);
    pen.finish()
}
