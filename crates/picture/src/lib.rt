//! Pictures as SVG: of scripts, and of computations that really ran, by what was accepted of them. Both show a history, its settlements, the
//! recovery line through it, what it undoes, and what is obsolete.
//!
//! A scene has a row for each process, in order of birth, and a column for each step, which stands behind all that it comes right behind; so
//! steps that are concurrent may share one. Two things make scenes: the steps of a script, with their messages; and the reports of chains,
//! with what the stamps tell of who knew what. The layers of a picture are drawn over either.
#![tactic(auto)]

mod arrows;
mod canvas;
mod drawing;
mod ending;
mod following;
mod frame;
mod knowledge;
mod labels;
mod lane;
mod legend;
mod lines;
mod lives;
mod looks;
mod mark;
mod marks;
mod pen;
mod placing;
mod reason;
mod recorded;
mod reported;
mod scene;
mod scripted;
mod shapes;
mod sheet;
mod telling;
mod words;

pub use drawing::draw;
pub use ending::Ending;
pub use recorded::draw_accepted;
