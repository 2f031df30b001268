//! The first word of a line.

ghost use Rattle.std.specs.Prelude.{◌≡◌, ◌↔◌, IsTrue, MatchOption};
ghost use Rattle.line_explain.specs.Reasons.{IsMarked};
ghost use Rattle.line_explain.specs.working.Shapes.{IsUnmarked, IsMarkable, IsKindOf, IsMarkedKind, IsNoKind};
ghost use Rattle.line_explain.specs.declared.kind.Shape.{Shape as AnyShape};

use crate::fault::Why;
use crate::fitting::told;
use crate::number::is_number;
use report_line::cut_once;

/// The calls by what stands behind their first word.
#[derive(Clone, Copy)]
pub(crate) enum Shape {
    /// `GARBAGE` and `BYE`: nothing.
    Bare,
    /// `BEGIN` and `STATE`: a name.
    Named,
    /// `LINE`: names.
    Failed,
    /// `SETTLE`: a number and names.
    Settling,
    /// `CHECK` and `PRESENT`: a name, a number and a stamp.
    Reported,
    /// `RETIRE` and `ABSORB`: the same, and one more name.
    Handing,
    /// `FORK`: the same as of `CHECK`, and an id, a name and an id.
    Forking,
}

// The shape of the calls that begin with this word and bear no mark.
fn unmarked_shape(word: &[u8]) -> Option<Shape>
    ensures { MatchOption result ((s : AnyShape) → ¬ IsUnmarked s word.now) (λ s. IsUnmarked s word.now) }
{
    if word == b"GARBAGE".as_slice() {
        return Some(Shape::Bare);
    }
    if word == b"BYE".as_slice() {
        return Some(Shape::Bare);
    }
    if word == b"BEGIN".as_slice() {
        return Some(Shape::Named);
    }
    if word == b"STATE".as_slice() {
        return Some(Shape::Named);
    }
    if word == b"LINE".as_slice() {
        return Some(Shape::Failed);
    }
    if word == b"SETTLE".as_slice() {
        return Some(Shape::Settling);
    }
    None
}

// The shape of the calls that begin with this word and may bear a mark.
fn markable_shape(word: &[u8]) -> Option<Shape>
    ensures { MatchOption result ((s : AnyShape) → ¬ IsMarkable s word.now) (λ s. IsMarkable s word.now) }
{
    if word == b"CHECK".as_slice() {
        return Some(Shape::Reported);
    }
    if word == b"PRESENT".as_slice() {
        return Some(Shape::Reported);
    }
    if word == b"RETIRE".as_slice() {
        return Some(Shape::Handing);
    }
    if word == b"ABSORB".as_slice() {
        return Some(Shape::Handing);
    }
    if word == b"FORK".as_slice() {
        return Some(Shape::Forking);
    }
    None
}

// The shape of the calls that begin with this word, of those that may bear a mark.
fn marked_shape(kind: &[u8]) -> Option<Shape>
    ensures { MatchOption result ((s : AnyShape) → ¬ IsMarkedKind s kind.now) (λ s. IsMarkedKind s kind.now) }
{
    let Some((word, digits)) = cut_once(b'@', kind) else {
        return markable_shape(kind);
    };
    if !is_number(digits) {
        return None;
    }
    markable_shape(word)
}

// The shape of the calls that begin with this word.
pub(crate) fn shape_of(kind: &[u8]) -> Option<Shape>
    ensures { MatchOption result ((s : AnyShape) → ¬ IsKindOf s kind.now) (λ s. IsKindOf s kind.now) }
{
    match unmarked_shape(kind) {
        Some(shape) => Some(shape),
        None => marked_shape(kind),
    }
}

// Whether the word is the first of a call with an `@` and something behind it.
fn is_marked(kind: &[u8]) -> bool
    ensures { IsTrue result ↔ IsMarked kind.now }
{
    let Some((word, _)) = cut_once(b'@', kind) else {
        return false;
    };
    match shape_of(word) {
        Some(_) => true,
        None => false,
    }
}

// What is wrong with a first word that is that of no call.
pub(crate) fn wrong_kind(kind: &[u8]) -> Why
    ensures { IsNoKind kind.now result }
{
    if is_marked(kind) {
        told(kind, Why::Mark)
    } else {
        told(kind, Why::Kind)
    }
}
