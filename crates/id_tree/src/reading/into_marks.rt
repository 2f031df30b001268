//! Reads the text of an id in one pass, straight into its marks. Of a text with a fault it says whether it is no tree's, or that of a tree
//! which is not in normal form, where nothing else stops the pass.

ghost use Rattle.std.specs.Prelude.{◌≡◌, ◌∷◌, ◌++◌, MatchOption, IfOk, IfErr, OnOk, []};
ghost use Rattle.id_tree.specs.working.Taking.{BeginsNot, IsLeafPut, IsTaken, IsHalt, IsWhole, IsHaltOfWhole};
ghost use Rattle.id_tree.specs.working.Taking as taking;

use crate::marks::{Mark, Marks};
use smallvec::SmallVec;
use std::alloc::Global;

/// How deep an id may be.
const MOST_LEVELS: u32 = 40;

/// What is told of the form of a tree: which leaf it is, that it is a pair in normal form, or that it is in none.
#[derive(Clone, Copy)]
pub enum Form {
    Zero,
    One,
    Pair,
    NotNormal,
}

/// What is told of a tree that was read: what stands behind it, and its form.
#[derive(Clone, Copy)]
pub struct Taken<'a> {
    pub rest: &'a [u8],
    pub form: Form,
}

/// Why no id was read: no tree's text stands there, that of a tree which is not in normal form, or something else, as that memory is
/// wanting.
#[derive(Clone, Copy, Drop)]
pub enum Halt {
    NoTree,
    NotNormal,
    Other,
}

// What stands behind this byte.
#[inline(always)]
fn behind(byte: u8, text: &[u8]) -> Option<&[u8]>
    ensures { MatchOption result (BeginsNot byte text.now) (λ rest. text.now ≡ byte ∷ rest.now) }
{
    match text.split_first() {
        Some((first, rest)) => { if *first == byte { Some(rest) } else { None } }
        None => None,
    }
}

// How many marks are still to come where a tree, at most so deep, stands at the front, with so much behind its first byte: each pair
// around it ends in a byte, and the others are two for each mark and one less. So it is too where the last byte is cut off.
fn marks_left(behind: usize, levels: u32) -> usize {
    let around = MOST_LEVELS.saturating_sub(levels);
    behind.saturating_add(3).saturating_sub(around as usize) / 2
}

// Appends a mark where there is no room for it yet. Room is made for all that are still to come, and at most for four times as many as
// there are, so that it follows what was read.
#[cold]
#[inline(never)]
fn put_beyond(out: &mut Marks, mark: Mark, behind: usize, levels: u32) -> Result<(), Halt>
    ensures ok { OnOk result (out.new.items ≡ out.old.items ++ mark ∷ []) }
    ensures err { IfErr result (λ halt. halt ≡ Halt.Other) }
{
    let more = out.len().saturating_mul(3).min(marks_left(behind, levels));
    let Ok(()) = out.reserve_exact(more) else {
        return Err(Halt::Other);
    };
    let Ok(()) = out.push(mark) else {
        return Err(Halt::Other);
    };
    Ok(())
}

// Appends the first mark of a tree, at most so deep, with so much behind its first byte.
#[inline(always)]
fn put(out: &mut Marks, mark: Mark, behind: usize, levels: u32) -> Result<(), Halt>
    ensures ok { OnOk result (out.new.items ≡ out.old.items ++ mark ∷ []) }
    ensures err { IfErr result (λ halt. halt ≡ Halt.Other) }
{
    if out.len() == out.capacity() {
        return put_beyond(out, mark, behind, levels);
    }
    out.push_reserved(mark);
    Ok(())
}

// A leaf before this text, where a tree may be so deep.
#[inline(always)]
fn put_leaf<'a>(
    rest: &'a [u8],
    mark: Mark,
    form: Form,
    levels: u32,
    out: &mut Marks,
) -> Result<Taken<'a>, Halt>
    ensures ok { IfOk result (λ taken. IsLeafPut rest.now mark form out.old.items out.new.items taken) }
    ensures err { IfErr result (λ halt. halt ≡ Halt.Other) }
{
    let Ok(()) = put(out, mark, rest.len(), levels) else {
        return Err(Halt::Other);
    };
    Ok(Taken { rest, form })
}

// The leaf that stands at the front, where no pair does.
#[inline(always)]
fn take_leaf<'a>(text: &'a [u8], levels: u32, out: &mut Marks) -> Result<Taken<'a>, Halt>
    requires { BeginsNot 40 text.now }
    ensures ok { IfOk result (λ taken. IsTaken levels text.now out.old.items out.new.items taken) }
    ensures err { IfErr result (λ halt. IsHalt halt text.now) }
{
    match behind(b'0', text) {
        Some(rest) => put_leaf(rest, Mark::Zero, Form::Zero, levels, out),
        None => match behind(b'1', text) {
            Some(rest) => put_leaf(rest, Mark::One, Form::One, levels, out),
            None => Err(Halt::NoTree),
        },
    }
}

// Whether a tree of this form is in normal form.
#[inline(always)]
fn is_normal(form: Form) -> bool
    ensures { result ≡ taking.is_normal form }
{
    match form {
        Form::Zero | Form::One | Form::Pair => true,
        Form::NotNormal => false,
    }
}

// The form of a pair of these.
#[inline(always)]
fn pair_form(left: Form, right: Form) -> Form
    ensures { result ≡ taking.pair_form left right }
{
    match (left, right) {
        (Form::NotNormal, _) | (_, Form::NotNormal) => Form::NotNormal,
        (Form::Zero, Form::Zero) | (Form::One, Form::One) => Form::NotNormal,
        _ => Form::Pair,
    }
}

// The tree that stands at the front, at most so deep. Half of all marks are leaves, which take no call.
#[inline(always)]
#[cycle(take)]
fn take_id<'a>(text: &'a [u8], levels: u32, out: &mut Marks) -> Result<Taken<'a>, Halt>
    ensures ok { IfOk result (λ taken. IsTaken levels text.now out.old.items out.new.items taken) }
    ensures err { IfErr result (λ halt. IsHalt halt text.now) }
{
    match behind(b'(', text) {
        Some(inside) => take_pair(inside, levels, out),
        None => take_leaf(text, levels, out),
    }
}

// The pair whose bracket stands before this text, at most so deep.
#[cycle(take)]
fn take_pair<'a>(inside: &'a [u8], levels: u32, out: &mut Marks) -> Result<Taken<'a>, Halt>
    ensures ok { IfOk result (λ taken. IsTaken levels (40 ∷ inside.now) out.old.items out.new.items taken) }
    ensures err { IfErr result (λ halt. IsHalt halt (40 ∷ inside.now)) }
{
    if levels == 0 {
        return Err(Halt::Other);
    }
    let Ok(()) = put(out, Mark::Pair, inside.len(), levels) else {
        return Err(Halt::Other);
    };
    let left = match take_id(inside, levels - 1, out) {
        Ok(left) => left,
        Err(halt) => return Err(halt),
    };
    let second = match behind(b',', left.rest) {
        Some(second) => second,
        None => return Err(Halt::NoTree),
    };
    let right = match take_id(second, levels - 1, out) {
        Ok(right) => right,
        Err(halt) => return Err(halt),
    };
    let rest = match behind(b')', right.rest) {
        Some(rest) => rest,
        None => return Err(Halt::NoTree),
    };
    Ok(Taken {
        rest,
        form: pair_form(left.form, right.form),
    })
}

// The marks of the id that the whole text spells come then.
fn take_all(text: &[u8], out: &mut Marks) -> Result<(), Halt>
    requires { out.old.items ≡ [] }
    ensures ok { OnOk result (IsWhole text.now out.new.items) }
    ensures err { IfErr result (λ halt. IsHaltOfWhole halt text.now) }
{
    match take_id(text, MOST_LEVELS, out) {
        Ok(taken) => {
            if !taken.rest.is_empty() {
                return Err(Halt::NoTree);
            }
            if is_normal(taken.form) {
                Ok(())
            } else {
                Err(Halt::NotNormal)
            }
        }
        Err(halt) => Err(halt),
    }
}

// Whether an id may begin so: with a bracket, or with a leaf alone.
#[inline(always)]
fn may_begin(text: &[u8]) -> bool {
    match text {
        [b'(', ..] | [_] => true,
        _ => false,
    }
}

// The marks of the id that the bytes spell, or why there are none.
pub fn read(alloc: Global, text: &[u8]) -> Result<Marks, Halt>
    ensures ok { IfOk result (λ marks. IsWhole text.now marks.items) }
    ensures err { IfErr result (λ halt. IsHaltOfWhole halt text.now) }
{
    if !may_begin(text) {
        return Err(Halt::Other);
    }
    let mut out = SmallVec::new(alloc);
    match take_all(text, &mut out) {
        Ok(()) => Ok(out),
        Err(halt) => Err(halt),
    }
}
