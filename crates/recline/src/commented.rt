//! Scripts with comments.

ghost use Rattle.std.specs.Prelude.{◌≡◌, ◌++◌, ◌∷◌, [], IfOk, OnOk};
ghost use Rattle.script.specs.Driven.{AreLinesOf};
ghost use Rattle.recline.specs.Commented.{is_passed_on, number_in, passed_on, NumbersSteps};
ghost use Rattle.recline.specs.working.Commented.{lines_of};

use script::cut_line;
use std::alloc::{AllocError, Global};

/// How a script is written.
#[derive(Clone, Copy, Debug, PartialEq, Eq)]
pub enum ScriptForm {
    /// Each line is a step or a settlement.
    Plain,
    /// A line whose first byte is `#`, and a line with no byte at all, are passed over, and the others are driven. A step is told by
    /// the number of its line in the script, where all lines are counted.
    Commented,
}

/// Whether a line is passed on: it has a first byte, and this is no `#`.
fn is_passed_on(line: &[u8]) -> bool
    ensures { result ≡ is_passed_on line.now }
{
    match line.first() {
        Some(first) => *first != b'#',
        None => false,
    }
}

/// Adds a line with its LF, if it is passed on.
fn pass_on(text: &mut Vec<u8>, line: &[u8]) -> Result<(), AllocError>
    ensures { OnOk result (text.new.items ≡ text.old.items ++ passed_on (line.now ∷ [])) }
{
    if !is_passed_on(line) {
        return Ok(());
    }
    text.extend_from_slice(line)?;
    text.extend_from_slice(b"\n")
}

/// The lines of a script that are passed on, each with its LF. What stands behind the last LF is no line.
pub(crate) fn without_comments(alloc: Global, script: &[u8]) -> Result<Vec<u8>, AllocError>
    ensures passed_on { IfOk result (λ text. text.items ≡ passed_on (lines_of script.now)) }
    ensures lines { AreLinesOf script.now (lines_of script.now) }
{
    let mut text = Vec::new(alloc);
    let mut rest = script;
    while let Some((line, behind)) = cut_line(rest) {
        pass_on(&mut text, line)?;
        rest = behind;
    }
    Ok(text)
}

/// The number of the line of this step, where all lines of the script are counted from 1. Where fewer lines are passed on it is that
/// of the last one.
pub(crate) fn line_of(script: &[u8], step: u64) -> u64
    ensures number { result ≡ number_in (lines_of script.now) step }
    ensures law { NumbersSteps }
{
    let mut rest = script;
    let mut number = 0u64;
    let mut left = step;
    while let Some((line, behind)) = cut_line(rest) {
        number += 1;
        if is_passed_on(line) {
            if left <= 1 {
                return number;
            }
            left -= 1;
        }
        rest = behind;
    }
    number
}
