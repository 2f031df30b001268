//! Lines as they are explained.

ghost use Rattle.std.specs.Prelude.{◌≡◌, ◌≤◌, ◌<◌, length, IfOk};
ghost use Rattle.report_line.specs.Reading.{Spells};
ghost use Rattle.report_line.specs.declared.call.Call.{Call as AnyCall};
ghost use Rattle.line_explain.specs.Answers.{longest, IsExplained};

use crate::explained::Explained;
use crate::fields::wrong_word;
use report_line::{LineFault, Words, read_line};
use std::alloc::{AllocError, Global};

/// How many bytes a line has at most.
const LONGEST: usize = 8192;

// Why a line that is no call is none.
fn outside(alloc: Global, line: &[u8]) -> Result<Explained, AllocError>
    requires short { length line.now ≤ longest }
    requires no_call { (c : AnyCall) → ¬ Spells c line.now }
    ensures { IfOk result (IsExplained line.now) }
{
    let mut words = Words::of(line);
    match wrong_word(alloc, &mut words)? {
        Some(found) => Ok(Explained::Wrong(found)),
        None => unreachable!(),
    }
}

/// What a line without its LF is: the call that it spells, or the first word that no call has there, and why. A line above 8,192 bytes is too
/// long, whatever its words are.
pub fn explain(alloc: Global, line: &[u8]) -> Result<Explained, AllocError>
    ensures told { IfOk result (IsExplained line.now) }
    // A line of a call is told to be that call.
    ensures call { (c : AnyCall) → length line.now ≤ longest → Spells c line.now → IfOk result (λ e. e ≡ Explained.Is c) }
{
    if line.len() > LONGEST {
        return Ok(Explained::TooLong);
    }
    match read_line(alloc, line) {
        Ok(call) => Ok(Explained::Is(call)),
        Err(LineFault::Memory) => Err(AllocError),
        Err(LineFault::Grammar) => outside(alloc, line),
    }
}
