//! Whether a word is what is wanted, and why it is not.

ghost use Rattle.std.specs.Prelude.{◌≡◌, ◌↔◌, IsTrue, IfOk, Some, None, if◌then◌else◌};
ghost use Rattle.line_explain.specs.Wanting.{Fits};
ghost use Rattle.line_explain.specs.working.Shapes.{TellsFit, stamp_answer, id_answer, told};
ghost use Rattle.line_explain.specs.declared.wanted.Wanted.TheVariants as wanted;

use crate::fault::{TreeFault, Why};
use crate::number::is_number;
use crate::wanted::Wanted;
use id_tree::{Id, IdFault};
use report_line::{is_name, wrong_part};
use stamp::{Stamp, StampTextFault};
use std::alloc::{AllocError, Global};

// Whether the word is names parted by commas, or `-` for none.
fn are_names(word: &[u8]) -> bool
    ensures { IsTrue result ↔ Fits wanted.Names word.now }
{
    if word == b"-".as_slice() {
        return true;
    }
    match wrong_part(word) {
        None => true,
        Some(_) => false,
    }
}

// What is told of a text that is no stamp.
fn stamp_cause(fault: StampTextFault) -> Result<Option<Why>, AllocError>
    ensures { result ≡ stamp_answer fault }
{
    match fault {
        StampTextFault::Syntax => Ok(Some(Why::Stamp(TreeFault::NoText))),
        StampTextFault::NotNormal => Ok(Some(Why::Stamp(TreeFault::NotNormal))),
        StampTextFault::TooDeep => Ok(Some(Why::Stamp(TreeFault::TooDeep))),
        StampTextFault::TooLarge => Ok(Some(Why::TooLarge)),
        StampTextFault::Memory => Err(AllocError),
    }
}

// Why the word is no stamp, if it is none.
fn stamp_misfit(alloc: Global, word: &[u8]) -> Result<Option<Why>, AllocError>
    ensures { IfOk result (TellsFit wanted.Stamp word.now) }
{
    match Stamp::parse(alloc, word) {
        Ok(stamp) => {
            stamp.recall_facts();
            Ok(None)
        }
        Err(fault) => stamp_cause(fault),
    }
}

// What is told of a text that is no id.
fn id_cause(fault: IdFault) -> Result<Option<Why>, AllocError>
    ensures { result ≡ id_answer fault }
{
    match fault {
        IdFault::Syntax => Ok(Some(Why::Id(TreeFault::NoText))),
        IdFault::NotNormal => Ok(Some(Why::Id(TreeFault::NotNormal))),
        IdFault::TooDeep => Ok(Some(Why::Id(TreeFault::TooDeep))),
        IdFault::Memory => Err(AllocError),
    }
}

// Why the word is no id, if it is none.
fn id_misfit(alloc: Global, word: &[u8]) -> Result<Option<Why>, AllocError>
    ensures { IfOk result (TellsFit wanted.Id word.now) }
{
    match Id::parse(alloc, word) {
        Ok(id) => {
            id.recall_facts();
            Ok(None)
        }
        Err(fault) => id_cause(fault),
    }
}

// The cause, where the word does not fit.
fn unless(fits: bool, cause: Why) -> Option<Why>
    ensures { result ≡ (if fits then None else Some cause) }
{
    if fits { None } else { Some(cause) }
}

// Why the word is not what is wanted, if it is not.
pub(crate) fn misfit(alloc: Global, wanted: Wanted, word: &[u8]) -> Result<Option<Why>, AllocError>
    ensures { IfOk result (TellsFit wanted word.now) }
{
    match wanted {
        Wanted::Name => Ok(unless(is_name(word), Why::Name)),
        Wanted::Number => Ok(unless(is_number(word), Why::Number)),
        Wanted::Stamp => stamp_misfit(alloc, word),
        Wanted::Id => id_misfit(alloc, word),
        Wanted::Names => Ok(unless(are_names(word), Why::Names)),
    }
}

// An empty word is told to be empty, whatever else is wrong with it.
pub(crate) fn told(word: &[u8], why: Why) -> Why
    ensures { result ≡ told word.now why }
{
    match word {
        [] => Why::Empty,
        _ => why,
    }
}
