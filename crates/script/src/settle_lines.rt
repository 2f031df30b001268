//! Lines as settlements.

ghost use Rattle.std.specs.Prelude.{◌≡◌, ◌≢◌, ◌∷◌, [], List, ℕ, IfOk, MatchOption, codes};
ghost use Rattle.script.specs.Spelling.{FindsOne, SpellsSettle};

use report_line::{LineFault, Names, Words, read_names};
use std::alloc::{AllocError, Global};

// The list of names that stands alone behind the word.
fn list_in<'a>(words: &mut Words<'a>) -> Option<&'a [u8]>
    ensures { MatchOption result ((list : List ℕ) → words.old ≢ codes "settle" ∷ list ∷ []) (λ list. words.old ≡ codes "settle" ∷ list.now ∷ []) }
{
    let Some(kind) = words.next() else {
        return None;
    };
    if kind != b"settle".as_slice() {
        return None;
    }
    let Some(list) = words.next() else {
        return None;
    };
    if words.is_empty() { Some(list) } else { None }
}

/// The failed processes for which this line settles, if it does.
pub fn read_settle(alloc: Global, line: &[u8]) -> Result<Option<Names>, AllocError>
    ensures { IfOk result (λ r. FindsOne r (λ names. SpellsSettle names line.now)) }
{
    let mut words = Words::of(line);
    let Some(list) = list_in(&mut words) else {
        return Ok(None);
    };
    match read_names(alloc, list) {
        Ok(names) => Ok(Some(names)),
        Err(LineFault::Grammar) => Ok(None),
        Err(LineFault::Memory) => Err(AllocError),
    }
}
