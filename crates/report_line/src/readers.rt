//! Readers of the parts of a line: names, lists of names, numbers, stamps and ids.

ghost use Rattle.std.specs.Prelude.{◌≡◌, ◌≢◌, ◌∷◌, ℕ, List, IsTrue, MatchOption};
ghost use Rattle.std.specs.Option.{option_copied};
ghost use Rattle.std.specs.Fmt.{decimal};
ghost use Rattle.id_tree.specs.NormalForm.{IsId};
ghost use Rattle.id_tree.specs.Spelling as ids;
ghost use Rattle.stamp.specs.Stamps.{IsStamp, stamp_text};
ghost use Rattle.report_line.specs.Cuts.{IsOneTaken};
ghost use Rattle.report_line.specs.Names.{is_name, wrong_part};
ghost use Rattle.report_line.specs.Spelling.{IsCount, AreNames, names_text};
ghost use Rattle.report_line.specs.Reading.{Finds, Takes};

use crate::fault::LineFault;
use crate::name::{Name, is_name};
use crate::number::positive_in;
use crate::row::Names;
use crate::words::{Words, cut_once};
use id_tree::{Id, IdFault};
use stamp::{Stamp, StampTextFault};
use std::alloc::Global;

/// The stamp that a word spells.
pub fn read_stamp(alloc: Global, word: &[u8]) -> Result<Stamp, LineFault>
    ensures { Finds result (λ s. IsStamp s × (word.now ≡ stamp_text s)) }
{
    match Stamp::parse(alloc, word) {
        Ok(stamp) => {
            stamp.recall_facts();
            Ok(stamp)
        }
        Err(StampTextFault::Memory) => Err(LineFault::Memory),
        Err(_) => Err(LineFault::Grammar),
    }
}

fn read_id(alloc: Global, word: &[u8]) -> Result<Id, LineFault>
    ensures { Finds result (λ i. IsId i × (word.now ≡ ids.spelling i)) }
{
    match Id::parse(alloc, word) {
        Ok(id) => {
            id.recall_facts();
            Ok(id)
        }
        Err(IdFault::Memory) => Err(LineFault::Memory),
        Err(_) => Err(LineFault::Grammar),
    }
}

/// The names that a word spells: names with commas between them, or `-` for none.
pub fn read_names(alloc: Global, word: &[u8]) -> Result<Names, LineFault>
    ensures { Finds result (λ ns. AreNames ns × (word.now ≡ names_text ns)) }
{
    if word == b"-".as_slice() {
        return Ok(Names::new(alloc));
    }
    let mut names = Names::with_room(alloc, word.len())?;
    let mut rest = word;
    while let Some((part, behind)) = cut_once(b',', rest) {
        let Some(name) = Name::from_bytes(part) else {
            return Err(LineFault::Grammar);
        };
        names.push(name)?;
        rest = behind;
    }
    let Some(last) = Name::from_bytes(rest) else {
        return Err(LineFault::Grammar);
    };
    names.push(last)?;
    Ok(names)
}

/// The first part of a list that is no name, with commas between them; nothing if each is a name. `-` is no name. It takes no memory.
pub fn wrong_part(word: &[u8]) -> Option<&[u8]>
    ensures { option_copied result ≡ wrong_part word.now }
{
    let mut rest = word;
    while let Some((part, behind)) = cut_once(b',', rest) {
        if !is_name(part) {
            return Some(part);
        }
        rest = behind;
    }
    if is_name(rest) { None } else { Some(rest) }
}

/// Takes the next word, and answers the name that it is; nothing if it is no name, or if no word is left.
pub fn take_name(words: &mut Words<'_>) -> Option<Name>
    ensures name { MatchOption result ((p : List ℕ) → IsTrue (is_name p) → (rest : List (List ℕ)) → words.old ≢ p ∷ rest) (λ p. IsTrue (is_name p) × (words.old ≡ p ∷ words.new)) }
    ensures taken { IsOneTaken words.old words.new }
{
    Name::from_bytes(words.next()?)
}

pub(crate) fn take_number(words: &mut Words<'_>) -> Result<u32, LineFault>
    ensures { Takes result IsCount decimal words.old words.new }
{
    let Some(word) = words.next() else {
        return Err(LineFault::Grammar);
    };
    match positive_in(word) {
        Some(number) => Ok(number),
        None => Err(LineFault::Grammar),
    }
}

pub(crate) fn take_stamp(alloc: Global, words: &mut Words<'_>) -> Result<Stamp, LineFault>
    ensures { Takes result IsStamp stamp_text words.old words.new }
{
    let Some(word) = words.next() else {
        return Err(LineFault::Grammar);
    };
    read_stamp(alloc, word)
}

pub(crate) fn take_id(alloc: Global, words: &mut Words<'_>) -> Result<Id, LineFault>
    ensures { Takes result IsId ids.spelling words.old words.new }
{
    let Some(word) = words.next() else {
        return Err(LineFault::Grammar);
    };
    read_id(alloc, word)
}
