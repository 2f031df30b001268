//! Names in a row, kept as the text in which a call has them: one block for all of them.

ghost use Rattle.std.specs.Prelude.{◌≡◌, ◌≤◌, ◌↔◌, ◌==◌, List, [], ◌∷◌, ◌++◌, ℕ, IsTrue, MatchOption, IfNone, IfOk, OnOk, OnErr, length};
ghost use Rattle.std.specs.List.{count_by};
ghost use Rattle.report_line.specs.Names.{AreNames};
ghost use Rattle.report_line.specs.working.Rows.{appended, named_in};
ghost use Rattle.report_line.specs.Spelling.{names_text};

use crate::name::{Name, name_of};
use crate::words::cut_once;
use std::alloc::{AllocError, Global};
use std::marker::Model;

// A name behind those of a text.
fn append_name(text: &mut Vec<u8>, name: &[u8]) -> Result<(), AllocError>
    requires { length name.now ≤ 32 }
    ensures ok { OnOk result (text.new.items ≡ appended text.old.items name.now) }
    ensures err { OnErr result (text.new.items ≡ text.old.items) }
{
    if text.is_empty() {
        return text.extend_from_slice(name);
    }
    text.reserve(name.len() + 1)?;
    text.push_reserved(b',');
    text.extend_from_slice(name)
}

fn are_same(text: &[u8], other: &[u8]) -> bool
    ensures { IsTrue result ↔ (text.now ≡ other.now) }
{
    text == other
}

// How many commas a text has.
fn commas_in(text: &[u8]) -> usize
    ensures count { result ≡ count_by (λ b. b == 44) text.now }
    ensures at_most { result ≤ length text.now }
{
    text.iter().filter(|b| **b == b',').count()
}

// How many names a text has.
fn count_in(text: &[u8]) -> usize
    ensures { result ≡ length (named_in text.now) }
{
    match text {
        [] => 0,
        _ => commas_in(text) + 1,
    }
}

// The word that the names of a text have in a call.
fn word_of(text: &[u8]) -> &[u8]
    ensures { result.now ≡ names_text (named_in text.now) }
{
    match text {
        [] => b"-",
        _ => text,
    }
}

/// Names in a row.
pub struct Names {
    text: Vec<u8>,
}

impl Drop for Names {
    fn drop(self) {
        let Names { text: _ } = self;
    }
}

impl Model for Names {
    ghost use Rattle.std.specs.Prelude.{List, ℕ};
    ghost use Rattle.report_line.specs.Names.{AreNames};
    ghost use Rattle.report_line.specs.working.Rows.{named_in};

    ghost Value = { List (List ℕ) };

    ghost view = { λ n. named_in n.text.items };

    ghost invariant = { λ n. AreNames (named_in n.text.items) };
}

impl Names {
    /// No names. It takes no memory.
    pub fn new(alloc: Global) -> Names
        ensures { result ≡ [] }
    {
        Names {
            text: Vec::new(alloc),
        }
    }

    /// No names, with room for those of a text of so many bytes.
    pub fn with_room(alloc: Global, bytes: usize) -> Result<Names, AllocError>
        ensures { IfOk result (λ ns. ns ≡ []) }
    {
        let text = Vec::with_capacity(alloc, bytes)?;
        Ok(Names { text })
    }

    /// Appends a name. On a refused growth they are the names of before.
    pub fn push(&mut self, name: Name) -> Result<(), AllocError>
        ensures ok { OnOk result (self.new ≡ self.old ++ name ∷ []) }
        ensures err { OnErr result (self.new ≡ self.old) }
    {
        append_name(&mut self.text, name.as_bytes())
    }

    /// Tells a proof that they are names.
    pub fn recall_facts(&self)
        ensures { AreNames self.now }
    {
        let _text = &self.text;
    }

    /// The names, in order, one after the other.
    pub fn left(&self) -> NamesLeft<'_>
        ensures { result ≡ self.now }
    {
        if self.text.is_empty() {
            return NamesLeft { rest: None };
        }
        NamesLeft {
            rest: Some(&self.text),
        }
    }

    /// The names, in order, each of 33 bytes.
    pub fn to_vec(&self, alloc: Global) -> Result<Vec<Name>, AllocError>
        ensures { IfOk result (λ names. names.items ≡ self.now) }
    {
        let mut left = self.left();
        let mut names = Vec::new(alloc);
        while let Some(name) = left.next() {
            names.push(name)?;
        }
        Ok(names)
    }

    /// How many names these are.
    pub fn count(&self) -> usize
        ensures { result ≡ length self.now }
    {
        count_in(&self.text)
    }

    /// Whether these are the same names in the same order.
    pub fn equal(&self, other: &Names) -> bool
        ensures { IsTrue result ↔ (self.now ≡ other.now) }
    {
        are_same(&self.text, &other.text)
    }

    /// The same names once more.
    pub fn copy(&self, alloc: Global) -> Result<Names, AllocError>
        ensures { IfOk result (λ c. c ≡ self.now) }
    {
        let mut text = Vec::with_capacity(alloc, self.text.len())?;
        text.extend_from_slice(&self.text)?;
        Ok(Names { text })
    }

    /// Appends the word that the names have in a call. On a refused growth `out` is as it was.
    pub fn write_to(&self, out: &mut Vec<u8>) -> Result<(), AllocError>
        ensures ok { OnOk result (out.new.items ≡ out.old.items ++ names_text self.now) }
        ensures err { OnErr result (out.new.items ≡ out.old.items) }
    {
        out.extend_from_slice(word_of(&self.text))
    }
}

/// The names that are left of some, seen as these.
#[derive(Drop)]
pub struct NamesLeft<'a> {
    rest: Option<&'a [u8]>,
}

impl<'a> Model for NamesLeft<'a> {
    ghost use Rattle.std.specs.Prelude.{List, ℕ};
    ghost use Rattle.report_line.specs.Names.{AreNames};
    ghost use Rattle.report_line.specs.working.Rows.{named_left};

    ghost Value = { List (List ℕ) };

    ghost view = { λ n. named_left n.rest };

    ghost invariant = { λ n. AreNames (named_left n.rest) };
}

impl<'a> NamesLeft<'a> {
    /// The next name. It takes no memory.
    pub fn next(&mut self) -> Option<Name>
        ensures name { MatchOption result (self.old ≡ []) (λ name. self.old ≡ name ∷ self.new) }
        ensures end { IfNone result (self.new ≡ []) }
    {
        let rest = self.rest?;
        match cut_once(b',', rest) {
            None => {
                self.rest = None;
                Some(name_of(rest))
            }
            Some((part, behind)) => {
                self.rest = Some(behind);
                Some(name_of(part))
            }
        }
    }
}
