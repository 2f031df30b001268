//! The words of a line, one after the other. They take no memory.

ghost use Rattle.std.specs.Prelude.{◌≡◌, ◌↔◌, ◌++◌, ◌∷◌, [], IfNone, IsTrue, MatchOption};
ghost use Rattle.memchr.specs.Find.{IsFirstByte, is_byte};
ghost use Rattle.report_line.specs.Cuts.{Lacks, words_in};

use memchr::memchr;
use std::marker::Model;

/// Up to how many bytes are looked at one by one, which takes less time than a search of many at once.
const FEW: usize = 8;

// Where the first such byte of a few stands.
#[inline(always)]
fn first_of_few(byte: u8, few: &[u8]) -> Option<usize>
    ensures { IsFirstByte (is_byte byte) few.now result }
{
    few.iter().position(|b| *b == byte)
}

// Where the first such byte stands.
#[inline(always)]
fn first_of(byte: u8, bytes: &[u8]) -> Option<usize>
    ensures { IsFirstByte (is_byte byte) bytes.now result }
{
    if bytes.len() <= FEW {
        return first_of_few(byte, bytes);
    }
    let (few, many) = bytes.split_at(FEW);
    match first_of_few(byte, few) {
        Some(at) => Some(at),
        None => match memchr(byte, many) {
            Some(at) => Some(FEW + at),
            None => None,
        },
    }
}

/// The bytes in front of the first such byte, and those after it; nothing if there is no such byte. It takes no memory.
#[inline(always)]
pub fn cut_once(byte: u8, bytes: &[u8]) -> Option<(&[u8], &[u8])>
    ensures { MatchOption result (Lacks byte bytes.now) (λ parts. Lacks byte parts.0.now × (bytes.now ≡ parts.0.now ++ byte ∷ parts.1.now)) }
{
    let at = first_of(byte, bytes)?;
    Some((&bytes[..at], &bytes[at + 1..]))
}

/// The words that are left of a line.
#[derive(Drop)]
pub struct Words<'a> {
    rest: Option<&'a [u8]>,
}

impl<'a> Model for Words<'a> {
    ghost use Rattle.std.specs.Prelude.{List, ℕ};
    ghost use Rattle.report_line.specs.Cuts.{words_left};

    ghost Value = { List (List ℕ) };

    ghost view = { λ w. words_left w.rest };
}

impl<'a> Words<'a> {
    /// The words of the line, parted by single spaces.
    pub fn of(line: &'a [u8]) -> Words<'a>
        ensures { result ≡ words_in line.now }
    {
        Words { rest: Some(line) }
    }

    /// Whether no word is left.
    #[tactic(auto, using(crate::proofs::Parting::some_word))]
    pub fn is_empty(&self) -> bool
        ensures { IsTrue result ↔ (self.now ≡ []) }
    {
        match self.rest {
            None => true,
            Some(_) => false,
        }
    }

    /// The next word.
    pub fn next(&mut self) -> Option<&'a [u8]>
        ensures word { MatchOption result (self.old ≡ []) (λ word. self.old ≡ word.now ∷ self.new) }
        ensures end { IfNone result (self.new ≡ []) }
    {
        let rest = self.rest?;
        match cut_once(b' ', rest) {
            None => {
                self.rest = None;
                Some(rest)
            }
            Some((word, behind)) => {
                self.rest = Some(behind);
                Some(word)
            }
        }
    }
}
