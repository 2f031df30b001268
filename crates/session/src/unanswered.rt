//! Bytes that were read, and of which no line is answered yet.

ghost use Rattle.std.specs.Prelude.{◌≡◌, ◌≤◌, ◌<◌, ◌++◌, ◌∷◌, ◌+◌, ◌↔◌, ℕ, List, [], length, take, drop, IsTrue, IfSome, MatchOption, OnOk, OnErr};
ghost use Rattle.report_line.specs.Cutting.{NoBreak, IsLine, ended, cut_of, line_limit};

use memchr::memchr;
use std::alloc::{AllocError, Global};
use std::marker::Model;

/// The greatest length of a line before its LF.
const MOST: usize = 8192;

/// The bytes behind the last line that was answered.
pub(crate) struct Unanswered {
    alloc: Global,
    bytes: Vec<u8>,
    // So many of them are of lines that were answered.
    at: usize,
}

impl Drop for Unanswered {
    fn drop(self) {
        let Unanswered {
            alloc: _,
            bytes: _,
            at: _,
        } = self;
    }
}

impl Model for Unanswered {
    ghost use Rattle.std.specs.Prelude.{◌≤◌, List, ℕ, drop, length};

    ghost Value = { List ℕ };

    ghost view = { λ u. drop u.at u.bytes.items };

    ghost invariant = { λ u. u.at ≤ length u.bytes.items };
}

/// Where the first LF stands.
fn first_break(bytes: &[u8]) -> Option<usize>
    ensures first { MatchOption result (NoBreak bytes.now) (λ at. NoBreak (take at bytes.now) × (bytes.now ≡ take at bytes.now ++ 10 ∷ drop (at + 1) bytes.now)) }
    ensures within { IfSome result (λ at. at < length bytes.now) }
{
    memchr(b'\n', bytes)
}

/// The first line of the bytes, if one is there that is not too long.
fn first_line(bytes: &[u8]) -> Option<&[u8]>
    ensures { MatchOption result ((cut_of bytes.now).0 ≡ []) (λ line. IsLine line.now × ((rest : List ℕ) × (bytes.now ≡ ended line.now ++ rest))) }
{
    let Some(at) = first_break(bytes) else {
        return None;
    };
    if at > MOST {
        return None;
    }
    Some(&bytes[..at])
}

impl Unanswered {
    /// No bytes. It takes no memory.
    pub(crate) fn new(alloc: Global) -> Unanswered
        ensures { result ≡ [] }
    {
        Unanswered {
            alloc,
            bytes: Vec::new(alloc),
            at: 0,
        }
    }

    /// How many there are.
    pub(crate) fn len(&self) -> usize
        ensures { result ≡ length self.now }
    {
        self.bytes.len() - self.at
    }

    /// Whether they are more than a line may have.
    pub(crate) fn is_long(&self) -> bool
        ensures { IsTrue result ↔ (line_limit < length self.now) }
    {
        self.bytes.len() - self.at > MOST
    }

    /// The first line, if one is there that is not too long.
    pub(crate) fn line(&self) -> Option<&[u8]>
        ensures { MatchOption result ((cut_of self.now).0 ≡ []) (λ line. IsLine line.now × ((rest : List ℕ) × (self.now ≡ ended line.now ++ rest))) }
    {
        first_line(&self.bytes[self.at..])
    }

    /// Takes so many bytes away, and gives back their memory where none is left.
    pub(crate) fn drop_front(&mut self, n: usize)
        requires { n ≤ length self.old }
        ensures { self.new ≡ drop n self.old }
    {
        self.at += n;
        if self.at == self.bytes.len() {
            self.bytes = Vec::new(self.alloc);
            self.at = 0;
        }
    }

    /// Adds bytes that were read behind them.
    pub(crate) fn add(&mut self, piece: &[u8]) -> Result<(), AllocError>
        ensures ok { OnOk result (self.new ≡ self.old ++ piece.now) }
        ensures err { OnErr result (self.new ≡ self.old) }
    {
        let rest = &self.bytes[self.at..];
        let mut bytes = Vec::with_capacity(self.alloc, rest.len() + piece.len())?;
        bytes.extend_from_slice(rest)?;
        bytes.extend_from_slice(piece)?;
        self.bytes = bytes;
        self.at = 0;
        Ok(())
    }
}
