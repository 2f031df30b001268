//! The lines of a stream, each explained.

ghost use Rattle.std.specs.Prelude.{◌≡◌, ◌≢◌, ◌+◌, ◌^◌, ◌<◌, ◌≤◌, ◌++◌, ◌&&◌, ℕ, List, [], length, None, false, ◌↔◌, IsTrue, IfOk, OnOk};
ghost use Rattle.line_explain.specs.Streams.{told_line, told_lines, is_call, are_calls, IsAfter, Goes};
ghost use Rattle.line_explain.specs.working.Streams.{IsSaid, IsLineSaid};
ghost use Rattle.line_explain.specs.declared.explained.Explained.{Explained as AnyExplained};

use crate::explained::Explained;
use crate::explaining::explain;
use crate::text::push_pieces;
use itoa::Buffer;
use report_line::{Feed, Lines};
use std::alloc::{AllocError, Global};

/// What is said of some lines.
#[derive(Drop)]
struct Said {
    /// A line each.
    text: Vec<u8>,
    /// How many they are.
    number: u64,
    /// Whether each is a call.
    calls: bool,
}

// Whether it is a call.
fn is_call(told: &Explained) -> bool
    ensures { result ≡ is_call told.now }
{
    match told {
        Explained::Is(_) => true,
        Explained::TooLong | Explained::Wrong(_) => false,
    }
}

fn both(a: bool, b: bool) -> bool
    ensures { result ≡ (a && b) }
{
    a && b
}

// Appends an explanation with its number, and says whether it is that of a call.
fn push_told(out: &mut Vec<u8>, number: u64, told: &Explained) -> Result<bool, AllocError>
    ensures text { OnOk result (out.new.items ≡ out.old.items ++ told_line number told.now) }
    ensures call { IfOk result (λ call. call ≡ is_call told.now) }
{
    let mut digits = Buffer::new();
    push_pieces(out, &[digits.format(number).as_bytes(), b": ".as_slice()])?;
    told.write_to(out)?;
    push_pieces(out, &[b"\n".as_slice()])?;
    Ok(is_call(told))
}

// Appends the explanation of a line, and says whether it is a call.
fn push_line(alloc: Global, out: &mut Vec<u8>, number: u64, line: &[u8]) -> Result<bool, AllocError>
    ensures { IfOk result (IsLineSaid line.now number out.old.items out.new.items) }
{
    let told = explain(alloc, line)?;
    push_told(out, number, &told)
}

// What is said of the lines, from this number on.
fn lines_told(alloc: Global, lines: &Lines, first: u64) -> Result<Said, AllocError>
    requires { first + length lines.now < 2 ^ 64 }
    ensures { IfOk result (IsSaid lines.now false first) }
{
    let mut text = Vec::new(alloc);
    let mut calls = true;
    for i in 0..lines.len() {
        let call = push_line(alloc, &mut text, first + i as u64, lines.line(i))?;
        calls = both(calls, call);
    }
    Ok(Said {
        text,
        number: lines.len() as u64,
        calls,
    })
}

// The same, and behind them that the next one is too long, if it is.
fn all_told(alloc: Global, lines: &Lines, too_long: bool, first: u64) -> Result<Said, AllocError>
    requires { first + length lines.now + 1 < 2 ^ 64 }
    ensures { IfOk result (IsSaid lines.now too_long first) }
{
    if !too_long {
        return lines_told(alloc, lines, first);
    }
    let Said {
        mut text,
        number,
        calls: _,
    } = lines_told(alloc, lines, first)?;
    let calls = push_told(&mut text, first + number, &Explained::TooLong)?;
    Ok(Said {
        text,
        number: number + 1,
        calls,
    })
}

/// What explaining a stream has come to.
#[derive(Drop)]
pub struct Explanations {
    /// Where the stream stands.
    pub feed: Feed,
    /// How many lines were explained.
    pub told: u64,
    /// Whether each of them is a call.
    pub calls: bool,
}

impl Explanations {
    /// Nothing has come of the stream.
    pub fn new(alloc: Global) -> Explanations
        ensures { IsAfter [] [] result }
    {
        Explanations {
            feed: Feed::new(alloc),
            told: 0,
            calls: true,
        }
    }

    /// Takes the next piece of the stream, and gives what is said of the lines that it completes: a line each, with its number in the stream
    /// in front. A line that is too long is the last one.
    pub fn push(&mut self, alloc: Global, piece: &[u8]) -> Result<Vec<u8>, AllocError>
        requires going { self.old.feed ≢ None }
        requires room { self.old.told + length piece.now + 2 < 2 ^ 64 }
        ensures told { (stream : List ℕ) (told : List AnyExplained) → IsAfter stream told self.old → IfOk result (λ text. Goes stream told piece.now self.new text.items) }
        ensures at_most { OnOk result (self.new.told ≤ self.old.told + length piece.now + 1) }
    {
        let lines = self.feed.push(piece)?;
        let too_long = self.feed.too_long();
        let Said {
            text,
            number,
            calls,
        } = all_told(alloc, &lines, too_long, self.told + 1)?;
        self.told += number;
        self.calls = both(self.calls, calls);
        Ok(text)
    }

    /// Whether a line was too long. Nothing behind it is read.
    pub fn too_long(&self) -> bool
        ensures { IsTrue result ↔ (self.now.feed ≡ None) }
    {
        self.feed.too_long()
    }
}
