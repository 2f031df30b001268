//! Calls on processes and places of the chains.

ghost use Rattle.std.specs.Prelude.{◌<◌, length, IfOk};
ghost use Rattle.chains.specs.Processes.{known};

use super::answer::Answer;
use chains::{Chains, Failed, KeepFault, Line, Place, Position};
use knows_row::{knows, last_known, need};
use propagate::greatest_cut;
use report_line::{Name, Names};
use std::alloc::{AllocError, Global};
use std::fmt;

/// Why a word of a call stands for nothing.
#[derive(Clone, Copy)]
pub enum WordFault<'a> {
    /// No process has this name.
    Unknown(&'a str),
    /// It is not the number that should stand there.
    Number,
    /// No process can return to the line that the words spell.
    Unfit,
    /// A growth was refused.
    Memory,
}

impl fmt::Debug for WordFault<'_> {
    fn fmt<W: fmt::Write>(&self, f: &mut fmt::Formatter<W>) -> fmt::Result {
        match self {
            WordFault::Unknown(name) => write!(f, "Unknown({name})"),
            WordFault::Number => write!(f, "?"),
            WordFault::Unfit => write!(f, "Unfit"),
            WordFault::Memory => write!(f, "Memory"),
        }
    }
}

impl From<AllocError> for WordFault<'_> {
    fn from(_error: AllocError) -> Self {
        WordFault::Memory
    }
}

/// The number of the process that has the word as its name.
fn process_of<'a>(chains: &Chains, word: &'a str) -> Result<u32, WordFault<'a>>
    ensures { IfOk result (λ process. process < length (known chains.now.accepted)) }
{
    let number = match Name::from_bytes(word.as_bytes()) {
        Some(name) => chains.number_of(&name),
        None => None,
    };
    match number {
        Some(number) if number < chains.count() => Ok(number),
        _ => Err(WordFault::Unknown(word)),
    }
}

// Refuses a word with a part that is not the name of a process. A part that could be no name is told before the others.
fn are_known<'a>(chains: &Chains, word: &'a str) -> Result<(), WordFault<'a>> {
    let unnamed = word
        .split(',')
        .find(|part| Name::from_bytes(part.as_bytes()).is_none());
    let unknown = word
        .split(',')
        .find(|part| process_of(chains, part).is_err());
    match unnamed.or(unknown) {
        Some(part) => Err(WordFault::Unknown(part)),
        None => Ok(()),
    }
}

// Adds the names in the word, which are separated by commas.
fn add_names(names: &mut Names, word: &str) -> Result<(), AllocError> {
    for part in word.split(',') {
        if let Some(name) = Name::from_bytes(part.as_bytes()) {
            names.push(name)?;
        }
    }
    Ok(())
}

fn names_of(alloc: Global, word: &str) -> Result<Names, AllocError> {
    let mut names = Names::new(alloc);
    add_names(&mut names, word)?;
    Ok(names)
}

/// The failed set that a word names: `*` for all processes, `-` for none, or names separated by commas.
pub fn failed_of<'a>(chains: &Chains, word: &'a str) -> Result<Failed, WordFault<'a>> {
    if word == "*" {
        return Ok(Failed::all(chains)?);
    }
    if word != "-" {
        are_known(chains, word)?;
    }
    let names = names_of(chains.alloc(), word)?;
    // All are known.
    Failed::from_names(chains, &names).map_err(|_| WordFault::Memory)
}

fn number_of(word: &str) -> Result<u32, WordFault<'_>> {
    match word.parse::<u32>() {
        Ok(number) => Ok(number),
        Err(_) => Err(WordFault::Number),
    }
}

fn position_of(word: &str) -> Result<Position, WordFault<'_>> {
    if word == "retired" {
        return Ok(Position::Retired);
    }
    Ok(Position::At(number_of(word)?))
}

fn place_of<'a>(
    chains: &Chains,
    process: &'a str,
    position: &'a str,
) -> Result<Place, WordFault<'a>> {
    Ok(Place {
        process: process_of(chains, process)?,
        position: position_of(position)?,
    })
}

// Adds these places to the line, each a name and a position.
fn add_places<'a>(
    line: &mut Line,
    chains: &Chains,
    words: &[&'a str],
) -> Result<(), WordFault<'a>> {
    for pair in words.chunks(2) {
        let [process, position] = *pair else {
            return Err(WordFault::Number);
        };
        line.push(place_of(chains, process, position)?)?;
    }
    Ok(())
}

// What the line keeps.
fn kept_by<'a>(chains: &Chains, line: &Line) -> Result<Chains, WordFault<'a>> {
    chains.keep(line).map_err(|fault| match fault {
        KeepFault::Unfit => WordFault::Unfit,
        KeepFault::Memory => WordFault::Memory,
    })
}

/// What the line of these places keeps.
pub fn kept_of<'a>(chains: &Chains, words: &[&'a str]) -> Result<Chains, WordFault<'a>> {
    let mut line = Line::new(chains.alloc());
    add_places(&mut line, chains, words)?;
    kept_by(chains, &line)
}

fn put_position(position: Position, out: &mut Answer) {
    match position {
        Position::At(k) => out.put_number(k),
        Position::Retired => out.put(b"retired"),
    }
}

// Where the process stands last, if these failed.
fn put_last_surviving<'a>(
    chains: &Chains,
    process: &'a str,
    failed: &'a str,
    out: &mut Answer,
) -> Result<(), WordFault<'a>> {
    let process = process_of(chains, process)?;
    let failed = failed_of(chains, failed)?;
    put_position(chains.last_surviving(process, &failed), out);
    Ok(())
}

fn rounds_of(chains: &Chains, failed: &Failed) -> Result<u32, AllocError> {
    Ok(greatest_cut(chains, failed)?.rounds)
}

fn put_rounds<'a>(chains: &Chains, failed: &'a str, out: &mut Answer) -> Result<(), WordFault<'a>> {
    let failed = failed_of(chains, failed)?;
    let rounds = rounds_of(chains, &failed);
    drop(failed);
    out.put_number(rounds?);
    Ok(())
}

// Whether the place knows the process after the position.
fn put_whether_knowing<'a>(
    chains: &Chains,
    (knowing, place): (&'a str, &'a str),
    (process, position): (&'a str, &'a str),
    out: &mut Answer,
) -> Result<(), WordFault<'a>> {
    let place = place_of(chains, knowing, place)?;
    let known = place_of(chains, process, position)?;
    out.put_whether(knows(chains, place, known.process, known.position));
    Ok(())
}

fn put_need<'a>(
    chains: &Chains,
    (needing, place): (&'a str, &'a str),
    process: &'a str,
    out: &mut Answer,
) -> Result<(), WordFault<'a>> {
    let place = place_of(chains, needing, place)?;
    let process = process_of(chains, process)?;
    out.put_number(need(chains, place, process));
    Ok(())
}

// One more than the last element of the process from `from` on and below `to` that the place knows.
fn put_last_known<'a>(
    chains: &Chains,
    (knowing, place): (&'a str, &'a str),
    process: &'a str,
    (from, to): (&'a str, &'a str),
    out: &mut Answer,
) -> Result<(), WordFault<'a>> {
    let place = place_of(chains, knowing, place)?;
    let process = process_of(chains, process)?;
    let (from, to) = (number_of(from)?, number_of(to)?);
    out.put_number(last_known(chains, place, process, from, to));
    Ok(())
}

/// Answers a call on processes and places; whether the words are one.
pub fn answer(chains: &Chains, words: &[&str], out: &mut Answer) -> bool {
    let done = match *words {
        ["last_surviving", process, failed] => put_last_surviving(chains, process, failed, out),
        ["rounds", failed] => put_rounds(chains, failed, out),
        ["knows", process, position, other, after] => {
            put_whether_knowing(chains, (process, position), (other, after), out)
        }
        ["need", process, position, other] => put_need(chains, (process, position), other, out),
        ["last_known", process, position, other, from, to] => {
            put_last_known(chains, (process, position), other, (from, to), out)
        }
        _ => return false,
    };
    if let Err(fault) = done {
        out.put_fault(&fault);
    }
    true
}
