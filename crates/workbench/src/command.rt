//! What the words of the command line ask for.

use crate::calls::disks::effect_of;
use crate::gates::gate::Place;
use line_disk::Effect;
use std::num::NonZeroU32;

/// Which tool is wanted.
#[derive(Clone, Copy)]
pub enum Command<'a> {
    /// An answer to each line.
    Calls,
    /// So many passes of a coordinator.
    Passes(u32),
    /// Three sessions over a coordinator that computes a line by so many threads, of which one waits at this place.
    Gate { workers: NonZeroU32, place: Place },
    /// Three sessions by two workers, whose clients send and get so many bytes at a time.
    Workers(NonZeroU32),
    /// A session in steps, whose client sends and gets so many bytes at a time, over coordinators that each make so many steps.
    Lasting { most: NonZeroU32, count: NonZeroU32 },
    /// A table of needs by so many threads, of which two may wait for each other.
    Table { workers: NonZeroU32, place: Place },
    /// A session over a coordinator of the record file of this path.
    Served(&'a str),
    /// The calls of a coordinator over the record file of this path, made once more where memory was wanting.
    Shared(&'a str),
    /// Whether the openings of files at this path write to them.
    Openings(&'a str),
    /// The calls of a coordinator over a disk in memory, of which the call of this number fails.
    Failing { call: u32, effect: Effect },
    /// The steps of a world, taken once more where memory was wanting.
    World,
}

// The tool that is named by one word alone.
fn tool_of(tool: &str) -> Option<Command<'_>> {
    match tool {
        "calls" => Some(Command::Calls),
        "world" => Some(Command::World),
        _ => None,
    }
}

// The tool that takes this word.
fn tool_by_one<'a>(tool: &str, word: &'a str) -> Option<Command<'a>> {
    match tool {
        "passes" => Some(Command::Passes(number_of(word)?)),
        "workers" => Some(Command::Workers(count_of(word)?)),
        "served" => Some(Command::Served(word)),
        "shared" => Some(Command::Shared(word)),
        "openings" => Some(Command::Openings(word)),
        _ => None,
    }
}

// The tool that takes these two words.
fn tool_by_two<'a>(tool: &str, one: &'a str, other: &'a str) -> Option<Command<'a>> {
    match tool {
        "gate" => Some(Command::Gate {
            workers: count_of(one)?,
            place: place_of(other)?,
        }),
        "lasting" => Some(Command::Lasting {
            most: count_of(one)?,
            count: count_of(other)?,
        }),
        "table" => Some(Command::Table {
            workers: count_of(one)?,
            place: place_of(other)?,
        }),
        "failing" => Some(Command::Failing {
            call: number_of(one)?,
            effect: effect_of(other)?,
        }),
        _ => None,
    }
}

/// What the words ask for, of which the first is the program's name; nothing, where they are no command.
pub fn read(words: &[String]) -> Option<Command<'_>> {
    let (_program, words) = words.split_first()?;
    let (tool, rest) = words.split_first()?;
    match rest {
        [] => tool_of(tool.as_str()),
        [word] => tool_by_one(tool.as_str(), word.as_str()),
        [one, other] => tool_by_two(tool.as_str(), one.as_str(), other.as_str()),
        _ => None,
    }
}

fn place_of(word: &str) -> Option<Place> {
    match word {
        "open" => Some(Place::Open),
        "session" => Some(Place::Session),
        "line" => Some(Place::Line),
        "run" => Some(Place::Run),
        "runs" => Some(Place::Runs),
        _ => None,
    }
}

fn number_of(word: &str) -> Option<u32> {
    word.parse::<u32>().ok()
}

fn count_of(word: &str) -> Option<NonZeroU32> {
    NonZeroU32::new(number_of(word)?)
}
